//! Maps that leave the files.
ghost use Rattle.std.specs.Prelude.{◌≡◌, ◌^◌, ◌<◌, ◌≤◌, [], map, IfNone, IfSome};
ghost use Rattle.std.specs.List.{filter, sum_by};
ghost use Rattle.hp_model.specs.files.GiveBack.{file_unmapped, file_without, is_kept};
ghost use Rattle.hp_model.specs.files.Mapping.{is_map};
ghost use Rattle.hp_model.specs.files.MountCounts.{file_reserves};
ghost use Rattle.hp_lookup.specs.Dropping.{IsLeft};
ghost use Rattle.hp_lookup.specs.Places.{IsFirstTask, IsFound, all_maps};

use super::Files;
use crate::lookup::Lookup;
use hp_file::{drop_maps_of, sweep_file};
use hp_lookup::MapPlace;
use hp_model::naming::Naming;

// A map that moves takes one step; a map that goes alone takes so many more.
const ALONE: usize = 256;

// A map that is gone over takes so many, and a file twice as many.
const LOOKED_AT: usize = 4;

// So many steps may go to maps that go alone, beside those that going over all would take.
const FEW: usize = 2 * ALONE;

impl<N: Naming> Files<N> {
    /// The least number of a task that has a map, if there is a map. It takes a step for each file and map.
    pub fn first_task(&self) -> Option<u64>
        ensures some { IfSome result (λ task. IsFirstTask self.now.files task) }
        ensures none { IfNone result (all_maps self.now.files ≡ []) }
    {
        let files = &self.list;
        let mut least = None;
        for at in 0..files.len() {
            least = files[at].least_task(least);
        }
        least
    }

    // The task's maps go, found by going over the files, as by `exit`.
    fn exit_among_all(&mut self, task: u64) -> u64
        requires { sum_by file_reserves self.old.files < 2 ^ 64 }
        ensures files { self.new.files ≡ filter is_kept (map (file_without task) self.old.files) }
        ensures left { IsLeft result self.old self.new }
    {
        if !self.has_maps(task) {
            return 0;
        }
        let gone = drop_maps_of(task, &mut self.list, &mut self.pages);
        self.hints.forget_maps_of(task);
        self.list.retain_used();
        self.maps -= gone.maps;
        gone.reserves
    }

    // The task's map of that number goes, if there is one, where so many steps suffice. What the task leaves behind in the end is the
    // same.
    fn exit_map(&mut self, task: u64, number: u64, steps: usize) -> u64
        requires { sum_by file_reserves self.old.files < 2 ^ 64 }
        ensures files { filter is_kept (map (file_without task) self.new.files)
            ≡ filter is_kept (map (file_without task) self.old.files) }
        ensures left { IsLeft result self.old self.new }
    {
        let Some(at) = self.find(task, number) else {
            return 0;
        };
        let file = &self.list[at.file];
        let behind = file.map_count().saturating_sub(at.map);
        if behind.saturating_add(ALONE) > steps {
            return 0;
        }
        let map = file.map(at.map);
        let start = map.start();
        let end = map.end();
        self.unmap(at, task, number, start, end)
    }

    /// All maps of a task go, with their private copies and what their owners have not consumed. Files that are left
    /// without name and maps go, with their pages and entries, and the others move down. Answers how many reservations
    /// went. It takes a step for each index that the maps had, and for each page that went, and one for each map that
    /// moves; but no more than a few for each file and map of the slot. It takes no memory.
    pub fn exit(&mut self, task: u64) -> u64
        requires { sum_by file_reserves self.old.files < 2 ^ 64 }
        ensures files { self.new.files ≡ filter is_kept (map (file_without task) self.old.files) }
        ensures left { IsLeft result self.old self.new }
    {
        let mut reserves = 0;
        let count = self.hints.count(task) as usize;
        let files = self.list.len();
        let all = (self.maps as usize)
            .saturating_add(files)
            .saturating_add(files);
        let steps = all.saturating_mul(LOOKED_AT).saturating_add(FEW);
        for map in (0..count).rev() {
            if let Some(number) = self.hints.nth(task, map) {
                reserves += self.exit_map(task, number, steps / count);
            }
            if self.hints.count(task) as usize > map {
                break;
            }
        }
        reserves + self.exit_among_all(task)
    }

    /// The file's indices from `a` up to `b` leave a task's map, with its private copies of them and what its owner has not
    /// consumed there. A map without indices goes; so does a file that is left without name and maps, with its pages and
    /// entries. Answers how many reservations went. It takes a step for each index of the range that the map had, and for
    /// each page that went; and no memory.
    pub fn unmap(&mut self, at: MapPlace, task: u64, number: u64, a: u64, b: u64) -> u64
        requires found { IsFound self.old.files task number at.file at.map }
        requires order { a ≤ b }
        requires few { sum_by file_reserves self.old.files < 2 ^ 64 }
        ensures files { self.new.files
            ≡ filter is_kept (map (file_unmapped (is_map task number) a b) self.old.files) }
        ensures left { IsLeft result self.old self.new }
    {
        let file = &mut self.list[at.file];
        let gone = file.unmap(at.map, a, b, &mut self.pages);
        if gone.maps == 0 {
            return gone.reserves;
        }
        self.hints.forget_map(task, number);
        let entries = sweep_file(&mut self.list, at.file, &mut self.pages);
        self.maps -= 1;
        gone.reserves + entries
    }
}
