//! Maps that leave a file.
ghost use Rattle.std.specs.Prelude.{◌≡◌, ◌^◌, ◌+◌, ◌<◌, ◌≤◌, ℕ, length, map, if◌then◌else◌};
ghost use Rattle.std.specs.List.{remove};
ghost use Rattle.hp_model.specs.files.Mapping.{is_mapped, without_range};
ghost use Rattle.hp_file.specs.HeldPages.{AreDropped, AreHeld};
ghost use Rattle.hp_lookup.specs.Held.{in_file};
ghost use Rattle.hp_lookup.specs.Numbered.{mapping_at};
ghost use Rattle.hp_lookup.specs.Leaving.{cut_at, emptied, file_owed, is_used, least_among, lesser_task, left_at, left_by};

use super::File;
use crate::dropping::{drop_map, end_maps_of, leave_range};
use crate::held_pages::HeldPages;
use hp_lookup::Departed;
use hp_model::naming::Naming;

// The lesser of a task and one that is known, if any.
fn lesser(known: Option<u64>, task: u64) -> u64
    ensures { result ≡ lesser_task known task }
{
    match known {
        Some(known) => known.min(task),
        None => task,
    }
}

impl File {
    /// The least of a task that is known, if any, and those that have maps of the file.
    pub fn least_task(&self, known: Option<u64>) -> Option<u64>
        ensures { result ≡ least_among known (map (λ m. m.task) self.now.maps) }
    {
        let maps = self.maps.as_slice();
        let mut least = known;
        for map in maps {
            least = Some(lesser(least, map.task()));
        }
        least
    }

    /// Whether it has a name or a map.
    pub fn is_used(&self) -> bool
        ensures { result ≡ is_used self.now }
    {
        self.name.is_some() || !self.maps.is_empty()
    }

    /// All maps of a task go, with what they hold. A file that is left without name and maps loses its pages and entries.
    pub fn drop_maps_of<N: Naming>(&mut self, task: u64, pages: &mut HeldPages<N>) -> Departed
        requires held { AreHeld (λ n. in_file n self.old) pages.old }
        requires few { file_owed self.old < 2 ^ 64 }
        ensures file { self.new ≡ emptied (left_by task self.old) }
        ensures dropping { AreDropped (λ n. in_file n self.old)
            (λ n. in_file n self.new) pages.old pages.new }
        ensures reserves { result.reserves + file_owed self.new ≡ file_owed self.old }
        ensures maps { result.maps + length self.new.maps ≡ length self.old.maps }
    {
        let list = &mut self.maps;
        let before = list.len();
        let reserves = end_maps_of(task, list, pages);
        list.retain(|m| m.task() != task);
        let maps = (before - list.len()) as u64;
        if self.is_used() {
            return Departed { maps, reserves };
        }
        let entries = self.truncate(0, pages);
        Departed {
            maps,
            reserves: reserves + entries,
        }
    }

    // A map goes, with its copies. Answers how many reservations went. It takes a step for each copy.
    fn end_map<N: Naming>(&mut self, map: usize, pages: &mut HeldPages<N>) -> u64
        requires within { map < length self.old.maps }
        requires held { AreHeld (λ n. in_file n self.old) pages.old }
        ensures file { self.new ≡ record self.old { maps = remove self.old.maps map } }
        ensures dropping { AreDropped (λ n. in_file n self.old)
            (λ n. in_file n self.new) pages.old pages.new }
        ensures reserves { result + file_owed self.new ≡ file_owed self.old }
    {
        let gone = self.maps.remove(map);
        drop_map(&gone, pages);
        gone.reserve_count()
    }

    // The file's indices from `a` up to `b` leave a map, with its copies of them. Answers how many reservations went.
    fn cut_map<N: Naming>(&mut self, map: usize, a: u64, b: u64, pages: &mut HeldPages<N>) -> u64
        requires within { map < length self.old.maps }
        requires order { a ≤ b }
        requires held { AreHeld (λ n. in_file n self.old) pages.old }
        ensures file { self.new ≡ cut_at map a b self.old }
        ensures dropping { AreDropped (λ n. in_file n self.old)
            (λ n. in_file n self.new) pages.old pages.new }
        ensures reserves { result + file_owed self.new ≡ file_owed self.old }
    {
        let at = &mut self.maps[map];
        leave_range(at, a, b, pages)
    }

    /// The file's indices from `a` up to `b` leave a map, with its copies of them. A map without indices goes, and those
    /// behind it move down.
    pub fn unmap<N: Naming>(
        &mut self,
        map: usize,
        a: u64,
        b: u64,
        pages: &mut HeldPages<N>,
    ) -> Departed
        requires within { map < length self.old.maps }
        requires order { a ≤ b }
        requires held { AreHeld (λ n. in_file n self.old) pages.old }
        ensures file { self.new ≡ left_at map a b self.old }
        ensures maps { result.maps
            ≡ (if is_mapped (without_range a b (mapping_at self.old map)) then 0 else 1) }
        ensures dropping { AreDropped (λ n. in_file n self.old)
            (λ n. in_file n self.new) pages.old pages.new }
        ensures reserves { result.reserves + file_owed self.new ≡ file_owed self.old }
    {
        let at = &self.maps[map];
        if a <= at.start() && at.end() <= b {
            let reserves = self.end_map(map, pages);
            return Departed { maps: 1, reserves };
        }
        let reserves = self.cut_map(map, a, b, pages);
        if self.maps[map].is_mapped() {
            return Departed { maps: 0, reserves };
        }
        self.remove_map(map);
        Departed { maps: 1, reserves }
    }

    // A map goes, and those behind it move down.
    fn remove_map(&mut self, map: usize)
        requires { map < length self.old.maps }
        ensures { self.new ≡ record self.old { maps = remove self.old.maps map } }
    {
        let _gone = self.maps.remove(map);
    }
}
