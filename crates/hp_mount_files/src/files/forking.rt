//! A child gets maps.
ghost use Rattle.std.specs.Prelude.{◌≡◌, ◌^◌, ◌<◌, ◌≤◌, ◌==◌, false, length, map, IfOk, OnOk, OnErr};
ghost use Rattle.std.specs.List.{count_by, filter, sum_by};
ghost use Rattle.hp_lookup.specs.Dropping.{IsLeft};
ghost use Rattle.hp_lookup.specs.Places.{all_maps};
ghost use Rattle.hp_model.specs.files.Fork.{file_forked};
ghost use Rattle.hp_model.specs.files.GiveBack.{is_kept};
ghost use Rattle.hp_model.specs.files.Mapping.{is_of};
ghost use Rattle.hp_model.specs.files.MountCounts.{file_reserves};
ghost use Rattle.hp_model.specs.Profile.{most_maps};

use super::Files;
use crate::lookup::Lookup;
use hp_file::{children, drop_some_maps_of, join_all, retain_some_used, room_for};
use hp_lookup::MapPlace;
use hp_model::naming::Naming;
use std::alloc::AllocError;

impl<N: Naming> Files<N> {
    /// How many maps a task has.
    pub fn map_count_for(&self, task: u64) -> u64
        ensures { result ≡ count_by (is_of task) (all_maps self.now.files) }
    {
        self.hints.count(task)
    }

    // Where the maps of a task stand, in order of these places.
    fn places_of(&self, task: u64) -> Result<Vec<MapPlace>, AllocError> {
        let count = self.hints.count(task) as usize;
        let mut places = Vec::with_capacity(self.alloc, count)?;
        for map in 0..count {
            if let Some(number) = self.hints.nth(task, map) {
                if let Some(at) = self.find(task, number) {
                    places.push(at)?;
                }
            }
        }
        places.sort_unstable();
        Ok(places)
    }

    /// A child gets a map for each of its parent's: the same number, range, copies and mark; it owns nothing. Maps that
    /// stand under the child's number go first, as by `exit`. Answers how many reservations went with them. Afterwards there
    /// is room for `held` pages, beside those for copies that several maps hold.
    ///
    /// Refused where memory is, before anything else changes but the room. It takes a step for each place of the parent's
    /// maps. Where maps stand under the child's number, it takes one for each file and map of the slot.
    pub fn fork(&mut self, parent: u64, child: u64, held: u64) -> Result<u64, AllocError>
        requires apart { (parent == child) ≡ false }
        requires few { sum_by file_reserves self.old.files < 2 ^ 64 }
        requires maps { length (all_maps (filter is_kept
            (map (file_forked parent child) self.old.files)))
            ≤ most_maps }
        ensures files { OnOk result (self.new.files
            ≡ filter is_kept (map (file_forked parent child) self.old.files)) }
        ensures left { IfOk result (λ reserves.
            IsLeft reserves (record self.old { room = held }) self.new) }
        ensures err { OnErr result (self.new ≡ record self.old { room = self.new.room }) }
        ensures more { OnErr result (self.old.room ≤ self.new.room) }
    {
        let count = self.hints.count(parent);
        let places = self.places_of(parent)?;
        let lists = children(
            &self.list,
            &places,
            self.alloc,
            &mut self.tags,
            parent,
            child,
            count,
        )?;
        let theirs = self.hints.copy_of(parent)?;
        self.hints.make_room()?;
        let room = room_for(held, self.pages.more, &lists);
        self.pages.store.make_room(room)?;
        let gone = drop_some_maps_of(
            child,
            self.hints.count(child),
            &mut self.list,
            &mut self.pages,
        );
        self.hints.forget_maps_of(child);
        self.hints.put(child, theirs);
        join_all(child, lists, &mut self.list, &self.hints, &mut self.pages);
        retain_some_used(gone.maps, &mut self.list);
        self.maps -= gone.maps;
        self.maps += count;
        Ok(gone.reserves)
    }
}
