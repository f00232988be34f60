//! Maps that leave a mount.
ghost use Rattle.std.specs.Prelude.{◌≡◌, ℕ, Ok, Some, [], length, true, ◌<◌, IfNone, IfSome};
ghost use Rattle.hp_model.specs.declared.answer.Answer.TheVariants.{Done};
ghost use Rattle.hp_model.specs.declared.event.SlotEvent.TheVariants.{ExitMaps, Unmap};
ghost use Rattle.hp_model.specs.files.File.{maps_of};
ghost use Rattle.hp_model.specs.files.GiveBack.{without_task};
ghost use Rattle.hp_model.specs.machine.Event.{has_maps_of};
ghost use Rattle.hp_model.specs.beside.Accesses.{done_reply};
ghost use Rattle.hp_lookup.specs.Places.{IsFirstTask};
ghost use Rattle.hp_mount_laws.specs.Done.{IsDone, NeedsNoRoom};

use super::Mount;
use hp_model::naming::Naming;
use hp_model::profile::MOST_FILE_PAGES;
use hp_model::refusal::Refusal;
use hp_mount_door::PoolDoor;
use hp_mount_files::Lookup;
use std::ops::Range;

impl<N: Naming> Mount<N> {
    /// The least number of a task that has a map, if there is a map. It takes a step for each file and map.
    pub fn first_task(&self) -> Option<u64>
        ensures some { IfSome result (λ task. IsFirstTask self.now.files task) }
        ensures none { IfNone result (maps_of self.now ≡ []) }
    {
        self.files.first_task()
    }

    /// Whether the task has a map. It walks over no file or map.
    pub fn has_maps(&self, task: u64) -> bool
        ensures { result ≡ has_maps_of task (Some self.now) }
    {
        self.files.has_maps(task)
    }

    /// All maps of a task go, with their private copies and what their owners have reserved and not consumed; and files
    /// that are left without name and maps, with their pages and entries. All that goes back to the pool, but for what the
    /// minimum keeps. Never refused. It takes a step for each map of the task and each page that goes, and no memory.
    pub fn exit_maps<D: PoolDoor<N>>(&mut self, door: &mut D, task: u64)
        requires ready { D.is_ready door.old }
        ensures done { (size k : ℕ) → IsDone D.took D.is_full size k (Some self.old) door.old
            (ExitMaps task) (Ok Done) (Some self.new) door.new }
        ensures mount { self.new ≡ without_task task self.old }
        ensures fewer { has_maps_of task (Some self.old) ≡ true
            → length (maps_of self.new) < length (maps_of self.old) }
        ensures left { D.is_left door.new }
    {
        // the files have no more reservations than the share holds, so 64 bits count them
        let _held = self.share.held();
        let reserves = self.files.exit(task);
        self.files.give_back(door, &mut self.share, reserves);
    }

    /// A file's indices from `start` up to `end` leave a task's map, with its private copies of them and what its owner has
    /// reserved there and not consumed. A map that has no index left goes; so does a file that is left without name and
    /// maps. All that goes back to the pool, but for what the minimum keeps. A shared map's reservations stay with the file
    /// (profile).
    ///
    /// Refused, and then nothing changes, by the first of these that holds:
    /// - NoSuchMap: the task has no map of that number.
    /// - OutOfRange: the range is empty, or `end` is above 16,777,216 (profile).
    pub fn unmap<D: PoolDoor<N>>(
        &mut self,
        door: &mut D,
        task: u64,
        map: u64,
        range: Range<u64>,
    ) -> Result<(), Refusal>
        requires ready { D.is_ready door.old }
        ensures done { (size k : ℕ) → IsDone D.took D.is_full size k (Some self.old) door.old
            (Unmap task map range.start range.end) (done_reply result) (Some self.new) door.new }
        ensures left { D.is_left door.new }
        ensures free { NeedsNoRoom (done_reply result) }
    {
        let Range { start, end } = range;
        let Some(at) = self.files.find(task, map) else {
            return Err(Refusal::NoSuchMap);
        };
        if end <= start || end > MOST_FILE_PAGES {
            return Err(Refusal::OutOfRange);
        }
        // the files have no more reservations than the share holds, so 64 bits count them
        let _held = self.share.held();
        let reserves = self.files.unmap(at, task, map, start, end);
        self.files.give_back(door, &mut self.share, reserves);
        Ok(())
    }
}
