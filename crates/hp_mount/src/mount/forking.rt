//! A child gets maps on a mount.
ghost use Rattle.std.specs.Prelude.{◌≡◌, ◌≢◌, ◌==◌, ◌||◌, nat_lt, length, false, ℕ, Err, Some};
ghost use Rattle.hp_model.specs.declared.event.SlotEvent.TheVariants.{ForkMaps};
ghost use Rattle.hp_model.specs.declared.refusal.Refusal.TheVariants as Refusal;
ghost use Rattle.hp_model.specs.beside.Accesses.{done_reply};
ghost use Rattle.hp_model.specs.files.File.{maps_of};
ghost use Rattle.hp_model.specs.files.Fork.{forked};
ghost use Rattle.hp_model.specs.files.MakeMap.{tasks_of};
ghost use Rattle.hp_model.specs.Profile.{most_maps, most_tasks};
ghost use Rattle.hp_mount_laws.specs.Done.{IsDone};

use super::Mount;
use super::making::MOST_TASKS;
use hp_model::naming::Naming;
use hp_model::profile::MOST_MAPS;
use hp_model::refusal::Refusal;
use hp_mount_door::PoolDoor;

impl<N: Naming> Mount<N> {
    // Whether there would be more maps after a fork, or maps of more tasks, than a mount may have.
    fn forks_too_many(&self, parent: u64, child: u64) -> bool
        requires apart { (parent == child) ≡ false }
        ensures { result ≡ (nat_lt most_maps (length (maps_of (forked parent child self.now)))
            || nat_lt most_tasks (length (tasks_of (forked parent child self.now)))) }
    {
        let of_parent = self.files.map_count_for(parent);
        let of_child = self.files.map_count_for(child);
        let others = self.files.map_count().saturating_sub(of_child);
        if others.saturating_add(of_parent) > MOST_MAPS {
            return true;
        }
        let tasks = self
            .files
            .task_count()
            .saturating_add((of_parent > 0) as u64);
        tasks.saturating_sub((of_child > 0) as u64) > MOST_TASKS
    }

    /// A child gets a map for each of its parent's: the same number, range, copies and mark; it owns nothing, and no page is
    /// copied. Maps that stand under the child's number go first, as by `exit_maps`; what they held goes back to the pool,
    /// but for what the minimum keeps.
    ///
    /// Refused, and then nothing changes, by the first of these that holds:
    /// - TooMany: after it there are more than 4,096 maps, or maps of more than 4,096 tasks (profile).
    /// - OutOfMemory: memory for the child's maps is refused.
    ///
    /// It takes a step for each place of the parent's maps.
    pub fn fork_maps<D: PoolDoor<N>>(
        &mut self,
        door: &mut D,
        parent: u64,
        child: u64,
    ) -> Result<(), Refusal>
        requires ready { D.is_ready door.old }
        requires apart { (parent == child) ≡ false }
        ensures done { (size k : ℕ) → IsDone D.took D.is_full size k (Some self.old) door.old
            (ForkMaps parent child) (done_reply result) (Some self.new) door.new }
        ensures left { D.is_left door.new }
        ensures noted { done_reply result ≢ Err Refusal.TraceFull }
    {
        if self.forks_too_many(parent, child) {
            return Err(Refusal::TooMany);
        }
        let held = self.share.held();
        let Ok(reserves) = self.files.fork(parent, child, held) else {
            return Err(Refusal::OutOfMemory);
        };
        self.files.give_back(door, &mut self.share, reserves);
        Ok(())
    }
}
