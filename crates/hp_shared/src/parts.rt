//! The parts for which a machine takes memory at its start.
ghost use Rattle.std.specs.Prelude.{◌≡◌, ◌≤◌, ◌*◌, ◌==◌, [], length, vec_len, vec_capacity, All, IfOk};
ghost use Rattle.std.specs.List.{sum};
ghost use Rattle.hp_model.specs.Profile.{most_frames, most_places, most_tasks};
ghost use Rattle.hp_trail.specs.Keeping.{extra_if};

use crate::making::{FreshTrail, all_frames, open_trail, open_trails};
use crate::seated_slot::SeatedSlot;
use crate::spare::Spare;
use hp_history::Places;
use hp_model::entry::{PoolEntry, SlotEntry, TableEntry};
use hp_model::naming::Naming;
use hp_model::profile::MOST_TASKS;
use hp_order::LineLock;
use hp_tasks::TaskTable;
use hp_trail::trace::Trace;
use std::alloc::{AllocError, Global};

// A table with no task, and trails with nothing in them yet: its own, the pool's and the slots'.
#[derive(Drop)]
pub(crate) struct Fresh<const K: usize> {
    pub(crate) tasks: TaskTable,
    pub(crate) of_tasks: Trace<TableEntry, K>,
    pub(crate) of_pool: Trace<PoolEntry, K>,
    pub(crate) of_slots: Vec<FreshTrail<K>>,
    ghost none: { tasks ≡ [] },
    ghost no_tasks: { of_tasks.entries ≡ [] },
    ghost enough: { most_tasks ≤ extra_if (K == 1) of_tasks },
    ghost no_pool: { of_pool.entries ≡ [] },
}

impl<const K: usize> Fresh<K> {
    fn open(alloc: Global, frames: &[u64], slots: usize, places: usize) -> Result<Self, AllocError>
        requires few { length frames.now ≤ 4 }
        requires small { All (λ f. f ≤ most_frames) frames.now }
        requires places { places ≤ most_places }
        ensures enough { IfOk result (λ f. 2 * sum frames.now ≤ extra_if (K == 1) f.of_pool) }
        ensures slots { IfOk result (λ f. vec_len f.of_slots ≡ slots) }
    {
        let tasks = TaskTable::new(alloc)?;
        let of_tasks = open_trail(alloc, places, MOST_TASKS)?;
        let of_pool = open_trail(alloc, places, 2 * all_frames(frames))?;
        let of_slots = open_trails(alloc, slots, places)?;
        Ok(Fresh {
            tasks,
            of_tasks,
            of_pool,
            of_slots,
        })
    }
}

// Parts that are fresh, with room for the slots under their locks, and for what these leave.
pub(crate) struct Parts<N: Naming + Places, const K: usize> {
    pub(crate) fresh: Fresh<K>,
    pub(crate) spare: Spare<N>,
    pub(crate) locks: Vec<LineLock<SeatedSlot<N, Trace<SlotEntry, K>>>>,
    ghost none: { vec_len locks ≡ 0 },
    ghost room: { vec_len fresh.of_slots ≤ vec_capacity locks },
}

impl<N: Naming + Places, const K: usize> Parts<N, K> {
    pub(crate) fn open(
        alloc: Global,
        frames: &[u64],
        slots: usize,
        places: usize,
    ) -> Result<Self, AllocError>
        requires few { length frames.now ≤ 4 }
        requires small { All (λ f. f ≤ most_frames) frames.now }
        requires places { places ≤ most_places }
        ensures enough { IfOk result (λ p. 2 * sum frames.now ≤ extra_if (K == 1) p.fresh.of_pool) }
        ensures slots { IfOk result (λ p. vec_len p.fresh.of_slots ≡ slots) }
    {
        let fresh = Fresh::open(alloc, frames, slots, places)?;
        let spare = Spare::open(alloc)?;
        match Vec::with_capacity(alloc, slots) {
            Ok(locks) => Ok(Parts {
                fresh,
                spare,
                locks,
            }),
            Err(error) => {
                spare.close();
                Err(error)
            }
        }
    }

    // Ends them, where no machine is made.
    pub(crate) fn close(self) {
        let Parts {
            fresh: _,
            spare,
            locks,
        } = self;
        locks.destroy_empty();
        spare.close();
    }
}
