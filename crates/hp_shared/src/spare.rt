//! Room for the parts of all slots.
ghost use Rattle.std.specs.Prelude.{◌≡◌, ◌≤◌, [], vec_capacity};
ghost use Rattle.hp_model.specs.Profile.{most_slots};

use hp_model::entry::SlotEntry;
use hp_model::naming::Naming;
use hp_model::profile::MOST_SLOTS;
use hp_mount::Mount;
use std::alloc::{AllocError, Global};

// Room for the mounts and the trails of all slots, which is made at the start. It stands under a lock, since what holds
// permits is not `Sync`.
pub(crate) struct Spare<N: Naming> {
    mounts: Vec<Option<Mount<N>>>,
    trails: Vec<Vec<SlotEntry>>,
    ghost mounts_fit: { most_slots ≤ vec_capacity mounts },
    ghost trails_fit: { most_slots ≤ vec_capacity trails },
    ghost no_mounts: { mounts.items ≡ [] },
    ghost no_trails: { trails.items ≡ [] },
}

impl<N: Naming> Spare<N> {
    pub(crate) fn open(alloc: Global) -> Result<Self, AllocError> {
        let trails = Vec::with_capacity(alloc, MOST_SLOTS)?;
        let mounts = Vec::with_capacity(alloc, MOST_SLOTS)?;
        Ok(Spare { mounts, trails })
    }

    // Ends it, where no machine is made.
    pub(crate) fn close(self) {
        let Spare { mounts, trails: _ } = self;
        mounts.destroy_empty();
    }

    // For mounts and for trails.
    pub(crate) fn into_room(self) -> (Vec<Option<Mount<N>>>, Vec<Vec<SlotEntry>>)
        ensures mounts_fit { most_slots ≤ vec_capacity result.0 }
        ensures trails_fit { most_slots ≤ vec_capacity result.1 }
        ensures no_mounts { result.0.items ≡ [] }
        ensures no_trails { result.1.items ≡ [] }
    {
        let Spare { mounts, trails } = self;
        (mounts, trails)
    }
}
