//! Mount and umount of a slot.
ghost use Rattle.std.specs.Prelude.{◌≢◌, ◌<◌, ℕ, Err};
ghost use Rattle.hp_model.specs.declared.event.SlotEvent.TheVariants.{Mount as Mounting, Umount};
ghost use Rattle.hp_model.specs.declared.refusal.Refusal.TheVariants as Refusal;
ghost use Rattle.hp_model.specs.beside.Accesses.{done_reply};
ghost use Rattle.hp_mount_laws.specs.Done.{IsDone};

use hp_model::naming::Naming;
use hp_model::refusal::Refusal;
use hp_mount::Mount;
use hp_mount_door::PoolDoor;
use std::alloc::Global;
use std::mem;

// Mounts a slot with options, and commits the minimum that they ask for: a section of the pool, at home node 0. It takes no
// memory.
//
// Refused, and then nothing changes, by the first of these that holds (profile):
// - SlotTaken: it is mounted.
// - BadOption: the text is no options.
// - MinOverSize: the minimum is above the limit, in pages.
// - NoPages: with the minimum more pages would be committed than nr and overcommit together, or than all frames.
//
// As TraceFull where the door has no room to note the section.
#[inline(never)]
pub(crate) fn mount<N: Naming, D: PoolDoor<N>>(
    slot: &mut Option<Mount<N>>,
    door: &mut D,
    alloc: Global,
    page_bytes: u64,
    options: &[u8],
) -> Result<(), Refusal>
    requires ready { D.is_ready door.old }
    requires bytes { 0 < page_bytes }
    ensures done { (k : ℕ) → IsDone D.took D.is_full page_bytes k slot.old door.old
        (Mounting options.now) (done_reply result) slot.new door.new }
    ensures left { D.is_left door.new }
    ensures memory { done_reply result ≢ Err Refusal.OutOfMemory }
{
    if slot.is_some() {
        return Err(Refusal::SlotTaken);
    }
    match door.open(page_bytes, options) {
        Err(refusal) => Err(refusal),
        Ok((share, limits)) => {
            let open = Mount::new(alloc, share, limits.inodes);
            match mem::replace(slot, Some(open)) {
                None => Ok(()),
                Some(_old) => unreachable!(),
            }
        }
    }
}

// Ends the mount of a slot, with its files. Their pages and reservations go back to the pool, and the mount's minimum with
// them; pages that became unneeded surplus leave the pool.
//
// Refused, and then nothing changes, by the first of these that holds (profile):
// - NoSuchSlot: it is not mounted.
// - Busy: it is slot 0, or a task has a map there.
#[inline(never)]
pub(crate) fn unmount<N: Naming, D: PoolDoor<N>>(
    slot: &mut Option<Mount<N>>,
    number: u64,
    door: &mut D,
) -> Result<(), Refusal>
    requires ready { D.is_ready door.old }
    ensures done { (size : ℕ) → IsDone D.took (λ d. ⊥) size number slot.old door.old
        Umount (done_reply result) slot.new door.new }
    ensures left { D.is_left door.new }
    ensures memory { done_reply result ≢ Err Refusal.OutOfMemory }
{
    if slot.is_none() {
        return Err(Refusal::NoSuchSlot);
    }
    if number == 0 {
        return Err(Refusal::Busy);
    }
    let Some(mount) = mem::replace(slot, None) else {
        unreachable!()
    };
    match mount.close(door) {
        Ok(()) => Ok(()),
        Err(mount) => match mem::replace(slot, Some(mount)) {
            None => Err(Refusal::Busy),
            Some(_other) => unreachable!(),
        },
    }
}
