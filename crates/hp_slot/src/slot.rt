//! What is asked of a slot.
ghost use Rattle.std.specs.Prelude.{◌≡◌, ◌≢◌, ◌<◌, ◌≤◌, ◌==◌, ℕ, Ok, Err, length, true, false};
ghost use Rattle.hp_model.specs.declared.answer.Answer.TheVariants.{Done};
ghost use Rattle.hp_model.specs.declared.event.SlotEvent.TheVariants.{ExitMaps, ForkMaps};
ghost use Rattle.hp_model.specs.declared.refusal.Refusal.TheVariants as Refusal;
ghost use Rattle.hp_model.specs.beside.Accesses.{done_reply};
ghost use Rattle.hp_model.specs.beside.Told.{told_reply};
ghost use Rattle.hp_model.specs.machine.Event.{has_maps_of};
ghost use Rattle.hp_model.specs.text.Writing.{IsWithinLimits};
ghost use Rattle.hp_model.specs.Profile.{most_bytes};
ghost use Rattle.hp_events.specs.Event.{IsAnother, full_for, has_maps_for, is_exit, is_of_mount, is_usage, shows_bytes};
ghost use Rattle.hp_events.specs.Memory.{asks_memory};
ghost use Rattle.hp_mount_laws.specs.Done.{IsDone};

use crate::mounting::{mount, unmount};
use hp_events::{LentEvent, is_of_mount};
use hp_model::event::SlotEvent;
use hp_model::naming::Naming;
use hp_model::refusal::Refusal;
use hp_model::told::Told;
use hp_mount::Mount;
use hp_mount_door::PoolDoor;
use std::alloc::Global;

/// Does what is asked of the slot of this number, in one section of the pool at most: its reply, which is put in its place, with
/// bytes in the front of the room. What goes by a task's maps is asked where it has some.
///
/// Refused as the definitions say, and then nothing changes; as TraceFull where the door has no room to note a section, but
/// never where that gives back alone. A remount is refused as NoSuchSlot where the slot is not mounted, as SlotTaken where it
/// is slot 0, and else as `Mount::remount` is.
#[inline(always)]
pub fn ask<'a, N: Naming, D: PoolDoor<N>>(
    slot: &mut Option<Mount<N>>,
    number: u64,
    door: &mut D,
    alloc: Global,
    page_bytes: u64,
    event: &LentEvent<'_>,
    room: &'a mut [u8],
    reply: &mut Result<Told<'a>, Refusal>,
)
    requires ready { D.is_ready door.old }
    requires page_bytes { page_bytes ≡ N.page_bytes }
    requires bytes { 0 < page_bytes }
    requires room { shows_bytes event.now ≡ true → most_bytes ≤ length room.old }
    requires another { IsAnother event.now }
    requires has { has_maps_for event.now slot.old ≡ true }
    ensures done { IsDone D.took (λ d. full_for (D.is_full d) event.now) N.page_bytes number
        slot.old door.old event.now (told_reply reply.new) slot.new door.new }
    ensures left { D.is_left door.new }
    ensures memory { asks_memory slot.old event.now ≡ false
        → told_reply reply.new ≢ Err Refusal.OutOfMemory }
    ensures limits { is_usage event.now ≡ true → IsWithinLimits (told_reply reply.new) }
    ensures exit { is_exit event.now ≡ true → told_reply reply.new ≡ Ok Done }
{
    if is_of_mount(event) {
        return act(slot, door, page_bytes, event, room, reply);
    }
    match event {
        SlotEvent::Mount { options } => {
            *reply = Told::done(mount(slot, door, alloc, page_bytes, options.as_slice()));
        }
        SlotEvent::Remount { options } => match slot {
            None => *reply = Err(Refusal::NoSuchSlot),
            Some(mount) => {
                if number == 0 {
                    *reply = Err(Refusal::SlotTaken);
                } else {
                    *reply = Told::done(mount.remount(door, page_bytes, options.as_slice()));
                }
            }
        },
        SlotEvent::Umount => *reply = Told::done(unmount(slot, number, door)),
        SlotEvent::ForkMaps { parent, child } => {
            *reply = Told::done(fork(slot, door, *parent, *child));
        }
        SlotEvent::ExitMaps { task } => {
            leave(slot, door, *task);
            *reply = Ok(Told::Done);
        }
        _ => unreachable!(),
    }
}

/// What an event asks of the slot's mount. Refused as NoSuchSlot where the slot is not mounted, and else as the mount refuses it. The reply is put in its place: handed back, it would be copied once more.
#[inline(always)]
pub fn act<'a, N: Naming, D: PoolDoor<N>>(
    slot: &mut Option<Mount<N>>,
    door: &mut D,
    page_bytes: u64,
    event: &LentEvent<'_>,
    room: &'a mut [u8],
    reply: &mut Result<Told<'a>, Refusal>,
)
    requires of_mount { is_of_mount event.now ≡ true }
    requires ready { D.is_ready door.old }
    requires page_bytes { page_bytes ≡ N.page_bytes }
    requires room { shows_bytes event.now ≡ true → most_bytes ≤ length room.old }
    ensures done { (k : ℕ) → IsDone D.took D.is_full N.page_bytes k slot.old door.old
        event.now (told_reply reply.new) slot.new door.new }
    ensures left { D.is_left door.new }
    ensures memory { asks_memory slot.old event.now ≡ false
        → told_reply reply.new ≢ Err Refusal.OutOfMemory }
    ensures limits { is_usage event.now ≡ true → IsWithinLimits (told_reply reply.new) }
{
    let Some(mount) = slot else {
        *reply = Err(Refusal::NoSuchSlot);
        return;
    };
    *reply = mount.apply(door, page_bytes, event, room);
}

/// Whether a task has a map on the slot.
pub fn has_maps<N: Naming>(slot: &Option<Mount<N>>, task: u64) -> bool
    ensures { result ≡ has_maps_of task slot.now }
{
    match slot {
        None => false,
        Some(mount) => mount.has_maps(task),
    }
}

/// Whether the slot has the maps that this goes by, if it goes by a task's maps.
pub fn has_maps_for<N: Naming>(slot: &Option<Mount<N>>, event: &LentEvent<'_>) -> bool
    ensures { result ≡ has_maps_for event.now slot.now }
{
    match *event {
        SlotEvent::ForkMaps { parent, .. } => has_maps(slot, parent),
        SlotEvent::ExitMaps { task } => has_maps(slot, task),
        _ => true,
    }
}

/// The maps of a task, which has some on the slot, become its child's as well. Refused as `Mount::fork_maps` is.
pub fn fork<N: Naming, D: PoolDoor<N>>(
    slot: &mut Option<Mount<N>>,
    door: &mut D,
    parent: u64,
    child: u64,
) -> Result<(), Refusal>
    requires ready { D.is_ready door.old }
    requires has { has_maps_of parent slot.old ≡ true }
    requires apart { (parent == child) ≡ false }
    ensures done { (size k : ℕ) → IsDone D.took (λ d. ⊥) size k slot.old door.old
        (ForkMaps parent child) (done_reply result) slot.new door.new }
    ensures left { D.is_left door.new }
{
    match slot {
        None => unreachable!(),
        Some(mount) => mount.fork_maps(door, parent, child),
    }
}

/// The maps of a task, which has some on the slot, go. Never refused.
pub fn leave<N: Naming, D: PoolDoor<N>>(slot: &mut Option<Mount<N>>, door: &mut D, task: u64)
    requires ready { D.is_ready door.old }
    requires has { has_maps_of task slot.old ≡ true }
    ensures done { (size k : ℕ) → IsDone D.took (λ d. ⊥) size k slot.old door.old
        (ExitMaps task) (Ok Done) slot.new door.new }
    ensures left { D.is_left door.new }
{
    match slot {
        None => unreachable!(),
        Some(mount) => mount.exit_maps(door, task),
    }
}
