//! A slot with its trail.
ghost use Rattle.std.specs.Prelude.{[], ◌≡◌, ◌⊎◌, ◌||◌, ◌<◌, ◌≤◌, length, true, false, None, Ok, is_some};
ghost use Rattle.hp_history.specs.Sections.{IsEntered};
ghost use Rattle.hp_model.specs.declared.answer.Answer.TheVariants.{Done};
ghost use Rattle.hp_model.specs.declared.entry.Part.TheVariants.{Slot as AtSlot};
ghost use Rattle.hp_model.specs.declared.event.Event.TheVariants.{Slot as OnSlot};
ghost use Rattle.hp_model.specs.beside.Copying.{reply_has_names};
ghost use Rattle.hp_model.specs.machine.Event.{has_maps_of};
ghost use Rattle.hp_model.specs.beside.Told.{told_reply};
ghost use Rattle.hp_model.specs.Profile.{most_tasks, most_bytes};
ghost use Rattle.hp_model.specs.text.Writing.{IsWithinLimits};
ghost use Rattle.hp_laws.specs.Answers.{lists_names};
ghost use Rattle.hp_locked.specs.Told.{IsReceipt};
ghost use Rattle.hp_locked.specs.Views.{IsNewTrail};
ghost use Rattle.hp_events.specs.Copies.{AreCopiesFor};
ghost use Rattle.hp_events.specs.Event.{IsAnother, full_for, has_maps_for, is_exit, is_of_mount, shows_bytes};
ghost use Rattle.hp_events.specs.Replies.{is_trace_full};
ghost use Rattle.hp_mount.specs.Running.{RunsThrough};
ghost use Rattle.hp_shared.specs.Slots.{IsSlotEvent, IsSlotTrail, slot_start};
ghost use Rattle.hp_trail.specs.Keeping.{has_room, one_less, with_entry};

mod listing;

use crate::told::{copied, is_full};
use hp_events::copies::{Copies, events};
use hp_events::{LentEvent, is_exit};
use hp_locked::SessionDoor;
use hp_model::entry::{Asked, Part, Receipt, SlotEntry};
use hp_model::event::Event;
use hp_model::naming::Naming;
use hp_model::refusal::Refusal;
use hp_model::service::Access;
use hp_model::told::Told;
use hp_mount::{MapAccess, Mount, RunDoor};
use hp_mount_door::PoolDoor;
use hp_slot::{act, ask};
use hp_trail::trail::Trail;
use std::alloc::Global;
use std::marker::Model;

/// A slot with its trail.
///
/// Whenever its lock is free, the trail is a run of the slot that ends in its mount, and there is a place in it for the exit
/// of each task that has maps there: so that is never refused.
pub struct Slot<N: Naming, T: Trail<SlotEntry>> {
    number: u64,
    mount: Option<Mount<N>>,
    trail: T,
}

impl<N: Naming, T: Trail<SlotEntry>> Model for Slot<N, T> {
    ghost use Rattle.hp_shared.specs.Slots.{IsLockedSlot, SlotView};

    ghost Value = { SlotView };

    ghost view = { λ s. record {
      number = s.number;
      mount = s.mount;
      entries = T.entries s.trail;
      left = T.left s.trail;
      extra = T.extra s.trail;
    } };

    ghost invariant = { λ s. IsLockedSlot N.page_bytes s.number (T.entries s.trail)
        (T.left s.trail) (T.extra s.trail) s.mount };
}

impl<N: Naming, T: Trail<SlotEntry>> Slot<N, T> {
    /// A slot as it starts, with a trail that has nothing in it yet.
    #[tactic(auto, using(crate::proofs::SlotsKept::fresh_slot))]
    pub fn new(number: u64, mount: Option<Mount<N>>, trail: T) -> Self
        requires start { mount ≡ slot_start number }
        requires fresh { IsNewTrail (T.entries trail) }
        requires counted { T.entries trail ≡ None → T.left trail ≡ None }
        requires enough { most_tasks ≤ T.extra trail }
        ensures { result ≡ record {
          number = number;
          mount = mount;
          entries = T.entries trail;
          left = T.left trail;
          extra = T.extra trail;
        } }
    {
        Slot {
            number,
            mount,
            trail,
        }
    }

    /// The slot's number, its mount and its trail.
    pub fn into_parts(self) -> (u64, Option<Mount<N>>, T)
        ensures number { result.0 ≡ self.number }
        ensures mount { result.1 ≡ self.mount }
        ensures entries { T.entries result.2 ≡ self.entries }
        ensures run { IsSlotTrail N.page_bytes self.number self.entries self.mount }
    {
        let Slot {
            number,
            mount,
            trail,
        } = self;
        (number, mount, trail)
    }

    /// The slot's number.
    pub fn number(&self) -> u64
        ensures { result ≡ self.now.number }
    {
        self.number
    }

    /// Whether entries are kept.
    pub fn is_kept(&self) -> bool
        ensures kept { result ≡ is_some self.now.entries }
        ensures keeps { result ≡ T.keeps }
    {
        self.trail.is_kept()
    }

    /// Whether the task has a map on the slot.
    pub fn has_maps(&self, task: u64) -> bool
        ensures { result ≡ has_maps_of task self.now.mount }
    {
        hp_slot::has_maps(&self.mount, task)
    }

    /// Whether the slot has the maps that this goes by, if it goes by a task's maps.
    pub fn has_maps_for(&self, event: &LentEvent<'_>) -> bool
        ensures { result ≡ has_maps_for event.now self.now.mount }
    {
        hp_slot::has_maps_for(&self.mount, event)
    }

    /// Does what is asked: its reply, with bytes in the front of the room, and its receipt where entries are kept. For these
    /// there are copies of what it carries. Answered TraceFull, and then nothing changed, where the trail has no room, or where
    /// the event enters a section of the pool that is more than a giving back, and the door has none; but an exit, which always
    /// has its place, is done.
    pub fn work<'a, D: SessionDoor<N>>(
        &mut self,
        door: &mut D,
        alloc: Global,
        page_bytes: u64,
        event: &LentEvent<'_>,
        copies: Option<Copies>,
        room: &'a mut [u8],
    ) -> (Result<Told<'a>, Refusal>, Option<Receipt>)
        requires ready { D.is_ready door.old }
        requires page_bytes { page_bytes ≡ N.page_bytes }
        requires bytes { 0 < page_bytes }
        requires room { shows_bytes event.now ≡ true → most_bytes ≤ length room.old }
        requires apart { lists_names event.now ≡ false }
        requires another { IsAnother event.now }
        requires has { has_maps_for event.now self.old.mount ≡ true }
        requires copies { T.keeps ≡ true → AreCopiesFor event.now copies }
        requires keeps { T.keeps ≡ true → D.keeps ≡ true }
        ensures done { IsSlotEvent (full_for (D.is_full door.new) event.now) N.page_bytes
            self.old self.new event.now
            (told_reply result.0) (D.asked door.new) result.1 }
        ensures entered { IsEntered D.keeps (D.mine door.old) (D.asked door.new) (D.mine door.new) }
        ensures number { self.new.number ≡ self.old.number }
        ensures keeps { is_trace_full (told_reply result.0) ≡ true
            → (T.keeps ≡ true) ⊎ full_for (D.is_full door.new) event.now }
        ensures given { is_trace_full (told_reply result.0) ≡ false
            → is_some result.1 ≡ T.keeps }
        ensures limits { IsWithinLimits (told_reply result.0) }
        ensures exit { is_exit event.now ≡ true → told_reply result.0 ≡ Ok Done }
    {
        let Slot {
            number,
            mount,
            trail,
        } = self;
        if !may_note(trail, event) {
            return (Err(Refusal::TraceFull), None);
        }
        let mut told = Ok(Told::Done);
        ask(
            mount, *number, door, alloc, page_bytes, event, room, &mut told,
        );
        if is_full(&told) {
            return (told, None);
        }
        let receipt = note(trail, *number, event, copies, door.asked(), &told);
        (told, receipt)
    }

    /// Faults through one map, at an index and at those behind it, where no entries are kept: as `Mount::fault_run` does them. None
    /// where the slot has no mount.
    #[inline(always)]
    pub fn fault_run<D: RunDoor<N>>(&mut self, door: &mut D, access: &Access, most: u64) -> u64
        requires unkept { T.keeps ≡ false }
        requires none { D.waiting door.old ≡ [] }
        ensures done { RunsThrough D.took N.page_bytes self.old.number access.now.task
            access.now.map access.now.index result self.old.mount door.old self.new.mount
            door.new }
        ensures none { D.waiting door.new ≡ [] }
        ensures few { result ≤ most }
        ensures unkept { self.old.entries ≡ None }
        ensures same { self.new ≡ record self.old { mount = self.new.mount } }
    {
        let Some(mount) = &mut self.mount else {
            return 0;
        };
        let first = MapAccess {
            task: access.task,
            map: access.map,
            index: access.index,
        };
        mount.fault_run(door, &first, most)
    }

    /// An event of a mount but a list of names, where no entries are kept: its reply, with bytes in the front of the room. There
    /// is no receipt. (`work` hands back room for one, which costs more than a load.)
    #[inline(always)]
    pub fn event_unnoted<'a, D: SessionDoor<N>>(
        &mut self,
        event: &LentEvent<'_>,
        door: &mut D,
        page_bytes: u64,
        room: &'a mut [u8],
    ) -> Result<Told<'a>, Refusal>
        requires unkept { T.keeps ≡ false }
        requires ready { D.is_ready door.old }
        requires page_bytes { page_bytes ≡ N.page_bytes }
        requires of_mount { is_of_mount event.now ≡ true }
        requires apart { lists_names event.now ≡ false }
        requires room { shows_bytes event.now ≡ true → most_bytes ≤ length room.old }
        ensures done { IsSlotEvent (D.is_full door.new) N.page_bytes self.old self.new
            event.now
            (told_reply result) (D.asked door.new) None }
        ensures entered { IsEntered D.keeps (D.mine door.old) (D.asked door.new) (D.mine door.new) }
        ensures number { self.new.number ≡ self.old.number }
        ensures keeps { is_trace_full (told_reply result) ≡ true → D.is_full door.new }
        ensures limits { IsWithinLimits (told_reply result) }
    {
        let Slot {
            number: _,
            mount,
            trail: _,
        } = self;
        let mut reply = Ok(Told::Done);
        act(mount, door, page_bytes, event, room, &mut reply);
        reply
    }
}

// Whether there is a place for this in the trail: an exit has one of its own.
fn may_note<T: Trail<SlotEntry>>(trail: &T, event: &LentEvent<'_>) -> bool
    ensures { result
        ≡ (is_exit event.now || has_room false (T.left trail.now) (T.extra trail.now)) }
{
    is_exit(event) || trail.has_room(false)
}

// Notes what was asked with its reply and the section that it entered, where entries are kept, and makes its receipt.
fn note<T: Trail<SlotEntry>>(
    trail: &mut T,
    slot: u64,
    asked_for: &LentEvent<'_>,
    copies: Option<Copies>,
    asked: Option<Asked>,
    told: &Result<Told<'_>, Refusal>,
) -> Option<Receipt>
    requires room { has_room true (T.left trail.old) (T.extra trail.old) ≡ true }
    requires copies { T.keeps ≡ true → AreCopiesFor asked_for.now copies }
    requires small { IsWithinLimits (told_reply told.now) }
    requires plain { reply_has_names (told_reply told.now) ≡ false }
    ensures entries { T.entries trail.new ≡ with_entry (T.entries trail.old)
        (record { event = asked_for.now; reply = told_reply told.now; asked = asked }) }
    ensures left { is_some (T.entries trail.old) ≡ true →
        T.left trail.new ≡ one_less (T.left trail.old) }
    ensures none { T.entries trail.old ≡ None → T.left trail.new ≡ T.left trail.old }
    ensures extra { T.extra trail.new ≡ T.extra trail.old }
    ensures given { is_some result ≡ T.keeps }
    ensures receipt { IsReceipt (T.entries trail.old) (AtSlot slot)
        (OnSlot slot asked_for.now) (told_reply told.now) result }
{
    if !trail.is_kept() {
        return None;
    }
    let (event, again) = events(asked_for, copies);
    let receipt = Receipt {
        part: Part::Slot(slot),
        place: trail.place(),
        event: Event::Slot { slot, event: again },
        reply: copied(told),
    };
    trail.push(SlotEntry {
        event,
        reply: copied(told),
        asked,
    });
    Some(receipt)
}
