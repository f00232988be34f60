//! The names of a slot's files.
ghost use Rattle.std.specs.Prelude.{◌≡◌, true, false, None, Some, is_some};
ghost use Rattle.hp_model.specs.declared.event.SlotEvent.TheVariants.{Ls};
ghost use Rattle.hp_model.specs.declared.entry.Part.TheVariants.{Slot as AtSlot};
ghost use Rattle.hp_model.specs.declared.event.Event.TheVariants.{Slot as OnSlot};
ghost use Rattle.hp_model.specs.text.Writing.{IsWithinLimits};
ghost use Rattle.hp_locked.specs.Told.{IsReceipt};
ghost use Rattle.hp_events.specs.Replies.{is_trace_full, names_reply};
ghost use Rattle.hp_shared.specs.Slots.{IsSlotEvent};
ghost use Rattle.hp_trail.specs.Keeping.{has_room, one_less, with_entry};

use super::Slot;
use crate::names::{Listing, list, list_thrice};
use hp_model::answer::Reply;
use hp_model::entry::{Part, Receipt, SlotEntry};
use hp_model::event::{Event, SlotEvent};
use hp_model::names::Names;
use hp_model::naming::Naming;
use hp_model::refusal::Refusal;
use hp_trail::trail::Trail;
use std::alloc::Global;

impl<N: Naming, T: Trail<SlotEntry>> Slot<N, T> {
    /// The names of the slot's files, in order of creation, and the receipt where entries are kept. Refused as NoSuchSlot, or
    /// as OutOfMemory where the list, or its copy for an entry or a receipt, has no room. Answered TraceFull, and then
    /// nothing changed, where the trail has no room.
    pub fn names(&mut self, alloc: Global) -> (Result<Names, Refusal>, Option<Receipt>)
        ensures done { IsSlotEvent ⊥ N.page_bytes self.old self.new Ls (names_reply result.0) None
            result.1 }
        ensures number { self.new.number ≡ self.old.number }
        ensures keeps { is_trace_full (names_reply result.0) ≡ true → T.keeps ≡ true }
        ensures given { is_trace_full (names_reply result.0) ≡ false
            → is_some result.1 ≡ T.keeps }
        ensures limits { IsWithinLimits (names_reply result.0) }
    {
        let Slot {
            number,
            mount,
            trail,
        } = self;
        if !trail.has_room(false) {
            return (Err(Refusal::TraceFull), None);
        }
        if !trail.is_kept() {
            return (list(mount), None);
        }
        let Listing {
            names,
            reply,
            again,
        } = list_thrice(alloc, mount);
        let receipt = note_names(trail, *number, reply, again);
        (names, Some(receipt))
    }
}

// Notes a list of names, and makes its receipt.
fn note_names<T: Trail<SlotEntry>>(trail: &mut T, slot: u64, reply: Reply, again: Reply) -> Receipt
    requires room { has_room true (T.left trail.old) (T.extra trail.old) ≡ true }
    requires kept { is_some (T.entries trail.old) ≡ true }
    ensures entries { T.entries trail.new ≡ with_entry (T.entries trail.old)
        (record { event = Ls; reply = reply; asked = None }) }
    ensures left { T.left trail.new ≡ one_less (T.left trail.old) }
    ensures extra { T.extra trail.new ≡ T.extra trail.old }
    ensures receipt { IsReceipt (T.entries trail.old) (AtSlot slot) (OnSlot slot Ls) again
        (Some result) }
{
    let receipt = Receipt {
        part: Part::Slot(slot),
        place: trail.place(),
        event: Event::Slot {
            slot,
            event: SlotEvent::Ls,
        },
        reply: again,
    };
    trail.push(SlotEntry {
        event: SlotEvent::Ls,
        reply,
        asked: None,
    });
    receipt
}
