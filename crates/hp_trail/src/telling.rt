//! Whether a receipt tells of an entry: its event, and its reply.
ghost use Rattle.std.specs.Prelude.{◌≡◌, ◌≢◌, Option, true, false, Some};
ghost use Rattle.hp_trail.specs.Tellers.{TellsOf, entry_of_tasks};
ghost use Rattle.hp_model.specs.declared.entry.PoolEntry.TheVariants.{OfSlot};
ghost use Rattle.hp_model.specs.threads.Differ.{of_pool};
ghost use Rattle.hp_model.specs.threads.JointRun.{Entry, InSlot};

use crate::same::{same_pool_event, same_reply, same_slot_event, same_table_event};
use hp_model::entry::{Asked, PoolEntry, Receipt, SlotEntry, TableEntry};
use hp_model::event::Event;

/// What stands in a trail of which there is one.
pub(crate) trait Told {
    /// The event that it is, if it is one.
    ghost entry: { Self → Option Entry };

    /// Whether the receipt tells of it.
    fn is_told(&self, receipt: &Receipt) -> bool
        ensures same { result ≡ true → TellsOf (entry self.now) receipt.now }
        ensures other { result ≡ false → TellsOf (entry self.now) receipt.now → ⊥ };
}

impl Told for TableEntry {
    ghost entry = { entry_of_tasks };

    fn is_told(&self, receipt: &Receipt) -> bool {
        match &receipt.event {
            Event::Tasks(event) => same_table_event(*event, self.event)
                && same_reply(&self.reply, &receipt.reply),
            _ => false,
        }
    }
}

impl Told for PoolEntry {
    ghost entry = { of_pool };

    /// A section of a slot's event is told by no receipt of its own.
    fn is_told(&self, receipt: &Receipt) -> bool {
        match (&receipt.event, self) {
            (Event::Pool(own), PoolEntry::OfPool { event, reply }) => {
                same_pool_event(*own, *event) && same_reply(reply, &receipt.reply)
            }
            _ => false,
        }
    }
}

pub(crate) fn tells_slot(receipt: &Receipt, entry: &SlotEntry, slot: u64) -> bool
    ensures same { result ≡ true → TellsOf (Some (InSlot slot entry.now)) receipt.now }
    ensures other { result ≡ false → TellsOf (Some (InSlot slot entry.now)) receipt.now → ⊥ }
{
    match &receipt.event {
        Event::Slot { slot: own, event } => {
            *own == slot
                && same_slot_event(event, &entry.event)
                && same_reply(&entry.reply, &receipt.reply)
        }
        _ => false,
    }
}

/// Whether the pool's trail has this section there, with this answer.
pub(crate) fn is_section(entry: &PoolEntry, asked: Asked) -> bool
    ensures same { result ≡ true → entry.now ≡ OfSlot asked.section asked.answer }
    ensures other { result ≡ false → entry.now ≢ OfSlot asked.section asked.answer }
{
    match entry {
        PoolEntry::OfSlot { section, answer } => *section == asked.section
            && *answer == asked.answer,
        PoolEntry::OfPool { .. } => false,
    }
}
