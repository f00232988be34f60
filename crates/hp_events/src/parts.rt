//! The parts of a machine.
ghost use Rattle.std.specs.Prelude.{ℕ, Bool, List, ◌≡◌, ◌+◌, ◌<◌, ◌≤◌, ◌==◌, Ok, true, false, length, IfNone, IfSome};
ghost use Rattle.std.specs.Bool.{MatchBool};
ghost use Rattle.hp_laws.specs.Answers.{lists_names};
ghost use Rattle.hp_model.specs.declared.answer.Answer.TheVariants.{Done};
ghost use Rattle.hp_model.specs.declared.entry.Receipt.{Receipt as ReceiptValue};
ghost use Rattle.hp_model.specs.declared.event.Event.TheVariants.{Tasks as OnTasks, Slot as OnSlot, Pool as OnPool};
ghost use Rattle.hp_model.specs.declared.event.SlotEvent.TheVariants.{ExitMaps, ForkMaps, Ls};
ghost use Rattle.hp_model.specs.beside.Accesses.{done_reply};
ghost use Rattle.hp_model.specs.beside.Told.{told_reply};
ghost use Rattle.hp_model.specs.text.Writing.{IsWithinLimits};
ghost use Rattle.hp_model.specs.Profile.{most_bytes, most_page_bytes, most_slots};
ghost use Rattle.hp_events.specs.Answered.{HasPlace, IsHanded};
ghost use Rattle.hp_events.specs.Queues.{AreFirstHanded};
ghost use Rattle.hp_events.specs.Replies.{names_reply, table_reply};
ghost use Rattle.hp_events.specs.Copies.{AreCopiesFor};
ghost use Rattle.hp_events.specs.Event.{is_of_maps, shows_bytes};
ghost use Rattle.hp_events.specs.Time.{Clock as ClockValue, IsDated, IsFront};

use crate::copies::Copies;
use crate::event::LentEvent;
use crate::table_told::TableTold;
use hp_model::event::{PoolEvent, TableEvent};
use hp_model::names::Names;
use hp_model::queued::Queued;
use hp_model::refusal::Refusal;
use hp_model::told::Told;
use std::alloc::Global;

/// The task table, the pool and the slots of a machine, each of which can be asked while others ask as well, and what one that
/// asks was told so far: a receipt of each event, in order. Where no entries are kept, no memory holds the receipts.
///
/// What is asked of one part is one event there, if any. Nothing is known of a part before or after it.
///
/// All events of a machine stand in one order. Who asks sees it as far as it has looked, or was handed what others saw.
pub trait Parts: Drop {
    /// What one who asks can hand to any other: what it saw of the order.
    type Past: Drop;

    /// Whether the parts keep entries of their events.
    ghost keeps: { Bool };

    /// The bytes of a page.
    ghost page: { ℕ };

    /// How many slots there are.
    ghost slots: { Self → ℕ };

    /// What was told of events so far, in order.
    ghost told: { Self → List ReceiptValue };

    /// For how many receipts there is room, where entries are kept.
    ghost places: { Self → ℕ };

    /// The number of this session, and what it saw of the order.
    ghost clock: { Self → ClockValue };

    /// Whose the first events of the order are, as what is handed over has seen it.
    ghost seen_by: { Self.Past → List ℕ };

    /// Whether the parts keep entries of their events.
    fn is_kept(&self) -> bool
        ensures { result ≡ keeps };

    /// The bytes of a page.
    fn page_bytes(&self) -> u64
        ensures bytes { result ≡ page }
        ensures most { result ≤ most_page_bytes };

    /// How many slots there are.
    fn count(&self) -> usize
        ensures count { result ≡ slots self.now }
        ensures few { result ≤ most_slots };

    /// For how many receipts more there is room, where entries are kept.
    fn left(&self) -> usize
        ensures { keeps ≡ true → length (told self.now) + result ≡ places self.now };

    /// What memory is taken from.
    fn alloc(&self) -> Global;

    /// An event of the task table: what it answers.
    fn table(&mut self, event: TableEvent) -> TableTold
        requires place { HasPlace keeps (told self.old) (places self.old) }
        ensures handed { IsHanded keeps page (OnTasks event) (table_reply result)
            (told self.old) (told self.new) }
        ensures slots { slots self.new ≡ slots self.old }
        ensures places { places self.new ≡ places self.old }
        ensures clock { clock self.new ≡ clock self.old };

    /// An event of the pool alone: what it answers.
    fn pool(&mut self, event: PoolEvent) -> Result<Told<'static>, Refusal>
        requires place { HasPlace keeps (told self.old) (places self.old) }
        ensures handed { IsHanded keeps page (OnPool event) (told_reply result)
            (told self.old) (told self.new) }
        ensures limits { IsWithinLimits (told_reply result) }
        ensures slots { slots self.new ≡ slots self.old }
        ensures places { places self.new ≡ places self.old }
        ensures clock { clock self.new ≡ clock self.old };

    /// What is asked of the slot of this number, but for what goes by a task's maps: its reply. Bytes are in the front of the
    /// room. Copies of what is carried are there where entries are kept.
    fn slot<'b>(
        &mut self,
        at: usize,
        event: LentEvent<'_>,
        copies: Option<Copies>,
        room: &'b mut [u8],
    ) -> Result<Told<'b>, Refusal>
        requires within { at < slots self.old }
        requires place { HasPlace keeps (told self.old) (places self.old) }
        requires room { shows_bytes event ≡ true → most_bytes ≤ length room.old }
        requires apart { lists_names event ≡ false }
        requires always { is_of_maps event ≡ false }
        requires copies { keeps ≡ true → AreCopiesFor event copies }
        ensures handed { IsHanded keeps page (OnSlot at event.entry)
            (told_reply result) (told self.old) (told self.new) }
        ensures limits { IsWithinLimits (told_reply result) }
        ensures slots { slots self.new ≡ slots self.old }
        ensures places { places self.new ≡ places self.old }
        ensures clock { clock self.new ≡ clock self.old };

    /// The maps that a task has on the slot of this number become its child's as well; nothing, and no event, where it has none.
    fn fork_maps(&mut self, at: usize, parent: u64, child: u64) -> Option<Result<(), Refusal>>
        requires within { at < slots self.old }
        requires place { HasPlace keeps (told self.old) (places self.old) }
        requires apart { (parent == child) ≡ false }
        ensures handed { IfSome result (λ r. IsHanded keeps page
            (OnSlot at (ForkMaps parent child)) (done_reply r) (told self.old) (told self.new)) }
        ensures none { IfNone result (told self.new ≡ told self.old) }
        ensures slots { slots self.new ≡ slots self.old }
        ensures places { places self.new ≡ places self.old }
        ensures clock { clock self.new ≡ clock self.old };

    /// The maps that a task has on the slot of this number go: whether it had any; else there is no event.
    fn exit_maps(&mut self, at: usize, task: u64) -> bool
        requires within { at < slots self.old }
        requires place { HasPlace keeps (told self.old) (places self.old) }
        ensures handed { MatchBool result (IsHanded keeps page (OnSlot at (ExitMaps task)) (Ok Done)
            (told self.old) (told self.new)) (told self.new ≡ told self.old) }
        ensures slots { slots self.new ≡ slots self.old }
        ensures places { places self.new ≡ places self.old }
        ensures clock { clock self.new ≡ clock self.old };

    /// The first loads, stores and faults of a queue, where no entries are kept: those of the slot of this number, of tasks that are
    /// found without waiting; so many were done, one after another, and what each was answered is noted.
    fn accesses(&mut self, at: usize, queue: &mut [Queued], room: &mut [u8]) -> usize
        requires unkept { keeps ≡ false }
        requires within { at < slots self.old }
        requires room { most_bytes ≤ length room.old }
        ensures first { AreFirstHanded page at result queue.old queue.new
            (told self.old) (told self.new) }
        ensures slots { slots self.new ≡ slots self.old }
        ensures places { places self.new ≡ places self.old }
        ensures clock { clock self.new ≡ clock self.old };

    /// The names of the files on the slot of this number.
    fn names(&mut self, at: usize) -> Result<Names, Refusal>
        requires within { at < slots self.old }
        requires place { HasPlace keeps (told self.old) (places self.old) }
        ensures handed { IsHanded keeps page (OnSlot at Ls) (names_reply result)
            (told self.old) (told self.new) }
        ensures limits { IsWithinLimits (names_reply result) }
        ensures slots { slots self.new ≡ slots self.old }
        ensures places { places self.new ≡ places self.old }
        ensures clock { clock self.new ≡ clock self.old };

    /// Looks at the order: all events of this session stand there by now.
    fn date(&mut self)
        ensures dated { IsDated (told self.old) (clock self.old) (clock self.new) }
        ensures told { told self.new ≡ told self.old }
        ensures slots { slots self.new ≡ slots self.old }
        ensures places { places self.new ≡ places self.old };

    /// What it saw of the order, to be handed over.
    fn show(&mut self) -> Self::Past
        ensures seen { seen_by result ≡ (clock self.old).seen }
        ensures clock { clock self.new ≡ clock self.old }
        ensures told { told self.new ≡ told self.old }
        ensures slots { slots self.new ≡ slots self.old }
        ensures places { places self.new ≡ places self.old };

    /// Takes what another saw of the order, and looks at it: that stands there as well.
    fn hear(&mut self, past: Self::Past)
        ensures heard { IsFront (seen_by past) (clock self.new).seen }
        ensures dated { IsDated (told self.old) (clock self.old) (clock self.new) }
        ensures told { told self.new ≡ told self.old }
        ensures slots { slots self.new ≡ slots self.old }
        ensures places { places self.new ≡ places self.old };
}
