//! A slot with its seat in the history.
ghost use Rattle.std.specs.Prelude.{◌≡◌, ◌∷◌, ◌<◌, ◌==◌, ◌≤◌, [], length, true, false, Ok, None};
ghost use Rattle.hp_model.specs.declared.answer.Answer.TheVariants.{Done};
ghost use Rattle.hp_model.specs.declared.event.SlotEvent.TheVariants.{Ls};
ghost use Rattle.hp_model.specs.beside.Told.{told_reply};
ghost use Rattle.hp_model.specs.machine.Event.{has_maps_of};
ghost use Rattle.hp_model.specs.Profile.{most_bytes, most_tasks};
ghost use Rattle.hp_model.specs.text.Writing.{IsWithinLimits};
ghost use Rattle.hp_model.specs.threads.LocalRun.{IsLocalRun};
ghost use Rattle.hp_laws.specs.Answers.{lists_names};
ghost use Rattle.hp_events.specs.Copies.{AreCopiesFor};
ghost use Rattle.hp_events.specs.Event.{IsAnother, full_for, has_maps_for, is_exit, is_of_mount, shows_bytes};
ghost use Rattle.hp_history.specs.declared.held.Held.TheVariants.{Slot as SlotPart};
ghost use Rattle.hp_history.specs.History.{IsSession, front_of, number_in};
ghost use Rattle.hp_history.specs.Sections.{IsFree, IsHeld, free_slot, session_view};
ghost use Rattle.hp_locked.specs.Views.{IsNewTrail, IsTrailOf};
ghost use Rattle.hp_events.specs.Replies.{is_trace_full, names_reply};
ghost use Rattle.hp_shared.specs.Runs.{AreFaultsDone, faults_of, seated_mount};
ghost use Rattle.hp_shared.specs.Seated.{IsSeatedDone, IsSeatedEvent, run_in, session_left, slot_left, slot_view};
ghost use Rattle.hp_shared.specs.Slots.{IsSlotTrail, slot_start};

use crate::locked_slot::Slot;
use crate::run::Run;
use crate::seats::{join, leave, leave_names};
use atomic_table::Badge;
use hp_events::LentEvent;
use hp_events::copies::Copies;
use hp_history::{History, Places, Token, View};
use hp_locked::{Door, Entered, Gate, Noted, Ways};
use hp_model::entry::{Receipt, SlotEntry};
use hp_model::names::Names;
use hp_model::naming::Naming;
use hp_model::refusal::Refusal;
use hp_model::service::Access;
use hp_model::step::Intent;
use hp_model::told::Told;
use hp_mount::Mount;
use hp_order::{Ordered, Turn};
use hp_trail::trail::Trail;
use std::alloc::Global;
use std::marker::{Brand, Model};
use std::mem;
use std::sync::Wait;

/// A slot with its seat in the history.
///
/// Whenever its lock is free, its trail in the history is a run of the slot from its start to its mount; what is kept of the
/// trail is that.
pub struct SeatedSlot<N: Naming + Places, T: Trail<SlotEntry>> {
    slot: Slot<N, T>,
    seat: Badge<View>,
}

impl<N: Naming + Places, T: Trail<SlotEntry>> Model for SeatedSlot<N, T> {
    ghost use Rattle.hp_shared.specs.Seated.{IsSeatedSlot, SeatedView, run_in};

    ghost Value = { SeatedView };

    ghost view = { λ s. record { slot = s.slot; run = run_in s.seat.views } };

    ghost invariant = { λ s. IsSeatedSlot N.history N.page_bytes s.seat.table_id s.seat.views
        s.slot };
}

impl<N: Naming + Places, T: Trail<SlotEntry>> Ordered for SeatedSlot<N, T> {
    ghost rank = { 1 };

    #[inline(always)]
    fn rank() -> u64 {
        1
    }
}

impl<N: Naming + Places, T: Trail<SlotEntry>> SeatedSlot<N, T> {
    /// A slot as it starts, with a trail that has nothing in it yet, and the seat that has it.
    pub fn new(number: u64, mount: Option<Mount<N>>, trail: T, seat: Token) -> Self
        requires start { mount ≡ slot_start number }
        requires fresh { IsNewTrail (T.entries trail) }
        requires counted { T.entries trail ≡ None → T.left trail ≡ None }
        requires enough { most_tasks ≤ T.extra trail }
        requires named { seat.table_id ≡ N.history }
        requires seat { seat.me ≡ (SlotPart number [] ∷ [], []) }
        ensures number { result.slot.number ≡ number }
        ensures run { result.run ≡ [] }
    {
        SeatedSlot {
            slot: Slot::new(number, mount, trail),
            seat: seat.into_badge(),
        }
    }

    /// The slot's number, its mount, its trail and its seat in the history.
    pub fn into_parts(self) -> (u64, Option<Mount<N>>, T, Token)
        ensures number { result.0 ≡ self.slot.number }
        ensures mount { result.1 ≡ self.slot.mount }
        ensures entries { T.entries result.2 ≡ self.slot.entries }
        ensures named { result.3.table_id ≡ N.history }
        ensures seat { result.3.me ≡ (SlotPart self.slot.number self.run ∷ [], []) }
        ensures run { IsLocalRun N.page_bytes self.slot.number (slot_start self.slot.number)
            self.run self.slot.mount }
        ensures kept { IsTrailOf self.run self.slot.entries }
        ensures trail { IsSlotTrail N.page_bytes self.slot.number self.slot.entries
            self.slot.mount }
    {
        let SeatedSlot { slot, seat } = self;
        let (number, mount, trail) = slot.into_parts();
        (number, mount, trail, seat.into_seat())
    }

    /// The slot's number.
    #[inline(always)]
    pub fn number(&self) -> u64
        ensures { result ≡ self.now.slot.number }
    {
        self.slot.number()
    }

    /// Whether the task has a map on the slot.
    pub fn has_maps(&self, task: u64) -> bool
        ensures { result ≡ has_maps_of task self.now.slot.mount }
    {
        self.slot.has_maps(task)
    }

    /// Whether the slot has the maps that this goes by, if it goes by a task's maps.
    pub fn has_maps_for(&self, event: &LentEvent<'_>) -> bool
        ensures { result ≡ has_maps_for event.now self.now.slot.mount }
    {
        self.slot.has_maps_for(event)
    }

    /// Does what a session asks: the session's seat, the reply, with bytes in the front of the room, and the receipt where
    /// entries are kept. For these there are copies of what it carries. Answered TraceFull, and then nothing changed, where the
    /// trail has no room, or where the event enters a section of the pool that is more than a giving back, and the pool's trail
    /// has none; but an exit, which always has its place, is done.
    pub fn work<'a, R: Wait, G: Gate, const K: usize>(
        &mut self,
        ways: &Ways<'_, N, R, G, K>,
        turn: Turn,
        mine: Token,
        alloc: Global,
        page_bytes: u64,
        event: &LentEvent<'_>,
        copies: Option<Copies>,
        room: &'a mut [u8],
    ) -> (Token, Result<Told<'a>, Refusal>, Option<Receipt>, Turn)
        requires turn { turn.held ≡ 1 ∷ [] }
        requires named { mine.table_id ≡ N.history }
        requires session { IsSession mine.me.0 }
        requires alone { mine.me.1 ≡ [] }
        requires keeps { (K == 1) ≡ T.keeps }
        requires page_bytes { page_bytes ≡ N.page_bytes }
        requires bytes { 0 < page_bytes }
        requires room { shows_bytes event.now ≡ true → most_bytes ≤ length room.old }
        requires apart { lists_names event.now ≡ false }
        requires another { IsAnother event.now }
        requires has { has_maps_for event.now self.old.slot.mount ≡ true }
        requires copies { T.keeps ≡ true → AreCopiesFor event.now copies }
        ensures turn { result.3.held ≡ 1 ∷ [] }
        ensures named { result.0.table_id ≡ N.history }
        ensures alone { result.0.me.1 ≡ [] }
        ensures done { IsSeatedEvent (full_for (T.keeps ≡ true) event.now) T.keeps N.page_bytes
            self.old self.new event.now (told_reply result.1) mine.me.0
            result.0.me.0 result.2 }
        ensures number { self.new.slot.number ≡ self.old.slot.number }
        ensures keeps { is_trace_full (told_reply result.1) ≡ true → T.keeps ≡ true }
        ensures limits { IsWithinLimits (told_reply result.1) }
        ensures exit { is_exit event.now ≡ true → told_reply result.1 ≡ Ok Done }
    {
        let SeatedSlot { slot, seat } = self;
        let mut mine = mine;
        join(ways.history, seat, &mut mine);
        let mut door: Door<'_, N, R, G, Noted, K> = Door::new(ways, turn, mine);
        let (told, receipt) = slot.work(&mut door, alloc, page_bytes, event, copies, room);
        let (mut mine, turn) = door.into_mine();
        *seat = leave(ways.history, &mut mine, event, &told);
        (mine, told, receipt, turn)
    }

    /// An event of a mount but a list of names, where no entries are kept: the session's seat, the reply, with bytes in the
    /// front of the room, and whether the pool was entered.
    #[inline(always)]
    pub fn event_unnoted<'a, R: Wait, G: Gate, const K: usize>(
        &mut self,
        ways: &Ways<'_, N, R, G, K>,
        turn: Turn,
        mine: Token,
        page_bytes: u64,
        event: LentEvent<'_>,
        room: &'a mut [u8],
    ) -> (Token, Result<Told<'a>, Refusal>, bool, Turn)
        requires turn { turn.held ≡ 1 ∷ [] }
        requires named { mine.table_id ≡ N.history }
        requires session { IsSession mine.me.0 }
        requires alone { mine.me.1 ≡ [] }
        requires keeps { (K == 1) ≡ T.keeps }
        requires unkept { T.keeps ≡ false }
        requires page_bytes { page_bytes ≡ N.page_bytes }
        requires of_mount { is_of_mount event ≡ true }
        requires room { shows_bytes event ≡ true → most_bytes ≤ length room.old }
        requires apart { lists_names event ≡ false }
        ensures turn { result.3.held ≡ 1 ∷ [] }
        ensures named { result.0.table_id ≡ N.history }
        ensures alone { result.0.me.1 ≡ [] }
        ensures done { IsSeatedDone T.keeps N.page_bytes self.old self.new
            event.entry (told_reply result.1) mine.me.0 result.0.me.0 None }
        ensures number { self.new.slot.number ≡ self.old.slot.number }
        ensures keeps { is_trace_full (told_reply result.1) ≡ false }
        ensures limits { IsWithinLimits (told_reply result.1) }
    {
        let SeatedSlot { slot, seat } = self;
        let mut mine = mine;
        join(ways.history, seat, &mut mine);
        let mut door: Door<'_, N, R, G, Entered, K> = Door::new(ways, turn, mine);
        let told = slot.event_unnoted(&event, &mut door, page_bytes, room);
        let entered = door.is_entered();
        let (mut mine, turn) = door.into_mine();
        *seat = ways.history.leave::<Brand, _>(&mut mine, (&event, &told));
        (mine, told, entered, turn)
    }

    /// Faults of a session through one map, at an index and at those behind it, where no entries are kept: the first of them, at
    /// most so many, that each take the page of a reservation. Each comes behind a look-up of its task. All of them enter the
    /// pool in one hold of its lock. The session's seat, and how many were done: none where there are less than two.
    #[inline(always)]
    pub fn fault_run<R: Wait, G: Gate, const K: usize>(
        &mut self,
        ways: &Ways<'_, N, R, G, K>,
        turn: Turn,
        mine: Token,
        access: &Access,
        intent: Intent,
        most: u64,
    ) -> (Token, u64, Turn)
        requires turn { turn.held ≡ 1 ∷ [] }
        requires named { mine.table_id ≡ N.history }
        requires session { IsSession mine.me.0 }
        requires alone { mine.me.1 ≡ [] }
        requires keeps { (K == 1) ≡ T.keeps }
        requires unkept { T.keeps ≡ false }
        requires looks { N.shape.looks ≡ true }
        ensures turn { result.2.held ≡ 1 ∷ [] }
        ensures named { result.0.table_id ≡ N.history }
        ensures session { IsSession result.0.me.0 }
        ensures alone { result.0.me.1 ≡ [] }
        ensures same { number_in result.0.me.0 ≡ number_in mine.me.0 }
        ensures done { AreFaultsDone N.page_bytes
            (faults_of self.old.slot.number access.now intent) access.now.index result.1
            (seated_mount self.old mine.me.0) (seated_mount self.new result.0.me.0) }
        ensures few { result.1 ≤ most }
        ensures number { self.new.slot.number ≡ self.old.slot.number }
    {
        let SeatedSlot { slot, seat } = self;
        let own = mem::replace(seat, Badge::blank());
        let mut door: Run<'_, N, R, G, K> = Run::new(ways, access, intent, turn, mine, own);
        let done = slot.fault_run(&mut door, access, most);
        let (mine, own, turn) = door.into_seats();
        *seat = own;
        (mine, done, turn)
    }

    /// The names of the slot's files, in order of creation, and the receipt where entries are kept. Refused as NoSuchSlot, or
    /// as OutOfMemory where the list, or its copy for an entry or a receipt, has no room. Answered TraceFull, and then
    /// nothing changed, where the trail has no room.
    pub fn names(
        &mut self,
        history: &History<N>,
        mine: &mut Token,
        alloc: Global,
    ) -> (Result<Names, Refusal>, Option<Receipt>)
        requires named { mine.old.table_id ≡ N.history }
        requires session { IsSession mine.old.me.0 }
        requires alone { mine.old.me.1 ≡ [] }
        ensures named { mine.new.table_id ≡ N.history }
        ensures alone { mine.new.me.1 ≡ [] }
        ensures done { IsSeatedEvent ⊥ T.keeps N.page_bytes self.old self.new Ls
            (names_reply result.0) mine.old.me.0 mine.new.me.0 result.1 }
        ensures number { self.new.slot.number ≡ self.old.slot.number }
        ensures keeps { is_trace_full (names_reply result.0) ≡ true → T.keeps ≡ true }
        ensures limits { IsWithinLimits (names_reply result.0) }
    {
        let SeatedSlot { slot, seat } = self;
        join(history, seat, mine);
        let (names, receipt) = slot.names(alloc);
        *seat = leave_names(history, mine, &names);
        (names, receipt)
    }
}
