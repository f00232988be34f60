//! What a session has of the machine: its seat in the history, and its receipts where entries are kept.
ghost use Rattle.std.specs.Prelude.{ℕ, ◌≡◌, ◌==◌, ◌+◌, ◌<◌, ◌≤◌, ◌∷◌, ◌++◌, [], length, true, false, if◌then◌else◌, Ok, None, Some, IfSome, IfNone, vec_len, vec_capacity};
ghost use Rattle.hp_model.specs.threads.JointRun.{option_cons};
ghost use Rattle.hp_events.specs.Copies.{AreCopiesFor};
ghost use Rattle.hp_events.specs.Time.{IsFront, made};
ghost use Rattle.hp_events.specs.Event.{IsAnother, has_maps_for, is_exit, is_of_mount, shows_bytes};
ghost use Rattle.hp_history.specs.History.{IsSession, number_in, receipts_in};
ghost use Rattle.hp_history.specs.Sections.{pool_receipt};
ghost use Rattle.hp_laws.specs.Answers.{lists_names};
ghost use Rattle.hp_locked.specs.Told.{pool_reply};
ghost use Rattle.hp_model.specs.beside.Told.{told_reply};
ghost use Rattle.hp_model.specs.declared.answer.Answer.TheVariants.{Done, Home};
ghost use Rattle.hp_model.specs.declared.event.Event.TheVariants.{Pool as OnPool, Slot as OnSlot, Tasks as OnTasks};
ghost use Rattle.hp_model.specs.declared.event.SlotEvent.TheVariants.{Ls};
ghost use Rattle.hp_model.specs.declared.event.TableEvent.TheVariants.{Find};
ghost use Rattle.hp_model.specs.Profile.{most_bytes};
ghost use Rattle.hp_model.specs.text.Writing.{IsWithinLimits};
ghost use Rattle.hp_events.specs.Answered.{HasPlace, IsHanded};
ghost use Rattle.hp_events.specs.Replies.{names_reply, table_reply};
ghost use Rattle.hp_shared.specs.Ended.{IsCount};
ghost use Rattle.hp_shared.specs.Runs.{faults_of};
ghost use Rattle.hp_entrance.specs.Runs.{AreFaultsHanded};

use atomic_table::Badge;
use hp_events::copies::Copies;
use hp_events::{LentEvent, TableTold};
use hp_history::{Clock, History, Places, Token, View};
use hp_locked::{Core, Gate, PoolTold};
use hp_model::entry::{Part, PoolEntry, Receipt, SlotEntry, TableEntry};
use hp_model::event::{Event, PoolEvent, TableEvent};
use hp_model::names::Names;
use hp_model::naming::Naming;
use hp_model::refusal::Refusal;
use hp_model::service::Access;
use hp_model::step::Intent;
use hp_model::told::Told;
use hp_order::Turn;
use hp_shared::{Finished, SeatedSlot, Table, Ways};
use hp_trail::trace::Trace;
use std::alloc::Global;
use std::marker::{Model, PhantomData};
use std::mem;
use std::sync::Wait;

/// What a session has: its number; its seat in the history, which has what it was told of events, in order; and where K is 1 that
/// as receipts, in room that was made for them.
#[derive(Drop)]
pub struct Member<N: Places, const K: usize> {
    number: u64,
    seat: Badge<View>,
    receipts: Vec<Receipt>,
    room: usize,
    of: PhantomData<N>,
}

impl<N: Places, const K: usize> Model for Member<N, K> {
    ghost use Rattle.std.specs.Prelude.{◌==◌, vec_len, vec_capacity};
    ghost use Rattle.hp_entrance.specs.Members.{IsMember, MemberView, member_number, told_at};

    ghost Value = { MemberView };

    ghost view = { λ m. record {
      number = member_number m.seat.views;
      receipts = told_at m.seat.views;
      room = m.room;
    } };

    ghost invariant = { λ m. IsMember (K == 1) N.history m.number m.seat.table_id m.seat.views
        m.receipts.items (vec_len m.receipts) m.room (vec_capacity m.receipts) };
}

// Where receipts are kept, this one is.
#[inline(always)]
fn keep(receipts: &mut Vec<Receipt>, receipt: Option<Receipt>)
    requires { IfSome receipt (λ r. vec_len receipts.old < vec_capacity receipts.old) }
    ensures items { receipts.new.items ≡ receipts.old.items ++ option_cons receipt [] }
    ensures count { vec_len receipts.new ≡ length (receipts.old.items ++ option_cons receipt []) }
    ensures room { vec_capacity receipts.new ≡ vec_capacity receipts.old }
{
    if let Some(receipt) = receipt {
        receipts.push_reserved(receipt);
    }
}

// The receipt of an event of the pool, where receipts are kept.
#[inline(always)]
fn receipt_of<const K: usize>(event: PoolEvent, told: PoolTold, place: u64) -> Option<Receipt>
    ensures { result ≡ (if K == 1
        then Some (pool_receipt event (pool_reply told) place) else None) }
{
    if K != 1 {
        return None;
    }
    Some(Receipt {
        part: Part::Pool,
        place,
        event: Event::Pool(event),
        reply: told.reply(),
    })
}

impl<N: Naming + Places, const K: usize> Member<N, K> {
    /// A session that was told nothing yet, with room for its receipts.
    pub fn new(number: u64, seat: Token, receipts: Vec<Receipt>, room: usize) -> Self
        requires number { IsCount number (number_in seat.me.0) }
        requires named { seat.table_id ≡ N.history }
        requires session { IsSession seat.me.0 }
        requires alone { seat.me.1 ≡ [] }
        requires untold { receipts_in seat.me.0 ≡ [] }
        requires none { receipts.items ≡ [] }
        requires room { room ≤ vec_capacity receipts }
        ensures number { result.number ≡ number_in seat.me.0 }
        ensures told { result.receipts ≡ [] }
        ensures room { result.room ≡ room }
    {
        Member {
            number,
            seat: seat.into_badge(),
            receipts,
            room,
            of: PhantomData,
        }
    }

    /// What the session leaves, once it is over, with its clock.
    pub fn into_finished(self, clock: Clock<N>) -> Finished<N, K>
        ensures number { result.number ≡ self.number }
        ensures receipts { result.receipts ≡ self.receipts }
        ensures seen { result.seen ≡ clock }
    {
        let Member {
            number,
            seat,
            receipts,
            ..
        } = self;
        Finished::new(number, receipts, seat.into_seat(), clock)
    }

    /// The clock looks at the order, where all events stand that the session was told of, and no others of it.
    #[inline(always)]
    pub fn date(&mut self, history: &History<N>, clock: &mut Clock<N>)
        ensures same { self.new ≡ self.old }
        ensures later { IsFront clock.old clock.new }
        ensures made { made self.new.number clock.new ≡ length self.new.receipts }
    {
        let Member { seat, .. } = self;
        clock.date(history, seat);
    }

    /// The clock takes what another has seen, and looks at the order as `date` does.
    pub fn hear(&mut self, history: &History<N>, clock: &mut Clock<N>, other: Clock<N>)
        ensures same { self.new ≡ self.old }
        ensures heard { IsFront other clock.new }
        ensures later { IsFront clock.old clock.new }
        ensures made { made self.new.number clock.new ≡ length self.new.receipts }
    {
        let Member { seat, .. } = self;
        clock.hear(history, seat, other);
    }

    /// For how many receipts more there is room, where they are kept.
    #[inline(always)]
    pub fn left(&self) -> usize
        ensures { (K == 1) ≡ true → length self.now.receipts + result ≡ self.now.room }
    {
        self.room.saturating_sub(self.receipts.len())
    }

    /// An event of the task table under its lock: what it answers.
    #[inline(never)]
    pub fn table(
        &mut self,
        history: &History<N>,
        table: &mut Table<N, Trace<TableEntry, K>>,
        event: TableEvent,
    ) -> TableTold
        requires place { HasPlace (K == 1) self.old.receipts self.old.room }
        ensures handed { (size : ℕ) → IsHanded (K == 1) size (OnTasks event) (table_reply result)
            self.old.receipts self.new.receipts }
        ensures number { self.new.number ≡ self.old.number }
        ensures room { self.new.room ≡ self.old.room }
    {
        let Member { seat, receipts, .. } = self;
        let mut mine = mem::replace(seat, Badge::blank()).into_seat();
        let answered = table.event(history, &mut mine, event);
        *seat = mine.into_badge();
        match answered {
            Err(_full) => TableTold::Refused(Refusal::TraceFull),
            Ok((told, receipt)) => {
                keep(receipts, receipt);
                told
            }
        }
    }

    /// The home of a task, where its word in the history says it: by one read, without a lock. It is an event of this session.
    #[inline(always)]
    pub fn look(&mut self, history: &History<N>, task: u64) -> Option<u64>
        requires looks { N.shape.looks ≡ true }
        requires unkept { (K == 1) ≡ false }
        ensures found { IfSome result (λ home. (size : ℕ) → IsHanded (K == 1) size
            (OnTasks (Find task)) (Ok (Home home)) self.old.receipts self.new.receipts) }
        ensures none { IfNone result (self.new.receipts ≡ self.old.receipts) }
        ensures number { self.new.number ≡ self.old.number }
        ensures room { self.new.room ≡ self.old.room }
    {
        let Member { seat, .. } = self;
        let mut mine = mem::replace(seat, Badge::blank()).into_seat();
        let home = history.look(&mut mine, task);
        *seat = mine.into_badge();
        home
    }

    /// An event of the pool alone under its lock: what it answers.
    #[inline(always)]
    pub fn pool(
        &mut self,
        history: &History<N>,
        core: &mut Core<N, Trace<PoolEntry, K>>,
        event: PoolEvent,
    ) -> Result<Told<'static>, Refusal>
        requires place { HasPlace (K == 1) self.old.receipts self.old.room }
        ensures handed { (size : ℕ) → IsHanded (K == 1) size (OnPool event) (told_reply result)
            self.old.receipts self.new.receipts }
        ensures limits { IsWithinLimits (told_reply result) }
        ensures number { self.new.number ≡ self.old.number }
        ensures room { self.new.room ≡ self.old.room }
    {
        let Member { seat, receipts, .. } = self;
        let mut mine = mem::replace(seat, Badge::blank()).into_seat();
        let answered = core.event(history, &mut mine, event);
        *seat = mine.into_badge();
        match answered {
            Err(_full) => Err(Refusal::TraceFull),
            Ok((told, place)) => {
                keep(receipts, receipt_of::<K>(event, told, place));
                told.told()
            }
        }
    }

    /// What is asked of a slot under its lock: the reply. Bytes are in the front of the room.
    #[inline(always)]
    pub fn slot<'b, R: Wait, G: Gate>(
        &mut self,
        ways: &Ways<'_, N, R, G, K>,
        turn: &mut Turn,
        slot: &mut SeatedSlot<N, Trace<SlotEntry, K>>,
        alloc: Global,
        page_bytes: u64,
        event: LentEvent<'_>,
        copies: Option<Copies>,
        room: &'b mut [u8],
    ) -> Result<Told<'b>, Refusal>
        requires turn { turn.old.held ≡ 1 ∷ [] }
        requires place { HasPlace (K == 1) self.old.receipts self.old.room }
        requires page_bytes { page_bytes ≡ N.page_bytes }
        requires bytes { 0 < page_bytes }
        requires room { shows_bytes event ≡ true → most_bytes ≤ length room.old }
        requires apart { lists_names event ≡ false }
        requires another { IsAnother event }
        requires has { has_maps_for event slot.old.slot.mount ≡ true }
        requires copies { (K == 1) ≡ true → AreCopiesFor event copies }
        ensures turn { turn.new.held ≡ 1 ∷ [] }
        ensures handed { IsHanded (K == 1) N.page_bytes
            (OnSlot slot.old.slot.number event.entry) (told_reply result)
            self.old.receipts self.new.receipts }
        ensures limits { IsWithinLimits (told_reply result) }
        ensures exit { is_exit event.entry ≡ true → told_reply result ≡ Ok Done }
        ensures number { self.new.number ≡ self.old.number }
        ensures room { self.new.room ≡ self.old.room }
    {
        let Member { seat, receipts, .. } = self;
        let mine = mem::replace(seat, Badge::blank()).into_seat();
        let own = mem::replace(turn, Turn::spent());
        let (mine, told, receipt, own) = slot.work(
            ways, own, mine, alloc, page_bytes, &event, copies, room,
        );
        *turn = own;
        *seat = mine.into_badge();
        keep(receipts, receipt);
        told
    }

    /// An event of a mount but a list of names, where no entries are kept: its reply, with bytes in the front of the room, and
    /// whether the pool was entered.
    #[inline(always)]
    pub fn unnoted<'b, R: Wait, G: Gate>(
        &mut self,
        ways: &Ways<'_, N, R, G, K>,
        turn: &mut Turn,
        slot: &mut SeatedSlot<N, Trace<SlotEntry, K>>,
        page_bytes: u64,
        event: LentEvent<'_>,
        room: &'b mut [u8],
    ) -> (Result<Told<'b>, Refusal>, bool)
        requires turn { turn.old.held ≡ 1 ∷ [] }
        requires unkept { (K == 1) ≡ false }
        requires page_bytes { page_bytes ≡ N.page_bytes }
        requires of_mount { is_of_mount event ≡ true }
        requires room { shows_bytes event ≡ true → most_bytes ≤ length room.old }
        requires apart { lists_names event ≡ false }
        ensures turn { turn.new.held ≡ 1 ∷ [] }
        ensures handed { IsHanded (K == 1) N.page_bytes
            (OnSlot slot.old.slot.number event.entry) (told_reply result.0)
            self.old.receipts self.new.receipts }
        ensures limits { IsWithinLimits (told_reply result.0) }
        ensures slot { slot.new.slot.number ≡ slot.old.slot.number }
        ensures number { self.new.number ≡ self.old.number }
        ensures room { self.new.room ≡ self.old.room }
    {
        let Member { seat, .. } = self;
        let mine = mem::replace(seat, Badge::blank()).into_seat();
        let own = mem::replace(turn, Turn::spent());
        let (mine, told, entered, own) = slot.event_unnoted(
            ways, own, mine, page_bytes, event, room,
        );
        *turn = own;
        *seat = mine.into_badge();
        (told, entered)
    }

    /// Faults of a task through one map, at an index and at those behind it, where no entries are kept: the first of them, at most so
    /// many, that each take the page of a reservation. Each is told behind a look-up of its task. How many were done: none where
    /// there are fewer than two.
    #[inline(never)]
    pub fn fault_run<R: Wait, G: Gate>(
        &mut self,
        ways: &Ways<'_, N, R, G, K>,
        turn: &mut Turn,
        slot: &mut SeatedSlot<N, Trace<SlotEntry, K>>,
        access: &Access,
        intent: Intent,
        most: u64,
    ) -> u64
        requires turn { turn.old.held ≡ 1 ∷ [] }
        requires unkept { (K == 1) ≡ false }
        requires looks { N.shape.looks ≡ true }
        ensures turn { turn.new.held ≡ 1 ∷ [] }
        ensures done { AreFaultsHanded N.page_bytes slot.old.slot.number
            (faults_of slot.old.slot.number access.now intent) access.now.index result
            self.old.receipts self.new.receipts }
        ensures few { result ≤ most }
        ensures slot { slot.new.slot.number ≡ slot.old.slot.number }
        ensures number { self.new.number ≡ self.old.number }
        ensures room { self.new.room ≡ self.old.room }
    {
        let Member { seat, .. } = self;
        let mine = mem::replace(seat, Badge::blank()).into_seat();
        let own = mem::replace(turn, Turn::spent());
        let (mine, done, own) = slot.fault_run(ways, own, mine, access, intent, most);
        *turn = own;
        *seat = mine.into_badge();
        done
    }

    /// The names of a slot's files, under its lock.
    pub fn names(
        &mut self,
        history: &History<N>,
        slot: &mut SeatedSlot<N, Trace<SlotEntry, K>>,
        alloc: Global,
    ) -> Result<Names, Refusal>
        requires place { HasPlace (K == 1) self.old.receipts self.old.room }
        ensures handed { IsHanded (K == 1) N.page_bytes (OnSlot slot.old.slot.number Ls)
            (names_reply result) self.old.receipts self.new.receipts }
        ensures limits { IsWithinLimits (names_reply result) }
        ensures number { self.new.number ≡ self.old.number }
        ensures room { self.new.room ≡ self.old.room }
    {
        let Member { seat, receipts, .. } = self;
        let mut mine = mem::replace(seat, Badge::blank()).into_seat();
        let (names, receipt) = slot.names(history, &mut mine, alloc);
        *seat = mine.into_badge();
        keep(receipts, receipt);
        names
    }
}
