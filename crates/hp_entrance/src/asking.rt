//! What is asked of a part, under its lock.
ghost use Rattle.std.specs.Prelude.{ℕ, ◌≡◌, ◌∷◌, [], ◌==◌, ◌<◌, ◌≤◌, None, Ok, true, false, length, IfNone, IfSome};
ghost use Rattle.std.specs.Sync.Mutex.{mutex_guard_value};
ghost use Rattle.hp_model.specs.beside.Told.{told_reply};
ghost use Rattle.hp_model.specs.declared.answer.Answer.TheVariants.{Done};
ghost use Rattle.hp_model.specs.declared.event.Event.TheVariants.{Slot as OnSlot, Tasks as OnTasks};
ghost use Rattle.hp_model.specs.machine.Event.{has_maps_of};
ghost use Rattle.hp_model.specs.machine.Plan.{Slot};
ghost use Rattle.hp_model.specs.Profile.{most_bytes};
ghost use Rattle.hp_events.specs.Answered.{HasPlace, IsHanded};
ghost use Rattle.hp_events.specs.Copies.{AreCopiesFor};
ghost use Rattle.hp_events.specs.Event.{IsAnother, has_maps_for, is_exit, shows_bytes};
ghost use Rattle.hp_events.specs.Replies.{table_reply};
ghost use Rattle.hp_laws.specs.Answers.{lists_names};

use crate::entrance::Entrance;
use crate::holding::held_accesses;
use crate::member::Member;
use hp_events::copies::Copies;
use hp_events::{LentEvent, Parts, TableTold, into_done, is_of_mount};
use hp_history::{Clock, Places};
use hp_locked::{Core, Gate};
use hp_model::entry::{PoolEntry, SlotEntry, TableEntry};
use hp_model::event::{PoolEvent, SlotEvent, TableEvent};
use hp_model::names::Names;
use hp_model::naming::Naming;
use hp_model::queued::Queued;
use hp_model::refusal::Refusal;
use hp_model::told::Told;
use hp_order::{Turn, hold, let_go, try_hold};
use hp_shared::{SeatedSlot, Shared, Table};
use hp_trail::trace::Trace;
use std::alloc::Global;
use std::sync::{MutexGuard, Wait};

// The lock of the slot of this number, where nobody holds it.
#[inline(always)]
fn free_slot<'b, N: Naming + Places, const K: usize>(
    turn: &mut Turn,
    shared: &'b Shared<N, K>,
    at: usize,
) -> Option<MutexGuard<'b, SeatedSlot<N, Trace<SlotEntry, K>>>>
    requires turn { turn.old.held ≡ [] }
    requires at { at < shared.now.slots }
    ensures number { IfSome result (λ slot. (mutex_guard_value slot).slot.number ≡ at) }
    ensures some { IfSome result (λ slot. turn.new.held ≡ 1 ∷ []) }
    ensures none { IfNone result (turn.new.held ≡ []) }
{
    let slot = try_hold(turn, shared.slot(at))?;
    if slot.number() == at as u64 {
        Some(slot)
    } else {
        let_go(turn, slot);
        None
    }
}

// Takes the lock of the slot of this number. A lock tells nothing of its value: the slot is asked its number, and waited for until
// it is there. At each place stands the slot of that number, so it always is.
#[inline(always)]
fn hold_slot<'b, N: Naming + Places, R: Wait, const K: usize>(
    turn: &mut Turn,
    shared: &'b Shared<N, K>,
    rt: &R,
    at: usize,
) -> MutexGuard<'b, SeatedSlot<N, Trace<SlotEntry, K>>>
    requires turn { turn.old.held ≡ [] }
    requires at { at < shared.now.slots }
    ensures number { (mutex_guard_value result).slot.number ≡ at }
    ensures turn { turn.new.held ≡ 1 ∷ [] }
{
    match free_slot(turn, shared, at) {
        Some(slot) => slot,
        None => wait_for_slot(turn, shared, rt, at),
    }
}

#[inline(never)]
fn wait_for_slot<'b, N: Naming + Places, R: Wait, const K: usize>(
    turn: &mut Turn,
    shared: &'b Shared<N, K>,
    rt: &R,
    at: usize,
) -> MutexGuard<'b, SeatedSlot<N, Trace<SlotEntry, K>>>
    requires turn { turn.old.held ≡ [] }
    requires at { at < shared.now.slots }
    ensures number { (mutex_guard_value result).slot.number ≡ at }
    ensures turn { turn.new.held ≡ 1 ∷ [] }
{
    for _ in rt.forever() {
        let slot = hold(turn, shared.slot(at), rt);
        if slot.number() == at as u64 {
            return slot;
        }
        let_go(turn, slot);
    }
    unreachable!()
}

// What a look-up of a task is answered without the table's lock: where no entries are kept, and the task's word says its home.
#[inline(always)]
fn seen<N: Naming + Places, const K: usize>(
    shared: &Shared<N, K>,
    member: &mut Member<N, K>,
    event: TableEvent,
) -> Option<TableTold>
    ensures handed { IfSome result (λ told. (size : ℕ) → IsHanded (K == 1) size
        (OnTasks event) (table_reply told) member.old.receipts member.new.receipts) }
    ensures none { IfNone result (member.new.receipts ≡ member.old.receipts) }
    ensures owner { member.new.number ≡ member.old.number }
    ensures room { member.new.room ≡ member.old.room }
{
    if K == 1 {
        return None;
    }
    match event {
        TableEvent::Find { task } => match member.look(shared.history(), task) {
            Some(home) => Some(TableTold::Home(home)),
            None => None,
        },
        TableEvent::Add { .. } | TableEvent::FindAndAdd { .. } | TableEvent::Remove { .. } => None,
    }
}

impl<'a, N: Naming + Places, R: Wait, G: Gate, const K: usize> Entrance<'a, N, R, G, K> {
    // An event of a task's maps, where it has some on the slot of this number: what it is answered.
    #[inline(always)]
    fn of_maps<'b>(
        &mut self,
        at: usize,
        task: u64,
        event: LentEvent<'_>,
        room: &'b mut [u8],
    ) -> Option<Result<Told<'b>, Refusal>>
        requires within { at < self.old.slots }
        requires place { HasPlace (K == 1) self.old.receipts self.old.room }
        requires room { shows_bytes event ≡ true → most_bytes ≤ length room.old }
        requires apart { lists_names event ≡ false }
        requires another { IsAnother event }
        requires maps { (slot : Slot) → has_maps_for event slot ≡ has_maps_of task slot }
        requires copies { (K == 1) ≡ true → AreCopiesFor event None }
        ensures handed { IfSome result (λ told. IsHanded (K == 1) N.page_bytes
            (OnSlot at event.entry) (told_reply told) self.old.receipts self.new.receipts) }
        ensures exit { IfSome result (λ told. is_exit event.entry ≡ true
            → told_reply told ≡ Ok Done) }
        ensures none { IfNone result (self.new.receipts ≡ self.old.receipts) }
        ensures slots { self.new.slots ≡ self.old.slots }
        ensures room { self.new.room ≡ self.old.room }
        ensures clock { self.new.clock ≡ self.old.clock }
    {
        let shared = self.shared;
        let mut value = hold_slot(&mut self.turn, shared, self.rt, at);
        self.gate.enter(at as u64);
        let slot: &mut SeatedSlot<N, Trace<SlotEntry, K>> = &mut value;
        if !slot.has_maps(task) {
            let_go(&mut self.turn, value);
            return None;
        }
        let ways = shared.ways(self.rt, self.gate);
        let (alloc, page_bytes) = (shared.alloc(), shared.page_bytes());
        let told = self.member.slot(
            &ways,
            &mut self.turn,
            slot,
            alloc,
            page_bytes,
            event,
            None,
            room,
        );
        let_go(&mut self.turn, value);
        Some(told)
    }
}

impl<'a, N: Naming + Places, R: Wait, G: Gate, const K: usize> Parts for Entrance<'a, N, R, G, K> {
    type Past = Clock<N>;

    ghost keeps = { K == 1 };

    ghost page = { N.page_bytes };

    ghost slots = { λ e. e.slots };

    ghost told = { λ e. e.receipts };

    ghost places = { λ e. e.room };

    ghost clock = { λ e. e.clock };

    ghost seen_by = { λ past. past };

    #[inline(always)]
    fn is_kept(&self) -> bool {
        K == 1
    }

    #[inline(always)]
    fn page_bytes(&self) -> u64 {
        self.shared.page_bytes()
    }

    #[inline(always)]
    fn count(&self) -> usize {
        self.shared.count()
    }

    #[inline(always)]
    fn left(&self) -> usize {
        self.member.left()
    }

    #[inline(always)]
    fn alloc(&self) -> Global {
        self.shared.alloc()
    }

    #[inline(always)]
    fn table(&mut self, event: TableEvent) -> TableTold {
        let shared = self.shared;
        if let Some(told) = seen(shared, &mut self.member, event) {
            return told;
        }
        let mut value = hold(&mut self.turn, shared.table(), self.rt);
        let table: &mut Table<N, Trace<TableEntry, K>> = &mut value;
        let told = self.member.table(shared.history(), table, event);
        let_go(&mut self.turn, value);
        told
    }

    #[inline(always)]
    fn pool(&mut self, event: PoolEvent) -> Result<Told<'static>, Refusal> {
        let shared = self.shared;
        let mut value = hold(&mut self.turn, shared.core(), self.rt);
        let core: &mut Core<N, Trace<PoolEntry, K>> = &mut value;
        let told = self.member.pool(shared.history(), core, event);
        let_go(&mut self.turn, value);
        told
    }

    #[inline(always)]
    fn slot<'b>(
        &mut self,
        at: usize,
        event: LentEvent<'_>,
        copies: Option<Copies>,
        room: &'b mut [u8],
    ) -> Result<Told<'b>, Refusal> {
        let shared = self.shared;
        let mut value = hold_slot(&mut self.turn, shared, self.rt, at);
        self.gate.enter(at as u64);
        let slot: &mut SeatedSlot<N, Trace<SlotEntry, K>> = &mut value;
        let ways = shared.ways(self.rt, self.gate);
        if K != 1 && is_of_mount(&event) {
            let (told, _entered) = self.member.unnoted(
                &ways,
                &mut self.turn,
                slot,
                shared.page_bytes(),
                event,
                room,
            );
            let_go(&mut self.turn, value);
            return told;
        }
        let (alloc, page_bytes) = (shared.alloc(), shared.page_bytes());
        let told = self.member.slot(
            &ways,
            &mut self.turn,
            slot,
            alloc,
            page_bytes,
            event,
            copies,
            room,
        );
        let_go(&mut self.turn, value);
        told
    }

    fn fork_maps(&mut self, at: usize, parent: u64, child: u64) -> Option<Result<(), Refusal>> {
        let event = SlotEvent::ForkMaps { parent, child };
        match self.of_maps(at, parent, event, &mut []) {
            Some(told) => Some(into_done(told)),
            None => None,
        }
    }

    fn exit_maps(&mut self, at: usize, task: u64) -> bool {
        let event = SlotEvent::ExitMaps { task };
        match self.of_maps(at, task, event, &mut []) {
            Some(_done) => true,
            None => false,
        }
    }

    fn accesses(&mut self, at: usize, queue: &mut [Queued], room: &mut [u8]) -> usize {
        let shared = self.shared;
        let mut value = hold_slot(&mut self.turn, shared, self.rt, at);
        self.gate.enter(at as u64);
        let slot: &mut SeatedSlot<N, Trace<SlotEntry, K>> = &mut value;
        let ways = shared.ways(self.rt, self.gate);
        let done = held_accesses(
            shared,
            &ways,
            &mut self.turn,
            &mut self.member,
            slot,
            at,
            queue,
            room,
        );
        let_go(&mut self.turn, value);
        done
    }

    fn names(&mut self, at: usize) -> Result<Names, Refusal> {
        let shared = self.shared;
        let mut value = hold_slot(&mut self.turn, shared, self.rt, at);
        self.gate.enter(at as u64);
        let slot: &mut SeatedSlot<N, Trace<SlotEntry, K>> = &mut value;
        let names = self.member.names(shared.history(), slot, shared.alloc());
        let_go(&mut self.turn, value);
        names
    }

    #[inline(always)]
    fn date(&mut self) {
        self.member.date(self.shared.history(), &mut self.clock);
    }

    fn show(&mut self) -> Clock<N> {
        self.clock.show(self.shared.history())
    }

    fn hear(&mut self, past: Clock<N>) {
        self.member
            .hear(self.shared.history(), &mut self.clock, past);
    }
}
