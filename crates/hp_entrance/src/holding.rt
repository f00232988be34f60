//! Loads, stores and faults that are done while their slot's lock is held, where no entries are kept.
ghost use Rattle.std.specs.Prelude.{ℕ, ◌≡◌, ◌∷◌, [], ◌==◌, ◌+◌, ◌<◌, ◌≤◌, false, length, take, IfNone, IfSome, true};
ghost use Rattle.std.specs.List.{All};
ghost use Rattle.hp_model.specs.Profile.{most_bytes};
ghost use Rattle.hp_model.specs.beside.Accesses.{fault_step};
ghost use Rattle.hp_model.specs.beside.Queue.{is_load};
ghost use Rattle.hp_model.specs.declared.answer.Answer.TheVariants.{Done};
ghost use Rattle.hp_events.specs.Queues.{AreFirstHanded, IsAccessHanded};
ghost use Rattle.hp_shared.specs.Runs.{faults_of};
ghost use Rattle.hp_entrance.specs.Runs.{AreFaultsOf, fault_at};
ghost use Rattle.hp_model.specs.declared.event.SlotEvent.TheVariants.{Fault as FaultThere, Load as LoadThere, Store as StoreThere};

use crate::member::Member;
use hp_events::{LentEvent, into_bytes, into_done};
use hp_history::{History, Places};
use hp_locked::Gate;
use hp_model::entry::{PoolEntry, SlotEntry};
use hp_model::event::SlotEvent;
use hp_model::lent::Lent;
use hp_model::naming::Naming;
use hp_model::queued::{Doing, Queued};
use hp_model::service::Access;
use hp_model::step::Intent;
use hp_order::Turn;
use hp_shared::{SeatedSlot, Shared, Ways};
use hp_trail::trace::Trace;
use std::sync::Wait;

// The first loads, stores and faults of a queue, up to one of another slot or of a task that is not noted, or behind one that entered
// the pool, or faults that entered it together: so that nobody waits long for the slot. How many were done.
pub(crate) fn held_accesses<N: Naming + Places, R: Wait, G: Gate, const K: usize>(
    shared: &Shared<N, K>,
    ways: &Ways<'_, N, R, G, K>,
    turn: &mut Turn,
    member: &mut Member<N, K>,
    slot: &mut SeatedSlot<N, Trace<SlotEntry, K>>,
    at: usize,
    queue: &mut [Queued],
    room: &mut [u8],
) -> usize
    requires turn { turn.old.held ≡ 1 ∷ [] }
    requires unkept { (K == 1) ≡ false }
    requires number { slot.old.slot.number ≡ at }
    requires room { most_bytes ≤ length room.old }
    ensures turn { turn.new.held ≡ 1 ∷ [] }
    ensures first { AreFirstHanded N.page_bytes at result queue.old queue.new
        member.old.receipts member.new.receipts }
    ensures owner { member.new.number ≡ member.old.number }
    ensures room { member.new.room ≡ member.old.room }
{
    let (history, page_bytes) = (shared.history(), shared.page_bytes());
    for done in 0..queue.len() {
        let some = held_run(ways, turn, member, slot, at, &mut queue[done..]);
        if some > 0 {
            return done + some;
        }
        let queued = &mut queue[done];
        match held_access(
            history, ways, turn, member, slot, at, page_bytes, queued, room,
        ) {
            None => return done,
            Some(true) => return done + 1,
            Some(false) => {}
        }
    }
    queue.len()
}

// The first faults of a queue, where they are at indices of one map of this slot that follow one another, and each takes the page of a
// reservation: all in one hold of the pool's lock. How many were done: none where there are fewer than two.
#[inline(always)]
fn held_run<N: Naming + Places, R: Wait, G: Gate, const K: usize>(
    ways: &Ways<'_, N, R, G, K>,
    turn: &mut Turn,
    member: &mut Member<N, K>,
    slot: &mut SeatedSlot<N, Trace<SlotEntry, K>>,
    at: usize,
    queue: &mut [Queued],
) -> usize
    requires turn { turn.old.held ≡ 1 ∷ [] }
    requires unkept { (K == 1) ≡ false }
    requires looks { N.shape.looks ≡ true }
    requires number { slot.old.slot.number ≡ at }
    requires some { 0 < length queue.old }
    ensures turn { turn.new.held ≡ 1 ∷ [] }
    ensures first { AreFirstHanded N.page_bytes at result queue.old queue.new
        member.old.receipts member.new.receipts }
    ensures number { slot.new.slot.number ≡ at }
    ensures owner { member.new.number ≡ member.old.number }
    ensures room { member.new.room ≡ member.old.room }
{
    let Some(intent) = intent_of(&queue[0]) else {
        return 0;
    };
    let access = *queue[0].access();
    let most = faults_in(&access, intent, queue);
    if most < 2 || access.slot != at as u64 {
        return 0;
    }
    let done = member.fault_run(ways, turn, slot, &access, intent, most as u64) as usize;
    answer_all(&mut queue[..done]);
    done
}

// What a fault that waits is for.
#[inline(always)]
fn intent_of(queued: &Queued) -> Option<Intent>
    ensures { IfSome result (λ intent.
        queued.now.step ≡ fault_step queued.now.access intent) }
{
    match queued.doing() {
        Doing::Fault { intent } => Some(intent),
        Doing::Load { count: _ } | Doing::Store { bytes: _ } => None,
    }
}

// How many in front of a queue are faults at the indices of one map from this one on.
#[inline(never)]
fn faults_in(first: &Access, intent: Intent, queue: &[Queued]) -> usize
    ensures few { result ≤ length queue.now }
    ensures faults { AreFaultsOf (faults_of first.now.slot first.now intent) first.now.index
        (take result queue.now) }
{
    for done in 0..queue.len() {
        if !follows(first, intent, &queue[done], done as u64) {
            return done;
        }
    }
    queue.len()
}

// Whether this is the fault at so many indices behind the first.
#[inline(always)]
fn follows(first: &Access, intent: Intent, queued: &Queued, done: u64) -> bool
    ensures { result ≡ true → queued.now.step
        ≡ fault_at (faults_of first.now.slot first.now intent) (first.now.index + done) }
{
    let next = *queued.access();
    next.slot == first.slot
        && next.task == first.task
        && next.map == first.map
        && next.index >= first.index
        && next.index - first.index == done
        && intent_of(queued) == Some(intent)
}

// Notes of each that it is done. None is a load.
#[inline(never)]
fn answer_all(queue: &mut [Queued])
    requires { All (λ q. is_load q.step ≡ false) queue.old }
    ensures { All (λ q. q.reply ≡ Ok Done) queue.new }
{
    for i in 0..queue.len() {
        queue[i].answer_done(Ok(()));
    }
}

// A load, a store or a fault that waits, if it is one of this slot and its task is noted: whether it entered the pool.
#[inline(always)]
fn held_access<N: Naming + Places, R: Wait, G: Gate, const K: usize>(
    history: &History<N>,
    ways: &Ways<'_, N, R, G, K>,
    turn: &mut Turn,
    member: &mut Member<N, K>,
    slot: &mut SeatedSlot<N, Trace<SlotEntry, K>>,
    at: usize,
    page_bytes: u64,
    queued: &mut Queued,
    room: &mut [u8],
) -> Option<bool>
    requires turn { turn.old.held ≡ 1 ∷ [] }
    requires unkept { (K == 1) ≡ false }
    requires looks { N.shape.looks ≡ true }
    requires number { slot.old.slot.number ≡ at }
    requires page_bytes { page_bytes ≡ N.page_bytes }
    requires room { most_bytes ≤ length room.old }
    ensures turn { turn.new.held ≡ 1 ∷ [] }
    ensures done { IfSome result (λ entered. IsAccessHanded N.page_bytes at queued.old.step
        queued.new.reply member.old.receipts member.new.receipts) }
    ensures left { IfNone result (queued.new ≡ queued.old) }
    ensures untold { IfNone result (member.new.receipts ≡ member.old.receipts) }
    ensures number { slot.new.slot.number ≡ slot.old.slot.number }
    ensures owner { member.new.number ≡ member.old.number }
    ensures room { member.new.room ≡ member.old.room }
{
    let access = *queued.access();
    if access.slot != at as u64 {
        return None;
    }
    let home = member.look(history, access.task)?;
    match queued.doing() {
        Doing::Load { count } => {
            let event = load_of(&access, home, count);
            let (told, entered) = member.unnoted(ways, turn, slot, page_bytes, event, room);
            queued.answer_load(into_bytes(told));
            Some(entered)
        }
        Doing::Store { bytes } => {
            let event = store_of(&access, home, bytes);
            let (told, entered) = member.unnoted(ways, turn, slot, page_bytes, event, &mut []);
            queued.answer_done(into_done(told));
            Some(entered)
        }
        Doing::Fault { intent } => {
            let event = fault_of(&access, home, intent);
            let (told, entered) = member.unnoted(ways, turn, slot, page_bytes, event, &mut []);
            queued.answer_done(into_done(told));
            Some(entered)
        }
    }
}

// The event of a load.
#[inline(always)]
fn load_of(access: &Access, home: u64, count: u64) -> LentEvent<'static>
    ensures { result ≡ LoadThere access.now.task home access.now.map access.now.index
        access.now.offset count }
{
    SlotEvent::Load {
        task: access.task,
        home,
        map: access.map,
        index: access.index,
        offset: access.offset,
        count,
    }
}

// The event of a store.
#[inline(always)]
fn store_of<'q>(access: &Access, home: u64, bytes: &'q [u8]) -> LentEvent<'q>
    ensures { result ≡ StoreThere access.now.task home access.now.map access.now.index
        access.now.offset bytes.now }
{
    SlotEvent::Store {
        task: access.task,
        home,
        map: access.map,
        index: access.index,
        offset: access.offset,
        bytes: Lent::new(bytes),
    }
}

// The event of a fault.
#[inline(always)]
fn fault_of(access: &Access, home: u64, intent: Intent) -> LentEvent<'static>
    ensures { result ≡ FaultThere access.now.task home access.now.map access.now.index intent }
{
    SlotEvent::Fault {
        task: access.task,
        home,
        map: access.map,
        index: access.index,
        intent,
    }
}
