//! The audit of a finished run.
ghost use Rattle.std.specs.Prelude.{◌≡◌, List, IfOk, MatchResult, map};
ghost use Rattle.hp_model.specs.threads.JointRun.{IsTold, Item, event_of};
ghost use Rattle.hp_trail.specs.Audit.{IsJointList, IsUnjoined};
ghost use Rattle.hp_trail.specs.Walk.{AreToldBy, lists, trails_of};

use crate::join::join;
use crate::trails::Trails;
use hp_model::entry::{PoolEntry, Receipt, SlotEntry, TableEntry};
use hp_model::event::Event;
use hp_model::refusal::Refusal;
use std::alloc::{AllocError, Global};

/// Joins the trails of a run and what each session was told of it into one list of events.
///
/// Where it succeeds, the list has every event of the trails once, at its place, with the reply
/// that its session was told, in the order of each trail, of the places in the pool's trail and of
/// each session's receipts. Where each trail is a run of its part, from a state of the machine that
/// is settled, the list is a run of the machine from there, and ends where the trails end.
///
/// It is refused `TrailsDiffer` exactly where no such list joins trails and receipts: one of them
/// is wrong, missing or told twice, or some events wait for each other in a circle; and
/// `OutOfMemory` where memory is. It takes at most 64 bytes for each event, and some more for each
/// slot and session, beside the trails, the receipts and the list, and time linear in them.
pub fn audit(
    alloc: Global,
    tasks: &[TableEntry],
    pool: &[PoolEntry],
    slots: &[Vec<SlotEntry>],
    receipts: Vec<Vec<Receipt>>,
) -> Result<Vec<Event>, Refusal>
    ensures { let t = trails_of tasks.now slots.now pool.now in
        let told = lists receipts.items in
        MatchResult result (λ events. IsJointList t told events.items) (IsUnjoined t told) }
{
    let order = match join(alloc, Trails { tasks, slots, pool }, &receipts) {
        Ok(Some(order)) => order,
        Ok(None) => return Err(Refusal::TrailsDiffer),
        Err(_) => return Err(Refusal::OutOfMemory),
    };
    match events_in(alloc, order, receipts) {
        Ok(events) => Ok(events),
        Err(_) => Err(Refusal::OutOfMemory),
    }
}

/// The events of the receipts, in this order of the sessions that were told of them.
fn events_in(
    alloc: Global,
    mut order: Vec<usize>,
    mut receipts: Vec<Vec<Receipt>>,
) -> Result<Vec<Event>, AllocError>
    requires { AreToldBy (lists receipts.items) order.items }
    ensures { let told = lists receipts.items in
        IfOk result (λ events. (items : List Item) → IsTold told items
        → map (λ i. i.by) items ≡ order.items
        → map (λ i. (event_of i.entry).0) items ≡ events.items) }
{
    let mut events = Vec::new(alloc);
    events.reserve(order.len())?;
    while let Some(session) = order.pop() {
        let Some(receipt) = receipts[session].pop() else {
            continue;
        };
        events.push(into_event(receipt))?;
    }
    events.reverse();
    Ok(events)
}

fn into_event(receipt: Receipt) -> Event
    ensures { result ≡ receipt.event }
{
    receipt.event
}
