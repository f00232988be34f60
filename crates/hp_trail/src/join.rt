//! Joining trails and receipts into one order.
ghost use Rattle.std.specs.Prelude.{◌≡◌, [], IfOk, MatchOption, OnOk};
ghost use Rattle.hp_model.specs.threads.Differ.{Differ};
ghost use Rattle.hp_trail.specs.Tellers.{AreTold, teller};
ghost use Rattle.hp_trail.specs.Walk.{AreCovered, IsWoken, JoinsBy, WalkedBy, cursor, lists, trails_of};

use crate::tellers::Tellers;
use crate::trails::Trails;
use crate::walk::Walk;
use hp_model::entry::{Part, Receipt};
use std::alloc::{AllocError, Global};

/// The sessions in an order in which trails and receipts join, each as often as it was told of an
/// event; None where trails and receipts differ.
pub(crate) fn join(
    alloc: Global,
    trails: Trails<'_>,
    receipts: &[Vec<Receipt>],
) -> Result<Option<Vec<usize>>, AllocError>
    ensures { let at = trails.entry in
        let t = trails_of at.tasks.now at.slots.now at.pool.now in
        let told = lists receipts.now in
        IfOk result (λ r. MatchOption r (Differ t told) (λ order. JoinsBy t told order.items)) }
{
    let Some(tellers) = Tellers::list(alloc, trails, receipts)? else {
        return Ok(None);
    };
    let mut walk = Walk::open(alloc, trails, receipts)?;
    let events = receipts
        .iter()
        .fold(0usize, |sum, told| sum.saturating_add(told.len()));
    let mut order = Vec::new(alloc);
    order.reserve(events)?;
    let mut work = Vec::new(alloc);
    work.reserve(events.saturating_mul(2).saturating_add(receipts.len()))?;
    for session in 0..receipts.len() {
        work.push(session)?;
    }
    pass_all(&tellers, &mut walk, &mut work, &mut order)?;
    if !walk.has_ended() {
        return Ok(None);
    }
    Ok(Some(order))
}

/// Passes events until no session is left to be tried, and notes the order of the sessions that
/// were told of them.
///
/// A session is tried whenever its next event may have come next in its trail, and in the pool's:
/// at the start, after it passed an event, and when the place that it tells of has come.
fn pass_all(
    tellers: &Tellers,
    walk: &mut Walk,
    work: &mut Vec<usize>,
    order: &mut Vec<usize>,
) -> Result<(), AllocError>
    requires told { AreTold walk.old.trails walk.old.receipts tellers.now }
    requires walked { WalkedBy walk.old.trails walk.old.receipts walk.old.cursors order.old.items }
    requires covered { AreCovered walk.old.trails walk.old.receipts walk.old.cursors
        work.old.items }
    ensures trails { OnOk result (walk.new.trails ≡ walk.old.trails) }
    ensures receipts { OnOk result (walk.new.receipts ≡ walk.old.receipts) }
    ensures walked { OnOk result
        (WalkedBy walk.old.trails walk.old.receipts walk.new.cursors order.new.items) }
    ensures covered { OnOk result
        (AreCovered walk.old.trails walk.old.receipts walk.new.cursors []) }
{
    while let Some(session) = work.pop() {
        let Some(part) = walk.pass(session) else {
            continue;
        };
        order.push(session)?;
        work.push(session)?;
        wake(tellers, walk, part, work)?;
        wake(tellers, walk, Part::Pool, work)?;
    }
    Ok(())
}

/// The session that tells of what comes next in the part's trail is to be tried.
fn wake(tellers: &Tellers, walk: &Walk, part: Part, work: &mut Vec<usize>) -> Result<(), AllocError>
    ensures { let told = teller tellers.now part (cursor walk.now.cursors part) in
        IfOk result (λ _. IsWoken told work.old.items work.new.items) }
{
    if let Some(session) = tellers.of(part, walk.cursor(part)) {
        work.push(session)?;
    }
    Ok(())
}
