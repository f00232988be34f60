//! The end of the machine that threads shared.
ghost use Rattle.std.specs.Prelude.{◌≡◌, ◌≢◌, ◌≤◌, ◌==◌, ◌++◌, [], false, true, not, is_some, length, vec_len, vec_capacity, IfOk, IfSome, OnErr, OnOk, MatchResult, Ok, None, Some};
ghost use Rattle.hp_locked.specs.Views.{frames_list};
ghost use Rattle.hp_model.specs.machine.Machine.{start};
ghost use Rattle.hp_model.specs.machine.Settled.{IsSettledState};
ghost use Rattle.hp_model.specs.machine.State.{State};
ghost use Rattle.hp_model.specs.Profile.{most_frames_in_all, most_page_bytes};
ghost use Rattle.hp_closing.specs.Joined.{AreJoined, HaveJoined, WasJoined};
ghost use Rattle.hp_closing.specs.OneRun.{WasOneRun, all_told};
ghost use Rattle.hp_mount_door.specs.Door.{IsReady as IsReadyPool};
ghost use Rattle.hp_shared.specs.Ended.{HasEnded, IsExactly};
ghost use Rattle.hp_shared.specs.Sharing.{EndsRuns, entries_of};
ghost use Rattle.hp_model.specs.machine.Ready.{IsReadyMachine, Machine};
ghost use Rattle.hp_trail.specs.Audit.{Disagree, IsJointList, IsUnjoined};
ghost use Rattle.hp_trail.specs.Walk.{lists};

use hp_history::{Places, histories_agree, histories_are_one};
use hp_model::answer::Counts;
use hp_model::entry::Receipt;
use hp_model::event::Event;
use hp_model::naming::Naming;
use hp_model::refusal::Refusal;
use hp_shared::{Ended, Finished, Shared, Trails, Unshared};
use hp_system::{Parts, System};
use hp_trail::audit::audit as join;
use std::alloc::{AllocError, Global};

/// Joins the trails of a machine, and what each session was told, into one list of events, as `hp_trail::audit` does. Refused as
/// TrailsDiffer or OutOfMemory.
///
/// Where it succeeds, the machine in which the trails end has the sums over its files and maps as its pool's numbers.
pub fn audit(alloc: Global, trails: &Trails, told: Vec<Vec<Receipt>>) -> Result<Vec<Event>, Refusal>
    ensures joined { let t = entries_of trails.now in
        let all = lists told.items in
        MatchResult result (λ events. IsJointList t all events.items) (IsUnjoined t all) }
    ensures ready { OnOk result ((s : State) (m : Machine) → IsSettledState s
        → EndsRuns s (entries_of trails.now) m → IsReadyMachine m) }
{
    join(alloc, &trails.tasks, &trails.pool, &trails.slots, told)
}

/// What is left of a machine.
#[derive(Clone, Copy, Debug, PartialEq, Eq)]
pub struct Closed {
    /// Whether the sessions were all that were opened, in the order of their numbers, on a machine whose slots were in order. Only
    /// then is it known that all events are theirs.
    pub is_whole: bool,
    /// Whether trails and receipts were joined, where trails were kept.
    pub audit: Option<bool>,
    /// The pool's numbers, in pages, once all else was gone.
    pub counts: Counts,
    /// The bytes of a page.
    pub page: u64,
}

// Whether these trails, if they are kept, are joined with what each session was told. Those of a machine whose slots are
// out of order are not.
fn is_joined<const K: usize>(
    alloc: Global,
    trails: Option<Trails>,
    told: Vec<Vec<Receipt>>,
) -> Result<Option<bool>, AllocError>
    requires kept { (K == 1) ≡ false → trails ≡ None }
    ensures kept { IfOk result (λ a. is_some a ≡ (K == 1)) }
    ensures joined { result ≡ Ok (Some true) → AreJoined trails (lists told.items) }
    ensures differ { result ≡ Ok (Some false)
        → IfSome trails (λ t. Disagree (entries_of t) (lists told.items)) }
    ensures refused { OnErr result ((K == 1) ≡ true) }
{
    let Some(trails) = trails else {
        return Ok(if K == 1 { Some(false) } else { None });
    };
    match audit(alloc, &trails, told) {
        Ok(_events) => Ok(Some(true)),
        Err(Refusal::OutOfMemory) => Err(AllocError),
        Err(_differ) => Ok(Some(false)),
    }
}

// Whether these are all sessions that were opened, in the order of their numbers, on a machine whose slots were in order: then there
// is an order of all events. Where K is 1 their receipts are told, for which there is room.
#[tactic(auto, using(crate::proofs::Whole::none_joined))]
fn all_join<N: Places, const K: usize>(
    ended: Ended<N>,
    sessions: Vec<Finished<N, K>>,
    told: &mut Vec<Vec<Receipt>>,
) -> bool
    requires none { told.old.items ≡ [] }
    requires room { (K == 1) ≡ true → vec_len sessions ≤ vec_capacity told.old }
    ensures told { (K == 1) ≡ true → lists told.new.items ≡ all_told sessions.items }
    ensures in_order { result ≡ true → ended.in_order ≡ true }
    ensures count { result ≡ true → IsExactly ended.sessions (length (all_told sessions.items)) }
    ensures joined { result ≡ true → HaveJoined N.shape ended.seat.me.0 sessions.items }
{
    let mut is_whole = ended.in_order && are_all(sessions.len(), ended.sessions);
    let mut ended = ended;
    let mut at = 0;
    let mut rest = sessions.into_iter();
    while let Some(session) = rest.next() {
        is_whole = is_whole && session.number() == at;
        at += 1;
        let (now, receipts) = ended.with(session);
        ended = now;
        if K == 1 {
            told.push_reserved(receipts);
        }
    }
    ended.learn();
    is_whole
}

// Whether so many sessions were opened, by a count that stays at its most.
fn are_all(count: usize, opened: u64) -> bool
    ensures { result ≡ true → IsExactly opened count }
{
    opened < u64::MAX && opened == count as u64
}

/// The machine by itself, with all that is on it, the trails where K is 1, and its history. These are runs of its parts, from the
/// start of the machine to where it is. Never refused; it takes no memory.
pub fn into_system<N: Naming + Places, const K: usize>(
    shared: Shared<N, K>,
) -> (System<N>, Option<Trails>, Ended<N>)
    ensures ready { IsReadyPool result.0.pool }
    ensures page { result.0.state.page_size ≡ shared.page_size }
    ensures slots { length result.0.state.slots ≡ shared.slots }
    ensures none { (K == 1) ≡ false → result.1 ≡ None }
    ensures settled { IsSettledState
        (start (frames_list N.frames) shared.page_size shared.slots) }
    ensures shape { N.shape ≡ record {
      slots = shared.slots;
      nodes = length (frames_list N.frames);
      looks = not (K == 1);
    } }
    ensures runs { IfSome result.1 (λ t. EndsRuns
        (start (frames_list N.frames) shared.page_size shared.slots) (entries_of t) result.0) }
    ensures ends { result.2.in_order ≡ true → HasEnded (K == 1)
        (start (frames_list N.frames) shared.page_size shared.slots) shared.slots result.0
        result.1 result.2.sessions result.2.seat.me.0 }
{
    let alloc = shared.alloc();
    let (unshared, ended) = shared.into_parts();
    let Unshared {
        page_bytes,
        slots,
        table,
        pool,
        trails,
    } = unshared;
    let parts = Parts {
        page_bytes,
        slots,
        table,
        pool,
    };
    (System::from_parts(alloc, parts), trails, ended)
}

/// Takes the machine apart, with all sessions, which have finished, in the order of their numbers, and closes it.
///
/// Where these are all, what they were told is one run of the machine from its start, look-ups of tasks among it: each session's
/// events stand there in its order, each once, with the replies that it was given, and there are no others. Whatever a session saw
/// of the order is a front of it. At its end all pages that were persistent are free again, and none is promised or surplus. Where
/// K is 1 trails and receipts are joined, as `audit` does, and these never differ then. Refused where K is 1 and the memory to join
/// them is; the machine is closed as well.
pub fn close<N: Naming + Places, const K: usize>(
    alloc: Global,
    shared: Shared<N, K>,
    sessions: Vec<Finished<N, K>>,
) -> Result<Closed, AllocError>
    ensures page { IfOk result (λ c. c.page ≡ shared.page_size) }
    ensures small { IfOk result (λ c. c.page ≤ most_page_bytes) }
    ensures few { IfOk result (λ c. c.counts.total ≤ most_frames_in_all) }
    ensures audited { IfOk result (λ c. is_some c.audit ≡ (K == 1)) }
    ensures run { IfOk result (λ c. c.is_whole ≡ true → WasOneRun
        (start (frames_list N.frames) shared.page_size shared.slots)
        sessions.items c.counts) }
    ensures agrees { IfOk result (λ c. c.is_whole ≡ true → c.audit ≢ Some false) }
    ensures joined { IfOk result (λ c. c.audit ≡ Some true → WasJoined
        (start (frames_list N.frames) shared.page_size shared.slots)
        (all_told sessions.items) c.counts) }
    ensures refused { OnErr result ((K == 1) ≡ true) }
{
    let page = shared.page_bytes();
    let (system, trails, ended) = into_system(shared);
    let counts = system.close();
    let mut told = Vec::new(alloc);
    if K == 1 {
        told.reserve(sessions.len())?;
    }
    histories_are_one();
    histories_agree();
    let is_whole = all_join(ended, sessions, &mut told);
    let audit = is_joined::<K>(alloc, trails, told)?;
    Ok(Closed {
        is_whole,
        audit,
        counts,
        page,
    })
}
