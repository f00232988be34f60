//! The parts of a machine before any thread has them.
ghost use Rattle.std.specs.Prelude.{◌≡◌, ◌<◌, ◌≤◌, ◌==◌, ◌∷◌, [], None, length, suc, replicate, vec_len, vec_capacity, All, IfOk};
ghost use Rattle.std.specs.List.{sum};
ghost use Rattle.hp_model.specs.machine.Machine.{open_mount};
ghost use Rattle.hp_model.specs.pool.PoolCounts.{IsSettled};
ghost use Rattle.hp_model.specs.Profile.{most_tasks, most_frames, most_frames_in_all, most_places};
ghost use Rattle.hp_history.specs.declared.held.Held.TheVariants.{Pool as PoolPart, Tasks as TasksPart};
ghost use Rattle.hp_history.specs.History.{held_from};
ghost use Rattle.hp_locked.specs.Views.{IsNewTrail};
ghost use Rattle.hp_shared.specs.Slots.{slot_start};
ghost use Rattle.hp_trail.specs.Keeping.{extra_if, kept_if, left_if, most_extra};

use crate::opener::Opener;
use crate::seated_slot::SeatedSlot;
use hp_history::{History, Opened, Places, Token};
use hp_model::entry::SlotEntry;
use hp_model::naming::Naming;
use hp_model::profile::MOST_TASKS;
use hp_mount::Mount;
use hp_order::LineLock;
use hp_own_pool::OwnPool;
use hp_trail::trace::Trace;
use std::alloc::{AllocError, Global};

// The frames of all nodes.
pub(crate) fn all_frames(frames: &[u64]) -> usize
    requires few { length frames.now ≤ 4 }
    requires small { All (λ f. f ≤ most_frames) frames.now }
    ensures all { result ≡ sum frames.now }
    ensures few { result ≤ most_frames_in_all }
{
    let mut all = 0;
    for count in frames {
        all += *count as usize;
    }
    all
}

// A trail with nothing in it yet.
pub(crate) fn open_trail<E: Drop, const K: usize>(
    alloc: Global,
    places: usize,
    extra: usize,
) -> Result<Trace<E, K>, AllocError>
    requires places { places ≤ most_places }
    requires extra { extra ≤ most_extra }
    ensures none { IfOk result (λ t. t.entries ≡ []) }
    ensures fresh { IfOk result (λ t. IsNewTrail (kept_if (K == 1) t)) }
    ensures enough { IfOk result (λ t. extra ≤ extra_if (K == 1) t) }
{
    Trace::open(alloc, places, extra)
}

// A slot's trail with nothing in it yet.
#[derive(Drop)]
pub(crate) struct FreshTrail<const K: usize> {
    trail: Trace<SlotEntry, K>,
    ghost none: { trail.entries ≡ [] },
    ghost enough: { most_tasks ≤ extra_if (K == 1) trail },
}

impl<const K: usize> FreshTrail<K> {
    fn into_trail(self) -> Trace<SlotEntry, K>
        ensures fresh { IsNewTrail (kept_if (K == 1) result) }
        ensures counted { kept_if (K == 1) result ≡ None → left_if (K == 1) result ≡ None }
        ensures enough { most_tasks ≤ extra_if (K == 1) result }
    {
        let FreshTrail { trail } = self;
        trail
    }
}

// The trails of so many slots.
pub(crate) fn open_trails<const K: usize>(
    alloc: Global,
    slots: usize,
    places: usize,
) -> Result<Vec<FreshTrail<K>>, AllocError>
    requires places { places ≤ most_places }
    ensures count { IfOk result (λ v. vec_len v ≡ slots) }
{
    let mut trails = Vec::with_capacity(alloc, slots)?;
    for _ in 0..slots {
        let trail = open_trail(alloc, places, MOST_TASKS)?;
        trails.push_reserved(FreshTrail { trail });
    }
    Ok(trails)
}

// A mount without limits, with which slot 0 begins.
pub(crate) fn first_mount<N: Naming>(alloc: Global, pool: &mut OwnPool<N>) -> Mount<N>
    requires settled { IsSettled pool.old }
    ensures mount { result ≡ open_mount }
    ensures pool { pool.new ≡ pool.old }
{
    match pool.share(None, 0) {
        Ok(share) => Mount::new(alloc, share, None),
        Err(_refusal) => unreachable!(),
    }
}

// A machine's history, the seats that have the table and the pool, the one that may open sessions, and the one that has the
// slots.
pub(crate) fn open_history<N: Naming + Places>(
    opened: Opened,
) -> (History<N>, Token, Token, Opener<N>, Token)
    requires named { opened.table.shared.table_id ≡ N.history }
    requires shape { opened.shape ≡ N.shape }
    ensures table { result.1.table_id ≡ N.history }
    ensures tasks { result.1.me ≡ (TasksPart [] ∷ [], []) }
    ensures core { result.2.table_id ≡ N.history }
    ensures pool { result.2.me ≡ (PoolPart [] ∷ [], []) }
    ensures rest { result.4.table_id ≡ N.history }
    ensures slots { result.4.me ≡ (held_from 0 (replicate N.shape.slots []), []) }
{
    let (history, seat) = opened.named::<N>();
    let mut seat = seat;
    let table = history.give_away(&mut seat);
    let pool = history.give_away(&mut seat);
    let opener = Opener::new(history.give_away(&mut seat));
    (history, table, pool, opener, seat)
}

// The next slot under its lock, with this mount, the last of these trails, and the first part of this seat.
fn lock_slot<N: Naming + Places, const K: usize>(
    history: &History<N>,
    seat: &mut Token,
    mount: Option<Mount<N>>,
    rest: &mut Vec<FreshTrail<K>>,
    locks: &mut Vec<LineLock<SeatedSlot<N, Trace<SlotEntry, K>>>>,
)
    requires named { seat.old.table_id ≡ N.history }
    requires slots { seat.old.me ≡ (
      held_from (vec_len locks.old)
          (replicate (vec_len rest.old) []),
      [],
    ) }
    requires mount { mount ≡ slot_start (vec_len locks.old) }
    requires some { 0 < vec_len rest.old }
    requires room { vec_len locks.old < vec_capacity locks.old }
    ensures named { seat.new.table_id ≡ N.history }
    ensures slots { seat.new.me ≡ (
      held_from (vec_len locks.new)
          (replicate (vec_len rest.new) []),
      [],
    ) }
    ensures one { vec_len locks.new ≡ suc (vec_len locks.old) }
    ensures less { vec_len rest.old ≡ suc (vec_len rest.new) }
    ensures room { vec_capacity locks.new ≡ vec_capacity locks.old }
{
    let Some(trail) = rest.pop() else {
        unreachable!()
    };
    locks.push_reserved(LineLock::new(SeatedSlot::new(
        locks.len() as u64,
        mount,
        trail.into_trail(),
        history.give_away(seat),
    )));
}

// Each slot under a lock, with one of the trails and its part of this seat, the first with this mount and the others without
// one. There is room for them.
pub(crate) fn lock_slots<N: Naming + Places, const K: usize>(
    history: &History<N>,
    slots: Token,
    first: Mount<N>,
    trails: Vec<FreshTrail<K>>,
    locks: &mut Vec<LineLock<SeatedSlot<N, Trace<SlotEntry, K>>>>,
)
    requires named { slots.table_id ≡ N.history }
    requires slots { slots.me ≡ (held_from 0 (replicate (vec_len trails) []), []) }
    requires first { first ≡ open_mount }
    requires some { 0 < vec_len trails }
    requires none { vec_len locks.old ≡ 0 }
    requires room { vec_len trails ≤ vec_capacity locks.old }
    ensures { vec_len locks.new ≡ vec_len trails.entry }
{
    let mut seat = slots;
    let mut rest = trails;
    lock_slot(history, &mut seat, Some(first), &mut rest, locks);
    while !rest.is_empty() {
        lock_slot(history, &mut seat, None, &mut rest, locks);
    }
}
