//! Locks that have a rank, and how they are waited for.
ghost use Rattle.std.specs.Prelude.{◌≡◌, ◌∷◌, IfNone, IfSome};
ghost use Rattle.hp_order.specs.Order.{AreBelow, above};

use crate::turn::Turn;
use std::sync::{Mutex, MutexGuard, Wait};
use std::thread::yield_now;

/// What stands under a lock, which has its rank.
pub trait Ordered {
    ghost use Rattle.std.specs.Prelude.{ℕ};

    ghost rank: { ℕ };

    /// The rank. Proofs alone want it.
    fn rank() -> u64
        ensures { result ≡ rank };
}

/// A lock that can be taken in its order alone.
#[derive(Drop)]
pub struct RankedLock<T> {
    lock: Mutex<T>,
}

impl<T> RankedLock<T> {
    /// A free lock round this value.
    pub fn new(value: T) -> Self {
        RankedLock {
            lock: Mutex::new(value),
        }
    }

    /// What the lock was round.
    pub fn into_inner(self) -> T {
        let RankedLock { lock } = self;
        lock.into_inner()
    }
}

// How often a lock that is held is tried again, before a thread sleeps until it is woken.
const TRIES: u32 = 10;

/// Takes a lock, where all that the thread holds stands below it. Where it is free no call is made. What is done under one takes less
/// than to sleep and to be woken: so where it is held others run before it is tried again, and only after some tries does the thread
/// sleep. A try takes the lock's cache line away from the thread that holds it, so where many wait few tries serve all best: after the
/// second others run twice as often as before.
#[inline(always)]
pub fn hold<'b, T: Ordered, R: Wait>(
    turn: &mut Turn,
    lock: &'b RankedLock<T>,
    rt: &R,
) -> MutexGuard<'b, T>
    requires { AreBelow T.rank turn.old.held }
    ensures { turn.new.held ≡ T.rank ∷ turn.old.held }
{
    let guard = match lock.lock.try_lock() {
        Some(guard) => guard,
        None => wait_for(&lock.lock, rt),
    };
    *turn = Turn::with(turn, &T::rank());
    guard
}

/// Takes a lock that nobody holds.
#[inline(always)]
pub fn try_hold<'b, T: Ordered>(
    turn: &mut Turn,
    lock: &'b RankedLock<T>,
) -> Option<MutexGuard<'b, T>>
    requires { AreBelow T.rank turn.old.held }
    ensures some { IfSome result (λ _. turn.new.held ≡ T.rank ∷ turn.old.held) }
    ensures none { IfNone result (turn.new.held ≡ turn.old.held) }
{
    let guard = lock.lock.try_lock()?;
    *turn = Turn::with(turn, &T::rank());
    Some(guard)
}

/// Lets a lock go, the last that was taken.
#[inline(always)]
pub fn let_go<T: Ordered>(turn: &mut Turn, guard: MutexGuard<'_, T>)
    requires { turn.old.held ≡ T.rank ∷ above turn.old.held }
    ensures { turn.new.held ≡ above turn.old.held }
{
    drop(guard);
    *turn = Turn::without(turn);
}

#[inline(never)]
fn wait_for<'b, T, R: Wait>(lock: &'b Mutex<T>, rt: &R) -> MutexGuard<'b, T> {
    for tried in 0..TRIES {
        for _ in 0..1u32 << tried.saturating_sub(1) {
            yield_now();
        }
        if let Some(guard) = lock.try_lock() {
            return guard;
        }
    }
    lock.lock(rt)
}
