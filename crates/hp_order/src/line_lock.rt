//! A lock whose word lies beside what it guards.
use crate::ranked_lock::RankedLock;
use crossbeam_utils::CachePadded;

/// A lock with nothing else on its cache lines, at an address that 16 divides. So the lock's word and the first word that it guards lie
/// on one line, for which a thread waits once; at an address that just 8 divides they may lie on two.
pub struct LineLock<T> {
    // no bytes: with it 16 divides the address
    even: [u128; 0],
    lock: CachePadded<RankedLock<T>>,
}

impl<T> LineLock<T> {
    /// A free lock round this value.
    pub fn new(value: T) -> Self {
        LineLock {
            even: [],
            lock: CachePadded::new(RankedLock::new(value)),
        }
    }

    /// The lock itself.
    #[inline(always)]
    pub fn lock(&self) -> &RankedLock<T> {
        &self.lock
    }

    /// What the lock was round.
    pub fn into_inner(self) -> T {
        let LineLock { even: _, lock } = self;
        lock.into_inner().into_inner()
    }
}
