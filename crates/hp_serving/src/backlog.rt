//! Connections that wait for a worker.
ghost use Rattle.std.specs.Prelude.{◌≡◌, length, OnErr};

use crate::connection::{Connection, Ends};
use crate::right::Right;
use hp_order::Ordered;
use hp_wire::ends::{Sink, Source};
use std::alloc::{AllocError, Global};
use std::collections::VecDeque;
use std::sync::ledger::{Ledger, Share};

/// Connections that came and that nobody has taken yet, in the order in which they came. Each is owed.
#[derive(Drop)]
pub(crate) struct Backlog<A: Source, B: Sink, L: Ledger> {
    waiting: VecDeque<Ends<A, B>, Global>,
    share: Share<L>,
    ghost one: { share.parts ≡ 1 },
    ghost counted: { share.amount ≡ length waiting.items },
}

impl<A: Source, B: Sink, L: Ledger> Ordered for Backlog<A, B, L> {
    ghost rank = { 1 };

    #[inline(always)]
    fn rank() -> u64 {
        1
    }
}

impl<A: Source + Drop, B: Sink + Drop, L: Ledger> Backlog<A, B, L> {
    /// None waits. There is room for so many.
    pub(crate) fn new(
        alloc: Global,
        room: usize,
        share: Share<L>,
    ) -> Result<Backlog<A, B, L>, AllocError>
        requires one { share.parts ≡ 1 }
        requires none { share.amount ≡ 0 }
    {
        let waiting = VecDeque::with_capacity(alloc, room)?;
        Ok(Backlog { waiting, share })
    }

    /// Lets it wait, behind all others. It comes back where memory is refused.
    pub(crate) fn put(
        &mut self,
        connection: Connection<A, B, L>,
    ) -> Result<Right<L>, Connection<A, B, L>> {
        let Backlog { waiting, share } = self;
        let (ends, mut theirs) = connection.into_parts();
        match waiting.push_back(ends) {
            Ok(()) => {
                theirs.transfer(share, 1);
                Ok(Right::new(theirs))
            }
            Err(refused) => Err(Connection::from_parts(refused.value, theirs)),
        }
    }

    /// The one that has waited longest. The right comes back where none waits.
    pub(crate) fn take(&mut self, right: Right<L>) -> Result<Connection<A, B, L>, Right<L>>
        ensures none { OnErr result (length self.new.waiting.items ≡ 0) }
    {
        let Backlog { waiting, share } = self;
        let Some(ends) = waiting.pop_front() else {
            return Err(right);
        };
        let mut theirs = right.into_share();
        share.transfer(&mut theirs, 1);
        Ok(Connection::from_parts(ends, theirs))
    }

    /// Its share. None waits any more.
    pub(crate) fn into_share(self) -> Share<L>
        requires { length self.waiting.items ≡ 0 }
        ensures one { result.parts ≡ 1 }
        ensures none { result.amount ≡ 0 }
    {
        let Backlog { waiting: _, share } = self;
        share
    }
}
