//! What became of connections, kept until the machine is closed.
ghost use Rattle.std.specs.Prelude.{◌≡◌, length};

use crate::connection::Report;
use crate::entry::Entry;
use crate::host::Machine;
use crate::right::Right;
use hp_order::Ordered;
use hp_wire::ends::{Sink, Source};
use std::alloc::{AllocError, Global};
use std::sync::ledger::{Ledger, Share};

/// How connections ended, in the order in which they did. All of these were owed.
#[derive(Drop)]
pub(crate) struct Register<A: Source, B: Sink, M: Machine, G, L: Ledger> {
    list: Vec<Entry<A, B, M, G>>,
    share: Share<L>,
    ghost one: { share.parts ≡ 1 },
    ghost counted: { share.amount ≡ length list.items },
}

impl<A: Source, B: Sink, M: Machine, G, L: Ledger> Ordered for Register<A, B, M, G, L> {
    ghost rank = { 1 };

    #[inline(always)]
    fn rank() -> u64 {
        1
    }
}

impl<A: Source, B: Sink, M: Machine, G: Drop, L: Ledger> Register<A, B, M, G, L> {
    /// None has ended. There is room for so many.
    pub(crate) fn new(
        alloc: Global,
        room: usize,
        share: Share<L>,
    ) -> Result<Register<A, B, M, G, L>, AllocError>
        requires one { share.parts ≡ 1 }
        requires none { share.amount ≡ 0 }
    {
        let list = Vec::with_capacity(alloc, room)?;
        Ok(Register { list, share })
    }

    /// Files what became of a connection, and gives the right back that it was taken by.
    pub(crate) fn file(&mut self, report: Report<A, B, M, G, L>) -> Result<Right<L>, AllocError> {
        let Register { list, share } = self;
        let (entry, mut theirs) = report.into_parts();
        list.push(entry)?;
        theirs.transfer(share, 1);
        Ok(Right::new(theirs))
    }

    pub(crate) fn into_parts(self) -> (Vec<Entry<A, B, M, G>>, Share<L>)
        ensures one { result.1.parts ≡ 1 }
        ensures counted { result.1.amount ≡ length result.0.items }
    {
        let Register { list, share } = self;
        (list, share)
    }
}
