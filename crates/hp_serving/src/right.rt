//! The right to take a connection.
ghost use Rattle.std.specs.Prelude.{◌≡◌};

use std::sync::ledger::{Ledger, Share};

/// The right of one who owes no connection. Who takes one spends it, and gets it back where it is filed what became of that.
#[derive(Drop)]
pub(crate) struct Right<L: Ledger> {
    share: Share<L>,
    ghost one: { share.parts ≡ 1 },
    ghost none: { share.amount ≡ 0 },
}

impl<L: Ledger> Right<L> {
    pub(crate) fn new(share: Share<L>) -> Right<L>
        requires one { share.parts ≡ 1 }
        requires none { share.amount ≡ 0 }
    {
        Right { share }
    }

    pub(crate) fn into_share(self) -> Share<L>
        ensures one { result.parts ≡ 1 }
        ensures none { result.amount ≡ 0 }
    {
        let Right { share } = self;
        share
    }
}
