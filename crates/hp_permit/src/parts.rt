//! Parts of a ledger, of which there are so many.
ghost use Rattle.std.specs.Prelude.{◌≡◌, ℕ, ◌+◌, ◌≤◌};

use std::marker::Model;
use std::sync::ledger::{Blank, Ledger, Share};

/// Parts of a ledger. All of them together are as many as it was cut into. They have to be given back. Contracts see how many
/// they are.
pub struct Parts<L: Ledger> {
    share: Share<L>,
}

impl<L: Ledger> Model for Parts<L> {
    ghost Value = { ℕ };

    ghost view = { λ p. p.share.parts };

    ghost invariant = { λ p. p.share.amount ≡ 0 };
}

impl<L: Ledger> Parts<L> {
    /// All parts of a ledger.
    pub fn all(blank: Blank) -> Self
        requires name { blank.name ≡ L.name }
        requires parts { blank.parts ≡ L.parts }
        ensures { result ≡ L.parts }
    {
        let (_book, share) = blank.open::<L>();
        Parts { share }
    }

    /// Takes `count` out of these.
    pub fn split(&mut self, count: u64) -> Self
        requires { count ≤ self.old }
        ensures left { self.new + count ≡ self.old }
        ensures given { result ≡ count }
    {
        Parts {
            share: self.share.split_off(count, 0),
        }
    }

    /// Adds others. No more are out than there are.
    pub fn join(&mut self, other: Self)
        ensures sum { self.new ≡ self.old + other }
        ensures within { self.new ≤ L.parts }
    {
        let Parts { share } = other;
        self.share.merge(share);
    }

    /// Spends them.
    pub fn close(self) {
        let Parts { share: _ } = self;
    }
}
