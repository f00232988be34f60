//! Parts of four ledgers, one for each node.
ghost use Rattle.std.specs.Prelude.{◌≡◌, ℕ, ◌+◌, ◌<◌, ◌≤◌, ◌==◌, if◌then◌else◌};
ghost use Rattle.hp_permit.specs.Quad.{alone, at, less, plus};

use crate::parts::Parts;
use std::marker::Model;
use std::sync::ledger::{Blank, Ledger};

/// Parts of the ledgers of four nodes. Contracts see how many of each.
pub struct Quad<A: Ledger, B: Ledger, C: Ledger, D: Ledger> {
    zero: Parts<A>,
    one: Parts<B>,
    two: Parts<C>,
    three: Parts<D>,
}

impl<A: Ledger, B: Ledger, C: Ledger, D: Ledger> Model for Quad<A, B, C, D> {
    ghost use Rattle.hp_permit.specs.Quad.{Quad};

    ghost Value = { Quad };

    ghost view = { λ q. record { zero = q.zero; one = q.one; two = q.two; three = q.three } };
}

// So many, or none.
fn split_if<L: Ledger>(parts: &mut Parts<L>, count: u64, wanted: bool) -> Parts<L>
    requires { (if wanted then count else 0) ≤ parts.old }
    ensures left { parts.new + (if wanted then count else 0) ≡ parts.old }
    ensures given { result ≡ (if wanted then count else 0) }
{
    parts.split(if wanted { count } else { 0 })
}

impl<A: Ledger, B: Ledger, C: Ledger, D: Ledger> Quad<A, B, C, D> {
    pub fn all(zero: Blank, one: Blank, two: Blank, three: Blank) -> Self
        requires zero { (zero.name ≡ A.name) × (zero.parts ≡ A.parts) }
        requires one { (one.name ≡ B.name) × (one.parts ≡ B.parts) }
        requires two { (two.name ≡ C.name) × (two.parts ≡ C.parts) }
        requires three { (three.name ≡ D.name) × (three.parts ≡ D.parts) }
        ensures { result ≡ record {
          zero = A.parts;
          one = B.parts;
          two = C.parts;
          three = D.parts;
        } }
    {
        Quad {
            zero: Parts::all(zero),
            one: Parts::all(one),
            two: Parts::all(two),
            three: Parts::all(three),
        }
    }

    /// Takes so many of a node out.
    pub fn split(&mut self, node: usize, count: u64) -> Self
        requires enough { count ≤ at node self.old }
        requires node { node < 4 }
        ensures left { self.new ≡ less node count self.old }
        ensures given { result ≡ alone node count }
    {
        Quad {
            zero: split_if(&mut self.zero, count, node == 0),
            one: split_if(&mut self.one, count, node == 1),
            two: split_if(&mut self.two, count, node == 2),
            three: split_if(&mut self.three, count, node == 3),
        }
    }

    pub fn join(&mut self, other: Self)
        ensures sum { self.new ≡ plus self.old other }
        ensures zero { self.new.zero ≤ A.parts }
        ensures one { self.new.one ≤ B.parts }
        ensures two { self.new.two ≤ C.parts }
        ensures three { self.new.three ≤ D.parts }
    {
        let Quad {
            zero,
            one,
            two,
            three,
        } = other;
        self.zero.join(zero);
        self.one.join(one);
        self.two.join(two);
        self.three.join(three);
    }

    /// Spends them.
    pub fn close(self) {
        let Quad {
            zero,
            one,
            two,
            three,
        } = self;
        zero.close();
        one.close();
        two.close();
        three.close();
    }
}
