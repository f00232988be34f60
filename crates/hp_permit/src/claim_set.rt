//! The claims that the pool keeps.
ghost use Rattle.std.specs.Prelude.{◌≡◌, ℕ, ◌+◌, ◌-◌, ◌<◌, ◌≤◌, [], ◌∷◌, slice_index, slice_set};

use crate::claim::{Claim, ClaimParts};
use crate::quad::Quad;
use crate::redeemed::Redeemed;
use hp_model::naming::Naming;
use std::marker::Model;
use std::sync::ledger::Blank;

/// Claims on frames of each node. Contracts see how many.
pub struct ClaimSet<N: Naming> {
    parts: ClaimParts<N>,
}

impl<N: Naming> Model for ClaimSet<N> {
    ghost use Rattle.std.specs.Prelude.{ℕ, List, [], ◌∷◌};

    ghost Value = { List ℕ };

    ghost view = { λ c. c.parts.zero ∷ c.parts.one ∷ c.parts.two ∷ c.parts.three ∷ [] };
}

impl<N: Naming> ClaimSet<N> {
    /// All claims that there are.
    pub fn all(zero: Blank, one: Blank, two: Blank, three: Blank) -> Self
        requires zero { (zero.name ≡ N.claims 0) × (zero.parts ≡ N.frames 0) }
        requires one { (one.name ≡ N.claims 1) × (one.parts ≡ N.frames 1) }
        requires two { (two.name ≡ N.claims 2) × (two.parts ≡ N.frames 2) }
        requires three { (three.name ≡ N.claims 3) × (three.parts ≡ N.frames 3) }
        ensures { result ≡ N.frames 0 ∷ N.frames 1 ∷ N.frames 2 ∷ N.frames 3 ∷ [] }
    {
        ClaimSet {
            parts: Quad::all(zero, one, two, three),
        }
    }

    /// Claims on nothing.
    pub fn nothing(&mut self) -> Self
        ensures none { result ≡ 0 ∷ 0 ∷ 0 ∷ 0 ∷ [] }
        ensures same { self.new ≡ self.old }
    {
        ClaimSet {
            parts: self.parts.split(0, 0),
        }
    }

    /// What is to hold the claims of a node's pages that are out: none yet.
    pub fn redeemed(&mut self, node: usize) -> Redeemed<N>
        requires { node < 4 }
        ensures none { result ≡ record { node = node; amount = 0 } }
        ensures same { self.new ≡ self.old }
    {
        Redeemed::new(Claim::new(node, 0, self.parts.split(node, 0)))
    }

    /// Ends them, with the pool. Their frames can't be claimed any more.
    pub fn close(self) {
        let ClaimSet { parts } = self;
        parts.close();
    }

    /// Takes a claim on so many frames of a node out of them.
    pub fn take(&mut self, node: usize, amount: u64) -> Claim<N>
        requires node { node < 4 }
        requires enough { amount ≤ slice_index self.old node }
        ensures left { self.new ≡ slice_set self.old node (slice_index self.old node - amount) }
        ensures given { result ≡ record { node = node; amount = amount } }
    {
        Claim::new(node, amount, self.parts.split(node, amount))
    }

    /// Takes claims back. All claims of a node are as many as it has frames.
    pub fn put(&mut self, claim: Claim<N>)
        ensures sum { self.new ≡ slice_set self.old claim.node
            (slice_index self.old claim.node + claim.amount) }
        ensures within { slice_index self.new claim.node ≤ N.frames claim.node }
        ensures below { claim.node < 4 }
    {
        self.parts.join(claim.into_parts());
    }
}
