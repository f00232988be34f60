//! The claims of pages that are out.
ghost use Rattle.std.specs.Prelude.{◌≡◌, ◌+◌, ◌<◌, ◌≤◌, ◌^◌};

use crate::claim::Claim;
use hp_model::naming::Naming;
use std::marker::Model;

/// The claims on frames of one node that became pages. Who has the pool's claims makes it, and it alone ends claims, with
/// the node's frames. It can't be dropped. Contracts see the node and the number.
pub struct Redeemed<N: Naming> {
    claim: Claim<N>,
}

impl<N: Naming> Model for Redeemed<N> {
    ghost use Rattle.hp_permit.specs.Claim.{Claim};

    ghost Value = { Claim };

    ghost view = { λ r. r.claim };
}

impl<N: Naming> Redeemed<N> {
    pub(crate) fn new(claim: Claim<N>) -> Self
        ensures { result ≡ claim }
    {
        Redeemed { claim }
    }

    /// Adds a claim of the same node, for a page that goes out. All claims of a node together are its frames.
    pub fn join(&mut self, other: Claim<N>)
        requires node { other.node ≡ self.old.node }
        requires few { N.frames self.old.node < 2 ^ 64 }
        ensures node { self.new.node ≡ self.old.node }
        ensures sum { self.new.amount ≡ self.old.amount + other.amount }
        ensures within { self.new.amount ≤ N.frames self.old.node }
    {
        self.claim.join(other);
    }

    /// The claim of so many pages that came back, where the caller knows the node.
    pub fn split_at(&mut self, node: usize, amount: u64) -> Claim<N>
        requires node { node ≡ self.old.node }
        requires amount { amount ≤ self.old.amount }
        ensures node { self.new.node ≡ self.old.node }
        ensures left { self.new.amount + amount ≡ self.old.amount }
        ensures given { result ≡ record { node = node; amount = amount } }
    {
        self.claim.split_at(node, amount)
    }

    /// Ends it, with the node's frames. A page that is still out can't come back any more.
    pub fn close(self) {
        let Redeemed { claim } = self;
        claim.close();
    }
}
