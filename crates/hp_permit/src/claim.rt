//! A claim on frames of a node.
ghost use Rattle.std.specs.Prelude.{◌≡◌, ℕ, ◌+◌, ◌<◌, ◌≤◌, ◌^◌};
ghost use Rattle.hp_permit.specs.Quad.{alone};

use crate::quad::Quad;
use hp_model::naming::{Claims, Naming};
use std::marker::Model;

pub(crate) type ClaimParts<N> = Quad<Claims<N, 0>, Claims<N, 1>, Claims<N, 2>, Claims<N, 3>>;

/// So many frames of one node, which nobody else has. It can't be dropped. Contracts see the node and the number.
pub struct Claim<N: Naming> {
    node: usize,
    amount: u64,
    parts: ClaimParts<N>,
}

impl<N: Naming> Model for Claim<N> {
    ghost use Rattle.std.specs.Prelude.{◌≡◌, ◌<◌};
    ghost use Rattle.hp_permit.specs.Claim.{Claim};
    ghost use Rattle.hp_permit.specs.Quad.{alone};

    ghost Value = { Claim };

    ghost view = { λ c. record { node = c.node; amount = c.amount } };

    ghost invariant = { λ c. (c.node < 4) × (c.parts ≡ alone c.node c.amount) };
}

impl<N: Naming> Claim<N> {
    pub(crate) fn new(node: usize, amount: u64, parts: ClaimParts<N>) -> Self
        requires node { node < 4 }
        requires parts { parts ≡ alone node amount }
        ensures { result ≡ record { node = node; amount = amount } }
    {
        Claim {
            node,
            amount,
            parts,
        }
    }

    pub(crate) fn into_parts(self) -> ClaimParts<N>
        ensures node { self.node < 4 }
        ensures parts { result ≡ alone self.node self.amount }
    {
        let Claim {
            node: _,
            amount: _,
            parts,
        } = self;
        parts
    }

    /// The node that the frames are of.
    pub fn node(&self) -> usize
        ensures node { result ≡ self.now.node }
        ensures below { result < 4 }
    {
        self.node
    }

    /// How many frames.
    pub fn amount(&self) -> u64
        ensures { result ≡ self.now.amount }
    {
        self.amount
    }

    /// Splits so many frames off into a claim of their own.
    pub fn split(&mut self, amount: u64) -> Self
        requires { amount ≤ self.old.amount }
        ensures node { self.new.node ≡ self.old.node }
        ensures left { self.new.amount + amount ≡ self.old.amount }
        ensures given { result ≡ record { node = self.old.node; amount = amount } }
    {
        self.split_at(self.node, amount)
    }

    /// As `split`, where the caller knows the node, so that nobody has to read it.
    pub fn split_at(&mut self, node: usize, amount: u64) -> Self
        requires node { node ≡ self.old.node }
        requires amount { amount ≤ self.old.amount }
        ensures node { self.new.node ≡ self.old.node }
        ensures left { self.new.amount + amount ≡ self.old.amount }
        ensures given { result ≡ record { node = node; amount = amount } }
    {
        let parts = self.parts.split(node, amount);
        self.amount -= amount;
        Claim {
            node,
            amount,
            parts,
        }
    }

    /// Adds a claim of the same node. All claims of a node together are its frames.
    pub fn join(&mut self, other: Self)
        requires node { other.node ≡ self.old.node }
        requires few { N.frames self.old.node < 2 ^ 64 }
        ensures node { self.new.node ≡ self.old.node }
        ensures sum { self.new.amount ≡ self.old.amount + other.amount }
        ensures within { self.new.amount ≤ N.frames self.old.node }
    {
        let amount = other.amount;
        self.parts.join(other.into_parts());
        self.amount += amount;
    }

    // Ends it. Its frames can't be claimed any more.
    pub(crate) fn close(self) {
        self.into_parts().close();
    }
}
