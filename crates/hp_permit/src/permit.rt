//! Permits.
ghost use Rattle.std.specs.Prelude.{◌≡◌, ℕ, ◌+◌, ◌≤◌};

use hp_model::naming::{Naming, Permits};
use std::marker::Model;
use std::sync::ledger::{self, Share};

/// A promise of so many pages, which counts as outstanding until it is retired. Contracts see the
/// amount.
///
/// It can't be dropped: `Book::retire` takes it back, by way of the pool, and `close` ends one of nothing. Its type names the ledger
/// that it counts in, so it can only be retired by the book that issued it.
pub struct Permit<N: Naming> {
    amount: u64,
    // each page has a part of its own to stand on, so any number of holders can split them
    share: Share<Permits<N>>,
}

impl<N: Naming> Model for Permit<N> {
    ghost Value = { ℕ };

    ghost view = { λ p. p.amount };

    ghost invariant = { λ p. (p.share.amount ≡ p.amount) × (p.share.parts ≡ p.amount) };
}

impl<N: Naming> Permit<N> {
    pub(crate) fn new(amount: u64, share: Share<Permits<N>>) -> Self
        requires amount { share.amount ≡ amount }
        requires parts { share.parts ≡ amount }
        ensures { result ≡ amount }
    {
        Permit { amount, share }
    }

    pub(crate) fn into_parts(self) -> (u64, Share<Permits<N>>)
        ensures amount { result.0 ≡ self }
        ensures share { (result.1.amount ≡ self) × (result.1.parts ≡ self) }
    {
        let Permit { amount, share } = self;
        (amount, share)
    }

    // Shows that the amount is at most what the book has out.
    pub(crate) fn check(&mut self, book: &mut ledger::Book<Permits<N>>)
        ensures book { book.new.total ≡ book.old.total }
        ensures permit { self.new ≡ self.old }
        ensures within { self.old ≤ book.old.total }
    {
        book.audit(&mut self.share);
    }

    /// How many pages it promises.
    pub fn amount(&self) -> u64
        ensures { result ≡ self.now }
    {
        self.amount
    }

    /// Splits so many off into a permit of their own.
    pub fn split(&mut self, amount: u64) -> Permit<N>
        requires { amount ≤ self.old }
        ensures left { self.new + amount ≡ self.old }
        ensures given { result ≡ amount }
    {
        self.amount -= amount;
        Permit {
            amount,
            share: self.share.split_off(amount, amount),
        }
    }

    /// Adds another permit. The sum of two permits that are out always fits.
    pub fn join(&mut self, other: Permit<N>)
        ensures sum { self.new ≡ self.old + other }
    {
        let Permit { amount, share } = other;
        self.share.merge(share);
        self.amount += amount;
    }

    /// Ends a permit of nothing.
    pub fn close(self)
        requires { self ≡ 0 }
    {
        let Permit {
            amount: _,
            share: _,
        } = self;
    }
}
