//! The book that issues permits.
ghost use Rattle.std.specs.Prelude.{◌≡◌, ℕ, ◌+◌, ◌<◌, ◌≤◌, ◌^◌};

use crate::permit::Permit;
use hp_model::naming::{Naming, Permits};
use std::marker::Model;
use std::sync::ledger::{self, Blank, Share};

/// Issues permits. Contracts see how much is outstanding, in pages.
///
/// The outstanding amount is at all times the sum of the permits that are out, whoever holds them:
/// issuing adds what it hands out, splitting and joining keep the sum, retiring takes away what it
/// gets, and a permit can't be dropped. So a permit's amount is at most what is outstanding.
/// No call takes memory. It can't be dropped: `close` ends it.
pub struct Book<N: Naming> {
    outstanding: u64,
    book: ledger::Book<Permits<N>>,
    // the parts that no permit stands on
    spare: Share<Permits<N>>,
}

impl<N: Naming> Model for Book<N> {
    ghost Value = { ℕ };

    ghost view = { λ b. b.outstanding };

    ghost invariant = { λ b. (b.book.total ≡ b.outstanding) × (b.spare.amount ≡ 0)
        × (b.spare.parts + b.outstanding ≡ 18446744073709551615) };
}

impl<N: Naming> Book<N> {
    /// A book with nothing outstanding.
    pub fn new(blank: Blank) -> Self
        requires name { blank.name ≡ N.permits }
        requires parts { blank.parts ≡ 18446744073709551615 }
        ensures { result ≡ 0 }
    {
        let (book, spare) = blank.open::<Permits<N>>();
        Book {
            outstanding: 0,
            book,
            spare,
        }
    }

    /// The sum of the permits that are out.
    pub fn outstanding(&self) -> u64
        ensures { result ≡ self.now }
    {
        self.outstanding
    }

    /// A new permit.
    pub fn issue(&mut self, amount: u64) -> Permit<N>
        requires { self.old + amount < 2 ^ 64 }
        ensures outstanding { self.new ≡ self.old + amount }
        ensures permit { result ≡ amount }
    {
        let mut share = self.spare.split_off(amount, 0);
        if amount > 0 {
            self.book.add(&mut share, amount);
        }
        self.outstanding += amount;
        Permit::new(amount, share)
    }

    /// Takes a permit back. Never refused: whoever holds one knows that its amount is outstanding.
    pub fn retire(&mut self, permit: Permit<N>)
        ensures { self.new + permit ≡ self.old }
    {
        let (amount, mut share) = permit.into_parts();
        self.book.sub(&mut share, amount);
        self.spare.merge(share);
        self.outstanding -= amount;
    }

    /// Shows that a permit's amount is at most what is outstanding.
    pub fn check(&mut self, permit: &mut Permit<N>)
        ensures book { self.new ≡ self.old }
        ensures permit { permit.new ≡ permit.old }
        ensures within { permit.old ≤ self.old }
    {
        permit.check(&mut self.book);
    }

    /// Ends the book. A permit that is still out can't be retired any more.
    pub fn close(self) -> u64
        ensures { result ≡ self }
    {
        let Book {
            outstanding,
            book: _,
            spare: _,
        } = self;
        outstanding
    }
}
