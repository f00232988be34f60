//! The count of connections that were taken.
ghost use Rattle.std.specs.Prelude.{◌≡◌, ◌+◌, ◌<◌};

use crate::right::Right;
use std::marker::{Brand, PhantomData};
use std::sync::ledger::{Book, Ledger, Share};

/// How many connections are to be taken, and how many rights there are, with those of the places where connections wait and are filed.
pub(crate) trait Plan {
    ghost use Rattle.std.specs.Prelude.{ℕ};

    ghost sessions: { ℕ };

    ghost rights: { ℕ };
}

impl Plan for Brand {
    ghost sessions = { 0 };

    ghost rights = { 0 };
}

/// So many connections are to be taken, by one who has the rights of so many workers and its own. None is taken yet.
#[derive(Drop)]
pub(crate) struct Taker<L: Ledger, P: Plan> {
    book: Book<L>,
    share: Share<L>,
    pub(crate) workers: u32,
    sessions: usize,
    plan: PhantomData<P>,
    ghost none: { book.total ≡ 0 },
    ghost rights: { share.parts ≡ workers + 1 },
    ghost all: { workers + 3 ≡ P.rights },
    ghost free: { share.amount ≡ 0 },
    ghost planned: { sessions ≡ P.sessions },
}

/// All were taken. The rights of all workers are back.
#[derive(Drop)]
pub(crate) struct Tally<L: Ledger, P: Plan> {
    book: Book<L>,
    share: Share<L>,
    plan: PhantomData<P>,
    ghost taken: { book.total ≡ P.sessions },
    ghost all: { share.parts + 2 ≡ P.rights },
    ghost some: { 1 < share.parts },
    ghost free: { share.amount ≡ 0 },
}

/// The same, but for a right.
#[derive(Drop)]
pub(crate) struct OpenTally<L: Ledger, P: Plan> {
    book: Book<L>,
    share: Share<L>,
    plan: PhantomData<P>,
    ghost taken: { book.total ≡ P.sessions },
    ghost all: { share.parts + 3 ≡ P.rights },
    ghost free: { share.amount ≡ 0 },
}

impl<L: Ledger, P: Plan> Taker<L, P> {
    pub(crate) fn new(book: Book<L>, share: Share<L>, workers: u32, sessions: usize) -> Taker<L, P>
        requires none { book.total ≡ 0 }
        requires rights { share.parts ≡ workers + 1 }
        requires all { workers + 3 ≡ P.rights }
        requires free { share.amount ≡ 0 }
        requires planned { sessions ≡ P.sessions }
    {
        Taker {
            book,
            share,
            workers,
            sessions,
            plan: PhantomData,
        }
    }

    /// Its parts, and how many workers and connections.
    pub(crate) fn into_parts(self) -> (Book<L>, Share<L>, u32, usize)
        ensures none { result.0.total ≡ 0 }
        ensures rights { result.1.parts ≡ result.2 + 1 }
        ensures all { result.2 + 3 ≡ P.rights }
        ensures free { result.1.amount ≡ 0 }
        ensures planned { result.3 ≡ P.sessions }
    {
        let Taker {
            book,
            share,
            workers,
            sessions,
            plan: _,
        } = self;
        (book, share, workers, sessions)
    }
}

impl<L: Ledger, P: Plan> Tally<L, P> {
    pub(crate) fn new(book: Book<L>, share: Share<L>) -> Tally<L, P>
        requires taken { book.total ≡ P.sessions }
        requires all { share.parts + 2 ≡ P.rights }
        requires some { 1 < share.parts }
        requires free { share.amount ≡ 0 }
    {
        Tally {
            book,
            share,
            plan: PhantomData,
        }
    }

    /// One right, and the rest.
    pub(crate) fn part_with_right(self) -> (OpenTally<L, P>, Right<L>) {
        let Tally {
            book,
            mut share,
            plan: _,
        } = self;
        let right = Right::new(share.split_off(1, 0));
        let open = OpenTally {
            book,
            share,
            plan: PhantomData,
        };
        (open, right)
    }
}

impl<L: Ledger, P: Plan> OpenTally<L, P> {
    /// Closes the count. What these are owed by are all that were taken.
    pub(crate) fn close(self, others: Share<L>)
        requires three { others.parts ≡ 3 }
        requires all { L.parts ≡ P.rights }
        ensures { others.amount ≡ P.sessions }
    {
        let OpenTally {
            mut book,
            mut share,
            plan: _,
        } = self;
        share.merge(others);
        book.audit(&mut share);
    }
}
