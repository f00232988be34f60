//! What became of a connection.
ghost use Rattle.std.specs.Prelude.{◌≡◌, ◌∷◌, [], IfNone, IfSome};
ghost use Rattle.hp_serving.specs.Connection.{Became, IsClosed, told_in};

use crate::host::Machine;
use crate::session::Refused;
use hp_wire::ends::{Sink, Source};
use std::marker::PhantomData;

/// How a connection ended.
#[derive(Drop)]
pub enum Outcome<T, G> {
    /// A session served it, and was told this.
    Served(T),
    /// A session for it was refused.
    Refused(Refused),
    /// It could not be opened.
    Gone(G),
}

/// How a connection ended, with what is known of its ends as they were when they were closed.
#[derive(Drop)]
pub struct Entry<A: Source, B: Sink, M: Machine, G> {
    pub outcome: Outcome<M::Told, G>,
    ends: PhantomData<(A, B)>,
    pub ghost was: { IsClosed M.is_opened M.was_told M.may_answer M.page
        A.connection A.heard A.is_over A.has_failed B.connection B.contents B.has_failed
        outcome },
}

impl<A: Source, B: Sink, M: Machine, G> Entry<A, B, M, G> {
    /// What the session was told that served it.
    pub(crate) fn into_told(self) -> Option<M::Told>
    where
        G: Drop,
        ensures some { IfSome result (λ told. told_in (self.outcome ∷ []) ≡ told ∷ []) }
        ensures none { IfNone result (told_in (self.outcome ∷ []) ≡ []) }
    {
        let Entry { outcome, ends: _ } = self;
        match outcome {
            Outcome::Served(told) => Some(told),
            Outcome::Refused(_) => None,
            Outcome::Gone(_) => None,
        }
    }

    /// One that could not be opened.
    pub(crate) fn of_gone(gone: G) -> Entry<A, B, M, G> {
        Entry {
            outcome: Outcome::Gone(gone),
            ends: PhantomData,
        }
    }
}

impl<A: Source + Drop, B: Sink + Drop, M: Machine, G> Entry<A, B, M, G> {
    /// Closes both ends of one.
    #[tactic(auto, using(crate::proofs::Known::was_closed))]
    pub(crate) fn close(_reader: A, _writer: B, outcome: Outcome<M::Told, G>) -> Entry<A, B, M, G>
        requires same { A.connection _reader ≡ B.connection _writer }
        requires became { Became M.is_opened M.was_told M.may_answer M.page
            (A.heard _reader) (A.is_over _reader) (A.has_failed _reader)
            (B.contents _writer) (B.has_failed _writer) outcome }
    {
        Entry {
            outcome,
            ends: PhantomData,
        }
    }
}
