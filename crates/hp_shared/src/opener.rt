//! Who opens sessions.
ghost use Rattle.std.specs.Prelude.{◌≡◌, ◌∷◌, []};
ghost use Rattle.hp_history.specs.declared.held.Held.TheVariants.{Opener as OpenerPart};
ghost use Rattle.hp_history.specs.History.{IsOpener, IsSession, number_in, receipts_in, sessions_in};
ghost use Rattle.hp_shared.specs.Ended.{IsCount};

use hp_history::{History, Places, Token};
use hp_order::Ordered;
use std::marker::PhantomData;

// The seat that may open sessions, and how many it opened. They are numbered from 0 on.
#[derive(Drop)]
pub(crate) struct Opener<N: Places> {
    seat: Token,
    sessions: u64,
    of: PhantomData<N>,
    ghost named: { seat.table_id ≡ N.history },
    ghost opens: { IsOpener seat.me.0 },
    ghost alone: { seat.me.1 ≡ [] },
    ghost count: { IsCount sessions (sessions_in seat.me.0) },
}

impl<N: Places> Ordered for Opener<N> {
    ghost rank = { 1 };

    #[inline(always)]
    fn rank() -> u64 {
        1
    }
}

impl<N: Places> Opener<N> {
    pub(crate) fn new(seat: Token) -> Self
        requires named { seat.table_id ≡ N.history }
        requires none { seat.me ≡ (OpenerPart 0 ∷ [], []) }
    {
        Opener {
            seat,
            sessions: 0,
            of: PhantomData,
        }
    }

    // A session more, which was told nothing yet, with its number.
    pub(crate) fn open(&mut self, history: &History<N>) -> (u64, Token)
        ensures number { IsCount result.0 (number_in result.1.me.0) }
        ensures named { result.1.table_id ≡ N.history }
        ensures session { IsSession result.1.me.0 }
        ensures none { receipts_in result.1.me.0 ≡ [] }
        ensures alone { result.1.me.1 ≡ [] }
    {
        let number = self.sessions;
        let session = history.open(&mut self.seat);
        self.sessions = number.saturating_add(1);
        (number, session)
    }

    pub(crate) fn into_parts(self) -> (u64, Token)
        ensures count { IsCount result.0 (sessions_in result.1.me.0) }
        ensures named { result.1.table_id ≡ N.history }
        ensures opens { IsOpener result.1.me.0 }
        ensures alone { result.1.me.1 ≡ [] }
    {
        let Opener {
            seat,
            sessions,
            of: _,
        } = self;
        (sessions, seat)
    }
}
