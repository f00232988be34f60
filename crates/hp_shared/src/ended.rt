//! The history of a machine that no thread shares any more.
ghost use Rattle.std.specs.Prelude.{◌≡◌, ◌==◌, ◌∷◌, ◌++◌, [], true};
ghost use Rattle.hp_history.specs.declared.held.Held.TheVariants.{Seen, Session};
ghost use Rattle.hp_history.specs.History.{Ends};

use crate::finished::Finished;
use hp_history::{History, Places, Token};
use hp_model::entry::Receipt;

/// The history, with one seat that has all parts, and takes in what sessions were told and what they saw.
#[derive(Drop)]
pub struct Ended<N: Places> {
    history: History<N>,
    seat: Token,
    /// How many sessions were opened.
    pub sessions: u64,
    /// Whether each slot stood at the place of its number.
    pub in_order: bool,
    ghost named: { seat.table_id ≡ N.history },
    ghost alone: { seat.me.1 ≡ [] },
}

impl<N: Places> Ended<N> {
    pub(crate) fn new(history: History<N>, seat: Token, sessions: u64, in_order: bool) -> Self
        requires named { seat.table_id ≡ N.history }
        requires alone { seat.me.1 ≡ [] }
        ensures seat { result.seat ≡ seat }
        ensures sessions { result.sessions ≡ sessions }
        ensures in_order { result.in_order ≡ in_order }
    {
        Ended {
            history,
            seat,
            sessions,
            in_order,
        }
    }

    /// With what a session more was told, behind what the seat has, and what it saw, in front. Its receipts, where K is 1.
    pub fn with<const K: usize>(self, session: Finished<N, K>) -> (Self, Vec<Receipt>)
        ensures parts { result.0.seat.me.0
            ≡ Seen session.seen ∷ (self.seat.me.0 ++ Session session.number session.receipts ∷ []) }
        ensures sessions { result.0.sessions ≡ self.sessions }
        ensures in_order { result.0.in_order ≡ self.in_order }
        ensures receipts { (K == 1) ≡ true → result.1.items ≡ session.receipts }
    {
        let Ended {
            history,
            seat,
            sessions,
            in_order,
        } = self;
        let (receipts, mut all, clock) = session.into_parts();
        history.take_in(&mut all, seat);
        history.take_in(&mut all, clock.into_seat());
        let ended = Ended {
            history,
            seat: all,
            sessions,
            in_order,
        };
        (ended, receipts)
    }

    /// There is an order of all events that has what the seat has.
    pub fn learn(self)
        ensures { Ends N.shape self.seat.me.0 }
    {
        let Ended {
            history,
            seat,
            sessions: _,
            in_order: _,
        } = self;
        let mut seat = seat;
        history.learn(&mut seat);
    }
}
