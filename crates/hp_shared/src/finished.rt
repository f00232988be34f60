//! What a session leaves.
ghost use Rattle.std.specs.Prelude.{◌≡◌, ◌==◌, ◌∷◌, [], true};
ghost use Rattle.hp_history.specs.declared.held.Held.TheVariants.{Session};
ghost use Rattle.hp_history.specs.History.{IsSession, number_in, receipts_in};
ghost use Rattle.hp_shared.specs.Ended.{IsCount};

use atomic_table::Badge;
use hp_history::{Clock, Places, Token, View};
use hp_model::entry::Receipt;
use std::marker::{Model, PhantomData};

/// A session that is over: its number; its seat in the history, which has what it was told, and where K is 1 that as receipts; and
/// its clock.
///
/// Sessions are numbered from 0 on, in the order in which they were opened.
#[derive(Drop)]
pub struct Finished<N: Places, const K: usize> {
    number: u64,
    receipts: Vec<Receipt>,
    seat: Badge<View>,
    clock: Clock<N>,
    of: PhantomData<N>,
}

impl<N: Places, const K: usize> Model for Finished<N, K> {
    ghost use Rattle.std.specs.Prelude.{◌==◌};
    ghost use Rattle.hp_history.specs.History.{front_of, number_in, receipts_in};
    ghost use Rattle.hp_shared.specs.Ended.{FinishedView, IsFinished};

    ghost Value = { FinishedView };

    ghost view = { λ f. record {
      number = number_in (front_of f.seat.views);
      receipts = receipts_in (front_of f.seat.views);
      seen = f.clock;
    } };

    ghost invariant = { λ f. IsFinished (K == 1) N.history f.number f.receipts.items
        f.seat.table_id f.seat.views };
}

impl<N: Places, const K: usize> Finished<N, K> {
    /// Of a session of this number, by its receipts, its seat and its clock.
    pub fn new(number: u64, receipts: Vec<Receipt>, seat: Token, clock: Clock<N>) -> Self
        requires number { IsCount number (number_in seat.me.0) }
        requires named { seat.table_id ≡ N.history }
        requires session { IsSession seat.me.0 }
        requires alone { seat.me.1 ≡ [] }
        requires kept { (K == 1) ≡ true → receipts.items ≡ receipts_in seat.me.0 }
        ensures { result ≡ record {
          number = number_in seat.me.0;
          receipts = receipts_in seat.me.0;
          seen = clock;
        } }
    {
        Finished {
            number,
            receipts,
            seat: seat.into_badge(),
            clock,
            of: PhantomData,
        }
    }

    /// The session's number.
    pub fn number(&self) -> u64
        ensures { IsCount result self.now.number }
    {
        self.number
    }

    /// The receipts, in order, where K is 1; the seat; and the clock.
    pub fn into_parts(self) -> (Vec<Receipt>, Token, Clock<N>)
        ensures receipts { (K == 1) ≡ true → result.0.items ≡ self.receipts }
        ensures named { result.1.table_id ≡ N.history }
        ensures seat { result.1.me ≡ (Session self.number self.receipts ∷ [], []) }
        ensures clock { result.2 ≡ self.seen }
    {
        let Finished {
            number: _,
            receipts,
            seat,
            clock,
            of: _,
        } = self;
        (receipts, seat.into_seat(), clock)
    }
}
