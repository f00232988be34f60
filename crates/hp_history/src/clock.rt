//! What one who asks has seen of the order.
ghost use Rattle.std.specs.Prelude.{◌≡◌, ◌∷◌, [], length};
ghost use Rattle.hp_events.specs.Time.{IsFront, made};
ghost use Rattle.hp_history.specs.History.{front_of, number_in, receipts_in};
ghost use Rattle.hp_history.specs.declared.held.Held.TheVariants.{Seen, Session};

use crate::history::History;
use crate::law::{Places, Token, View};
use atomic_table::Badge;
use std::marker::{Model, PhantomData};
use std::mem;

/// Whose the first events of the order are, as far as it was looked at. No memory holds it.
///
/// Events only come behind those that were seen, so it stays true whatever happens. It can be sent to any thread.
#[derive(Drop)]
pub struct Clock<J: Places> {
    seat: Badge<View>,
    of: PhantomData<J>,
}

impl<J: Places> Model for Clock<J> {
    ghost use Rattle.std.specs.Prelude.{ℕ, List};
    ghost use Rattle.hp_history.specs.History.{IsClockSeat, front_of, seen_in};

    ghost Value = { List ℕ };

    ghost view = { λ c. seen_in (front_of c.seat.views) };

    ghost invariant = { λ c. IsClockSeat J.history c.seat.table_id c.seat.views };
}

impl<J: Places> Clock<J> {
    /// One that has seen nothing yet, by a seat at the history.
    pub fn new(history: &History<J>, seat: &mut Token) -> Self
        requires seat { seat.old.table_id ≡ J.history }
        ensures same { seat.new.me ≡ seat.old.me }
        ensures named { seat.new.table_id ≡ J.history }
        ensures none { result ≡ [] }
    {
        Clock {
            seat: history.begin_clock(seat).into_badge(),
            of: PhantomData,
        }
    }

    /// One more, that has seen as much.
    pub fn show(&mut self, history: &History<J>) -> Self
        ensures same { self.new ≡ self.old }
        ensures seen { result ≡ self.old }
    {
        let Clock { seat, of: _ } = self;
        let mut own = mem::replace(seat, Badge::blank()).into_seat();
        let other = history.show(&mut own);
        *seat = own.into_badge();
        Clock {
            seat: other.into_badge(),
            of: PhantomData,
        }
    }

    /// A session looks at the order: it begins with what was seen before, and the session's events so far stand there, and no
    /// others of it.
    #[inline(always)]
    pub fn date(&mut self, history: &History<J>, mine: &mut Badge<View>)
        requires mine { mine.old.table_id ≡ J.history }
        requires session { mine.old.views ≡ (Session (number_in (front_of mine.old.views))
            (receipts_in (front_of mine.old.views)) ∷ []) ∷ [] }
        ensures mine { mine.new.table_id ≡ J.history }
        ensures same { mine.new.views ≡ mine.old.views }
        ensures later { IsFront self.old self.new }
        ensures made { made (number_in (front_of mine.old.views)) self.new
            ≡ length (receipts_in (front_of mine.old.views)) }
    {
        let Clock { seat, of: _ } = self;
        history.date(mine, seat);
    }

    /// A session takes what another clock has seen, and looks at the order as `date` does.
    pub fn hear(&mut self, history: &History<J>, mine: &mut Badge<View>, other: Self)
        requires mine { mine.old.table_id ≡ J.history }
        requires session { mine.old.views ≡ (Session (number_in (front_of mine.old.views))
            (receipts_in (front_of mine.old.views)) ∷ []) ∷ [] }
        ensures mine { mine.new.table_id ≡ J.history }
        ensures same { mine.new.views ≡ mine.old.views }
        ensures heard { IsFront other self.new }
        ensures later { IsFront self.old self.new }
        ensures made { made (number_in (front_of mine.old.views)) self.new
            ≡ length (receipts_in (front_of mine.old.views)) }
    {
        let Clock { seat, of: _ } = self;
        let Clock {
            seat: theirs,
            of: _,
        } = other;
        let mut own = mem::replace(seat, Badge::blank()).into_seat();
        history.take_in(&mut own, theirs.into_seat());
        *seat = own.into_badge();
        history.date(mine, seat);
    }

    /// The seat, which has what was seen.
    pub fn into_seat(self) -> Token
        ensures named { result.table_id ≡ J.history }
        ensures seen { result.me ≡ (Seen self ∷ [], []) }
    {
        let Clock { seat, of: _ } = self;
        seat.into_seat()
    }
}
