//! A way into a machine that threads share.
ghost use Rattle.std.specs.Prelude.{◌≡◌, ◌==◌, [], true, IfOk};

use crate::member::Member;
use hp_history::{Clock, Places};
use hp_locked::Gate;
use hp_model::naming::Naming;
use hp_order::{Rest, Turn};
use hp_shared::{Finished, Shared};
use std::marker::Model;
use std::sync::Wait;

/// What asks the parts of a machine that threads share, each under its lock, for one session: by what it waits for one, who is
/// told that a slot's or a node's is held, and what the session was told. Between two calls its thread holds no lock.
#[derive(Drop)]
pub struct Entrance<'a, N: Naming + Places, R: Wait, G: Gate, const K: usize> {
    pub(crate) rt: &'a R,
    pub(crate) shared: &'a Shared<N, K>,
    pub(crate) gate: &'a G,
    pub(crate) turn: Turn,
    pub(crate) member: Member<N, K>,
    pub(crate) clock: Clock<N>,
}

impl<'a, N: Naming + Places, R: Wait, G: Gate, const K: usize> Model for Entrance<'a, N, R, G, K> {
    ghost use Rattle.std.specs.Prelude.{◌≡◌, []};
    ghost use Rattle.hp_entrance.specs.Members.{EntranceView};

    ghost Value = { EntranceView };

    ghost view = { λ e. record {
      slots = e.shared.now.slots;
      receipts = e.member.receipts;
      room = e.member.room;
      clock = record { number = e.member.number; seen = e.clock };
    } };

    ghost invariant = { λ e. e.turn.held ≡ [] };
}

impl<'a, N: Naming + Places, R: Wait, G: Gate, const K: usize> Entrance<'a, N, R, G, K> {
    /// An entrance for a new session, with room for so many receipts where K is 1; else it takes no memory. It has the turn of its
    /// thread, which comes back where memory is refused.
    pub fn open(
        rt: &'a R,
        shared: &'a Shared<N, K>,
        gate: &'a G,
        room: usize,
        rest: Rest,
    ) -> Result<Self, Rest>
        ensures none { IfOk result (λ e. e.receipts ≡ []) }
        ensures unseen { IfOk result (λ e. e.clock.seen ≡ []) }
        ensures room { IfOk result (λ e. (K == 1) ≡ true → e.room ≡ room) }
    {
        let room = if K == 1 { room } else { 0 };
        let mut receipts = Vec::new(shared.alloc());
        if receipts.reserve(room).is_err() {
            return Err(rest);
        }
        let mut turn = rest.into_turn();
        let (number, mut seat) = shared.open_session(&mut turn, rt);
        let clock = Clock::new(shared.history(), &mut seat);
        Ok(Entrance {
            rt,
            shared,
            gate,
            turn,
            member: Member::new(number, seat, receipts, room),
            clock,
        })
    }

    /// What the session leaves, once it is over, and its thread's turn. It takes no memory.
    pub fn into_finished(self) -> (Finished<N, K>, Rest)
        ensures number { result.0.number ≡ self.entry.clock.number }
        ensures receipts { result.0.receipts ≡ self.entry.receipts }
        ensures seen { result.0.seen ≡ self.entry.clock.seen }
    {
        let Entrance {
            turn,
            member,
            clock,
            ..
        } = self;
        (member.into_finished(clock), Rest::of(turn))
    }
}
