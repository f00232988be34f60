//! A thread that holds nothing.
ghost use Rattle.std.specs.Prelude.{◌≡◌, []};

use crate::turn::Turn;

/// The turn of a thread that holds no lock: by it a thread begins and ends, and waits for what is no lock.
#[derive(Drop)]
pub struct Rest {
    turn: Turn,
    pub ghost none: { turn.held ≡ [] },
}

impl Rest {
    /// The turn of a thread that begins. No type keeps a thread from a second one: a thread calls this first, and once.
    #[inline(always)]
    pub fn begin() -> Rest {
        Rest { turn: Turn::new() }
    }

    /// The turn of a thread that holds nothing any more.
    #[inline(always)]
    pub fn of(turn: Turn) -> Rest
        requires { turn.held ≡ [] }
    {
        Rest { turn }
    }

    /// The turn, by which locks are taken.
    #[inline(always)]
    pub fn into_turn(self) -> Turn
        ensures { result.held ≡ [] }
    {
        let Rest { turn } = self;
        turn
    }
}
