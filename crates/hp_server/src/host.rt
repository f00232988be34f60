//! What sessions are opened on.
ghost use Rattle.std.specs.Prelude.{◌≡◌, []};
ghost use Rattle.hp_closing.specs.Left.{HasLeft};

use hp_entrance::Entrance;
use hp_history::Places;
use hp_locked::Gate;
use hp_model::naming::Naming;
use hp_order::Rest;
use hp_serving::Host;
use hp_sessions::Session;
use hp_shared::{Finished, Shared};
use std::alloc::Global;
use std::sync::Wait;

/// A machine that threads share, with what a session on it waits by and the room for its receipts.
#[derive(Drop)]
pub struct Waiting<'a, N: Naming + Places, R: Wait, G: Gate, const K: usize> {
    pub rt: &'a R,
    pub shared: &'a Shared<N, K>,
    pub gate: &'a G,
    pub room: usize,
}

// Behind a reference, so that it is known that the machine lives as long as the session.
impl<'a, N: Naming + Places + Send + Sync, R: Wait, G: Gate, const K: usize> Host
    for &'a Waiting<'a, N, R, G, K> {
    type Session = Session<Entrance<'a, N, R, G, K>>;

    /// What the session leaves: its number, what it was told, and what it saw of the order.
    type Told = Finished<N, K>;

    ghost is_opened = { λ session. session.receipts ≡ [] };

    ghost was_told = { HasLeft };

    fn open(&self, _alloc: Global, rest: Rest) -> Result<Session<Entrance<'a, N, R, G, K>>, Rest> {
        let entrance = Entrance::open(self.rt, self.shared, self.gate, self.room, rest)?;
        Ok(Session::open(entrance))
    }

    fn finish(session: Session<Entrance<'a, N, R, G, K>>) -> (Finished<N, K>, Rest) {
        session.finish().into_finished()
    }
}
