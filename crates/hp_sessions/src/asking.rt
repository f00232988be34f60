//! What one thread asks of a machine's parts.
ghost use Rattle.std.specs.Prelude.{◌≡◌, ◌≤◌};
ghost use Rattle.hp_events.specs.Time.{IsFront};
ghost use Rattle.hp_model.specs.Profile.{most_page_bytes};
ghost use Rattle.hp_sessions.specs.Calls.{HasLooked};

mod forking;
mod making;
mod queueing;
mod service;
mod steps;

use hp_events::Parts;
use std::marker::Model;

/// What one thread asks of a machine's parts, step after step, while others do the same.
///
/// The parts have a receipt of each event that they told of, in order. What it saw of the order of all events changes only by `look`
/// and `hear`.
#[derive(Drop)]
pub struct Asking<P: Parts> {
    parts: P,
}

impl<P: Parts> Model for Asking<P> {
    ghost use Rattle.hp_sessions.specs.Calls.{SessionView};

    ghost Value = { SessionView };

    ghost view = { λ s. record {
      slots = P.slots s.parts;
      receipts = P.told s.parts;
      room = P.places s.parts;
      clock = P.clock s.parts;
    } };
}

impl<P: Parts> Asking<P> {
    /// Who asks these parts. It takes no memory.
    pub fn new(parts: P) -> Self
        ensures slots { result.slots ≡ P.slots parts }
        ensures receipts { result.receipts ≡ P.told parts }
        ensures room { result.room ≡ P.places parts }
        ensures clock { result.clock ≡ P.clock parts }
        ensures page { P.page ≤ most_page_bytes }
    {
        let _bytes = parts.page_bytes();
        Asking { parts }
    }

    /// The parts, with the receipts.
    pub fn into_parts(self) -> P
        ensures slots { P.slots result ≡ self.slots }
        ensures told { P.told result ≡ self.receipts }
        ensures places { P.places result ≡ self.room }
        ensures clock { P.clock result ≡ self.clock }
    {
        self.parts
    }

    /// Looks at the order: all events of which it has receipts stand there by now.
    #[inline(always)]
    pub fn look(&mut self)
        ensures { HasLooked self.old self.new }
    {
        self.parts.date();
    }

    /// Looks at the order, and gives what it sees, to be handed over.
    pub fn show(&mut self) -> P::Past
        ensures looked { HasLooked self.old self.new }
        ensures seen { P.seen_by result ≡ self.new.clock.seen }
    {
        self.look();
        self.parts.show()
    }

    /// Takes what another saw of the order, and looks at it.
    pub fn hear(&mut self, past: P::Past)
        ensures heard { IsFront (P.seen_by past) self.new.clock.seen }
        ensures looked { HasLooked self.old self.new }
    {
        self.parts.hear(past);
    }
}
