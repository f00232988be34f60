//! A session on the parts of a machine.
ghost use Rattle.std.specs.Prelude.{◌≡◌, ◌≤◌};
ghost use Rattle.hp_events.specs.Time.{IsFront};
ghost use Rattle.hp_model.specs.text.Writing.{IsWithinLimits};
ghost use Rattle.hp_model.specs.Profile.{most_page_bytes};
ghost use Rattle.hp_sessions.specs.Calls.{HasLooked, IsCallAnswered};

mod service;

use crate::asking::Asking;
use hp_events::Parts;
use hp_model::answer::Reply;
use hp_model::profile::MOST_BYTES;
use hp_model::step::Step;
use hp_model::told::into_reply;
use std::marker::Model;

/// What one thread asks of a machine's parts, step after step, while others do the same.
///
/// It has a receipt of each event that the parts told of, in order. `finish` hands the parts back.
///
/// All events of a machine stand in one order. Of two calls, of sessions any two, let the answer of one be known to the thread that
/// made the other, by whatever way it came there. Then the events of the first stand before those of the second. For a call looks at
/// the order when it begins, and its events stand behind what it sees there. What a session saw is handed over by `show` and `hear`.
#[derive(Drop)]
pub struct Session<P: Parts> {
    asking: Asking<P>,
}

impl<P: Parts> Model for Session<P> {
    ghost use Rattle.hp_sessions.specs.Calls.{SessionView};

    ghost Value = { SessionView };

    ghost view = { λ s. s.asking };
}

impl<P: Parts> Session<P> {
    /// A session on these parts. It takes no memory.
    pub fn open(parts: P) -> Self
        ensures slots { result.slots ≡ P.slots parts }
        ensures receipts { result.receipts ≡ P.told parts }
        ensures room { result.room ≡ P.places parts }
        ensures clock { result.clock ≡ P.clock parts }
        ensures page { P.page ≤ most_page_bytes }
    {
        Session {
            asking: Asking::new(parts),
        }
    }

    /// The parts, with the receipts.
    pub fn finish(self) -> P
        ensures slots { P.slots result ≡ self.slots }
        ensures told { P.told result ≡ self.receipts }
        ensures places { P.places result ≡ self.room }
        ensures clock { P.clock result ≡ self.clock }
    {
        self.asking.into_parts()
    }

    /// Answers a step, or leaves everything as it was and says why; a fork that is refused is undone.
    ///
    /// A receipt of each of the step's events is added, in their order. Where the machine keeps entries, it is answered
    /// TraceFull before the first event where there is no room for the most receipts that the step can bring, and later where a
    /// trail has no place for one; and OutOfMemory before the first where there is no room for a copy of its name, options or
    /// bytes. It looks at the order when it begins.
    pub fn call(&mut self, step: &Step<'_>) -> Reply
        ensures answered { IsCallAnswered P.keeps P.page self.old step.now result self.new }
        ensures limits { IsWithinLimits result }
    {
        let mut room = [0u8; MOST_BYTES];
        self.asking.look();
        into_reply(self.asking.do_step(step, &mut room))
    }

    /// Looks at the order, and gives what it sees, to be handed to another thread. All events of its calls so far stand there.
    pub fn show(&mut self) -> P::Past
        ensures looked { HasLooked self.old self.new }
        ensures seen { P.seen_by result ≡ self.new.clock.seen }
    {
        self.asking.show()
    }

    /// Takes what another saw, and looks at the order: the events of its calls from now on stand behind that.
    pub fn hear(&mut self, past: P::Past)
        ensures heard { IsFront (P.seen_by past) self.new.clock.seen }
        ensures looked { HasLooked self.old self.new }
    {
        self.asking.hear(past);
    }
}
