//! A session as a service: each call looks at the order when it begins.
ghost use Rattle.hp_sessions.specs.Calls.{IsCallAnswered};

use super::Session;
use hp_events::Parts;
use hp_model::answer::Reply;
use hp_model::queued::Queued;
use hp_model::refusal::Refusal;
use hp_model::service::{Access, Service};
use hp_model::step::{Intent, Step};
use hp_model::told::Told;

impl<P: Parts> Service for Session<P> {
    ghost may_answer = { λ old step reply new.
        IsCallAnswered P.keeps P.page old step reply new };

    ghost page = { λ s. P.page };

    ghost is_ready = { λ s. Unit {0} };

    fn call(&mut self, step: &Step<'_>) -> Reply {
        Session::call(self, step)
    }

    fn answer<'b>(
        &mut self,
        step: &Step<'_>,
        room: &'b mut [u8],
        reply: &mut Result<Told<'b>, Refusal>,
    ) {
        self.asking.look();
        self.asking.do_step_into(step, room, reply);
    }

    fn load<'b>(
        &mut self,
        access: &Access,
        count: u64,
        room: &'b mut [u8],
    ) -> Result<&'b [u8], Refusal> {
        self.asking.look();
        self.asking.load(access, count, room)
    }

    fn store(&mut self, access: &Access, bytes: &[u8]) -> Result<(), Refusal> {
        self.asking.look();
        self.asking.store(access, bytes)
    }

    fn fault(&mut self, access: &Access, intent: Intent) -> Result<(), Refusal> {
        self.asking.look();
        self.asking.fault(access, intent)
    }

    #[inline(always)]
    fn takes_several(&self) -> bool {
        self.asking.takes_several()
    }

    // A look behind them is one for all but the first.
    fn do_queued(&mut self, queue: &mut [Queued], room: &mut [u8]) {
        if queue.is_empty() {
            return;
        }
        self.asking.look();
        self.asking.do_queued(queue, room);
        if queue.len() > 1 {
            self.asking.look();
        }
    }

    fn page_bytes(&self) -> u64 {
        self.asking.page_bytes()
    }
}
