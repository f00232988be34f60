//! What is asked of the parts, as a service.
ghost use Rattle.hp_sessions.specs.Calls.{IsCallMade};

use super::Asking;
use hp_events::{Parts, into_bytes, into_done};
use hp_model::answer::Reply;
use hp_model::event::SlotEvent;
use hp_model::lent::Lent;
use hp_model::profile::MOST_BYTES;
use hp_model::queued::Queued;
use hp_model::refusal::Refusal;
use hp_model::service::{Access, Service};
use hp_model::step::{Intent, Step};
use hp_model::told::{Told, into_reply};

impl<P: Parts> Service for Asking<P> {
    ghost may_answer = { λ old step reply new.
        IsCallMade P.keeps P.page old step reply new };

    ghost page = { λ s. P.page };

    ghost is_ready = { λ s. Unit {0} };

    fn call(&mut self, step: &Step<'_>) -> Reply {
        let mut room = [0u8; MOST_BYTES];
        into_reply(self.do_step(step, &mut room))
    }

    fn answer<'b>(
        &mut self,
        step: &Step<'_>,
        room: &'b mut [u8],
        reply: &mut Result<Told<'b>, Refusal>,
    ) {
        self.do_step_into(step, room, reply);
    }

    fn load<'b>(
        &mut self,
        access: &Access,
        count: u64,
        room: &'b mut [u8],
    ) -> Result<&'b [u8], Refusal> {
        let event = SlotEvent::Load {
            task: access.task,
            home: 0,
            map: access.map,
            index: access.index,
            offset: access.offset,
            count,
        };
        let told = self.of_task(access.task, access.slot, event, room);
        into_bytes(told)
    }

    fn store(&mut self, access: &Access, bytes: &[u8]) -> Result<(), Refusal> {
        let event = SlotEvent::Store {
            task: access.task,
            home: 0,
            map: access.map,
            index: access.index,
            offset: access.offset,
            bytes: Lent::new(bytes),
        };
        let told = self.of_task(access.task, access.slot, event, &mut []);
        into_done(told)
    }

    fn fault(&mut self, access: &Access, intent: Intent) -> Result<(), Refusal> {
        Asking::fault(self, access, intent)
    }

    #[inline(always)]
    fn takes_several(&self) -> bool {
        !self.parts.is_kept()
    }

    fn do_queued(&mut self, queue: &mut [Queued], room: &mut [u8]) {
        self.do_waiting(queue, room)
    }

    fn page_bytes(&self) -> u64 {
        self.parts.page_bytes()
    }
}
