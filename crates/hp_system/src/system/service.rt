//! The machine as a service: a step is done by what it asks of which part; a load, a store and a fault with no step and no
//! answer made of them.
ghost use Rattle.std.specs.Prelude.{◌≡◌};

use super::System;
use hp_events::work_of;
use hp_model::answer::Reply;
use hp_model::naming::Naming;
use hp_model::refusal::Refusal;
use hp_model::service::{Access, Service};
use hp_model::step::{Intent, Step};
use hp_model::told::Told;
use hp_mount::MapAccess;

// The home of an access's task, and the mount of its slot; or the refusal where one of them is not there.
macro_rules! reach {
    ($system:ident, $access:ident, $home:ident, $mount:ident) => {
        let Some($home) = $system.table.home($access.task) else {
            return Err(Refusal::NoSuchTask);
        };
        let at = $access.slot as usize;
        if at >= $system.slots.len() {
            return Err(Refusal::NoSuchSlot);
        }
        let Some($mount) = &mut $system.slots[at] else {
            return Err(Refusal::NoSuchSlot);
        };
    };
}

/// Loads, stores and faults are refused, and then nothing changes, by the first of these that holds: NoSuchTask, NoSuchSlot,
/// NoSuchMap; OutOfRange where the index is not mapped or no byte is asked for, CrossesPage, TooMany above `MOST_BYTES`,
/// BeyondEnd; and where no page is there or reserved, MountFull, OutOfMemory or NoPages.
impl<N: Naming> Service for System<N> {
    ghost use Rattle.hp_model.specs.machine.Promises.{IsPromisedStep};
    ghost use Rattle.hp_model.specs.machine.Ready.{IsReadyMachine};

    ghost may_answer = { λ old step reply new. IsPromisedStep old.state step reply new.state };

    ghost page = { λ s. s.state.page_size };

    ghost is_ready = { IsReadyMachine };

    fn call(&mut self, step: &Step<'_>) -> Reply {
        self.apply(step)
    }

    fn answer<'a>(
        &mut self,
        step: &Step<'_>,
        room: &'a mut [u8],
        reply: &mut Result<Told<'a>, Refusal>,
    ) {
        self.do_work(work_of(step), room, reply);
    }

    fn load<'a>(
        &mut self,
        access: &Access,
        count: u64,
        room: &'a mut [u8],
    ) -> Result<&'a [u8], Refusal> {
        let page_bytes = self.page_bytes as u64;
        reach!(self, access, home, mount);
        mount.load(
            &mut self.pool,
            page_bytes,
            home,
            &place_of(access),
            access.offset,
            count,
            room,
        )
    }

    fn store(&mut self, access: &Access, bytes: &[u8]) -> Result<(), Refusal> {
        let page_bytes = self.page_bytes as u64;
        reach!(self, access, home, mount);
        let place = place_of(access);
        mount.store(
            &mut self.pool,
            page_bytes,
            home,
            &place,
            access.offset,
            bytes,
        )
    }

    fn fault(&mut self, access: &Access, intent: Intent) -> Result<(), Refusal> {
        reach!(self, access, home, mount);
        mount.fault(&mut self.pool, home, &place_of(access), intent)
    }

    fn page_bytes(&self) -> u64 {
        self.page_bytes as u64
    }
}

// The index of a map that an access asks for.
#[inline(always)]
fn place_of(access: &Access) -> MapAccess
    ensures { result ≡ record {
      task = access.now.task;
      map = access.now.map;
      index = access.now.index;
    } }
{
    MapAccess {
        task: access.task,
        map: access.map,
        index: access.index,
    }
}
