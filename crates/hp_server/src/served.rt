//! The machine that is served, with what its sessions are told.
ghost use Rattle.std.specs.Prelude.{◌≡◌, ◌==◌, [], IfOk};
ghost use Rattle.hp_closing.specs.Left.{HasLeft};
ghost use Rattle.hp_locked.specs.Views.{frames_list};
ghost use Rattle.hp_model.specs.machine.Machine.{start};
ghost use Rattle.hp_server.specs.Left.{MayLeave};
ghost use Rattle.hp_serving.specs.Ended.{IsOfMachine};
ghost use Rattle.hp_sessions.specs.Calls.{IsCallAnswered, SessionView};
ghost use Rattle.hp_shared.specs.Ended.{IsCount};

use crate::host::Waiting;
use hp_closing::{close, into_system};
use hp_history::Places;
use hp_locked::Gate;
use hp_model::naming::Naming;
use hp_order::Rest;
use hp_serving::{Closed, Machine, Refused, serve_session};
use hp_shared::{Finished, Shared};
use hp_wire::ends::{Sink, Source};
use std::alloc::{AllocError, Global};
use std::sync::Wait;

/// A machine that threads share, with who watches its locks, and the room of each of its sessions.
pub struct Served<N: Naming + Places, G: Gate + Drop, const K: usize> {
    pub shared: Shared<N, K>,
    pub gate: G,
    pub room: usize,
}

impl<N: Naming + Places + Send + Sync, G: Gate + Drop, const K: usize> Machine for Served<N, G, K> {
    /// What a session leaves: its number, what it was told, and what it saw of the order.
    type Told = Finished<N, K>;

    ghost Session = { SessionView };

    ghost may_answer = { IsCallAnswered (K == 1) N.page_bytes };

    ghost page = { λ session. N.page_bytes };

    ghost is_opened = { λ session. session.receipts ≡ [] };

    ghost was_told = { HasLeft };

    ghost may_leave = { λ machine told closed. MayLeave K (start (frames_list N.frames)
        machine.shared.page_size machine.shared.slots) told closed };

    ghost is_numbered = { λ told n. IsCount n told.number };

    fn serve_one<R: Wait, A: Source, B: Sink>(
        &self,
        rt: &R,
        rest: Rest,
        alloc: Global,
        reader: &mut A,
        writer: &mut B,
    ) -> (Result<Finished<N, K>, Refused>, Rest) {
        let host = Waiting {
            rt,
            shared: &self.shared,
            gate: &self.gate,
            room: self.room,
        };
        serve_session(alloc, rest, &&host, reader, writer)
    }

    fn number(told: &Finished<N, K>) -> usize {
        told.number() as usize
    }

    /// Where sessions are missing, or the machine's slots were not in order, the audit says that they differ.
    fn close(self, alloc: Global, told: Vec<Finished<N, K>>) -> Result<Closed, AllocError>
        ensures leaves { IfOk result (MayLeave K (start (frames_list N.frames)
            self.shared.page_size self.shared.slots) told.items) }
        ensures limits { IfOk result IsOfMachine }
    {
        let Served {
            shared,
            gate: _,
            room: _,
        } = self;
        let closed = close(alloc, shared, told)?;
        let audit = if closed.is_whole {
            closed.audit
        } else {
            Some(false)
        };
        Ok(Closed {
            audit,
            counts: closed.counts,
            page: closed.page,
        })
    }

    fn abandon(self) {
        let Served {
            shared,
            gate: _,
            room: _,
        } = self;
        let (system, _trails, _ended) = into_system(shared);
        system.close();
    }
}
