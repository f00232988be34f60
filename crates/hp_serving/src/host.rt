//! What sessions are opened on.
ghost use Rattle.std.specs.Prelude.{◌≡◌, ◌≤◌, ℕ, List, IfOk, OnErr};
ghost use Rattle.hp_model.specs.Profile.{most_page_bytes};
ghost use Rattle.hp_model.specs.declared.step.Step.{Step as TheStep};
ghost use Rattle.hp_model.specs.machine.Plan.{Reply as TheReply};
ghost use Rattle.hp_serving.specs.Ended.{IsOfMachine};
ghost use Rattle.hp_serving.specs.Session.{IsServed};
ghost use Rattle.hp_serving.specs.declared.host.Closed.{Closed as TheClosed};

use crate::session::Refused;
use hp_model::answer::Counts;
use hp_model::service::Service;
use hp_order::Rest;
use hp_wire::ends::{Sink, Source};
use std::alloc::{AllocError, Global};
use std::sync::Wait;

/// A machine that many threads open sessions on, with what these wait by.
pub trait Host {
    /// A session that answers lines.
    type Session: Service;

    /// What a session was told, once it is finished.
    type Told: Drop;

    /// The session was just opened.
    ghost is_opened: { Self.Session → Type 0 };

    /// The finished session was told this.
    ghost was_told: { Self.Session → Self.Told → Type 0 };

    /// Opens a session, where memory for it can be had. It has the turn of its thread, which comes back where it is refused.
    fn open(&self, alloc: Global, rest: Rest) -> Result<Self::Session, Rest>
        ensures opened { IfOk result Self.is_opened }
        ensures ready { IfOk result Self.Session.is_ready }
        ensures page { IfOk result (λ session. Self.Session.page session ≤ most_page_bytes) };

    /// Ends a session, and gives its thread's turn back.
    fn finish(session: Self::Session) -> (Self::Told, Rest)
        ensures { Self.was_told session result.0 };
}

/// What is left of a machine that was closed.
#[derive(Clone, Copy, Debug, PartialEq, Eq)]
pub struct Closed {
    /// Whether trails and receipts are of one run, where they were kept.
    pub audit: Option<bool>,
    /// The counts of the pool, without its tasks and files.
    pub counts: Counts,
    /// The bytes of a page.
    pub page: u64,
}

/// A machine that sessions are served on, and that is closed after them.
pub trait Machine {
    /// What a session was told, once it is finished.
    type Told: Drop + Send;

    /// What is seen of a session.
    ghost Session: { Type 0 };

    /// From the old value, a session may answer the step so, which leaves the new value.
    ghost may_answer: { Session → TheStep → TheReply → Session → Type 0 };

    /// The bytes of a page.
    ghost page: { Session → ℕ };

    /// The session was just opened.
    ghost is_opened: { Session → Type 0 };

    /// The finished session was told this.
    ghost was_told: { Session → Self.Told → Type 0 };

    /// Closing the machine, where its sessions were told this, may leave that.
    ghost may_leave: { Self → List Self.Told → TheClosed → Type 0 };

    /// What a session was told is of the session of this number.
    ghost is_numbered: { Self.Told → ℕ → Type 0 };

    /// Serves a connection as `serve_session` does, on a session of this machine.
    fn serve_one<R: Wait, A: Source, B: Sink>(
        &self,
        rt: &R,
        rest: Rest,
        alloc: Global,
        reader: &mut A,
        writer: &mut B,
    ) -> (Result<Self::Told, Refused>, Rest)
        ensures served { IfOk result.0 (IsServed is_opened was_told may_answer page
            (A.remaining reader.old, A.heard reader.old)
            (A.remaining reader.new, A.heard reader.new)
            (B.contents writer.old) (B.contents writer.new)
            (A.is_over reader.new) (A.has_failed reader.new) (B.has_failed writer.new)) }
        ensures reads_of { A.connection reader.new ≡ A.connection reader.old }
        ensures writes_to { B.connection writer.new ≡ B.connection writer.old }
        ensures unread { OnErr result.0 (reader.new ≡ reader.old) }
        ensures unwritten { OnErr result.0 (writer.new ≡ writer.old) };

    /// The number that the session got when it was opened: the first got 0, and each the next.
    fn number(told: &Self::Told) -> usize
        ensures { is_numbered told.now result };

    /// Closes the machine once all its sessions are finished, given what these were told in the order of their
    /// numbers, and finds out whether that is all. Refused is only that, for want of memory; then it is closed too.
    fn close(self, alloc: Global, told: Vec<Self::Told>) -> Result<Closed, AllocError>
        ensures leaves { IfOk result (may_leave self told.items) }
        ensures limits { IfOk result IsOfMachine };

    /// Closes the machine after a fault.
    fn abandon(self);
}
