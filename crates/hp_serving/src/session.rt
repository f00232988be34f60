//! A session over a connection.
ghost use Rattle.std.specs.Prelude.{◌≡◌, IfOk, OnErr};
ghost use Rattle.hp_serving.specs.Session.{IsServed};

use crate::host::Host;
use hp_order::Rest;
use hp_wire::ends::{Sink, Source};
use hp_wire::running::{Rooms, run_lines_in};
use std::alloc::{AllocError, Global};

/// That memory for a session was refused. `serve_session` alone makes one.
#[derive(Drop, Debug)]
pub struct Refused {
    _by: AllocError,
}

/// Answers the lines of a connection on a session of its own, up to the connection's end or its first fault, and gives
/// what the session was told. What was written are the lines of the replies that its calls gave, or, after a failed
/// write, a front of them. It is refused only where the memory for its lines is, which is asked for first, or the session;
/// then nothing is read or written.
pub fn serve_session<H: Host, A: Source, B: Sink>(
    alloc: Global,
    rest: Rest,
    host: &H,
    reader: &mut A,
    writer: &mut B,
) -> (Result<H::Told, Refused>, Rest)
    ensures served { IfOk result.0 (IsServed H.is_opened H.was_told H.Session.may_answer
        H.Session.page
        (A.remaining reader.old, A.heard reader.old) (A.remaining reader.new, A.heard reader.new)
        (B.contents writer.old) (B.contents writer.new)
        (A.is_over reader.new) (A.has_failed reader.new) (B.has_failed writer.new)) }
    ensures reads_of { A.connection reader.new ≡ A.connection reader.old }
    ensures writes_to { B.connection writer.new ≡ B.connection writer.old }
    ensures unread { OnErr result.0 (reader.new ≡ reader.old) }
    ensures unwritten { OnErr result.0 (writer.new ≡ writer.old) }
{
    let Ok(rooms) = Rooms::new(alloc) else {
        return (Err(Refused { _by: AllocError }), rest);
    };
    let mut session = match host.open(alloc, rest) {
        Ok(session) => session,
        Err(rest) => return (Err(Refused { _by: AllocError }), rest),
    };
    let _ended = run_lines_in(rooms, reader, writer, &mut session);
    let (told, rest) = H::finish(session);
    (Ok(told), rest)
}
