//! A connection that has to be served.
ghost use Rattle.std.specs.Prelude.{◌≡◌, ◌+◌, [], Some};
ghost use Rattle.hp_serving.specs.Connection.{Became, WasRefused};

use crate::entry::{Entry, Outcome};
use crate::host::Machine;
use crate::right::Right;
use hp_order::Rest;
use hp_wire::ends::{Sink, Source, write_whole};
use std::alloc::Global;
use std::sync::Wait;
use std::sync::ledger::{Book, Ledger, Share};

/// Both ends of a connection, of which nothing was read yet and to which nothing was written.
#[derive(Drop)]
pub(crate) struct Ends<A: Source, B: Sink> {
    reader: A,
    writer: B,
    ghost same: { A.connection reader ≡ B.connection writer },
    ghost unheard: { A.heard reader ≡ Some [] },
    ghost unsaid: { B.contents writer ≡ Some [] },
}

/// A connection that is owed. It has no `Drop`: who has it serves it or hands it on.
pub(crate) struct Connection<A: Source, B: Sink, L: Ledger> {
    ends: Ends<A, B>,
    share: Share<L>,
    ghost one: { share.parts ≡ 1 },
    ghost owed: { share.amount ≡ 1 },
}

/// What became of a connection, which is owed until that is filed. It has no `Drop`.
pub(crate) struct Report<A: Source, B: Sink, M: Machine, G, L: Ledger> {
    entry: Entry<A, B, M, G>,
    share: Share<L>,
    ghost one: { share.parts ≡ 1 },
    ghost owed: { share.amount ≡ 1 },
}

impl<A: Source, B: Sink> Ends<A, B> {
    pub(crate) fn new(reader: A, writer: B) -> Ends<A, B>
        requires same { A.connection reader ≡ B.connection writer }
        requires unheard { A.heard reader ≡ Some [] }
        requires unsaid { B.contents writer ≡ Some [] }
    {
        Ends { reader, writer }
    }
}

impl<A: Source + Drop, B: Sink + Drop, L: Ledger> Connection<A, B, L> {
    /// One that came. It counts from here on.
    pub(crate) fn new(ends: Ends<A, B>, right: Right<L>, book: &mut Book<L>) -> Connection<A, B, L>
        ensures { book.new.total ≡ book.old.total + 1 }
    {
        let mut share = right.into_share();
        book.add(&mut share, 1);
        Connection { ends, share }
    }

    /// One that waited.
    pub(crate) fn from_parts(ends: Ends<A, B>, share: Share<L>) -> Connection<A, B, L>
        requires one { share.parts ≡ 1 }
        requires owed { share.amount ≡ 1 }
    {
        Connection { ends, share }
    }

    /// Its ends, and the share that it is owed by.
    pub(crate) fn into_parts(self) -> (Ends<A, B>, Share<L>)
        ensures one { result.1.parts ≡ 1 }
        ensures owed { result.1.amount ≡ 1 }
    {
        let Connection { ends, share } = self;
        (ends, share)
    }

    /// Serves it to its end, whatever that is, and closes it.
    pub(crate) fn serve<R: Wait, M: Machine, G>(
        self,
        rt: &R,
        rest: Rest,
        alloc: Global,
        machine: &M,
    ) -> (Report<A, B, M, G, L>, Rest) {
        let Connection { ends, share } = self;
        let Ends {
            mut reader,
            mut writer,
        } = ends;
        let (outcome, rest) = serve_ends::<R, A, B, M, G>(
            rt,
            rest,
            alloc,
            machine,
            &mut reader,
            &mut writer,
        );
        let entry = Entry::close(reader, writer, outcome);
        (Report { entry, share }, rest)
    }
}

impl<A: Source, B: Sink, M: Machine, G, L: Ledger> Report<A, B, M, G, L> {
    /// One that could not be opened. It counts as well.
    pub(crate) fn of_gone(gone: G, right: Right<L>, book: &mut Book<L>) -> Report<A, B, M, G, L>
        ensures { book.new.total ≡ book.old.total + 1 }
    {
        let mut share = right.into_share();
        book.add(&mut share, 1);
        Report {
            entry: Entry::of_gone(gone),
            share,
        }
    }

    /// What is filed, and the share that it is owed by.
    pub(crate) fn into_parts(self) -> (Entry<A, B, M, G>, Share<L>)
        ensures one { result.1.parts ≡ 1 }
        ensures owed { result.1.amount ≡ 1 }
    {
        let Report { entry, share } = self;
        (entry, share)
    }
}

// Serves it on a session of the machine, or answers that there is none.
#[tactic(auto, using(crate::proofs::Known::was_served))]
fn serve_ends<R: Wait, A: Source, B: Sink, M: Machine, G>(
    rt: &R,
    rest: Rest,
    alloc: Global,
    machine: &M,
    reader: &mut A,
    writer: &mut B,
) -> (Outcome<M::Told, G>, Rest)
    requires unheard { A.heard reader.old ≡ Some [] }
    requires unsaid { B.contents writer.old ≡ Some [] }
    ensures reads_of { A.connection reader.new ≡ A.connection reader.old }
    ensures writes_to { B.connection writer.new ≡ B.connection writer.old }
    ensures became { Became M.is_opened M.was_told M.may_answer M.page
        (A.heard reader.new) (A.is_over reader.new) (A.has_failed reader.new)
        (B.contents writer.new) (B.has_failed writer.new) result.0 }
{
    let (served, rest) = machine.serve_one(rt, rest, alloc, reader, writer);
    match served {
        Ok(told) => (Outcome::Served(told), rest),
        Err(refused) => {
            answer_no_session(reader, writer);
            (Outcome::Refused(refused), rest)
        }
    }
}

// What a client gets whose session was refused memory as it opened.
const NO_MEMORY: &[u8] = b"error 1 OutOfMemory\n";

// The reply to what comes first, whatever that is, of a client that has no session. What it sent is read, so that the end of its
// connection is no reset, in which the reply could be lost.
fn answer_no_session<A: Source, B: Sink>(reader: &mut A, writer: &mut B)
    requires unsaid { B.contents writer.old ≡ Some [] }
    ensures reads_of { A.connection reader.new ≡ A.connection reader.old }
    ensures writes_to { B.connection writer.new ≡ B.connection writer.old }
    ensures refused { WasRefused (B.contents writer.new) (B.has_failed writer.new) }
{
    let mut come = [0; 1024];
    let _read = reader.read_some(&mut come);
    let _sent = write_whole(writer, NO_MEMORY);
}
