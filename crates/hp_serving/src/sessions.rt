//! All sessions of a machine, from its first to its close.
ghost use Rattle.std.specs.Prelude.{◌≡◌, ◌≤◌, [], ◌++◌, map, vec_capacity, vec_len, All, IfOk, IfErr, IfSome, IsOk, IsPermutation, OnOk};
ghost use Rattle.hp_wire.specs.Sent.{Writes, WritesFront};
ghost use Rattle.hp_serving.specs.Ended.{IsOfMachine, LeavesAsked, Prints, Says, SaysEnd, line_of_fault, status_after, status_of, text_of_audit, text_of_close};
ghost use Rattle.hp_serving.specs.Connection.{IsClosed, told_in};
ghost use Rattle.hp_serving.specs.declared.sessions.Ended.{Ended as TheEnd};

use crate::connections::Connections;
use crate::entry::Entry;
use crate::fault::ServeFault;
use crate::host::{Closed, Machine};
use crate::serving::serve;
use hp_text::meminfo::meminfo_text;
use hp_wire::ends::{Sink, Source, write_whole};
use hp_wire::fault::RunFault;
use std::alloc::{AllocError, Global};
use std::io::Write;
use std::sync::Wait;
use std::thread::Threads;

/// How the serving of all sessions ended.
#[derive(Clone, Copy, Debug, PartialEq, Eq)]
pub enum Ended {
    /// All have ended, the machine is closed, and what is left of it is printed.
    Printed(Closed),
    /// The same, but it could not be printed whole.
    Unprinted(Closed),
    /// This came before.
    Failed(ServeFault),
}

/// Serves so many connections on the machine by so many workers, closes it, and gives the status that a process ends with.
///
/// All of these came. Of each it is known how it ended, by both its ends as they were when they were closed, which are of one
/// connection: what was read is what its session was asked, what was written are the lines of that session's replies, or a front of
/// them where a write failed; or it got the one line that says that there is no session; or it could not be opened.
///
/// After the last session `output` gets `audit ok` or `audit failed`, where the machine keeps trails, and the six lines
/// of meminfo, and nothing before. A fault is named on `faults`. The status is 0; 1 after a
/// fault; 3 where the audit failed, whether or not that could be printed.
pub fn serve_sessions<
    R: Threads + Wait + Sync,
    M: Machine + Sync,
    C: Connections,
    W: Sink,
    E: Sink,
>(
    rt: &R,
    alloc: Global,
    machine: M,
    connections: &mut C,
    sessions: usize,
    workers: u32,
    output: &mut W,
    faults: &mut E,
) -> u8
    ensures { (ended : TheEnd)
        × LeavesAsked {G = C.Gone} sessions (IsClosed M.is_opened M.was_told M.may_answer M.page
        C.Reader.connection C.Reader.heard C.Reader.is_over C.Reader.has_failed
        C.Writer.connection C.Writer.contents C.Writer.has_failed)
        (M.may_leave machine) ended
        × (result ≡ status_of ended)
        × Prints (W.contents output.old) (W.contents output.new) ended
        × SaysEnd (E.is_sure faults.old) (E.contents faults.old) (E.contents faults.new) ended }
{
    match rooms::<M>(alloc, sessions) {
        Ok(rooms) => {
            let ended = run(
                rt,
                alloc,
                machine,
                connections,
                sessions,
                workers,
                rooms,
                output,
            );
            report(ended, faults)
        }
        Err(AllocError) => {
            machine.abandon();
            report(Ended::Failed(ServeFault::Memory), faults)
        }
    }
}

// A list of what the sessions are told, and a text.
type Rooms<M> = (Vec<<M as Machine>::Told>, Vec<u8>);

// What is asked for before the first session.
fn rooms<M: Machine>(alloc: Global, sessions: usize) -> Result<Rooms<M>, AllocError>
    ensures { IfOk result (λ rooms. (rooms.0.items ≡ []) × (sessions ≤ vec_capacity rooms.0)
        × (rooms.1.items ≡ []) × (256 ≤ vec_capacity rooms.1)) }
{
    let text = Vec::with_capacity(alloc, 256)?;
    let told = Vec::with_capacity(alloc, sessions)?;
    Ok((told, text))
}

// What the sessions were told that served these connections, in the order of their numbers.
fn told_by_number<A: Source, B: Sink, M: Machine, G: Drop>(
    entries: Vec<Entry<A, B, M, G>>,
    mut told: Vec<M::Told>,
) -> Vec<M::Told>
    requires none { told.items ≡ [] }
    requires room { vec_len entries ≤ vec_capacity told }
    ensures told { IsPermutation (told_in (map (λ e. e.outcome) entries.items)) result.items }
    ensures closed { All (IsClosed M.is_opened M.was_told M.may_answer M.page
        A.connection A.heard A.is_over A.has_failed
        B.connection B.contents B.has_failed)
        (map (λ e. e.outcome) entries.items) }
{
    let mut rest = entries.into_iter();
    while let Some(entry) = rest.next() {
        if let Some(one) = entry.into_told() {
            told.push_reserved(one);
        }
    }
    told.sort_unstable_by_key(|one| M::number(one));
    told
}

fn run<R: Threads + Wait + Sync, M: Machine + Sync, C: Connections, W: Sink>(
    rt: &R,
    alloc: Global,
    machine: M,
    connections: &mut C,
    sessions: usize,
    workers: u32,
    rooms: Rooms<M>,
    output: &mut W,
) -> Ended
    requires untold { rooms.0.items ≡ [] }
    requires places { sessions ≤ vec_capacity rooms.0 }
    requires empty { rooms.1.items ≡ [] }
    requires room { 256 ≤ vec_capacity rooms.1 }
    ensures leaves { LeavesAsked {G = C.Gone} sessions (IsClosed
        M.is_opened M.was_told M.may_answer M.page
        C.Reader.connection C.Reader.heard C.Reader.is_over C.Reader.has_failed
        C.Writer.connection C.Writer.contents C.Writer.has_failed)
        (M.may_leave machine) result }
    ensures prints { Prints (W.contents output.old) (W.contents output.new) result }
{
    let (told, mut text) = rooms;
    let entries = match serve(rt, alloc, &machine, connections, sessions, workers) {
        Ok(entries) => entries,
        Err(stopped) => {
            machine.abandon();
            return Ended::Failed(stopped.fault());
        }
    };
    let Ok(closed) = machine.close(alloc, told_by_number(entries, told)) else {
        return Ended::Failed(ServeFault::Memory);
    };
    match print(closed, &mut text, output) {
        Ok(()) => Ended::Printed(closed),
        Err(_) => Ended::Unprinted(closed),
    }
}

// Prints what is left of the machine.
fn print<W: Sink>(closed: Closed, text: &mut Vec<u8>, output: &mut W) -> Result<(), RunFault>
    requires limits { IsOfMachine closed }
    requires empty { text.old.items ≡ [] }
    requires room { 256 ≤ vec_capacity text.old }
    ensures sent { OnOk result (Writes W.contents output.old output.new (text_of_close closed)) }
    ensures cut { IfErr result (WritesFront W.contents output.old output.new
        (text_of_close closed)) }
{
    write_whole(output, audit_line(closed.audit).as_bytes())?;
    meminfo_text(closed.counts, closed.page, text);
    write_whole(output, text.as_slice())
}

fn audit_line(audit: Option<bool>) -> &'static str
    ensures { result.now ≡ text_of_audit audit }
{
    match audit {
        None => "",
        Some(true) => "audit ok\n",
        Some(false) => "audit failed\n",
    }
}

/// Names a fault, and gives the status that a process ends with. Where `faults` fails too, the status alone tells.
pub fn report<E: Sink>(ended: Ended, faults: &mut E) -> u8
    ensures status { result ≡ status_of ended }
    ensures says { SaysEnd (E.is_sure faults.old) (E.contents faults.old)
        (E.contents faults.new) ended }
{
    match ended {
        Ended::Printed(closed) => status_after(closed, 0),
        Ended::Unprinted(closed) => {
            name(ServeFault::Write, faults);
            status_after(closed, 1)
        }
        Ended::Failed(fault) => {
            name(fault, faults);
            1
        }
    }
}

fn status_after(closed: Closed, other: u8) -> u8
    ensures { result ≡ status_after closed.audit other }
{
    if closed.audit == Some(false) {
        3
    } else {
        other
    }
}

fn name<E: Sink>(fault: ServeFault, faults: &mut E)
    ensures { Says (E.is_sure faults.old) (E.contents faults.old) (E.contents faults.new)
        (line_of_fault fault) }
{
    let _ = write_whole(faults, fault.line().as_bytes());
}
