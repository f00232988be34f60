//! Workers that serve backlog connections.
ghost use Rattle.std.specs.Prelude.{◌≡◌, ◌+◌, ◌<◌, IfOk, OnOk, length, vec_len};

use crate::backlog::Backlog;
use crate::connection::{Connection, Ends, Report};
use crate::connections::Connections;
use crate::endings::{Endings, Teller, pair};
use crate::entry::Entry;
use crate::fault::ServeFault;
use crate::host::Machine;
use crate::register::Register;
use crate::right::Right;
use crate::tally::{OpenTally, Plan, Taker, Tally};
use crossbeam_channel::{Receiver, Sender};
use hp_order::{RankedLock, Rest, hold, let_go, receive};
use hp_wire::ends::{Sink, Source};
use std::alloc::{AllocError, Global};
use std::marker::Brand;
use std::sync::Wait;
use std::sync::ledger::{Blank, Book, Ledger, Share};
use std::thread;
use std::thread::{Builder, JoinHandle, Scope, Threads};

// The bytes of a worker's stack, of which lines at their limits touch 28 KB. The system's own size, 8 MB as a rule, would count
// for each worker where addresses are limited.
const STACK: usize = 256 * 1024;

/// Why not all connections were served.
#[derive(Drop)]
pub enum Stopped<F> {
    /// Memory was refused, or no worker could be started.
    Memory,
    /// The connections could not be announced.
    Write,
    /// The source failed, for this.
    Failed(F),
}

impl<F> Stopped<F> {
    /// What is said of it.
    pub fn fault(&self) -> ServeFault {
        match self {
            Stopped::Memory => ServeFault::Memory,
            Stopped::Write => ServeFault::Write,
            Stopped::Failed(_) => ServeFault::Network,
        }
    }
}

// What workers share.
#[derive(Drop)]
struct Hall<'x, R, A: Source, B: Sink, M: Machine, G, L: Ledger> {
    rt: &'x R,
    alloc: Global,
    machine: &'x M,
    rights: &'x Receiver<Right<L>, Global>,
    jobs: &'x Receiver<(), Global>,
    ends: &'x Teller,
    backlog: &'x RankedLock<Backlog<A, B, L>>,
    register: &'x RankedLock<Register<A, B, M, G, L>>,
}

/// Takes so many connections, and serves them by so many workers: each is served, or answered that it has no session, or it could not be
/// opened. A worker that can't be started is left out. The connections are announced once one runs.
///
/// It returns when all sessions that were handed out have ended, however these ended. `Memory` says that no worker
/// could be started, or no queue or list made, and `Write` that the connections could not be announced: then no session was
/// handed out. `Failed` says that the source failed.
pub fn serve<R: Threads + Wait + Sync, M: Machine + Sync, C: Connections>(
    rt: &R,
    alloc: Global,
    machine: &M,
    connections: &mut C,
    sessions: usize,
    workers: u32,
) -> Result<Vec<Entry<C::Reader, C::Writer, M, C::Gone>>, Stopped<C::Fault>>
    ensures { IfOk result (λ entries. length entries.items ≡ sessions) }
{
    let blank = Blank::new(u64::from(workers) + 3);
    serve_named::<R, M, C, Brand, Brand>(rt, alloc, machine, connections, sessions, workers, blank)
}

fn serve_named<
    R: Threads + Wait + Sync,
    M: Machine + Sync,
    C: Connections,
    L: Ledger + Send + Sync,
    P: Plan,
>(
    rt: &R,
    alloc: Global,
    machine: &M,
    connections: &mut C,
    sessions: usize,
    workers: u32,
    blank: Blank,
) -> Result<Vec<Entry<C::Reader, C::Writer, M, C::Gone>>, Stopped<C::Fault>>
    requires name { blank.name ≡ L.name }
    requires parts { blank.parts ≡ L.parts }
    requires rights { blank.parts ≡ workers + 3 }
    requires planned { sessions ≡ P.sessions }
    requires all { blank.parts ≡ P.rights }
    ensures { IfOk result (λ entries. length entries.items ≡ sessions) }
{
    let (book, mut share) = blank.open::<L>();
    let room = workers as usize;
    let Ok(backlog) = Backlog::<C::Reader, C::Writer, L>::new(
        alloc,
        2 * room + 1,
        share.split_off(1, 0),
    ) else {
        return Err(Stopped::Memory);
    };
    let Ok(register) = Register::<C::Reader, C::Writer, M, C::Gone, L>::new(
        alloc,
        sessions,
        share.split_off(1, 0),
    ) else {
        return Err(Stopped::Memory);
    };
    let taker = Taker::<L, P>::new(book, share, workers, sessions);
    let backlog = RankedLock::new(backlog);
    let register = RankedLock::new(register);
    let rest = Rest::begin();
    let (rest, tally) = serve_on(
        rt,
        rest,
        alloc,
        machine,
        connections,
        &backlog,
        &register,
        taker,
    )?;
    let (backlog, register) = (backlog.into_inner(), register.into_inner());
    match end(rt, rest, alloc, machine, backlog, register, tally) {
        Ok(entries) => Ok(entries),
        Err(AllocError) => Err(Stopped::Memory),
    }
}

// Takes and serves all connections by workers.
fn serve_on<
    R: Threads + Wait + Sync,
    M: Machine + Sync,
    C: Connections,
    L: Ledger + Send + Sync,
    P: Plan,
>(
    rt: &R,
    rest: Rest,
    alloc: Global,
    machine: &M,
    connections: &mut C,
    backlog: &RankedLock<Backlog<C::Reader, C::Writer, L>>,
    register: &RankedLock<Register<C::Reader, C::Writer, M, C::Gone, L>>,
    taker: Taker<L, P>,
) -> Result<(Rest, Tally<L, P>), Stopped<C::Fault>> {
    let room = (taker.workers as usize).max(1);
    let Ok((rights_to, rights)) = crossbeam_channel::bounded(alloc, room) else {
        return Err(Stopped::Memory);
    };
    let Ok((to, jobs)) = crossbeam_channel::bounded(alloc, room) else {
        return Err(Stopped::Memory);
    };
    let Ok((ends, ended)) = pair(alloc) else {
        return Err(Stopped::Memory);
    };
    let hall = Hall {
        rt,
        alloc,
        machine,
        rights: &rights,
        jobs: &jobs,
        ends: &ends,
        backlog,
        register,
    };
    run(&hall, rest, connections, rights_to, to, &ended, taker)
}

fn run<
    'x,
    R: Threads + Wait + Sync,
    M: Machine + Sync,
    C: Connections,
    L: Ledger + Send + Sync,
    P: Plan,
>(
    hall: &'x Hall<'x, R, C::Reader, C::Writer, M, C::Gone, L>,
    rest: Rest,
    connections: &mut C,
    rights_to: Sender<Right<L>, Global>,
    to: Sender<(), Global>,
    ended: &Endings,
    taker: Taker<L, P>,
) -> Result<(Rest, Tally<L, P>), Stopped<C::Fault>> {
    thread::scope(thread::scope_env(), hall.rt, |scope| {
        take_all(scope, hall, rest, connections, rights_to, to, ended, taker)
    })
}

// Starts the workers, takes all connections, and waits for all who serve them.
fn take_all<
    'x,
    E,
    R: Threads + Wait + Sync,
    M: Machine + Sync,
    C: Connections,
    L: Ledger + Send + Sync,
    P: Plan,
>(
    scope: &Scope<'x, E>,
    hall: &'x Hall<'x, R, C::Reader, C::Writer, M, C::Gone, L>,
    rest: Rest,
    connections: &mut C,
    rights_to: Sender<Right<L>, Global>,
    to: Sender<(), Global>,
    ended: &Endings,
    taker: Taker<L, P>,
) -> Result<(Rest, Tally<L, P>), Stopped<C::Fault>> {
    let (mut book, share, workers, sessions) = taker.into_parts();
    let Ok((handles, mut share)) = start_workers(scope, hall, workers, &rights_to, share) else {
        return Err(Stopped::Memory);
    };
    if handles.is_empty() {
        return Err(Stopped::Memory);
    }
    if connections.announce().is_err() {
        return Err(Stopped::Write);
    }
    let right = Right::new(share.split_off(1, 0));
    let (rest, right) = hand_out(
        hall,
        rest,
        connections,
        &to,
        ended,
        sessions,
        &mut book,
        right,
    )?;
    drop(to);
    share.merge(right.into_share());
    match join_all(hall.rt, handles, share) {
        Ok(share) => Ok((rest, Tally::new(book, share))),
        Err(AllocError) => Err(Stopped::Memory),
    }
}

// A worker that was started. It ends with its right.
type Worker<L> = JoinHandle<Result<Right<L>, AllocError>>;

// Starts so many workers, as far as they can be started, and gives each a right.
fn start_workers<
    'x,
    E,
    R: Wait + Sync,
    A: Source + Drop + Send,
    B: Sink + Drop + Send,
    M: Machine + Sync,
    G: Drop + Send,
    L: Ledger + Send + Sync,
>(
    scope: &Scope<'x, E>,
    hall: &'x Hall<'x, R, A, B, M, G, L>,
    workers: u32,
    rights_to: &Sender<Right<L>, Global>,
    mut share: Share<L>,
) -> Result<(Vec<Worker<L>>, Share<L>), AllocError>
    requires many { share.parts ≡ workers + 1 }
    requires none { share.amount ≡ 0 }
    ensures rights { IfOk result (λ r. r.1.parts + vec_len r.0 ≡ workers + 1) }
    ensures own { IfOk result (λ r. 0 < r.1.parts) }
    ensures none { IfOk result (λ r. r.1.amount ≡ 0) }
{
    let mut handles = Vec::with_capacity(hall.alloc, workers as usize)?;
    for _ in 0..workers {
        let worker = Builder::new()
            .stack_size(STACK)
            .spawn_scoped(scope, move || work(hall));
        if let Ok(handle) = worker {
            handles.push_reserved(handle);
            let right = Right::new(share.split_off(1, 0));
            if rights_to.send(hall.rt, right).is_err() {
                return Err(AllocError);
            }
        }
    }
    Ok((handles, share))
}

// Waits for the workers, and takes their rights back.
fn join_all<R: Threads, L: Ledger>(
    rt: &R,
    handles: Vec<Worker<L>>,
    mut share: Share<L>,
) -> Result<Share<L>, AllocError>
    requires none { share.amount ≡ 0 }
    ensures rights { IfOk result (λ all. all.parts ≡ share.parts + vec_len handles) }
    ensures none { IfOk result (λ all. all.amount ≡ 0) }
{
    let mut rest = handles.into_iter();
    while let Some(handle) = rest.next() {
        let right = handle.join(rt)?;
        share.merge(right.into_share());
    }
    Ok(share)
}

// Takes so many connections. Those that can be opened wait for a worker.
fn hand_out<R: Wait, C: Connections, M: Machine, L: Ledger>(
    hall: &Hall<'_, R, C::Reader, C::Writer, M, C::Gone, L>,
    rest: Rest,
    connections: &mut C,
    to: &Sender<(), Global>,
    ended: &Endings,
    count: usize,
    book: &mut Book<L>,
    right: Right<L>,
) -> Result<(Rest, Right<L>), Stopped<C::Fault>>
    ensures { OnOk result (book.new.total ≡ book.old.total + count) }
{
    let mut rest = rest;
    let mut right = right;
    for _ in 0..count {
        let now = match connections.next(&rest, ended) {
            Ok(Ok((reader, writer))) => {
                let ends = Ends::new(reader, writer);
                let connection = Connection::new(ends, right, book);
                put(hall, rest, to, connection)
            }
            Ok(Err(gone)) => file(hall, rest, Report::of_gone(gone, right, book)),
            Err(fault) => return Err(Stopped::Failed(fault)),
        };
        let Ok((again, back)) = now else {
            return Err(Stopped::Memory);
        };
        rest = again;
        right = back;
    }
    Ok((rest, right))
}

// Lets a connection wait for a worker. Where there is no memory for it, it is served at once.
fn put<R: Wait, A: Source + Drop, B: Sink + Drop, M: Machine, G: Drop, L: Ledger>(
    hall: &Hall<'_, R, A, B, M, G, L>,
    rest: Rest,
    to: &Sender<(), Global>,
    connection: Connection<A, B, L>,
) -> Result<(Rest, Right<L>), AllocError> {
    let mut turn = rest.into_turn();
    let mut backlog = hold(&mut turn, hall.backlog, hall.rt);
    let put = backlog.put(connection);
    let_go(&mut turn, backlog);
    let rest = Rest::of(turn);
    match put {
        Ok(right) => {
            send(&rest, hall.rt, to);
            Ok((rest, right))
        }
        Err(connection) => serve_one(hall, rest, connection),
    }
}

// Tells one who waits that a connection came. The thread holds nothing meanwhile. Where nobody is left to be told, that waits till the end.
fn send<R: Wait>(_rest: &Rest, rt: &R, to: &Sender<(), Global>) {
    let _sent = to.send(rt, ());
}

// Serves connections until no more come.
fn work<R: Wait, A: Source + Drop, B: Sink + Drop, M: Machine, G: Drop, L: Ledger>(
    hall: &Hall<'_, R, A, B, M, G, L>,
) -> Result<Right<L>, AllocError> {
    let mut rest = Rest::begin();
    let Ok(mut right) = receive(&rest, hall.rt, hall.rights) else {
        return Err(AllocError);
    };
    for _ in hall.rt.forever() {
        let Ok(()) = receive(&rest, hall.rt, hall.jobs) else {
            return Ok(right);
        };
        (rest, right) = serve_next(hall, rest, right)?;
        hall.ends.tell(hall.rt);
    }
    unreachable!()
}

// Serves the connection that has waited longest, if there is one.
fn serve_next<R: Wait, A: Source + Drop, B: Sink + Drop, M: Machine, G: Drop, L: Ledger>(
    hall: &Hall<'_, R, A, B, M, G, L>,
    rest: Rest,
    right: Right<L>,
) -> Result<(Rest, Right<L>), AllocError> {
    let mut turn = rest.into_turn();
    let mut backlog = hold(&mut turn, hall.backlog, hall.rt);
    let taken = backlog.take(right);
    let_go(&mut turn, backlog);
    let rest = Rest::of(turn);
    match taken {
        Ok(connection) => serve_one(hall, rest, connection),
        Err(right) => Ok((rest, right)),
    }
}

// Serves a connection, and files what became of it.
fn serve_one<R: Wait, A: Source + Drop, B: Sink + Drop, M: Machine, G: Drop, L: Ledger>(
    hall: &Hall<'_, R, A, B, M, G, L>,
    rest: Rest,
    connection: Connection<A, B, L>,
) -> Result<(Rest, Right<L>), AllocError> {
    let (report, rest) = connection.serve(hall.rt, rest, hall.alloc, hall.machine);
    file(hall, rest, report)
}

fn file<R: Wait, A: Source + Drop, B: Sink + Drop, M: Machine, G: Drop, L: Ledger>(
    hall: &Hall<'_, R, A, B, M, G, L>,
    rest: Rest,
    report: Report<A, B, M, G, L>,
) -> Result<(Rest, Right<L>), AllocError> {
    let mut turn = rest.into_turn();
    let mut register = hold(&mut turn, hall.register, hall.rt);
    let right = register.file(report);
    let_go(&mut turn, register);
    Ok((Rest::of(turn), right?))
}

// Serves the connections that nobody took, and closes the count: all that came have ended.
fn end<R: Wait, A: Source + Drop, B: Sink + Drop, M: Machine, G: Drop, L: Ledger, P: Plan>(
    rt: &R,
    rest: Rest,
    alloc: Global,
    machine: &M,
    backlog: Backlog<A, B, L>,
    register: Register<A, B, M, G, L>,
    tally: Tally<L, P>,
) -> Result<Vec<Entry<A, B, M, G>>, AllocError>
    requires { L.parts ≡ P.rights }
    ensures { IfOk result (λ entries. length entries.items ≡ P.sessions) }
{
    let mut rest = rest;
    let mut backlog = backlog;
    let mut register = register;
    let (open, mut right) = tally.part_with_right();
    for _ in rt.forever() {
        match backlog.take(right) {
            Ok(connection) => {
                let (report, again) = connection.serve(rt, rest, alloc, machine);
                rest = again;
                right = register.file(report)?;
            }
            Err(back) => return Ok(close(backlog, register, open, back)),
        }
    }
    unreachable!()
}

// All that came have ended, as the rights say that are back.
fn close<A: Source + Drop, B: Sink + Drop, M: Machine, G: Drop, L: Ledger, P: Plan>(
    backlog: Backlog<A, B, L>,
    register: Register<A, B, M, G, L>,
    open: OpenTally<L, P>,
    right: Right<L>,
) -> Vec<Entry<A, B, M, G>>
    requires none { length backlog.waiting.items ≡ 0 }
    requires rights { L.parts ≡ P.rights }
    ensures { length result.items ≡ P.sessions }
{
    let (list, mut share) = register.into_parts();
    share.merge(backlog.into_share());
    share.merge(right.into_share());
    open.close(share);
    list
}
