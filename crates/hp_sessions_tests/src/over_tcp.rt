//! Sessions over TCP, of which one is held under a lock while another goes on, with a trace and without one.

use crate::gates::{Place, Watcher};
use crate::machine::{Runs, Tested};
use crate::same::same;
use crate::stage::{SMALL, Scene, Stage, both};
use crate::talking::same_text;
use hp_serving::{Connections, Listening, Machine, serve_sessions};
use std::alloc::Global;
use std::io::{Read, Write};
use std::net::{Net, Shutdown, SocketAddr, TcpListener, TcpStream};
use std::process::Abort;
use std::time::Clock;
use std::{io, mem, thread};

const BEGIN: &[u8] =
    b"nr 4\nconnect 1 0\nconnect 2 1\nmount 1 -\nmount 2 -\ncreate 1 a\ncreate 2 b\nmap 1 1 a 0 1 shared\nmap 2 2 b 0 1 shared\n";

const BEGUN: &str = "ok 4\nok\nok\nok\nok\nok\nok\nok 1\nok 1\n";

// Of a page on each of the two slots, what the other session is told once it stored: of the first either nothing was done
// yet, or its section was.
const HELD_AT_THE_SLOT: &str =
    "ok\nok\ntext 6\nHugePages_Total:       4\nHugePages_Free:        3\nHugePages_Rsvd:        1\n\
HugePages_Surp:        0\nHugepagesize:          1 kB\nHugetlb:               4 kB\n";

const HELD_AT_THE_NODE: &str =
    "ok\nok\ntext 6\nHugePages_Total:       4\nHugePages_Free:        2\nHugePages_Rsvd:        0\n\
HugePages_Surp:        0\nHugepagesize:          1 kB\nHugetlb:               4 kB\n";

const BOTH_STORED: &str =
    "text 6\nHugePages_Total:       4\nHugePages_Free:        2\nHugePages_Rsvd:        0\n\
HugePages_Surp:        0\nHugepagesize:          1 kB\nHugetlb:               4 kB\n";

// What is printed at the end.
const ENDED: &str = "HugePages_Total:       4\nHugePages_Free:        4\nHugePages_Rsvd:        0\n\
HugePages_Surp:        0\nHugepagesize:          1 kB\nHugetlb:               4 kB\n";

const AUDITED: &str =
    "audit ok\nHugePages_Total:       4\nHugePages_Free:        4\nHugePages_Rsvd:        0\n\
HugePages_Surp:        0\nHugepagesize:          1 kB\nHugetlb:               4 kB\n";

fn connects<R: Net<Stream = TcpStream> + Abort>(rt: &R, at: SocketAddr) -> TcpStream {
    TcpStream::connect(rt, at).expect(rt, "a connection")
}

fn sends<R: Abort>(rt: &R, stream: &TcpStream, lines: &[u8]) {
    let mut stream = stream;
    stream.write_all(lines).expect(rt, "a write");
}

fn ends<R: Abort>(rt: &R, stream: &TcpStream) {
    stream.shutdown(Shutdown::Write).expect(rt, "an end");
}

fn reads<R: Abort>(rt: &R, stream: &TcpStream, room: &mut [u8]) {
    let mut stream = stream;
    stream.read_exact(room).expect(rt, "replies");
}

// These are the next replies.
fn tells<R: Abort>(rt: &R, stream: &TcpStream, replies: &str) {
    let mut room = [0u8; 256];
    let room = &mut room[..replies.len().min(256)];
    reads(rt, stream, room);
    same_text(rt, room, replies);
}

// These lines are asked at once, and answered so.
fn asks<R: Abort>(rt: &R, stream: &TcpStream, lines: &[u8], replies: &str) {
    sends(rt, stream, lines);
    tells(rt, stream, replies);
}

// One session makes two maps. Then a second's store is held until a third's is answered.
fn holds_one<R: Net<Stream = TcpStream> + Abort + Clock>(
    rt: &R,
    at: SocketAddr,
    gate: &Watcher<'_, R>,
    holding: Holding<'_>,
) {
    let first = connects(rt, at);
    asks(rt, &first, BEGIN, BEGUN);
    ends(rt, &first);
    gate.shut(holding.place);
    let held = connects(rt, at);
    sends(rt, &held, b"store 1 1 1 0 0 11\n");
    ends(rt, &held);
    gate.await_one();
    let free = connects(rt, at);
    let lines = b"store 2 2 1 0 0 22\nconnect 3 1\nmeminfo\n";
    asks(rt, &free, lines, holding.meanwhile);
    gate.open();
    tells(rt, &held, "ok\n");
    asks(rt, &free, b"meminfo\n", BOTH_STORED);
}

/// How serving ended: the status, what was printed, and the fault.
#[derive(Drop)]
pub struct End {
    pub status: u8,
    pub output: Vec<u8>,
    pub faults: Vec<u8>,
}

/// So many sessions on two workers. The machine goes.
pub fn serves<R: Runs, M: Machine + Sync, C: Connections>(
    rt: &R,
    alloc: Global,
    machine: &mut Option<M>,
    connections: &mut C,
    sessions: usize,
) -> Option<End> {
    let machine = mem::replace(machine, None)?;
    let mut output = Vec::new(alloc);
    let mut faults = Vec::new(alloc);
    let status = serve_sessions(
        rt,
        alloc,
        machine,
        connections,
        sessions,
        2,
        &mut output,
        &mut faults,
    );
    Some(End {
        status,
        output,
        faults,
    })
}

// What listens at a free port, and the port's address.
fn listens<'a, R: Runs + Net<Stream = TcpStream, Listener = TcpListener>>(
    rt: &'a R,
    alloc: Global,
) -> (Listening<'a, R, Vec<u8>>, SocketAddr) {
    let listener = TcpListener::bind(rt, "127.0.0.1:0").expect(rt, "a port");
    let at = listener.local_addr().expect(rt, "an address");
    (Listening::new(rt, alloc, listener, Vec::new(alloc)), at)
}

// How serving ended.
fn ended<R: Abort, M: Machine>(rt: &R, machine: Option<M>, end: Option<End>) -> End {
    if let Some(machine) = machine {
        machine.abandon();
    }
    end.expect(rt, "a machine")
}

/// One session is held at a place, while another is told this.
#[derive(Clone, Copy, Drop)]
pub struct Holding<'a> {
    place: Place,
    meanwhile: &'a str,
}

impl Holding<'_> {
    pub fn play<R: Runs + Net<Stream = TcpStream, Listener = TcpListener>, M: Tested + Sync>(
        self,
        rt: &R,
        stage: Stage<'_, M, R>,
    ) {
        let Stage {
            machine,
            alloc,
            draws: gate,
            audit,
        } = stage;
        let (mut connections, at) = listens(rt, alloc);
        let mut machine = Some(machine);
        let serving = || serves(rt, alloc, &mut machine, &mut connections, 3);
        let (_told, end) = thread::join(rt, || holds_one(rt, at, gate, self), serving);
        let end = ended(rt, machine, end);
        same!(rt; end.status, 0);
        assert!(rt; gate.left() > 0, "the other session was held too");
        same_text(
            rt,
            &end.output,
            if audit.is_some() { AUDITED } else { ENDED },
        );
    }
}

// Two sessions, of which the first to open ends once the other has.
fn outlasts<R: Net<Stream = TcpStream> + Abort>(rt: &R, at: SocketAddr) {
    let first = connects(rt, at);
    asks(rt, &first, b"nr 4\n", "ok 4\n");
    let second = connects(rt, at);
    asks(rt, &second, b"nr 4\n", "ok 4\n");
    ends(rt, &second);
    let mut stream = &second;
    let _none = stream.read(&mut [0u8; 1]);
    ends(rt, &first);
}

pub fn outlasted<R: Runs + Net<Stream = TcpStream, Listener = TcpListener>, M: Tested + Sync>(
    rt: &R,
    stage: Stage<'_, M, R>,
) {
    let Stage {
        machine,
        alloc,
        draws: _,
        audit: _,
    } = stage;
    let (mut connections, at) = listens(rt, alloc);
    let mut machine = Some(machine);
    let serving = || serves(rt, alloc, &mut machine, &mut connections, 2);
    let (_told, end) = thread::join(rt, || outlasts(rt, at), serving);
    let end = ended(rt, machine, end);
    same!(rt; end.status, 0);
}

const AT_A_SLOT: Holding<'static> = Holding {
    place: Place::Slot(1),
    meanwhile: HELD_AT_THE_SLOT,
};

const AT_A_NODE: Holding<'static> = Holding {
    place: Place::Node(0),
    meanwhile: HELD_AT_THE_NODE,
};

#[test]
fn a_session_held_at_a_slot_holds_no_other(rt: HostRuntime) {
    both(&rt, rt.alloc(), SMALL, Scene::Served(AT_A_SLOT));
}

#[test]
fn a_session_held_at_a_node_holds_no_other(rt: HostRuntime) {
    both(&rt, rt.alloc(), SMALL, Scene::Served(AT_A_NODE));
}

#[test]
fn what_sessions_were_told_is_in_the_order_of_their_numbers(rt: HostRuntime) {
    both(&rt, rt.alloc(), SMALL, Scene::Outlasted);
}
