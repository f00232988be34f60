//! Sessions over TCP, on a machine that threads share.
ghost use Rattle.std.specs.Prelude.{◌≡◌, ◌==◌, length, nat_lt, not};
ghost use Rattle.std.specs.Thread.{IsSync};
ghost use Rattle.hp_nodes.specs.Ledgers.{AreFrames};
ghost use Rattle.hp_pool.specs.Ledgers.{AreLedgers};
ghost use Rattle.hp_words.specs.Config.{IsMachineWithin, IsServing, choice_of};
ghost use Rattle.hp_program.specs.Program.{EndedBy, IsServingEndedBy};

use hp_history::{Opened, Places, Shape};
use hp_model::naming::Naming;
use hp_pool::Blanks;
use hp_program::Server;
use hp_server::{Open, Served};
use hp_serving::{Connections, Ended, Listening, ServeFault, report, serve_sessions};
use hp_shared::Shared;
use hp_wire::ends::Sink;
use hp_words::settings::{Machine, Serving};
use std::alloc::Global;
use std::io::Write;
use std::marker::Brand;
use std::net::{Ipv4Addr, Net, TcpListener, TcpStream};
use std::sync::Wait;
use std::thread::Threads;
use std::time::Clock;

/// A server over TCP. It listens at 127.0.0.1, and tells its port to `port_to`; its replies wait no longer than some milliseconds by
/// the clock.
#[derive(Drop)]
pub struct OverTcp<'a, R, P> {
    pub rt: &'a R,
    pub clock: HostRuntime,
    pub port_to: P,
}

impl<
    'a,
    R: Threads + Wait + Clock + Net<Listener = TcpListener, Stream = TcpStream> + Sync,
    P: Sink + Drop,
> Server for OverTcp<'a, R, P> {
    ghost can_serve = { λ server. IsSync R.row };

    fn serve<W: Sink, E: Sink>(
        self,
        alloc: Global,
        machine: &Machine,
        serving: Serving,
        output: &mut W,
        faults: &mut E,
    ) -> u8 {
        let Ok(listener) = TcpListener::bind(self.rt, (Ipv4Addr::LOCALHOST, serving.port)) else {
            return report(Ended::Failed(ServeFault::Network), faults);
        };
        let mut connections = Listening::new(self.rt, alloc, listener, self.port_to);
        connections.write_by(self.clock);
        connections.end_silent(serving.idle);
        serve_over(
            self.rt,
            alloc,
            machine,
            serving,
            &mut connections,
            output,
            faults,
        )
    }
}

/// Serves the sessions of these connections on a new machine, and closes it, as `Server::serve` does.
pub fn serve_over<R: Threads + Wait + Sync, C: Connections, W: Sink, E: Sink>(
    rt: &R,
    alloc: Global,
    machine: &Machine,
    serving: Serving,
    connections: &mut C,
    output: &mut W,
    faults: &mut E,
) -> u8
    requires limits { IsMachineWithin (choice_of machine.now) }
    requires serving { IsServing serving }
    ensures { IsServingEndedBy {G = C.Gone} (choice_of machine.now) serving
        (EndedBy (choice_of machine.now) serving
        C.Reader.connection C.Reader.heard C.Reader.is_over C.Reader.has_failed
        C.Writer.connection C.Writer.contents C.Writer.has_failed)
        (W.contents output.old) (W.contents output.new)
        (E.is_sure faults.old) (E.contents faults.old) (E.contents faults.new) result }
{
    if machine.ask_whole(alloc).is_err() {
        return report(Ended::Failed(ServeFault::Memory), faults);
    }
    let Ok(blanks) = Blanks::new(alloc, &machine.frames, machine.page as usize) else {
        return report(Ended::Failed(ServeFault::Memory), faults);
    };
    let shape = Shape {
        slots: machine.slots,
        nodes: machine.frames.len() as u64,
        looks: serving.room == 0,
    };
    let Ok(opened) = Opened::new(alloc, shape) else {
        return report(Ended::Failed(ServeFault::Memory), faults);
    };
    serve_kept::<Brand, R, C, W, E>(
        rt,
        alloc,
        machine,
        serving,
        blanks,
        opened,
        connections,
        output,
        faults,
    )
}

// Keeps trails where there is room for entries.
fn serve_kept<
    N: Naming + Places + Send + Sync,
    R: Threads + Wait + Sync,
    C: Connections,
    W: Sink,
    E: Sink,
>(
    rt: &R,
    alloc: Global,
    machine: &Machine,
    serving: Serving,
    blanks: Blanks,
    opened: Opened,
    connections: &mut C,
    output: &mut W,
    faults: &mut E,
) -> u8
    requires limits { IsMachineWithin (choice_of machine.now) }
    requires serving { IsServing serving }
    requires bytes { N.page_bytes ≡ machine.now.page }
    requires ledgers { AreLedgers N.Naming blanks }
    requires frames { AreFrames N.frames machine.now.frames.items }
    requires history { opened.table.shared.table_id ≡ N.history }
    requires opened { opened.shape ≡ N.shape }
    requires shape { N.shape ≡ record {
      slots = machine.now.slots;
      nodes = length machine.now.frames.items;
      looks = serving.room == 0;
    } }
    ensures { IsServingEndedBy {G = C.Gone} (choice_of machine.now) serving
        (EndedBy (choice_of machine.now) serving
        C.Reader.connection C.Reader.heard C.Reader.is_over C.Reader.has_failed
        C.Writer.connection C.Writer.contents C.Writer.has_failed)
        (W.contents output.old) (W.contents output.new)
        (E.is_sure faults.old) (E.contents faults.old) (E.contents faults.new) result }
{
    if serving.room == 0 {
        serve_on::<N, R, C, W, E, 0>(
            rt,
            alloc,
            machine,
            serving,
            blanks,
            opened,
            connections,
            output,
            faults,
        )
    } else {
        serve_on::<N, R, C, W, E, 1>(
            rt,
            alloc,
            machine,
            serving,
            blanks,
            opened,
            connections,
            output,
            faults,
        )
    }
}

// Makes the machine, serves on it and closes it. Its trails are kept where K is 1.
fn serve_on<
    N: Naming + Places + Send + Sync,
    R: Threads + Wait + Sync,
    C: Connections,
    W: Sink,
    E: Sink,
    const K: usize,
>(
    rt: &R,
    alloc: Global,
    machine: &Machine,
    serving: Serving,
    blanks: Blanks,
    opened: Opened,
    connections: &mut C,
    output: &mut W,
    faults: &mut E,
) -> u8
    requires limits { IsMachineWithin (choice_of machine.now) }
    requires serving { IsServing serving }
    requires keeps { (K == 1) ≡ nat_lt 0 serving.room }
    requires bytes { N.page_bytes ≡ machine.now.page }
    requires ledgers { AreLedgers N.Naming blanks }
    requires frames { AreFrames N.frames machine.now.frames.items }
    requires history { opened.table.shared.table_id ≡ N.history }
    requires opened { opened.shape ≡ N.shape }
    requires shape { N.shape ≡ record {
      slots = machine.now.slots;
      nodes = length machine.now.frames.items;
      looks = not (K == 1);
    } }
    ensures { IsServingEndedBy {G = C.Gone} (choice_of machine.now) serving
        (EndedBy (choice_of machine.now) serving
        C.Reader.connection C.Reader.heard C.Reader.is_over C.Reader.has_failed
        C.Writer.connection C.Writer.contents C.Writer.has_failed)
        (W.contents output.old) (W.contents output.new)
        (E.is_sure faults.old) (E.contents faults.old) (E.contents faults.new) result }
{
    let Ok(shared) = Shared::<N, K>::new(
        alloc,
        machine.frames.as_slice(),
        machine.page as usize,
        machine.slots as usize,
        serving.room,
        blanks,
        opened,
    ) else {
        return report(Ended::Failed(ServeFault::Memory), faults);
    };
    let served = Served {
        shared,
        gate: Open,
        room: serving.room,
    };
    serve_sessions(
        rt,
        alloc,
        served,
        connections,
        serving.sessions,
        serving.workers as u32,
        output,
        faults,
    )
}
