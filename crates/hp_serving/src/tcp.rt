//! Connections over TCP.
ghost use Rattle.std.specs.Prelude.{◌≡◌, ◌<◌, [], IfOk, IfSome, OnErr, Some, length, true};
ghost use Rattle.std.specs.Io.{ReadsAtMost, WritesAtMost};
ghost use Rattle.std.specs.Io.KnownBytes.{WriteAppends};
ghost use Rattle.std.specs.Net.Tcp.{stream_raw_fd};
ghost use Rattle.hp_wire.specs.Reading.{IsGiven};
ghost use Rattle.hp_wire.specs.Sent.{IsBroken};
ghost use Rattle.hp_serving.specs.Tcp.{CannotRead, CannotWrite, IsOver, all_heard, all_said, reads_of, writes_to};

use crate::connections::Connections;
use crate::endings::Endings;
use crate::first_line::{FirstLine, read_on};
use hp_order::Rest;
use hp_wire::ends::{Sink, Source};
use hp_wire::written::Written;
use std::alloc::Global;
use std::io;
use std::io::{ErrorKind, Read, Write};
use std::net::{TcpListener, TcpStream};
use std::sync::{Arc, Wait};
use std::time::{Clock, Duration};

// Replies wait no longer, once work goes on, in milliseconds.
const LONGEST_WAIT: u64 = 5;

// The first pause after an error of `accept` that passes, and the longest, in milliseconds.
const FIRST_PAUSE: u64 = 10;

const LONGEST_PAUSE: u64 = 1000;

/// The end of a connection that is read. A connection whose first line is none of the protocol fails to be read, before any of
/// its lines has ended.
#[derive(Drop)]
pub struct Incoming {
    stream: Arc<TcpStream>,
    first: FirstLine,
    // Whether the client ended what it sends.
    over: bool,
    failed: bool,
    heard: Written,
}

impl Incoming {
    fn take(&mut self, buf: &mut [u8]) -> io::Result<usize>
        ensures bound { ReadsAtMost result buf.new }
        ensures heard { IsGiven (Some self.old.heard.bytes) (Some self.new.heard.bytes)
            result buf.new }
        ensures over { IfOk result (λ n. n ≡ 0 → 0 < length buf.new → self.new.over ≡ true) }
        ensures failed { OnErr result (self.new.failed ≡ true) }
        ensures same { self.new.stream ≡ self.old.stream }
    {
        let mut stream: &TcpStream = &self.stream;
        match read_on(&mut self.first, &mut stream, buf) {
            Ok(Some(len)) => {
                self.heard = Written::with(&self.heard, &buf[..len]);
                self.over = len == 0;
                Ok(len)
            }
            Ok(None) => {
                self.failed = true;
                Err(ErrorKind::InvalidData.into())
            }
            Err(error) => {
                self.failed = true;
                Err(error)
            }
        }
    }
}

impl Read for Incoming {
    fn read(&mut self, buf: &mut [u8]) -> io::Result<usize> {
        self.take(buf)
    }
}

impl Source for Incoming {
    ghost connection = { reads_of };

    ghost heard = { all_heard };

    ghost is_over = { IsOver };

    ghost has_failed = { CannotRead };

    fn read_some(&mut self, buf: &mut [u8]) -> io::Result<usize> {
        self.take(buf)
    }
}

/// The end of a connection that is written to. Where it has a clock, replies are due once work behind the last of them has gone on for
/// a while; then it is found out too whether the client has gone.
#[derive(Drop)]
pub struct Outgoing {
    // (of one type: what is known of a type that is a parameter may be known of one thread alone)
    clock: Option<HostRuntime>,
    stream: Arc<TcpStream>,
    // When work began behind the last write, or behind the last time when replies were due.
    since: Option<Duration>,
    // Whether the next write is one that was due.
    due: bool,
    // Whether a write failed, or the client was found to have gone: then nothing is written any more.
    gone: bool,
    written: Written,
}

impl Outgoing {
    fn put(&mut self, buf: &[u8]) -> io::Result<usize>
        ensures bound { WritesAtMost result buf.now }
        ensures bytes { WriteAppends (Some self.old.written.bytes) (Some self.new.written.bytes)
            result buf.now }
        ensures failed { IsBroken result buf.now (self.new.gone ≡ true) }
        ensures same { self.new.stream ≡ self.old.stream }
    {
        if self.gone {
            return Err(ErrorKind::BrokenPipe.into());
        }
        match write_again(&self.stream, buf) {
            Ok(written) => {
                self.written = Written::with(&self.written, &buf[..written]);
                self.gone = written == 0;
                self.look();
                Ok(written)
            }
            Err(error) => {
                self.gone = true;
                Err(error)
            }
        }
    }

    // After a write: one that was due tells whether the client has gone.
    fn look(&mut self)
        ensures written { self.new.written.bytes ≡ self.old.written.bytes }
        ensures gone { self.old.gone ≡ true → self.new.gone ≡ true }
        ensures same { self.new.stream ≡ self.old.stream }
    {
        if !self.due {
            self.since = None;
            return;
        }
        self.due = false;
        if let Ok(Some(_)) = self.stream.take_error() {
            self.gone = true;
        }
    }
}

impl Write for Outgoing {
    ghost contents = { all_said };

    fn write(&mut self, buf: &[u8]) -> io::Result<usize> {
        self.put(buf)
    }

    fn flush(&mut self) -> io::Result<()> {
        Ok(())
    }
}

impl Sink for Outgoing {
    ghost connection = { writes_to };

    ghost has_failed = { CannotWrite };

    fn write_some(&mut self, buf: &[u8]) -> io::Result<usize> {
        self.put(buf)
    }

    fn is_due(&mut self) -> bool {
        if self.gone {
            return true;
        }
        let Some(clock) = self.clock else {
            return false;
        };
        let Ok(now) = clock.monotonic() else {
            return true;
        };
        let since = self.since.unwrap_or(now);
        self.due = now.saturating_sub(since) >= Duration::from_millis(LONGEST_WAIT);
        self.since = Some(if self.due { now } else { since });
        self.due
    }
}

// Writes as `write` does, and again after a signal.
fn write_again(mut stream: &TcpStream, buf: &[u8]) -> io::Result<usize>
    ensures { WritesAtMost result buf.now }
{
    for _ in 0..u64::MAX {
        match stream.write(buf) {
            Err(error) if error.kind() == ErrorKind::Interrupted => {}
            written => return written,
        }
    }
    Err(ErrorKind::Interrupted.into())
}

// Both ends of a connection, over one descriptor; none where memory for them is refused.
fn ends_of(
    clock: Option<HostRuntime>,
    alloc: Global,
    stream: TcpStream,
    idle: u64,
) -> Option<(Incoming, Outgoing)>
    ensures same { IfSome result (λ ends.
        stream_raw_fd ends.0.stream.value ≡ stream_raw_fd ends.1.stream.value) }
    ensures unheard { IfSome result (λ ends. ends.0.heard.bytes ≡ []) }
    ensures unsaid { IfSome result (λ ends. ends.1.written.bytes ≡ []) }
{
    // Without it a reply may wait until the one before is acknowledged.
    let _ = stream.set_nodelay(true);
    if idle > 0 {
        let longest = Some(Duration::from_secs(idle));
        let _ = stream.set_read_timeout(longest);
        let _ = stream.set_write_timeout(longest);
    }
    let Ok(stream) = Arc::new(alloc, stream) else {
        return None;
    };
    let Ok(again) = Arc::clone(&stream) else {
        return None;
    };
    Some((
        Incoming {
            stream,
            first: FirstLine::new(),
            over: false,
            failed: false,
            heard: Written::new(),
        },
        Outgoing {
            clock,
            stream: again,
            since: None,
            due: false,
            gone: false,
            written: Written::new(),
        },
    ))
}

// What an error of `accept` asks for.
enum After {
    /// The connection was given up before it could be opened.
    Gone,
    /// Trying again at once.
    Again,
    /// Waiting: descriptors, memory or the network are wanting, or nothing came after all.
    Pause,
    /// The end: the port itself is no good.
    End,
}

// By the numbers that Linux gives to errors.
fn told_by(error: &io::Error) -> After {
    match error.raw_os_error() {
        // ECONNABORTED, EINTR
        Some(103) => After::Gone,
        Some(4) => After::Again,
        // EPERM, EAGAIN, ENOMEM, ENFILE, EMFILE, EPROTO, ENETDOWN, ENETUNREACH, ENOBUFS, EHOSTUNREACH
        Some(1 | 11 | 12 | 23 | 24 | 71 | 100 | 101 | 105 | 113) => After::Pause,
        _ => After::End,
    }
}

/// That a connection was given up by its client before it could be opened, or memory for it was refused.
#[derive(Drop)]
pub struct NotOpened {
    _by: (),
}

/// The connections that a listener accepts, and where its port is told.
#[derive(Drop)]
pub struct Listening<'a, R, P> {
    rt: &'a R,
    alloc: Global,
    listener: TcpListener,
    clock: Option<HostRuntime>,
    idle: u64,
    port_to: P,
}

impl<'a, R, P> Listening<'a, R, P> {
    pub fn new(rt: &'a R, alloc: Global, listener: TcpListener, port_to: P) -> Listening<'a, R, P> {
        Listening {
            rt,
            alloc,
            listener,
            clock: None,
            idle: 0,
            port_to,
        }
    }

    /// From here on replies are due once work behind them has gone on for 5 ms by this clock.
    pub fn write_by(&mut self, clock: HostRuntime) {
        self.clock = Some(clock);
    }

    /// From here on a session is ended whose client sends nothing, or reads no replies, for so many seconds; at 0 none is.
    pub fn end_silent(&mut self, idle: u64) {
        self.idle = idle;
    }
}

impl<'a, R: Wait + Clock, P: Sink> Connections for Listening<'a, R, P> {
    type Reader = Incoming;

    type Writer = Outgoing;

    type Gone = NotOpened;

    type Fault = io::Error;

    /// Writes the line `port <number>`.
    fn announce(&mut self) -> io::Result<()> {
        let port = self.listener.local_addr()?.port();
        writeln!(self.port_to, "port {port}")?;
        self.port_to.flush()
    }

    /// A connection that its client gave up before, or for which no memory can be had, can't be opened. Errors that pass are
    /// waited out, until another connection has ended.
    fn next(
        &mut self,
        _rest: &Rest,
        ended: &Endings,
    ) -> io::Result<Result<(Incoming, Outgoing), NotOpened>> {
        let rt = self.rt;
        let mut pause = FIRST_PAUSE;
        for _ in rt.forever() {
            let error = match self.listener.accept() {
                Ok((stream, _)) => {
                    let ends = ends_of(self.clock, self.alloc, stream, self.idle);
                    return Ok(ends.ok_or(NotOpened { _by: () }));
                }
                Err(error) => error,
            };
            match told_by(&error) {
                After::Gone => return Ok(Err(NotOpened { _by: () })),
                After::Again => {}
                After::Pause => {
                    ended.wait(rt, pause);
                    pause = pause.saturating_mul(2).min(LONGEST_PAUSE);
                }
                After::End => return Err(error),
            }
        }
        Ok(Err(NotOpened { _by: () }))
    }
}
