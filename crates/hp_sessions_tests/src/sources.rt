//! A source of connections that fails.
ghost use Rattle.std.specs.Prelude.{Some};

use crate::machine::{Runs, Tested};
use crate::over_tcp::serves;
use crate::same::same;
use crate::stage::{SMALL, Scene, Stage, both};
use crate::talking::same_text;
use hp_order::Rest;
use hp_serving::{Connections, Endings};
use hp_wire::ends::{Sink, Source};
use hp_wire::written::Written;
use std::io;
use std::io::{Read, Write};
use std::sync::atomic::{AtomicU64, Ordering};

// A reader of lines that stand in memory.
#[derive(Drop)]
struct Lines<'a> {
    left: &'a [u8],
    heard: Written,
}

impl Read for Lines<'_> {
    fn read(&mut self, buf: &mut [u8]) -> io::Result<usize> {
        self.left.read(buf)
    }
}

impl Source for Lines<'_> {
    ghost heard = { λ reader. Some reader.heard.bytes };

    fn read_some(&mut self, buf: &mut [u8]) -> io::Result<usize> {
        let len = self.left.read(buf)?;
        self.heard = Written::with(&self.heard, &buf[..len]);
        Ok(len)
    }
}

// A writer that counts what it takes.
#[derive(Drop)]
struct Counts<'a> {
    bytes: &'a AtomicU64,
    written: Written,
}

impl Write for Counts<'_> {
    ghost contents = { λ writer. Some writer.written.bytes };

    fn write(&mut self, buf: &[u8]) -> io::Result<usize> {
        let _before = self.bytes.fetch_add(buf.len() as u64, Ordering::SeqCst);
        self.written = Written::with(&self.written, buf);
        Ok(buf.len())
    }

    fn flush(&mut self) -> io::Result<()> {
        Ok(())
    }
}

impl Sink for Counts<'_> {
    fn write_some(&mut self, buf: &[u8]) -> io::Result<usize> {
        self.write(buf)
    }
}

// Connections that send these inputs. Behind the last the source fails.
#[derive(Drop)]
struct InMemory<'a> {
    inputs: &'a [&'a [u8]],
    sent: usize,
    bytes: &'a AtomicU64,
}

impl<'a> Connections for InMemory<'a> {
    type Reader = Lines<'a>;

    type Writer = Counts<'a>;

    type Gone = ();

    type Fault = io::Error;

    fn next(
        &mut self,
        _rest: &Rest,
        _ended: &Endings,
    ) -> io::Result<Result<(Lines<'a>, Counts<'a>), ()>> {
        let Some(input) = self.inputs.get(self.sent) else {
            return Err(io::Error::from(io::ErrorKind::Other));
        };
        self.sent += 1;
        let lines = Lines {
            left: *input,
            heard: Written::new(),
        };
        let counts = Counts {
            bytes: self.bytes,
            written: Written::new(),
        };
        Ok(Ok((lines, counts)))
    }
}

const INPUTS: [&[u8]; 2] = [b"nr 4\nload 1 0 1 0 0 2\nbad\n", b"nr 4\n"];

// The sessions that came before are served, the fault is named, and nothing is printed.
pub fn failed<R: Runs, M: Tested + Sync>(rt: &R, stage: Stage<'_, M, R>) {
    let Stage {
        machine,
        alloc,
        draws: _,
        audit: _,
    } = stage;
    let bytes = AtomicU64::new(0);
    let mut connections = InMemory {
        inputs: &INPUTS,
        sent: 0,
        bytes: &bytes,
    };
    let mut machine = Some(machine);
    let end = serves(rt, alloc, &mut machine, &mut connections, 3).expect(rt, "a machine");
    if let Some(machine) = machine {
        machine.abandon();
    }
    same!(rt; (end.status, bytes.load(Ordering::SeqCst)), (1, 5 + 19 + 17 + 5));
    same_text(rt, &end.output, "");
    same_text(rt, &end.faults, "hugetlbd: network failed\n");
}

#[test]
fn a_source_that_fails(rt: HostRuntime) {
    both(&rt, rt.alloc(), SMALL, Scene::Fails);
}
