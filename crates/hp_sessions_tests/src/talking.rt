//! Sessions over lines that stand in memory.

use crate::same::same;
use hp_order::Rest;
use hp_serving::Machine;
use hp_wire::ends::Source;
use std::alloc::Global;
use std::fmt::Debug;
use std::io::Read;
use std::process::Abort;
use std::sync::Wait;
use std::{io, str};

/// What a client does besides sending.
pub trait Beside {
    /// Whether it sends on, once all replies to what it sent so often are written.
    fn sends(&self, _count: usize) -> bool {
        true
    }

    /// Which piece it then sends.
    fn piece(&self, count: usize) -> usize {
        count
    }

    /// What it sends for a byte of a piece.
    fn byte(&self, byte: u8) -> u8 {
        byte
    }
}

/// Does nothing else.
#[derive(Clone, Copy, Drop)]
pub struct Nothing;

impl Beside for Nothing {}

/// A client that sends a piece at each read, and ends or fails behind the last.
#[derive(Drop)]
pub struct Client<'a, B> {
    pub pieces: &'a [&'a [u8]],
    pub sent: usize,
    pub fails: bool,
    pub by: &'a B,
}

fn changed<B: Beside>(by: &B, bytes: &mut [u8]) {
    for byte in bytes {
        *byte = by.byte(*byte);
    }
}

impl<B: Beside> Read for Client<'_, B> {
    fn read(&mut self, buf: &mut [u8]) -> io::Result<usize> {
        if !self.by.sends(self.sent) {
            return Ok(0);
        }
        let Some(piece) = self.pieces.get(self.by.piece(self.sent)) else {
            if self.fails {
                return Err(io::Error::from(io::ErrorKind::Other));
            }
            return Ok(0);
        };
        self.sent = self.sent.saturating_add(1);
        let mut piece = *piece;
        let len = piece.read(buf)?;
        changed(self.by, &mut buf[..len]);
        Ok(len)
    }
}

impl<B: Beside> Source for Client<'_, B> {
    fn read_some(&mut self, buf: &mut [u8]) -> io::Result<usize> {
        self.read(buf)
    }
}

/// A session of a client: what it was told, and its replies.
pub fn replies<R: Wait + Abort, M: Machine, B: Beside>(
    rt: &R,
    alloc: Global,
    machine: &M,
    client: &mut Client<'_, B>,
) -> (M::Told, Vec<u8>) {
    let mut text = Vec::with_capacity(alloc, 4096).expect(rt, "memory");
    let (told, _rest) = machine.serve_one(rt, Rest::begin(), alloc, client, &mut text);
    (told.expect(rt, "memory"), text)
}

/// A session of these lines, which gets these replies.
pub fn asks<R: Wait + Abort, M: Machine, B: Beside>(
    rt: &R,
    alloc: Global,
    machine: &M,
    by: &B,
    lines: &[u8],
    wanted: &str,
) -> M::Told {
    let mut client = Client {
        pieces: &[lines],
        sent: 0,
        fails: false,
        by,
    };
    let (told, text) = replies(rt, alloc, machine, &mut client);
    same_text(rt, &text, wanted);
    told
}

/// A session of a client, none of whose lines is refused.
pub fn goes_well<R: Wait + Abort, M: Machine, B: Beside, D: Debug + PartialEq + Copy + Drop>(
    rt: &R,
    alloc: Global,
    machine: &M,
    client: &mut Client<'_, B>,
    who: D,
) -> M::Told {
    let (told, text) = replies(rt, alloc, machine, client);
    same!(rt; (who, refusal(&text)), (who, ""));
    told
}

// The first refusal, if there is one.
fn refusal(text: &[u8]) -> &str {
    let text = str::from_utf8(text).unwrap_or("error");
    match text.find("error") {
        Some(at) => text.get(at..).unwrap_or("error"),
        None => "",
    }
}

/// These replies are wanted.
pub fn same_text<R: Abort>(rt: &R, text: &[u8], wanted: &str) {
    same!(rt; str::from_utf8(text).unwrap_or("none"), wanted);
}
