//! A client that waits for replies, and a writer that counts.

use hp_wire::ends::{Sink, Source};
use std::cell::Cell;
use std::io;
use std::io::{Read, Write};

/// A client that sends a piece at each read, and looks whether all replies to the lines before it
/// are written.
#[derive(Drop)]
pub struct Client<'a> {
    /// What it sends, and how many bytes of replies it has then got.
    pub pieces: &'a [(&'a [u8], usize)],
    pub sent: usize,
    pub wanted: usize,
    pub written: &'a Cell<usize>,
    pub hangs: bool,
}

impl Read for Client<'_> {
    fn read(&mut self, buf: &mut [u8]) -> io::Result<usize> {
        self.hangs |= self.written.get() != self.wanted;
        let Some((piece, replies)) = self.pieces.get(self.sent) else {
            return Ok(0);
        };
        self.sent += 1;
        self.wanted = *replies;
        let mut piece = *piece;
        piece.read(buf)
    }
}

impl Source for Client<'_> {
    fn read_some(&mut self, buf: &mut [u8]) -> io::Result<usize> {
        self.read(buf)
    }
}

/// A writer that counts what it takes.
#[derive(Drop)]
pub struct Counter<'a> {
    pub written: &'a Cell<usize>,
}

impl Write for Counter<'_> {
    fn write(&mut self, buf: &[u8]) -> io::Result<usize> {
        self.written
            .set(self.written.get().saturating_add(buf.len()));
        Ok(buf.len())
    }

    fn flush(&mut self) -> io::Result<()> {
        Ok(())
    }
}

impl Sink for Counter<'_> {
    fn write_some(&mut self, buf: &[u8]) -> io::Result<usize> {
        self.write(buf)
    }
}
