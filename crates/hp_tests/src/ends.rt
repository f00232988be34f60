//! Readers and writers that fail.

use hp_wire::ends::{Sink, Source};
use std::alloc::Global;
use std::io;
use std::io::{Read, Write};

/// A reader that gives a few bytes at a time, and fails after some reads.
#[derive(Drop)]
pub struct Reader<'a> {
    pub rest: &'a [u8],
    at_most: usize,
    reads: u64,
}

impl<'a> Reader<'a> {
    pub fn new(rest: &'a [u8], at_most: usize, reads: u64) -> Reader<'a> {
        Reader {
            rest,
            at_most,
            reads,
        }
    }
}

impl Read for Reader<'_> {
    fn read(&mut self, buf: &mut [u8]) -> io::Result<usize> {
        if self.reads == 0 {
            return Err(io::Error::from(io::ErrorKind::Other));
        }
        self.reads -= 1;
        let len = buf.len().min(self.at_most);
        self.rest.read(&mut buf[..len])
    }
}

impl Source for Reader<'_> {
    fn read_some(&mut self, buf: &mut [u8]) -> io::Result<usize> {
        self.read(buf)
    }
}

/// A writer that takes a few bytes at a time, and fails after some writes.
#[derive(Drop)]
pub struct Writer {
    pub text: Vec<u8>,
    at_most: usize,
    writes: u64,
}

impl Writer {
    pub fn new(alloc: Global, at_most: usize, writes: u64) -> Writer {
        Writer {
            text: Vec::new(alloc),
            at_most,
            writes,
        }
    }
}

impl Write for Writer {
    fn write(&mut self, buf: &[u8]) -> io::Result<usize> {
        if self.writes == 0 {
            return Err(io::Error::from(io::ErrorKind::Other));
        }
        self.writes -= 1;
        let len = buf.len().min(self.at_most);
        self.text.write(&buf[..len])
    }

    fn flush(&mut self) -> io::Result<()> {
        Ok(())
    }
}

impl Sink for Writer {
    fn write_some(&mut self, buf: &[u8]) -> io::Result<usize> {
        self.write(buf)
    }
}
