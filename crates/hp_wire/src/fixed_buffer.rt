//! A writer into a caller's buffer, of which no write fails.
ghost use Rattle.std.specs.Prelude.{◌≡◌, ◌-◌, ◌^◌, ◌<◌, min, [], ◌++◌, length, take, IfSome, Some};
ghost use Rattle.hp_wire.specs.Filled.{buffer_filled};

use crate::ends::Sink;
use crate::written::Written;
use std::io;
use std::io::Write;

/// Writes what fits into a caller's buffer, and counts all bytes, as C's `snprintf` does. So no write fails.
#[derive(Drop)]
pub struct FixedBuffer<'a> {
    buffer: &'a mut [u8],
    count: u64,
    start: Written,
    written: Written,
    ghost holds: { buffer.now ≡ buffer_filled start.bytes written.bytes },
    ghost counted: { count ≡ min (length written.bytes) (2 ^ 64 - 1) },
}

impl<'a> FixedBuffer<'a> {
    /// Nothing is written yet.
    pub fn new(buffer: &'a mut [u8]) -> FixedBuffer<'a>
        ensures none { result.written.bytes ≡ [] }
        ensures start { result.start.bytes ≡ buffer.old }
        ensures same_reference { result.buffer.ghost_name ≡ buffer.entry.ghost_name }
    {
        let start = Written::with(&Written::new(), buffer);
        FixedBuffer {
            buffer,
            count: 0,
            start,
            written: Written::new(),
        }
    }

    /// How many bytes were written in all, those too for which there was no room. It stops at `u64::MAX`.
    pub fn count(&self) -> u64
        ensures { result ≡ min (length self.now.written.bytes) u64.MAX }
    {
        self.count
    }

    /// What was written, from the front on, as far as there is room.
    pub fn front(&self) -> &[u8]
        ensures { result.now ≡ take (length self.now.start.bytes) self.now.written.bytes }
    {
        let end = self.end();
        &self.buffer[..end]
    }

    /// All that was written, where there was room for it.
    pub fn whole(&self) -> Option<&[u8]>
        ensures there { IfSome result (λ bytes. bytes.now ≡ self.now.written.bytes) }
        ensures none { result ≡ None → length self.now.start.bytes < length self.now.written.bytes }
    {
        if self.count > self.buffer.len() as u64 {
            return None;
        }
        Some(self.front())
    }

    // Where the front ends in the buffer.
    fn end(&self) -> usize
        ensures { result ≡ min (length self.now.written.bytes) (length self.now.start.bytes) }
    {
        self.count.min(self.buffer.len() as u64) as usize
    }

    /// Writes the bytes: those that fit behind the front, and the rest of the buffer stays.
    pub fn add(&mut self, bytes: &[u8])
        ensures written { self.new.written.bytes ≡ self.old.written.bytes ++ bytes.now }
        ensures start { self.new.start.bytes ≡ self.old.start.bytes }
        ensures same_reference { self.new.buffer.ghost_name ≡ self.old.buffer.ghost_name }
    {
        let end = self.end();
        let len = bytes.len().min(self.buffer.len() - end);
        self.buffer[end..end + len].copy_from_slice(&bytes[..len]);
        self.count = self.count.saturating_add(bytes.len() as u64);
        self.written = Written::with(&self.written, bytes);
    }
}

impl Write for FixedBuffer<'_> {
    ghost contents = { λ w. Some w.written.bytes };

    fn write(&mut self, buf: &[u8]) -> io::Result<usize> {
        self.add(buf);
        Ok(buf.len())
    }

    fn flush(&mut self) -> io::Result<()> {
        Ok(())
    }
}

impl Sink for FixedBuffer<'_> {
    ghost is_sure = { λ _. Unit {0} };

    ghost lent = { λ w. Some (w.buffer.ghost_name, w.start.bytes) };

    fn write_some(&mut self, buf: &[u8]) -> io::Result<usize> {
        self.add(buf);
        Ok(buf.len())
    }
}
