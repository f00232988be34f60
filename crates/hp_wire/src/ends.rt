//! What lines are read from and replies are written to.
ghost use Rattle.std.specs.Prelude.{◌≡◌, ◌<◌, ℕ, ℤ, List, None, Option, length, IsOk, IfOk, IfErr, OnErr, OnOk};
ghost use Rattle.std.specs.Io.{ReadsAtMost, WritesAtMost};
ghost use Rattle.std.specs.Io.KnownBytes.{ReadConsumes, WriteAppends};
ghost use Rattle.hp_wire.specs.Reading.{IsGiven};
ghost use Rattle.hp_wire.specs.Sent.{IsBroken, Writes, WritesFront};

use crate::fault::RunFault;
use std::io;
use std::io::{Read, Stderr, Stdin, Stdout, Write};

/// A reader that says whether a read of it can fail, and what its reads gave.
pub trait Source: Read {
    /// No read fails from here on.
    ghost is_sure: { Self → Type 0 } = { λ _. ⊥ };

    /// The connection that it is an end of, if it is one of a connection.
    ghost connection: { Self → Option ℤ } = { λ _. None };

    /// All bytes that its reads gave, where these are known.
    ghost heard: { Self → Option (List ℕ) } = { λ _. None };

    /// The last read gave no byte, and there was room for one.
    ghost is_over: { Self → Type 0 } = { λ _. Unit {0} };

    /// The last read failed.
    ghost has_failed: { Self → Type 0 } = { λ _. Unit {0} };

    /// Reads some bytes to the front of the buffer, and none at the end alone, as `read` does.
    fn read_some(&mut self, buf: &mut [u8]) -> io::Result<usize>
        ensures bound { ReadsAtMost result buf.new }
        ensures bytes { ReadConsumes (Self.remaining self.old) (Self.remaining self.new)
            result buf.new }
        ensures heard { IsGiven (heard self.old) (heard self.new) result buf.new }
        ensures over { IfOk result (λ n. n ≡ 0 → 0 < length buf.new → is_over self.new) }
        ensures failed { OnErr result (has_failed self.new) }
        ensures connection { connection self.new ≡ connection self.old }
        ensures sure { is_sure self.old → IsOk result }
        ensures stays { is_sure self.old → is_sure self.new };
}

/// A writer that says whether a write to it can fail.
pub trait Sink: Write {
    /// No write fails from here on, and one of a byte or more writes at least one.
    ghost is_sure: { Self → Type 0 } = { λ _. ⊥ };

    /// A borrow that the writer was given, which no write changes: its name, and the bytes that were there.
    ghost lent: { Self → Option (ℕ × List ℕ) } = { λ _. None };

    /// The connection that it is an end of, if it is one of a connection.
    ghost connection: { Self → Option ℤ } = { λ _. None };

    /// The last write failed, or took none of the bytes that it was given.
    ghost has_failed: { Self → Type 0 } = { λ _. Unit {0} };

    /// Writes some of the bytes from the front on, and says how many, as `write` does.
    fn write_some(&mut self, buf: &[u8]) -> io::Result<usize>
        ensures bound { WritesAtMost result buf.now }
        ensures bytes { WriteAppends (Self.contents self.old) (Self.contents self.new)
            result buf.now }
        ensures sure { is_sure self.old → IsOk result }
        ensures some { is_sure self.old → 0 < length buf.now → IfOk result (λ n. 0 < n) }
        ensures failed { IsBroken result buf.now (has_failed self.new) }
        ensures stays { is_sure self.old → is_sure self.new }
        ensures lent { lent self.new ≡ lent self.old }
        ensures connection { connection self.new ≡ connection self.old };

    /// Whether replies that wait are to be written before more lines are done. It is asked before the first work behind a
    /// write, and as work goes on.
    fn is_due(&mut self) -> bool
        ensures bytes { Self.contents self.new ≡ Self.contents self.old }
        ensures stays { is_sure self.old → is_sure self.new }
        ensures lent { lent self.new ≡ lent self.old }
        ensures connection { connection self.new ≡ connection self.old }
    {
        false
    }
}

impl Source for &[u8] {
    ghost is_sure = { λ _. Unit {0} };

    fn read_some(&mut self, buf: &mut [u8]) -> io::Result<usize> {
        self.read(buf)
    }
}

impl Sink for Vec<u8> {
    fn write_some(&mut self, buf: &[u8]) -> io::Result<usize> {
        self.write(buf)
    }
}

impl Source for Stdin {
    fn read_some(&mut self, buf: &mut [u8]) -> io::Result<usize> {
        self.read(buf)
    }
}

impl Sink for Stdout {
    fn write_some(&mut self, buf: &[u8]) -> io::Result<usize> {
        self.write(buf)
    }
}

impl Sink for Stderr {
    fn write_some(&mut self, buf: &[u8]) -> io::Result<usize> {
        self.write(buf)
    }
}

/// Writes all the bytes. `Write` says that a write failed or took none of them; then a front of the
/// bytes is written.
pub fn write_whole<W: Sink>(writer: &mut W, bytes: &[u8]) -> Result<(), RunFault>
    ensures sent { OnOk result (Writes W.contents writer.old writer.new bytes.now) }
    ensures cut { IfErr result (WritesFront W.contents writer.old writer.new bytes.now) }
    ensures failed { OnErr result (W.has_failed writer.new) }
    ensures sure { W.is_sure writer.old → IsOk result }
    ensures stays { W.is_sure writer.old → W.is_sure writer.new }
    ensures lent { W.lent writer.new ≡ W.lent writer.old }
    ensures connection { W.connection writer.new ≡ W.connection writer.old }
{
    let mut at = 0;
    while at < bytes.len() {
        match writer.write_some(&bytes[at..]) {
            Ok(n) if n > 0 => at += n,
            _ => return Err(RunFault::Write),
        }
    }
    Ok(())
}
