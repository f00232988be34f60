//! The bytes that were read and wait to be answered.
ghost use Rattle.std.specs.Prelude.{◌≡◌, ◌+◌, ◌-◌, ◌<◌, ◌≤◌, [], drop, length, take, IfErr, IfOk, IsOk, OnErr};
ghost use Rattle.std.specs.Io.KnownBytes.{IsAtEnd};
ghost use Rattle.hp_wire.specs.Unanswered.{FailsToRead, Gets};

use crate::ends::Source;
use crate::fault::RunFault;
use hp_model::profile::MOST_LINE_BYTES;
use std::alloc::{AllocError, Global};
use std::marker::Model;

const ROOM: usize = 65_536;

/// Bytes at the front of a buffer.
#[derive(Drop)]
pub struct Unanswered {
    buffer: Vec<u8>,
    end: usize,
}

impl Model for Unanswered {
    ghost use Rattle.std.specs.Prelude.{◌≡◌, ◌≤◌, ℕ, List, length, take};

    ghost Value = { List ℕ };

    ghost view = { λ u. take u.end u.buffer.items };

    ghost invariant = { λ u. (length u.buffer.items ≡ 65536) × (u.end ≤ 65536) };
}

impl Unanswered {
    /// No bytes yet. All memory for them is asked for here.
    pub fn new(alloc: Global) -> Result<Unanswered, AllocError>
        ensures { IfOk result (λ unanswered. unanswered ≡ []) }
    {
        let buffer = vec![in alloc; 0u8; ROOM]?;
        Ok(Unanswered { buffer, end: 0 })
    }

    /// The bytes.
    pub fn bytes(&self) -> &[u8]
        ensures { result.now ≡ self.now }
    {
        &self.buffer[..self.end]
    }

    /// Reads at most so many bytes more, and says how many; none at the input's end alone.
    pub fn read<R: Source>(&mut self, reader: &mut R, most: usize) -> Result<usize, RunFault>
        requires { length self.old ≤ 1025 }
        ensures got { IfOk result (Gets self.old self.new
            (R.remaining reader.old, R.heard reader.old)
            (R.remaining reader.new, R.heard reader.new)) }
        ensures bound { IfOk result (λ n. n ≤ most) }
        ensures end { IfOk result (λ n. n ≡ 0 → 0 < most
            → IsAtEnd (R.remaining reader.new)) }
        ensures over { IfOk result (λ n. n ≡ 0 → 0 < most → R.is_over reader.new) }
        ensures err { IfErr result (FailsToRead
            (R.remaining reader.old, R.heard reader.old)
            (R.remaining reader.new, R.heard reader.new)) }
        ensures failed { OnErr result (R.has_failed reader.new) }
        ensures connection { R.connection reader.new ≡ R.connection reader.old }
        ensures sure { R.is_sure reader.old → IsOk result }
        ensures stays { R.is_sure reader.old → R.is_sure reader.new }
    {
        let end = self.end;
        let room = (ROOM - end).min(most);
        match reader.read_some(&mut self.buffer[end..end + room]) {
            Ok(n) => {
                self.end += n;
                Ok(n)
            }
            Err(_) => Err(RunFault::Read),
        }
    }

    /// Keeps the last so many bytes alone, or the first 1,025 of these: they stand for a line that is too long.
    pub fn keep_last(&mut self, left: usize)
        requires { left ≤ length self.old }
        ensures { self.new ≡ take 1025 (drop (length self.old - left) self.old) }
    {
        let from = self.end - left;
        self.end = left.min(MOST_LINE_BYTES + 1);
        move_to_front(&mut self.buffer, from, self.end);
    }
}

fn move_to_front(buffer: &mut [u8], from: usize, n: usize)
    requires { from + n ≤ length buffer.old }
    ensures { take n buffer.new ≡ take n (drop from buffer.old) }
{
    buffer.copy_within(from..from + n, 0);
}
