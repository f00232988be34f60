//! Loads, stores and faults that were read and wait.
ghost use Rattle.std.specs.Prelude.{◌≡◌, ◌≤◌, ◌<◌, [], ◌∷◌, ◌++◌, length, true, false};
ghost use Rattle.hp_model.specs.beside.Accesses.{store_step};
ghost use Rattle.hp_model.specs.beside.Queue.{DoesAll, QueuedView, access_step};
ghost use Rattle.hp_model.specs.Profile.{most_bytes};
ghost use Rattle.hp_model.specs.text.Lines.{ended};
ghost use Rattle.hp_wire.specs.Queues.{IsAdded, IsLineTaken};

use hp_model::profile::MOST_LINE_BYTES;
use hp_model::queued::{QUEUED_BYTES, Queued, Wanted};
use hp_model::service::{Access, Service};
use hp_wire_lines::accesses::{faulting, loading, storing};
use hp_wire_lines::reading::{LineKind, kind_of_line};
use std::array;
use std::marker::Model;

// How many loads, stores and faults wait at most: nobody else waits long for a slot that does as many at once.
const MOST: usize = 16;

/// Loads, stores and faults that wait, in the order of their lines.
#[derive(Drop)]
pub struct Queue {
    items: [Queued; MOST],
    count: usize,
}

impl Model for Queue {
    ghost use Rattle.std.specs.Prelude.{◌≤◌, List, take};
    ghost use Rattle.hp_model.specs.beside.Queue.{QueuedView};

    ghost Value = { List QueuedView };

    ghost view = { λ q. take q.count q.items };

    ghost invariant = { λ q. q.count ≤ 16 };
}

impl Queue {
    /// Nothing waits.
    pub fn new() -> Queue
        ensures { result ≡ [] }
    {
        Queue {
            items: array::from_fn(|_at| Queued::new()),
            count: 0,
        }
    }

    /// Whether as many wait as may.
    #[inline(always)]
    pub fn is_full(&self) -> bool
        ensures { result ≡ false → length self.now < 16 }
    {
        self.count == MOST
    }

    /// What waits.
    #[inline(always)]
    pub fn as_slice(&self) -> &[Queued]
        ensures { result.now ≡ self.now }
    {
        &self.items[..self.count]
    }

    /// Nothing waits any more.
    #[inline(always)]
    pub fn clear(&mut self)
        ensures { self.new ≡ [] }
    {
        self.count = 0;
    }

    /// Does all that waits, and notes what each was answered.
    pub fn do_all<S: Service>(&mut self, service: &mut S, room: &mut [u8])
        requires ready { S.is_ready service.old }
        requires room { most_bytes ≤ length room.old }
        ensures done { DoesAll S.may_answer service.old self.old self.new service.new }
        ensures ready { S.is_ready service.new }
    {
        let Queue { items, count } = self;
        service.do_queued(&mut items[..*count], room);
    }

    /// Takes a line that is a load, a store or a fault, and says whether it is one.
    #[inline(always)]
    pub fn take(&mut self, line: &[u8], room: &mut [u8; 512]) -> bool
        requires { length self.old < 16 }
        ensures taken { result ≡ true → IsLineTaken (ended line.now) self.old self.new }
        ensures left { result ≡ false → self.new ≡ self.old }
    {
        if line.len() > MOST_LINE_BYTES {
            return false;
        }
        match kind_of_line(line) {
            Ok(LineKind::Load(words)) => match loading(words) {
                Ok((access, count)) => {
                    self.add(access, Wanted::Load(count));
                    true
                }
                Err(_refusal) => false,
            },
            Ok(LineKind::Store(words)) => match storing(words, room) {
                Ok((access, bytes)) if bytes.len() <= QUEUED_BYTES => {
                    self.add_store(access, bytes);
                    true
                }
                _ => false,
            },
            Ok(LineKind::Fault(words)) => match faulting(words) {
                Ok((access, intent)) => {
                    self.add(access, Wanted::Fault(intent));
                    true
                }
                Err(_refusal) => false,
            },
            _ => false,
        }
    }

    // A load or a fault.
    #[inline(always)]
    fn add(&mut self, access: Access, wanted: Wanted)
        requires { length self.old < 16 }
        ensures { IsAdded (access_step access wanted []) self.old self.new }
    {
        self.items[self.count].set(access, wanted);
        self.count += 1;
    }

    #[inline(always)]
    fn add_store(&mut self, access: Access, bytes: &[u8])
        requires room { length self.old < 16 }
        requires few { length bytes.now ≤ 512 }
        ensures { IsAdded (store_step access bytes.now) self.old self.new }
    {
        self.items[self.count].set_store(access, bytes);
        self.count += 1;
    }
}
