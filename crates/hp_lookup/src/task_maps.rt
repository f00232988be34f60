//! A task's maps by number.
ghost use Rattle.std.specs.Prelude.{◌≡◌, [], ℕ, ◌<◌, ◌≤◌, false, true, length, IfErr, IfOk, IfNone, OnErr, OnOk};
ghost use Rattle.std.specs.List.Sorted.{IsStrictlyIncreasing};
ghost use Rattle.hp_model.specs.Lists.{is_among};
ghost use Rattle.hp_lookup.specs.Table.{AreNumbers, IsGap, IsLessBy, IsMoreBy, IsPlace};

use crate::map_tag::MapTag;
use crate::tagged::Tagged;
use std::alloc::{AllocError, Global};
use std::cell::Cell;
use std::marker::Model;

/// A task's maps: their numbers in order, from 1 on, and beside each its map's tag. Contracts see the numbers.
#[derive(Drop)]
pub struct TaskMaps {
    maps: Vec<Tagged<u64, MapTag>>,
}

impl Model for TaskMaps {
    ghost use Rattle.std.specs.Prelude.{List, ℕ};
    ghost use Rattle.hp_lookup.specs.Table.{AreNumbers};

    ghost Value = { List ℕ };

    ghost view = { λ t. t.maps.items };

    ghost invariant = { λ t. AreNumbers t.maps.items };
}

// Where a number is, or would be. Mostly a task has all numbers below.
fn place_of(maps: &[Tagged<u64, MapTag>], number: u64) -> Result<usize, usize>
    requires { IsStrictlyIncreasing maps.now }
    ensures ok { IfOk result (IsPlace maps.now number) }
    ensures err { IfErr result (IsGap maps.now number) }
{
    let likely = number.wrapping_sub(1) as usize;
    if likely < maps.len() && *maps[likely].key() == number {
        return Ok(likely);
    }
    maps.binary_search_by_key(&number, |noted| *noted.key())
}

impl TaskMaps {
    /// No map. Takes no memory.
    pub fn new(alloc: Global) -> Self
        ensures { result ≡ [] }
    {
        TaskMaps {
            maps: Vec::new(alloc),
        }
    }

    /// How many maps there are.
    pub fn len(&self) -> usize
        ensures { result ≡ length self.now }
    {
        self.maps.len()
    }

    /// The same numbers and tags once more. Refused where memory is.
    pub fn copy(&self, alloc: Global) -> Result<Self, AllocError>
        ensures { IfOk result (λ copy. copy ≡ self.now) }
    {
        let maps = self.maps.as_slice();
        let mut copy = Vec::with_capacity(alloc, maps.len())?;
        for noted in maps {
            copy.push_reserved(Tagged::new(*noted.key(), noted.tag().get()));
        }
        Ok(TaskMaps { maps: copy })
    }

    /// The number at a place of those in order.
    pub fn nth(&self, at: usize) -> Option<u64> {
        match self.maps.get(at) {
            Some(noted) => Some(*noted.key()),
            None => None,
        }
    }

    /// The tag of the map of a number.
    #[inline(always)]
    pub fn find(&self, number: u64) -> Option<&Cell<MapTag>>
        ensures { IfNone result (is_among number self.now ≡ false) }
    {
        match place_of(&self.maps, number) {
            Ok(at) => Some(self.maps[at].tag()),
            Err(_) => None,
        }
    }

    /// The least number from 1 on that no map has. It is found in some twelve steps.
    pub fn least_unused(&self) -> u64
        ensures one { 1 ≤ result }
        ensures used { (k : ℕ) → 1 ≤ k → k < result → is_among k self.now ≡ true }
        ensures free { is_among result self.now ≡ false }
    {
        least_missing(&self.maps)
    }

    /// Notes a map. Refused where memory is, and then nothing changes.
    pub fn note(&mut self, number: u64, tag: MapTag) -> Result<(), AllocError>
        requires { 1 ≤ number }
        ensures ok { OnOk result (IsMoreBy number self.old self.new) }
        ensures some { OnOk result (0 < length self.new) }
        ensures err { OnErr result (self.new ≡ self.old) }
    {
        match place_of(&self.maps, number) {
            Ok(at) => self.maps[at].tag().set(tag),
            Err(at) => {
                if self.maps.insert(at, Tagged::new(number, tag)).is_err() {
                    return Err(AllocError);
                }
            }
        }
        Ok(())
    }

    /// Forgets a map.
    pub fn forget(&mut self, number: u64)
        ensures { IsLessBy number self.old self.new }
    {
        if let Ok(at) = place_of(&self.maps, number) {
            self.maps.remove(at);
        }
    }
}

// The least number from 1 on that is not among numbers in order.
fn least_missing(maps: &[Tagged<u64, MapTag>]) -> u64
    requires { AreNumbers maps.now }
    ensures one { 1 ≤ result }
    ensures used { (k : ℕ) → 1 ≤ k → k < result → is_among k maps.now ≡ true }
    ensures free { is_among result maps.now ≡ false }
{
    let mut low = 0;
    let mut high = maps.len();
    while low < high {
        let mid = low + (high - low) / 2;
        if *maps[mid].key() == mid as u64 + 1 {
            low = mid + 1;
        } else {
            high = mid;
        }
    }
    low as u64 + 1
}
