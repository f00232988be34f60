//! A set of indices, kept as intervals in rising order of which no two touch.
#![tactic(auto)]

ghost use Rattle.std.specs.Prelude.{◌≡◌, ◌+◌, ◌-◌, ◌<◌, ◌≤◌, OnOk, OnErr, IfOk, IsOk};
ghost use Rattle.std.specs.FinSet as set;
ghost use Rattle.hp_region.specs.Region.{range_set, members_in, missing_members};

use spans::{Span, add_span, count_spans, ending_by, remove_span};
use std::alloc::{AllocError, Global};
use std::marker::Model;

mod spans;

/// A set of indices. `room` is how many further calls of `add` or `remove`, of any range, ask for no memory.
#[derive(Drop)]
pub struct RegionList {
    spans: Vec<Span>,
}

impl Model for RegionList {
    ghost use Rattle.std.specs.Prelude.{◌-◌, vec_len};
    ghost use Rattle.std.specs.Vec.{vec_capacity};
    ghost use Rattle.hp_region.specs.Region.{Region, region_code};
    ghost use Rattle.hp_region.specs.Spans.{indices_of, AreSpansApart};

    ghost Value = { Region };

    ghost coded = { region_code };

    ghost view = { λ r. record {
      indices = indices_of r.spans.items;
      room = vec_capacity r.spans - vec_len r.spans;
    } };

    ghost invariant = { λ r. AreSpansApart 0 r.spans.items };
}

impl RegionList {
    /// The empty set. Takes no memory.
    pub fn new(alloc: Global) -> Self
        ensures { result.indices ≡ set.empty }
    {
        RegionList {
            spans: Vec::new(alloc),
        }
    }

    /// Whether the index `i` is in the set: one binary search.
    pub fn contains(&self, i: u64) -> bool
        ensures { result ≡ set.contains self.now.indices i }
    {
        let at = ending_by(&self.spans, i);
        at < self.spans.len() && self.spans[at].start <= i
    }

    /// How many indices from `a` up to `b` are in the set.
    pub fn count(&self, a: u64, b: u64) -> u64
        ensures { result ≡ members_in self.now.indices a b }
    {
        count_spans(&self.spans, a, b)
    }

    /// How many indices from `a` up to `b` are not in the set.
    pub fn missing(&self, a: u64, b: u64) -> u64
        ensures { result ≡ missing_members self.now.indices a b }
    {
        b.saturating_sub(a) - self.count(a, b)
    }

    /// Makes room for the next `k` calls of `add` or `remove`, of any range. At an error the set stays, and no room is lost.
    pub fn make_room(&mut self, k: usize) -> Result<(), AllocError>
        ensures same { self.new.indices ≡ self.old.indices }
        ensures room { self.old.room ≤ self.new.room }
        ensures ok { OnOk result (k ≤ self.new.room) }
    {
        self.spans.reserve(k)?;
        Ok(())
    }

    /// Puts the indices from `a` up to `b` in. With no room it may ask for memory, and at an error the set stays.
    pub fn add(&mut self, a: u64, b: u64) -> Result<(), AllocError>
        ensures ok { OnOk result (self.new.indices ≡ set.union self.old.indices (range_set a b)) }
        ensures err { OnErr result (self.new.indices ≡ self.old.indices) }
        ensures in_room { 0 < self.old.room → IsOk result }
        ensures room { self.old.room ≤ self.new.room + 1 }
    {
        if a < b {
            add_span(&mut self.spans, a, b)?;
        }
        Ok(())
    }

    /// Takes the indices from `a` up to `b` out, and answers how many there were. With no room it may ask for memory,
    /// since an interval may be split, and at an error the set stays.
    pub fn remove(&mut self, a: u64, b: u64) -> Result<u64, AllocError>
        ensures count { IfOk result (λ n. n ≡ members_in self.old.indices a b) }
        ensures ok { OnOk result (self.new.indices
            ≡ set.difference self.old.indices (range_set a b)) }
        ensures err { OnErr result (self.new.indices ≡ self.old.indices) }
        ensures in_room { 0 < self.old.room → IsOk result }
        ensures room { self.old.room ≤ self.new.room + 1 }
        ensures none { members_in self.old.indices a b ≡ 0 → IsOk result × (self.new ≡ self.old) }
    {
        let count = self.count(a, b);
        if count > 0 {
            remove_span(&mut self.spans, a, b)?;
        }
        Ok(count)
    }
}
