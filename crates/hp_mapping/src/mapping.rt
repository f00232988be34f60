//! The map.
ghost use Rattle.std.specs.Prelude.{◌≡◌, ℕ, ◌+◌, ◌-◌, ◌<◌, ◌≤◌, true, false, length, replicate, IsTrue, IsSome, min, IfOk, IfSome, IfNone, None};
ghost use Rattle.std.specs.List.{count_by};
ghost use Rattle.hp_model.specs.declared.place.Place.TheVariants.{Gone, Live};
ghost use Rattle.hp_model.specs.files.Mapping.{place_at, is_live, is_mapped, is_shared, copy_of, without_copy, without_range, map_for};
ghost use Rattle.hp_mapping.specs.Flags.{has_owner, has_unmapped, sharing_of_bits};
ghost use Rattle.hp_mapping.specs.Mapped.{at_place, consumed, with_copy, has_copy, has_reserve, IsClear, IsPlaceRun, reserves_in, owned_reserves, TakesLowest};

use crate::flags::MapFlags;
use crate::packed_place::PackedPlace;
use crate::places::Places;
use hp_model::page_no::PageNo;
use std::alloc::{AllocError, Global};
use std::marker::Model;

/// A task's map of a range of a file. Indices are the file's, in pages.
///
/// Its tag is its maker's own, to find it by among others. No contract speaks of it.
pub struct Mapping {
    task: u64,
    number: u64,
    start: u64,
    flags: MapFlags,
    places: Places,
    // how many reservations an owner has not consumed
    reserves: u64,
    tag: u64,
    alloc: Global,
}

impl Model for Mapping {
    ghost use Rattle.std.specs.Prelude.{ℕ, length, ◌≡◌, ◌+◌, ◌<◌, ◌^◌};
    ghost use Rattle.hp_model.specs.files.Mapping.{Mapping};
    ghost use Rattle.hp_mapping.specs.Flags.{has_owner, has_unmapped, sharing_of_bits};
    ghost use Rattle.hp_mapping.specs.Mapped.{owned_reserves};

    ghost Value = { Mapping ℕ };

    ghost view = { λ m. record {
      task = m.task;
      number = m.number;
      start = m.start;
      sharing = sharing_of_bits m.flags.0;
      owner = has_owner m.flags.0;
      unmapped = has_unmapped m.flags.0;
      places = m.places;
    } };

    ghost invariant = { λ m. m.start + length m.places < 2 ^ 64
        × m.reserves ≡ owned_reserves (has_owner m.flags.0) m.places };
}

// What drops one calls this, and need not know what it holds.
impl Drop for Mapping {
    fn drop(self) {
        let Mapping {
            task: _task,
            number: _number,
            start: _start,
            flags: _flags,
            places: _places,
            reserves: _reserves,
            tag: _tag,
            alloc: _alloc,
        } = self;
    }
}

impl Mapping {
    /// A map of the file's indices from `a` up to `b`, all live, with their reservations and no copy. It takes all
    /// the memory that the map will ever need but for a fork's.
    pub fn new(
        alloc: Global,
        tag: u64,
        task: u64,
        number: u64,
        a: u64,
        b: u64,
        flags: MapFlags,
    ) -> Result<Self, AllocError>
        requires { a ≤ b }
        ensures { IfOk result (λ m. m ≡ record {
          task = task;
          number = number;
          start = a;
          sharing = sharing_of_bits flags.0;
          owner = has_owner flags.0;
          unmapped = has_unmapped flags.0;
          places = replicate (b - a) (Live false None);
        }) }
    {
        let places = Places::new(alloc, (b - a) as usize)?;
        Ok(Mapping {
            alloc,
            tag,
            task,
            number,
            start: a,
            flags,
            places,
            reserves: if flags.is_owner() { b - a } else { 0 },
        })
    }

    pub fn tag(&self) -> u64 {
        self.tag
    }

    pub fn task(&self) -> u64
        ensures { result ≡ self.now.task }
    {
        self.task
    }

    pub fn number(&self) -> u64
        ensures { result ≡ self.now.number }
    {
        self.number
    }

    /// The first index of the range.
    pub fn start(&self) -> u64
        ensures { result ≡ self.now.start }
    {
        self.start
    }

    /// The index past the last of the range.
    pub fn end(&self) -> u64
        ensures { result ≡ self.now.start + length self.now.places }
    {
        self.start + self.places.len() as u64
    }

    pub fn is_shared(&self) -> bool
        ensures { result ≡ is_shared self.now.sharing }
    {
        self.flags.is_shared()
    }

    /// Whether the map holds its reservations itself.
    pub fn is_owner(&self) -> bool
        ensures { result ≡ self.now.owner }
    {
        self.flags.is_owner()
    }

    /// Whether a copy was taken away from the map (`mm/hugetlbfs_reserv.rst`).
    pub fn is_marked(&self) -> bool
        ensures { result ≡ self.now.unmapped }
    {
        self.flags.is_marked()
    }

    /// The places from the file's index on that stand one behind another: of a small map up to the last one that was
    /// ever touched, of a large one the rest of its chunk. They go no step beyond the range.
    pub fn run_from(&self, i: u64) -> &[PackedPlace]
        requires { IsSome (copy_of (place_at self.now i)) }
        ensures { IsPlaceRun (i - self.now.start) self.now.places result.now }
    {
        self.places.run_from((i - self.start) as usize)
    }

    /// How many copies the map has. No place is walked.
    pub fn copy_count(&self) -> u64
        ensures { result ≡ count_by has_copy self.now.places }
    {
        self.places.copy_count()
    }

    /// How many reservations the map holds itself. No place is walked.
    pub fn reserve_count(&self) -> u64
        ensures { result ≡ owned_reserves self.now.owner self.now.places }
    {
        self.reserves
    }

    /// Whether an index is left in the map.
    pub fn is_mapped(&self) -> bool
        ensures { result ≡ is_mapped self.now }
    {
        self.places.has_live()
    }

    /// Whether the file's index is in the map.
    pub fn is_live(&self, i: u64) -> bool
        ensures { result ≡ is_live (place_at self.now i) }
    {
        i >= self.start && self.places.is_live((i - self.start) as usize)
    }

    /// Whether the map holds a reservation at the file's index.
    pub fn has_reserve(&self, i: u64) -> bool
        ensures { result ≡ has_reserve self.now i }
    {
        if i < self.start || !self.flags.is_owner() {
            return false;
        }
        self.places.is_unconsumed((i - self.start) as usize)
    }

    /// The copy at the file's index.
    pub fn copy_at(&self, i: u64) -> Option<PageNo>
        ensures { result ≡ copy_of (place_at self.now i) }
    {
        if i < self.start {
            return None;
        }
        self.places.copy_at((i - self.start) as usize)
    }

    /// The reservation at the file's index is used up.
    pub fn consume(&mut self, i: u64)
        requires { IsTrue (is_live (place_at self.old i)) }
        ensures { self.new ≡ at_place consumed i self.old }
    {
        if self.has_reserve(i) {
            self.reserves -= 1;
        }
        self.places.consume((i - self.start) as usize);
    }

    /// The page is the copy at the file's index, in place of any other.
    pub fn set_copy(&mut self, i: u64, page: PageNo)
        requires { IsTrue (is_live (place_at self.old i)) }
        ensures { self.new ≡ at_place (with_copy page) i self.old }
    {
        self.places.set_copy((i - self.start) as usize, page);
    }

    /// A copy goes for good, and the map is marked.
    pub fn take_away(&mut self, i: u64)
        requires { IsSome (copy_of (place_at self.old i)) }
        ensures { self.new ≡ record (at_place without_copy i self.old) { unmapped = true } }
    {
        self.drop_copy(i);
        self.flags = self.flags.marked();
    }

    /// The lowest copy from `a` up to `b` goes, and its number is handed out.
    pub fn take_copy(&mut self, a: u64, b: u64) -> Option<PageNo>
        ensures some { IfSome result (λ page. TakesLowest a b page self.old self.new) }
        ensures none { IfNone result (IsClear a b self.old) }
        ensures unchanged { IfNone result (self.new ≡ self.old) }
    {
        let at = self.lowest_copy(a, b)?;
        let page = self.copy_at(at);
        self.drop_copy(at);
        page
    }

    /// The lowest index from `a` up to `b` that has a copy.
    pub fn lowest_copy(&self, a: u64, b: u64) -> Option<u64>
        ensures from { IfSome result (λ at. a ≤ at) }
        ensures below { IfSome result (λ at. at < b) }
        ensures copy { IfSome result (λ at. IsSome (copy_of (place_at self.now at))) }
        ensures clear { IfSome result (λ at. IsClear a at self.now) }
        ensures none { IfNone result (IsClear a b self.now) }
    {
        let from = self.offset(a);
        let to = self.offset(b);
        let at = self.places.lowest_copy(from, to)?;
        Some(self.start + at as u64)
    }

    // A copy goes.
    fn drop_copy(&mut self, i: u64)
        requires { IsSome (copy_of (place_at self.old i)) }
        ensures { self.new ≡ at_place without_copy i self.old }
    {
        self.places.drop_copy((i - self.start) as usize);
    }

    /// The file's indices from `a` up to `b` leave the map. Says how many reservations that frees. It takes a step
    /// for each index that was there.
    pub fn unmap(&mut self, a: u64, b: u64) -> u64
        requires order { a ≤ b }
        requires clear { IsClear a b self.old }
        ensures freed { result ≡ reserves_in a b self.old }
        ensures left { self.new ≡ without_range a b self.old }
    {
        let from = self.offset(a);
        let to = self.offset(b);
        let freed = self.places.leave_range(from, to);
        if !self.flags.is_owner() {
            return 0;
        }
        self.reserves -= freed;
        freed
    }

    // Where the file's index lies among the places, at most past the last.
    fn offset(&self, i: u64) -> usize
        ensures { result ≡ min (i - self.now.start) (length self.now.places) }
    {
        let offset = i.saturating_sub(self.start);
        (offset.min(self.places.len() as u64)) as usize
    }

    /// The map of a child: of the same number, range, copies and mark. It owns nothing. It takes all the memory that
    /// the child's map will ever need but for a fork's.
    pub fn fork_for(&self, tag: u64, task: u64) -> Result<Self, AllocError>
        ensures { IfOk result (λ m. m ≡ map_for task self.now) }
    {
        let places = self.places.forked(self.alloc)?;
        Ok(Mapping {
            alloc: self.alloc,
            tag,
            task,
            number: self.number,
            start: self.start,
            flags: self.flags.without_owner(),
            places,
            reserves: 0,
        })
    }
}
