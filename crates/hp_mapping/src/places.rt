//! The places of a map, with marks of those that are live and of those that have a copy.
ghost use Rattle.std.specs.Prelude.{◌≡◌, ℕ, ◌<◌, ◌≤◌, true, false, length, map, replicate, slice_index_or, slice_set, IsTrue, IsSome, IfOk, IfSome, IfNone, None};
ghost use Rattle.std.specs.List.{count_by, list_any};
ghost use Rattle.hp_model.specs.declared.place.Place.TheVariants.{Gone, Live};
ghost use Rattle.hp_model.specs.Lists.{edit_range, part};
ghost use Rattle.hp_model.specs.files.Mapping.{is_live, copy_of, is_unconsumed, without_copy, unconsumed};
ghost use Rattle.hp_mapping.specs.Mapped.{at_index, consumed, has_copy, with_copy, HasNoCopy, AreGone, IsPlaceRun};

use crate::marks::Marks;
use crate::packed_place::PackedPlace;
use crate::row::Row;
use hp_model::page_no::PageNo;
use std::alloc::{AllocError, Global};
use std::marker::Model;

/// Places, counted from 0. Contracts see them alone.
#[derive(Drop)]
pub(crate) struct Places {
    places: Row,
    live: Marks,
    copies: Marks,
    // how many have a copy
    copy_count: u64,
}

impl Model for Places {
    ghost use Rattle.std.specs.Prelude.{ℕ, List};
    ghost use Rattle.hp_model.specs.declared.place.Place.{Place};
    ghost use Rattle.hp_mapping.specs.Marks.{AreCopiesCounted};

    ghost Value = { List (Place ℕ) };

    ghost view = { λ p. p.places };

    ghost invariant = { λ p. AreCopiesCounted p.copy_count p.places p.live p.copies };
}

impl Places {
    /// So many live places with their reservation and no copy.
    pub(crate) fn new(alloc: Global, count: usize) -> Result<Self, AllocError>
        ensures { IfOk result (λ p. p ≡ replicate count (Live false None)) }
    {
        let places = Row::new(alloc, count)?;
        let live = Marks::all(alloc, count)?;
        let copies = Marks::new(alloc, count)?;
        Ok(Places {
            places,
            live,
            copies,
            copy_count: 0,
        })
    }

    /// The places of a child's map.
    pub(crate) fn forked(&self, alloc: Global) -> Result<Self, AllocError>
        ensures { IfOk result (λ p. p ≡ map unconsumed self.now) }
    {
        let places = self.places.forked(alloc)?;
        let live = self.live.copied(alloc)?;
        let copies = self.copies.copied(alloc)?;
        Ok(Places {
            places,
            live,
            copies,
            copy_count: self.copy_count,
        })
    }

    pub(crate) fn len(&self) -> usize
        ensures { result ≡ length self.now }
    {
        self.places.len()
    }

    /// Places that stand one behind another, from one that has a copy on.
    pub(crate) fn run_from(&self, at: usize) -> &[PackedPlace]
        requires { IsSome (copy_of (slice_index_or self.now at Gone)) }
        ensures { IsPlaceRun at self.now result.now }
    {
        self.places.run_from(at)
    }

    /// How many have a copy. No place is walked.
    pub(crate) fn copy_count(&self) -> u64
        ensures { result ≡ count_by has_copy self.now }
    {
        self.copy_count
    }

    pub(crate) fn is_live(&self, at: usize) -> bool
        ensures { result ≡ is_live (slice_index_or self.now at Gone) }
    {
        self.places.is_live(at)
    }

    pub(crate) fn is_unconsumed(&self, at: usize) -> bool
        ensures { result ≡ is_unconsumed (slice_index_or self.now at Gone) }
    {
        self.places.is_unconsumed(at)
    }

    pub(crate) fn copy_at(&self, at: usize) -> Option<PageNo>
        ensures { result ≡ copy_of (slice_index_or self.now at Gone) }
    {
        self.places.copy_at(at)
    }

    pub(crate) fn has_live(&self) -> bool
        ensures { result ≡ list_any is_live self.now }
    {
        self.live.next(0).is_some()
    }

    pub(crate) fn consume(&mut self, at: usize)
        requires { at < length self.old }
        ensures { self.new ≡ at_index consumed at self.old }
    {
        self.places.consume(at);
    }

    pub(crate) fn set_copy(&mut self, at: usize, page: PageNo)
        requires { IsTrue (is_live (slice_index_or self.old at Gone)) }
        ensures { self.new ≡ at_index (with_copy page) at self.old }
    {
        let bare = self.places.set_copy(at, page);
        self.copy_count += u64::from(bare);
        self.copies.change(at, true);
    }

    pub(crate) fn drop_copy(&mut self, at: usize)
        requires { IsSome (copy_of (slice_index_or self.old at Gone)) }
        ensures { self.new ≡ at_index without_copy at self.old }
    {
        self.places.drop_copy(at);
        self.copies.change(at, false);
        self.copy_count -= 1;
    }

    /// The lowest place from `from` up to `to` that has a copy.
    pub(crate) fn lowest_copy(&self, from: usize, to: usize) -> Option<usize>
        ensures from { IfSome result (λ at. from ≤ at) }
        ensures below { IfSome result (λ at. at < to) }
        ensures copy { IfSome result (λ at. IsSome (copy_of (slice_index_or self.now at Gone))) }
        ensures clear { IfSome result (λ at. HasNoCopy from at self.now) }
        ensures none { IfNone result (HasNoCopy from to self.now) }
    {
        if from < to && self.copy_at(from).is_some() {
            return Some(from);
        }
        let at = self.copies.next(from)?;
        if at < to { Some(at) } else { None }
    }

    /// The lowest live place from `from` up to `to`.
    fn next_live(&self, from: usize, to: usize) -> Option<usize>
        ensures from { IfSome result (λ at. from ≤ at) }
        ensures below { IfSome result (λ at. at < to) }
        ensures live { IfSome result (λ at. IsTrue (is_live (slice_index_or self.now at Gone))) }
        ensures gone { IfSome result (λ at. AreGone from at self.now) }
        ensures none { IfNone result (AreGone from to self.now) }
    {
        let at = self.live.next(from)?;
        if at < to { Some(at) } else { None }
    }

    /// A live place without a copy leaves. Says whether its reservation was there.
    fn leave(&mut self, at: usize) -> bool
        requires live { IsTrue (is_live (slice_index_or self.old at Gone)) }
        requires clear { copy_of (slice_index_or self.old at Gone) ≡ None }
        ensures left { self.new ≡ slice_set self.old at Gone }
        ensures freed { result ≡ is_unconsumed (slice_index_or self.old at Gone) }
    {
        let freed = self.places.leave(at);
        self.live.change(at, false);
        freed
    }

    /// The places from `from` up to `to` leave, with a step for each live one. Says how many reservations that
    /// frees.
    pub(crate) fn leave_range(&mut self, from: usize, to: usize) -> u64
        requires order { from ≤ to }
        requires within { to ≤ length self.old }
        requires clear { HasNoCopy from to self.old }
        ensures freed { result ≡ count_by is_unconsumed (part from to self.old) }
        ensures left { self.new ≡ edit_range (λ p. Gone) from to self.old }
    {
        let mut freed = 0;
        let mut at = from;
        while let Some(live) = self.next_live(at, to) {
            freed += u64::from(self.leave(live));
            at = live + 1;
        }
        freed
    }
}
