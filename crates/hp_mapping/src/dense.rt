//! Places that are written from the first one up to the last one that is touched.
ghost use Rattle.std.specs.Prelude.{◌≡◌, ◌+◌, ◌-◌, ◌<◌, ◌≤◌, ◌++◌, length, map, replicate, slice_index_or, vec_capacity, vec_len, IsTrue, IsSome, IfOk};
ghost use Rattle.hp_model.specs.declared.place.Place.TheVariants.{Gone};
ghost use Rattle.hp_model.specs.files.Mapping.{is_live, copy_of, is_unconsumed, without_copy, unconsumed};
ghost use Rattle.hp_mapping.specs.Mapped.{at_index, consumed, fresh, with_fresh, IsPlaceRun, Leaves, SetsCopy};

use crate::packed_place::{PackedPlace, all_forked, copy_in};
use hp_model::page_no::PageNo;
use std::alloc::{AllocError, Global};
use std::marker::Model;

/// Places, counted from 0. There is memory for all of them, but only those up to the last one that was ever touched
/// stand in it: those behind are fresh. Contracts see all.
#[derive(Drop)]
pub(crate) struct Dense {
    touched: Vec<PackedPlace>,
    // how many places there are
    count: usize,
}

impl Model for Dense {
    ghost use Rattle.std.specs.Prelude.{ℕ, List, length, ◌≤◌, vec_capacity};
    ghost use Rattle.hp_model.specs.declared.place.Place.{Place};
    ghost use Rattle.hp_mapping.specs.Mapped.{with_fresh};

    ghost Value = { List (Place ℕ) };

    ghost view = { λ r. with_fresh r.count r.touched.items };

    ghost invariant = { λ r. (length r.touched.items ≤ r.count)
        × (r.count ≤ vec_capacity r.touched) };
}

impl Dense {
    /// So many fresh places.
    pub(crate) fn new(alloc: Global, count: usize) -> Result<Self, AllocError>
        ensures { IfOk result (λ r. r ≡ replicate count fresh) }
    {
        let touched = Vec::with_capacity(alloc, count)?;
        Ok(Dense { touched, count })
    }

    /// The places of a child's map.
    pub(crate) fn forked(&self, alloc: Global) -> Result<Self, AllocError>
        ensures { IfOk result (λ r. r ≡ map unconsumed self.now) }
    {
        let touched = all_forked(alloc, &self.touched, self.count)?;
        Ok(Dense {
            touched,
            count: self.count,
        })
    }

    pub(crate) fn len(&self) -> usize
        ensures { result ≡ length self.now }
    {
        self.count
    }

    /// The places from one that has a copy up to the last one that was ever touched.
    pub(crate) fn run_from(&self, at: usize) -> &[PackedPlace]
        requires { IsSome (copy_of (slice_index_or self.now at Gone)) }
        ensures { IsPlaceRun at self.now result.now }
    {
        &self.touched[at..]
    }

    pub(crate) fn is_live(&self, at: usize) -> bool
        ensures { result ≡ is_live (slice_index_or self.now at Gone) }
    {
        match self.touched.get(at) {
            Some(place) => place.is_live(),
            None => at < self.count,
        }
    }

    pub(crate) fn is_unconsumed(&self, at: usize) -> bool
        ensures { result ≡ is_unconsumed (slice_index_or self.now at Gone) }
    {
        match self.touched.get(at) {
            Some(place) => place.is_unconsumed(),
            None => at < self.count,
        }
    }

    pub(crate) fn copy_at(&self, at: usize) -> Option<PageNo>
        ensures { result ≡ copy_of (slice_index_or self.now at Gone) }
    {
        copy_in(self.touched.get(at)?)
    }

    pub(crate) fn consume(&mut self, at: usize)
        requires { at < length self.old }
        ensures { self.new ≡ at_index consumed at self.old }
    {
        write_up_to(&mut self.touched, at);
        self.touched[at].consume();
    }

    /// Says whether the place had no copy.
    pub(crate) fn set_copy(&mut self, at: usize, page: PageNo) -> bool
        requires { at < length self.old }
        ensures { SetsCopy at page self.old self.new result }
    {
        write_up_to(&mut self.touched, at);
        self.touched[at].set_copy(page)
    }

    pub(crate) fn drop_copy(&mut self, at: usize)
        requires { IsSome (copy_of (slice_index_or self.old at Gone)) }
        ensures { self.new ≡ at_index without_copy at self.old }
    {
        self.touched[at].drop_copy();
    }

    /// Says whether the place's reservation was there.
    pub(crate) fn leave(&mut self, at: usize) -> bool
        requires { at < length self.old }
        ensures { Leaves at self.old self.new result }
    {
        write_up_to(&mut self.touched, at);
        self.touched[at].leave()
    }
}

// The places up to this one are written.
fn write_up_to(places: &mut Vec<PackedPlace>, at: usize)
    requires { at < vec_capacity places.old }
    ensures items { places.new.items ≡ places.old.items
        ++ replicate (at + 1 - length places.old.items) fresh }
    ensures within { at < vec_len places.new }
    ensures capacity { vec_capacity places.new ≡ vec_capacity places.old }
{
    while places.len() <= at {
        places.push_reserved(PackedPlace::fresh());
    }
}
