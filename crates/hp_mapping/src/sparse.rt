//! Places of a large map, of which a chunk is written once a place in it is touched.
ghost use Rattle.std.specs.Prelude.{◌≡◌, ℕ, ◌+◌, ◌*◌, ◌/◌, ◌^◌, ◌<◌, ◌≤◌, ◌++◌, length, map, replicate, slice_index, slice_index_or, vec_capacity, vec_len, IsSome, IfNone, IfOk, IfSome};
ghost use Rattle.hp_model.specs.declared.place.Place.TheVariants.{Gone};
ghost use Rattle.hp_model.specs.files.Mapping.{is_live, copy_of, is_unconsumed, without_copy, unconsumed};
ghost use Rattle.hp_mapping.specs.Mapped.{at_index, consumed, fresh, IsPlaceRun, Leaves, SetsCopy};
ghost use Rattle.hp_mapping.specs.Chunks.{slot_of, IsChunked, HasChunkRoom, IsSame};

use crate::packed_place::{PackedPlace, all_forked, copy_in};
use hp_model::page_no::PageNo;
use std::alloc::{AllocError, Global};
use std::marker::Model;

// How many places stand in a chunk.
const CHUNK: usize = 64;

/// Places, counted from 0. There is memory for all of them, but only the chunks in which one was ever touched stand in
/// it, behind a chunk of fresh places, which is read for all others. Contracts see all.
#[derive(Drop)]
pub(crate) struct Sparse {
    // the chunks, one behind another: the fresh one, and then those that were touched, in the order of the first touch
    places: Vec<PackedPlace>,
    // for each chunk's worth of places which chunk they have
    homes: Vec<u32>,
    // how many places there are
    count: usize,
}

impl Model for Sparse {
    ghost use Rattle.std.specs.Prelude.{ℕ, List, length, ◌*◌, ◌^◌, ◌≤◌};
    ghost use Rattle.hp_model.specs.declared.place.Place.{Place};
    ghost use Rattle.hp_mapping.specs.Chunks.{HasChunkRoom, IsChunked, all_places};

    ghost Value = { List (Place ℕ) };

    ghost view = { λ r. all_places r.count r.homes.items r.places.items };

    ghost invariant = { λ r. IsChunked r.homes.items r.places.items
        × HasChunkRoom r.homes.items r.places × (r.count ≤ 64 * length r.homes.items)
        × (length r.homes.items ≤ 2 ^ 26) };
}

impl Sparse {
    /// So many fresh places.
    pub(crate) fn new(alloc: Global, count: usize) -> Result<Self, AllocError>
        requires { count < 2 ^ 32 }
        ensures { IfOk result (λ r. r ≡ replicate count fresh) }
    {
        let chunks = count.div_ceil(CHUNK);
        let mut places = Vec::with_capacity(alloc, CHUNK * (chunks + 1))?;
        push_fresh(&mut places);
        let homes = Vec::from_elem(alloc, 0, chunks)?;
        Ok(Sparse {
            places,
            homes,
            count,
        })
    }

    /// The places of a child's map.
    pub(crate) fn forked(&self, alloc: Global) -> Result<Self, AllocError>
        ensures { IfOk result (λ r. r ≡ map unconsumed self.now) }
    {
        let room = CHUNK * (self.homes.len() + 1);
        let places = all_forked(alloc, &self.places, room)?;
        let homes = Vec::from_slice(alloc, &self.homes)?;
        Ok(Sparse {
            places,
            homes,
            count: self.count,
        })
    }

    pub(crate) fn len(&self) -> usize
        ensures { result ≡ length self.now }
    {
        self.count
    }

    fn get(&self, at: usize) -> Option<&PackedPlace>
        ensures some { IfSome result (λ p. p.now ≡ slice_index_or self.now at Gone) }
        ensures none { IfNone result (slice_index_or self.now at Gone ≡ Gone) }
    {
        if at >= self.count {
            return None;
        }
        Some(&self.places[slot_of(&self.homes, at)])
    }

    pub(crate) fn is_live(&self, at: usize) -> bool
        ensures { result ≡ is_live (slice_index_or self.now at Gone) }
    {
        match self.get(at) {
            Some(place) => place.is_live(),
            None => false,
        }
    }

    pub(crate) fn is_unconsumed(&self, at: usize) -> bool
        ensures { result ≡ is_unconsumed (slice_index_or self.now at Gone) }
    {
        match self.get(at) {
            Some(place) => place.is_unconsumed(),
            None => false,
        }
    }

    pub(crate) fn copy_at(&self, at: usize) -> Option<PageNo>
        ensures { result ≡ copy_of (slice_index_or self.now at Gone) }
    {
        copy_in(self.get(at)?)
    }

    /// The places of a chunk from one that has a copy on.
    pub(crate) fn run_from(&self, at: usize) -> &[PackedPlace]
        requires { IsSome (copy_of (slice_index_or self.now at Gone)) }
        ensures { IsPlaceRun at self.now result.now }
    {
        let slot = slot_of(&self.homes, at);
        let len = (CHUNK - at % CHUNK).min(self.count - at);
        &self.places[slot..slot + len]
    }

    pub(crate) fn consume(&mut self, at: usize)
        requires { at < length self.old }
        ensures { self.new ≡ at_index consumed at self.old }
    {
        let slot = touch(&mut self.homes, &mut self.places, at);
        self.places[slot].consume();
    }

    /// Says whether the place had no copy.
    pub(crate) fn set_copy(&mut self, at: usize, page: PageNo) -> bool
        requires { at < length self.old }
        ensures { SetsCopy at page self.old self.new result }
    {
        let slot = touch(&mut self.homes, &mut self.places, at);
        self.places[slot].set_copy(page)
    }

    pub(crate) fn drop_copy(&mut self, at: usize)
        requires { IsSome (copy_of (slice_index_or self.old at Gone)) }
        ensures { self.new ≡ at_index without_copy at self.old }
    {
        let slot = slot_of(&self.homes, at);
        self.places[slot].drop_copy();
    }

    /// Says whether the place's reservation was there.
    pub(crate) fn leave(&mut self, at: usize) -> bool
        requires { at < length self.old }
        ensures { Leaves at self.old self.new result }
    {
        let slot = touch(&mut self.homes, &mut self.places, at);
        self.places[slot].leave()
    }
}

// Where the place stands.
fn slot_of(homes: &[u32], at: usize) -> usize
    requires { at / 64 < length homes.now }
    ensures { result ≡ slot_of homes.now at }
{
    CHUNK * homes[at / CHUNK] as usize + at % CHUNK
}

// A chunk of fresh places comes.
fn push_fresh(places: &mut Vec<PackedPlace>)
    requires { vec_len places.old + 64 ≤ vec_capacity places.old }
    ensures items { places.new.items ≡ places.old.items ++ replicate 64 fresh }
    ensures capacity { vec_capacity places.new ≡ vec_capacity places.old }
{
    for _ in 0..CHUNK {
        places.push_reserved(PackedPlace::fresh());
    }
}

// A chunk comes for the places that have none of their own, which are fresh.
fn add_chunk(homes: &mut Vec<u32>, places: &mut Vec<PackedPlace>, index: usize)
    requires chunked { IsChunked homes.old.items places.old.items }
    requires room { HasChunkRoom homes.old.items places.old }
    requires few { length homes.old.items ≤ 2 ^ 26 }
    requires within { index < length homes.old.items }
    requires none { slice_index homes.old.items index ≡ 0 }
    ensures chunked { IsChunked homes.new.items places.new.items }
    ensures room { HasChunkRoom homes.new.items places.new }
    ensures len { length homes.new.items ≡ length homes.old.items }
    ensures own { 0 < slice_index homes.new.items index }
    ensures same { IsSame homes.old.items places.old.items homes.new.items places.new.items }
{
    homes[index] = (places.len() / CHUNK) as u32;
    push_fresh(places);
}

// The place comes into a chunk of its own. Answers where it stands.
fn touch(homes: &mut Vec<u32>, places: &mut Vec<PackedPlace>, at: usize) -> usize
    requires chunked { IsChunked homes.old.items places.old.items }
    requires room { HasChunkRoom homes.old.items places.old }
    requires few { length homes.old.items ≤ 2 ^ 26 }
    requires within { at / 64 < length homes.old.items }
    ensures chunked { IsChunked homes.new.items places.new.items }
    ensures room { HasChunkRoom homes.new.items places.new }
    ensures len { length homes.new.items ≡ length homes.old.items }
    ensures own { 0 < slice_index homes.new.items (at / 64) }
    ensures same { IsSame homes.old.items places.old.items homes.new.items places.new.items }
    ensures slot { result ≡ slot_of homes.new.items at }
{
    if homes[at / CHUNK] == 0 {
        add_chunk(homes, places, at / CHUNK);
    }
    slot_of(homes, at)
}
