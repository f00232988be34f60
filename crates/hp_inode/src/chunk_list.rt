//! The slots of a block's chunks, in one piece: a chunk takes its part of it when its first page comes.
ghost use Rattle.std.specs.Prelude.{ℕ, ◌≡◌, ◌+◌, ◌-◌, ◌*◌, ◌<◌, ◌≤◌, ◌^◌, ◌++◌, [], length, max, replicate, slice_index_or, slice_set, vec_capacity, vec_len, IsSome, OnOk, None, true, false};
ghost use Rattle.hp_inode.specs.Rows.{slot_in};
ghost use Rattle.hp_inode.specs.Chunks.{AreHomes, ArePromised, IsHoused, bare, promised, slot_count, slotted_count, used_count};

use crate::block::BLOCK;
use hp_model::page_no::PageNo;
use std::alloc::{AllocError, Global};
use std::marker::Model;

/// How many indices a chunk is for.
pub const CHUNK: usize = 64;

// The most chunks of a block.
const MOST: usize = BLOCK as usize / CHUNK;

// The homes of chunks without slots, and of those with slots to which no page came.
const BARE: u32 = u32::MAX;

const PROMISED: u32 = u32::MAX - 1;

/// Chunks, of which each has no slots yet, or 64. Contracts see the rows of their slots.
#[derive(Drop)]
pub struct ChunkList {
    // where the slots of each chunk stand, as so many chunks before it
    homes: Vec<u32>,
    // the slots of the chunks to which a page came, in the order of these pages
    slots: Vec<Option<PageNo>>,
    // how many chunks have slots: there is memory for those of all
    slotted: usize,
    alloc: Global,
}

impl Model for ChunkList {
    ghost use Rattle.std.specs.Prelude.{vec_capacity};
    ghost use Rattle.hp_inode.specs.Rows.{Rows};
    ghost use Rattle.hp_inode.specs.Chunks.{AreChunks, chunk_rows};

    ghost Value = { Rows };

    ghost view = { λ c. chunk_rows c.homes.items c.slots.items };

    ghost invariant = { λ c. AreChunks c.homes.items c.slots.items c.slotted
        (vec_capacity c.slots) };
}

impl ChunkList {
    pub fn new(alloc: Global) -> Self
        ensures { result ≡ [] }
    {
        ChunkList {
            homes: Vec::new(alloc),
            slots: Vec::new(alloc),
            slotted: 0,
            alloc,
        }
    }

    /// The page in a slot of a chunk.
    #[inline(always)]
    pub fn page_at(&self, at: usize, k: usize) -> Option<PageNo>
        requires { k < 64 }
        ensures { result ≡ slot_in self.now at k }
    {
        if at >= self.homes.len() {
            return None;
        }
        let slot = CHUNK * self.homes[at] as usize + k;
        if slot < self.slots.len() {
            self.slots[slot]
        } else {
            None
        }
    }

    #[inline(always)]
    pub fn has_slots(&self, at: usize) -> bool
        ensures all { result ≡ true → slot_count self.now at ≡ 64 }
        ensures none { result ≡ false → slot_count self.now at ≡ 0 }
    {
        at < self.homes.len() && self.homes[at] != BARE
    }

    /// Puts a page in a slot, or none where there is one, and answers what stood there.
    #[inline(always)]
    pub fn replace(&mut self, at: usize, k: usize, page: Option<PageNo>) -> Option<PageNo>
        requires slot { k < slot_count self.old at }
        requires some { page ≡ None → IsSome (slot_in self.old at k) }
        ensures was { result ≡ slot_in self.old at k }
        ensures set { self.new ≡ slice_set self.old at
            (slice_set (slice_index_or self.old at []) k page) }
    {
        let slot = CHUNK * touch(&mut self.homes, &mut self.slots, at, page.is_some()) + k;
        let was = self.slots[slot];
        self.slots[slot] = page;
        was
    }

    /// Makes the slots of the chunks from `from` up to `end`.
    pub fn make(&mut self, from: usize, end: usize) -> Result<(), AllocError>
        requires ends { from ≤ end }
        requires few { end ≤ 2 ^ 26 }
        ensures pages { (j k : ℕ) → k < 64 → slot_in self.new j k ≡ slot_in self.old j k }
        ensures kept { (j : ℕ) → slot_count self.old j ≤ slot_count self.new j }
        ensures made { OnOk result ((j : ℕ) → from ≤ j → j < end → slot_count self.new j ≡ 64) }
        ensures below { (j : ℕ) → j < from → slot_count self.new j ≡ slot_count self.old j }
        ensures len { length self.new ≤ max (length self.old) end }
    {
        let from = self.made_to(from, end);
        if from == end {
            return Ok(());
        }
        extend(&mut self.homes, end)?;
        let count = (self.slotted + (end - from)).min(self.homes.len());
        make_room(&mut self.slots, count, self.alloc)?;
        self.slotted += promise(&mut self.homes, from, end);
        Ok(())
    }

    // Passes all chunks from `from` up to `end` that have their slots, and answers where they end.
    fn made_to(&self, from: usize, end: usize) -> usize
        requires { from ≤ end }
        ensures from { from ≤ result }
        ensures to { result ≤ end }
        ensures made { (j : ℕ) → from ≤ j → j < result → slot_count self.now j ≡ 64 }
        ensures stops { result < end → slot_count self.now result ≡ 0 }
    {
        let mut at = from;
        while at < end && self.has_slots(at) {
            at += 1;
        }
        at
    }
}

// Makes the places of the chunks up to `end`, without slots where there was no place.
fn extend(homes: &mut Vec<u32>, end: usize) -> Result<(), AllocError>
    ensures same { (j : ℕ) → slice_index_or homes.new.items j bare
        ≡ slice_index_or homes.old.items j bare }
    ensures slotted { slotted_count homes.new.items ≡ slotted_count homes.old.items }
    ensures used { used_count homes.new.items ≡ used_count homes.old.items }
    ensures ok { OnOk result (end ≤ length homes.new.items) }
    ensures few { length homes.new.items ≤ max (length homes.old.items) end }
{
    if homes.len() < end {
        homes.resize(end, BARE)?;
    }
    Ok(())
}

// Gives a chunk that has slots its home, where it may have none yet, and answers it.
#[inline(always)]
fn touch(homes: &mut Vec<u32>, slots: &mut Vec<Option<PageNo>>, at: usize, first: bool) -> usize
    requires given { AreHomes homes.old.items slots.old.items }
    requires room { 64 * slotted_count homes.old.items ≤ vec_capacity slots.old }
    requires slotted { slice_index_or homes.old.items at bare < bare }
    requires own { first ≡ false → slice_index_or homes.old.items at bare < promised }
    ensures { IsHoused at result homes.old.items homes.new.items slots.old slots.new }
{
    let home = homes[at];
    if first && home == PROMISED {
        return add_chunk(homes, slots, at);
    }
    home as usize
}

// The slots of a chunk come, without a page, and it has its home.
fn add_chunk(homes: &mut Vec<u32>, slots: &mut Vec<Option<PageNo>>, at: usize) -> usize
    requires given { AreHomes homes.old.items slots.old.items }
    requires room { 64 * slotted_count homes.old.items ≤ vec_capacity slots.old }
    requires none { slice_index_or homes.old.items at bare ≡ promised }
    ensures { IsHoused at result homes.old.items homes.new.items slots.old slots.new }
{
    let home = slots.len() / CHUNK;
    homes[at] = home as u32;
    push_bare(slots);
    home
}

// The slots of a chunk, without a page. There is room, so that no memory is asked for.
fn push_bare(slots: &mut Vec<Option<PageNo>>)
    requires { vec_len slots.old + 64 ≤ vec_capacity slots.old }
    ensures items { slots.new.items ≡ slots.old.items ++ replicate 64 None }
    ensures capacity { vec_capacity slots.old ≤ vec_capacity slots.new }
{
    let _ = slots.resize(slots.len() + CHUNK, None);
}

// Makes room for the slots of so many chunks: at least for four times as many as before, where a block may have them.
fn make_room(slots: &mut Vec<Option<PageNo>>, count: usize, alloc: Global) -> Result<(), AllocError>
    requires { count ≤ 2 ^ 26 }
    ensures items { slots.new.items ≡ slots.old.items }
    ensures ok { OnOk result (64 * count ≤ vec_capacity slots.new) }
    ensures capacity { vec_capacity slots.old ≤ vec_capacity slots.new }
{
    if CHUNK * count <= slots.capacity() {
        return Ok(());
    }
    let more = 4 * (slots.capacity() / CHUNK).min(MOST / 4);
    let room = CHUNK * count.max(more);
    // a full piece may grow where it lies; of any other only what was written moves
    if slots.len() == slots.capacity() {
        return slots.reserve_exact(room - slots.len());
    }
    let mut more = Vec::with_capacity(alloc, room)?;
    more.append(slots)?;
    *slots = more;
    Ok(())
}

// Promises slots to the chunks from `from` up to `end` that have none, and answers how many these are.
fn promise(homes: &mut Vec<u32>, from: usize, end: usize) -> usize
    requires ends { from ≤ end }
    requires within { end ≤ length homes.old.items }
    ensures promised { ArePromised from end homes.old.items homes.new.items }
    ensures count { slotted_count homes.new.items ≡ slotted_count homes.old.items + result }
    ensures used { used_count homes.new.items ≡ used_count homes.old.items }
    ensures few { result ≤ end - from }
{
    let mut count = 0;
    for at in from..end {
        if homes[at] == BARE {
            homes[at] = PROMISED;
            count += 1;
        }
    }
    count
}
