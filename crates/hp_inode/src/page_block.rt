//! Pages by index, in chunks of 64 slots: an index's slot is found in one step, and so is a chunk with pages.
ghost use Rattle.std.specs.Prelude.{ℕ, ◌≡◌, ◌+◌, ◌-◌, ◌*◌, ◌/◌, ◌<◌, ◌≤◌, ◌^◌, ◌++◌, ◌∷◌, [], length, IsSome, OnOk, OnErr, true, None, Some};
ghost use Rattle.std.specs.List.{count_by, range_with_len, slice_index_or};
ghost use Rattle.std.specs.Option.{is_some};
ghost use Rattle.hp_inode.specs.Rows.{page_in, has_slot, FindsPage, MakesSlot, TakesFirst};

use crate::bits::count_bits;
use crate::block::Block;
use crate::chunk_list::{CHUNK, ChunkList};
use hp_marks::marks::{change_mark, first_from, first_in_word, make_places, set_mark};
use hp_model::page_no::PageNo;
use smallvec::SmallVec;
use std::alloc::{AllocError, Global};
use std::marker::Model;

/// The chunks of a block, with a bit for each index that has a page, in words, and a mark at each word that has one.
#[derive(Drop)]
pub struct PageBlock {
    chunks: ChunkList,
    words: SmallVec<u64, 1>,
    marks: SmallVec<u64, 1>,
}

impl Model for PageBlock {
    ghost use Rattle.hp_inode.specs.Rows.{Rows, IsTable};

    ghost Value = { Rows };

    ghost view = { λ t. t.chunks };

    ghost invariant = { λ t. IsTable t.chunks t.words.items t.marks.items };
}

impl Block for PageBlock {
    ghost empty = { [] };

    fn new(alloc: Global) -> Self {
        PageBlock {
            chunks: ChunkList::new(alloc),
            words: SmallVec::new(alloc),
            marks: SmallVec::new(alloc),
        }
    }
}

impl PageBlock {
    pub fn page_at(&self, i: u64) -> Option<PageNo>
        ensures { result ≡ page_in self.now i }
    {
        self.chunks.page_at(i as usize / CHUNK, i as usize % CHUNK)
    }

    /// How many indices from `a` up to `b` have a page.
    pub fn count(&self, a: u64, b: u64) -> u64
        ensures { result ≡ count_by (λ k. is_some (page_in self.now k)) (range_with_len a (b - a)) }
    {
        count_bits(self.words.as_slice(), self.marks.as_slice(), a, b)
    }

    /// Gives an index a page, or none where it has one, and answers which it had.
    #[inline(always)]
    pub fn replace(&mut self, i: usize, page: Option<PageNo>) -> Option<PageNo>
        requires slot { has_slot self.old i ≡ true }
        requires some { page ≡ None → IsSome (page_in self.old i) }
        ensures was { result ≡ page_in self.old i }
        ensures here { page_in self.new i ≡ page }
        ensures others { (k : ℕ) → (k ≡ i → ⊥) → page_in self.new k ≡ page_in self.old k }
        ensures slots { (k : ℕ) → has_slot self.new k ≡ has_slot self.old k }
    {
        let at = i / CHUNK;
        let was = self.chunks.replace(at, i % CHUNK, page);
        let words = self.words.as_mut_slice();
        let had = page.is_none() || words[at] != 0;
        set_mark(words, i, page.is_some());
        let some = words[at] != 0;
        change_mark(&mut self.marks, at, had, some);
        was
    }

    /// Takes the first page of the indices from `a` up to `b` out, and answers its index with it.
    #[inline(always)]
    pub fn take_first(&mut self, a: u64, b: u64) -> Option<(u64, PageNo)>
        ensures taken { TakesFirst (page_in self.old) (page_in self.new) a b result }
        ensures none { result ≡ None → self.new ≡ self.old }
        ensures slots { (k : ℕ) → has_slot self.new k ≡ has_slot self.old k }
    {
        let i = self.first_from(a as usize)?;
        if i as u64 >= b {
            return None;
        }
        match self.replace(i, None) {
            Some(page) => Some((i as u64, page)),
            None => unreachable!(),
        }
    }

    // The first index with a page, of those from `a` on.
    #[inline(always)]
    fn first_from(&self, a: usize) -> Option<usize>
        ensures { FindsPage self.now a result }
    {
        let words = self.words.as_slice();
        if let Some(i) = first_in_word(words, a) {
            return Some(i);
        }
        let next = first_from(self.marks.as_slice(), a / CHUNK + 1)?;
        first_in_word(words, CHUNK * next)
    }

    /// Makes a slot for each index from `a` up to `b`.
    #[inline(always)]
    pub fn make_slots(&mut self, a: u64, b: u64) -> Result<(), AllocError>
        requires { b ≤ 2 ^ 32 }
        ensures pages { (k : ℕ) → page_in self.new k ≡ page_in self.old k }
        ensures kept { (k : ℕ) → has_slot self.old k ≡ true → has_slot self.new k ≡ true }
        ensures made { OnOk result ((k : ℕ) → a ≤ k → k < b → has_slot self.new k ≡ true) }
        ensures below { (k : ℕ) → k / 64 < a / 64 → has_slot self.new k ≡ has_slot self.old k }
    {
        if a < b {
            let (from, end) = (a as usize / CHUNK, (b as usize).div_ceil(CHUNK));
            make_places(&mut self.marks, end)?;
            make_places(&mut self.words, b as usize)?;
            self.chunks.make(from, end)?;
        }
        Ok(())
    }

    /// Makes a slot for one index.
    #[inline(always)]
    pub fn make_slot(&mut self, i: u64) -> Result<(), AllocError>
        requires { i < 2 ^ 32 }
        ensures { MakesSlot page_in has_slot i self.old self.new result }
    {
        if self.chunks.has_slots(i as usize / CHUNK) {
            return Ok(());
        }
        self.make_slots(i, i + 1)
    }
}
