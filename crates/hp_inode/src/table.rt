//! Pages by index, in blocks of 65,536.
ghost use Rattle.std.specs.Prelude.{ℕ, ◌≡◌, ◌≢◌, ◌+◌, ◌-◌, ◌/◌, ◌%◌, ◌<◌, ◌≤◌, ◌^◌, [], OnOk, true, None, Some, MatchOption};
ghost use Rattle.std.specs.List.{count_by, range_with_len, slice_index_or};
ghost use Rattle.std.specs.Option.{is_some};
ghost use Rattle.hp_inode.specs.Blocks.{block_size, most_blocks, page_at, has_slot_at};
ghost use Rattle.hp_inode.specs.Rows.{page_in, has_slot, MakesSlot, TakesFirst};

use crate::block::{BLOCK, in_each_block, within_block};
use crate::block_list::BlockList;
use crate::page_block::PageBlock;
use hp_model::page_no::PageNo;
use std::alloc::{AllocError, Global};
use std::marker::Model;

/// The pages of a file. Contracts see the rows of its blocks.
#[derive(Drop)]
pub struct PageTable {
    blocks: BlockList<PageBlock>,
    // no index from `bare_from` up to `bare_to` has a page: here the last take began, and there it ended
    bare_from: u64,
    bare_to: u64,
}

impl Model for PageTable {
    ghost use Rattle.std.specs.Prelude.{[]};
    ghost use Rattle.hp_inode.specs.Blocks.{RowBlocks, IsRowTable};
    ghost use Rattle.hp_inode.specs.Later.{contents};

    ghost Value = { RowBlocks };

    ghost view = { λ t. contents [] t.blocks };

    ghost invariant = { λ t. IsRowTable (contents [] t.blocks) t.bare_from t.bare_to };
}

impl PageTable {
    pub fn new(alloc: Global) -> Self
        ensures pages { (i : ℕ) → page_at result i ≡ page_at [] i }
        ensures slots { (i : ℕ) → has_slot_at result i ≡ has_slot_at [] i }
    {
        PageTable {
            blocks: BlockList::new(alloc),
            bare_from: 0,
            bare_to: 0,
        }
    }

    #[inline(always)]
    pub fn page_at(&self, i: u64) -> Option<PageNo>
        ensures { result ≡ page_at self.now i }
    {
        if i < BLOCK {
            return self.blocks.first().page_at(i);
        }
        self.blocks.block(i / BLOCK)?.page_at(i % BLOCK)
    }

    /// How many indices from `a` up to `b` have a page.
    pub fn count(&self, a: u64, b: u64) -> u64
        ensures { result ≡ count_by (λ k. is_some (page_at self.now k)) (range_with_len a (b - a)) }
    {
        let mut count = 0;
        let mut at = a;
        while at < b {
            let part = within_block(at, b);
            count += self.count_in(at, part);
            at += part;
        }
        count
    }

    // How many indices from `a` on, of so many in one block, have a page.
    #[inline(always)]
    fn count_in(&self, a: u64, part: u64) -> u64
        requires { a % block_size + part ≤ block_size }
        ensures { result ≡ count_by (λ k. is_some (page_at self.now k)) (range_with_len a part) }
    {
        let from = a % BLOCK;
        match self.blocks.block(a / BLOCK) {
            Some(block) => block.count(from, from + part),
            None => 0,
        }
    }

    /// Gives an index its page.
    #[inline(always)]
    pub fn fill(&mut self, i: u64, page: PageNo)
        requires { has_slot_at self.old i ≡ true }
        ensures here { page_at self.new i ≡ Some page }
        ensures others { (k : ℕ) → (k ≡ i → ⊥) → page_at self.new k ≡ page_at self.old k }
        ensures slots { (k : ℕ) → has_slot_at self.new k ≡ has_slot_at self.old k }
    {
        self.bare_to = self.bare_to.min(i);
        if i < BLOCK {
            self.blocks.first_mut().replace(i as usize, Some(page));
            return;
        }
        let block = self.blocks.at_mut((i / BLOCK) as usize);
        block.replace((i % BLOCK) as usize, Some(page));
    }

    /// Takes the first page of the indices from `a` up to `b` out, and answers its index with it.
    pub fn take_first(&mut self, a: u64, b: u64) -> Option<(u64, PageNo)>
        ensures taken { TakesFirst (page_at self.old) (page_at self.new) a b result }
        ensures none { result ≡ None → self.new ≡ self.old }
        ensures slots { (k : ℕ) → has_slot_at self.new k ≡ has_slot_at self.old k }
    {
        // no index before `start` has a page, of those from `a` on
        let start = if self.bare_from <= a {
            a.max(self.bare_to)
        } else {
            a
        };
        let (i, page) = self.take_from(start, b)?;
        self.bare_from = a;
        self.bare_to = i + 1;
        Some((i, page))
    }

    // The same with a search of all of these indices.
    #[inline(always)]
    fn take_from(&mut self, a: u64, b: u64) -> Option<(u64, PageNo)>
        ensures taken { TakesFirst (page_at self.old) (page_at self.new) a b result }
        ensures none { result ≡ None → self.new ≡ self.old }
        ensures slots { (k : ℕ) → has_slot_at self.new k ≡ has_slot_at self.old k }
    {
        let (mut at, mut from) = (a / BLOCK, a % BLOCK);
        while at <= self.blocks.last() as u64 && at * BLOCK < b {
            if let Some((k, page)) = self.take_in(at, from, b - at * BLOCK) {
                return Some((at * BLOCK + k, page));
            }
            at += 1;
            from = 0;
        }
        None
    }

    // Takes the first page of a block's indices from `from` up to `to` out, and answers its index with it.
    #[inline(always)]
    fn take_in(&mut self, at: u64, from: u64, to: u64) -> Option<(u64, PageNo)>
        ensures taken { TakesFirst (page_in (slice_index_or self.old at []))
            (page_in (slice_index_or self.new at [])) from to result }
        ensures none { result ≡ None → self.new ≡ self.old }
        ensures slots { (k : ℕ) → has_slot_at self.new k ≡ has_slot_at self.old k }
        ensures others { (j : ℕ) → j ≢ at
            → slice_index_or self.new j [] ≡ slice_index_or self.old j [] }
    {
        if !self.blocks.has(at as usize) {
            return None;
        }
        self.blocks.at_mut(at as usize).take_first(from, to)
    }

    /// Gives back the memory of a block without a page.
    pub fn give_back(&mut self, at: u64)
        requires { (k : ℕ) → k / block_size ≡ at → page_at self.old k ≡ None }
        ensures here { slice_index_or self.new at [] ≡ [] }
        ensures pages { (k : ℕ) → page_at self.new k ≡ page_at self.old k }
        ensures slots { (k : ℕ) → k / block_size ≢ at
            → has_slot_at self.new k ≡ has_slot_at self.old k }
    {
        self.blocks.clear(at as usize);
    }

    /// Makes a slot for each index from `a` up to `b`.
    pub fn make_slots(&mut self, a: u64, b: u64) -> Result<(), AllocError>
        requires { b < 2 ^ 32 }
        ensures pages { (k : ℕ) → page_at self.new k ≡ page_at self.old k }
        ensures kept { (k : ℕ) → has_slot_at self.old k ≡ true → has_slot_at self.new k ≡ true }
        ensures made { OnOk result ((k : ℕ) → a ≤ k → k < b → has_slot_at self.new k ≡ true) }
        ensures below { (k : ℕ) → k / 64 < a / 64
            → has_slot_at self.new k ≡ has_slot_at self.old k }
    {
        if b <= BLOCK {
            return self.blocks.first_mut().make_slots(a, b);
        }
        in_each_block!(a..b, at, from, to => self.make_in(at / BLOCK, from, to)?);
        Ok(())
    }

    /// Makes a slot for one index.
    #[inline(always)]
    pub fn make_slot(&mut self, i: u64) -> Result<(), AllocError>
        requires { i < 2 ^ 32 }
        ensures { MakesSlot page_at has_slot_at i self.old self.new result }
    {
        if i < BLOCK {
            return self.blocks.first_mut().make_slot(i);
        }
        let at = (i / BLOCK) as usize;
        self.blocks.make(at)?;
        self.blocks.at_mut(at).make_slot(i % BLOCK)
    }

    // Makes a slot for each index of a block from `from` up to `to`.
    fn make_in(&mut self, at: u64, from: u64, to: u64) -> Result<(), AllocError>
        requires few { at < most_blocks }
        requires block { to ≤ block_size }
        ensures pages { (k : ℕ) → page_in (slice_index_or self.new at []) k
            ≡ page_in (slice_index_or self.old at []) k }
        ensures kept { (k : ℕ) → has_slot (slice_index_or self.old at []) k ≡ true
            → has_slot (slice_index_or self.new at []) k ≡ true }
        ensures made { OnOk result ((k : ℕ) → from ≤ k → k < to
            → has_slot (slice_index_or self.new at []) k ≡ true) }
        ensures below { (k : ℕ) → k / 64 < from / 64
            → has_slot (slice_index_or self.new at []) k
            ≡ has_slot (slice_index_or self.old at []) k }
        ensures others { (j : ℕ) → j ≢ at
            → slice_index_or self.new j [] ≡ slice_index_or self.old j [] }
    {
        self.blocks.make(at as usize)?;
        self.blocks.at_mut(at as usize).make_slots(from, to)
    }
}
