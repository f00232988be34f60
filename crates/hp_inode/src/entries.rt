//! Which indices are entered, in blocks of 65,536.
ghost use Rattle.std.specs.Prelude.{ℕ, ◌≡◌, ◌≢◌, ◌+◌, ◌*◌, ◌<◌, ◌≤◌, ◌^◌, ◌&&◌, ◌||◌, [], length, not, true, false, IfOk, IsTrue, OnOk, OnErr, MatchOption};
ghost use Rattle.std.specs.List.{slice_index_or};
ghost use Rattle.hp_model.specs.beside.Ranges.{within};
ghost use Rattle.hp_inode.specs.Blocks.{block_size, most_blocks, entered_at, has_word_for, entered_count, missing_count};
ghost use Rattle.hp_inode.specs.EntryBlock.{count_in, missing_in};
ghost use Rattle.hp_marks.specs.Marks.{marked};

use crate::block::{BLOCK, in_each_block, within_block};
use crate::block_list::BlockList;
use crate::entry_block::EntryBlock;
use std::alloc::{AllocError, Global};
use std::marker::Model;

/// A set of indices. Contracts see the words of its blocks. Only `make_room` asks for memory, and for the first 64
/// indices it takes none.
#[derive(Drop)]
pub struct Entries {
    blocks: BlockList<EntryBlock>,
}

impl Model for Entries {
    ghost use Rattle.std.specs.Prelude.{[]};
    ghost use Rattle.hp_inode.specs.Blocks.{WordBlocks};
    ghost use Rattle.hp_inode.specs.Later.{contents};

    ghost Value = { WordBlocks };

    ghost view = { λ e. contents [] e.blocks };
}

impl Entries {
    /// The empty set.
    pub fn new(alloc: Global) -> Self
        ensures { (i : ℕ) → entered_at result i ≡ entered_at [] i }
    {
        Entries {
            blocks: BlockList::new(alloc),
        }
    }

    /// Whether the index `i` is in the set.
    #[inline(always)]
    pub fn contains(&self, i: u64) -> bool
        ensures { result ≡ entered_at self.now i }
    {
        if i < BLOCK {
            return self.blocks.first().contains(i);
        }
        match self.blocks.block(i / BLOCK) {
            Some(block) => block.contains(i % BLOCK),
            None => false,
        }
    }

    /// How many indices from `a` up to `b` are not in the set.
    pub fn missing(&self, a: u64, b: u64) -> u64
        ensures { result ≡ missing_count self.now a b }
    {
        if b <= BLOCK {
            return self.missing_in(0, a, b);
        }
        let mut missing = 0;
        in_each_block!(a..b, at, from, to => missing += self.missing_in(at / BLOCK, from, to));
        missing
    }

    // How many indices of one block from `from` up to `to` are not in the set.
    #[inline(always)]
    fn missing_in(&self, at: u64, from: u64, to: u64) -> u64
        ensures { result ≡ missing_in (slice_index_or self.now at []) from to }
    {
        match self.blocks.block(at) {
            Some(block) => block.missing(from, to),
            None => to.saturating_sub(from),
        }
    }

    /// How many blocks there are places for.
    pub fn blocks(&self) -> u64 {
        (self.blocks.last() as u64).saturating_add(1)
    }

    /// Whether a block has room for an index, and none in the set.
    pub fn is_spent(&self, at: u64) -> bool
        ensures { IsTrue result → (k : ℕ)
            → marked (slice_index_or self.now at []) k ≡ false }
    {
        match self.blocks.block(at) {
            Some(block) => block.is_spent(),
            None => false,
        }
    }

    /// Gives back the memory of a block of which no index is in the set.
    pub fn give_back(&mut self, at: u64)
        requires { (k : ℕ) → marked (slice_index_or self.old at []) k ≡ false }
        ensures here { slice_index_or self.new at [] ≡ [] }
        ensures same { (k : ℕ) → entered_at self.new k ≡ entered_at self.old k }
    {
        self.blocks.clear(at as usize);
    }

    /// Makes room for the indices from `a` up to `b`. For none it takes no memory.
    pub fn make_room(&mut self, a: u64, b: u64) -> Result<(), AllocError>
        requires { b < 2 ^ 32 }
        ensures ok { OnOk result ((k : ℕ) → a ≤ k → k < b → has_word_for self.new k ≡ true) }
        ensures same { (k : ℕ) → entered_at self.new k ≡ entered_at self.old k }
    {
        if b <= BLOCK {
            return self.blocks.first_mut().make_room(a, b);
        }
        in_each_block!(a..b, at, from, to => self.make_in(at / BLOCK, from, to)?);
        Ok(())
    }

    // Makes room for the indices from `from` up to `to` of one block.
    fn make_in(&mut self, at: u64, from: u64, to: u64) -> Result<(), AllocError>
        requires few { at < most_blocks }
        requires some { from < to }
        requires block { to ≤ block_size }
        ensures ok { OnOk result (to ≤ 64 * length (slice_index_or self.new at [])) }
        ensures same { (k : ℕ) → marked (slice_index_or self.new at []) k
            ≡ marked (slice_index_or self.old at []) k }
        ensures others { (j : ℕ) → j ≢ at
            → slice_index_or self.new j [] ≡ slice_index_or self.old j [] }
    {
        self.blocks.make(at as usize)?;
        self.blocks.at_mut(at as usize).make_room(from, to)
    }

    /// Puts the indices from `a` up to `b` in.
    pub fn add(&mut self, a: u64, b: u64)
        requires { (k : ℕ) → a ≤ k → k < b → has_word_for self.old k ≡ true }
        ensures { (k : ℕ) → entered_at self.new k ≡ (entered_at self.old k || within a b k) }
    {
        if b <= BLOCK {
            self.blocks.first_mut().add(a, b);
            return;
        }
        in_each_block!(a..b, at, from, to => self.add_in(at / BLOCK, from, to));
    }

    /// Puts one index in, with the room for it, and answers whether it was not there.
    #[inline(always)]
    pub fn enter(&mut self, i: u64) -> Result<bool, AllocError>
        requires { i < 2 ^ 32 }
        ensures fresh { IfOk result (λ fresh. fresh ≡ not (entered_at self.old i)) }
        ensures ok { OnOk result ((k : ℕ) → entered_at self.new k
            ≡ (entered_at self.old k || within i (i + 1) k)) }
        ensures err { OnErr result ((k : ℕ) → entered_at self.new k ≡ entered_at self.old k) }
    {
        if i < BLOCK {
            return self.blocks.first_mut().enter(i);
        }
        let at = (i / BLOCK) as usize;
        self.blocks.make(at)?;
        self.blocks.at_mut(at).enter(i % BLOCK)
    }

    /// Takes one index out.
    #[inline(always)]
    pub fn take_out(&mut self, i: u64)
        requires { entered_at self.old i ≡ true }
        ensures { (k : ℕ) → entered_at self.new k
            ≡ (entered_at self.old k && not (within i (i + 1) k)) }
    {
        if i < BLOCK {
            self.blocks.first_mut().take_out(i);
            return;
        }
        self.blocks.at_mut((i / BLOCK) as usize).take_out(i % BLOCK);
    }

    // Puts the indices from `from` up to `to` of one block in.
    fn add_in(&mut self, at: u64, from: u64, to: u64)
        requires some { from < to }
        requires room { to ≤ 64 * length (slice_index_or self.old at []) }
        ensures here { (k : ℕ) → marked (slice_index_or self.new at []) k
            ≡ (marked (slice_index_or self.old at []) k || within from to k) }
        ensures others { (j : ℕ) → j ≢ at
            → slice_index_or self.new j [] ≡ slice_index_or self.old j [] }
    {
        self.blocks.at_mut(at as usize).add(from, to);
    }

    /// Takes the indices from `a` up to `b` out, and answers how many there were.
    pub fn remove(&mut self, a: u64, b: u64) -> u64
        ensures count { result ≡ entered_count self.old a b }
        ensures left { (k : ℕ) → entered_at self.new k
            ≡ (entered_at self.old k && not (within a b k)) }
    {
        if b <= BLOCK {
            return self.remove_in(0, a, b);
        }
        let mut removed = 0;
        in_each_block!(a..b, at, from, to => removed += self.remove_in(at / BLOCK, from, to));
        removed
    }

    // Takes the indices from `from` up to `to` of one block out, and answers how many there were.
    fn remove_in(&mut self, at: u64, from: u64, to: u64) -> u64
        ensures count { result ≡ count_in (slice_index_or self.old at []) from to }
        ensures here { (k : ℕ) → marked (slice_index_or self.new at []) k
            ≡ (marked (slice_index_or self.old at []) k && not (within from to k)) }
        ensures others { (j : ℕ) → j ≢ at
            → slice_index_or self.new j [] ≡ slice_index_or self.old j [] }
    {
        if !self.blocks.has(at as usize) {
            return 0;
        }
        self.blocks.at_mut(at as usize).remove(from, to)
    }
}
