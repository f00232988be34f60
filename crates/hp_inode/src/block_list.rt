//! The blocks of a file by number.
ghost use Rattle.std.specs.Prelude.{ℕ, ◌≡◌, ◌≢◌, ◌+◌, ◌<◌, ◌≤◌, ◌∷◌, [], length, MatchOption, OnOk, IsSome, Some, None};
ghost use Rattle.std.specs.List.{slice_index_or};
ghost use Rattle.std.specs.Option.{is_some};
ghost use Rattle.hp_inode.specs.Blocks.{most_blocks};
ghost use Rattle.hp_inode.specs.Later.{contents};

use crate::block::Block;
use crate::places::make_place;
use std::alloc::{AllocError, Global};
use std::marker::Model;

/// Blocks, of which the first is always there, and each after it is made as there is to be room in it. Contracts see
/// which were made, and what they hold.
#[derive(Drop)]
pub struct BlockList<B: Block> {
    first: B,
    // for each block after the first 0, or its number among those that were made
    places: Vec<u16>,
    made: Vec<B>,
    alloc: Global,
}

impl<B: Block> Model for BlockList<B> {
    ghost use Rattle.std.specs.Prelude.{List, Option, Some, ◌∷◌, length};
    ghost use Rattle.hp_inode.specs.Later.{blocks_in, AreLater};

    ghost Value = { List (Option B) };

    ghost view = { λ t. Some t.first ∷ blocks_in t.places.items t.made.items };

    ghost invariant = { λ t. AreLater t.places.items (length t.made.items) };
}

impl<B: Block> BlockList<B> {
    ghost use Rattle.std.specs.Borrow.{sem};
    ghost use Rattle.hp_inode.specs.Lends.{lends_block};

    /// The first block alone.
    pub fn new(alloc: Global) -> Self
        ensures { result ≡ Some B.empty ∷ [] }
    {
        BlockList {
            first: B::new(alloc),
            places: Vec::new(alloc),
            made: Vec::new(alloc),
            alloc,
        }
    }

    /// The number of the last block that there is a place for.
    #[inline(always)]
    pub fn last(&self) -> usize
        ensures { length self.now ≡ result + 1 }
    {
        self.places.len()
    }

    /// The block, if it was made.
    #[inline(always)]
    pub fn get(&self, at: usize) -> Option<&B>
        ensures { MatchOption result (slice_index_or self.now at None ≡ None)
            (λ block. slice_index_or self.now at None ≡ Some block.now) }
    {
        if at == 0 {
            return Some(&self.first);
        }
        if at > self.places.len() {
            return None;
        }
        let n = self.places[at - 1] as usize;
        if n == 0 {
            return None;
        }
        Some(&self.made[n - 1])
    }

    /// The block, if it was made. In one that was not there is nothing.
    #[inline(always)]
    pub fn block(&self, at: u64) -> Option<&B>
        ensures { MatchOption result
            (slice_index_or (contents B.empty self.now) at B.empty ≡ B.empty)
            (λ block. slice_index_or (contents B.empty self.now) at B.empty ≡ block.now) }
    {
        self.get(at as usize)
    }

    #[inline(always)]
    pub fn first(&self) -> &B
        ensures { slice_index_or self.now 0 None ≡ Some result.now }
    {
        &self.first
    }

    /// Whether the block was made.
    #[inline(always)]
    pub fn has(&self, at: usize) -> bool
        ensures { result ≡ is_some (slice_index_or self.now at None) }
    {
        self.get(at).is_some()
    }

    /// The first block, to be changed.
    #[inline(always)]
    pub fn first_mut(&mut self) -> &mut B
        ensures* writes_back { sem 𝓛 (lends_block B.row B.Block self.entry 0 result) }
        ensures value { slice_index_or self.old 0 None ≡ Some result.now }
    {
        &mut self.first
    }

    /// A block that was made, to be changed.
    #[inline(always)]
    pub fn at_mut(&mut self, at: usize) -> &mut B
        requires { IsSome (slice_index_or self.old at None) }
        ensures* writes_back { sem 𝓛 (lends_block B.row B.Block self.entry at result) }
        ensures value { slice_index_or self.old at None ≡ Some result.now }
    {
        if at == 0 {
            return &mut self.first;
        }
        let n = self.places[at - 1] as usize;
        &mut self.made[n - 1]
    }

    /// Makes the block where it was not made, with nothing in it. Nothing else asks for memory.
    #[inline(always)]
    pub fn make(&mut self, at: usize) -> Result<(), AllocError>
        requires { at < most_blocks }
        ensures ok { OnOk result (IsSome (slice_index_or self.new at None)) }
        ensures same { (j : ℕ) → slice_index_or (contents B.empty self.new) j B.empty
            ≡ slice_index_or (contents B.empty self.old) j B.empty }
        ensures few { length self.new ≤ most_blocks }
    {
        if at > 0 {
            make_place(&mut self.places, at - 1)?;
            if self.places[at - 1] == 0 {
                self.made.reserve_exact(1)?;
                self.made.push_reserved(B::new(self.alloc));
                self.places[at - 1] = self.made.len() as u16;
            }
        }
        Ok(())
    }

    /// Gives back the memory of a block with all that it had.
    pub fn clear(&mut self, at: usize)
        ensures here { slice_index_or (contents B.empty self.new) at B.empty ≡ B.empty }
        ensures others { (j : ℕ) → j ≢ at → slice_index_or (contents B.empty self.new) j B.empty
            ≡ slice_index_or (contents B.empty self.old) j B.empty }
        ensures len { length self.new ≡ length self.old }
    {
        if self.has(at) {
            let empty = B::new(self.alloc);
            *self.at_mut(at) = empty;
        }
    }
}
