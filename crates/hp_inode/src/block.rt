//! Blocks of 65,536 indices. Below an index that is far out the blocks without entries take 4 bytes each.
ghost use Rattle.std.specs.Prelude.{◌≡◌, ◌-◌, ◌%◌, ◌<◌, min};
ghost use Rattle.hp_inode.specs.Blocks.{block_size};

use std::alloc::Global;

/// How many indices a block is for.
pub const BLOCK: u64 = 65_536;

/// What is kept of the indices of a block.
pub trait Block: Drop {
    ghost empty: { Self };

    /// Nothing, which takes no memory.
    fn new(alloc: Global) -> Self
        ensures { result ≡ empty };
}

// Goes over the blocks of the indices from `$a` up to `$b`: in the block of `$at` they lie from `$from` up to `$to`.
macro_rules! in_each_block {
    ($a:ident..$b:ident, $at:ident, $from:ident, $to:ident => $do:expr) => {
        let mut $at = $a;
        while $at < $b {
            let count = within_block($at, $b);
            let $from = $at % BLOCK;
            let $to = $from + count;
            $do;
            $at += count;
        }
    };
}

pub(crate) use in_each_block;

/// How many indices from `at` up to `end` lie in the block of `at`.
#[inline(always)]
pub fn within_block(at: u64, end: u64) -> u64
    requires { at < end }
    ensures { result ≡ min (block_size - at % block_size) (end - at) }
{
    (BLOCK - at % BLOCK).min(end - at)
}
