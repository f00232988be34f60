//! The places of the blocks after the first: a later block that was not made takes 2 bytes.
ghost use Rattle.std.specs.Prelude.{ℕ, ◌≡◌, ◌+◌, ◌<◌, length, OnOk};
ghost use Rattle.std.specs.List.{slice_index_or};
ghost use Rattle.hp_inode.specs.Blocks.{most_blocks};
ghost use Rattle.hp_inode.specs.Later.{made_count};

use std::alloc::AllocError;

/// Makes the place `at`, and those before it, with no block where there was no place.
#[inline(always)]
pub fn make_place(places: &mut Vec<u16>, at: usize) -> Result<(), AllocError>
    requires within { at + 1 < most_blocks }
    requires few { length places.old.items < most_blocks }
    ensures ok { OnOk result (at < length places.new.items) }
    ensures few { length places.new.items < most_blocks }
    ensures same { (j : ℕ) → slice_index_or places.new.items j 0
        ≡ slice_index_or places.old.items j 0 }
    ensures made { made_count places.new.items ≡ made_count places.old.items }
{
    if places.len() <= at {
        places.reserve_exact(at + 1 - places.len())?;
    }
    while places.len() <= at {
        places.push(0)?;
    }
    Ok(())
}
