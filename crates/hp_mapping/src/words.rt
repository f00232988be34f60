//! Words of marks, as they are made.
ghost use Rattle.std.specs.Prelude.{◌≡◌, ℕ, ◌+◌, ◌-◌, ◌/◌, ◌^◌, ◌<◌, true, length, replicate, slice_set, IfOk};
ghost use Rattle.hp_marks.specs.Marks.{marked};
ghost use Rattle.hp_mapping.specs.Marks.{IsUnmarkedFrom};

use smallvec::SmallVec;
use std::alloc::{AllocError, Global};

/// The bits below a place.
pub(crate) fn bits_below(bit: usize) -> u64
    requires { bit < 64 }
    ensures { result ≡ 2 ^ bit - 1 }
{
    (1 << bit) - 1
}

/// Words for the numbers below `count`, with no mark.
pub(crate) fn no_marks(alloc: Global, count: usize) -> Result<SmallVec<u64, 1>, AllocError>
    ensures blank { IfOk result (λ words. IsUnmarkedFrom 0 words.items) }
    ensures len { IfOk result (λ words. length words.items ≡ count / 64 + 1) }
{
    filled(alloc, 0, count / 64 + 1)
}

/// Words for the numbers below `count`, which all have a mark.
pub(crate) fn all_marks(alloc: Global, count: usize) -> Result<SmallVec<u64, 1>, AllocError>
    ensures marked { IfOk result (λ words. (k : ℕ) → k < count → marked words.items k ≡ true) }
    ensures blank { IfOk result (λ words. IsUnmarkedFrom count words.items) }
    ensures len { IfOk result (λ words. length words.items ≡ count / 64 + 1) }
{
    let mut words = filled(alloc, u64::MAX, count / 64 + 1)?;
    set_word(&mut words, count / 64, bits_below(count % 64));
    Ok(words)
}

// A word is another.
fn set_word(words: &mut SmallVec<u64, 1>, at: usize, word: u64)
    requires { at < length words.old.items }
    ensures { words.new.items ≡ slice_set words.old.items at word }
{
    words.as_mut_slice()[at] = word;
}

// So many words alike. One stands in its place.
#[inline(always)]
fn filled(alloc: Global, word: u64, count: usize) -> Result<SmallVec<u64, 1>, AllocError>
    ensures { IfOk result (λ words. words.items ≡ replicate count word) }
{
    if count == 1 {
        return Ok(SmallVec::from_buf(alloc, [word; 1]));
    }
    let words = vec![in alloc; word; count]?;
    Ok(SmallVec::from_vec(words))
}
