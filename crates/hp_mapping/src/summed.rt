//! Many marks, which are found without a step for each number that has none.
ghost use Rattle.std.specs.Prelude.{◌≡◌, ℕ, ◌*◌, ◌<◌, ◌≤◌, true, length, IfOk};
ghost use Rattle.hp_marks.specs.Marks.{marked, FindsFrom};
ghost use Rattle.hp_mapping.specs.Marks.{IsUnmarkedFrom, ChangesMark};

use crate::words::{all_marks, no_marks};
use hp_marks::marks::{WORD, change_mark, first_from, first_in_word, lowest_in};
use smallvec::SmallVec;
use std::alloc::{AllocError, Global};
use std::marker::Model;

/// A mark for each number below a limit, and a mark for each word of them that has one. So a search passes over
/// 4,096 numbers at a step. Contracts see the words.
#[derive(Drop)]
pub(crate) struct Summed {
    words: SmallVec<u64, 1>,
    above: SmallVec<u64, 1>,
}

impl Model for Summed {
    ghost use Rattle.std.specs.Prelude.{ℕ, List};
    ghost use Rattle.hp_mapping.specs.Marks.{IsSummed};

    ghost Value = { List ℕ };

    ghost view = { λ m. m.words.items };

    ghost invariant = { λ m. IsSummed m.words.items m.above.items };
}

impl Summed {
    /// For the numbers below `count`, with no mark.
    pub(crate) fn new(alloc: Global, count: usize) -> Result<Self, AllocError>
        ensures blank { IfOk result (λ m. IsUnmarkedFrom 0 m) }
        ensures room { IfOk result (λ m. count ≤ 64 * length m) }
    {
        let words = no_marks(alloc, count)?;
        let above = no_marks(alloc, words.len())?;
        Ok(Summed { words, above })
    }

    /// Marks of all numbers below `count`.
    pub(crate) fn all(alloc: Global, count: usize) -> Result<Self, AllocError>
        ensures marked { IfOk result (λ m. (k : ℕ) → k < count → marked m k ≡ true) }
        ensures blank { IfOk result (λ m. IsUnmarkedFrom count m) }
        ensures room { IfOk result (λ m. count ≤ 64 * length m) }
    {
        let words = all_marks(alloc, count)?;
        let above = all_marks(alloc, count.div_ceil(WORD))?;
        Ok(Summed { words, above })
    }

    /// The same marks in memory of their own.
    pub(crate) fn copied(&self) -> Result<Self, AllocError>
        ensures { IfOk result (λ m. m ≡ self.now) }
    {
        let words = SmallVec::from_slice(*self.words.allocator(), self.words.as_slice())?;
        let above = SmallVec::from_slice(*self.above.allocator(), self.above.as_slice())?;
        Ok(Summed { words, above })
    }

    /// Sets or clears a mark.
    #[inline(always)]
    pub(crate) fn change(&mut self, at: usize, on: bool)
        requires { at < 64 * length self.old }
        ensures { ChangesMark at on self.old self.new }
    {
        change_mark(&mut self.words, at, !on, on);
        if on || self.words.as_slice()[at / WORD] == 0 {
            change_mark(&mut self.above, at / WORD, !on, on);
        }
    }

    /// The lowest mark from `from` on.
    pub(crate) fn next(&self, from: usize) -> Option<usize>
        ensures { FindsFrom self.now from result }
    {
        let words = self.words.as_slice();
        if let Some(at) = first_in_word(words, from) {
            return Some(at);
        }
        let word = first_from(self.above.as_slice(), from / WORD + 1)?;
        Some(lowest_in(words, word))
    }
}
