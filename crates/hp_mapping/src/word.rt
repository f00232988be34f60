//! Marks in a word.
ghost use Rattle.std.specs.Prelude.{◌*◌, ◌<◌, ◌≡◌, ℕ, true, length};
ghost use Rattle.hp_marks.specs.Marks.{marked, FindsFrom};
ghost use Rattle.hp_mapping.specs.Marks.{IsUnmarkedFrom, ChangesMark};

use crate::words::bits_below;
use hp_marks::marks::{first_in_word, set_mark};
use std::marker::Model;

/// A mark for each number below 64. Contracts see the word as the only one of a list.
#[derive(Drop)]
pub(crate) struct Word {
    bits: [u64; 1],
}

impl Model for Word {
    ghost use Rattle.std.specs.Prelude.{ℕ, List};

    ghost Value = { List ℕ };

    ghost view = { λ w. w.bits };
}

impl Word {
    /// Marks of all numbers below `count`.
    pub(crate) fn all(count: usize) -> Self
        requires { count < 64 }
        ensures marked { (k : ℕ) → k < count → marked result k ≡ true }
        ensures blank { IsUnmarkedFrom count result }
        ensures room { length result ≡ 1 }
    {
        Word {
            bits: [bits_below(count)],
        }
    }

    /// The same marks in a word of their own.
    pub(crate) fn copied(&self) -> Self
        ensures { result ≡ self.now }
    {
        Word { bits: self.bits }
    }

    /// Sets or clears a mark.
    #[inline(always)]
    pub(crate) fn change(&mut self, at: usize, on: bool)
        requires { at < 64 * length self.old }
        ensures { ChangesMark at on self.old self.new }
    {
        set_mark(&mut self.bits, at, on);
    }

    /// The lowest mark from `from` on.
    pub(crate) fn next(&self, from: usize) -> Option<usize>
        ensures { FindsFrom self.now from result }
    {
        first_in_word(&self.bits, from)
    }
}
