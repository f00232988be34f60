//! The marks of a map, few or many.
ghost use Rattle.std.specs.Prelude.{◌≡◌, ℕ, ◌*◌, ◌<◌, ◌≤◌, true, length, IfOk};
ghost use Rattle.hp_marks.specs.Marks.{marked, FindsFrom};
ghost use Rattle.hp_mapping.specs.Marks.{IsUnmarkedFrom, ChangesMark};

use crate::summed::Summed;
use crate::word::Word;
use std::alloc::{AllocError, Global};
use std::marker::Model;

// Fewer marks than that stand in a word.
const MANY: usize = 64;

/// A mark for each number below a limit. Few take no memory of their own. Contracts see the words.
#[derive(Drop)]
pub(crate) struct Marks {
    form: Form,
}

#[derive(Drop)]
enum Form {
    Few(Word),
    Many(Box<Summed>),
}

impl Model for Marks {
    ghost use Rattle.std.specs.Prelude.{ℕ, List};
    ghost use Rattle.hp_mapping.specs.Forms.{words_of};

    ghost Value = { List ℕ };

    ghost view = { λ m. words_of m.form };
}

impl Marks {
    /// For the numbers below `count`, with no mark.
    pub(crate) fn new(alloc: Global, count: usize) -> Result<Self, AllocError>
        ensures blank { IfOk result (λ m. IsUnmarkedFrom 0 m) }
        ensures room { IfOk result (λ m. count ≤ 64 * length m) }
    {
        let form = if count < MANY {
            Form::Few(Word::all(0))
        } else {
            Form::Many(Box::new(alloc, Summed::new(alloc, count)?)?)
        };
        Ok(Marks { form })
    }

    /// Marks of all numbers below `count`.
    pub(crate) fn all(alloc: Global, count: usize) -> Result<Self, AllocError>
        ensures marked { IfOk result (λ m. (k : ℕ) → k < count → marked m k ≡ true) }
        ensures blank { IfOk result (λ m. IsUnmarkedFrom count m) }
        ensures room { IfOk result (λ m. count ≤ 64 * length m) }
    {
        let form = if count < MANY {
            Form::Few(Word::all(count))
        } else {
            Form::Many(Box::new(alloc, Summed::all(alloc, count)?)?)
        };
        Ok(Marks { form })
    }

    /// The same marks in memory of their own.
    pub(crate) fn copied(&self, alloc: Global) -> Result<Self, AllocError>
        ensures { IfOk result (λ m. m ≡ self.now) }
    {
        let form = match &self.form {
            Form::Few(word) => Form::Few(word.copied()),
            Form::Many(marks) => Form::Many(Box::new(alloc, marks.copied()?)?),
        };
        Ok(Marks { form })
    }

    /// Sets or clears a mark.
    #[inline(always)]
    pub(crate) fn change(&mut self, at: usize, on: bool)
        requires { at < 64 * length self.old }
        ensures { ChangesMark at on self.old self.new }
    {
        match &mut self.form {
            Form::Few(word) => word.change(at, on),
            Form::Many(marks) => marks.change(at, on),
        }
    }

    /// The lowest mark from `from` on.
    pub(crate) fn next(&self, from: usize) -> Option<usize>
        ensures { FindsFrom self.now from result }
    {
        match &self.form {
            Form::Few(word) => word.next(from),
            Form::Many(marks) => marks.next(from),
        }
    }
}
