//! Which indices are entered, a bit for each: a range takes a step for each word of 64 indices.
ghost use Rattle.std.specs.Prelude.{ℕ, ◌≡◌, ◌+◌, ◌-◌, ◌*◌, ◌/◌, ◌<◌, ◌≤◌, ◌^◌, ◌&&◌, ◌||◌, [], not, length, true, false, IfOk, IsTrue, OnOk, OnErr};
ghost use Rattle.hp_model.specs.beside.Ranges.{within};
ghost use Rattle.hp_inode.specs.EntryBlock.{count_in, missing_in, FindsWord, IsEntries, IsRemoved};
ghost use Rattle.hp_marks.specs.Marks.{marked};

use crate::bits::count_bits;
use crate::block::Block;
use hp_marks::marks::{
    WORD, bits_within, change_mark, clear_marks, first_within, make_places, set_mark, set_marks,
};
use smallvec::SmallVec;
use std::alloc::{AllocError, Global};
use std::marker::Model;

/// A set of indices, and a mark at each word of it that has one, so that words with none are passed 64 at a step.
/// Contracts see the words. Only `make_room` asks for memory, and for the first 64 indices it takes none.
#[derive(Drop)]
pub struct EntryBlock {
    words: SmallVec<u64, 1>,
    marks: SmallVec<u64, 1>,
}

impl Model for EntryBlock {
    ghost use Rattle.std.specs.Prelude.{List, ℕ};
    ghost use Rattle.hp_inode.specs.EntryBlock.{IsEntries};

    ghost Value = { List ℕ };

    ghost view = { λ e. e.words.items };

    ghost invariant = { λ e. IsEntries e.words.items e.marks.items };
}

impl Block for EntryBlock {
    ghost empty = { [] };

    fn new(alloc: Global) -> Self {
        EntryBlock {
            words: SmallVec::new(alloc),
            marks: SmallVec::new(alloc),
        }
    }
}

impl EntryBlock {
    /// Whether the index `i` is in the set.
    pub fn contains(&self, i: u64) -> bool
        ensures { result ≡ marked self.now i }
    {
        let words = self.words.as_slice();
        let at = i as usize / WORD;
        at < words.len() && words[at] >> (i as usize % WORD) & 1 == 1
    }

    /// How many indices from `a` up to `b` are not in the set.
    pub fn missing(&self, a: u64, b: u64) -> u64
        ensures { result ≡ missing_in self.now a b }
    {
        b.saturating_sub(a) - count_bits(self.words.as_slice(), self.marks.as_slice(), a, b)
    }

    /// Whether there is room for an index, and none is in the set.
    pub fn is_spent(&self) -> bool
        ensures { IsTrue result → (k : ℕ) → marked self.now k ≡ false }
    {
        let words = self.words.len();
        words > 0 && self.next_word(0, words).is_none()
    }

    /// Makes room for the indices from `a` up to `b`. For none it takes no memory.
    pub fn make_room(&mut self, a: u64, b: u64) -> Result<(), AllocError>
        requires { b < 2 ^ 32 }
        ensures ok { OnOk result (a < b → b ≤ 64 * length self.new) }
        ensures same { (k : ℕ) → marked self.new k ≡ marked self.old k }
        ensures err { OnErr result (self.new ≡ self.old) }
    {
        if a >= b || b as usize <= WORD * self.words.len() {
            return Ok(());
        }
        make_places(&mut self.marks, (b as usize).div_ceil(WORD))?;
        make_places(&mut self.words, b as usize)?;
        Ok(())
    }

    /// Puts the indices from `a` up to `b` in.
    #[inline(always)]
    pub fn add(&mut self, a: u64, b: u64)
        requires { a < b → b ≤ 64 * length self.old }
        ensures { (k : ℕ) → marked self.new k ≡ (marked self.old k || within a b k) }
    {
        if a >= b {
            return;
        }
        let (a, b) = (a as usize, b as usize);
        set_marks(self.words.as_mut_slice(), a, b);
        set_marks(self.marks.as_mut_slice(), a / WORD, b.div_ceil(WORD));
    }

    /// Puts one index in, with the room for it, and answers whether it was not there.
    #[inline(always)]
    pub fn enter(&mut self, i: u64) -> Result<bool, AllocError>
        requires { i + 1 < 2 ^ 32 }
        ensures fresh { IfOk result (λ fresh. fresh ≡ not (marked self.old i)) }
        ensures ok { OnOk result ((k : ℕ) → marked self.new k
            ≡ (marked self.old k || within i (i + 1) k)) }
        ensures err { OnErr result (self.new ≡ self.old) }
    {
        self.make_room(i, i + 1)?;
        Ok(self.insert(i))
    }

    // Puts one index in, and answers whether it was not there.
    #[inline(always)]
    fn insert(&mut self, i: u64) -> bool
        requires { i < 64 * length self.old }
        ensures fresh { result ≡ not (marked self.old i) }
        ensures here { (k : ℕ) → marked self.new k ≡ (marked self.old k || within i (i + 1) k) }
    {
        if self.contains(i) {
            return false;
        }
        let at = i as usize / WORD;
        let words = self.words.as_mut_slice();
        let had = words[at] != 0;
        set_mark(words, i as usize, true);
        change_mark(&mut self.marks, at, had, true);
        true
    }

    /// Takes one index out.
    #[inline(always)]
    pub fn take_out(&mut self, i: u64)
        requires { marked self.old i ≡ true }
        ensures { (k : ℕ) → marked self.new k
            ≡ (marked self.old k && not (within i (i + 1) k)) }
    {
        let at = i as usize / WORD;
        let words = self.words.as_mut_slice();
        set_mark(words, i as usize, false);
        let some = words[at] != 0;
        change_mark(&mut self.marks, at, true, some);
    }

    /// Takes the indices from `a` up to `b` out, and answers how many there were.
    #[inline(always)]
    pub fn remove(&mut self, a: u64, b: u64) -> u64
        ensures count { result ≡ count_in self.old a b }
        ensures left { (k : ℕ) → marked self.new k ≡ (marked self.old k && not (within a b k)) }
    {
        let (a, b) = (a as usize, (b as usize).min(WORD * self.words.len()));
        if a >= b {
            return 0;
        }
        let (first, last) = (a / WORD, (b - 1) / WORD);
        if first == last {
            return self.remove_in_word(a, b);
        }
        let head = self.remove_in_word(a, WORD * (first + 1));
        let middle = self.remove_words(first + 1, last);
        head + middle + self.remove_in_word(WORD * last, b)
    }

    // Takes the indices of one word from `a` up to `b` out, and answers how many there were.
    fn remove_in_word(&mut self, a: usize, b: usize) -> u64
        requires some { a < b }
        requires one { b ≤ 64 * (a / 64) + 64 }
        requires within { b ≤ 64 * length self.old }
        ensures removed { IsRemoved a b self.old self.new result }
        ensures len { length self.new ≡ length self.old }
    {
        let at = a / WORD;
        let bits = bits_within(at, a, b);
        let word = self.words.as_slice()[at];
        let left = word & !bits;
        self.words.as_mut_slice()[at] = left;
        set_mark(self.marks.as_mut_slice(), at, left != 0);
        u64::from((word & bits).count_ones())
    }

    // Takes the indices of the words from `from` up to `end` out, and answers how many there were.
    fn remove_words(&mut self, from: usize, end: usize) -> u64
        requires order { from ≤ end }
        requires within { end ≤ length self.old }
        ensures removed { IsRemoved (64 * from) (64 * end) self.old self.new result }
        ensures len { length self.new ≡ length self.old }
    {
        let count = clear_words(self.words.as_mut_slice(), self.marks.as_slice(), from, end);
        clear_marks(self.marks.as_mut_slice(), from, end);
        count
    }

    // The first of the words from `from` up to `end` that has an index.
    fn next_word(&self, from: usize, end: usize) -> Option<usize>
        ensures { FindsWord self.now from end result }
    {
        first_within(self.marks.as_slice(), from, end)
    }
}

// Clears the words from `from` up to `end`, and answers how many bits they had. Those with no mark are passed.
fn clear_words(words: &mut [u64], marks: &[u64], from: usize, end: usize) -> u64
    requires entries { IsEntries words.old marks.now }
    requires order { from ≤ end }
    requires within { end ≤ length words.old }
    ensures { IsRemoved (64 * from) (64 * end) words.old words.new result }
{
    let mut count = 0;
    let mut at = from;
    while at < end {
        let word = words[at];
        if word == 0 {
            at = first_within(marks, at + 1, end).unwrap_or(end);
        } else {
            words[at] = 0;
            let next = clear_full(words, at + 1, end);
            count += u64::from(word.count_ones()) + 64 * (next - at - 1) as u64;
            at = next;
        }
    }
    count
}

// Clears the full words from `from` on, up to `end` at most, and answers where they end.
fn clear_full(words: &mut [u64], from: usize, end: usize) -> usize
    requires order { from ≤ end }
    requires within { end ≤ length words.old }
    ensures from { from ≤ result }
    ensures to { result ≤ end }
    ensures removed { IsRemoved (64 * from) (64 * result) words.old words.new
        (64 * (result - from)) }
{
    let mut at = from;
    while at < end && words[at] == u64::MAX {
        words[at] = 0;
        at += 1;
    }
    at
}
