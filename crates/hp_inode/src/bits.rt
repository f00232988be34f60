//! How many bits a range of words has: words with none are passed 64 at a step, and full ones in a run.
ghost use Rattle.std.specs.Prelude.{ℕ, ◌≡◌, ◌≢◌, ◌+◌, ◌-◌, ◌*◌, ◌/◌, ◌^◌, ◌<◌, ◌≤◌, length, slice_index, true};
ghost use Rattle.hp_inode.specs.EntryBlock.{count_in, IsEntries};
ghost use Rattle.hp_marks.specs.Marks.{marked};

use hp_marks::marks::{WORD, bits_within, first_within};

/// How many indices from `a` up to `b` have a bit, in words with a mark at each that has one.
#[inline(always)]
pub fn count_bits(words: &[u64], marks: &[u64], a: u64, b: u64) -> u64
    requires { IsEntries words.now marks.now }
    ensures { result ≡ count_in words.now a b }
{
    let (a, b) = (a as usize, b as usize);
    if a < b && a / WORD == (b - 1) / WORD {
        return count_in_word(words, a, b);
    }
    count_in_words(words, marks, a, b)
}

// The same where they lie in one word.
#[inline(always)]
fn count_in_word(words: &[u64], a: usize, b: usize) -> u64
    requires some { a < b }
    requires one { b ≤ 64 * (a / 64) + 64 }
    ensures { result ≡ count_in words.now a b }
{
    let at = a / WORD;
    if at >= words.len() {
        return 0;
    }
    if words[at] == u64::MAX {
        return (b - a) as u64;
    }
    u64::from((words[at] & bits_within(at, a, b)).count_ones())
}

// The same where they lie in any words.
#[inline(never)]
fn count_in_words(words: &[u64], marks: &[u64], a: usize, b: usize) -> u64
    requires { IsEntries words.now marks.now }
    ensures { result ≡ count_in words.now a b }
{
    let end = b.div_ceil(WORD);
    let mut count = 0;
    let mut at = a / WORD;
    while let Some(next) = first_within(marks, at, end) {
        let here = u64::from((words[next] & bits_within(next, a, b)).count_ones());
        at = full_to(words, next + 1, b / WORD);
        count += here + 64 * (at - next - 1) as u64;
    }
    count
}

// Passes all full words from `from` on, up to `end` at most, and answers where they end.
fn full_to(words: &[u64], from: usize, end: usize) -> usize
    ensures from { from ≤ result }
    ensures to { from < result → result ≤ end }
    ensures full { (k : ℕ) → 64 * from ≤ k → k < 64 * result → marked words.now k ≡ true }
    ensures stops { result < end → result < length words.now
        → slice_index words.now result ≢ 2 ^ 64 - 1 }
{
    let last = end.min(words.len());
    let mut at = from;
    while at < last && words[at] == u64::MAX {
        at += 1;
    }
    at
}
