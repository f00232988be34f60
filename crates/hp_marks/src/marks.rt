//! Marks in words: one is set or cleared, or a range of them, and the first from a number on is found a word at a time.
ghost use Rattle.std.specs.Prelude.{ℕ, ◌≡◌, ◌==◌, ◌+◌, ◌*◌, ◌/◌, ◌<◌, ◌≤◌, ◌^◌, ◌&&◌, ◌||◌, not, max, length, slice_index, OnOk, OnErr};
ghost use Rattle.std.specs.Int.{bit_at};
ghost use Rattle.hp_model.specs.beside.Ranges.{within};
ghost use Rattle.hp_marks.specs.Marks.{marked, FindsFrom, FindsWithin, IsFirstFrom};

use smallvec::SmallVec;
use std::alloc::AllocError;

/// How many marks a word has.
pub const WORD: usize = 64;

/// Sets or clears the mark of `k`.
pub fn set_mark(words: &mut [u64], k: usize, on: bool)
    requires { k < 64 * length words.old }
    ensures here { marked words.new k ≡ on }
    ensures others { (j : ℕ) → (j ≡ k → ⊥) → marked words.new j ≡ marked words.old j }
{
    let bit = 1 << (k % WORD) as u32;
    if on {
        words[k / WORD] |= bit;
        return;
    }
    words[k / WORD] &= !bit;
}

/// Sets or clears the mark of `k`. Where it is to be `already`, it is so.
#[inline(always)]
pub fn change_mark(words: &mut SmallVec<u64, 1>, k: usize, already: bool, on: bool)
    requires within { k < 64 * length words.old.items }
    requires known { already ≡ on → marked words.old.items k ≡ on }
    ensures here { marked words.new.items k ≡ on }
    ensures others { (j : ℕ) → (j ≡ k → ⊥) → marked words.new.items j ≡ marked words.old.items j }
    ensures len { length words.new.items ≡ length words.old.items }
{
    if already != on {
        set_mark(words.as_mut_slice(), k, on);
    }
}

/// The first number with a mark of a word that has one.
#[inline(always)]
pub fn lowest_in(words: &[u64], at: usize) -> usize
    requires some { 0 < slice_index words.now at }
    requires few { length words.now ≤ 2 ^ 58 }
    ensures { IsFirstFrom words.now (64 * at) result }
{
    WORD * at + words[at].trailing_zeros() as usize
}

/// The first number with a mark, of those from `n` on in its word.
#[inline(always)]
pub fn first_in_word(words: &[u64], n: usize) -> Option<usize>
    requires { length words.now ≤ 2 ^ 58 }
    ensures { FindsWithin words.now n (64 * (n / 64) + 64) result }
{
    let at = n / WORD;
    if at >= words.len() {
        return None;
    }
    let rest = words[at] >> (n % WORD);
    if rest == 0 {
        return None;
    }
    Some(n + rest.trailing_zeros() as usize)
}

/// The first number with a mark, of those from `n` on.
pub fn first_from(words: &[u64], n: usize) -> Option<usize>
    requires { length words.now ≤ 2 ^ 58 }
    ensures { FindsFrom words.now n result }
{
    if let Some(first) = first_in_word(words, n) {
        return Some(first);
    }
    for at in n / WORD + 1..words.len() {
        if words[at] != 0 {
            return Some(lowest_in(words, at));
        }
    }
    None
}

/// The first number with a mark, of those from `from` up to `end`.
pub fn first_within(words: &[u64], from: usize, end: usize) -> Option<usize>
    requires { length words.now ≤ 2 ^ 58 }
    ensures { FindsWithin words.now from end result }
{
    if from >= end {
        return None;
    }
    let searched = end.div_ceil(WORD).min(words.len());
    let next = first_from(&words[..searched], from)?;
    if next < end { Some(next) } else { None }
}

/// The bits of the word `at` whose numbers lie from `a` up to `b`.
pub fn bits_within(at: usize, a: usize, b: usize) -> u64
    requires from { a < 64 * at + 64 }
    requires to { 64 * at < b }
    ensures { (i : ℕ) → i < 64 → (bit_at result i == 1) ≡ within a b (64 * at + i) }
{
    let start = WORD * at;
    let low = a.saturating_sub(start);
    let high = (b - start).min(WORD);
    u64::MAX << low & u64::MAX >> (WORD - high)
}

/// Sets the marks from `a` up to `b`.
pub fn set_marks(words: &mut [u64], a: usize, b: usize)
    requires { b ≤ 64 * length words.old }
    ensures { (k : ℕ) → marked words.new k ≡ (marked words.old k || within a b k) }
{
    if a >= b {
        return;
    }
    let (first, last) = (a / WORD, (b - 1) / WORD);
    words[first] |= bits_within(first, a, b);
    if first == last {
        return;
    }
    for at in first + 1..last {
        words[at] = u64::MAX;
    }
    words[last] |= bits_within(last, a, b);
}

/// Clears the marks from `a` up to `b`.
pub fn clear_marks(words: &mut [u64], a: usize, b: usize)
    requires { b ≤ 64 * length words.old }
    ensures { (k : ℕ) → marked words.new k ≡ (marked words.old k && not (within a b k)) }
{
    for at in a / WORD..b.div_ceil(WORD) {
        words[at] &= !bits_within(at, a, b);
    }
}

/// Makes places for the marks of all numbers below `count`.
pub fn make_places(words: &mut SmallVec<u64, 1>, count: usize) -> Result<(), AllocError>
    ensures ok { OnOk result (count ≤ 64 * length words.new.items) }
    ensures marks { (k : ℕ) → marked words.new.items k ≡ marked words.old.items k }
    ensures more { length words.old.items ≤ length words.new.items }
    ensures err { OnErr result (words.new.items ≡ words.old.items) }
    ensures few { 64 * length words.new.items ≤ max (64 * length words.old.items) (count + 63) }
{
    let wanted = count.div_ceil(WORD);
    if wanted <= words.len() {
        return Ok(());
    }
    words.resize(wanted, 0)?;
    Ok(())
}
