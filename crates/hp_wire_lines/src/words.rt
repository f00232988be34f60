//! The pieces of a line.
ghost use Rattle.std.specs.Prelude.{◌≡◌, ◌+◌, ◌-◌, ◌<◌, ◌≤◌, ℕ, List, [], length, slice_index, true, false, IfNone, IfSome, Ok};
ghost use Rattle.std.specs.Int.{IsInRange};
ghost use Rattle.std.specs.List.{list_all};
ghost use Rattle.hp_model.specs.text.Words.{is_word_byte, number_at, number_read, piece_at, pieces_of_line};
ghost use Rattle.hp_model.specs.Profile.{most_line_bytes};
ghost use Rattle.hp_wire_lines.specs.Words.{between, number_after, piece_with, pieces_from};

use crate::hex_digits::decode;
use crate::known::is_known;
use hp_model::refusal::Refusal;
use hp_text::numbers;
use hp_text::pieces::first_piece;
use std::marker::Model;

/// The pieces of a line that aren't read yet: the line, and the place where the next of them begins.
/// Past the end of the line none is left.
#[derive(Drop)]
pub struct Words<'a> {
    line: &'a [u8],
    at: usize,
}

impl<'a> Model for Words<'a> {
    ghost use Rattle.std.specs.Prelude.{ℕ, ◌+◌, ◌≤◌, List, length};
    ghost use Rattle.hp_model.specs.Profile.{most_line_bytes};
    ghost use Rattle.hp_wire_lines.specs.Words.{pieces_from};

    ghost Value = { List (List ℕ) };

    // The pieces between the spaces.
    ghost view = { λ w. pieces_from w.at w.line.now };

    ghost invariant = { λ w. (length w.line.now ≤ most_line_bytes) × (w.at ≤ most_line_bytes + 1) };
}

impl<'a> Words<'a> {
    ghost use Rattle.hp_model.specs.Profile.{most_line_bytes};
    ghost use Rattle.hp_model.specs.text.Words.{pieces_of_line, piece_at, number_at, word_at, end_at};
    ghost use Rattle.hp_wire_lines.specs.Words.{IsReadAs, Takes, last_hex};
    ghost use Rattle.std.specs.Prelude.{◌≡◌, ◌≤◌, [], length, IfOk};

    #[inline(always)]
    pub fn new(line: &'a [u8]) -> Words<'a>
        requires { length line.now ≤ most_line_bytes }
        ensures { result ≡ pieces_of_line line.entry.now }
    {
        Words { line, at: 0 }
    }

    /// The pieces behind a line's first, where that is this word and a space ends it. A line that is this word alone has none.
    #[inline(always)]
    pub fn behind(line: &'a [u8], word: &[u8]) -> Option<Words<'a>>
        requires line { length line.now ≤ most_line_bytes }
        requires printed { list_all is_word_byte word.now ≡ true }
        ensures some { IfSome result (λ words.
            piece_at (pieces_of_line line.entry.now) ≡ Ok (word.now, words)) }
        ensures none { IfNone result ((words : List (List ℕ))
            → piece_at (pieces_of_line line.entry.now) ≡ Ok (word.now, words) → words ≡ []) }
    {
        let end = word.len();
        if line.len() <= end || line[end] != b' ' || !is_known(&line[..end], word) {
            return None;
        }
        Some(Words { line, at: end + 1 })
    }

    /// Takes the next piece.
    #[inline(always)]
    pub fn piece(&mut self) -> Result<&'a [u8], Refusal>
        ensures value { Takes (λ x. x.now) result self.new (piece_at self.old) }
        ensures short { IfOk result (λ x. length x.now ≤ most_line_bytes) }
    {
        let line = self.line;
        let from = self.at;
        if from > line.len() {
            return Err(Refusal::BadLine);
        }
        let (piece, _) = first_piece(b' ', &line[from..]);
        self.at = from + piece.len() + 1;
        Ok(piece)
    }

    /// Takes the next piece, which is likely short: the first bytes are looked at with no walk.
    #[inline(always)]
    pub fn short_piece(&mut self) -> Result<&'a [u8], Refusal>
        ensures value { Takes (λ x. x.now) result self.new (piece_at self.old) }
        ensures short { IfOk result (λ x. length x.now ≤ most_line_bytes) }
    {
        let line = self.line;
        let from = self.at;
        let Some(end) = near_end(line, from) else {
            return self.piece();
        };
        self.at = end + 1;
        Ok(&line[from..end])
    }

    /// Takes the next piece, as a name or options.
    #[inline(always)]
    pub fn word(&mut self) -> Result<&'a [u8], Refusal>
        ensures { Takes (λ x. x.now) result self.new (word_at self.old) }
    {
        let line = self.line;
        let from = self.at;
        if from >= line.len() || !is_word_byte(line[from]) {
            return Err(Refusal::BadLine);
        }
        let end = end_of_word(line, from);
        if end < line.len() && line[end] != b' ' {
            return Err(Refusal::BadLine);
        }
        self.at = end + 1;
        Ok(&line[from..end])
    }

    /// Takes the next piece, as a number.
    #[inline(always)]
    pub fn number(&mut self) -> Result<u64, Refusal>
        ensures { Takes (λ n. n) result self.new (number_at self.old) }
    {
        let line = self.line;
        let from = self.at;
        if from >= line.len() || !line[from].is_ascii_digit() {
            return self.far_number();
        }
        // Most numbers have one digit.
        if from + 1 < line.len() && line[from + 1] == b' ' {
            let digit = u64::from(line[from] - b'0');
            self.at = from + 2;
            return Ok(digit);
        }
        let (value, at) = front_number(line, from);
        if at < line.len() && line[at] != b' ' {
            return self.far_number();
        }
        self.at = at + 1;
        Ok(value)
    }

    // As `any_number`, by a copy: the place need not stand in memory for the numbers that are read with no call.
    #[inline(always)]
    fn far_number(&mut self) -> Result<u64, Refusal>
        ensures { Takes (λ n. n) result self.new (number_at self.old) }
    {
        let mut words = self.copied();
        let number = words.any_number()?;
        *self = words;
        Ok(number)
    }

    /// The same pieces.
    #[inline(always)]
    pub fn copied(&self) -> Words<'a>
        ensures { result ≡ self.now }
    {
        Words {
            line: self.line,
            at: self.at,
        }
    }

    // A number of 20 digits, or what is no number.
    #[cold]
    #[inline(never)]
    fn any_number(&mut self) -> Result<u64, Refusal>
        ensures { Takes (λ n. n) result self.new (number_at self.old) }
    {
        let piece = self.piece()?;
        number_of(piece)
    }

    /// The bytes of hex digits that are the last word, in the front of the room. At least two digits.
    #[inline(always)]
    pub fn last_hex<'b>(&self, room: &'b mut [u8]) -> Result<&'b [u8], Refusal>
        requires { length room.old ≡ 512 }
        ensures { IsReadAs (λ x. x.now) result (last_hex self.now) }
    {
        if self.at > self.line.len() {
            return Err(Refusal::BadLine);
        }
        // A space is no digit, so the digits need not be cut off first.
        let digits = &self.line[self.at..];
        if digits.is_empty() || digits.len() % 2 != 0 {
            return Err(Refusal::BadLine);
        }
        let n = digits.len() / 2;
        let bytes = &mut room[..n];
        if !decode(digits, bytes) {
            return Err(Refusal::BadLine);
        }
        Ok(bytes)
    }

    /// Whether no piece is left.
    #[tactic(auto, unfolding(hp_model::specs::text::Words::end_at))]
    #[inline(always)]
    pub fn end(&self) -> Result<(), Refusal>
        ensures { result ≡ end_at self.now }
    {
        if self.at > self.line.len() {
            Ok(())
        } else {
            Err(Refusal::BadLine)
        }
    }
}

// Most first words of a line, each with the space behind it, have no more bytes.
const SHORT: usize = 8;

// Where the piece from a place on ends, if a space ends it that is near.
#[inline(always)]
fn near_end(line: &[u8], from: usize) -> Option<usize>
    requires { (length line.now ≤ most_line_bytes) × (from ≤ most_line_bytes + 1) }
    ensures { IfSome result (λ end. (from ≤ end) × (end < length line.now)
        × (piece_at (pieces_from from line.now)
        ≡ Ok (between from end line.now, pieces_from (end + 1) line.now))) }
{
    if line.len() < from + SHORT {
        return None;
    }
    'near: for i in 0..SHORT {
        if line[from + i] == b' ' {
            return Some(from + i);
        }
    }
    None
}

// Where the printed characters from a place on end. One stands there.
#[inline(always)]
fn end_of_word(line: &[u8], from: usize) -> usize
    requires line { length line.now ≤ most_line_bytes }
    requires from { from < length line.now }
    requires printed { is_word_byte (slice_index line.now from) ≡ true }
    ensures behind { from < result }
    ensures within { result ≤ length line.now }
    ensures printed { list_all is_word_byte (between from result line.now) ≡ true }
    ensures front { pieces_from from line.now
        ≡ piece_with (between from result line.now) (pieces_from result line.now) }
    ensures stops { result < length line.now
        → is_word_byte (slice_index line.now result) ≡ false }
{
    let rest = &line[from..];
    let mut n = 1;
    while n < rest.len() && is_word_byte(rest[n]) {
        n += 1;
    }
    from + n
}

// A printed character.
#[inline(always)]
fn is_word_byte(b: u8) -> bool
    ensures { result ≡ is_word_byte b }
{
    b >= 33 && b <= 126
}

// Numbers of so many digits are below 2^64.
const DIGITS: usize = 19;

// The number of the digits from a place on, where there is one, and where they end.
#[inline(always)]
fn front_number(line: &[u8], from: usize) -> (u64, usize)
    requires line { length line.now ≤ most_line_bytes }
    requires from { from < length line.now }
    requires digit { IsInRange 48 57 (slice_index line.now from) }
    ensures behind { from < result.1 }
    ensures within { result.1 ≤ length line.now }
    ensures few { result.1 ≤ from + DIGITS }
    ensures number { number_after result.0 (result.1 - from) (pieces_from result.1 line.now)
        ≡ number_at (pieces_from from line.now) }
{
    let end = line.len().min(from + DIGITS);
    let mut value = u64::from(line[from] - b'0');
    let mut at = from + 1;
    while at < end && line[at].is_ascii_digit() {
        value = value * 10 + u64::from(line[at] - b'0');
        at += 1;
    }
    (value, at)
}

/// Reads a piece as a number.
pub fn number_of(piece: &[u8]) -> Result<u64, Refusal>
    ensures { result ≡ number_read piece.now }
{
    numbers::number_of(piece).ok_or(Refusal::BadLine)
}
