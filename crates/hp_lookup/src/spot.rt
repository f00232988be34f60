//! Where a file lies, with its tag.
ghost use Rattle.std.specs.Prelude.{◌≡◌, ◌%◌};
ghost use Rattle.hp_lookup.specs.Spots.{all_places};

use std::marker::Model;

// So many places have a number of 16 bits.
const PLACES: u64 = 65_536;

// So many tags fit above it.
const TAGS: u64 = 1 << 48;

/// A tag's last 48 bits above a number's last 16.
pub fn word_of(tag: u64, number: u64) -> u64
    ensures { result % all_places ≡ number % all_places }
{
    tag % TAGS * PLACES + number % PLACES
}

pub fn number_in(word: u64) -> u16
    ensures { result ≡ word % all_places }
{
    (word % PLACES) as u16
}

pub fn tag_in(word: u64) -> u64 {
    word / PLACES
}

/// The number of the place where a file lies, of 16 bits, and above it 48 bits of the file's tag, in one word. Contracts see the
/// number.
#[derive(Drop)]
pub struct TaggedNumber {
    word: u64,
}

impl Model for TaggedNumber {
    ghost use Rattle.std.specs.Prelude.{ℕ, ◌%◌};
    ghost use Rattle.hp_lookup.specs.Spots.{all_places};

    ghost Value = { ℕ };

    ghost view = { λ s. s.word % all_places };
}

impl TaggedNumber {
    pub fn new(tag: u64, number: u16) -> Self
        ensures { result ≡ number }
    {
        TaggedNumber {
            word: word_of(tag, number as u64),
        }
    }

    pub fn number(&self) -> u16
        ensures { result ≡ self.now }
    {
        number_in(self.word)
    }

    pub fn tag(&self) -> u64 {
        tag_in(self.word)
    }
}
