//! Bytes that lie elsewhere: names, option texts and what a store writes, in a line or in a room.
ghost use Rattle.std.specs.Prelude.{◌≡◌};

use std::marker::Model;

/// Some bytes of another's. A contract sees the list of them, as of `Bytes`.
#[derive(Drop)]
pub struct Lent<'a> {
    slice: &'a [u8],
}

impl<'a> Model for Lent<'a> {
    ghost use Rattle.std.specs.Prelude.{List, ℕ};

    ghost Value = { List ℕ };

    ghost view = { λ l. l.slice.now };
}

impl<'a> Lent<'a> {
    /// The bytes of a slice, which are not copied.
    #[inline(always)]
    pub fn new(slice: &'a [u8]) -> Lent<'a>
        ensures { result ≡ slice.entry.now }
    {
        Lent { slice }
    }

    /// The bytes as a slice.
    #[inline(always)]
    pub fn as_slice(&self) -> &'a [u8]
        ensures { result.now ≡ self.now }
    {
        self.slice
    }
}
