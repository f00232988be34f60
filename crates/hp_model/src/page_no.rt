//! Numbers of pages in use.
ghost use Rattle.std.specs.Prelude.{◌≡◌};

use std::marker::Model;

/// The number of a page in use. It is below 2^32, and contracts see the number.
#[derive(Clone, Copy, Debug, PartialEq, Eq)]
pub struct PageNo {
    number: u32,
}

impl Model for PageNo {
    ghost use Rattle.std.specs.Prelude.{ℕ};
    ghost use Rattle.std.specs.Coded.{coded_ℕ};

    ghost Value = { ℕ };

    ghost coded = { coded_ℕ };

    ghost view = { λ p. p.number };

    ghost inverse = { λ n. record { number = n } };
}

impl PageNo {
    /// The page of this number.
    pub fn new(number: u32) -> Self
        ensures { result ≡ number }
    {
        PageNo { number }
    }

    /// Its number.
    pub fn number(self) -> u32
        ensures { result ≡ self }
    {
        self.number
    }
}
