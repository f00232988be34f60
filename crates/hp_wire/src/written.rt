//! Bytes that a writer took, or a reader gave. It takes no memory, and its functions do nothing at run time: proofs alone read it.
ghost use Rattle.std.specs.Prelude.{◌≡◌, ℕ, List, [], ◌++◌};
ghost use Rattle.std.specs.Borrow.{ftrue};

use std::marker::Model;

/// All bytes that were written, or read, in order.
#[derive(Drop)]
pub struct Written {
    pub ghost bytes: { List ℕ },
}

impl Model for Written {
    ghost also_owns = { λ _. ftrue };
}

impl Written {
    /// None yet.
    pub fn new() -> Written
        ensures { result.bytes ≡ [] }
    {
        Written {}
    }

    /// What was written before, and these bytes behind it.
    pub fn with(_before: &Written, _bytes: &[u8]) -> Written
        ensures { result.bytes ≡ _before.now.bytes ++ _bytes.now }
    {
        Written {}
    }
}
