//! Bytes with an owner: names, option texts and what a store writes.
ghost use Rattle.std.specs.Prelude.{◌≡◌, ◌≤◌, length, nat_eq, IfOk, IsOk};
ghost use Rattle.std.specs.Cmp.Lexicographic.{pointwise, nat_list_eq_equiv};
ghost use Rattle.std.specs.Cmp.{partial_equiv_from_equiv};

use std::alloc::{AllocError, Global};
use std::marker::Model;

// A file's name is not longer.
const SHORT: usize = 64;

/// Some bytes. Where they are few they lie in the value itself, else in memory of their own. A contract sees the list of
/// them.
#[derive(Drop, Debug)]
pub struct Bytes {
    count: usize,
    few: [u8; SHORT],
    many: Vec<u8>,
}

impl Model for Bytes {
    ghost use Rattle.std.specs.Prelude.{List, ℕ, ◌≤◌};
    ghost use Rattle.hp_model.specs.beside.Bytes.{kept};

    ghost Value = { List ℕ };

    ghost view = { λ a. kept a.count a.few a.many.items };

    ghost invariant = { λ a. a.count ≤ 64 };
}

impl Bytes {
    /// The bytes of a `Vec`. No memory is asked for.
    pub fn new(bytes: Vec<u8>) -> Bytes
        ensures { result ≡ bytes.items }
    {
        Bytes {
            count: 0,
            few: [0; SHORT],
            many: bytes,
        }
    }

    /// A copy of some bytes. Memory is asked for where they are more than 64.
    pub fn copied(alloc: Global, bytes: &[u8]) -> Result<Bytes, AllocError>
        ensures copy { IfOk result (λ copy. copy ≡ bytes.now) }
        ensures few { length bytes.now ≤ 64 → IsOk result }
    {
        let count = bytes.len();
        if count > SHORT {
            return Ok(Bytes::new(Vec::from_slice(alloc, bytes)?));
        }
        let mut few = [0; SHORT];
        few[..count].copy_from_slice(bytes);
        Ok(Bytes {
            count,
            few,
            many: Vec::new(alloc),
        })
    }

    /// The bytes as a slice.
    pub fn as_slice(&self) -> &[u8]
        ensures { result.now ≡ self.now }
    {
        if self.many.is_empty() {
            &self.few[..self.count]
        } else {
            self.many.as_slice()
        }
    }
}

impl PartialEq for Bytes {
    ghost eq = { pointwise nat_eq };

    ghost laws = { partial_equiv_from_equiv nat_list_eq_equiv };

    fn eq(&self, other: &Self) -> bool {
        self.as_slice() == other.as_slice()
    }
}

impl Eq for Bytes {
    ghost laws = { nat_list_eq_equiv };
}
