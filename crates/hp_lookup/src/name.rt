//! The name of a file.
ghost use Rattle.std.specs.Prelude.{◌≡◌, ◌≤◌, [], ◌∷◌, length, nat_eq, IfOk, IsOk};
ghost use Rattle.std.specs.Cmp.Lexicographic.{pointwise, nat_list_eq_equiv};
ghost use Rattle.std.specs.Cmp.{partial_equiv_from_equiv};
ghost use Rattle.std.specs.Cmp.Rules.{hashing};
ghost use Rattle.std.proofs.Common.{rules};
ghost use Rattle.hp_model.specs.Profile.{most_name_bytes};

use crate::name_bytes::NameBytes;
use std::alloc::{AllocError, Global};
use std::hash::{Hash, Hasher};
use std::marker::Model;

/// The name of a file: at most `MOST_NAME_BYTES`. It is hashed in one piece. Contracts see the list of them.
pub struct FileName {
    bytes: NameBytes,
}

impl Model for FileName {
    ghost use Rattle.std.specs.Prelude.{List, ℕ, ◌≤◌, length};
    ghost use Rattle.hp_model.specs.Profile.{most_name_bytes};
    ghost use Rattle.hp_lookup.specs.Name.{HasRoom, bytes_of};

    ghost Value = { List ℕ };

    ghost view = { λ n. bytes_of n.bytes };

    ghost invariant = { λ n. (length (bytes_of n.bytes) ≤ most_name_bytes) × HasRoom n.bytes };
}

// What drops one calls this, and need not know what it holds.
impl Drop for FileName {
    fn drop(self) {
        let FileName { bytes: _bytes } = self;
    }
}

impl FileName {
    /// A copy of some bytes. Refused where memory is, and never up to 30 bytes.
    #[inline(always)]
    pub fn new(alloc: Global, name: &[u8]) -> Result<Self, AllocError>
        requires { length name.now ≤ most_name_bytes }
        ensures copy { IfOk result (λ own. own ≡ name.now) }
        ensures few { length name.now ≤ 30 → IsOk result }
    {
        let bytes = NameBytes::new(alloc, name)?;
        Ok(FileName { bytes })
    }

    /// The same name once more. Refused where memory is.
    #[inline(always)]
    pub fn copy(&self, alloc: Global) -> Result<Self, AllocError>
        ensures { IfOk result (λ copy. copy ≡ self.now) }
    {
        let bytes = self.bytes.copy(alloc)?;
        Ok(FileName { bytes })
    }

    #[inline(always)]
    pub fn as_slice(&self) -> &[u8]
        ensures name { result.now ≡ self.now }
        ensures few { length result.now ≤ most_name_bytes }
    {
        self.bytes.as_slice()
    }
}

impl PartialEq for FileName {
    ghost eq = { pointwise nat_eq };

    ghost laws = { partial_equiv_from_equiv nat_list_eq_equiv };

    fn eq(&self, other: &Self) -> bool {
        self.as_slice() == other.as_slice()
    }
}

impl Eq for FileName {
    ghost laws = { nat_list_eq_equiv };
}

impl Hash for FileName {
    ghost hash_input = { λ k. k ∷ [] };

    ghost respects_eq = { Prim.search (hashing, rules) };

    fn hash<H: Hasher>(&self, state: &mut H) {
        state.write(self.as_slice());
    }
}
