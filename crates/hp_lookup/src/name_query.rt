//! What a file's name is looked up by.
ghost use Rattle.std.specs.Prelude.{[], ◌∷◌, nat_eq};
ghost use Rattle.std.specs.Cmp.Lexicographic.{bytes_decides, pointwise, nat_list_eq_equiv};
ghost use Rattle.std.specs.Cmp.Rules.{hashing};
ghost use Rattle.std.proofs.Common.{ap, rules};

use crate::name::FileName;
use crate::tagged::Tagged;
use indexmap::Equivalent;
use std::hash::{Hash, Hasher};

/// A name that lies elsewhere, to look for. It is hashed as a file's name is, and takes no memory.
#[derive(Clone, Copy, PartialEq, Eq)]
pub struct NameQuery<'a> {
    pub name: &'a [u8],
}

impl<'a> Hash for NameQuery<'a> {
    ghost hash_input = { λ q. q.name.now ∷ [] };

    ghost respects_eq = { Prim.search (hashing, rules) };

    fn hash<H: Hasher>(&self, state: &mut H) {
        state.write(self.name);
    }
}

impl<'a, T> Equivalent<Tagged<FileName, T>> for NameQuery<'a> {
    ghost equivalent = { λ q k. pointwise nat_eq q.name.now k };

    ghost respects_hash = { λ q k h. ap (λ b. b ∷ []) ((bytes_decides q.name.now k).0 h) };

    ghost respects_eq = { λ q x y. nat_list_eq_equiv.congr q.name.now x y };

    fn equivalent(&self, noted: &Tagged<FileName, T>) -> bool {
        self.name == noted.key().as_slice()
    }
}
