//! A key with its tag.
ghost use Rattle.std.specs.Prelude.{◌≡◌};

use std::cell::Cell;
use std::hash::{Hash, Hasher};
use std::marker::Model;

/// A key of a table, and beside it, so that both are read at once, a tag that may be set anew. It is found by the key alone, and
/// contracts see that alone.
#[derive(Drop)]
pub struct Tagged<K, T> {
    key: K,
    tag: Cell<T>,
}

impl<K, T> Model for Tagged<K, T> {
    ghost Value = { K };

    ghost view = { λ t. t.key };
}

impl<K, T> Tagged<K, T> {
    pub fn new(key: K, tag: T) -> Self
        ensures { result ≡ key }
    {
        Tagged {
            key,
            tag: Cell::new(tag),
        }
    }

    pub fn key(&self) -> &K
        ensures { result.now ≡ self.now }
    {
        &self.key
    }

    pub fn tag(&self) -> &Cell<T> {
        &self.tag
    }
}

impl<K: PartialEq, T> PartialEq for Tagged<K, T> {
    ghost eq = { K.eq };

    ghost laws = { K.laws };

    fn eq(&self, other: &Self) -> bool {
        self.key.eq(&other.key)
    }
}

impl<K: Eq, T> Eq for Tagged<K, T> {
    ghost laws = { K.Eq.laws };
}

impl<K: Hash, T> Hash for Tagged<K, T> {
    ghost hash_input = { K.hash_input };

    ghost respects_eq = { K.respects_eq };

    fn hash<H: Hasher>(&self, state: &mut H) {
        self.key.hash(state);
    }
}
