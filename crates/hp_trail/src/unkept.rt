//! A trail that keeps nothing.
ghost use Rattle.std.specs.Prelude.{None, false, refl};

use crate::trail::Trail;

/// Keeps nothing, and always has room.
#[derive(Drop)]
pub struct Unkept {}

impl<E: Drop> Trail<E> for Unkept {
    ghost keeps = { false };

    ghost entries = { λ k. None };

    ghost left = { λ k. None };

    ghost extra = { λ k. 0 };

    ghost kept = { λ k. refl };

    ghost uncounted = { λ k none. refl };

    fn is_kept(&self) -> bool {
        false
    }

    fn place(&self) -> u64 {
        0
    }

    fn has_room(&self, closing: bool) -> bool {
        true
    }

    fn push(&mut self, entry: E) {
        drop(entry);
    }
}
