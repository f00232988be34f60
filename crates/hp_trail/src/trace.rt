//! A trail that keeps its entries or not, by a parameter of its type.
ghost use Rattle.std.specs.Prelude.{◌≡◌, ◌≤◌, ◌==◌, true, IfOk};
ghost use Rattle.hp_model.specs.Profile.{most_places};
ghost use Rattle.hp_trail.specs.Keeping.{extra_if, kept_if, left_if, kept_if_keeps, left_if_not, opened_if, most_extra};

use crate::kept::Kept;
use crate::trail::Trail;
use std::alloc::{AllocError, Global};
use std::marker::Model;

/// Keeps every entry where K is 1, as `Kept` does; else nothing, without end, and takes no memory.
#[derive(Drop)]
pub struct Trace<E, const K: usize> {
    kept: Kept<E>,
}

impl<E, const K: usize> Model for Trace<E, K> {
    ghost use Rattle.hp_trail.specs.Keeping.{Keeping};

    ghost Value = { Keeping E };

    ghost view = { λ t. t.kept };
}

impl<E: Drop, const K: usize> Trace<E, K> {
    /// A trail with room for `places` entries, and for `extra` closing ones more, where it keeps them.
    pub fn open(alloc: Global, places: usize, extra: usize) -> Result<Self, AllocError>
        requires places { places ≤ most_places }
        requires extra { extra ≤ most_extra }
        ensures { IfOk result (λ t. t ≡ opened_if (K == 1) places extra) }
    {
        let kept = if K == 1 {
            Kept::open(alloc, places, extra)?
        } else {
            Kept::open(alloc, 0, 0)?
        };
        Ok(Trace { kept })
    }

    /// The entries, of which there are none where it keeps none.
    pub fn into_entries(self) -> Vec<E>
        ensures { result.items ≡ self.entries }
    {
        let Trace { kept } = self;
        kept.into_entries()
    }
}

impl<E: Drop, const K: usize> Trail<E> for Trace<E, K> {
    ghost keeps = { K == 1 };

    ghost entries = { λ t. kept_if (K == 1) t };

    ghost left = { λ t. left_if (K == 1) t };

    ghost extra = { λ t. extra_if (K == 1) t };

    ghost kept = { λ t. kept_if_keeps (K == 1) t };

    ghost uncounted = { λ t none. left_if_not (K == 1) t none };

    fn is_kept(&self) -> bool {
        K == 1
    }

    fn place(&self) -> u64 {
        if K == 1 { self.kept.place() } else { 0 }
    }

    fn has_room(&self, closing: bool) -> bool {
        K != 1 || self.kept.has_room(closing)
    }

    fn push(&mut self, entry: E) {
        if K == 1 {
            self.kept.push(entry);
        }
    }
}
