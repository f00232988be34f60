//! A trail that keeps its entries.
ghost use Rattle.std.specs.Prelude.{◌≡◌, ◌≤◌, ◌+◌, [], Some, true, refl, IfOk, vec_len, vec_capacity};
ghost use Rattle.hp_model.specs.Profile.{most_places};
ghost use Rattle.hp_trail.specs.Keeping.{left_if_not, places_left, most_extra};

use crate::trail::Trail;
use std::alloc::{AllocError, Global};
use std::marker::Model;

/// Keeps every entry, in room that was made at the start.
#[derive(Drop)]
pub struct Kept<E> {
    items: Vec<E>,
    places: usize,
    extra: usize,
    ghost fits: { vec_len items ≤ places + extra },
    ghost made: { places + extra ≤ vec_capacity items },
    ghost small: { places + extra ≤ 17301504 },
}

impl<E> Model for Kept<E> {
    ghost use Rattle.hp_trail.specs.Keeping.{Keeping};

    ghost Value = { Keeping E };

    ghost view = { λ k. record { entries = k.items.items; places = k.places; extra = k.extra } };
}

impl<E: Drop> Kept<E> {
    /// A trail with room for `places` entries, and for `extra` closing ones more.
    pub fn open(alloc: Global, places: usize, extra: usize) -> Result<Kept<E>, AllocError>
        requires places { places ≤ most_places }
        requires extra { extra ≤ most_extra }
        ensures { IfOk result (λ k. k ≡ record { entries = []; places = places; extra = extra }) }
    {
        let mut items = Vec::new(alloc);
        items.reserve(places + extra)?;
        Ok(Kept {
            items,
            places,
            extra,
        })
    }

    /// The entries.
    pub fn into_entries(self) -> Vec<E>
        ensures { result.items ≡ self.entries }
    {
        let Kept { items, .. } = self;
        items
    }
}

impl<E: Drop> Trail<E> for Kept<E> {
    ghost keeps = { true };

    ghost entries = { λ k. Some k.entries };

    ghost left = { λ k. Some (places_left k) };

    ghost extra = { λ k. k.extra };

    ghost kept = { λ k. refl };

    ghost uncounted = { λ k none. left_if_not true k none };

    fn is_kept(&self) -> bool {
        true
    }

    fn place(&self) -> u64 {
        self.items.len() as u64
    }

    fn has_room(&self, closing: bool) -> bool {
        let places = if closing {
            self.places + self.extra
        } else {
            self.places
        };
        self.items.len() < places
    }

    fn push(&mut self, entry: E) {
        self.items.push_reserved(entry);
    }
}
