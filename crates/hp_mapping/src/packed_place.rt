//! One place of a map, with the number of a page as its copy, in a word.
ghost use Rattle.std.specs.Prelude.{◌≡◌, ◌≤◌, length, map, not, vec_capacity, IfOk};
ghost use Rattle.hp_model.specs.declared.place.Place.TheVariants.{Gone};
ghost use Rattle.hp_model.specs.files.Mapping.{copy_of, is_live, is_unconsumed, without_copy, unconsumed};
ghost use Rattle.hp_mapping.specs.Mapped.{consumed, fresh, has_copy, with_copy};

use hp_model::page_no::PageNo;
use std::alloc::{AllocError, Global};
use std::marker::Model;
use std::mem::size_of;

// A page of a map costs this, once it or one behind it is touched, and a bit for each of the two marks.
const _: () = prove!(size_of::<PackedPlace>() <= 8);

// How many numbers pages can have.
const NUMBERS: u64 = 1 << 32;
// The place's reservation was consumed.
const CONSUMED: u64 = 1 << 32;
// The place is live, without a copy.
const BARE: u64 = 1 << 33;
// The place is live, with a copy.
const COPIED: u64 = 1 << 34;

/// An index of a map: not mapped any more; or mapped, with whether its reservation was consumed, and its private copy.
/// Contracts see that place.
#[derive(Drop)]
pub struct PackedPlace {
    // the copy's number in the lower half, and marks above it
    code: u64,
}

impl Model for PackedPlace {
    ghost use Rattle.std.specs.Prelude.{ℕ};
    ghost use Rattle.hp_model.specs.declared.place.Place.{Place};
    ghost use Rattle.hp_mapping.specs.Packed.{place_in};

    ghost Value = { Place ℕ };

    ghost view = { λ p. place_in p.code };
}

impl PackedPlace {
    /// A place that was never touched.
    pub(crate) fn fresh() -> Self
        ensures { result ≡ fresh }
    {
        PackedPlace { code: BARE }
    }

    /// The place of a child's map.
    pub(crate) fn forked(&self) -> Self
        ensures { result ≡ unconsumed self.now }
    {
        PackedPlace {
            code: self.code & !CONSUMED,
        }
    }

    pub(crate) fn is_live(&self) -> bool
        ensures { result ≡ is_live self.now }
    {
        self.code & (COPIED | BARE) != 0
    }

    pub(crate) fn is_unconsumed(&self) -> bool
        ensures { result ≡ is_unconsumed self.now }
    {
        self.is_live() && self.code & CONSUMED == 0
    }

    pub(crate) fn consume(&mut self)
        ensures { self.new ≡ consumed self.old }
    {
        self.code |= CONSUMED;
    }

    /// Says whether the place had no copy.
    pub(crate) fn set_copy(&mut self, page: PageNo) -> bool
        ensures set { self.new ≡ with_copy page self.old }
        ensures bare { result ≡ not (has_copy self.old) }
    {
        let bare = copy_in(self).is_none();
        if self.is_live() {
            self.code = (self.code & CONSUMED) + COPIED + u64::from(page.number());
        }
        bare
    }

    pub(crate) fn drop_copy(&mut self)
        ensures { self.new ≡ without_copy self.old }
    {
        if self.is_live() {
            self.code = (self.code & CONSUMED) + BARE;
        }
    }

    /// The place is not mapped any more. Says whether its reservation was there.
    pub(crate) fn leave(&mut self) -> bool
        ensures left { self.new ≡ Gone }
        ensures freed { result ≡ is_unconsumed self.old }
    {
        let freed = self.is_unconsumed();
        self.code = 0;
        freed
    }
}

/// The copy at a place, if it has one.
#[inline(always)]
pub fn copy_in(place: &PackedPlace) -> Option<PageNo>
    ensures { result ≡ copy_of place.now }
{
    if place.code & COPIED == 0 {
        return None;
    }
    Some(PageNo::new((place.code % NUMBERS) as u32))
}

/// The places of a child's map, with room for so many.
pub(crate) fn all_forked(
    alloc: Global,
    places: &[PackedPlace],
    room: usize,
) -> Result<Vec<PackedPlace>, AllocError>
    requires { length places.now ≤ room }
    ensures items { IfOk result (λ v. v.items ≡ map unconsumed places.now) }
    ensures room { IfOk result (λ v. vec_capacity v ≡ room) }
{
    let mut copies = Vec::with_capacity(alloc, room)?;
    for place in places {
        copies.push_reserved(place.forked());
    }
    Ok(copies)
}
