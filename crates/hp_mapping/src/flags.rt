//! The flags of a map.
ghost use Rattle.std.specs.Prelude.{⊤, ◌≡◌, [], ◌∷◌, true, false, codes};
ghost use Rattle.std.specs.Int.RustNames.{bit_and, bit_or};
ghost use Rattle.hp_model.specs.files.Mapping.{is_shared};
ghost use Rattle.hp_mapping.specs.Flags.{has_owner, has_unmapped, sharing_of_bits};

use bitflags::{Flag, Flags, bitflag_items};

/// What a map is, beside its range.
#[derive(Clone, Copy, PartialEq, Eq, Debug)]
pub struct MapFlags(u8);

bitflag_items! {
    impl MapFlags: u8 {
        const SHARED = 1;
        const NORESERVE = 2;
        const OWNER = 4;
        const UNMAPPED = 8;
    }
}

impl Flags for MapFlags {
    type Bits = u8;

    ghost exact = { ⊤ };

    ghost table = { (codes "SHARED", 1) ∷ (codes "NORESERVE", 2) ∷ (codes "OWNER", 4)
        ∷ (codes "UNMAPPED", 8) ∷ [] };

    ghost set_of = { λ f. f.0 };

    fn flags<'a>() -> &'a [Flag<MapFlags>] {
        MapFlags::FLAGS
    }

    fn bits(&self) -> u8 {
        self.0
    }

    fn from_bits_retain(bits: u8) -> MapFlags {
        MapFlags(bits)
    }
}

impl MapFlags {
    pub fn is_shared(self) -> bool
        ensures { result ≡ is_shared (sharing_of_bits self.0) }
    {
        self.contains(MapFlags::SHARED)
    }

    pub fn is_owner(self) -> bool
        ensures { result ≡ has_owner self.0 }
    {
        self.contains(MapFlags::OWNER)
    }

    pub fn is_marked(self) -> bool
        ensures { result ≡ has_unmapped self.0 }
    {
        self.contains(MapFlags::UNMAPPED)
    }

    /// The flags with the mark that a copy was taken away.
    pub(crate) fn marked(self) -> Self
        ensures unmapped { has_unmapped result.0 ≡ true }
        ensures owner { has_owner result.0 ≡ has_owner self.0 }
        ensures sharing { sharing_of_bits result.0 ≡ sharing_of_bits self.0 }
    {
        self.union(MapFlags::UNMAPPED)
    }

    /// The flags of a child's map.
    pub(crate) fn without_owner(self) -> Self
        ensures owner { has_owner result.0 ≡ false }
        ensures unmapped { has_unmapped result.0 ≡ has_unmapped self.0 }
        ensures sharing { sharing_of_bits result.0 ≡ sharing_of_bits self.0 }
    {
        self.difference(MapFlags::OWNER)
    }
}
