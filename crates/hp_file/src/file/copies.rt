//! Copies at a map's indices.
ghost use Rattle.std.specs.Prelude.{◌≡◌, ◌≤◌, ℕ, ◌<◌, length, slice_set, Some, IsSome, IsTrue};
ghost use Rattle.hp_model.specs.files.Mapping.{copy_of, is_live, place_at};
ghost use Rattle.hp_mapping.specs.Mapped.{at_place, with_copy};
ghost use Rattle.hp_file.specs.Taking.{first_copy, with_taken_back};
ghost use Rattle.hp_file.specs.HeldPages.{AreDropped, AreHeld};
ghost use Rattle.hp_lookup.specs.Held.{in_file};
ghost use Rattle.hp_lookup.specs.Numbered.{mapping_at};

use super::File;
use crate::dropping::take_from_others;
use crate::held_pages::HeldPages;
use hp_model::naming::Naming;
use hp_model::page_no::PageNo;

impl File {
    /// The page is the copy at a map's index, and an owner's reservation for it is consumed.
    pub fn put_copy(&mut self, map: usize, index: u64, number: PageNo)
        requires within { map < length self.old.maps }
        requires live { IsTrue (is_live (place_at (mapping_at self.old map) index)) }
        ensures { self.new ≡ record self.old {
          maps = slice_set self.old.maps map
              (at_place (first_copy (mapping_at self.old map).owner number) index
              (mapping_at self.old map));
        } }
    {
        let at = &mut self.maps[map];
        at.set_copy(index, number);
        if at.is_owner() {
            at.consume(index);
        }
    }

    /// The page takes the place of the copy at a map's index, which is answered.
    pub fn replace_copy(&mut self, map: usize, index: u64, number: PageNo) -> PageNo
        requires within { map < length self.old.maps }
        requires copy { IsSome (copy_of (place_at (mapping_at self.old map) index)) }
        ensures old { copy_of (place_at (mapping_at self.old map) index) ≡ Some result }
        ensures file { self.new ≡ record self.old {
          maps = slice_set self.old.maps map
              (at_place (with_copy number) index (mapping_at self.old map));
        } }
    {
        let at = &mut self.maps[map];
        let old = at.copy_at(index).unwrap();
        at.set_copy(index, number);
        old
    }

    /// All other maps lose a map's copy at an index, and are marked.
    pub fn take_back<N: Naming>(&mut self, map: usize, index: u64, pages: &mut HeldPages<N>)
        requires within { map < length self.old.maps }
        requires copy { IsSome (copy_of (place_at (mapping_at self.old map) index)) }
        requires held { AreHeld (λ n. in_file n self.old) pages.old }
        ensures file { (number : ℕ) → copy_of (place_at (mapping_at self.old map) index)
            ≡ Some number
            → self.new ≡ with_taken_back number map index self.old }
        ensures dropping { AreDropped (λ n. in_file n self.old)
            (λ n. in_file n self.new) pages.old pages.new }
    {
        let number = self.maps[map].copy_at(index).unwrap();
        take_from_others(&mut self.maps, map, index, number, pages);
    }
}
