//! The pages that maps show.
ghost use Rattle.std.specs.Prelude.{ℕ, ◌≡◌, ◌^◌, ◌+◌, ◌<◌, ◌≤◌, length, IfSome, IfNone, ◌||◌, false, Bool, None, Some, IsSome, IsTrue};
ghost use Rattle.hp_model.specs.files.Page.{zeros, Copy, Page as ThePage};
ghost use Rattle.hp_model.specs.files.Value.{shown};
ghost use Rattle.hp_lookup.specs.Files.{file_at, copied_at, parted_at, placed_at, taken_back_at, Files as TheFiles};
ghost use Rattle.std.specs.List.{sum_by, flat_map};
ghost use Rattle.hp_model.specs.files.MountCounts.{file_pages, stamps_of};
ghost use Rattle.hp_lookup.specs.Places.{shown_at, map_among};
ghost use Rattle.hp_model.specs.declared.place.Place.TheVariants.{Live};
ghost use Rattle.hp_model.specs.files.Mapping.{copy_of, is_live, place_at};
ghost use Rattle.hp_model.specs.files.Spot.{place_written};
ghost use Rattle.hp_model.specs.Lists.{is_among};
ghost use Rattle.hp_lookup.specs.declared.copy_state.CopyState.TheVariants as CopyState;
ghost use Rattle.hp_lookup.specs.Dropping.{IsLeft};
ghost use Rattle.hp_file.specs.States.{AreAgreed, IsCopyState};

use hp_lookup::{CopyState, MapPlace};
use hp_model::page_no::PageNo;

/// The pages that maps show at the indices of their files: a copy of the map's own, or the file's page.
///
/// A map is told by the place of its file, and by its own place there.
pub trait MapPages<P> {
    /// The files, as contracts see them.
    ghost seen: { Self → TheFiles };

    /// The bytes of a page.
    ghost page_bytes: { ℕ };

    /// A page, as contracts see it.
    ghost page_of: { P → ThePage };

    /// The page that a map shows at an index: its copy, else the file's page, if there is one.
    fn shown(&self, at: MapPlace, index: u64) -> Option<&P>
        requires file { at.file < length (seen self.now).files }
        requires map { at.map < length (file_at (seen self.now).files at.file).maps }
        ensures some { IfSome result (λ page. (page_of page.now).bytes
            ≡ shown_at page_bytes (seen self.now).files at index) }
        ensures none { IfNone result (shown_at page_bytes (seen self.now).files at index
            ≡ zeros page_bytes) };

    /// Whether a map has a copy at an index, and whether it alone holds it. No map is searched.
    fn copy(&self, at: MapPlace, index: u64) -> CopyState
        requires file { at.file < length (seen self.now).files }
        requires map { at.map < length (file_at (seen self.now).files at.file).maps }
        ensures state { IsCopyState result (file_at (seen self.now).files at.file)
            (place_at (map_among (seen self.now).files at.file at.map) index) }
        ensures agreed { AreAgreed (file_at (seen self.now).files at.file) }
        ensures few { result ≡ CopyState.HeldBySeveral
            → sum_by file_pages (seen self.now).files + (seen self.now).room ≤ 2 ^ 32 };

    /// Puts a page in as the copy at a map's index that has none, and answers its stamp, which is fresh. An owner's
    /// reservation for the index is consumed.
    fn put_copy(&mut self, at: MapPlace, index: u64, page: P) -> PageNo
        requires file { at.file < length (seen self.old).files }
        requires map { at.map < length (file_at (seen self.old).files at.file).maps }
        requires live { IsTrue (is_live
            (place_at (map_among (seen self.old).files at.file at.map) index)) }
        requires bare { copy_of
            (place_at (map_among (seen self.old).files at.file at.map) index) ≡ None }
        requires room { 0 < (seen self.old).room }
        ensures fresh { is_among result (flat_map stamps_of (seen self.old).files) ≡ false }
        ensures copied { (consumed : Bool)
            → place_at (map_among (seen self.old).files at.file at.map) index ≡ Live consumed None
            → seen self.new ≡ copied_at at.file at.map index
            ((map_among (seen self.old).files at.file at.map).owner || consumed)
            result (page_of page) (seen self.old) }
        ensures once { IsCopyState CopyState.HeldOnce (file_at (seen self.new).files at.file)
            (place_at (map_among (seen self.new).files at.file at.map) index) };

    /// Puts a page in the place of a copy that several maps hold, and answers its stamp, which is fresh. The others keep
    /// theirs. It takes no memory, as there is room for a page to each holder beyond the first.
    fn part(&mut self, at: MapPlace, index: u64, page: P) -> PageNo
        requires file { at.file < length (seen self.old).files }
        requires map { at.map < length (file_at (seen self.old).files at.file).maps }
        requires several { IsCopyState CopyState.HeldBySeveral
            (file_at (seen self.old).files at.file)
            (place_at (map_among (seen self.old).files at.file at.map) index) }
        ensures fresh { is_among result (flat_map stamps_of (seen self.old).files) ≡ false }
        ensures parted { (consumed : Bool) (copy : Copy)
            → place_at (map_among (seen self.old).files at.file at.map) index
            ≡ Live consumed (Some copy)
            → seen self.new ≡ parted_at at.file at.map index consumed
            result (page_of page) (seen self.old) }
        ensures once { IsCopyState CopyState.HeldOnce (file_at (seen self.new).files at.file)
            (place_at (map_among (seen self.new).files at.file at.map) index) };

    /// Takes a map's copy at an index from all other maps of its file, which are marked. It takes a step for each of these.
    fn take_back(&mut self, at: MapPlace, index: u64)
        requires file { at.file < length (seen self.old).files }
        requires map { at.map < length (file_at (seen self.old).files at.file).maps }
        requires copy { IsSome (copy_of
            (place_at (map_among (seen self.old).files at.file at.map) index)) }
        ensures files { (copy : Copy)
            → copy_of (place_at (map_among (seen self.old).files at.file at.map) index) ≡ Some copy
            → (seen self.new).files
            ≡ taken_back_at at.file at.map copy.stamp (seen self.old).files }
        ensures left { IsLeft 0 (seen self.old) (seen self.new) }
        ensures once { IsCopyState CopyState.HeldOnce (file_at (seen self.new).files at.file)
            (place_at (map_among (seen self.new).files at.file at.map) index) };

    /// Writes bytes into a copy at an index that the map alone holds, from an offset on.
    fn write_copy(&mut self, at: MapPlace, index: u64, offset: usize, bytes: &[u8])
        requires file { at.file < length (seen self.old).files }
        requires map { at.map < length (file_at (seen self.old).files at.file).maps }
        requires once { IsCopyState CopyState.HeldOnce (file_at (seen self.old).files at.file)
            (place_at (map_among (seen self.old).files at.file at.map) index) }
        requires fits { offset + length bytes.now ≤ page_bytes }
        ensures { seen self.new ≡ placed_at at.file at.map index
            (place_written offset bytes.now
            (place_at (map_among (seen self.old).files at.file at.map) index))
            (seen self.old) };
}
