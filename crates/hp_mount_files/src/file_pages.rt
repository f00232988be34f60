//! The pages of files.
ghost use Rattle.std.specs.Prelude.{ℕ, ◌≡◌, ◌^◌, ◌+◌, ◌<◌, ◌≤◌, max, length, OnOk, OnErr, IfSome, IfNone};
ghost use Rattle.hp_model.specs.declared.cell.Cell.TheVariants.{Hole, Entered};
ghost use Rattle.hp_model.specs.files.File.{cell_at};
ghost use Rattle.hp_model.specs.files.Spot.{cell_written};
ghost use Rattle.hp_model.specs.files.Page.{zeros, Page as ThePage};
ghost use Rattle.hp_model.specs.files.Value.{shown};
ghost use Rattle.hp_lookup.specs.Files.{file_at, with_cell_at, filled_at, Files as TheFiles};
ghost use Rattle.std.specs.List.{sum_by};
ghost use Rattle.hp_model.specs.files.MountCounts.{file_pages};
ghost use Rattle.hp_file.specs.declared.file.CellState.TheVariants as CellState;
ghost use Rattle.hp_file.specs.States.{IsState};

use hp_file::CellState;
use std::alloc::AllocError;

/// What stands at the indices of files, and the pages there.
///
/// A file is told by its place in the list.
pub trait FilePages<P> {
    /// The files, as contracts see them.
    ghost seen: { Self → TheFiles };

    /// The bytes of a page.
    ghost page_bytes: { ℕ };

    /// A page, as contracts see it.
    ghost page_of: { P → ThePage };

    /// What stands at an index.
    fn cell(&self, file: usize, index: u64) -> CellState
        requires { file < length (seen self.now).files }
        ensures { IsState result (cell_at (file_at (seen self.now).files file) index) };

    /// The bytes of a file's page at an index, if there is one.
    fn bytes(&self, file: usize, index: u64) -> Option<&[u8]>
        requires { file < length (seen self.now).files }
        ensures some { IfSome result (λ bytes. bytes.now
            ≡ shown page_bytes (cell_at (file_at (seen self.now).files file) index)) }
        ensures length { IfSome result (λ bytes. length bytes.now ≡ page_bytes) }
        ensures none { IfNone result
            (shown page_bytes (cell_at (file_at (seen self.now).files file) index)
            ≡ zeros page_bytes) };

    /// Room for so many pages, beside those for copies that several maps hold. Refused where memory is.
    fn make_room(&mut self, count: usize) -> Result<(), AllocError>
        ensures ok { OnOk result (seen self.new
            ≡ record (seen self.old) { room = max (seen self.old).room count }) }
        ensures few { OnOk result (sum_by file_pages (seen self.old).files + count ≤ 2 ^ 32) }
        ensures err { OnErr result (seen self.new ≡ seen self.old) };

    /// Room for so many pages, and a hole's entry. Refused where memory is, and then only the room may be more.
    fn prepare(&mut self, file: usize, index: u64, count: usize) -> Result<(), AllocError>
        requires file { file < length (seen self.old).files }
        requires below { index < length (file_at (seen self.old).files file).cells }
        requires hole { cell_at (file_at (seen self.old).files file) index ≡ Hole }
        ensures ok { OnOk result (seen self.new
            ≡ with_cell_at file index Entered (record (seen self.old) {
              room = max (seen self.old).room count;
            })) }
        ensures few { OnOk result (sum_by file_pages (seen self.old).files + count ≤ 2 ^ 32) }
        ensures err { OnErr result (seen self.new
            ≡ record (seen self.old) { room = (seen self.new).room }) }
        ensures more { OnErr result ((seen self.old).room ≤ (seen self.new).room) };

    /// An entered index without a page is a hole.
    fn leave(&mut self, file: usize, index: u64)
        requires file { file < length (seen self.old).files }
        requires below { index < length (file_at (seen self.old).files file).cells }
        requires entered { cell_at (file_at (seen self.old).files file) index ≡ Entered }
        ensures { seen self.new ≡ with_cell_at file index Hole (seen self.old) };

    /// Puts a page at an entered index without one.
    fn fill(&mut self, file: usize, index: u64, page: P)
        requires file { file < length (seen self.old).files }
        requires below { index < length (file_at (seen self.old).files file).cells }
        requires entered { cell_at (file_at (seen self.old).files file) index ≡ Entered }
        requires room { 0 < (seen self.old).room }
        ensures { seen self.new ≡ filled_at file index (page_of page) (seen self.old) };

    /// Writes bytes into the page at an index, from an offset on, if there is one: what stands at the index.
    fn write(&mut self, file: usize, index: u64, offset: usize, bytes: &[u8]) -> CellState
        requires file { file < length (seen self.old).files }
        requires fits { offset + length bytes.now ≤ page_bytes }
        ensures state { IsState result (cell_at (file_at (seen self.old).files file) index) }
        ensures entered { result ≡ CellState.Entered → seen self.new ≡ seen self.old }
        ensures hole { result ≡ CellState.Hole → seen self.new ≡ seen self.old }
        ensures written { seen self.new ≡ with_cell_at file index
            (cell_written offset bytes.now (cell_at (file_at (seen self.old).files file) index))
            (seen self.old) };
}
