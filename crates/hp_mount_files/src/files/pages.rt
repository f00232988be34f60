//! What maps and files show at their indices: entries and pages.
ghost use Rattle.std.specs.Prelude.{◌≡◌, ◌<◌, length, min, OnOk, OnErr};
ghost use Rattle.hp_model.specs.declared.cell.Cell.TheVariants.{Hole, Entered};
ghost use Rattle.hp_model.specs.files.File.{cell_at};
ghost use Rattle.hp_lookup.specs.Files.{file_at, with_cell_at};

use super::Files;
use crate::file_pages::FilePages;
use hp_file::CellState;
use hp_model::naming::Naming;
use hp_nodes::Page;
use std::alloc::AllocError;

impl<N: Naming> Files<N> {
    // How many pages there is room for, beside those for copies that several maps hold.
    pub(super) fn spare_room(&self) -> usize
        ensures { result ≡ self.now.room }
    {
        self.pages.store.room() - self.pages.more
    }

    // Gives back the room for more pages than these.
    pub(super) fn lower_room(&mut self, room: usize)
        ensures { self.new ≡ record self.old { room = min self.old.room room } }
    {
        let most = self.pages.store.room();
        let all = self.pages.more.saturating_add(room).min(most);
        self.pages.store.lower_room(all);
    }

    // Enters an index that is a hole. Refused where memory is, and then nothing changes.
    fn enter(&mut self, file: usize, index: u64) -> Result<(), AllocError>
        requires file { file < length self.old.files }
        requires below { index < length (file_at self.old.files file).cells }
        requires hole { cell_at (file_at self.old.files file) index ≡ Hole }
        ensures ok { OnOk result (self.new ≡ with_cell_at file index Entered self.old) }
        ensures err { OnErr result (self.new ≡ self.old) }
    {
        let at = &mut self.list[file];
        at.enter(index)?;
        Ok(())
    }
}

impl<N: Naming> FilePages<Page<N>> for Files<N> {
    ghost seen = { λ f. f };

    ghost page_bytes = { N.page_bytes };

    ghost page_of = { λ p. p };

    #[inline(always)]
    fn cell(&self, file: usize, index: u64) -> CellState {
        let at = &self.list[file];
        match at.page_at(index) {
            Some(_) => CellState::Present,
            None => {
                if at.entered(index) {
                    CellState::Entered
                } else {
                    CellState::Hole
                }
            }
        }
    }

    fn bytes(&self, file: usize, index: u64) -> Option<&[u8]> {
        let at = &self.list[file];
        match at.page_at(index) {
            Some(page) => Some(self.pages.store.bytes(page)),
            None => None,
        }
    }

    fn make_room(&mut self, count: usize) -> Result<(), AllocError> {
        let Some(all) = self.pages.more.checked_add(count) else {
            return Err(AllocError);
        };
        self.pages.store.make_room(all)?;
        Ok(())
    }

    fn prepare(&mut self, file: usize, index: u64, count: usize) -> Result<(), AllocError> {
        self.make_room(count)?;
        self.enter(file, index)?;
        Ok(())
    }

    fn leave(&mut self, file: usize, index: u64) {
        let at = &mut self.list[file];
        at.leave(index);
    }

    fn fill(&mut self, file: usize, index: u64, page: Page<N>) {
        let number = self.pages.store.insert(page);
        let at = &mut self.list[file];
        at.fill(index, number);
    }

    #[inline(always)]
    fn write(&mut self, file: usize, index: u64, offset: usize, bytes: &[u8]) -> CellState {
        let at = &self.list[file];
        match at.page_at(index) {
            Some(number) => {
                self.pages.store.write(number, offset, bytes);
                CellState::Present
            }
            None => {
                if at.entered(index) {
                    CellState::Entered
                } else {
                    CellState::Hole
                }
            }
        }
    }
}
