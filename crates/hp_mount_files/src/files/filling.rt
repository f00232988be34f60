//! Indices of a file that are filled with pages of zeros.
ghost use Rattle.std.specs.Prelude.{◌≡◌, ◌^◌, ◌+◌, ◌-◌, ◌<◌, ◌≤◌, [], ◌∷◌, ℕ, List, IfOk, OnErr, OnOk, true, false, length, max};
ghost use Rattle.std.specs.List.{count_by, sum_by};
ghost use Rattle.hp_model.specs.Lists.{part};
ghost use Rattle.hp_model.specs.Profile.{most_file_pages};
ghost use Rattle.hp_model.specs.declared.cell.Cell.TheVariants.{Entered};
ghost use Rattle.hp_model.specs.files.File.{cell_at, has_page, is_entered};
ghost use Rattle.hp_model.specs.files.Fill.{lacking, lacks_page, rising_nodes, zero_page};
ghost use Rattle.hp_model.specs.files.MountCounts.{file_pages};
ghost use Rattle.hp_model.specs.files.Page.{Page};
ghost use Rattle.hp_model.specs.machine.SlotEvent.{unentered};
ghost use Rattle.hp_mount_door.specs.Door.{by_node};
ghost use Rattle.hp_mount_door.specs.Filling.{AreRising};
ghost use Rattle.hp_lookup.specs.Files.{file_at, filled_at};
ghost use Rattle.hp_file.specs.Filling.{IsTaking, entered_at, pages_put, reply_of, zeros_at};
ghost use Rattle.hp_subpool.specs.Subpool.{is_full};

use super::Files;
use crate::file_pages::FilePages;
use hp_file::{CellState, word_end};
use hp_model::naming::Naming;
use hp_model::refusal::Refusal;
use hp_mount_door::PoolDoor;
use hp_store::PageBatch;
use hp_subpool::Subpool;
use std::alloc::AllocError;

impl<N: Naming> Files<N> {
    // Room for so many pages, and a batch with room for `count`. Refused where memory is, and then only the room may be more.
    fn new_batch(&mut self, pages: usize, count: usize) -> Result<PageBatch<N>, AllocError>
        ensures ok { OnOk result (self.new ≡ record self.old { room = max self.old.room pages }) }
        ensures few { OnOk result (sum_by file_pages self.old.files + pages ≤ 2 ^ 32) }
        ensures batch { IfOk result (λ batch. batch ≡ record { pages = []; room = count }) }
        ensures err { OnErr result (self.new ≡ record self.old { room = self.new.room }) }
        ensures more { OnErr result (self.old.room ≤ self.new.room) }
    {
        self.make_room(pages)?;
        let batch = PageBatch::new(self.alloc, count, self.pages.store.frames())?;
        Ok(batch)
    }

    // How many indices of a file from `from` up to `to` have no page.
    fn lacking_in(&self, file: usize, from: u64, to: u64) -> u64
        requires file { file < length self.now.files }
        requires order { from ≤ to }
        ensures { result ≡ lacking from to (file_at self.now.files file) }
    {
        self.list[file].lacking(from, to)
    }

    // The first index of a file from `from` on, up to `to`, in whose word one may have no page.
    fn past_paged(&self, file: usize, from: u64, to: u64) -> u64
        requires file { file < length self.now.files }
        requires order { from ≤ to }
        requires small { to < 2 ^ 32 }
        ensures from { from ≤ result }
        ensures to { result ≤ to }
        ensures paged { (j : ℕ) → from ≤ j → j < result
            → has_page (cell_at (file_at self.now.files file) j) ≡ true }
    {
        let mut at = from;
        while at < to {
            let end = word_end(at, to);
            if self.lacking_in(file, at, end) > 0 {
                return at;
            }
            at = end;
        }
        at
    }

    // The next page of a batch, with zeros for what its last holder wrote, is put at an entered index that has none.
    fn put_next(&mut self, file: usize, index: u64, batch: &mut PageBatch<N>)
        requires file { file < length self.old.files }
        requires below { index < length (file_at self.old.files file).cells }
        requires entered { cell_at (file_at self.old.files file) index ≡ Entered }
        requires some { 0 < length batch.old.pages }
        requires room { 0 < self.old.room }
        ensures { (page : Page) × (batch.old.pages ≡ page ∷ batch.new.pages)
            × (self.new ≡ filled_at file index (zero_page N.page_bytes page.node) self.old) }
    {
        let Some(mut page) = batch.next() else {
            return;
        };
        page.zero();
        self.fill(file, index, page);
    }

    // The pages of a batch are put at the entered indices of a file from `from` up to `to` that have none.
    fn put_pages(&mut self, file: usize, from: u64, to: u64, batch: &mut PageBatch<N>)
        requires file { file < length self.old.files }
        requires order { from ≤ to }
        requires small { to < 2 ^ 32 }
        requires within { to ≤ length (file_at self.old.files file).cells }
        requires entered { (i : ℕ) → from ≤ i → i < to
            → is_entered (cell_at (file_at self.old.files file) i) ≡ true }
        requires count { length batch.old.pages
            ≡ count_by lacks_page (part from to (file_at self.old.files file).cells) }
        requires room { length batch.old.pages ≤ self.old.room }
        ensures put { self.new ≡ zeros_at N.page_bytes file from batch.old.pages self.old }
        ensures empty { batch.new.pages ≡ [] }
    {
        let mut index = self.past_paged(file, from, to);
        while index < to {
            index = match self.cell(file, index) {
                CellState::Entered => {
                    self.put_next(file, index, batch);
                    index + 1
                }
                _ => self.past_paged(file, index + 1, to),
            };
        }
    }

    /// Gives each index of a file from `from` up to `to` that has none a page of zeros; the file gets longer where `to` is
    /// past its end. `k` of the indices have no entry, and `count` no page: so many are reserved and taken through the door, in
    /// one section.
    ///
    /// Refused as OutOfMemory before the door, or as the door refuses; then only the room may be more.
    pub fn preallocate<D: PoolDoor<N>>(
        &mut self,
        door: &mut D,
        share: &mut Subpool<N>,
        file: usize,
        from: u64,
        to: u64,
        k: u64,
        count: u64,
    ) -> Result<(), Refusal>
        requires ready { D.is_ready door.old }
        requires file { file < length self.old.files }
        requires order { from ≤ to }
        requires reach { to ≤ most_file_pages }
        requires k { k ≡ unentered from to (file_at self.old.files file) }
        requires count { count ≡ lacking from to (file_at self.old.files file) }
        requires within { is_full share.old k ≡ false }
        requires held { count ≤ share.old.held + k }
        requires pages { share.old.pages ≡ sum_by file_pages self.old.files }
        ensures filled { OnOk result ((takes : List ℕ)
            × IsTaking D.took D.is_full k count share.old door.old result takes share.new door.new
            × (self.new ≡ pages_put N.page_bytes file from to (rising_nodes count takes)
            (max self.old.room (share.old.held + k) - count) self.old)) }
        ensures err { OnErr result (self.new ≡ record self.old { room = self.new.room }) }
        ensures more { OnErr result (self.old.room ≤ self.new.room) }
        ensures refused { OnErr result (IsTaking D.took D.is_full k count share.old door.old
            result [] share.new door.new) }
        ensures left { D.is_left door.new }
    {
        let room = self.spare_room();
        let reserves = share.held().saturating_add(k);
        let Ok(mut batch) = self.new_batch(reserves as usize, count as usize) else {
            self.lower_room(room);
            return Err(Refusal::OutOfMemory);
        };
        let at = &mut self.list[file];
        if let Err(refusal) = at.take_pages(
            self.alloc, door, share, from, to, k, count, &mut batch,
        ) {
            batch.close();
            self.lower_room(room);
            return Err(refusal);
        }
        self.put_pages(file, from, to, &mut batch);
        batch.close();
        Ok(())
    }
}
