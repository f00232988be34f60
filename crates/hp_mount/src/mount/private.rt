//! Accesses through private maps: each sees to it that there is a copy, or a page to read.
ghost use Rattle.std.specs.Prelude.{◌≡◌, ◌≢◌, ◌+◌, ◌<◌, ◌^◌, length, Ok, Err, Some, None, true, false};
ghost use Rattle.hp_model.specs.declared.refusal.Refusal.TheVariants as Refusal;
ghost use Rattle.hp_model.specs.declared.step.Intent.TheVariants.{Read, Write};
ghost use Rattle.hp_model.specs.files.File.{cell_at};
ghost use Rattle.hp_model.specs.files.Mapping.{copy_of, is_live, is_shared, place_at};
ghost use Rattle.hp_model.specs.files.MountCounts.{usage_of};
ghost use Rattle.hp_model.specs.machine.Promises.{file_in, is_backed, map_in};
ghost use Rattle.hp_lookup.specs.declared.copy_state.CopyState.TheVariants as CopyState;
ghost use Rattle.hp_lookup.specs.Files.{file_at};
ghost use Rattle.hp_lookup.specs.Places.{shown_at};
ghost use Rattle.hp_file.specs.States.{AreAgreed, IsCopyState};
ghost use Rattle.hp_mount_laws.specs.Done.{IsAccessed};
ghost use Rattle.hp_mount_laws.specs.Reach.{IsFileTouched, NeedsCopy, has_reserve, shows_page as is_shown, spot_at};

use super::Mount;
use hp_model::naming::Naming;
use hp_model::refusal::Refusal;
use hp_model::step::Intent;
use hp_mount_door::PoolDoor;
use hp_mount_files::{CellState, CopyState, FilePages, Files, MapPages, MapPlace};
use hp_nodes::Page;

// Whether a reader finds a page of the file.
fn shows_page<N: Naming>(files: &Files<N>, file: usize, index: u64, intent: Intent) -> bool
    requires { file < length files.now.files }
    ensures { result ≡ is_shown intent (cell_at (file_at files.now.files file) index) }
{
    match intent {
        Intent::Read => match files.cell(file, index) {
            CellState::Present => true,
            CellState::Entered | CellState::Hole => false,
        },
        Intent::Write => false,
    }
}

// A page with the bytes that a map shows at an index.
fn with_shown<N: Naming>(files: &Files<N>, at: MapPlace, index: u64, page: Page<N>) -> Page<N>
    requires file { at.file < length files.now.files }
    requires map { at.map < length (file_at files.now.files at.file).maps }
    ensures { result ≡ record page { bytes = shown_at N.page_bytes files.now.files at index } }
{
    let mut page = page;
    match files.shown(at, index) {
        Some(shown) => page.copy_from(shown),
        None => page.zero(),
    }
    page
}

impl<N: Naming> Mount<N> {
    // A copy of what the map shows, by the owner's reservation for the index, which is consumed.
    fn copy_reserved<D: PoolDoor<N>>(
        &mut self,
        door: &mut D,
        home: usize,
        at: MapPlace,
        index: u64,
        intent: Intent,
    ) -> Result<(), Refusal>
        requires ready { D.is_ready door.old }
        requires file { at.file < length self.old.files }
        requires map { at.map < length (file_in self.old at.file).maps }
        requires needs { NeedsCopy intent index (spot_at self.old at.file at.map) }
        requires reserved { has_reserve (map_in (file_in self.old at.file) at.map) index ≡ true }
        ensures done { IsAccessed D.took D.is_full N.page_bytes home at index intent
            self.old door.old result self.new door.new }
        ensures left { D.is_left door.new }
        ensures memory { result ≢ Err Refusal.OutOfMemory }
        ensures same { IsFileTouched self.old self.new at.file }
        ensures once { result ≡ Ok tt → IsCopyState CopyState.HeldOnce (file_in self.new at.file)
            (place_at (map_in (file_in self.new at.file) at.map) index) }
    {
        let got = door.take_page(&mut self.share, home)?;
        let page = with_shown(&self.files, at, index, got);
        self.files.put_copy(at, index, page);
        Ok(())
    }

    // A copy of what the map shows, by a grant of one.
    fn copy_granted<D: PoolDoor<N>>(
        &mut self,
        door: &mut D,
        home: usize,
        at: MapPlace,
        index: u64,
        intent: Intent,
    ) -> Result<(), Refusal>
        requires ready { D.is_ready door.old }
        requires file { at.file < length self.old.files }
        requires map { at.map < length (file_in self.old at.file).maps }
        requires needs { NeedsCopy intent index (spot_at self.old at.file at.map) }
        requires unreserved { has_reserve (map_in (file_in self.old at.file) at.map) index ≡ false }
        ensures done { IsAccessed D.took D.is_full N.page_bytes home at index intent
            self.old door.old result self.new door.new }
        ensures left { D.is_left door.new }
        ensures same { IsFileTouched self.old self.new at.file }
        ensures once { result ≡ Ok tt → IsCopyState CopyState.HeldOnce (file_in self.new at.file)
            (place_at (map_in (file_in self.new at.file) at.map) index) }
    {
        if self.share.is_full(1) {
            return Err(Refusal::MountFull);
        }
        let spare = (self.share.held() as usize).saturating_add(1);
        let Ok(()) = self.files.make_room(spare) else {
            return Err(Refusal::OutOfMemory);
        };
        match door.get_page(&mut self.share, home) {
            Ok(got) => {
                let page = with_shown(&self.files, at, index, got);
                self.files.put_copy(at, index, page);
                Ok(())
            }
            Err(refusal) => Err(refusal),
        }
    }

    // Sees to it that a map without a copy at an index shows a page there, or has a copy to write into.
    #[inline(never)]
    fn reach_bare<D: PoolDoor<N>>(
        &mut self,
        door: &mut D,
        home: usize,
        at: MapPlace,
        index: u64,
        intent: Intent,
    ) -> Result<(), Refusal>
        requires ready { D.is_ready door.old }
        requires file { at.file < length self.old.files }
        requires map { at.map < length (file_in self.old at.file).maps }
        requires private { is_shared (map_in (file_in self.old at.file) at.map).sharing ≡ false }
        requires live { is_live (place_at (map_in (file_in self.old at.file) at.map) index) ≡ true }
        requires bare { copy_of (place_at (map_in (file_in self.old at.file) at.map) index) ≡ None }
        ensures done { IsAccessed D.took D.is_full N.page_bytes home at index intent
            self.old door.old result self.new door.new }
        ensures left { D.is_left door.new }
        ensures memory { has_reserve (map_in (file_in self.old at.file) at.map) index ≡ true
            → result ≢ Err Refusal.OutOfMemory }
        ensures same { IsFileTouched self.old self.new at.file }
        ensures once { intent ≡ Write → result ≡ Ok tt →
            IsCopyState CopyState.HeldOnce (file_in self.new at.file)
            (place_at (map_in (file_in self.new at.file) at.map) index) }
    {
        if self.files.map(at).is_marked() {
            return Err(Refusal::TakenByOwner);
        }
        if shows_page(&self.files, at.file, index, intent) {
            return Ok(());
        }
        if self.files.map(at).has_reserve(index) {
            self.copy_reserved(door, home, at, index, intent)
        } else {
            self.copy_granted(door, home, at, index, intent)
        }
    }

    // A page of its own for a map that writes into a copy that several hold, by a grant of one. Where that is refused for
    // want of a page, an owner takes the copy from all others.
    #[inline(never)]
    fn reach_own<D: PoolDoor<N>>(
        &mut self,
        door: &mut D,
        home: usize,
        at: MapPlace,
        index: u64,
    ) -> Result<(), Refusal>
        requires ready { D.is_ready door.old }
        requires file { at.file < length self.old.files }
        requires map { at.map < length (file_in self.old at.file).maps }
        requires private { is_shared (map_in (file_in self.old at.file) at.map).sharing ≡ false }
        requires several { IsCopyState CopyState.HeldBySeveral (file_in self.old at.file)
            (place_at (map_in (file_in self.old at.file) at.map) index) }
        requires agreed { AreAgreed (file_in self.old at.file) }
        requires few { usage_of self.old + 1 < 2 ^ 64 }
        ensures done { IsAccessed D.took D.is_full N.page_bytes home at index Write
            self.old door.old result self.new door.new }
        ensures left { D.is_left door.new }
        ensures memory { result ≢ Err Refusal.OutOfMemory }
        ensures same { IsFileTouched self.old self.new at.file }
        ensures once { result ≡ Ok tt → IsCopyState CopyState.HeldOnce (file_in self.new at.file)
            (place_at (map_in (file_in self.new at.file) at.map) index) }
    {
        let is_owner = self.files.map(at).is_owner();
        if self.share.is_full(1) {
            if !is_owner {
                return Err(Refusal::MountFull);
            }
            self.files.take_back(at, index);
            return Ok(());
        }
        match door.get_page(&mut self.share, home) {
            Ok(got) => {
                let page = with_shown(&self.files, at, index, got);
                self.files.part(at, index, page);
                Ok(())
            }
            Err(refusal) => {
                if !is_owner {
                    return Err(refusal);
                }
                match refusal {
                    Refusal::NoPages => {
                        self.files.take_back(at, index);
                        Ok(())
                    }
                    other => Err(other),
                }
            }
        }
    }

    // Sees to it that a private map shows a page at an index, or has a copy of its own to write into.
    #[inline(always)]
    pub(super) fn reach_private<D: PoolDoor<N>>(
        &mut self,
        door: &mut D,
        home: usize,
        at: MapPlace,
        index: u64,
        intent: Intent,
    ) -> Result<(), Refusal>
        requires ready { D.is_ready door.old }
        requires file { at.file < length self.old.files }
        requires map { at.map < length (file_in self.old at.file).maps }
        requires private { is_shared (map_in (file_in self.old at.file) at.map).sharing ≡ false }
        requires live { is_live (place_at (map_in (file_in self.old at.file) at.map) index) ≡ true }
        ensures done { IsAccessed D.took D.is_full N.page_bytes home at index intent
            self.old door.old result self.new door.new }
        ensures left { D.is_left door.new }
        ensures memory { is_backed intent (Some (spot_at self.old at.file at.map)) index ≡ true
            → result ≢ Err Refusal.OutOfMemory }
        ensures same { IsFileTouched self.old self.new at.file }
        ensures once { intent ≡ Write → result ≡ Ok tt →
            IsCopyState CopyState.HeldOnce (file_in self.new at.file)
            (place_at (map_in (file_in self.new at.file) at.map) index) }
    {
        match self.files.copy(at, index) {
            CopyState::Missing => self.reach_bare(door, home, at, index, intent),
            CopyState::HeldOnce => Ok(()),
            CopyState::HeldBySeveral => match intent {
                Intent::Read => Ok(()),
                Intent::Write => self.reach_own(door, home, at, index),
            },
        }
    }
}
