//! Accesses through maps: each sees to it that there is a page.
ghost use Rattle.std.specs.Prelude.{◌≡◌, ◌≢◌, ℕ, ◌+◌, ◌<◌, ◌≤◌, length, Ok, Err, IfOk, Some, true, false};
ghost use Rattle.hp_model.specs.declared.cell.Cell.TheVariants.{Entered, Hole};
ghost use Rattle.hp_model.specs.declared.event.SlotEvent.TheVariants.{Load, Store, Fault};
ghost use Rattle.hp_model.specs.files.Mapping.{is_live, is_shared, place_at};
ghost use Rattle.hp_model.specs.beside.Accesses.{bytes_reply, done_reply};
ghost use Rattle.hp_model.specs.declared.refusal.Refusal.TheVariants as Refusal;
ghost use Rattle.hp_model.specs.files.File.{cell_at, is_entered};
ghost use Rattle.hp_model.specs.machine.Promises.{file_in, is_backed, map_in};
ghost use Rattle.hp_model.specs.declared.step.Intent.TheVariants.{Read, Write};
ghost use Rattle.hp_model.specs.Profile.{most_bytes};
ghost use Rattle.hp_lookup.specs.declared.copy_state.CopyState.TheVariants as CopyState;
ghost use Rattle.hp_file.specs.States.{IsCopyState};
ghost use Rattle.hp_mount_laws.specs.Done.{IsAccessed, IsDone, IsReached};
ghost use Rattle.hp_mount_laws.specs.Reach.{IsFileTouched, spot_at};
ghost use Rattle.hp_mount.specs.declared.mount.reach.Asked.TheVariants.{Bytes};
ghost use Rattle.hp_mount.specs.Found.{HasIndex, IsPlaced, spot_of};

use super::Mount;
use super::contents::part_of;
use hp_model::naming::Naming;
use hp_model::refusal::Refusal;
use hp_model::step::Intent;
use hp_mount_door::PoolDoor;
use hp_mount_files::{CellState, FilePages, MapPlace};
use hp_nodes::Page;

/// An access by a task through one of its maps, at an index of the file.
#[derive(Clone, Copy, Debug, PartialEq, Eq)]
pub struct MapAccess {
    pub task: u64,
    pub map: u64,
    pub index: u64,
}

/// What an access asks of a page: the page, or bytes of it.
#[derive(Clone, Copy, PartialEq, Eq)]
pub enum Asked {
    Page,
    Bytes { offset: u64, count: u64 },
}

impl<N: Naming> Mount<N> {
    // The page of an entered index, by the reservation that its entry holds.
    #[inline(never)]
    fn fill_entry<D: PoolDoor<N>>(
        &mut self,
        door: &mut D,
        home: usize,
        file: usize,
        index: u64,
    ) -> Result<(), Refusal>
        requires ready { D.is_ready door.old }
        requires there { HasIndex self.old file index }
        requires entered { cell_at (file_in self.old file) index ≡ Entered }
        ensures done { IsReached D.took D.is_full N.page_bytes home file index
            self.old door.old result self.new door.new }
        ensures left { D.is_left door.new }
        ensures memory { result ≢ Err Refusal.OutOfMemory }
        ensures same { IsFileTouched self.old self.new file }
    {
        let mut page = door.take_page(&mut self.share, home)?;
        page.zero();
        self.files.fill(file, index, page);
        Ok(())
    }

    // The page of an index without an entry, by a grant of one.
    #[inline(never)]
    fn fill_hole<D: PoolDoor<N>>(
        &mut self,
        door: &mut D,
        home: usize,
        file: usize,
        index: u64,
    ) -> Result<(), Refusal>
        requires ready { D.is_ready door.old }
        requires there { HasIndex self.old file index }
        requires hole { cell_at (file_in self.old file) index ≡ Hole }
        ensures done { IsReached D.took D.is_full N.page_bytes home file index
            self.old door.old result self.new door.new }
        ensures left { D.is_left door.new }
        ensures same { IsFileTouched self.old self.new file }
    {
        if self.share.is_full(1) {
            return Err(Refusal::MountFull);
        }
        let spare = (self.share.held() as usize).saturating_add(1);
        let Ok(()) = self.files.prepare(file, index, spare) else {
            return Err(Refusal::OutOfMemory);
        };
        match door.get_page(&mut self.share, home) {
            Ok(got) => {
                let mut page = got;
                page.zero();
                self.files.fill(file, index, page);
                Ok(())
            }
            Err(refusal) => {
                self.files.leave(file, index);
                Err(refusal)
            }
        }
    }

    // Sees to it that the index of a shared map has a page: by its entry, else by a grant of one.
    #[inline(always)]
    fn reach_shared<D: PoolDoor<N>>(
        &mut self,
        door: &mut D,
        home: usize,
        file: usize,
        index: u64,
    ) -> Result<(), Refusal>
        requires ready { D.is_ready door.old }
        requires there { HasIndex self.old file index }
        ensures done { IsReached D.took D.is_full N.page_bytes home file index
            self.old door.old result self.new door.new }
        ensures left { D.is_left door.new }
        ensures memory { is_entered (cell_at (file_in self.old file) index) ≡ true
            → result ≢ Err Refusal.OutOfMemory }
        ensures same { IsFileTouched self.old self.new file }
    {
        match self.files.cell(file, index) {
            CellState::Present => Ok(()),
            CellState::Entered => self.fill_entry(door, home, file, index),
            CellState::Hole => self.fill_hole(door, home, file, index),
        }
    }

    // Sees to it that the map shows a page at an index, or for a write that it has one to write into.
    #[inline(always)]
    fn reach<D: PoolDoor<N>>(
        &mut self,
        door: &mut D,
        home: usize,
        at: MapPlace,
        index: u64,
        intent: Intent,
    ) -> Result<(), Refusal>
        requires ready { D.is_ready door.old }
        requires file { at.file < length self.old.files }
        requires map { at.map < length (file_in self.old at.file).maps }
        requires below { index < length (file_in self.old at.file).cells }
        requires live { is_live (place_at (map_in (file_in self.old at.file) at.map) index) ≡ true }
        ensures done { IsAccessed D.took D.is_full N.page_bytes home at index intent
            self.old door.old result self.new door.new }
        ensures left { D.is_left door.new }
        ensures memory { is_backed intent (Some (spot_at self.old at.file at.map)) index ≡ true
            → result ≢ Err Refusal.OutOfMemory }
        ensures same { IsFileTouched self.old self.new at.file }
        ensures once { intent ≡ Write → result ≡ Ok tt
            → is_shared (map_in (file_in self.old at.file) at.map).sharing ≡ false
            → IsCopyState CopyState.HeldOnce (file_in self.new at.file)
            (place_at (map_in (file_in self.new at.file) at.map) index) }
    {
        if self.files.map(at).is_shared() {
            self.reach_shared(door, home, at.file, index)
        } else {
            self.reach_private(door, home, at, index, intent)
        }
    }

    /// Sees to it that a map shows a page at an index, or for a write that it has one to write into.
    #[inline(never)]
    pub fn fault<D: PoolDoor<N>>(
        &mut self,
        door: &mut D,
        home: u64,
        access: &MapAccess,
        intent: Intent,
    ) -> Result<(), Refusal>
        requires ready { D.is_ready door.old }
        ensures done { (k : ℕ) → IsDone D.took D.is_full N.page_bytes k (Some self.old) door.old
            (Fault access.now.task home access.now.map access.now.index intent)
            (done_reply result) (Some self.new) door.new }
        ensures left { D.is_left door.new }
        ensures memory { is_backed intent (spot_of access.now self.old) access.now.index ≡ true
            → result ≢ Err Refusal.OutOfMemory }
    {
        let at = match self.place(0, access, Asked::Page) {
            Ok(at) => at,
            Err(refusal) => return Err(refusal),
        };
        self.reach(door, home as usize, at, access.index, intent)
    }

    /// Answers `count` bytes that a map shows at an index, from byte `offset` of the page on, in the front of the room.
    #[inline(always)]
    pub fn load<'a, D: PoolDoor<N>>(
        &mut self,
        door: &mut D,
        page_bytes: u64,
        home: u64,
        access: &MapAccess,
        offset: u64,
        count: u64,
        room: &'a mut [u8],
    ) -> Result<&'a [u8], Refusal>
        requires ready { D.is_ready door.old }
        requires page_bytes { page_bytes ≡ N.page_bytes }
        requires room { most_bytes ≤ length room.old }
        ensures done { (k : ℕ) → IsDone D.took D.is_full N.page_bytes k (Some self.old) door.old
            (Load access.now.task home access.now.map access.now.index offset count)
            (bytes_reply result) (Some self.new) door.new }
        ensures left { D.is_left door.new }
        ensures memory { is_backed Read (spot_of access.now self.old) access.now.index ≡ true
            → result ≢ Err Refusal.OutOfMemory }
        ensures few { IfOk result (λ bytes. length bytes.now ≤ most_bytes) }
    {
        let at = match self.place(page_bytes, access, Asked::Bytes { offset, count }) {
            Ok(at) => at,
            Err(refusal) => return Err(refusal),
        };
        if let Some(page) = self.files.found(at, access.index) {
            return Ok(part_of(page, offset as usize, count as usize, room));
        }
        match self.reach(door, home as usize, at, access.index, Intent::Read) {
            Ok(()) => {
                Ok(self.shown_bytes(at, access.index, offset as usize, count as usize, room))
            }
            Err(refusal) => Err(refusal),
        }
    }

    // Writes bytes through a shared map that is there. Where no page is, one is made first.
    #[inline(always)]
    fn store_shared<D: PoolDoor<N>>(
        &mut self,
        door: &mut D,
        home: u64,
        access: &MapAccess,
        at: MapPlace,
        offset: u64,
        bytes: &[u8],
    ) -> Result<(), Refusal>
        requires ready { D.is_ready door.old }
        requires placed { IsPlaced self.old access.now (Bytes offset (length bytes.now))
            N.page_bytes at }
        requires fits { offset + length bytes.now ≤ N.page_bytes }
        requires shared { is_shared (map_in (file_in self.old at.file) at.map).sharing ≡ true }
        ensures done { (k : ℕ) → IsDone D.took D.is_full N.page_bytes k (Some self.old) door.old
            (Store access.now.task home access.now.map access.now.index offset bytes.now)
            (done_reply result) (Some self.new) door.new }
        ensures left { D.is_left door.new }
        ensures memory { is_backed Write (spot_of access.now self.old) access.now.index ≡ true
            → result ≢ Err Refusal.OutOfMemory }
    {
        let (file, index, offset) = (at.file, access.index, offset as usize);
        let reached = match self.files.write(file, index, offset, bytes) {
            CellState::Present => return Ok(()),
            CellState::Entered => self.fill_entry(door, home as usize, file, index),
            CellState::Hole => self.fill_hole(door, home as usize, file, index),
        };
        if let Err(refusal) = reached {
            return Err(refusal);
        }
        let _there = self.files.write(file, index, offset, bytes);
        Ok(())
    }

    // Writes bytes through a private map that is there.
    #[inline(always)]
    fn store_private<D: PoolDoor<N>>(
        &mut self,
        door: &mut D,
        home: u64,
        access: &MapAccess,
        at: MapPlace,
        offset: u64,
        bytes: &[u8],
    ) -> Result<(), Refusal>
        requires ready { D.is_ready door.old }
        requires placed { IsPlaced self.old access.now (Bytes offset (length bytes.now))
            N.page_bytes at }
        requires fits { offset + length bytes.now ≤ N.page_bytes }
        requires private { is_shared (map_in (file_in self.old at.file) at.map).sharing ≡ false }
        ensures done { (k : ℕ) → IsDone D.took D.is_full N.page_bytes k (Some self.old) door.old
            (Store access.now.task home access.now.map access.now.index offset bytes.now)
            (done_reply result) (Some self.new) door.new }
        ensures left { D.is_left door.new }
        ensures memory { is_backed Write (spot_of access.now self.old) access.now.index ≡ true
            → result ≢ Err Refusal.OutOfMemory }
    {
        let reached = self.reach_private(door, home as usize, at, access.index, Intent::Write);
        if let Err(refusal) = reached {
            return Err(refusal);
        }
        self.write_copy(at, access.index, offset as usize, bytes);
        Ok(())
    }

    /// Writes bytes through a map at an index, from byte `offset` of the page on.
    #[inline(always)]
    pub fn store<D: PoolDoor<N>>(
        &mut self,
        door: &mut D,
        page_bytes: u64,
        home: u64,
        access: &MapAccess,
        offset: u64,
        bytes: &[u8],
    ) -> Result<(), Refusal>
        requires ready { D.is_ready door.old }
        requires page_bytes { page_bytes ≡ N.page_bytes }
        ensures done { (k : ℕ) → IsDone D.took D.is_full N.page_bytes k (Some self.old) door.old
            (Store access.now.task home access.now.map access.now.index offset bytes.now)
            (done_reply result) (Some self.new) door.new }
        ensures left { D.is_left door.new }
        ensures memory { is_backed Write (spot_of access.now self.old) access.now.index ≡ true
            → result ≢ Err Refusal.OutOfMemory }
    {
        let count = bytes.len() as u64;
        let at = match self.place(page_bytes, access, Asked::Bytes { offset, count }) {
            Ok(at) => at,
            Err(refusal) => return Err(refusal),
        };
        let is_shared = self.files.map(at).is_shared();
        if is_shared {
            self.store_shared(door, home, access, at, offset, bytes)
        } else {
            self.store_private(door, home, access, at, offset, bytes)
        }
    }
}
