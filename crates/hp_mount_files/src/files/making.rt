//! Files and maps that come.
ghost use Rattle.std.specs.Prelude.{◌≡◌, ◌^◌, ◌++◌, ◌∷◌, ◌+◌, ◌<◌, ◌≤◌, ℕ, max, length, [], None, Some, OnOk, OnErr, false};
ghost use Rattle.hp_lookup.specs.Files.{file_at, with_anon, with_file_at, mapped_at};
ghost use Rattle.hp_lookup.specs.Asking.{IsAsked, is_first_of, next_of, wants, with_range};
ghost use Rattle.hp_subpool.specs.Subpool.{is_full, used};
ghost use Rattle.std.specs.List.{sum_by};
ghost use Rattle.hp_model.specs.Profile.{most_file_pages, most_maps, most_name_bytes};
ghost use Rattle.hp_model.specs.files.MountCounts.{file_pages};
ghost use Rattle.hp_model.specs.files.File.{new_file};
ghost use Rattle.hp_model.specs.Lists.{found};
ghost use Rattle.hp_model.specs.machine.SlotEvent.{has_name};
ghost use Rattle.hp_lookup.specs.Places.{all_maps};

use super::Files;
use crate::file_pages::FilePages;
use hp_file::File;
use hp_lookup::{FileName, FileTag, MapPlace, MapRange, MapTag, NextMap};
use hp_model::naming::Naming;
use hp_model::refusal::Refusal;
use hp_model::step::Sharing;
use hp_mount_door::PoolDoor;
use hp_subpool::Subpool;
use std::alloc::AllocError;

impl<N: Naming> Files<N> {
    /// Makes a file of length 0, with a name that no other has. Refused where memory is, and then nothing changes.
    pub fn create(&mut self, name: &[u8]) -> Result<(), AllocError>
        requires new { found (has_name name.now) self.old.files ≡ None }
        requires few { length name.now ≤ most_name_bytes }
        ensures ok { OnOk result (self.new
            ≡ record self.old { files = self.old.files ++ new_file (Some name.now) ∷ [] }) }
        ensures err { OnErr result (self.new ≡ self.old) }
    {
        let own = FileName::new(self.alloc, name)?;
        let key = own.copy(self.alloc)?;
        self.list.make_room()?;
        let tag = self.tags.take();
        let at = self.list.len();
        self.hints.note_file(key, FileTag::new(at, tag))?;
        self.list.push(File::new(self.alloc, Some(own)), tag);
        Ok(())
    }

    /// The pages that a map of a range of a file asks for: none without reservations, else one for each index if it is
    /// private, and for each without an entry if it is shared. A private map walks nothing.
    pub fn wanted(&self, file: usize, range: &MapRange) -> u64
        requires file { file < length self.now.files }
        requires reach { range.now.start + range.now.pages ≤ most_file_pages }
        ensures { result ≡ wants range.now (file_at self.now.files file) }
    {
        match range.sharing {
            Sharing::Private => range.wanted_alone(),
            Sharing::Shared => {
                let end = range.start + range.pages;
                self.list[file].missing(range.entered_from(), end)
            }
        }
    }

    /// Adds a map of a file, which makes the file longer where it reaches past its end. The indices of a shared map that
    /// reserves are entered. What it asks for (`wanted`) is reserved through the door, and there is room for each
    /// reservation.
    ///
    /// Refused as OutOfMemory before the door, or as the door refuses; then only the room may be more.
    pub fn add_map<D: PoolDoor<N>>(
        &mut self,
        door: &mut D,
        share: &mut Subpool<N>,
        home: usize,
        file: usize,
        range: &MapRange,
        next: NextMap,
    ) -> Result<(), Refusal>
        requires ready { D.is_ready door.old }
        requires file { file < length self.old.files }
        requires reach { range.now.start + range.now.pages ≤ most_file_pages }
        requires maps { length (all_maps self.old.files) < most_maps }
        requires number { next.number ≡ next_of range.now.task self.old.files }
        requires first { next.is_first ≡ is_first_of range.now.task self.old.files }
        requires within { is_full share.old (wants range.now (file_at self.old.files file))
            ≡ false }
        requires pages { share.old.pages ≡ sum_by file_pages self.old.files }
        ensures ok { OnOk result (self.new
            ≡ mapped_at file range.now.task next.number range.now.start range.now.pages
            (max self.old.room (share.old.held + wants range.now (file_at self.old.files file)))
            range.now.sharing range.now.reserving self.old) }
        ensures err { OnErr result (self.new ≡ record self.old { room = self.new.room }) }
        ensures more { OnErr result (self.old.room ≤ self.new.room) }
        ensures asked { IsAsked D.took D.is_full home
            (wants range.now (file_at self.old.files file))
            share.old door.old result share.new door.new }
        ensures left { D.is_left door.new }
    {
        let room = self.spare_room();
        let wanted = self.wanted(file, range);
        let reserves = share.held().saturating_add(wanted);
        let Ok(()) = self.make_room(reserves as usize) else {
            return Err(Refusal::OutOfMemory);
        };
        let at = MapPlace {
            file,
            map: self.list[file].map_count(),
        };
        let tag = MapTag::new(at, self.list.tag(file), self.tags.take());
        let Ok(()) = self.hints.note_map(range.task, next.number, tag) else {
            self.lower_room(room);
            return Err(Refusal::OutOfMemory);
        };
        let at = &mut self.list[file];
        if let Err(refusal) = at.add_range(
            self.alloc,
            door,
            share,
            home,
            wanted,
            range,
            tag.map(),
            next.number,
        ) {
            self.hints.forget_map(range.task, next.number);
            self.lower_room(room);
            return Err(refusal);
        }
        self.maps += 1;
        Ok(())
    }

    /// Adds a file without name, which has one map. The indices of a shared map that reserves are entered. With
    /// reservations a page for each index is reserved through the door, and there is room for each reservation.
    ///
    /// Refused as OutOfMemory before the door, or as the door refuses; then only the room may be more.
    pub fn add_anon<D: PoolDoor<N>>(
        &mut self,
        door: &mut D,
        share: &mut Subpool<N>,
        home: usize,
        range: &MapRange,
        next: NextMap,
    ) -> Result<(), Refusal>
        requires ready { D.is_ready door.old }
        requires reach { range.now.start + range.now.pages ≤ most_file_pages }
        requires maps { length (all_maps self.old.files) < most_maps }
        requires number { next.number ≡ next_of range.now.task self.old.files }
        requires first { next.is_first ≡ is_first_of range.now.task self.old.files }
        requires within { is_full share.old (wants range.now (new_file None)) ≡ false }
        requires pages { share.old.pages ≡ sum_by file_pages self.old.files }
        ensures ok { OnOk result (self.new
            ≡ with_anon range.now.task next.number range.now.start range.now.pages
            (max self.old.room (share.old.held + wants range.now (new_file None)))
            range.now.sharing range.now.reserving self.old) }
        ensures err { OnErr result (self.new ≡ record self.old { room = self.new.room }) }
        ensures more { OnErr result (self.old.room ≤ self.new.room) }
        ensures asked { IsAsked D.took D.is_full home (wants range.now (new_file None))
            share.old door.old result share.new door.new }
        ensures left { D.is_left door.new }
    {
        let room = self.spare_room();
        let reserves = share.held().saturating_add(range.wanted_alone());
        let Ok(()) = self.make_room(reserves as usize) else {
            return Err(Refusal::OutOfMemory);
        };
        let at = MapPlace {
            file: self.list.len(),
            map: 0,
        };
        let tag = MapTag::new(at, self.tags.take(), self.tags.take());
        if self.list.make_room().is_err() {
            self.lower_room(room);
            return Err(Refusal::OutOfMemory);
        }
        let Ok(()) = self.hints.note_map(range.task, next.number, tag) else {
            self.lower_room(room);
            return Err(Refusal::OutOfMemory);
        };
        let made = File::anon(self.alloc, door, share, home, range, tag.map(), next.number);
        let file = match made {
            Ok(file) => file,
            Err(refusal) => {
                self.hints.forget_map(range.task, next.number);
                self.lower_room(room);
                return Err(refusal);
            }
        };
        self.list.push(file, tag.file());
        self.maps += 1;
        Ok(())
    }
}
