//! Files and maps that are made.
ghost use Rattle.std.specs.Prelude.{◌≡◌, ◌≢◌, Err, IfNone, IfSome, IsTrue, ℕ, ◌+◌, ◌<◌, ◌≤◌, length, not, is_some, false, IfErr, IfOk, OnOk, Some, None};
ghost use Rattle.hp_model.specs.declared.refusal.Refusal.TheVariants as Refusal;
ghost use Rattle.hp_model.specs.declared.event.SlotEvent.TheVariants.{Anon, Create};
ghost use Rattle.hp_model.specs.files.File.{maps_of};
ghost use Rattle.hp_model.specs.pool.Grant.{is_over};
ghost use Rattle.hp_model.specs.Lists.{is_among};
ghost use Rattle.hp_model.specs.Profile.{most_file_pages, most_files, most_maps, most_name_bytes};
ghost use Rattle.hp_model.specs.files.MakeMap.{next_number, tasks_of};
ghost use Rattle.hp_model.specs.beside.Accesses.{done_reply};
ghost use Rattle.hp_model.specs.machine.SlotEvent.{file_named, is_name, is_name_byte};
ghost use Rattle.hp_model.specs.beside.Told.{map_reply};
ghost use Rattle.hp_mount_laws.specs.Alone.{IsDoneAlone};
ghost use Rattle.hp_mount_laws.specs.Done.{IsDone};
ghost use Rattle.hp_mount_laws.specs.Reach.{first_of};
ghost use Rattle.hp_mount_laws.specs.Making.{create_tests, file_tests, map_event, why_no_map};

use super::Mount;
use hp_model::naming::Naming;
use hp_model::profile::{MOST_FILE_PAGES, MOST_FILES, MOST_MAP_PAGES, MOST_MAPS, MOST_NAME_BYTES};
use hp_model::refusal::Refusal;
use hp_model::step::{Reserving, Sharing};
use hp_mount_door::PoolDoor;
use hp_mount_files::{Lookup, MapRange, NextMap};
use std::alloc::AllocError;

// Tasks with maps on a mount.
pub(super) const MOST_TASKS: u64 = hp_model::profile::MOST_TASKS as u64;

// 1 for each byte that a name may have: A-Z a-z 0-9 . _ -
const NAME_BYTES: &[u8; 256] = &[
    0, 0, 0, 0, 0, 0, 0, 0, 0, 0, 0, 0, 0, 0, 0, 0, 0, 0, 0, 0, 0, 0, 0, 0, 0, 0, 0, 0, 0, 0, 0, 0,
    0, 0, 0, 0, 0, 0, 0, 0, 0, 0, 0, 0, 0, 1, 1, 0, 1, 1, 1, 1, 1, 1, 1, 1, 1, 1, 0, 0, 0, 0, 0, 0,
    0, 1, 1, 1, 1, 1, 1, 1, 1, 1, 1, 1, 1, 1, 1, 1, 1, 1, 1, 1, 1, 1, 1, 1, 1, 1, 1, 0, 0, 0, 0, 1,
    0, 1, 1, 1, 1, 1, 1, 1, 1, 1, 1, 1, 1, 1, 1, 1, 1, 1, 1, 1, 1, 1, 1, 1, 1, 1, 1, 0, 0, 0, 0, 0,
    0, 0, 0, 0, 0, 0, 0, 0, 0, 0, 0, 0, 0, 0, 0, 0, 0, 0, 0, 0, 0, 0, 0, 0, 0, 0, 0, 0, 0, 0, 0, 0,
    0, 0, 0, 0, 0, 0, 0, 0, 0, 0, 0, 0, 0, 0, 0, 0, 0, 0, 0, 0, 0, 0, 0, 0, 0, 0, 0, 0, 0, 0, 0, 0,
    0, 0, 0, 0, 0, 0, 0, 0, 0, 0, 0, 0, 0, 0, 0, 0, 0, 0, 0, 0, 0, 0, 0, 0, 0, 0, 0, 0, 0, 0, 0, 0,
    0, 0, 0, 0, 0, 0, 0, 0, 0, 0, 0, 0, 0, 0, 0, 0, 0, 0, 0, 0, 0, 0, 0, 0, 0, 0, 0, 0, 0, 0, 0, 0,
];

fn is_name_byte(c: u8) -> bool
    ensures { result ≡ is_name_byte c }
{
    NAME_BYTES[c as usize] == 1
}

/// Whether a file may be named so.
fn is_name(name: &[u8]) -> bool
    ensures is { result ≡ is_name name.now }
    ensures few { IsTrue result → length name.now ≤ most_name_bytes }
{
    if name.len() < 1 {
        return false;
    }
    if name.len() > MOST_NAME_BYTES {
        return false;
    }
    name.iter().all(|c| is_name_byte(*c))
}

impl<N: Naming> Mount<N> {
    // Whether one file more is past the limit of files.
    fn is_without_inodes(&self) -> bool
        requires { length self.now.files < most_files }
        ensures { result ≡ is_over self.now.limits.inodes (length self.now.files + 1) }
    {
        match self.inodes {
            None => false,
            Some(most) => most < self.files.count() as u64 + 1,
        }
    }

    // Whether a file has the name.
    fn is_taken(&self, name: &[u8]) -> bool
        ensures { result ≡ is_some (file_named self.now name.now) }
    {
        self.files.named(name).is_some()
    }

    // What one file more is refused, whatever its name, if anything.
    fn refused_more(&self) -> Option<Refusal>
        ensures first { result ≡ first_of (file_tests self.now) }
        ensures noted { IfSome result (λ r. r ≢ Refusal.TraceFull) }
        ensures few { IfNone result (length self.now.files < most_files) }
    {
        if self.files.count() >= MOST_FILES {
            return Some(Refusal::TooMany);
        }
        if self.is_without_inodes() {
            return Some(Refusal::NoInodes);
        }
        None
    }

    // What a new file of this name is refused before memory, if anything.
    fn refused_file(&self, name: &[u8]) -> Option<Refusal>
        ensures first { result ≡ first_of (create_tests self.now name.now) }
        ensures noted { IfSome result (λ r. r ≢ Refusal.TraceFull) }
        ensures short { IfNone result (length name.now ≤ most_name_bytes) }
        ensures few { IfNone result (length self.now.files < most_files) }
    {
        if !is_name(name) {
            return Some(Refusal::BadName);
        }
        if self.is_taken(name) {
            return Some(Refusal::FileExists);
        }
        self.refused_more()
    }

    /// Makes a file of length 0. Refused as BadName, FileExists, TooMany, NoInodes or OutOfMemory, the first of these
    /// that holds, and then nothing changes.
    pub fn create(&mut self, name: &[u8]) -> Result<(), Refusal>
        ensures done { (size k : ℕ)
            → IsDoneAlone size k (Some self.old) (Create name.now) (done_reply result)
            (Some self.new) }
        ensures noted { done_reply result ≢ Err Refusal.TraceFull }
    {
        if let Some(refusal) = self.refused_file(name) {
            return Err(refusal);
        }
        if let Err(AllocError) = self.files.create(name) {
            return Err(Refusal::OutOfMemory);
        }
        Ok(())
    }

    // The map that the task may make next, or why it may not.
    fn next_map(&self, range: &MapRange) -> Result<NextMap, Refusal>
        ensures number { IfOk result (λ next. next.number ≡ next_number range.now.task self.now) }
        ensures first { IfOk result (λ next. next.is_first
            ≡ not (is_among range.now.task (tasks_of self.now))) }
        ensures pass { OnOk result (why_no_map self.now range.now ≡ None) }
        ensures few { OnOk result (length (maps_of self.now) < most_maps) }
        ensures reach { OnOk result (range.now.start + range.now.pages ≤ most_file_pages) }
        ensures err { IfErr result (λ e. why_no_map self.now range.now ≡ Some e) }
    {
        let pages = range.pages;
        if pages == 0 || range.start > MOST_FILE_PAGES || pages > MOST_FILE_PAGES - range.start {
            return Err(Refusal::OutOfRange);
        }
        if pages > MOST_MAP_PAGES || self.files.map_count() >= MOST_MAPS {
            return Err(Refusal::TooMany);
        }
        let next = self.files.next_map(range.task);
        if next.is_first && self.files.task_count() >= MOST_TASKS {
            return Err(Refusal::TooMany);
        }
        Ok(next)
    }

    /// Maps indices of a file for a task. Without reservations nothing is asked of the pool; with, a page for each index if
    /// the map is private, and for each without an entry if it is shared, whose indices are then entered.
    ///
    /// Refused as NoSuchFile, OutOfRange, TooMany, MountFull, OutOfMemory or NoPages, the first of these that holds, and
    /// as TraceFull where the door has no room to note the section; then nothing changes.
    pub fn map<D: PoolDoor<N>>(
        &mut self,
        door: &mut D,
        home: u64,
        name: &[u8],
        range: &MapRange,
    ) -> Result<u64, Refusal>
        requires ready { D.is_ready door.old }
        ensures done { (size k : ℕ) → IsDone D.took D.is_full size k (Some self.old) door.old
            (map_event home name.now range.now) (map_reply result) (Some self.new) door.new }
        ensures left { D.is_left door.new }
    {
        let Some(file) = self.files.named(name) else {
            return Err(Refusal::NoSuchFile);
        };
        let next = match self.next_map(range) {
            Ok(next) => next,
            Err(refusal) => return Err(refusal),
        };
        let wanted = self.files.wanted(file, range);
        if self.share.is_full(wanted) {
            return Err(Refusal::MountFull);
        }
        let files = &mut self.files;
        if let Err(refusal) = files.add_map(
            door,
            &mut self.share,
            home as usize,
            file,
            range,
            next,
        ) {
            return Err(refusal);
        }
        Ok(next.number)
    }

    /// Maps all of a new file without name for a task: `pages` indices. Without reservations nothing is asked of the pool,
    /// with them a page for each index. The file goes with its last map.
    ///
    /// Refused as OutOfRange, TooMany, NoInodes, MountFull, OutOfMemory or NoPages, the first of these that holds, and as
    /// TraceFull where the door has no room to note the section; then nothing changes.
    pub fn anon<D: PoolDoor<N>>(
        &mut self,
        door: &mut D,
        home: u64,
        task: u64,
        pages: u64,
        sharing: Sharing,
        reserving: Reserving,
    ) -> Result<u64, Refusal>
        requires ready { D.is_ready door.old }
        ensures done { (size k : ℕ) → IsDone D.took D.is_full size k (Some self.old) door.old
            (Anon task home pages sharing reserving) (map_reply result) (Some self.new) door.new }
        ensures left { D.is_left door.new }
    {
        let range = MapRange {
            task,
            start: 0,
            pages,
            sharing,
            reserving,
        };
        let next = match self.next_map(&range) {
            Ok(next) => next,
            Err(refusal) => return Err(refusal),
        };
        if let Some(refusal) = self.refused_more() {
            return Err(refusal);
        }
        if self.share.is_full(range.wanted_alone()) {
            return Err(Refusal::MountFull);
        }
        let files = &mut self.files;
        if let Err(refusal) = files.add_anon(door, &mut self.share, home as usize, &range, next) {
            return Err(refusal);
        }
        Ok(next.number)
    }
}
