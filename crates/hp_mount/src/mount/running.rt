//! Faults at indices that follow one another.
ghost use Rattle.std.specs.Prelude.{◌≡◌, ◌+◌, ◌<◌, ◌≤◌, ◌^◌, ℕ, List, [], Some, length};
ghost use Rattle.hp_lookup.specs.Files.{file_at};
ghost use Rattle.hp_mount.specs.Running.{AreReserved, RunsThrough, filled_from};

use super::Mount;
use super::reach::{Asked, MapAccess};
use crate::run_door::RunDoor;
use hp_model::naming::Naming;
use hp_mount_files::{CellState, FilePages, Files, Lookup, MapPlace};

// How many indices from one on, at most so many, are live in a map and have entries without pages in its file: up to the first
// that is not so.
fn reserved_from<N: Naming>(files: &Files<N>, at: MapPlace, index: u64, most: u64) -> u64
    requires file { at.file < length files.now.files }
    requires map { at.map < length (file_at files.now.files at.file).maps }
    requires below { index < length (file_at files.now.files at.file).cells }
    ensures reserved { AreReserved (file_at files.now.files at.file) at.map index result }
    ensures few { result ≤ most }
    ensures end { index + result < 2 ^ 64 }
{
    let end = index.saturating_add(most).min(files.file(at.file).len());
    let map = files.map(at);
    for next in index..end {
        if !map.is_live(next) || files.cell(at.file, next) != CellState::Entered {
            return next - index;
        }
    }
    end - index
}

// Zeroes the pages that a door took, and puts them at a file's indices from one on, until each was handed out: how many there
// were.
fn fill_from<N: Naming, D: RunDoor<N>>(
    files: &mut Files<N>,
    door: &mut D,
    at: MapPlace,
    index: u64,
) -> u64
    requires file { at.file < length files.old.files }
    requires reserved { AreReserved (file_at files.old.files at.file) at.map index
        (length (D.waiting door.old)) }
    requires room { length (D.waiting door.old) ≤ files.old.room }
    requires end { index + length (D.waiting door.old) < 2 ^ 64 }
    ensures all { result ≡ length (D.waiting door.old) }
    ensures filled { files.new
        ≡ filled_from N.page_bytes at.file index (D.waiting door.old) files.old }
    ensures none { D.waiting door.new ≡ [] }
    ensures took { (d : D) (nodes : List ℕ) → D.took d nodes door.old → D.took d nodes door.new }
{
    let mut end = index;
    while let Some(taken) = door.next_page() {
        let mut page = taken;
        page.zero();
        files.fill(at.file, end, page);
        end += 1;
    }
    end - index
}

impl<N: Naming> Mount<N> {
    /// Faults through a map at an index and at those behind it: the first of them, at most so many, that each take the page of a
    /// reservation of the map's file. All their pages are taken before the first is put in its place. How many were done: none
    /// where there are less than two, and fewer than asked for where the door took fewer. Never refused.
    #[inline(never)]
    pub fn fault_run<D: RunDoor<N>>(&mut self, door: &mut D, access: &MapAccess, most: u64) -> u64
        requires none { D.waiting door.old ≡ [] }
        ensures done { (k : ℕ) → RunsThrough D.took N.page_bytes k access.now.task access.now.map
            access.now.index result (Some self.old) door.old (Some self.new) door.new }
        ensures none { D.waiting door.new ≡ [] }
        ensures few { result ≤ most }
    {
        let Ok(at) = self.place(0, access, Asked::Page) else {
            return 0;
        };
        if !self.files.map(at).is_shared() {
            return 0;
        }
        let most = most.min(self.share.held());
        let count = reserved_from(&self.files, at, access.index, most);
        if count < 2 {
            return 0;
        }
        door.take_pages(&mut self.share, count);
        fill_from(&mut self.files, door, at, access.index)
    }
}
