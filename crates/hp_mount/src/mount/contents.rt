//! Bytes of pages, as they are written and shown.
ghost use Rattle.std.specs.Prelude.{◌≡◌, ℕ, ◌+◌, ◌<◌, ◌≤◌, length, take, drop};
ghost use Rattle.hp_model.specs.files.Mapping.{place_at};
ghost use Rattle.hp_model.specs.files.Value.{value};
ghost use Rattle.hp_model.specs.files.Page.{zeros};
ghost use Rattle.hp_model.specs.machine.Promises.{file_in, map_in};
ghost use Rattle.hp_model.specs.files.Spot.{place_written};
ghost use Rattle.hp_lookup.specs.declared.copy_state.CopyState.TheVariants as CopyState;
ghost use Rattle.hp_file.specs.States.{IsCopyState};
ghost use Rattle.hp_mount_laws.specs.Reach.{with_place_at};

use super::Mount;
use hp_model::naming::Naming;
use hp_mount_files::{MapPages, MapPlace};
use hp_nodes::Page;

impl<N: Naming> Mount<N> {
    // Writes bytes into a copy that the map alone holds.
    pub(super) fn write_copy(&mut self, at: MapPlace, index: u64, offset: usize, bytes: &[u8])
        requires file { at.file < length self.old.files }
        requires map { at.map < length (file_in self.old at.file).maps }
        requires once { IsCopyState CopyState.HeldOnce (file_in self.old at.file)
            (place_at (map_in (file_in self.old at.file) at.map) index) }
        requires fits { offset + length bytes.now ≤ N.page_bytes }
        ensures { self.new ≡ with_place_at self.old at.file at.map index
            (place_written offset bytes.now
            (place_at (map_in (file_in self.old at.file) at.map) index)) }
    {
        self.files.write_copy(at, index, offset, bytes);
    }
}

/// `count` bytes of a page, in the front of the room.
pub(super) fn bytes_of<'a>(page: &[u8], offset: usize, count: usize, room: &'a mut [u8]) -> &'a [u8]
    requires within { offset + count ≤ length page.now }
    requires room { count ≤ length room.old }
    ensures bytes { result.now ≡ take count (drop offset page.now) }
    ensures all { length result.now ≡ count }
{
    let (front, _) = room.split_at_mut(count);
    let (_, rest) = page.split_at(offset);
    let (wanted, _) = rest.split_at(count);
    front.copy_from_slice(wanted);
    front
}

/// `count` zeros, in the front of the room.
pub(super) fn zeros_of<'a>(count: usize, room: &'a mut [u8]) -> &'a [u8]
    requires room { count ≤ length room.old }
    ensures zeros { (size offset : ℕ) → offset + count ≤ size
        → result.now ≡ take count (drop offset (zeros size)) }
    ensures all { length result.now ≡ count }
{
    let (front, _) = room.split_at_mut(count);
    front.fill(0);
    front
}

/// The same of a page.
#[inline(always)]
pub(super) fn part_of<'a, N: Naming>(
    page: &Page<N>,
    offset: usize,
    count: usize,
    room: &'a mut [u8],
) -> &'a [u8]
    requires within { offset + count ≤ N.page_bytes }
    requires room { count ≤ length room.old }
    ensures bytes { result.now ≡ take count (drop offset page.now.bytes) }
    ensures all { length result.now ≡ count }
{
    let (front, _) = room.split_at_mut(count);
    page.copy_to(offset, front);
    front
}

impl<N: Naming> Mount<N> {
    // `count` bytes of what a map shows, in the front of the room.
    pub(super) fn shown_bytes<'a>(
        &self,
        at: MapPlace,
        index: u64,
        offset: usize,
        count: usize,
        room: &'a mut [u8],
    ) -> &'a [u8]
        requires file { at.file < length self.now.files }
        requires map { at.map < length (file_in self.now at.file).maps }
        requires within { offset + count ≤ N.page_bytes }
        requires room { count ≤ length room.old }
        ensures shown { result.now ≡ take count (drop offset
            (value N.page_bytes (file_in self.now at.file)
            (map_in (file_in self.now at.file) at.map) index)) }
        ensures all { length result.now ≡ count }
    {
        match self.files.shown(at, index) {
            Some(page) => part_of(page, offset, count, room),
            None => zeros_of(count, room),
        }
    }
}
