//! What files are asked.
ghost use Rattle.std.specs.Prelude.{◌≡◌, ◌≢◌, ℕ, ◌+◌, ◌≤◌, ◌<◌, length, Err, IfNone, IfSome, Some};
ghost use Rattle.hp_model.specs.declared.event.SlotEvent.TheVariants.{Ls, Read, Stat};
ghost use Rattle.hp_model.specs.declared.refusal.Refusal.TheVariants as Refusal;
ghost use Rattle.hp_model.specs.machine.Promises.{file_in};
ghost use Rattle.hp_model.specs.beside.Accesses.{bytes_reply};
ghost use Rattle.hp_model.specs.machine.SlotEvent.{read_tests};
ghost use Rattle.hp_model.specs.beside.Told.{told_reply};
ghost use Rattle.hp_model.specs.text.Writing.{IsWithinLimits};
ghost use Rattle.hp_model.specs.Profile.{most_bytes};
ghost use Rattle.hp_mount_laws.specs.Alone.{IsDoneAlone};
ghost use Rattle.hp_mount_laws.specs.Done.{NeedsNoRoom};
ghost use Rattle.hp_mount_laws.specs.Reach.{first_of};

use super::Mount;
use super::contents::{bytes_of, zeros_of};
use hp_model::naming::Naming;
use hp_model::profile::MOST_BYTES;
use hp_model::refusal::Refusal;
use hp_model::told::Told;
use hp_mount_files::{FilePages, Lookup};
use std::alloc::AllocError;

impl<N: Naming> Mount<N> {
    /// The names of the files that have one, in order of creation. Refused as OutOfMemory, where the list has no room.
    pub fn ls(&self) -> Result<Told<'static>, Refusal>
        ensures done { (size k : ℕ)
            → IsDoneAlone size k (Some self.now) Ls (told_reply result) (Some self.now) }
        ensures limits { IsWithinLimits (told_reply result) }
        ensures noted { told_reply result ≢ Err Refusal.TraceFull }
    {
        match self.files.names() {
            Ok(names) => Ok(Told::Names(names)),
            Err(AllocError) => Err(Refusal::OutOfMemory),
        }
    }

    /// A file's length in pages, how many pages it has of its own, how many of its indices are entered, and how many
    /// maps it has, of all tasks. Refused as NoSuchFile. No index is walked.
    pub fn stat(&self, name: &[u8]) -> Result<Told<'static>, Refusal>
        ensures done { (size k : ℕ)
            → IsDoneAlone size k (Some self.now) (Stat name.now) (told_reply result)
            (Some self.now) }
        ensures limits { IsWithinLimits (told_reply result) }
        ensures free { NeedsNoRoom (told_reply result) }
    {
        let Some(at) = self.files.named(name) else {
            return Err(Refusal::NoSuchFile);
        };
        let file = self.files.file(at);
        Ok(Told::Stat {
            len: file.len(),
            pages: file.page_count(),
            entries: file.entry_count(),
            maps: file.map_count() as u64,
        })
    }

    // What a read of so many bytes of a file is refused, if anything.
    fn refused_read(
        &self,
        page_bytes: u64,
        file: usize,
        index: u64,
        offset: u64,
        count: u64,
    ) -> Option<Refusal>
        requires { file < length self.now.files }
        ensures first { result
            ≡ first_of (read_tests page_bytes index offset count (file_in self.now file)) }
        ensures fits { IfNone result (offset + count ≤ page_bytes) }
        ensures few { IfNone result (count ≤ most_bytes) }
        ensures memory { IfSome result (λ r. r ≢ Refusal.OutOfMemory) }
        ensures noted { IfSome result (λ r. r ≢ Refusal.TraceFull) }
    {
        if count == 0 || index >= self.files.file(file).len() {
            return Some(Refusal::OutOfRange);
        }
        if offset > page_bytes || count > page_bytes - offset {
            return Some(Refusal::CrossesPage);
        }
        if count > MOST_BYTES as u64 {
            return Some(Refusal::TooMany);
        }
        None
    }

    /// Answers `count` bytes of a file at an index, from byte `offset` of the page on, in the front of the room; where
    /// there is no page, zeros.
    ///
    /// Refused by the first of these that holds:
    /// - NoSuchFile: no file has the name.
    /// - OutOfRange: `count` is 0, or the index is not below the file's length.
    /// - CrossesPage: the bytes reach past the end of the page.
    /// - TooMany: `count` is above `MOST_BYTES`.
    pub fn read<'a>(
        &self,
        page_bytes: u64,
        name: &[u8],
        index: u64,
        offset: u64,
        count: u64,
        room: &'a mut [u8],
    ) -> Result<&'a [u8], Refusal>
        requires page_bytes { page_bytes ≡ N.page_bytes }
        requires room { most_bytes ≤ length room.old }
        ensures done { (k : ℕ) → IsDoneAlone N.page_bytes k (Some self.now)
            (Read name.now index offset count) (bytes_reply result) (Some self.now) }
        ensures free { NeedsNoRoom (bytes_reply result) }
    {
        let Some(file) = self.files.named(name) else {
            return Err(Refusal::NoSuchFile);
        };
        if let Some(refusal) = self.refused_read(page_bytes, file, index, offset, count) {
            return Err(refusal);
        }
        match self.files.bytes(file, index) {
            Some(page) => Ok(bytes_of(page, offset as usize, count as usize, room)),
            None => Ok(zeros_of(count as usize, room)),
        }
    }
}
