//! Files that give back.
ghost use Rattle.std.specs.Prelude.{ℕ, Some};
ghost use Rattle.hp_model.specs.declared.event.SlotEvent.TheVariants.{Punch, Truncate, Unlink};
ghost use Rattle.hp_model.specs.beside.Accesses.{done_reply};
ghost use Rattle.hp_mount_laws.specs.Done.{IsDone, NeedsNoRoom};

use super::Mount;
use hp_model::naming::Naming;
use hp_model::profile::MOST_FILE_PAGES;
use hp_model::refusal::Refusal;
use hp_mount_door::PoolDoor;
use hp_mount_files::Lookup;
use std::ops::Range;

impl<N: Naming> Mount<N> {
    /// Takes a file's name away. While maps of it are left it stays as it is. Without maps it goes, and its pages and the
    /// reservations of its entries go back to the pool, but for what the minimum keeps.
    ///
    /// Refused as NoSuchFile where no file has the name, and then nothing changes.
    pub fn unlink<D: PoolDoor<N>>(&mut self, door: &mut D, name: &[u8]) -> Result<(), Refusal>
        requires ready { D.is_ready door.old }
        ensures done { (size k : ℕ) → IsDone D.took D.is_full size k (Some self.old) door.old
            (Unlink name.now) (done_reply result) (Some self.new) door.new }
        ensures left { D.is_left door.new }
        ensures free { NeedsNoRoom (done_reply result) }
    {
        let Some(file) = self.files.named(name) else {
            return Err(Refusal::NoSuchFile);
        };
        let reserves = self.files.unlink(file, name);
        self.files.give_back(door, &mut self.share, reserves);
        Ok(())
    }

    /// Makes a file `pages` indices long. Pages, entries and private copies from there on go, and go back to the pool,
    /// as do the reservations of entries without a page, but for what the minimum keeps (`mm/hugetlbfs_reserv.rst`).
    ///
    /// Refused, and then nothing changes, by the first of these that holds:
    /// - NoSuchFile: no file has the name.
    /// - OutOfRange: `pages` is above 16,777,216 (profile).
    pub fn truncate<D: PoolDoor<N>>(
        &mut self,
        door: &mut D,
        name: &[u8],
        pages: u64,
    ) -> Result<(), Refusal>
        requires ready { D.is_ready door.old }
        ensures done { (size k : ℕ) → IsDone D.took D.is_full size k (Some self.old) door.old
            (Truncate name.now pages) (done_reply result) (Some self.new) door.new }
        ensures left { D.is_left door.new }
        ensures free { NeedsNoRoom (done_reply result) }
    {
        let Some(file) = self.files.named(name) else {
            return Err(Refusal::NoSuchFile);
        };
        if pages > MOST_FILE_PAGES {
            return Err(Refusal::OutOfRange);
        }
        let reserves = self.files.truncate(file, pages);
        self.files.give_back(door, &mut self.share, reserves);
        Ok(())
    }

    /// The pages of a file's indices from `start` up to `end` go with their entries, and so do private copies of them.
    /// They go back to the pool, but for what the minimum keeps. Entries without a page stay (profile).
    ///
    /// Refused, and then nothing changes, by the first of these that holds:
    /// - NoSuchFile: no file has the name.
    /// - OutOfRange: the range is empty, or `end` is above 16,777,216 (profile).
    pub fn punch<D: PoolDoor<N>>(
        &mut self,
        door: &mut D,
        name: &[u8],
        range: Range<u64>,
    ) -> Result<(), Refusal>
        requires ready { D.is_ready door.old }
        ensures done { (size k : ℕ) → IsDone D.took D.is_full size k (Some self.old) door.old
            (Punch name.now range.start range.end) (done_reply result) (Some self.new) door.new }
        ensures left { D.is_left door.new }
        ensures free { NeedsNoRoom (done_reply result) }
    {
        let Range { start, end } = range;
        let Some(file) = self.files.named(name) else {
            return Err(Refusal::NoSuchFile);
        };
        if end <= start || end > MOST_FILE_PAGES {
            return Err(Refusal::OutOfRange);
        }
        self.files.punch(file, start, end);
        self.files.give_back(door, &mut self.share, 0);
        Ok(())
    }
}
