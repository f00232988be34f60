//! Indices of a file that are filled before they are reached.
ghost use Rattle.std.specs.Prelude.{◌≡◌, ◌<◌, ◌≤◌, IfNone, Some, ℕ};
ghost use Rattle.hp_model.specs.declared.event.SlotEvent.TheVariants.{Preallocate};
ghost use Rattle.hp_model.specs.beside.Accesses.{done_reply};
ghost use Rattle.hp_model.specs.machine.SlotEvent.{preallocate_tests};
ghost use Rattle.hp_model.specs.Profile.{most_file_pages};
ghost use Rattle.hp_mount_laws.specs.Done.{IsDone};
ghost use Rattle.hp_mount_laws.specs.Reach.{first_of};

use super::Mount;
use hp_model::naming::Naming;
use hp_model::profile::{MOST_FILE_PAGES, MOST_MAP_PAGES};
use hp_model::refusal::Refusal;
use hp_mount_door::PoolDoor;
use hp_mount_files::Lookup;

// What filling a range of a file is refused before its pages are counted, if anything.
fn refused_range(start: u64, end: u64) -> Option<Refusal>
    ensures refused { result ≡ first_of (preallocate_tests start end) }
    ensures order { IfNone result (start < end) }
    ensures reach { IfNone result (end ≤ most_file_pages) }
{
    if end <= start || end > MOST_FILE_PAGES {
        return Some(Refusal::OutOfRange);
    }
    if end - start > MOST_MAP_PAGES {
        return Some(Refusal::TooMany);
    }
    None
}

impl<N: Naming> Mount<N> {
    /// Gives each index of a file from `start` up to `end` that has no page a page of zeros; the file gets longer where it
    /// ends before. An index without an entry is granted, and one with an entry gets the page of its reservation: all in one
    /// section. Where each index has its page nothing is asked, and nothing changes.
    ///
    /// Refused, and then nothing changes, by the first of these that holds, and as TraceFull where the door has no room to
    /// note the section:
    /// - NoSuchFile: no file has the name.
    /// - OutOfRange: the range is empty, or `end` is above 16,777,216 (profile).
    /// - TooMany: there are more than 65,536 indices (profile).
    /// - MountFull, OutOfMemory or NoPages.
    pub fn preallocate<D: PoolDoor<N>>(
        &mut self,
        door: &mut D,
        name: &[u8],
        start: u64,
        end: u64,
    ) -> Result<(), Refusal>
        requires ready { D.is_ready door.old }
        ensures done { (k : ℕ) → IsDone D.took D.is_full N.page_bytes k (Some self.old) door.old
            (Preallocate name.now start end) (done_reply result) (Some self.new) door.new }
        ensures left { D.is_left door.new }
    {
        let Some(file) = self.files.named(name) else {
            return Err(Refusal::NoSuchFile);
        };
        if let Some(refusal) = refused_range(start, end) {
            return Err(refusal);
        }
        let count = self.files.file(file).lacking(start, end);
        if count == 0 {
            return Ok(());
        }
        let k = self.files.file(file).missing(start, end);
        if self.share.is_full(k) {
            return Err(Refusal::MountFull);
        }
        let files = &mut self.files;
        if let Err(refusal) = files.preallocate(door, &mut self.share, file, start, end, k, count) {
            return Err(refusal);
        }
        Ok(())
    }
}
