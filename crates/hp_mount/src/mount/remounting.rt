//! Other limits for a mount.
ghost use Rattle.std.specs.Prelude.{◌≡◌, ◌≢◌, ◌<◌, ◌==◌, ℕ, Err, Some, false};
ghost use Rattle.hp_model.specs.declared.event.SlotEvent.TheVariants.{Remount};
ghost use Rattle.hp_model.specs.declared.refusal.Refusal.TheVariants as Refusal;
ghost use Rattle.hp_model.specs.beside.Accesses.{done_reply};
ghost use Rattle.hp_mount_laws.specs.Done.{IsDone};

use super::Mount;
use hp_model::naming::Naming;
use hp_model::refusal::Refusal;
use hp_mount_door::PoolDoor;

impl<N: Naming> Mount<N> {
    /// Sets all three limits anew, to what the options mean at the pool's nr. Files and maps stay as they are: a limit
    /// below what is used stops growth only. It is one section of the pool, which commits what the minimum adds, or takes
    /// back what it leaves. A slot that is never mounted, slot 0, is refused above.
    ///
    /// Refused, and then nothing changes, by the first of these that holds:
    /// - BadOption: the text is no options.
    /// - MinOverSize: the minimum is above the limit, in pages.
    /// - NoPages: the pool can't commit what the minimum adds.
    ///
    /// As TraceFull where the door has no room to note the section. It takes a few words, whatever files there are.
    #[inline(never)]
    pub fn remount<D: PoolDoor<N>>(
        &mut self,
        door: &mut D,
        page_bytes: u64,
        options: &[u8],
    ) -> Result<(), Refusal>
        requires ready { D.is_ready door.old }
        requires bytes { 0 < page_bytes }
        ensures done { (k : ℕ) → (k == 0) ≡ false
            → IsDone D.took D.is_full page_bytes k (Some self.old) door.old
            (Remount options.now) (done_reply result) (Some self.new) door.new }
        ensures left { D.is_left door.new }
        ensures memory { done_reply result ≢ Err Refusal.OutOfMemory }
    {
        self.inodes = door.limits(&mut self.share, page_bytes, options)?;
        Ok(())
    }
}
