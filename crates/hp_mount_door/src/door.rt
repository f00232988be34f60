//! Doors to the pool.
ghost use Rattle.std.specs.Prelude.{◌≡◌, ℕ, ◌+◌, ◌<◌, ◌≤◌, ◌^◌, false, [], length, IfOk, IfErr, IsOk, OnOk, OnErr};
ghost use Rattle.hp_model.specs.declared.section.PoolAnswer.{PoolAnswer};
ghost use Rattle.hp_model.specs.declared.section.Section.{Section};
ghost use Rattle.hp_model.specs.declared.section.Section.TheVariants.{TakePage};
ghost use Rattle.hp_model.specs.pool.Pool.{filled_by, granted_at};
ghost use Rattle.hp_subpool.specs.Subpool.{committed_of, fall, is_full as ShareIsFull, rise, used};
ghost use Rattle.hp_mount_door.specs.Filling.{AreRising, fill_for, with_filled};
ghost use Rattle.hp_mount_door.specs.Limits.{IsLimitedAt};
ghost use Rattle.hp_mount_door.specs.Opened.{IsOpenedAt};
ghost use Rattle.hp_mount_door.specs.Door.{IsDoorRefusal, IsRefusedAt, GivesBack, by_node, grant_for, grant_one, with_page, with_granted, with_reserves, with_less};

use hp_model::limits::Limits;
use hp_model::naming::Naming;
use hp_model::refusal::Refusal;
use hp_nodes::Page;
use hp_store::{PageBatch, PageStore};
use hp_subpool::Subpool;

/// A way to the pool. Each call is one section of the pool at most.
pub trait PoolDoor<N: Naming> {
    // a section can be entered
    ghost is_ready: { Self → Type 0 };

    // one section with its answer, from one state of the door to another
    ghost took: { Self → Section → PoolAnswer → Self → Type 0 };

    // there was no room to note a section
    ghost is_full: { Self → Type 0 };

    // what is left after a call
    ghost is_left: { Self → Type 0 };

    // a call that enters no section leaves the door as well
    ghost stays: { (d : Self) → is_ready d → is_left d };

    /// Reserves k pages more for the share. Where its minimum covers them there is no section.
    ///
    /// Refused as NoPages where the pool can't commit them, and as TraceFull where the section can't be noted. Then the
    /// share stays as it was.
    fn get(&mut self, share: &mut Subpool<N>, home: usize, k: u64) -> Result<(), Refusal>
        requires ready { is_ready self.old }
        requires within { ShareIsFull share.old k ≡ false }
        requires few { used share.old + k < 2 ^ 64 }
        ensures none { rise share.old k ≡ 0 → IsOk result }
        ensures same { rise share.old k ≡ 0 → self.new ≡ self.old }
        ensures ok { IsOk result → 0 < rise share.old k
            → took self.old (grant_for home k share.old) (granted_at 0) self.new }
        ensures share { OnOk result (share.new ≡ with_reserves k share.old) }
        ensures err { IfErr result (λ e.
            IsRefusedAt took is_full (grant_for home k share.old) self.old self.new e) }
        ensures unchanged { OnErr result (share.new ≡ share.old) }
        ensures left { is_left self.new };

    /// A page more for the share, by a grant of one. Refused as `get` is.
    fn get_page(&mut self, share: &mut Subpool<N>, home: usize) -> Result<Page<N>, Refusal>
        requires ready { is_ready self.old }
        requires within { ShareIsFull share.old 1 ≡ false }
        requires few { used share.old + 1 < 2 ^ 64 }
        ensures ok { IfOk result (λ page.
            took self.old (grant_one home share.old)
            (granted_at page.node) self.new) }
        ensures share { OnOk result (share.new ≡ with_granted share.old) }
        ensures err { IfErr result (λ e.
            IsRefusedAt took is_full (grant_one home share.old) self.old self.new e) }
        ensures unchanged { OnErr result (share.new ≡ share.old) }
        ensures left { is_left self.new };

    /// The page of a reservation that the share holds. Refused as TraceFull alone.
    fn take_page(&mut self, share: &mut Subpool<N>, home: usize) -> Result<Page<N>, Refusal>
        requires ready { is_ready self.old }
        requires held { 0 < share.old.held }
        ensures ok { IfOk result (λ page.
            took self.old (TakePage home) (granted_at page.node) self.new) }
        ensures share { OnOk result (share.new ≡ with_page share.old) }
        ensures err { IfErr result (λ e.
            IsDoorRefusal e ⊥ ((self.new ≡ self.old) × is_full self.new)) }
        ensures unchanged { OnErr result (share.new ≡ share.old) }
        ensures left { is_left self.new };

    /// Reserves k pages more for the share, and takes `count` of those that it then holds into an empty batch: of the
    /// lowest nodes first, in the order in which they come out of it. It is always a section.
    ///
    /// Refused as `get` is. Then the share and the batch stay as they were.
    fn fill(
        &mut self,
        share: &mut Subpool<N>,
        k: u64,
        count: u64,
        batch: &mut PageBatch<N>,
    ) -> Result<(), Refusal>
        requires ready { is_ready self.old }
        requires within { ShareIsFull share.old k ≡ false }
        requires few { used share.old + k < 2 ^ 64 }
        requires held { count ≤ share.old.held + k }
        requires batch { batch.old ≡ record { pages = []; room = count } }
        ensures ok { IsOk result → took self.old (fill_for k count share.old)
            (filled_by (by_node batch.new.pages)) self.new }
        ensures pages { IsOk result → AreRising count batch.new.pages }
        ensures share { OnOk result (share.new
            ≡ with_filled k count share.old) }
        ensures err { IfErr result (λ e.
            IsRefusedAt took is_full (fill_for k count share.old) self.old self.new e) }
        ensures unchanged { OnErr result (share.new ≡ share.old) }
        ensures empty { OnErr result (batch.new ≡ batch.old) }
        ensures left { is_left self.new };

    /// Puts the pages that go back at their nodes, and gives so many reservations back. What the minimum asks for stays
    /// committed. Where that is nothing there is no section. Never refused.
    fn put(&mut self, share: &mut Subpool<N>, going: &mut PageStore<N>, reserves: u64)
        requires ready { is_ready self.old }
        requires pages { length going.old.going ≤ share.old.pages }
        requires held { reserves ≤ share.old.held }
        ensures given { GivesBack took going.old.going
            (fall share.old (length going.old.going + reserves)) self.old self.new }
        ensures share { share.new
            ≡ with_less (length going.old.going) reserves share.old }
        ensures going { going.new ≡ record going.old { going = [] } }
        ensures left { is_left self.new };

    /// A share of which nothing is in use, with the limits that the options mean at the pool's nr, for pages of `page_bytes`
    /// bytes; and these limits. It is always a section, which commits the minimum at home node 0.
    ///
    /// Refused as BadOption, MinOverSize or NoPages, and as TraceFull where the section can't be noted.
    fn open(&mut self, page_bytes: u64, options: &[u8]) -> Result<(Subpool<N>, Limits), Refusal>
        requires ready { is_ready self.old }
        requires bytes { 0 < page_bytes }
        ensures opened { IsOpenedAt took is_full page_bytes options.now
            self.old self.new result }
        ensures left { is_left self.new };

    /// Sets the share's limits to what the options mean at the pool's nr, for pages of `page_bytes` bytes, and answers the
    /// limit of files. It is always a section. What the minimum adds is committed at home node 0, and what it leaves is given
    /// back. What is in use and held stays.
    ///
    /// Refused as BadOption, MinOverSize or NoPages, and as TraceFull where the section can't be noted. Then the share
    /// stays as it was.
    fn limits(
        &mut self,
        share: &mut Subpool<N>,
        page_bytes: u64,
        options: &[u8],
    ) -> Result<Option<u64>, Refusal>
        requires ready { is_ready self.old }
        requires bytes { 0 < page_bytes }
        ensures set { IsLimitedAt took is_full page_bytes options.now share.old
            share.new self.old self.new result }
        ensures unchanged { OnErr result (share.new ≡ share.old) }
        ensures left { is_left self.new };

    /// Puts all pages of the share at their nodes, and gives its reservations and its minimum back, so that it has
    /// nothing. Where that was nothing there is no section. Never refused.
    fn empty(&mut self, share: &mut Subpool<N>, going: &mut PageStore<N>)
        requires ready { is_ready self.old }
        requires pages { length going.old.going ≡ share.old.pages }
        ensures given { GivesBack took going.old.going (committed_of share.old) self.old self.new }
        ensures share { committed_of share.new ≡ 0 }
        ensures going { going.new ≡ record going.old { going = [] } }
        ensures left { is_left self.new };
}
