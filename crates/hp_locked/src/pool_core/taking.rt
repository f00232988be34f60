//! Claims of pages and grants of reservations, under the pool's lock.
ghost use Rattle.std.specs.Prelude.{Some, ◌≡◌, ◌+◌, ◌<◌, ◌≤◌, ◌^◌, true, false, IfOk, IfSome, IfNone, OnOk, OnErr};
ghost use Rattle.std.specs.List.{sum};
ghost use Rattle.hp_model.specs.declared.section.Section.TheVariants.{TakePage};
ghost use Rattle.hp_model.specs.pool.Pool.{filled_by, granted_at, no_pages, section};
ghost use Rattle.hp_mount_door.specs.Door.{IsReady, grant_for, grant_one, with_granted, with_page, with_reserves};
ghost use Rattle.hp_mount_door.specs.Filling.{fill_for, with_filled};
ghost use Rattle.hp_subpool.specs.Subpool.{is_full as ShareIsFull, rise, used};
ghost use Rattle.hp_trail.specs.Keeping.{has_room};
ghost use Rattle.hp_history.specs.Sections.{IsEntered, IsFreeSeat, IsSeat};
ghost use Rattle.hp_locked.specs.Views.{IsAnswered, IsFull, IsSection, IsUnasked};

use super::{Core, Full, committed, granted, refused};
use crate::noting::note;
use hp_history::{History, Places, Token};
use hp_model::entry::{Asked, PoolEntry};
use hp_model::naming::Naming;
use hp_model::section::{PoolAnswer, Section};
use hp_own_pool::Parcel;
use hp_own_pool::filling::take_pages;
use hp_permit::Claim;
use hp_pool::Pool;
use hp_subpool::Subpool;
use hp_trail::trail::Trail;

impl<N: Naming + Places, T: Trail<PoolEntry>> Core<N, T> {
    /// Takes the claim of a reservation that the share holds. At `Err` the trail is full, and nothing changed.
    #[inline(always)]
    pub fn take_page(
        &mut self,
        history: &History<N>,
        mine: &mut Token,
        share: &mut Subpool<N>,
        home: usize,
    ) -> Result<(Claim<N>, Asked), Full>
        requires mine { IsFreeSeat N.history mine.old.table_id mine.old.me }
        requires held { 0 < share.old.held }
        ensures section { IfOk result (λ r. IsSection self.old self.new r.1) }
        ensures asks { IfOk result (λ r. r.1.section ≡ TakePage home) }
        ensures answer { IfOk result (λ r. r.1.answer ≡ granted_at r.0.node) }
        ensures one { IfOk result (λ r. r.0.amount ≡ 1) }
        ensures few { IfOk result (λ r. N.frames r.0.node < 2 ^ 64) }
        ensures share { OnOk result (share.new ≡ with_page share.old) }
        ensures full { OnErr result (IsFull T.keeps self.old self.new mine.old.me mine.new.me) }
        ensures unchanged { OnErr result (share.new ≡ share.old) }
        ensures entered { IfOk result (λ r.
            IsEntered T.keeps mine.old.me.0 (Some r.1) mine.new.me.0) }
        ensures mine { IsSeat N.history mine.new.table_id mine.new.me }
    {
        let Core { pool, trail, seat } = self;
        if !trail.has_room(false) {
            return Err(Full {});
        }
        let claim = taken(pool, share, home);
        pool.law();
        let answer = granted(claim.node() as u64);
        let section = Section::TakePage { home: home as u64 };
        Ok((claim, note(trail, seat, history, mine, section, answer)))
    }

    /// Reserves k pages more for the share: the section with its answer, where there is one. At `Err` the trail is full,
    /// and nothing changed.
    pub fn get(
        &mut self,
        history: &History<N>,
        mine: &mut Token,
        share: &mut Subpool<N>,
        home: usize,
        k: u64,
    ) -> Result<Option<Asked>, Full>
        requires mine { IsFreeSeat N.history mine.old.table_id mine.old.me }
        requires within { ShareIsFull share.old k ≡ false }
        requires few { used share.old + k < 2 ^ 64 }
        ensures none { IfOk result (λ t. IfNone t (IsUnasked k self.old self.new share.old
            share.new)) }
        ensures section { IfOk result (λ t. IfSome t (λ a. IsSection self.old self.new a)) }
        ensures asks { IfOk result (λ t. IfSome t (λ a. a.section ≡ grant_for home k share.old)) }
        ensures some { IfOk result (λ t. IfSome t (λ a. 0 < rise share.old k)) }
        ensures share { IfOk result (λ t. IfSome t (λ a.
            IsAnswered a.answer share.old (with_reserves k share.old) share.new)) }
        ensures full { OnErr result (IsFull T.keeps self.old self.new mine.old.me mine.new.me) }
        ensures asking { OnErr result (0 < rise share.old k) }
        ensures unchanged { OnErr result (share.new ≡ share.old) }
        ensures entered { IfOk result (λ r.
            IsEntered T.keeps mine.old.me.0 r mine.new.me.0) }
        ensures mine { IsSeat N.history mine.new.table_id mine.new.me }
    {
        let Core { pool, trail, seat } = self;
        let pages = asked_for(share, k);
        if pages == 0 {
            covered(pool, share, home, k);
            return Ok(None);
        }
        if !trail.has_room(false) {
            return Err(Full {});
        }
        let section = Section::Grant {
            home: home as u64,
            pages,
        };
        let answer = reserved(pool, share, home, k);
        pool.law();
        Ok(Some(note(trail, seat, history, mine, section, answer)))
    }

    /// A page more for the share, by a grant of one: its claim, where it was granted, and the section. At `Err` the trail is
    /// full, and nothing changed.
    #[inline(always)]
    pub fn get_page(
        &mut self,
        history: &History<N>,
        mine: &mut Token,
        share: &mut Subpool<N>,
        home: usize,
    ) -> Result<(Option<Claim<N>>, Asked), Full>
        requires mine { IsFreeSeat N.history mine.old.table_id mine.old.me }
        requires within { ShareIsFull share.old 1 ≡ false }
        requires few { used share.old + 1 < 2 ^ 64 }
        ensures section { IfOk result (λ r. IsSection self.old self.new r.1) }
        ensures asks { IfOk result (λ r. r.1.section ≡ grant_one home share.old) }
        ensures some { IfOk result (λ r. IfSome r.0 (λ claim.
            (r.1.answer ≡ granted_at claim.node) × (share.new ≡ with_granted share.old))) }
        ensures one { IfOk result (λ r. IfSome r.0 (λ claim. claim.amount ≡ 1)) }
        ensures none { IfOk result (λ r. IfNone r.0
            ((r.1.answer ≡ no_pages) × (share.new ≡ share.old))) }
        ensures full { OnErr result (IsFull T.keeps self.old self.new mine.old.me mine.new.me) }
        ensures unchanged { OnErr result (share.new ≡ share.old) }
        ensures entered { IfOk result (λ r.
            IsEntered T.keeps mine.old.me.0 (Some r.1) mine.new.me.0) }
        ensures mine { IsSeat N.history mine.new.table_id mine.new.me }
    {
        let Core { pool, trail, seat } = self;
        if !trail.has_room(false) {
            return Err(Full {});
        }
        let section = Section::GrantPage {
            home: home as u64,
            pages: asked_for(share, 1),
        };
        let (claim, answer) = paged(pool, share, home);
        pool.law();
        let asked = note(trail, seat, history, mine, section, answer);
        Ok((claim, asked))
    }

    /// Reserves k pages more for the share, and takes the claims of `count` that it then holds: these, where that was granted,
    /// and the section. At `Err` the trail is full, and nothing changed.
    pub fn fill(
        &mut self,
        history: &History<N>,
        mine: &mut Token,
        share: &mut Subpool<N>,
        k: u64,
        count: u64,
    ) -> Result<(Option<Parcel<N>>, Asked), Full>
        requires mine { IsFreeSeat N.history mine.old.table_id mine.old.me }
        requires within { ShareIsFull share.old k ≡ false }
        requires few { used share.old + k < 2 ^ 64 }
        requires held { count ≤ share.old.held + k }
        ensures section { IfOk result (λ r. IsSection self.old self.new r.1) }
        ensures asks { IfOk result (λ r. r.1.section ≡ fill_for k count share.old) }
        ensures some { IfOk result (λ r. IfSome r.0 (λ parcel. (r.1.answer ≡ filled_by parcel)
            × (share.new ≡ with_filled k count share.old))) }
        ensures all { IfOk result (λ r. IfSome r.0 (λ parcel. sum parcel ≡ count)) }
        ensures none { IfOk result (λ r. IfNone r.0
            ((r.1.answer ≡ no_pages) × (share.new ≡ share.old))) }
        ensures full { OnErr result (IsFull T.keeps self.old self.new mine.old.me mine.new.me) }
        ensures unchanged { OnErr result (share.new ≡ share.old) }
        ensures entered { IfOk result (λ r.
            IsEntered T.keeps mine.old.me.0 (Some r.1) mine.new.me.0) }
        ensures mine { IsSeat N.history mine.new.table_id mine.new.me }
    {
        let Core { pool, trail, seat } = self;
        if !trail.has_room(false) {
            return Err(Full {});
        }
        let section = Section::FillPages {
            pages: asked_for(share, k),
            count,
        };
        let (parcel, answer) = filled(pool, share, k, count);
        pool.law();
        let asked = note(trail, seat, history, mine, section, answer);
        Ok((parcel, asked))
    }
}

// A page by a grant of one, with the pool's answer.
fn paged<N: Naming>(
    pool: &mut Pool<N>,
    share: &mut Subpool<N>,
    home: usize,
) -> (Option<Claim<N>>, PoolAnswer)
    requires ready { IsReady pool.old }
    requires within { ShareIsFull share.old 1 ≡ false }
    requires few { used share.old + 1 < 2 ^ 64 }
    ensures section { section pool.old (grant_one home share.old) ≡ (result.1, pool.new) }
    ensures some { IfSome result.0 (λ claim. (result.1 ≡ granted_at claim.node)
        × (share.new ≡ with_granted share.old)) }
    ensures one { IfSome result.0 (λ claim. claim.amount ≡ 1) }
    ensures none { IfNone result.0 ((result.1 ≡ no_pages) × (share.new ≡ share.old)) }
    ensures ready { IsReady pool.new }
{
    match share.get(pool, home, 1) {
        Ok(()) => {
            let claim = share.take_one(pool, home);
            let answer = granted(claim.node() as u64);
            (Some(claim), answer)
        }
        Err(_refusal) => (None, refused()),
    }
}

// The claims of many pages, by a grant, with the pool's answer.
fn filled<N: Naming>(
    pool: &mut Pool<N>,
    share: &mut Subpool<N>,
    k: u64,
    count: u64,
) -> (Option<Parcel<N>>, PoolAnswer)
    requires ready { IsReady pool.old }
    requires within { ShareIsFull share.old k ≡ false }
    requires few { used share.old + k < 2 ^ 64 }
    requires held { count ≤ share.old.held + k }
    ensures section { section pool.old (fill_for k count share.old) ≡ (result.1, pool.new) }
    ensures some { IfSome result.0 (λ parcel. (result.1 ≡ filled_by parcel)
        × (share.new ≡ with_filled k count share.old)) }
    ensures all { IfSome result.0 (λ parcel. sum parcel ≡ count) }
    ensures none { IfNone result.0 ((result.1 ≡ no_pages) × (share.new ≡ share.old)) }
    ensures ready { IsReady pool.new }
{
    match take_pages(pool, share, k, count) {
        Some(parcel) => {
            let answer = PoolAnswer {
                granted: true,
                node: 0,
                nr: 0,
                pages: parcel.counts(),
            };
            (Some(parcel), answer)
        }
        None => (None, refused()),
    }
}

// How far k pages more raise what is committed to the share.
fn asked_for<N: Naming>(share: &Subpool<N>, k: u64) -> u64
    requires { used share.now + k < 2 ^ 64 }
    ensures { result ≡ rise share.now k }
{
    (share.used() + k).max(share.min()) - committed(share)
}

// Reservations that the minimum covers.
fn covered<N: Naming>(pool: &mut Pool<N>, share: &mut Subpool<N>, home: usize, k: u64)
    requires ready { IsReady pool.old }
    requires within { ShareIsFull share.old k ≡ false }
    requires few { used share.old + k < 2 ^ 64 }
    requires none { rise share.old k ≡ 0 }
    ensures pool { pool.new ≡ pool.old }
    ensures share { share.new ≡ with_reserves k share.old }
{
    match share.get(pool, home, k) {
        Ok(()) => {}
        Err(_refusal) => unreachable!(),
    }
}

// The pool's answer to a grant of reservations.
fn reserved<N: Naming>(
    pool: &mut Pool<N>,
    share: &mut Subpool<N>,
    home: usize,
    k: u64,
) -> PoolAnswer
    requires ready { IsReady pool.old }
    requires within { ShareIsFull share.old k ≡ false }
    requires few { used share.old + k < 2 ^ 64 }
    requires some { 0 < rise share.old k }
    ensures section { section pool.old (grant_for home k share.old) ≡ (result, pool.new) }
    ensures share { IsAnswered result share.old (with_reserves k share.old) share.new }
    ensures ready { IsReady pool.new }
{
    match share.get(pool, home, k) {
        Ok(()) => granted(0),
        Err(_refusal) => refused(),
    }
}

// The claim of a reservation.
fn taken<N: Naming>(pool: &mut Pool<N>, share: &mut Subpool<N>, home: usize) -> Claim<N>
    requires ready { IsReady pool.old }
    requires held { 0 < share.old.held }
    ensures section { section pool.old (TakePage home) ≡ (granted_at result.node, pool.new) }
    ensures one { result.amount ≡ 1 }
    ensures share { share.new ≡ with_page share.old }
    ensures ready { IsReady pool.new }
{
    share.take_one(pool, home)
}
