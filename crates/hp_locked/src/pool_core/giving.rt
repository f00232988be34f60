//! What goes back to the pool, under its lock.
ghost use Rattle.std.specs.Prelude.{◌∷◌, [], ◌≡◌, ◌+◌, ◌<◌, ◌≤◌, true, IfSome, IfNone};
ghost use Rattle.std.specs.List.{sum};
ghost use Rattle.hp_model.specs.declared.entry.PoolEntry.TheVariants.{OfSlot};
ghost use Rattle.hp_model.specs.declared.section.Section.TheVariants.{GiveBack};
ghost use Rattle.hp_model.specs.pool.Pool.{granted_at, puts_from, released, trimmed};
ghost use Rattle.hp_model.specs.threads.Closing.{to_return};
ghost use Rattle.hp_mount_door.specs.Door.{IsReady, with_less};
ghost use Rattle.hp_subpool.specs.Subpool.{committed_of, fall};
ghost use Rattle.hp_trail.specs.Keeping.{has_room, one_less, with_entry};
ghost use Rattle.hp_history.specs.Sections.{IsEntered, IsFreeSeat, IsSeat, pool_in, pool_next};
ghost use Rattle.hp_locked.specs.Views.{IsGiven, IsPlace, IsPoolSeat};

use super::{Core, committed, granted};
use crate::noting::note;
use atomic_table::Badge;
use hp_history::{History, Places, Token, View};
use hp_model::entry::{Asked, PoolEntry};
use hp_model::naming::Naming;
use hp_model::section::Section;
use hp_own_pool::Parcel;
use hp_pool::Pool;
use hp_subpool::Subpool;
use hp_trail::trail::Trail;

impl<N: Naming + Places, T: Trail<PoolEntry>> Core<N, T> {
    /// Puts the pages that go back by their claims, and gives so many reservations back: the section, where there is one.
    /// Never refused.
    pub fn put(
        &mut self,
        history: &History<N>,
        mine: &mut Token,
        share: &mut Subpool<N>,
        parcel: Parcel<N>,
        reserves: u64,
    ) -> Option<Asked>
        requires pages { sum parcel ≤ share.old.pages }
        requires held { reserves ≤ share.old.held }
        requires mine { IsFreeSeat N.history mine.old.table_id mine.old.me }
        ensures given { IsGiven parcel (fall share.old (sum parcel + reserves)) self.old
            self.new result }
        ensures share { share.new ≡ with_less (sum parcel) reserves share.old }
        ensures entered { IsEntered T.keeps mine.old.me.0 result mine.new.me.0 }
        ensures mine { IsSeat N.history mine.new.table_id mine.new.me }
    {
        let Core { pool, trail, seat } = self;
        let (puts, pages) = returned(pool, share, parcel, reserves);
        pool.law();
        given(trail, seat, history, mine, puts, pages)
    }

    /// Gives all that a share has back, with its minimum: the section, where there is one. Never refused.
    pub fn empty(
        &mut self,
        history: &History<N>,
        mine: &mut Token,
        share: &mut Subpool<N>,
        parcel: Parcel<N>,
    ) -> Option<Asked>
        requires pages { sum parcel ≡ share.old.pages }
        requires mine { IsFreeSeat N.history mine.old.table_id mine.old.me }
        ensures given { IsGiven parcel (committed_of share.old) self.old self.new result }
        ensures share { committed_of share.new ≡ 0 }
        ensures entered { IsEntered T.keeps mine.old.me.0 result mine.new.me.0 }
        ensures mine { IsSeat N.history mine.new.table_id mine.new.me }
    {
        let Core { pool, trail, seat } = self;
        let (puts, pages) = emptied(pool, share, parcel);
        pool.law();
        given(trail, seat, history, mine, puts, pages)
    }
}

// Notes what was given back, if that is anything.
fn given<N: Places, T: Trail<PoolEntry>>(
    trail: &mut T,
    seat: &mut Badge<View>,
    history: &History<N>,
    mine: &mut Token,
    puts: [u64; 4],
    pages: u64,
) -> Option<Asked>
    requires room { 0 < sum puts + pages
        → has_room true (T.left trail.old) (T.extra trail.old) ≡ true }
    requires pool { IsPoolSeat N.history seat.old.table_id seat.old.views (T.entries trail.old) }
    requires mine { IsFreeSeat N.history mine.old.table_id mine.old.me }
    ensures some { IfSome result (λ a. (a.section ≡ GiveBack puts pages) × (a.answer ≡ granted_at 0)
        × IsPlace (T.entries trail.old) a.place
        × (T.entries trail.new ≡ with_entry (T.entries trail.old) (OfSlot a.section a.answer))
        × (0 < sum puts + pages)
        × (T.left trail.new ≡ one_less (T.left trail.old))
        × (T.extra trail.new ≡ T.extra trail.old)
        × (seat.new.views ≡ (pool_next a (pool_in seat.old.views) ∷ []) ∷ [])) }
    ensures none { IfNone result ((trail.new ≡ trail.old) × (sum puts + pages ≡ 0)
        × (seat.new.views ≡ seat.old.views)) }
    ensures pool { seat.new.table_id ≡ N.history }
    ensures entered { IsEntered T.keeps mine.old.me.0 result mine.new.me.0 }
    ensures mine { IsSeat N.history mine.new.table_id mine.new.me }
{
    if puts[0] == 0 && puts[1] == 0 && puts[2] == 0 && puts[3] == 0 && pages == 0 {
        return None;
    }
    let section = Section::GiveBack { puts, pages };
    Some(note(trail, seat, history, mine, section, granted(0)))
}

// Gives pages and reservations back: the pages by node, and how far the commitment falls.
fn returned<N: Naming>(
    pool: &mut Pool<N>,
    share: &mut Subpool<N>,
    parcel: Parcel<N>,
    reserves: u64,
) -> ([u64; 4], u64)
    requires ready { IsReady pool.old }
    requires pages { sum parcel ≤ share.old.pages }
    requires held { reserves ≤ share.old.held }
    ensures puts { result.0 ≡ parcel }
    ensures fall { result.1 ≡ fall share.old (sum parcel + reserves) }
    ensures moved { pool.new ≡ trimmed (released (fall share.old (sum parcel + reserves))
        (puts_from 0 parcel pool.old)) }
    ensures same { sum parcel + fall share.old (sum parcel + reserves) ≡ 0 → pool.new ≡ pool.old }
    ensures share { share.new ≡ with_less (sum parcel) reserves share.old }
    ensures ready { IsReady pool.new }
    ensures less { 0 < sum parcel + fall share.old (sum parcel + reserves)
        → to_return pool.new < to_return pool.old }
{
    let before = committed(share);
    let puts = parcel.counts();
    parcel.put(pool, share);
    share.put_reserves(pool, reserves);
    pool.settle();
    (puts, before - committed(share))
}

// Empties a share: its pages by node, and its commitment.
fn emptied<N: Naming>(
    pool: &mut Pool<N>,
    share: &mut Subpool<N>,
    parcel: Parcel<N>,
) -> ([u64; 4], u64)
    requires ready { IsReady pool.old }
    requires pages { sum parcel ≡ share.old.pages }
    ensures puts { result.0 ≡ parcel }
    ensures fall { result.1 ≡ committed_of share.old }
    ensures share { committed_of share.new ≡ 0 }
    ensures moved { pool.new ≡ trimmed (released (committed_of share.old)
        (puts_from 0 parcel pool.old)) }
    ensures same { sum parcel + committed_of share.old ≡ 0 → pool.new ≡ pool.old }
    ensures ready { IsReady pool.new }
    ensures less { 0 < sum parcel + committed_of share.old
        → to_return pool.new < to_return pool.old }
{
    let all = committed(share);
    let mut last = share.take_all();
    let puts = parcel.counts();
    parcel.put(pool, &mut last);
    let held = last.used();
    last.put_reserves(pool, held);
    last.close(pool);
    pool.settle();
    (puts, all)
}
