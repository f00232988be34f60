//! Entries of the pool's trail.
ghost use Rattle.std.specs.Prelude.{◌≡◌, ◌∷◌, [], length, true, Some};
ghost use Rattle.hp_history.specs.History.{IsSession};
ghost use Rattle.hp_history.specs.Sections.{IsEntered, IsFreeSeat, IsSeat, pool_in, pool_next, pool_receipt, pool_with};
ghost use Rattle.hp_model.specs.declared.entry.PoolEntry.TheVariants.{OfPool, OfSlot};
ghost use Rattle.hp_trail.specs.Keeping.{has_room, one_less, with_entry};
ghost use Rattle.hp_locked.specs.Told.{pool_reply};
ghost use Rattle.hp_locked.specs.Views.{IsPlace, IsPoolSeat, IsToldMore};

use crate::pool_told::PoolTold;
use atomic_table::Badge;
use hp_history::{History, Places, Token, View};
use hp_model::entry::{Asked, PoolEntry};
use hp_model::event::PoolEvent;
use hp_model::section::{PoolAnswer, Section};
use hp_trail::trail::Trail;
use std::marker::Brand;

// Notes a section with the pool's answer, and tells where. In the history the event of the slot that entered it stands there.
#[inline(always)]
pub(crate) fn note<N: Places, T: Trail<PoolEntry>>(
    trail: &mut T,
    seat: &mut Badge<View>,
    history: &History<N>,
    mine: &mut Token,
    section: Section,
    answer: PoolAnswer,
) -> Asked
    requires room { has_room true (T.left trail.old) (T.extra trail.old) ≡ true }
    requires pool { IsPoolSeat N.history seat.old.table_id seat.old.views (T.entries trail.old) }
    requires mine { IsFreeSeat N.history mine.old.table_id mine.old.me }
    ensures entries { T.entries trail.new
        ≡ with_entry (T.entries trail.old) (OfSlot section answer) }
    ensures left { T.left trail.new ≡ one_less (T.left trail.old) }
    ensures extra { T.extra trail.new ≡ T.extra trail.old }
    ensures place { IsPlace (T.entries trail.old) result.place }
    ensures section { result.section ≡ section }
    ensures answer { result.answer ≡ answer }
    ensures pool { seat.new.table_id ≡ N.history }
    ensures run { seat.new.views ≡ (pool_next result (pool_in seat.old.views) ∷ []) ∷ [] }
    ensures mine { IsSeat N.history mine.new.table_id mine.new.me }
    ensures entered { IsEntered T.keeps mine.old.me.0 (Some result) mine.new.me.0 }
{
    let place = trail.place();
    trail.push(PoolEntry::OfSlot { section, answer });
    let asked = Asked {
        place,
        section,
        answer,
    };
    history.enter(seat, mine, asked);
    asked
}

// Notes an event of the pool with its answer, and tells where. The history has both.
#[inline(always)]
pub(crate) fn note_event<N: Places, T: Trail<PoolEntry>>(
    trail: &mut T,
    seat: &mut Badge<View>,
    history: &History<N>,
    mine: &mut Token,
    event: PoolEvent,
    told: PoolTold,
) -> u64
    requires room { has_room true (T.left trail.old) (T.extra trail.old) ≡ true }
    requires pool { IsPoolSeat N.history seat.old.table_id seat.old.views (T.entries trail.old) }
    requires mine { IsSeat N.history mine.old.table_id mine.old.me }
    requires session { IsSession mine.old.me.0 }
    ensures entries { T.entries trail.new ≡ with_entry (T.entries trail.old)
        (OfPool event (pool_reply told)) }
    ensures left { T.left trail.new ≡ one_less (T.left trail.old) }
    ensures extra { T.extra trail.new ≡ T.extra trail.old }
    ensures place { T.keeps ≡ true → result ≡ length (pool_in seat.old.views) }
    ensures pool { seat.new.table_id ≡ N.history }
    ensures run { seat.new.views
        ≡ (pool_with event (pool_reply told) (pool_in seat.old.views) ∷ []) ∷ [] }
    ensures mine { IsToldMore N.history mine.new.table_id mine.new.me mine.old.me.0
        (pool_receipt event (pool_reply told) (length (pool_in seat.old.views))) }
{
    let place = trail.place();
    trail.push(PoolEntry::OfPool {
        event,
        reply: told.reply(),
    });
    history.answer_pool::<Brand, _>(seat, mine, (event, told));
    place
}
