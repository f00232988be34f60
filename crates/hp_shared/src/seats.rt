//! How a slot's seat joins a session's, and parts from it.
ghost use Rattle.std.specs.Prelude.{◌≡◌, ◌∷◌, [], true};
ghost use Rattle.hp_model.specs.declared.event.SlotEvent.TheVariants.{Ls};
ghost use Rattle.hp_model.specs.beside.Told.{told_reply};
ghost use Rattle.hp_history.specs.History.{IsSession, front_of};
ghost use Rattle.hp_history.specs.Sections.{IsFree, IsHeld, free_slot, session_view};
ghost use Rattle.hp_events.specs.Replies.{is_trace_full, names_reply};
ghost use Rattle.hp_shared.specs.Seated.{session_left, slot_left};

use crate::told::is_full;
use atomic_table::Badge;
use hp_events::LentEvent;
use hp_history::{History, Places, Token, View};
use hp_model::names::Names;
use hp_model::refusal::Refusal;
use hp_model::told::Told;
use std::marker::Brand;
use std::mem;

// The session's seat has the slot's part as well.
#[inline(always)]
pub(crate) fn join<N: Places>(history: &History<N>, slot: &mut Badge<View>, mine: &mut Token)
    requires slot { slot.old.table_id ≡ N.history }
    requires one { slot.old.views ≡ (free_slot (front_of slot.old.views) ∷ []) ∷ [] }
    requires named { mine.old.table_id ≡ N.history }
    requires session { IsSession mine.old.me.0 }
    requires alone { mine.old.me.1 ≡ [] }
    ensures named { mine.new.table_id ≡ N.history }
    ensures both { mine.new.me
        ≡ (free_slot (front_of slot.old.views) ∷ session_view mine.old.me.0 ∷ [], []) }
{
    history.take_in(mine, mem::replace(slot, Badge::blank()).into_seat());
}

// The slot's part goes back to a seat of its own, once this was answered so.
#[inline(always)]
pub(crate) fn leave<'a, N: Places>(
    history: &History<N>,
    mine: &mut Token,
    event: &LentEvent<'_>,
    told: &Result<Told<'a>, Refusal>,
) -> Badge<View>
    requires named { mine.old.table_id ≡ N.history }
    requires held { IsHeld mine.old.me.0 }
    requires alone { mine.old.me.1 ≡ [] }
    requires full { is_trace_full (told_reply told.now) ≡ true → IsFree mine.old.me.0 }
    ensures slot { result.table_id ≡ N.history }
    ensures trail { result.views
        ≡ (slot_left event.now (told_reply told.now) mine.old.me.0 ∷ []) ∷ [] }
    ensures named { mine.new.table_id ≡ N.history }
    ensures told { mine.new.me ≡ (
      session_left event.now (told_reply told.now)
          mine.old.me.0 ∷ [],
      [],
    ) }
{
    if is_full(told) {
        return history.give_away(mine).into_badge();
    }
    history.leave::<Brand, _>(mine, (event, told))
}

// The same, of a list of names.
pub(crate) fn leave_names<N: Places>(
    history: &History<N>,
    mine: &mut Token,
    names: &Result<Names, Refusal>,
) -> Badge<View>
    requires named { mine.old.table_id ≡ N.history }
    requires free { IsFree mine.old.me.0 }
    requires alone { mine.old.me.1 ≡ [] }
    ensures slot { result.table_id ≡ N.history }
    ensures trail { result.views
        ≡ (slot_left Ls (names_reply names.now) mine.old.me.0 ∷ []) ∷ [] }
    ensures named { mine.new.table_id ≡ N.history }
    ensures told { mine.new.me
        ≡ (session_left Ls (names_reply names.now) mine.old.me.0 ∷ [], []) }
{
    if matches!(names, Err(Refusal::TraceFull)) {
        return history.give_away(mine).into_badge();
    }
    history.leave::<Brand, _>(mine, names)
}
