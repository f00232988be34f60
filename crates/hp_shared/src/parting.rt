//! The parts of a machine once no thread has them.
ghost use Rattle.std.specs.Prelude.{◌≡◌, ◌≤◌, ◌==◌, [], true, length, vec_len, vec_capacity};
ghost use Rattle.hp_model.specs.Profile.{most_slots};
ghost use Rattle.hp_shared.specs.Ended.{AreSlotsJoined};
ghost use Rattle.hp_trail.specs.Walk.{lists};

use crate::seated_slot::SeatedSlot;
use hp_history::{History, Places, Token};
use hp_model::entry::SlotEntry;
use hp_model::naming::Naming;
use hp_mount::Mount;
use hp_order::LineLock;
use hp_trail::trace::Trace;

// Takes the slots from under their locks: their mounts and their trails, for which there is room, and their seats behind this
// one. Whether each has its place as its number, and the seat that has all.
pub(crate) fn take_slots<N: Naming + Places, const K: usize>(
    history: &History<N>,
    seat: Token,
    slots: Vec<LineLock<SeatedSlot<N, Trace<SlotEntry, K>>>>,
    mounts: &mut Vec<Option<Mount<N>>>,
    trails: &mut Vec<Vec<SlotEntry>>,
) -> (bool, Token)
    requires named { seat.table_id ≡ N.history }
    requires alone { seat.me.1 ≡ [] }
    requires few { vec_len slots ≤ most_slots }
    requires mounts_fit { most_slots ≤ vec_capacity mounts.old }
    requires trails_fit { most_slots ≤ vec_capacity trails.old }
    requires no_mounts { mounts.old.items ≡ [] }
    requires no_trails { trails.old.items ≡ [] }
    ensures count { length mounts.new.items ≡ vec_len slots }
    ensures named { result.1.table_id ≡ N.history }
    ensures alone { result.1.me.1 ≡ [] }
    ensures joined { result.0 ≡ true → AreSlotsJoined (K == 1) N.page_bytes
        (lists trails.new.items) mounts.new.items seat.me.0 result.1.me.0 }
{
    let mut in_order = true;
    let mut seat = seat;
    let mut rest = slots.into_iter();
    while let Some(slot) = rest.next() {
        let (number, mount, trail, mut all) = slot.into_inner().into_parts();
        in_order = in_order && number == mounts.len() as u64;
        mounts.push_reserved(mount);
        trails.push_reserved(trail.into_entries());
        history.take_in(&mut all, seat);
        seat = all;
    }
    rest.destroy_empty();
    (in_order, seat)
}
