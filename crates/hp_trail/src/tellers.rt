//! Which session tells of each event.
ghost use Rattle.std.specs.Prelude.{◌≡◌, ◌≢◌, ◌<◌, ◌+◌, [], true, false, length, IfOk, MatchOption};
ghost use Rattle.std.specs.List.{slice_get, slice_index_or, slice_set};
ghost use Rattle.std.specs.Option.{option_and_then, option_map};
ghost use Rattle.hp_model.specs.threads.Differ.{Differ, of_pool};
ghost use Rattle.hp_model.specs.threads.JointRun.{InTasks, InSlot, event_of};
ghost use Rattle.hp_trail.specs.Walk.{lists, trails_of};
ghost use Rattle.hp_trail.specs.Tellers.{Added, AddsEntry, AddsSlot, AreTold, Claims, ClaimsSection, Fit, Gap, IsNotFree, IsRefused, NoGap, RefusesEntry, RefusesSection, RefusesSlot, no_tellers, teller};

use crate::telling::{Told, is_section, tells_slot};
use crate::trails::Trails;
use hp_model::entry::{Asked, Part, PoolEntry, Receipt, SlotEntry, TableEntry};
use std::alloc::{AllocError, Global};
use std::marker::Model;

/// For each place of each trail the number of the session that tells of what stands there, plus 1,
/// or 0. For a section in the pool's trail it is the session that tells of the slot's event.
#[derive(Drop)]
pub(crate) struct Tellers {
    tasks: Vec<usize>,
    slots: Vec<Vec<usize>>,
    pool: Vec<usize>,
}

impl Model for Tellers {
    ghost use Rattle.hp_trail.specs.Tellers.{TellerRows};
    ghost use Rattle.hp_trail.specs.Walk.{lists};

    ghost Value = { TellerRows };

    ghost view = { λ w. record {
      tasks = w.tasks.items;
      slots = lists w.slots.items;
      pool = w.pool.items;
    } };
}

impl Tellers {
    /// No session tells of anything yet.
    fn none(
        alloc: Global,
        tasks: usize,
        slots: &[Vec<SlotEntry>],
        pool: usize,
    ) -> Result<Tellers, AllocError>
        ensures { IfOk result (λ w. w ≡ no_tellers tasks (lists slots.now) pool) }
    {
        let mut rows = Vec::new(alloc);
        for trail in slots {
            rows.push(vec![in alloc; 0usize; trail.len()]?)?;
        }
        Ok(Tellers {
            tasks: vec![in alloc; 0usize; tasks]?,
            slots: rows,
            pool: vec![in alloc; 0usize; pool]?,
        })
    }

    /// The tellers of trails and receipts that fit each other but for their order: each receipt
    /// tells of an event, each event has one receipt, and each section in the pool's trail is that
    /// of one slot's entry. None where they differ.
    pub(crate) fn list(
        alloc: Global,
        trails: Trails<'_>,
        receipts: &[Vec<Receipt>],
    ) -> Result<Option<Tellers>, AllocError>
        ensures { let at = trails.entry in
            let run = trails_of at.tasks.now at.slots.now at.pool.now in
            let told = lists receipts.now in
            IfOk result (λ r. MatchOption r (Differ run told) (λ w. AreTold run told w)) }
    {
        let mut tellers = Tellers::none(
            alloc,
            trails.tasks.len(),
            trails.slots,
            trails.pool.len(),
        )?;
        for (session, told) in receipts.iter().enumerate() {
            for receipt in told {
                if !tellers.add(trails, receipt, session) {
                    return Ok(None);
                }
            }
        }
        if tellers.has_gap() {
            return Ok(None);
        }
        Ok(Some(tellers))
    }

    /// Notes that the session tells of the receipt's event, and of its section. Refused where the
    /// receipt does not tell what stands at its place, where the section is not in the pool's
    /// trail, and where a session is noted there already.
    fn add(&mut self, trails: Trails<'_>, receipt: &Receipt, session: usize) -> bool
        requires fit { Fit (trails_of trails.tasks.now trails.slots.now trails.pool.now) self.old }
        requires session { session < usize.MAX }
        ensures added { let at = trails.entry in
            let run = trails_of at.tasks.now at.slots.now at.pool.now in
            result ≡ true → Added run receipt.now session self.old self.new }
        ensures refused { let at = trails.entry in
            let run = trails_of at.tasks.now at.slots.now at.pool.now in
            result ≡ false → IsRefused run receipt.now self.old }
    {
        let Trails { tasks, slots, pool } = trails;
        match receipt.part {
            Part::Tasks => add_entry(&mut self.tasks, tasks, receipt, session),
            Part::Slot(slot) => add_slot(
                &mut self.slots,
                &mut self.pool,
                slots,
                pool,
                slot,
                receipt,
                session,
            ),
            Part::Pool => add_entry(&mut self.pool, pool, receipt, session),
        }
    }

    /// The session that tells of what stands at this place of the part's trail.
    pub(crate) fn of(&self, part: Part, place: usize) -> Option<usize>
        ensures { let told = teller self.now part place in
            MatchOption result (told ≡ 0) (λ s. told ≡ s + 1) }
    {
        let row = match part {
            Part::Tasks => &self.tasks,
            Part::Slot(slot) => self.slots.get(slot as usize)?,
            Part::Pool => &self.pool,
        };
        row.get(place)?.checked_sub(1)
    }

    /// Whether no session tells of some place.
    fn has_gap(&self) -> bool
        ensures gap { result ≡ true → Gap self.now }
        ensures none { result ≡ false → NoGap self.now }
    {
        if self.tasks.contains(&0) {
            return true;
        }
        for row in &self.slots {
            if row.contains(&0) {
                return true;
            }
        }
        self.pool.contains(&0)
    }
}

fn add_entry<E: Told>(row: &mut Vec<usize>, trail: &[E], receipt: &Receipt, session: usize) -> bool
    requires row { length row.old.items ≡ length trail.now }
    requires session { session < usize.MAX }
    ensures added { let new = row.new.items in
        result ≡ true → AddsEntry E.entry trail.now row.old.items receipt.now session new }
    ensures refused { result ≡ false → RefusesEntry E.entry trail.now row.old.items receipt.now }
{
    let place = receipt.place as usize;
    let Some(entry) = trail.get(place) else {
        return false;
    };
    entry.is_told(receipt) && claim(row, place, session)
}

fn add_slot(
    rows: &mut Vec<Vec<usize>>,
    pool_row: &mut Vec<usize>,
    slots: &[Vec<SlotEntry>],
    pool: &[PoolEntry],
    slot: u64,
    receipt: &Receipt,
    session: usize,
) -> bool
    requires count { length rows.old.items ≡ length slots.now }
    requires rows { length (slice_index_or (lists rows.old.items) slot [])
        ≡ length (slice_index_or (lists slots.now) slot []) }
    requires pool { length pool_row.old.items ≡ length pool.now }
    requires session { session < usize.MAX }
    ensures added { let old = lists rows.old.items in
        let new = lists rows.new.items in
        result ≡ true
        → AddsSlot (lists slots.now) pool.now old pool_row.old.items slot receipt.now session new
        pool_row.new.items }
    ensures refused { let old = lists rows.old.items in
        result ≡ false
        → RefusesSlot (lists slots.now) pool.now old pool_row.old.items slot receipt.now }
{
    let place = receipt.place as usize;
    let Some(trail) = slots.get(slot as usize) else {
        return false;
    };
    let Some(entry) = trail.get(place) else {
        return false;
    };
    if !tells_slot(receipt, entry, slot) {
        return false;
    }
    if !claim(&mut rows[slot as usize], place, session) {
        return false;
    }
    claim_section(pool_row, pool, entry.asked, session)
}

/// Notes the session at a place where none was.
fn claim(row: &mut Vec<usize>, place: usize, session: usize) -> bool
    requires place { place < length row.old.items }
    requires session { session < usize.MAX }
    ensures claims { result ≡ true → Claims row.old.items place session row.new.items }
    ensures taken { result ≡ false → slice_index_or row.old.items place 0 ≢ 0 }
    ensures stays { result ≡ false → row.new.items ≡ row.old.items }
{
    if row[place] != 0 {
        return false;
    }
    row[place] = session + 1;
    true
}

/// Notes the session at the place of a section, where the pool's trail has it.
fn claim_section(
    row: &mut Vec<usize>,
    pool: &[PoolEntry],
    asked: Option<Asked>,
    session: usize,
) -> bool
    requires row { length row.old.items ≡ length pool.now }
    requires session { session < usize.MAX }
    ensures claims { let new = row.new.items in
        result ≡ true → ClaimsSection pool.now row.old.items asked session new }
    ensures refused { result ≡ false → RefusesSection pool.now row.old.items asked }
{
    let Some(asked) = asked else {
        return true;
    };
    let place = asked.place as usize;
    let Some(entry) = pool.get(place) else {
        return false;
    };
    is_section(entry, asked) && claim(row, place, session)
}
