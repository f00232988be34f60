//! Walking through trails and receipts, one event at a time.
ghost use Rattle.std.specs.Prelude.{◌≡◌, ◌<◌, true, false, length, IfOk, MatchOption};
ghost use Rattle.hp_trail.specs.Tellers.{AreRight, HaveSections};
ghost use Rattle.hp_trail.specs.Walk.{ComesNext, HasReceiptsLeft, HaveEnded, IsLater, IsNext, Passed, SectionStands, at_start, cursor, lists, next_section, part_length, past, past_section, trails_of};

use crate::trails::Trails;
use hp_model::entry::{Asked, Part, PoolEntry, Receipt, SlotEntry, TableEntry};
use std::alloc::{AllocError, Global};
use std::marker::Model;

/// Trails and receipts, and how far each trail and each session's receipts were passed.
#[derive(Drop)]
pub(crate) struct Walk<'a> {
    tasks: &'a [TableEntry],
    slots: &'a [Vec<SlotEntry>],
    pool: &'a [PoolEntry],
    receipts: &'a [Vec<Receipt>],
    task_cursor: usize,
    slot_cursors: Vec<usize>,
    pool_cursor: usize,
    session_cursors: Vec<usize>,
}

impl<'a> Model for Walk<'a> {
    ghost use Rattle.std.specs.Prelude.{◌≡◌, length};
    ghost use Rattle.hp_trail.specs.Walk.{Walking, lists, trails_of};

    ghost Value = { Walking };

    ghost view = { λ w. record {
      trails = trails_of w.tasks.now w.slots.now w.pool.now;
      receipts = lists w.receipts.now;
      cursors = record {
        tasks = w.task_cursor;
        slots = w.slot_cursors.items;
        pool = w.pool_cursor;
        sessions = w.session_cursors.items;
      };
    } };

    ghost invariant = { λ w.
        (length w.slot_cursors.items ≡ length w.slots.now)
        × (length w.session_cursors.items ≡ length w.receipts.now) };
}

impl<'a> Walk<'a> {
    /// At the start of all.
    pub(crate) fn open(
        alloc: Global,
        trails: Trails<'a>,
        receipts: &'a [Vec<Receipt>],
    ) -> Result<Walk<'a>, AllocError>
        ensures { let at = trails.entry in
            let run = trails_of at.tasks.now at.slots.now at.pool.now in
            IfOk result (λ w. w ≡ record {
              trails = run;
              receipts = lists receipts.now;
              cursors = at_start (length at.slots.now) (length receipts.now);
            }) }
    {
        let Trails { tasks, slots, pool } = trails;
        let slot_cursors = vec![in alloc; 0usize; slots.len()]?;
        let session_cursors = vec![in alloc; 0usize; receipts.len()]?;
        Ok(Walk {
            tasks,
            slots,
            pool,
            receipts,
            task_cursor: 0,
            slot_cursors,
            pool_cursor: 0,
            session_cursors,
        })
    }

    /// The place that comes next in the part's trail.
    pub(crate) fn cursor(&self, part: Part) -> usize
        ensures { result ≡ cursor self.now.cursors part }
    {
        match part {
            Part::Tasks => self.task_cursor,
            Part::Slot(slot) => *self.slot_cursors.get(slot as usize).unwrap_or(&0),
            Part::Pool => self.pool_cursor,
        }
    }

    /// The part and the place that the session's next receipt tells of, if it has one left.
    fn next(&self, session: usize) -> Option<(Part, u64)>
        ensures { IsNext self.now session result }
    {
        let cursor = *self.session_cursors.get(session)?;
        let receipt = self.receipts.get(session)?.get(cursor)?;
        Some((receipt.part, receipt.place))
    }

    /// The section of the entry that comes next in the part's trail, if it has one.
    fn section(&self, part: Part) -> Option<Asked>
        ensures { result ≡ next_section self.now.trails self.now.cursors part }
    {
        match part {
            Part::Slot(slot) => {
                let cursor = *self.slot_cursors.get(slot as usize)?;
                self.slots.get(slot as usize)?.get(cursor)?.asked
            }
            _ => None,
        }
    }

    /// Passes that section in the pool's trail, if there is one. False where it does not come next
    /// there, and nothing has changed.
    fn pass_section(&mut self, part: Part) -> bool
        requires { let section = next_section self.old.trails self.old.cursors part in
            SectionStands self.old.trails section }
        ensures next { let section = next_section self.old.trails self.old.cursors part in
            result ≡ true → ComesNext self.old.cursors section }
        ensures passed { let section = next_section self.old.trails self.old.cursors part in
            let cursors = past_section section self.old.cursors in
            result ≡ true → self.new ≡ record self.old { cursors = cursors } }
        ensures waits { let section = next_section self.old.trails self.old.cursors part in
            result ≡ false → IsLater self.old.cursors section }
        ensures stays { result ≡ false → self.new ≡ self.old }
    {
        let Some(asked) = self.section(part) else {
            return true;
        };
        if asked.place != self.pool_cursor as u64 {
            return false;
        }
        self.advance(Part::Pool);
        true
    }

    /// Passes what comes next in the part's trail.
    fn advance(&mut self, part: Part)
        requires { cursor self.old.cursors part < part_length self.old.trails part }
        ensures { self.new ≡ record self.old { cursors = past part self.old.cursors } }
    {
        match part {
            Part::Tasks => self.task_cursor += 1,
            Part::Slot(slot) => self.slot_cursors[slot as usize] += 1,
            Part::Pool => self.pool_cursor += 1,
        }
    }

    /// Passes the session's next receipt with the event that it tells of, where this comes next in
    /// its trail and its section next in the pool's. Answers the event's part; None where the
    /// session has to wait or has come to its end, and nothing has changed.
    pub(crate) fn pass(&mut self, session: usize) -> Option<Part>
        requires right { AreRight self.old.trails self.old.receipts }
        requires sections { HaveSections self.old.trails self.old.receipts }
        ensures { Passed self.old session result self.new }
    {
        let (part, place) = self.next(session)?;
        if place != self.cursor(part) as u64 {
            return None;
        }
        if !self.pass_section(part) {
            return None;
        }
        self.advance(part);
        self.session_cursors[session] += 1;
        Some(part)
    }

    /// Whether all receipts were passed.
    pub(crate) fn has_ended(&self) -> bool
        ensures ended { result ≡ true → HaveEnded self.now.receipts self.now.cursors }
        ensures left { result ≡ false → HasReceiptsLeft self.now.receipts self.now.cursors }
    {
        for (session, told) in self.receipts.iter().enumerate() {
            if self.session_cursors[session] < told.len() {
                return false;
            }
        }
        true
    }
}
