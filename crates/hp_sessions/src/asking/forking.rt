//! Forks and exits: an event on each slot where the task has maps.
ghost use Rattle.std.specs.Prelude.{◌≡◌, ◌+◌, ◌*◌, ◌<◌, ◌≤◌, ◌==◌, [], Ok, Err, true, false, length, IfErr, OnOk};
ghost use Rattle.std.specs.List.{range_with_len, slice_index_or};
ghost use Rattle.hp_model.specs.declared.answer.Answer.TheVariants.{Done};
ghost use Rattle.hp_model.specs.declared.step.Step.TheVariants.{Exit, Fork};
ghost use Rattle.hp_model.specs.beside.Accesses.{done_reply};
ghost use Rattle.hp_model.specs.machine.Step.{Script, exit_slots, fork_slots, script, undone};
ghost use Rattle.hp_model.specs.Profile.{most_slots};
ghost use Rattle.hp_events.specs.Replies.{is_trace_full};
ghost use Rattle.hp_events.specs.Replies.{table_reply};
ghost use Rattle.hp_sessions.specs.Calls.{Carries, Grows, HasReceiptRoom, Leads};
ghost use Rattle.hp_sessions.specs.Forks.{marked_below};

use super::Asking;
use hp_events::{Parts, TableTold};
use hp_model::event::TableEvent;
use hp_model::profile::MOST_SLOTS;
use hp_model::refusal::Refusal;

impl<P: Parts> Asking<P> {
    // Ends a task, and then its maps go, slot after slot.
    pub(super) fn exit(&mut self, task: u64) -> Result<(), Refusal>
        requires { HasReceiptRoom P.keeps (self.old.slots + 1) self.old }
        ensures { Carries P.keeps P.page self.old (script self.old.slots (Exit task))
            (done_reply result) self.new }
    {
        if let TableTold::Refused(refusal) = self.make_table(TableEvent::Remove { task }) {
            return Err(refusal);
        }
        for at in 0..self.parts.count() {
            self.make_exit(at, task);
        }
        Ok(())
    }

    // Adds a child of a task, which gets its parent's maps, slot after slot. Where a slot refuses, the child goes again, with
    // its maps; but not where there was no place for an event.
    pub(super) fn fork(&mut self, parent: u64, child: u64) -> Result<(), Refusal>
        requires { HasReceiptRoom P.keeps (2 * self.old.slots + 1) self.old }
        ensures { Carries P.keeps P.page self.old (script self.old.slots (Fork parent child))
            (done_reply result) self.new }
    {
        let added = TableEvent::FindAndAdd { parent, child };
        if let TableTold::Refused(refusal) = self.make_table(added) {
            return Err(refusal);
        }
        self.fork_slots(parent, child)
    }

    // The parent's maps become the child's as well, slot after slot.
    fn fork_slots(&mut self, parent: u64, child: u64) -> Result<(), Refusal>
        requires places { HasReceiptRoom P.keeps (2 * self.old.slots) self.old }
        requires apart { (parent == child) ≡ false }
        ensures { Carries P.keeps P.page self.old
            (fork_slots (range_with_len 0 self.old.slots) [] parent child)
            (done_reply result) self.new }
    {
        let mut done = [false; MOST_SLOTS];
        for at in 0..self.parts.count() {
            match self.make_fork(at, parent, child) {
                Ok(forked) => done[at] = forked,
                Err(refusal) => {
                    if has_no_place(refusal) {
                        return Err(refusal);
                    }
                    return Err(self.undo(&done, at, child, refusal));
                }
            }
        }
        Ok(())
    }

    // The child's maps go again on those slots below `count` where they were made, and then the child.
    fn undo(
        &mut self,
        done: &[bool; MOST_SLOTS],
        count: usize,
        child: u64,
        refusal: Refusal,
    ) -> Refusal
        requires places { HasReceiptRoom P.keeps (count + 1) self.old }
        requires within { count ≤ self.old.slots }
        requires few { count ≤ most_slots }
        requires noted { is_trace_full (Err refusal) ≡ false }
        ensures { Carries P.keeps P.page self.old
            (undone (marked_below done.now count) child refusal) (Err result) self.new }
    {
        for at in 0..count {
            if is_done(done, at) {
                self.make_exit(at, child);
            }
        }
        let told = self.make_table(TableEvent::Remove { task: child });
        if is_full(told) {
            return Refusal::TraceFull;
        }
        refusal
    }
}

fn is_done(done: &[bool; MOST_SLOTS], at: usize) -> bool
    requires { at < most_slots }
    ensures { result ≡ slice_index_or done.now at false }
{
    done[at]
}

// Whether a trail had no place for an event.
fn has_no_place(refusal: Refusal) -> bool
    ensures { result ≡ is_trace_full (Err refusal) }
{
    matches!(refusal, Refusal::TraceFull)
}

// Whether the table's trail had none.
fn is_full(told: TableTold) -> bool
    ensures { result ≡ is_trace_full (table_reply told) }
{
    match told {
        TableTold::Refused(refusal) => has_no_place(refusal),
        TableTold::Done | TableTold::Home(_) => false,
    }
}
