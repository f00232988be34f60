//! Events of a session.
ghost use Rattle.std.specs.Prelude.{◌≡◌, ◌<◌, ◌==◌, Err, ℕ, true, false, length, IfOk, IfErr};
ghost use Rattle.std.specs.Bool.{MatchBool};
ghost use Rattle.hp_model.specs.declared.event.Event.TheVariants.{Tasks as OnTasks, Slot as OnSlot, Pool as OnPool};
ghost use Rattle.hp_model.specs.declared.event.SlotEvent.TheVariants.{ForkMaps, Ls};
ghost use Rattle.hp_model.specs.machine.Step.{Script, exit_slot, finding, on_slot};
ghost use Rattle.hp_model.specs.beside.Told.{told_answer, told_reply};
ghost use Rattle.hp_model.specs.text.Writing.{IsWithinLimits};
ghost use Rattle.hp_events.specs.Copies.{AreCopiesFor};
ghost use Rattle.hp_events.specs.Replies.{table_reply};
ghost use Rattle.hp_sessions.specs.Calls.{Carries, Grows, HasReceiptRoom, IsMade, Leads};
ghost use Rattle.hp_sessions.specs.Forks.{IsForked};
ghost use Rattle.hp_sessions.specs.Works.{IsPlain};
ghost use Rattle.hp_events.specs.Fitting.{HasAnswerOf};

use super::Asking;
use hp_events::copies::Copies;
use hp_events::{LentEvent, Parts, TableTold};
use hp_model::event::{PoolEvent, TableEvent};
use hp_model::refusal::Refusal;
use hp_model::told::Told;

impl<P: Parts> Asking<P> {
    // An event of the task table.
    #[inline(always)]
    pub(super) fn make_table(&mut self, event: TableEvent) -> TableTold
        requires { HasReceiptRoom P.keeps 1 self.old }
        ensures made { IsMade P.keeps P.page self.old (OnTasks event) (table_reply result)
            self.new }
        ensures grows { Grows 1 self.old self.new }
    {
        self.parts.table(event)
    }

    // An event of the pool alone.
    #[inline(always)]
    pub(super) fn make_pool(&mut self, event: PoolEvent) -> Result<Told<'static>, Refusal>
        requires { HasReceiptRoom P.keeps 1 self.old }
        ensures made { IsMade P.keeps P.page self.old (OnPool event) (told_reply result)
            self.new }
        ensures limits { IsWithinLimits (told_reply result) }
    {
        self.parts.pool(event)
    }

    // The home of a task; or why it isn't there, which is then the step's reply.
    #[inline(always)]
    pub(super) fn find(&mut self, task: u64) -> Result<u64, Refusal>
        requires { HasReceiptRoom P.keeps 1 self.old }
        ensures found { IfOk result (λ home. (f : ℕ → Script) →
            Leads P.keeps P.page self.old (finding task f) self.new (f home)) }
        ensures refused { IfErr result (λ refusal. (f : ℕ → Script) →
            Carries P.keeps P.page self.old (finding task f) (Err refusal) self.new) }
        ensures grows { Grows 1 self.old self.new }
    {
        match self.parts.table(TableEvent::Find { task }) {
            TableTold::Home(home) => Ok(home),
            TableTold::Refused(refusal) => Err(refusal),
            TableTold::Done => unreachable!(),
        }
    }

    // What is asked of a slot, if there is one of that number.
    #[inline(always)]
    pub(super) fn make_slot<'b>(
        &mut self,
        slot: u64,
        event: LentEvent<'_>,
        copies: Option<Copies>,
        room: &'b mut [u8],
    ) -> Result<Told<'b>, Refusal>
        requires places { HasReceiptRoom P.keeps 1 self.old }
        requires plain { IsPlain event (length room.old) }
        requires copies { P.keeps ≡ true → AreCopiesFor event copies }
        ensures carried { Carries P.keeps P.page self.old
            (on_slot self.old.slots slot event.entry)
            (told_reply result) self.new }
        ensures limits { IsWithinLimits (told_reply result) }
        ensures answer { IfOk result (λ told.
            HasAnswerOf event.entry (told_answer told)) }
    {
        let at = slot as usize;
        if at >= self.parts.count() {
            return Err(Refusal::NoSuchSlot);
        }
        self.parts.slot(at, event, copies, room)
    }

    // The names of a slot's files.
    pub(super) fn make_names(&mut self, slot: u64) -> Result<Told<'static>, Refusal>
        requires { HasReceiptRoom P.keeps 1 self.old }
        ensures carried { Carries P.keeps P.page self.old (on_slot self.old.slots slot Ls)
            (told_reply result) self.new }
        ensures limits { IsWithinLimits (told_reply result) }
    {
        let at = slot as usize;
        if at >= self.parts.count() {
            return Err(Refusal::NoSuchSlot);
        }
        match self.parts.names(at) {
            Ok(names) => Ok(Told::Names(names)),
            Err(refusal) => Err(refusal),
        }
    }

    // Gives a child the maps that its parent has on a slot: whether it has any there.
    pub(super) fn make_fork(&mut self, at: usize, parent: u64, child: u64) -> Result<bool, Refusal>
        requires places { HasReceiptRoom P.keeps 1 self.old }
        requires within { at < self.old.slots }
        requires apart { (parent == child) ≡ false }
        ensures made { IfOk result (λ forked. MatchBool forked
            (IsForked P.keeps P.page at parent child self.old self.new)
            (self.new ≡ self.old)) }
        ensures refused { IfErr result (λ refusal.
            IsMade P.keeps P.page self.old (OnSlot at (ForkMaps parent child))
            (Err refusal) self.new) }
        ensures grows { Grows 1 self.old self.new }
    {
        match self.parts.fork_maps(at, parent, child) {
            Some(Ok(())) => Ok(true),
            Some(Err(refusal)) => Err(refusal),
            None => Ok(false),
        }
    }

    // The maps that a task has on a slot go.
    pub(super) fn make_exit(&mut self, at: usize, task: u64)
        requires places { HasReceiptRoom P.keeps 1 self.old }
        requires within { at < self.old.slots }
        ensures leads { (next : Script) → Leads P.keeps P.page self.old
            (exit_slot at task next) self.new next }
        ensures grows { Grows 1 self.old self.new }
    {
        let _any = self.parts.exit_maps(at, task);
    }
}
