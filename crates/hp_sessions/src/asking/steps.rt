//! Steps, by what they ask of which part.
ghost use Rattle.std.specs.Prelude.{◌≡◌, ◌+◌, ◌<◌, ◌≤◌, ◌==◌, Err, true, false, length, IfOk, OnErr};
ghost use Rattle.std.specs.Bool.{MatchBool};
ghost use Rattle.hp_laws.specs.Answers.{lists_names};
ghost use Rattle.hp_model.specs.declared.answer.Answer.TheVariants.{Done};
ghost use Rattle.hp_model.specs.beside.Accesses.{bytes_reply, done_reply, fault_step, load_step, store_step};
ghost use Rattle.hp_model.specs.beside.Told.{told_answer, told_reply};
ghost use Rattle.hp_model.specs.text.Writing.{IsWithinLimits};
ghost use Rattle.hp_model.specs.Profile.{most_bytes};
ghost use Rattle.hp_events.specs.Copies.{AreCopiesFor};
ghost use Rattle.hp_events.specs.Event.{is_of_maps, is_of_mount, shows_bytes};
ghost use Rattle.hp_model.specs.beside.Copying.{has_bytes};
ghost use Rattle.hp_events.specs.Replies.{table_reply};
ghost use Rattle.hp_events.specs.declared.work.Work.TheVariants.{Attach as AttachATask, OfTask as OfATask, OnSlot as OnASlot, Pool as ThePool};
ghost use Rattle.hp_model.specs.declared.event.SlotEvent.TheVariants.{Stat as StatFile};
ghost use Rattle.hp_sessions.specs.Calls.{HasReceiptRoom, IsCallMade};
ghost use Rattle.hp_events.specs.Works.{IsPlainWork};
ghost use Rattle.hp_events.specs.Fitting.{HasAnswerOf};
ghost use Rattle.hp_sessions.specs.Works.{IsAsked, IsPlain, IsWorked};

use super::Asking;
use hp_events::copies::{Copies, copies};
use hp_events::{LentEvent, Parts, TableTold, Work, into_done, most_receipts, set_home, work_of};
use hp_model::event::{PoolEvent, SlotEvent, TableEvent};
use hp_model::lent::Lent;
use hp_model::refusal::Refusal;
use hp_model::service::Access;
use hp_model::step::{Intent, Step};
use hp_model::told::Told;
use std::alloc::AllocError;

impl<P: Parts> Asking<P> {
    /// Answers a step as `do_step` does, into the reply. (A reply handed back by value costs more than a load.)
    #[inline(always)]
    pub fn do_step_into<'b>(
        &mut self,
        step: &Step<'_>,
        room: &'b mut [u8],
        reply: &mut Result<Told<'b>, Refusal>,
    )
        requires { most_bytes ≤ length room.old }
        ensures answered { IsCallMade P.keeps P.page self.old step.now
            (told_reply reply.new)
            self.new }
        ensures limits { IsWithinLimits (told_reply reply.new) }
    {
        match step {
            Step::Attach { task } => {
                *reply = self.attach(*task);
            }
            Step::Meminfo => {
                *reply = self.of_pool(PoolEvent::Meminfo);
            }
            Step::Fault {
                task,
                slot,
                map,
                index,
                intent,
            } => {
                let access = Access {
                    task: *task,
                    slot: *slot,
                    map: *map,
                    index: *index,
                    offset: 0,
                };
                *reply = Told::done(self.fault(&access, *intent));
            }
            Step::Stat { slot, name } => {
                *reply = self.stat(*slot, name.as_slice(), room);
            }
            _ => {
                *reply = self.do_step(step, room);
            }
        }
    }

    /// Answers a step, or leaves everything as it was and says why. Bytes are in the front of the room.
    #[inline(never)]
    pub fn do_step<'b>(&mut self, step: &Step<'_>, room: &'b mut [u8]) -> Result<Told<'b>, Refusal>
        requires { most_bytes ≤ length room.old }
        ensures answered { IsCallMade P.keeps P.page self.old step.now
            (told_reply result)
            self.new }
        ensures limits { IsWithinLimits (told_reply result) }
    {
        self.do_work(work_of(step), room)
    }

    /// Does the step of a fault.
    pub fn fault(&mut self, access: &Access, intent: Intent) -> Result<(), Refusal>
        ensures { IsCallMade P.keeps P.page self.old (fault_step access.now intent)
            (done_reply result) self.new }
    {
        let event = SlotEvent::Fault {
            task: access.task,
            home: 0,
            map: access.map,
            index: access.index,
            intent,
        };
        let ended = self.of_task(access.task, access.slot, event, &mut []);
        into_done(ended)
    }

    // What a step asks of which part.
    #[tactic(auto, using(crate::proofs::Carrying::only_made))]
    #[inline(never)]
    fn do_work<'b>(&mut self, work: Work<'_>, room: &'b mut [u8]) -> Result<Told<'b>, Refusal>
        requires room { most_bytes ≤ length room.old }
        requires apart { IsPlainWork work }
        ensures worked { IsWorked P.keeps P.page self.old work.entry (told_reply result)
            self.new }
        ensures limits { IsWithinLimits (told_reply result) }
    {
        if self.lacks(most_receipts(self.parts.count(), &work)) {
            return Err(Refusal::TraceFull);
        }
        match work {
            Work::Connect { task, home } => {
                table_told(self.make_table(TableEvent::Add { task, home }))
            }
            Work::Attach { task } => self.attach(task),
            Work::Pool(event) => self.make_pool(event),
            Work::Fork { parent, child } => Told::done(self.fork(parent, child)),
            Work::Exit { task } => Told::done(self.exit(task)),
            Work::Ls { slot } => self.make_names(slot),
            Work::OnSlot { slot, event } => self.on_slot(slot, event, room),
            Work::OfTask { task, slot, event } => self.of_task(task, slot, event, room),
        }
    }

    // Looks a task up.
    #[inline(always)]
    fn attach(&mut self, task: u64) -> Result<Told<'static>, Refusal>
        ensures worked { IsWorked P.keeps P.page self.old (AttachATask task)
            (told_reply result) self.new }
        ensures limits { IsWithinLimits (told_reply result) }
    {
        if self.lacks(1) {
            return Err(Refusal::TraceFull);
        }
        table_told(self.make_table(TableEvent::Find { task }))
    }

    // An event of the pool alone.
    #[inline(never)]
    fn of_pool(&mut self, event: PoolEvent) -> Result<Told<'static>, Refusal>
        ensures worked { IsWorked P.keeps P.page self.old (ThePool event) (told_reply result)
            self.new }
        ensures limits { IsWithinLimits (told_reply result) }
    {
        if self.lacks(1) {
            return Err(Refusal::TraceFull);
        }
        self.make_pool(event)
    }

    // The size of a file and its pages.
    #[inline(always)]
    fn stat<'b>(&mut self, slot: u64, name: &[u8], room: &'b mut [u8]) -> Result<Told<'b>, Refusal>
        ensures worked { IsWorked P.keeps P.page self.old (OnASlot slot (StatFile name.now))
            (told_reply result) self.new }
        ensures limits { IsWithinLimits (told_reply result) }
    {
        if self.lacks(1) {
            return Err(Refusal::TraceFull);
        }
        let event = SlotEvent::Stat {
            name: Lent::new(name),
        };
        self.on_slot(slot, event, room)
    }

    // What is asked of a slot without a task being looked up.
    #[inline(always)]
    fn on_slot<'b>(
        &mut self,
        slot: u64,
        event: LentEvent<'_>,
        room: &'b mut [u8],
    ) -> Result<Told<'b>, Refusal>
        requires places { HasReceiptRoom P.keeps 1 self.old }
        requires plain { IsPlain event (length room.old) }
        ensures asked { IsAsked P.keeps P.page self.old slot event.entry (told_reply result)
            self.new }
        ensures limits { IsWithinLimits (told_reply result) }
    {
        match self.copies(&event) {
            Ok(copies) => self.make_slot(slot, event, copies, room),
            Err(AllocError) => Err(Refusal::OutOfMemory),
        }
    }

    // An event of a mount, for a task that is looked up first.
    #[inline(always)]
    pub(super) fn of_task<'b>(
        &mut self,
        task: u64,
        slot: u64,
        event: LentEvent<'_>,
        room: &'b mut [u8],
    ) -> Result<Told<'b>, Refusal>
        requires plain { IsPlain event (length room.old) }
        ensures worked { IsWorked P.keeps P.page self.old (OfATask task slot event.entry)
            (told_reply result) self.new }
        ensures limits { IsWithinLimits (told_reply result) }
        ensures answer { IfOk result (λ told.
            HasAnswerOf event.entry (told_answer told)) }
    {
        if self.lacks(2) {
            return Err(Refusal::TraceFull);
        }
        let mut event = event;
        let Ok(copies) = self.copies(&event) else {
            return Err(Refusal::OutOfMemory);
        };
        match self.find(task) {
            Ok(home) => {
                set_home(&mut event, home);
                self.make_slot(slot, event, copies, room)
            }
            Err(refusal) => Err(refusal),
        }
    }

    // Whether there is no room for so many receipts, where they are kept.
    #[inline(always)]
    fn lacks(&self, receipts: usize) -> bool
        ensures { MatchBool result
            ((P.keeps ≡ true) × (self.now.room < length self.now.receipts + receipts))
            (HasReceiptRoom P.keeps receipts self.now) }
    {
        self.parts.is_kept() && self.parts.left() < receipts
    }

    // Copies of what is carried, where entries are kept.
    #[inline(always)]
    fn copies(&self, event: &LentEvent<'_>) -> Result<Option<Copies>, AllocError>
        ensures copies { IfOk result (λ c. P.keeps ≡ true → AreCopiesFor event.now c) }
        ensures memory { OnErr result ((P.keeps ≡ true) × (has_bytes event.now ≡ true)) }
    {
        if !self.parts.is_kept() {
            return Ok(None);
        }
        copies(self.parts.alloc(), event)
    }
}

// What an event of the task table answers.
#[inline(always)]
fn table_told(told: TableTold) -> Result<Told<'static>, Refusal>
    ensures reply { told_reply result ≡ table_reply told }
    ensures limits { IsWithinLimits (told_reply result) }
{
    match told {
        TableTold::Done => Ok(Told::Done),
        TableTold::Home(home) => Ok(Told::Home(home)),
        TableTold::Refused(refusal) => Err(refusal),
    }
}
