//! Steps of all kinds.
ghost use Rattle.std.specs.Prelude.{◌≡◌, ◌≢◌, ◌≤◌, true, false, length, Err, IfOk, Ok, OnErr};
ghost use Rattle.hp_events.specs.Works.{IsPlainWork, is_usage_work, takes_memory_for, work_script};
ghost use Rattle.hp_model.specs.declared.answer.Answer.TheVariants.{Number, Numbers};
ghost use Rattle.hp_model.specs.declared.event.Event.TheVariants.{Pool as OnPool};
ghost use Rattle.hp_model.specs.declared.refusal.Refusal.TheVariants as Refusal;
ghost use Rattle.hp_model.specs.declared.step.Step.TheVariants.{Attach, Connect, Exit, Fork, Nr, Overcommit, Meminfo, Nodes};
ghost use Rattle.hp_model.specs.machine.Promises.{is_usage, IsPromised, IsPromisedRun};
ghost use Rattle.hp_model.specs.beside.Accesses.{done_reply};
ghost use Rattle.hp_model.specs.machine.Step.{IsScript, IsStep, only};
ghost use Rattle.hp_model.specs.beside.Told.{told_reply};
ghost use Rattle.hp_model.specs.pool.Resize.{node_counts};
ghost use Rattle.hp_model.specs.text.Writing.{IsWithinLimits};
ghost use Rattle.hp_model.specs.machine.Promises.{takes_memory};
ghost use Rattle.hp_model.specs.Profile.{most_bytes};
ghost use Rattle.hp_model.specs.machine.Ready.{IsReadyMachine};

use super::System;
use hp_events::{Work, set_home};
use hp_model::answer::{Counts, NodeCount, Reply};
use hp_model::event::{PoolEvent, SlotEvent};
use hp_model::naming::Naming;
use hp_model::profile::{MOST_BYTES, MOST_OVERCOMMIT};
use hp_model::refusal::Refusal;
use hp_model::service::Service;
use hp_model::step::Step;
use hp_model::told::{Told, into_reply};
use std::alloc::{AllocError, Global};

impl<N: Naming> System<N> {
    /// Adds a task with its home node, from which its pages come first.
    ///
    /// Refused, and then nothing changes, by the first of these that holds (profile):
    /// - NoSuchNode: there is no node `home`.
    /// - TaskExists: the task is there.
    /// - TooMany: there are 4,096 tasks.
    pub fn connect(&mut self, task: u64, home: u64) -> Result<(), Refusal>
        requires ready { IsReadyMachine self.old }
        ensures step { IsStep self.old.state (Connect task home) (done_reply result)
            self.new.state }
        ensures memory { done_reply result ≢ Err Refusal.OutOfMemory }
        ensures size { self.new.state.page_size ≡ self.old.state.page_size }
        ensures ready { IsReadyMachine self.new }
    {
        let nodes = self.pool.len() as u64;
        self.table.add_task(nodes, task, home)
    }

    /// Answers the home node of a task. Changes nothing.
    ///
    /// Refused as NoSuchTask where the task is not there.
    pub fn attach(&mut self, task: u64) -> Result<Told<'static>, Refusal>
        requires ready { IsReadyMachine self.old }
        ensures step { IsStep self.old.state (Attach task) (told_reply result) self.new.state }
        ensures memory { told_reply result ≢ Err Refusal.OutOfMemory }
        ensures limits { IsWithinLimits (told_reply result) }
        ensures size { self.new.state.page_size ≡ self.old.state.page_size }
        ensures ready { IsReadyMachine self.new }
    {
        match self.table.home(task) {
            Some(home) => Ok(Told::Home(home)),
            None => Err(Refusal::NoSuchTask),
        }
    }

    /// Adds a child of a task, with its home node. The child gets a map for each map of its parent, of the same number, range
    /// and copies, which owns nothing (`mm/hugetlbfs_reserv.rst`). Maps that still stand under the child's number go first.
    ///
    /// Refused, and then the child is not there and has no map, by the first of these that holds (profile):
    /// - NoSuchTask: the parent is not there.
    /// - TaskExists: the child is there.
    /// - TooMany: there are 4,096 tasks; or with the child a slot would have more than 4,096 maps, or maps of more than 4,096
    ///   tasks.
    /// - OutOfMemory: memory for the child's maps is refused.
    #[inline(never)]
    pub fn fork(&mut self, parent: u64, child: u64) -> Result<(), Refusal>
        requires ready { IsReadyMachine self.old }
        ensures step { IsStep self.old.state (Fork parent child) (done_reply result)
            self.new.state }
        ensures size { self.new.state.page_size ≡ self.old.state.page_size }
        ensures ready { IsReadyMachine self.new }
    {
        if let Err(refusal) = self.table.add_child(parent, child) {
            return Err(refusal);
        }
        match self.fork_slots(parent, child) {
            Ok(()) => Ok(()),
            Err(refusal) => {
                self.table.remove(child);
                Err(refusal)
            }
        }
    }

    /// Ends a task. Its maps on all slots go with what they hold, and files that are left without name and maps; their
    /// pages and reservations go back to the pool, but for what minimums keep.
    ///
    /// Refused as NoSuchTask where the task is not there, and then nothing changes. It takes no memory.
    #[inline(never)]
    pub fn exit(&mut self, task: u64) -> Result<(), Refusal>
        requires ready { IsReadyMachine self.old }
        ensures step { IsStep self.old.state (Exit task) (done_reply result) self.new.state }
        ensures memory { done_reply result ≢ Err Refusal.OutOfMemory }
        ensures size { self.new.state.page_size ≡ self.old.state.page_size }
        ensures ready { IsReadyMachine self.new }
    {
        if let Err(refusal) = self.table.remove_task(task) {
            return Err(refusal);
        }
        self.exit_slots(task);
        Ok(())
    }

    /// Sets how many persistent pages there are, or all frames where `pages` is more, and answers the new number. Where it
    /// rises, surplus pages become persistent first, and then frames are taken; where it falls, free pages that nobody is
    /// promised leave, and of the others as many become surplus (`admin-guide/mm/hugetlbpage.rst`). Never refused.
    pub fn set_nr(&mut self, pages: u64) -> u64
        requires ready { IsReadyMachine self.old }
        ensures step { IsStep self.old.state (Nr pages) (Ok (Number result)) self.new.state }
        ensures size { self.new.state.page_size ≡ self.old.state.page_size }
        ensures ready { IsReadyMachine self.new }
    {
        self.pool.set_nr(pages)
    }

    /// Sets how many surplus pages there may be (`admin-guide/mm/hugetlbpage.rst`). Those that there are stay.
    ///
    /// Refused as OutOfRange where `pages` is above 4,294,967,295 (profile), and then nothing changes.
    pub fn set_overcommit(&mut self, pages: u64) -> Result<(), Refusal>
        requires ready { IsReadyMachine self.old }
        ensures step { IsStep self.old.state (Overcommit pages) (done_reply result) self.new.state }
        ensures memory { done_reply result ≢ Err Refusal.OutOfMemory }
        ensures size { self.new.state.page_size ≡ self.old.state.page_size }
        ensures ready { IsReadyMachine self.new }
    {
        if pages > MOST_OVERCOMMIT {
            return Err(Refusal::OutOfRange);
        }
        self.pool.set_overcommit(pages);
        Ok(())
    }

    // A row for each node, and rows of zeros past the last.
    fn node_counts(&self) -> [NodeCount; 4]
        requires { IsReadyMachine self.now }
        ensures { result ≡ node_counts self.now.pool }
    {
        let none = NodeCount {
            total: 0,
            free: 0,
            surp: 0,
        };
        let mut rows = [none; 4];
        for node in 0..self.pool.len() {
            rows[node] = self.pool.node(node);
        }
        rows
    }

    /// Answers how many nodes there are, and of each its pages, those that are free, and its surplus. Never refused, and
    /// changes nothing.
    #[inline(never)]
    pub fn nodes(&mut self) -> Told<'static>
        requires ready { IsReadyMachine self.old }
        ensures step { IsStep self.old.state Nodes (told_reply (Ok result)) self.new.state }
        ensures size { self.new.state.page_size ≡ self.old.state.page_size }
        ensures ready { IsReadyMachine self.new }
    {
        let nodes = self.pool.len() as u64;
        let rows = self.node_counts();
        Told::PerNode { nodes, rows }
    }

    /// Answers Total, Free, Rsvd and Surp, and what nr and overcommit are set to, all in pages
    /// (`admin-guide/mm/hugetlbpage.rst`). Never refused, and changes nothing.
    #[inline(never)]
    pub fn meminfo(&mut self) -> Counts
        requires ready { IsReadyMachine self.old }
        ensures step { IsStep self.old.state Meminfo (Ok (Numbers result)) self.new.state }
        ensures size { self.new.state.page_size ≡ self.old.state.page_size }
        ensures ready { IsReadyMachine self.new }
    {
        self.pool.counts()
    }

    /// Answers a step, or leaves everything as it was and says why. What is promised of each step
    /// holds of this one: an access at an index reserved to its map is never refused for want of a
    /// huge page; Total, Free, Rsvd and Surp are counts over files and maps; no mount is taken past
    /// its limit, and minimums stay committed; a load answers what its map shows, and a file shows what
    /// was stored through its maps, until an umount ends it.
    ///
    /// Refused as the step's own function is. Only a step that makes a file, a map or a list of names, a preallocation, a fork, and an
    /// access that nothing backs, can be refused memory.
    pub fn apply(&mut self, step: &Step<'_>) -> Reply
        requires ready { IsReadyMachine self.old }
        ensures step { IsStep self.old.state step.now result self.new.state }
        ensures promised { IsPromised self.old.state step.now result self.new.state }
        ensures memory { takes_memory self.old.state step.now ≡ false
            → result ≢ Err Refusal.OutOfMemory }
        ensures size { self.new.state.page_size ≡ self.old.state.page_size }
        ensures limits { IsWithinLimits result }
        ensures ready { IsReadyMachine self.new }
    {
        let mut room = [0u8; MOST_BYTES];
        let mut reply = Ok(Told::Done);
        self.answer(step, &mut room, &mut reply);
        into_reply(reply)
    }

    // The reply of an event of the pool alone.
    #[inline(always)]
    #[tactic(auto, unfolding(hp_model::specs::machine::Step::IsStep))]
    fn tell_pool(&mut self, event: PoolEvent, reply: &mut Result<Told<'_>, Refusal>)
        requires ready { IsReadyMachine self.old }
        ensures done { IsScript self.old.state (only (OnPool event)) (told_reply reply.new)
            self.new.state }
        ensures memory { told_reply reply.new ≢ Err Refusal.OutOfMemory }
        ensures size { self.new.state.page_size ≡ self.old.state.page_size }
        ensures ready { IsReadyMachine self.new }
    {
        match event {
            PoolEvent::Nr { pages } => tell_number(self.set_nr(pages), reply),
            PoolEvent::Overcommit { pages } => tell_done(self.set_overcommit(pages), reply),
            PoolEvent::Meminfo => *reply = Ok(Told::Numbers(self.meminfo())),
            PoolEvent::Nodes => *reply = Ok(self.nodes()),
        }
    }

    // What a step asks of which part. The reply is put in its place, and bytes in the front of the room.
    #[inline(always)]
    #[tactic(auto, unfolding(hp_model::specs::machine::Step::IsStep))]
    pub(super) fn do_work<'a>(
        &mut self,
        work: Work<'_>,
        room: &'a mut [u8],
        reply: &mut Result<Told<'a>, Refusal>,
    )
        requires ready { IsReadyMachine self.old }
        requires room { most_bytes ≤ length room.old }
        requires plain { IsPlainWork work }
        ensures done { IsScript self.old.state
            (work_script (length self.old.state.slots) work.entry) (told_reply reply.new)
            self.new.state }
        ensures usage { is_usage_work work.entry ≡ true → IsWithinLimits (told_reply reply.new) }
        ensures memory { takes_memory_for self.old.state work.entry ≡ false
            → told_reply reply.new ≢ Err Refusal.OutOfMemory }
        ensures size { self.new.state.page_size ≡ self.old.state.page_size }
        ensures ready { IsReadyMachine self.new }
    {
        match work {
            Work::Connect { task, home } => tell_done(self.connect(task, home), reply),
            Work::Attach { task } => *reply = self.attach(task),
            Work::Pool(event) => self.tell_pool(event, reply),
            Work::Fork { parent, child } => tell_done(self.fork(parent, child), reply),
            Work::Exit { task } => tell_done(self.exit(task), reply),
            Work::Ls { slot } => self.on_slot(slot, &SlotEvent::Ls, room, reply),
            Work::OnSlot { slot, event } => self.on_slot(slot, &event, room, reply),
            Work::OfTask {
                task,
                slot,
                mut event,
            } => match self.table.home(task) {
                Some(home) => {
                    set_home(&mut event, home);
                    self.on_slot(slot, &event, room, reply)
                }
                None => *reply = Err(Refusal::NoSuchTask),
            },
        }
    }

    /// Does steps one after another, and answers their replies, each as `apply` promises. Room for the
    /// replies is made first: where it is refused, nothing is done.
    pub fn run(&mut self, alloc: Global, steps: &[Step<'_>]) -> Result<Vec<Reply>, AllocError>
        requires ready { IsReadyMachine self.old }
        ensures run { IfOk result (λ replies. IsPromisedRun self.old.state steps.now
            replies.items self.new.state) }
        ensures size { self.new.state.page_size ≡ self.old.state.page_size }
        ensures err { OnErr result (self.new ≡ self.old) }
        ensures ready { IsReadyMachine self.new }
    {
        let mut replies = Vec::with_capacity(alloc, steps.len())?;
        for step in steps {
            let reply = self.apply(step);
            replies.push_reserved(reply);
        }
        Ok(replies)
    }
}

// The reply that something is done, or its refusal, put in its place.
#[inline(always)]
fn tell_done(ended: Result<(), Refusal>, reply: &mut Result<Told<'_>, Refusal>)
    ensures { told_reply reply.new ≡ done_reply ended }
{
    *reply = Told::done(ended);
}

// The reply of a number of pages, put in its place.
#[inline(always)]
fn tell_number(pages: u64, reply: &mut Result<Told<'_>, Refusal>)
    ensures { told_reply reply.new ≡ Ok (Number pages) }
{
    *reply = Ok(Told::Number(pages));
}
