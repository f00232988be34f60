//! What answers steps.
ghost use Rattle.std.specs.Prelude.{◌≡◌, ◌≤◌, ℕ, length, IfOk};
ghost use Rattle.hp_model.specs.declared.step.Step.{Step as TheStep};
ghost use Rattle.hp_model.specs.Profile.{most_bytes};
ghost use Rattle.hp_model.specs.beside.Accesses.{bytes_reply, done_reply, fault_step, load_step, store_step};
ghost use Rattle.hp_model.specs.machine.Plan.{Reply as TheReply};
ghost use Rattle.hp_model.specs.beside.Queue.{DoesAll, DoesOne};
ghost use Rattle.hp_model.specs.beside.Told.{told_reply};
ghost use Rattle.hp_model.specs.text.Writing.{IsWithinLimits};

use crate::answer::Reply;
use crate::queued::{Doing, Queued};
use crate::refusal::Refusal;
use crate::step::{Intent, Step};
use crate::told::Told;

/// Where a load or a store begins: at a byte of a page, which a task's map on a slot shows at an index of its file. A fault
/// touches the page, at whatever byte.
#[derive(Clone, Copy, Debug, PartialEq, Eq)]
pub struct Access {
    pub task: u64,
    pub slot: u64,
    pub map: u64,
    /// A page of the file.
    pub index: u64,
    /// A byte of the page.
    pub offset: u64,
}

/// Answers steps one after another: the machine itself, or a session on it.
pub trait Service {
    /// From the old value, the step may be answered so, and leaves the new value.
    ghost may_answer: { Self → TheStep → TheReply → Self → Type 0 };

    /// The bytes of a page.
    ghost page: { Self → ℕ };

    /// What each call wants of the service, and keeps.
    ghost is_ready: { Self → Type 0 };

    /// Does the step, or leaves everything as it was, and says which.
    fn call(&mut self, step: &Step<'_>) -> Reply
        requires ready { is_ready self.old }
        ensures answered { may_answer self.old step.now result self.new }
        ensures ready { is_ready self.new }
        ensures same_page { page self.new ≡ page self.old }
        ensures limits { IsWithinLimits result };

    /// Does the step as `call` does, and puts the reply in its place. Where it is bytes, they are in the front of the room.
    fn answer<'a>(
        &mut self,
        step: &Step<'_>,
        room: &'a mut [u8],
        reply: &mut Result<Told<'a>, Refusal>,
    )
        requires ready { is_ready self.old }
        requires room { most_bytes ≤ length room.old }
        ensures answered { may_answer self.old step.now (told_reply reply.new) self.new }
        ensures ready { is_ready self.new }
        ensures same_page { page self.new ≡ page self.old }
        ensures limits { IsWithinLimits (told_reply reply.new) };

    /// Does the step of a load of `count` bytes, and answers them in the front of the room.
    fn load<'a>(
        &mut self,
        access: &Access,
        count: u64,
        room: &'a mut [u8],
    ) -> Result<&'a [u8], Refusal>
        requires ready { is_ready self.old }
        requires room { most_bytes ≤ length room.old }
        ensures answered { may_answer self.old (load_step access.now count)
            (bytes_reply result) self.new }
        ensures ready { is_ready self.new }
        ensures same_page { page self.new ≡ page self.old }
        ensures few { IfOk result (λ bytes. length bytes.now ≤ most_bytes) };

    /// Does the step of a store of these bytes.
    fn store(&mut self, access: &Access, bytes: &[u8]) -> Result<(), Refusal>
        requires ready { is_ready self.old }
        ensures answered { may_answer self.old (store_step access.now bytes.now)
            (done_reply result) self.new }
        ensures ready { is_ready self.new }
        ensures same_page { page self.new ≡ page self.old };

    /// Does the step of a fault of this page.
    fn fault(&mut self, access: &Access, intent: Intent) -> Result<(), Refusal>
        requires ready { is_ready self.old }
        ensures answered { may_answer self.old (fault_step access.now intent)
            (done_reply result) self.new }
        ensures ready { is_ready self.new }
        ensures same_page { page self.new ≡ page self.old };

    /// Whether it is best asked for several loads, stores and faults at once.
    #[inline(always)]
    fn takes_several(&self) -> bool {
        false
    }

    /// Does these loads, stores and faults, one after another, and notes what each was answered.
    fn do_queued(&mut self, queue: &mut [Queued], room: &mut [u8])
        requires ready { is_ready self.old }
        requires room { most_bytes ≤ length room.old }
        ensures done { DoesAll may_answer self.old queue.old queue.new self.new }
        ensures ready { is_ready self.new }
        ensures same_page { page self.new ≡ page self.old }
    {
        for at in 0..queue.len() {
            self.do_one(&mut queue[at], room);
        }
    }

    /// Does a load, a store or a fault that waits, and notes what it was answered.
    fn do_one(&mut self, queued: &mut Queued, room: &mut [u8])
        requires ready { is_ready self.old }
        requires room { most_bytes ≤ length room.old }
        ensures done { DoesOne may_answer self.old queued.old queued.new self.new }
        ensures ready { is_ready self.new }
        ensures same_page { page self.new ≡ page self.old }
    {
        let access = *queued.access();
        match queued.doing() {
            Doing::Load { count } => {
                let loaded = self.load(&access, count, room);
                queued.answer_load(loaded);
            }
            Doing::Store { bytes } => {
                let stored = self.store(&access, bytes);
                queued.answer_done(stored);
            }
            Doing::Fault { intent } => {
                let ended = self.fault(&access, intent);
                queued.answer_done(ended);
            }
        }
    }

    /// The bytes of a page.
    fn page_bytes(&self) -> u64
        ensures { result ≡ page self.now };
}
