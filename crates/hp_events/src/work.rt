//! What a step asks of which part.
ghost use Rattle.std.specs.Prelude.{◌≡◌, ◌*◌, ◌≤◌, true};
ghost use Rattle.hp_model.specs.Profile.{most_slots};
ghost use Rattle.hp_events.specs.declared.work.Work.TheVariants.{OfTask as OfATask, OnSlot as OnASlot};
ghost use Rattle.hp_events.specs.Kinds.{IsOfTask, names_file, slot_of};
ghost use Rattle.hp_events.specs.Works.{IsWork, work_receipts};

use crate::event::LentEvent;
use hp_model::event::{PoolEvent, SlotEvent};
use hp_model::lent::Lent;
use hp_model::step::Step;

/// A step, by the part that it asks. Names, options and bytes are the step's own.
#[derive(Drop)]
pub enum Work<'x> {
    /// Adds a task whose home is a node.
    Connect {
        task: u64,
        home: u64,
    },
    /// Looks a task up.
    Attach {
        task: u64,
    },
    /// An event of the pool alone.
    Pool(PoolEvent),
    /// Adds a task with copies of another's maps, on every slot.
    Fork {
        parent: u64,
        child: u64,
    },
    /// Removes a task and its maps.
    Exit {
        task: u64,
    },
    /// The names of a slot's files.
    Ls {
        slot: u64,
    },
    /// An event of a slot, but for the list of its names.
    OnSlot {
        slot: u64,
        event: LentEvent<'x>,
    },
    /// An event of a slot's mount, for a task that is looked up first, and whose home it is given then.
    OfTask {
        task: u64,
        slot: u64,
        event: LentEvent<'x>,
    },
}

/// What a step asks.
#[inline(always)]
pub fn work_of<'x>(step: &Step<'x>) -> Work<'x>
    ensures { IsWork step.now result }
{
    match *step {
        Step::Connect { task, home } => Work::Connect { task, home },
        Step::Attach { task } => Work::Attach { task },
        Step::Fork { parent, child } => Work::Fork { parent, child },
        Step::Exit { task } => Work::Exit { task },
        Step::Mount { slot, ref options } => {
            let options = Lent::new(options.as_slice());
            on_slot(slot, SlotEvent::Mount { options })
        }
        Step::Remount { slot, ref options } => {
            let options = Lent::new(options.as_slice());
            on_slot(slot, SlotEvent::Remount { options })
        }
        Step::Umount { slot } => on_slot(slot, SlotEvent::Umount),
        Step::Ls { slot } => Work::Ls { slot },
        Step::Df { slot } => on_slot(slot, SlotEvent::Df),
        Step::Create { slot, .. }
        | Step::Unlink { slot, .. }
        | Step::Truncate { slot, .. }
        | Step::Punch { slot, .. }
        | Step::Preallocate { slot, .. }
        | Step::Read { slot, .. }
        | Step::Stat { slot, .. } => on_slot(slot, file_event(step)),
        Step::Anon { task, .. } => of_task(task, 0, task_event(task, step)),
        Step::Map { task, slot, .. }
        | Step::Unmap { task, slot, .. }
        | Step::Fault { task, slot, .. }
        | Step::Load { task, slot, .. }
        | Step::Store { task, slot, .. } => of_task(task, slot, task_event(task, step)),
        Step::Nr { pages } => Work::Pool(PoolEvent::Nr { pages }),
        Step::Overcommit { pages } => Work::Pool(PoolEvent::Overcommit { pages }),
        Step::Meminfo => Work::Pool(PoolEvent::Meminfo),
        Step::Nodes => Work::Pool(PoolEvent::Nodes),
    }
}

#[inline(always)]
fn on_slot(slot: u64, event: LentEvent<'_>) -> Work<'_>
    ensures { result ≡ OnASlot slot event.entry }
{
    Work::OnSlot { slot, event }
}

#[inline(always)]
fn of_task(task: u64, slot: u64, event: LentEvent<'_>) -> Work<'_>
    ensures { result ≡ OfATask task slot event.entry }
{
    Work::OfTask { task, slot, event }
}

// What a step asks of a file that it names.
#[inline(always)]
fn file_event<'x>(step: &Step<'x>) -> LentEvent<'x>
    requires { names_file step.now ≡ true }
    ensures { IsWork step.now (OnASlot (slot_of step.now) result) }
{
    match step {
        Step::Create { name, .. } => SlotEvent::Create {
            name: Lent::new(name.as_slice()),
        },
        Step::Unlink { name, .. } => SlotEvent::Unlink {
            name: Lent::new(name.as_slice()),
        },
        Step::Truncate { name, pages, .. } => SlotEvent::Truncate {
            name: Lent::new(name.as_slice()),
            pages: *pages,
        },
        Step::Punch { name, from, to, .. } => SlotEvent::Punch {
            name: Lent::new(name.as_slice()),
            from: *from,
            to: *to,
        },
        Step::Preallocate { name, from, to, .. } => SlotEvent::Preallocate {
            name: Lent::new(name.as_slice()),
            from: *from,
            to: *to,
        },
        Step::Read {
            name,
            index,
            offset,
            count,
            ..
        } => SlotEvent::Read {
            name: Lent::new(name.as_slice()),
            index: *index,
            offset: *offset,
            count: *count,
        },
        Step::Stat { name, .. } => SlotEvent::Stat {
            name: Lent::new(name.as_slice()),
        },
        _ => unreachable!(),
    }
}

// What a task's step asks for that makes a map, or acts on one.
#[inline(always)]
fn task_event<'x>(task: u64, step: &Step<'x>) -> LentEvent<'x>
    requires { IsOfTask task step.now }
    ensures { IsWork step.now (OfATask task (slot_of step.now) result) }
{
    match *step {
        Step::Map {
            ref name,
            from,
            pages,
            sharing,
            reserving,
            ..
        } => SlotEvent::Map {
            task,
            home: 0,
            name: Lent::new(name.as_slice()),
            from,
            pages,
            sharing,
            reserving,
        },
        Step::Anon {
            pages,
            sharing,
            reserving,
            ..
        } => SlotEvent::Anon {
            task,
            home: 0,
            pages,
            sharing,
            reserving,
        },
        Step::Unmap { map, from, to, .. } => SlotEvent::Unmap {
            task,
            map,
            from,
            to,
        },
        Step::Fault {
            map,
            index,
            intent,
            ..
        } => SlotEvent::Fault {
            task,
            home: 0,
            map,
            index,
            intent,
        },
        Step::Load {
            map,
            index,
            offset,
            count,
            ..
        } => SlotEvent::Load {
            task,
            home: 0,
            map,
            index,
            offset,
            count,
        },
        Step::Store {
            map,
            index,
            offset,
            ref bytes,
            ..
        } => SlotEvent::Store {
            task,
            home: 0,
            map,
            index,
            offset,
            bytes: Lent::new(bytes.as_slice()),
        },
        _ => unreachable!(),
    }
}

/// The most receipts that it brings, on so many slots.
pub fn most_receipts(slots: usize, work: &Work<'_>) -> usize
    requires { slots ≤ most_slots }
    ensures { result ≡ work_receipts slots work.now }
{
    match work {
        Work::Fork { .. } => 2 * slots + 1,
        Work::Exit { .. } => slots + 1,
        Work::OfTask { .. } => 2,
        Work::Connect { .. }
        | Work::Attach { .. }
        | Work::Pool(_)
        | Work::Ls { .. }
        | Work::OnSlot { .. } => 1,
    }
}
