//! The task table under its lock.
ghost use Rattle.std.specs.Prelude.{◌≡◌, ◌∷◌, ◌≤◌, ◌||◌, ℕ, List, None, Some, [], length, true, false, IfOk, OnErr, IsOk, if◌then◌else◌};
ghost use Rattle.hp_model.specs.declared.entry.TableEntry.{TableEntry as Entry};
ghost use Rattle.hp_model.specs.declared.event.TableEvent.TheVariants.{Add, FindAndAdd, Remove};
ghost use Rattle.hp_model.specs.machine.Table.{table_event};
ghost use Rattle.hp_model.specs.Profile.{most_tasks};
ghost use Rattle.hp_model.specs.threads.Closing.{removes_task};
ghost use Rattle.hp_model.specs.threads.TableRun.{IsTableRun};
ghost use Rattle.hp_history.specs.declared.held.Held.TheVariants.{Tasks};
ghost use Rattle.hp_history.specs.History.{IsChange, IsSession};
ghost use Rattle.hp_history.specs.Sections.{told_more};
ghost use Rattle.hp_locked.specs.Views.{IsNewTrail, IsTrailOf, frames_list};
ghost use Rattle.hp_events.specs.Replies.{table_reply};
ghost use Rattle.hp_shared.specs.Tables.{IsNext, IsTableEventDone, locked_table, table_in, table_receipt, table_view, table_with};
ghost use Rattle.hp_trail.specs.Keeping.{has_room, one_less, with_entry};

use atomic_table::Badge;
use hp_events::TableTold;
use hp_history::{Change, History, Places, Token, View};
use hp_locked::Full;
use hp_model::entry::{Part, Receipt, TableEntry};
use hp_model::event::{Event, TableEvent};
use hp_model::naming::Naming;
use hp_model::refusal::Refusal;
use hp_order::Ordered;
use hp_tasks::TaskTable;
use hp_trail::trail::Trail;
use std::marker::{Brand, Model, PhantomData};
use std::mem;

/// The tasks with their trail.
///
/// Whenever its lock is free, its trail in the history is a run of the table that ends in these tasks. Where the trail is kept,
/// there is a place in it for the removal of each: so that is never refused.
pub struct Table<N: Naming + Places, T: Trail<TableEntry>> {
    nodes: u64,
    tasks: TaskTable,
    trail: T,
    seat: Badge<View>,
    of: PhantomData<N>,
}

impl<N: Naming + Places, T: Trail<TableEntry>> Model for Table<N, T> {
    ghost use Rattle.std.specs.Prelude.{◌≡◌, ◌∷◌, [], length};
    ghost use Rattle.hp_locked.specs.Views.{frames_list};
    ghost use Rattle.hp_shared.specs.Tables.{IsLockedTable, TableView, locked_table, table_in, table_view};

    ghost Value = { TableView };

    ghost view = { λ t. locked_table t.tasks (table_in t.seat.views) (T.entries t.trail)
        (T.left t.trail) (T.extra t.trail) };

    ghost invariant = { λ t. (t.nodes ≡ length (frames_list N.frames))
        × (t.nodes ≡ N.shape.nodes)
        × (t.seat.table_id ≡ N.history)
        × (t.seat.views ≡ table_view t.seat.views ∷ [])
        × IsLockedTable t.nodes (table_in t.seat.views) (T.entries t.trail) (T.left t.trail)
        (T.extra t.trail) t.tasks };
}

impl<N: Naming + Places, T: Trail<TableEntry>> Ordered for Table<N, T> {
    ghost rank = { 1 };

    #[inline(always)]
    fn rank() -> u64 {
        1
    }
}

impl<N: Naming + Places, T: Trail<TableEntry>> Table<N, T> {
    /// No task, with a trail that has nothing in it yet.
    #[tactic(auto, using(crate::proofs::TablesKept::fresh_table))]
    pub fn new(nodes: u64, tasks: TaskTable, trail: T, seat: Token) -> Self
        requires nodes { nodes ≡ length (frames_list N.frames) }
        requires shape { nodes ≡ N.shape.nodes }
        requires none { tasks ≡ [] }
        requires fresh { IsNewTrail (T.entries trail) }
        requires enough { most_tasks ≤ T.extra trail }
        requires named { seat.table_id ≡ N.history }
        requires first { seat.me ≡ (Tasks [] ∷ [], []) }
        ensures { result ≡ locked_table tasks [] (T.entries trail) (T.left trail) (T.extra trail) }
    {
        Table {
            nodes,
            tasks,
            trail,
            seat: seat.into_badge(),
            of: PhantomData,
        }
    }

    /// The tasks, what is kept of their trail, and the seat that has it.
    pub fn into_parts(self) -> (TaskTable, T, Token)
        ensures tasks { result.0 ≡ self.tasks }
        ensures entries { T.entries result.1 ≡ self.entries }
        ensures kept { IsTrailOf self.run self.entries }
        ensures run { IsTableRun (length (frames_list N.frames)) [] self.run self.tasks }
        ensures named { result.2.table_id ≡ N.history }
        ensures trail { result.2.me ≡ (Tasks self.run ∷ [], []) }
    {
        let Table {
            nodes: _,
            tasks,
            trail,
            seat,
            of: _,
        } = self;
        (tasks, trail, seat.into_seat())
    }

    /// An event of the table: its answer, and where entries are kept its receipt, which the session has in any case. At `Err`
    /// the trail is full, and nothing changed. The removal of a task that is there always has a place.
    pub fn event(
        &mut self,
        history: &History<N>,
        mine: &mut Token,
        event: TableEvent,
    ) -> Result<(TableTold, Option<Receipt>), Full>
        requires named { mine.old.table_id ≡ N.history }
        requires session { IsSession mine.old.me.0 }
        requires none { mine.old.me.1 ≡ [] }
        ensures named { mine.new.table_id ≡ N.history }
        ensures done { IfOk result (λ r. IsTableEventDone (length (frames_list N.frames))
            self.old self.new event (table_reply r.0)) }
        ensures told { IfOk result (λ r. mine.new.me ≡ (
          told_more mine.old.me.0
              (table_receipt event (table_reply r.0) (length self.old.run)) ∷ [],
          [],
        )) }
        ensures receipt { IfOk result (λ r. r.1 ≡ (if T.keeps
            then Some (table_receipt event (table_reply r.0) (length self.old.run))
            else None)) }
        ensures closing { removes_task self.old.tasks event ≡ true → IsOk result }
        ensures full { OnErr result (has_room false self.old.left self.old.extra ≡ false) }
        ensures keeps { OnErr result (T.keeps ≡ true) }
        ensures same { OnErr result (self.new ≡ self.old) }
        ensures untold { OnErr result (mine.new.me ≡ mine.old.me) }
    {
        let Table {
            nodes,
            tasks,
            trail,
            seat,
            of: _,
        } = self;
        if !may_note(tasks, trail, event) {
            return Err(Full {});
        }
        let (told, change) = answered(tasks, *nodes, event);
        let receipt = note(trail, event, told);
        tell(history, seat, mine, event, told, change);
        Ok((told, receipt))
    }
}

// The order has the event and the words say what it changes, at one step; and the session has its receipt.
#[inline(always)]
fn tell<N: Places>(
    history: &History<N>,
    table: &mut Badge<View>,
    mine: &mut Token,
    event: TableEvent,
    told: TableTold,
    change: Change,
)
    requires table { table.old.table_id ≡ N.history }
    requires trail { table.old.views ≡ table_view table.old.views ∷ [] }
    requires named { mine.old.table_id ≡ N.history }
    requires session { IsSession mine.old.me.0 }
    requires none { mine.old.me.1 ≡ [] }
    requires next { IsNext N.shape.nodes (table_in table.old.views) event (table_reply told)
        change }
    ensures table { table.new.table_id ≡ N.history }
    ensures trail { table.new.views
        ≡ (table_with event (table_reply told) (table_in table.old.views) ∷ []) ∷ [] }
    ensures named { mine.new.table_id ≡ N.history }
    ensures told { mine.new.me ≡ (
      told_more mine.old.me.0
          (table_receipt event (table_reply told) (length (table_in table.old.views))) ∷ [],
      [],
    ) }
{
    history.take_in(mine, mem::replace(table, Badge::blank()).into_seat());
    history.noted::<Brand, _>(mine, change, (event, told));
    *table = history.give_away(mine).into_badge();
}

// Whether the event takes away a task that is there, or the trail has a place for an entry of any kind.
fn may_note<T: Trail<TableEntry>>(tasks: &TaskTable, trail: &T, event: TableEvent) -> bool
    ensures may { result ≡ (removes_task tasks.now event
        || has_room false (T.left trail.now) (T.extra trail.now)) }
    ensures keeps { result ≡ false → T.keeps ≡ true }
{
    removes(tasks, event) || trail.has_room(false)
}

// Whether the event takes away a task that is there.
fn removes(tasks: &TaskTable, event: TableEvent) -> bool
    ensures { result ≡ removes_task tasks.now event }
{
    match event {
        TableEvent::Remove { task } => tasks.home(task).is_some(),
        TableEvent::Add { .. } | TableEvent::Find { .. } | TableEvent::FindAndAdd { .. } => false,
    }
}

// What the table answers to an event, and what that changes.
#[inline(always)]
fn answered(tasks: &mut TaskTable, nodes: u64, event: TableEvent) -> (TableTold, Change)
    ensures event { table_event nodes tasks.old event ≡ (table_reply result.0, tasks.new) }
    ensures change { IsChange tasks.old tasks.new result.1 }
{
    match event {
        TableEvent::Add { task, home } => add(tasks, nodes, task, home),
        TableEvent::Find { task } => match tasks.home(task) {
            Some(home) => (TableTold::Home(home), Change::Same),
            None => (TableTold::Refused(Refusal::NoSuchTask), Change::Same),
        },
        TableEvent::FindAndAdd { parent, child } => add_child(tasks, parent, child),
        TableEvent::Remove { task } => remove(tasks, task),
    }
}

// Adds a task.
fn add(tasks: &mut TaskTable, nodes: u64, task: u64, home: u64) -> (TableTold, Change)
    ensures event { table_event nodes tasks.old (Add task home)
        ≡ (table_reply result.0, tasks.new) }
    ensures change { IsChange tasks.old tasks.new result.1 }
{
    match tasks.add_task(nodes, task, home) {
        Ok(()) => (TableTold::Done, Change::Came { task, home }),
        Err(refusal) => (TableTold::Refused(refusal), Change::Same),
    }
}

// Adds a child of a task.
fn add_child(tasks: &mut TaskTable, parent: u64, child: u64) -> (TableTold, Change)
    ensures event { (nodes : ℕ) → table_event nodes tasks.old (FindAndAdd parent child)
        ≡ (table_reply result.0, tasks.new) }
    ensures change { IsChange tasks.old tasks.new result.1 }
{
    let Some(home) = tasks.home(parent) else {
        return (TableTold::Refused(Refusal::NoSuchTask), Change::Same);
    };
    match tasks.add_child(parent, child) {
        Ok(()) => (TableTold::Done, Change::Came { task: child, home }),
        Err(refusal) => (TableTold::Refused(refusal), Change::Same),
    }
}

// Removes a task.
fn remove(tasks: &mut TaskTable, task: u64) -> (TableTold, Change)
    ensures event { (nodes : ℕ) → table_event nodes tasks.old (Remove task)
        ≡ (table_reply result.0, tasks.new) }
    ensures change { IsChange tasks.old tasks.new result.1 }
{
    let Some(home) = tasks.home(task) else {
        return (TableTold::Refused(Refusal::NoSuchTask), Change::Same);
    };
    match tasks.remove_task(task) {
        Ok(()) => (TableTold::Done, Change::Gone { task, home }),
        Err(refusal) => (TableTold::Refused(refusal), Change::Same),
    }
}

// Notes an event with its answer, and makes its receipt where entries are kept.
fn note<T: Trail<TableEntry>>(trail: &mut T, event: TableEvent, told: TableTold) -> Option<Receipt>
    requires { has_room true (T.left trail.old) (T.extra trail.old) ≡ true }
    ensures entries { T.entries trail.new ≡ with_entry (T.entries trail.old)
        (record { event = event; reply = table_reply told }) }
    ensures left { T.left trail.new ≡ one_less (T.left trail.old) }
    ensures extra { T.extra trail.new ≡ T.extra trail.old }
    ensures receipt { (es : List Entry) → IsTrailOf es (T.entries trail.old)
        → result ≡ (if T.keeps
        then Some (table_receipt event (table_reply told) (length es))
        else None) }
{
    let receipt = receipt_of(trail, event, told);
    trail.push(TableEntry {
        event,
        reply: told.reply(),
    });
    receipt
}

fn receipt_of<T: Trail<TableEntry>>(
    trail: &T,
    event: TableEvent,
    told: TableTold,
) -> Option<Receipt>
    ensures { (es : List Entry) → IsTrailOf es (T.entries trail.now)
        → result ≡ (if T.keeps
        then Some (table_receipt event (table_reply told) (length es))
        else None) }
{
    if !trail.is_kept() {
        return None;
    }
    Some(Receipt {
        part: Part::Tasks,
        place: trail.place(),
        event: Event::Tasks(event),
        reply: told.reply(),
    })
}
