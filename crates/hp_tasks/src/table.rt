//! A task table over a `Vec`.

use crate::order::Order;
use hp_model::profile::MOST_TASKS;
use hp_model::refusal::Refusal;
use std::alloc::{AllocError, Global};
use std::marker::Model;

// Tasks stand in so many slots at most: as many are gaps, before the gaps are closed.
const MOST_SLOTS: usize = 2 * MOST_TASKS;

// Tasks' numbers are told apart by their rest: eight for each task that there may be.
const RESTS: usize = 8 * MOST_TASKS;

// An odd number near 2^64 divided by the golden ratio: to the upper bits of its products each bit of the numbers counts.
const SPREAD: u64 = 0x9e37_79b9_7f4a_7c15;

type Slot = Option<(u64, u64)>;

/// The tasks with their home nodes, in order of adding, each once. There is room for all of them.
///
/// By the rest of a task's number it is noted where the task stands. One that comes while another of its rest stands there is
/// among the numbers in order instead, which tell whether it is there, and where.
#[derive(Drop)]
pub struct TaskTable {
    slots: Vec<Slot>,
    tasks: usize,
    places: Box<[u16; RESTS]>,
    order: Order,
}

impl Model for TaskTable {
    ghost use Rattle.std.specs.Prelude.{vec_capacity};
    ghost use Rattle.hp_model.specs.machine.Table.{Table};
    ghost use Rattle.hp_tasks.specs.Table.{IsTaskTable, tasks_in};

    ghost Value = { Table };

    ghost view = { λ a. tasks_in a.slots.items };

    ghost invariant = { λ a.
        IsTaskTable a.slots.items (vec_capacity a.slots) a.tasks a.places.value a.order };
}

ghost use Rattle.std.specs.Prelude.{◌≡◌, ◌≢◌, ◌<◌, ◌≤◌, ◌==◌, ◌+◌, ◌*◌, ◌++◌, ◌∷◌, ℕ, cond, length, true, vec_capacity, [], IfOk, IfSome, Ok, Err, IsTrue, is_some, None, Some};
ghost use Rattle.std.specs.List.{count_by, position};
ghost use Rattle.hp_model.specs.declared.event.TableEvent.TheVariants.{Add, FindAndAdd, Remove};
ghost use Rattle.hp_model.specs.declared.refusal.Refusal.TheVariants as Refusal;
ghost use Rattle.hp_model.specs.beside.Accesses.{done_reply};
ghost use Rattle.hp_model.specs.Profile.{most_tasks};
ghost use Rattle.hp_model.specs.machine.Table.{home_of, added, removed, is_known, is_crowded, table_event};
ghost use Rattle.hp_tasks.specs.Table.{AreNoted, HasEachOnce, IsAlone, add_new, has_rest, has_task, task_rest, task_row_at, tasks_in, rests};

// Which number stands for a task's.
fn rest_of(task: u64) -> usize
    ensures rest { result ≡ task_rest task }
    ensures few { result < rests }
{
    let product = task.wrapping_mul(SPREAD);
    ((product ^ (product >> 32)).wrapping_mul(SPREAD) >> 49) as usize
}

fn stands_at(slots: &[Slot], task: u64, at: usize) -> bool
    ensures stands { result ≡ has_task task (task_row_at slots.now at) }
    ensures within { IsTrue result → at < length slots.now }
{
    match slots.get(at) {
        Some(Some(entry)) => entry.0 == task,
        _ => false,
    }
}

// Where a task stands, found by going over all slots.
fn place_among_all(slots: &[Slot], task: u64) -> Option<usize>
    ensures { result ≡ position (has_task task) slots.now }
{
    slots.iter().position(|slot| match slot {
        Some(entry) => entry.0 == task,
        None => false,
    })
}

// Whether a task of this rest stands there.
fn is_of_rest(slots: &[Slot], rest: usize, at: usize) -> bool
    ensures { result ≡ has_rest rest (task_row_at slots.now at) }
{
    match slots.get(at) {
        Some(Some(entry)) => rest_of(entry.0) == rest,
        _ => false,
    }
}

// Where a task stands. What the order notes is right, so that all slots are never gone over.
fn place_in(slots: &[Slot], places: &[u16; RESTS], order: &Order, task: u64) -> Option<usize>
    requires { AreNoted slots.now places.now order.now }
    ensures some { IfSome result (λ at. has_task task (task_row_at slots.now at) ≡ true) }
    ensures below { IfSome result (λ at. at < length slots.now) }
    ensures none { result ≡ None → home_of (tasks_in slots.now) task ≡ None }
{
    let place = places[rest_of(task)] as usize;
    if stands_at(slots, task, place) {
        return Some(place);
    }
    let noted = order.stand(task)?;
    if stands_at(slots, task, noted) {
        return Some(noted);
    }
    place_among_all(slots, task)
}

// Notes where a new task stands, behind all others: at the place of its rest, or else, where one of this rest is, in the order.
fn note(slots: &[Slot], places: &mut [u16; RESTS], order: &mut Order, task: u64)
    requires few { length slots.now < 2 * most_tasks }
    requires room { length order.old < most_tasks }
    requires noted { AreNoted slots.now places.old order.old }
    ensures noted { (home : ℕ) → AreNoted (slots.now ++ Some (task, home) ∷ [])
        places.new order.new }
    ensures listed { (t : ℕ) → count_by (λ n. n == t) order.new
        ≤ count_by (λ n. n == t) order.old + cond (task == t) 1 0 }
{
    let rest = rest_of(task);
    let stand = slots.len() as u16;
    if is_of_rest(slots, rest, places[rest] as usize) {
        order.add(task, stand);
    } else {
        places[rest] = stand;
    }
}

// Notes where each task stands.
fn note_all(slots: &[Slot], places: &mut [u16; RESTS], order: &mut Order)
    requires few { length slots.now ≤ 2 * most_tasks }
    requires alone { IsAlone slots.now order.old }
    ensures noted { AreNoted slots.now places.new order.new }
    ensures order { order.new ≡ order.old }
{
    for (at, slot) in slots.iter().enumerate() {
        if let Some(entry) = slot {
            let stand = at as u16;
            if !order.move_to(entry.0, stand) {
                places[rest_of(entry.0)] = stand;
            }
        }
    }
}

// So that there is a slot for one task more. Where there is none, the gaps are closed.
fn make_slot(slots: &mut Vec<Slot>, places: &mut [u16; RESTS], order: &mut Order)
    requires few { length (tasks_in slots.old.items) < most_tasks }
    requires once { HasEachOnce (tasks_in slots.old.items) }
    requires noted { AreNoted slots.old.items places.old order.old }
    ensures tasks { tasks_in slots.new.items ≡ tasks_in slots.old.items }
    ensures room { length slots.new.items < 2 * most_tasks }
    ensures capacity { vec_capacity slots.new ≡ vec_capacity slots.old }
    ensures noted { AreNoted slots.new.items places.new order.new }
    ensures order { order.new ≡ order.old }
{
    if slots.len() < MOST_SLOTS {
        return;
    }
    slots.retain(|slot| slot.is_some());
    note_all(slots, places, order);
}

impl TaskTable {
    /// No task, and room for all that there may be.
    pub fn new(alloc: Global) -> Result<TaskTable, AllocError>
        ensures { IfOk result (λ t. t ≡ []) }
    {
        Ok(TaskTable {
            slots: Vec::with_capacity(alloc, MOST_SLOTS)?,
            tasks: 0,
            places: Box::new(alloc, [0; RESTS])?,
            order: Order::new(alloc)?,
        })
    }

    /// The home node of a task.
    pub fn home(&self, task: u64) -> Option<u64>
        ensures { result ≡ home_of self.now task }
    {
        let at = place_in(&self.slots, &self.places, &self.order, task)?;
        match self.slots[at] {
            Some(entry) => Some(entry.1),
            None => None,
        }
    }

    fn is_full(&self) -> bool
        ensures { result ≡ is_crowded self.now }
    {
        self.tasks >= MOST_TASKS
    }

    fn add(&mut self, task: u64, home: u64)
        requires room { length self.old < most_tasks }
        requires absent { home_of self.old task ≡ None }
        ensures { self.new ≡ added self.old task home }
    {
        make_slot(&mut self.slots, &mut self.places, &mut self.order);
        note(&self.slots, &mut self.places, &mut self.order, task);
        self.slots.push_reserved(Some((task, home)));
        self.tasks += 1;
    }

    // Adds a task, with its home node. Refused as TaskExists or TooMany; then nothing changes.
    fn add_new(&mut self, task: u64, home: u64) -> Result<(), Refusal>
        ensures { add_new self.old task home ≡ (done_reply result, self.new) }
    {
        if self.home(task).is_some() {
            return Err(Refusal::TaskExists);
        }
        if self.is_full() {
            return Err(Refusal::TooMany);
        }
        self.add(task, home);
        Ok(())
    }

    /// Adds a child of a task, with its home node. Refused as NoSuchTask, TaskExists or TooMany; then nothing changes.
    pub fn add_child(&mut self, parent: u64, child: u64) -> Result<(), Refusal>
        ensures { (nodes : ℕ) → table_event nodes self.old (FindAndAdd parent child)
            ≡ (done_reply result, self.new) }
    {
        let Some(home) = self.home(parent) else {
            return Err(Refusal::NoSuchTask);
        };
        self.add_new(child, home)
    }

    /// Takes a task out, if it is there. What stands behind it stays where it is.
    pub fn remove(&mut self, task: u64)
        ensures { self.new ≡ removed self.old task }
    {
        let Some(at) = place_in(&self.slots, &self.places, &self.order, task) else {
            return;
        };
        self.slots[at] = None;
        self.order.remove(task);
        self.tasks -= 1;
    }

    /// Adds a task with its home, which is one of so many nodes. Refused as NoSuchNode, TaskExists or TooMany; then nothing
    /// changes. It asks for no memory.
    pub fn add_task(&mut self, nodes: u64, task: u64, home: u64) -> Result<(), Refusal>
        ensures { table_event nodes self.old (Add task home) ≡ (done_reply result, self.new) }
    {
        if home >= nodes {
            return Err(Refusal::NoSuchNode);
        }
        self.add_new(task, home)
    }

    /// Takes a task out. Refused as NoSuchTask where it is not there, and then nothing changes. It asks for no memory.
    pub fn remove_task(&mut self, task: u64) -> Result<(), Refusal>
        ensures event { (nodes : ℕ) → table_event nodes self.old (Remove task)
            ≡ (done_reply result, self.new) }
        ensures memory { result ≢ Err Refusal.OutOfMemory }
    {
        if self.home(task).is_none() {
            return Err(Refusal::NoSuchTask);
        }
        self.remove(task);
        Ok(())
    }
}
