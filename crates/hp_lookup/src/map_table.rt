//! The maps of a slot's tasks.
ghost use Rattle.std.specs.Prelude.{◌≡◌, ◌==◌, [], ℕ, List, ◌<◌, ◌≤◌, false, true, length, IfErr, IfOk, IfNone, OnErr, OnOk};
ghost use Rattle.std.specs.List.Sorted.{IsStrictlyIncreasing};
ghost use Rattle.std.specs.List.{count_by};
ghost use Rattle.hp_model.specs.Lists.{distinct, is_among};
ghost use Rattle.hp_lookup.specs.Table.{AreLike, IsForgottenIn, IsGap, IsGoneIn, IsNotedIn, IsPlace, IsWith, numbers_at};

use crate::map_tag::MapTag;
use crate::task_maps::TaskMaps;
use std::alloc::{AllocError, Global};
use std::cell::Cell;
use std::marker::Model;

// Where tasks stand is noted at so many places at least.
const FEW: usize = 16;

/// The tasks that have maps, in order of their numbers, each with its maps. By the last bits of a task's number it is noted where
/// the task stands, which is looked at and never trusted. There are more such places than tasks.
///
/// A task is found in one step, or else in some twelve, whichever numbers there are. Contracts see the tasks, the numbers of the
/// maps of each, and for how many more tasks there is room.
pub struct MapTable {
    alloc: Global,
    tasks: Vec<u64>,
    maps: Vec<TaskMaps>,
    near: Vec<Cell<u16>>,
}

impl Model for MapTable {
    ghost use Rattle.std.specs.Prelude.{◌-◌, min, vec_capacity, vec_len};
    ghost use Rattle.hp_lookup.specs.Table.{IsTable, TaskNumbers};

    ghost Value = { TaskNumbers };

    ghost view = { λ t. record {
      tasks = t.tasks.items;
      maps = t.maps.items;
      room = min (vec_capacity t.tasks - vec_len t.tasks) (vec_capacity t.maps - vec_len t.maps);
    } };

    ghost invariant = { λ t. IsTable t.tasks.items t.maps.items };
}

// What drops one calls this, and need not know what it holds.
impl Drop for MapTable {
    fn drop(self) {
        let MapTable {
            alloc: _,
            tasks: _tasks,
            maps: _maps,
            near: _near,
        } = self;
    }
}

// Where it is noted where a task stands.
fn noted_at(near: &[Cell<u16>], task: u64) -> Option<&Cell<u16>> {
    near.get(task as usize & near.len().wrapping_sub(1))
}

// Notes where a task stands.
fn note_place(near: &[Cell<u16>], task: u64, at: usize) {
    if let Some(noted) = noted_at(near, task) {
        noted.set(at.min(u16::MAX as usize) as u16);
    }
}

// Where a task is, or would be.
fn place_of(tasks: &[u64], near: &[Cell<u16>], task: u64) -> Result<usize, usize>
    requires { IsStrictlyIncreasing tasks.now }
    ensures ok { IfOk result (IsPlace tasks.now task) }
    ensures err { IfErr result (IsGap tasks.now task) }
{
    if let Some(noted) = noted_at(near, task) {
        let at = noted.get() as usize;
        if at < tasks.len() && tasks[at] == task {
            return Ok(at);
        }
    }
    let found = tasks.binary_search(&task);
    if let Ok(at) = found {
        note_place(near, task, at);
    }
    found
}

// So many places, which tell nothing yet. Refused where memory is.
fn no_places(alloc: Global, count: usize) -> Result<Vec<Cell<u16>>, AllocError> {
    let mut near = Vec::with_capacity(alloc, count)?;
    while near.len() < count {
        near.push_reserved(Cell::new(0));
    }
    Ok(near)
}

impl MapTable {
    /// No task has a map. Takes no memory.
    pub fn new(alloc: Global) -> Self
        ensures { (task : ℕ) → numbers_at task result ≡ [] }
    {
        MapTable {
            alloc,
            tasks: Vec::new(alloc),
            maps: Vec::new(alloc),
            near: Vec::new(alloc),
        }
    }

    /// How many tasks have maps.
    pub fn len(&self) -> usize
        ensures { (tasks : List ℕ) → ((task : ℕ) → length (numbers_at task self.now)
            ≡ count_by (λ t. t == task) tasks)
            → result ≡ length (distinct tasks) }
    {
        self.tasks.len()
    }

    /// How many maps a task has.
    pub fn count(&self, task: u64) -> u64
        ensures { result ≡ length (numbers_at task self.now) }
    {
        match place_of(&self.tasks, &self.near, task) {
            Ok(at) => self.maps[at].len() as u64,
            Err(_) => 0,
        }
    }

    /// The tag of the task's map of that number.
    #[inline(always)]
    pub fn find(&self, task: u64, number: u64) -> Option<&Cell<MapTag>>
        ensures { IfNone result (is_among number (numbers_at task self.now) ≡ false) }
    {
        match place_of(&self.tasks, &self.near, task) {
            Ok(at) => self.maps[at].find(number),
            Err(_) => None,
        }
    }

    /// The least number from 1 on that none of the task's maps has.
    pub fn least_unused(&self, task: u64) -> u64
        ensures one { 1 ≤ result }
        ensures used { (k : ℕ) → 1 ≤ k → k < result → is_among k (numbers_at task self.now) ≡ true }
        ensures free { is_among result (numbers_at task self.now) ≡ false }
    {
        match place_of(&self.tasks, &self.near, task) {
            Ok(at) => self.maps[at].least_unused(),
            Err(_) => 1,
        }
    }

    /// The number of one of the task's maps, by its place among them.
    pub fn nth(&self, task: u64, map: usize) -> Option<u64> {
        match place_of(&self.tasks, &self.near, task) {
            Ok(at) => self.maps[at].nth(map),
            Err(_) => None,
        }
    }

    /// The numbers and tags of a task's maps, for another task. Refused where memory is.
    pub fn copy_of(&self, task: u64) -> Result<TaskMaps, AllocError>
        ensures { IfOk result (λ copy. copy ≡ numbers_at task self.now) }
    {
        match place_of(&self.tasks, &self.near, task) {
            Ok(at) => self.maps[at].copy(self.alloc),
            Err(_) => Ok(TaskMaps::new(self.alloc)),
        }
    }

    /// Makes room for a task more. Refused where memory is.
    pub fn make_room(&mut self) -> Result<(), AllocError>
        ensures tasks { self.new.tasks ≡ self.old.tasks }
        ensures maps { self.new.maps ≡ self.old.maps }
        ensures ok { OnOk result (0 < self.new.room) }
    {
        if self.near.len() <= self.tasks.len() {
            self.near = no_places(self.alloc, self.tasks.len().saturating_mul(2).max(FEW))?;
        }
        self.tasks.reserve(1)?;
        self.maps.reserve(1)?;
        Ok(())
    }

    // Puts a task's maps in. It takes no memory: there is room.
    fn insert(&mut self, at: usize, task: u64, maps: TaskMaps)
        requires gap { IsGap self.old.tasks task at }
        requires some { 0 < length maps }
        requires room { 0 < self.old.room }
        ensures { IsWith task maps self.old self.new }
    {
        let _ = self.tasks.insert(at, task);
        let _ = self.maps.insert(at, maps);
        note_place(&self.near, task, at);
    }

    /// Puts the maps of a task in that has none. It takes no memory: there is room.
    pub fn put(&mut self, task: u64, maps: TaskMaps)
        requires none { numbers_at task self.old ≡ [] }
        requires room { 0 < self.old.room }
        ensures { IsWith task maps self.old self.new }
    {
        if maps.len() == 0 {
            return;
        }
        if let Err(at) = place_of(&self.tasks, &self.near, task) {
            self.insert(at, task, maps);
        }
    }

    /// Notes a map. Refused where memory is, and then nothing changes but the room.
    pub fn note(&mut self, task: u64, number: u64, tag: MapTag) -> Result<(), AllocError>
        requires { 1 ≤ number }
        ensures ok { OnOk result (IsNotedIn task number self.old self.new) }
        ensures err { OnErr result (AreLike self.old self.new) }
    {
        match place_of(&self.tasks, &self.near, task) {
            Ok(at) => self.maps[at].note(number, tag),
            Err(at) => {
                self.make_room()?;
                let mut maps = TaskMaps::new(self.alloc);
                maps.note(number, tag)?;
                self.insert(at, task, maps);
                Ok(())
            }
        }
    }

    /// Forgets the maps of a task.
    pub fn forget_task(&mut self, task: u64)
        ensures { IsGoneIn task self.old self.new }
    {
        if let Ok(at) = place_of(&self.tasks, &self.near, task) {
            self.tasks.remove(at);
            self.maps.remove(at);
        }
    }

    /// Forgets a map.
    pub fn forget(&mut self, task: u64, number: u64)
        ensures { IsForgottenIn task number self.old self.new }
    {
        let Ok(at) = place_of(&self.tasks, &self.near, task) else {
            return;
        };
        self.maps[at].forget(number);
        if self.maps[at].len() == 0 {
            self.tasks.remove(at);
            self.maps.remove(at);
        }
    }
}
