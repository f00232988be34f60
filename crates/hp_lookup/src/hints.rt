//! What files and maps are found by.
ghost use Rattle.std.specs.Prelude.{◌≡◌, ◌==◌, ◌<◌, ◌≤◌, ℕ, List, false, length, slice_get, true, [], IfNone, IfOk, IsTrue, OnErr, OnOk, Some};
ghost use Rattle.std.specs.List.{count_by};
ghost use Rattle.hp_model.specs.Lists.{distinct};
ghost use Rattle.hp_lookup.specs.Hints.{AreSame, IsCopied, IsMoreBut, IsMoreByMap, IsMoreByName, has_key, is_noted_as, noted_numbers, tally_of};
ghost use Rattle.hp_lookup.specs.Leaving.{IsMoreButMap, IsMoreButMapsOf};

use crate::file_tag::FileTag;
use crate::map_table::MapTable;
use crate::map_tag::MapTag;
use crate::name::FileName;
use crate::name_query::NameQuery;
use crate::tagged::Tagged;
use crate::task_maps::TaskMaps;
use indexmap::IndexMap;
use std::alloc::{AllocError, Global};
use std::cell::Cell;
use std::hash::Hash;
use std::marker::Model;

/// Where each file stood, with its tag, by its name, and each map by its task and number. What is found so is looked at, and
/// never trusted; but what was never noted, or was forgotten, is not there, and what is gone is forgotten. Contracts see what
/// is noted, and for how many more tasks there is room.
pub struct Hints {
    files: IndexMap<Tagged<FileName, FileTag>, ()>,
    // the place of the name that was found last: a name is looked for right before it is forgotten
    found: Cell<usize>,
    maps: MapTable,
}

impl Model for Hints {
    ghost use Rattle.hp_lookup.specs.Hints.{Noted, names_of};

    ghost Value = { Noted };

    ghost view = { λ h. record { names = names_of h.files.entries; table = h.maps } };
}

// What drops one calls this, and need not know what it holds.
impl Drop for Hints {
    fn drop(self) {
        let Hints {
            files: _files,
            found: _found,
            maps: _maps,
        } = self;
    }
}

// Sets the tag of the key at a place of a table, which may have stood there before with another.
fn set_tag<K: Eq + Hash, T: Copy>(table: &IndexMap<Tagged<K, T>, ()>, at: usize, tag: T) {
    if let Some((noted, _)) = table.get_index(at) {
        noted.tag().set(tag);
    }
}

impl Hints {
    /// Nothing is noted. Takes no memory.
    pub fn new(alloc: Global) -> Self
        ensures names { result.names ≡ [] }
        ensures keys { (task : ℕ) → noted_numbers task result ≡ [] }
    {
        Hints {
            files: IndexMap::new(alloc),
            found: Cell::new(0),
            maps: MapTable::new(alloc),
        }
    }

    /// The tag of the file with the name, if it was noted. Whoever finds the file elsewhere may set it right. No memory is asked
    /// for.
    pub fn file(&self, name: &[u8]) -> Option<&Cell<FileTag>>
        ensures { IfNone result (is_noted_as name.now self.now ≡ false) }
    {
        match self.files.get_full(NameQuery { name }) {
            Some((at, noted, _)) => {
                self.found.set(at);
                Some(noted.tag())
            }
            None => None,
        }
    }

    /// The tag of the task's map of that number, if it was noted. Whoever finds the map elsewhere may set it right.
    pub fn map(&self, task: u64, number: u64) -> Option<&Cell<MapTag>>
        ensures { IfNone result (has_key task number self.now ≡ false) }
    {
        self.maps.find(task, number)
    }

    /// How many maps a task has.
    pub fn count(&self, task: u64) -> u64
        ensures { result ≡ tally_of self.now task }
    {
        self.maps.count(task)
    }

    /// How many tasks have maps.
    pub fn task_count(&self) -> usize
        ensures { (tasks : List ℕ) → ((task : ℕ) → tally_of self.now task
            ≡ count_by (λ t. t == task) tasks)
            → result ≡ length (distinct tasks) }
    {
        self.maps.len()
    }

    /// The least number from 1 on that none of the task's maps has. It is found in some twelve steps.
    pub fn least_unused(&self, task: u64) -> u64
        ensures one { 1 ≤ result }
        ensures used { (k : ℕ) → 1 ≤ k → k < result → has_key task k self.now ≡ true }
        ensures free { has_key task result self.now ≡ false }
    {
        self.maps.least_unused(task)
    }

    /// The number of one of the task's maps, by its place among them.
    pub fn nth(&self, task: u64, map: usize) -> Option<u64> {
        self.maps.nth(task, map)
    }

    /// Notes a file's tag. Refused where memory is, and then nothing changes.
    pub fn note_file(&mut self, name: FileName, tag: FileTag) -> Result<(), AllocError>
        ensures more { IsMoreByName name self.old self.new }
        ensures err { OnErr result (self.new ≡ self.old) }
        ensures noted { OnOk result (is_noted_as name self.new ≡ true) }
    {
        let key = Tagged::new(name, tag);
        let Ok((at, _)) = self.files.insert_full(key, ()) else {
            return Err(AllocError);
        };
        set_tag(&self.files, at, tag);
        Ok(())
    }

    // Whether the name stands at a place.
    fn is_noted_at(&self, at: usize, name: &[u8]) -> bool
        ensures { IsTrue result → slice_get self.now.names at ≡ Some name.now }
    {
        match self.files.get_index(at) {
            Some((noted, _)) => noted.key().as_slice() == name,
            None => false,
        }
    }

    /// Forgets the file with the name: it is noted no more. No memory is asked for.
    pub fn forget_file(&mut self, name: &[u8])
        ensures { IsMoreBut name.now self.old self.new }
    {
        let at = self.found.get();
        if self.is_noted_at(at, name) {
            let _entry = self.files.swap_remove_index(at);
        } else {
            let _noted = self.files.swap_remove(NameQuery { name });
        }
    }

    /// Notes a map's tag. Refused where memory is, and then nothing changes but the room.
    pub fn note_map(&mut self, task: u64, number: u64, tag: MapTag) -> Result<(), AllocError>
        requires { 1 ≤ number }
        ensures ok { OnOk result (IsMoreByMap task number self.old self.new) }
        ensures err { OnErr result (AreSame self.old self.new) }
    {
        self.maps.note(task, number, tag)
    }

    /// Forgets the task's map of that number. No memory is asked for.
    pub fn forget_map(&mut self, task: u64, number: u64)
        ensures { IsMoreButMap task number self.old self.new }
    {
        self.maps.forget(task, number);
    }

    /// Forgets the task's maps. No memory is asked for.
    pub fn forget_maps_of(&mut self, task: u64)
        ensures { IsMoreButMapsOf task self.old self.new }
    {
        self.maps.forget_task(task);
    }

    /// The numbers and tags of a task's maps, for another task. Refused where memory is.
    pub fn copy_of(&self, task: u64) -> Result<TaskMaps, AllocError>
        ensures { IfOk result (λ copy. copy ≡ noted_numbers task self.now) }
    {
        self.maps.copy_of(task)
    }

    /// Makes room for a task more. Refused where memory is.
    pub fn make_room(&mut self) -> Result<(), AllocError>
        ensures same { AreSame self.old self.new }
        ensures ok { OnOk result (0 < self.new.table.room) }
    {
        self.maps.make_room()
    }

    /// Notes the maps of a task that has none. It takes no memory: there is room.
    pub fn put(&mut self, task: u64, maps: TaskMaps)
        requires none { noted_numbers task self.old ≡ [] }
        requires room { 0 < self.old.table.room }
        ensures { IsCopied task maps self.old self.new }
    {
        self.maps.put(task, maps);
    }
}
