//! Where maps and files stand.
ghost use Rattle.std.specs.Prelude.{◌≡◌, None, IfSome, IfNone, IsTrue};
ghost use Rattle.std.specs.List.{position_or_len};
ghost use Rattle.hp_model.specs.Lists.{found};
ghost use Rattle.hp_model.specs.machine.SlotEvent.{has_name};
ghost use Rattle.hp_lookup.specs.Places.{has_it, IsFound, IsMissing, IsNamed};

use super::Files;
use crate::lookup::Lookup;
use hp_lookup::{FileTag, MapPlace, MapTag};
use hp_model::naming::Naming;
use std::cell::Cell;

// A map is looked for at so many places before the one where it stood, before it is searched for.
const NEAR: usize = 3;

impl<N: Naming> Files<N> {
    // The place of the file with the task's map of that number, or how many files there are.
    fn file_with(&self, task: u64, number: u64) -> usize
        ensures { result ≡ position_or_len (has_it task number) self.now.files }
    {
        let files = &self.list;
        for at in 0..files.len() {
            if files[at].has_map(task, number) {
                return at;
            }
        }
        files.len()
    }

    // The place of the task's map of that number, found by going over the files.
    fn find_among_all(&self, task: u64, number: u64) -> Option<MapPlace>
        ensures some { IfSome result (λ at. IsFound self.now.files task number at.file at.map) }
        ensures none { IfNone result (IsMissing self.now.files task number) }
    {
        let file = self.file_with(task, number);
        if file < self.list.len() {
            let map = self.list[file].place_of(task, number);
            Some(MapPlace { file, map })
        } else {
            None
        }
    }

    // Whether the task's map of that number stands at a place.
    fn is_map_at(&self, at: MapPlace, task: u64, number: u64) -> bool
        ensures { IsTrue result → IsFound self.now.files task number at.file at.map }
    {
        if at.file >= self.list.len() {
            return false;
        }
        self.list[at.file].is_map_at(at.map, task, number)
    }

    // Where the map with a tag stands in a file, if both are there.
    fn map_tagged(&self, file: usize, tag: u64) -> MapPlace {
        let map = if file < self.list.len() {
            self.list[file].map_tagged(tag)
        } else {
            0
        };
        MapPlace { file, map }
    }

    // The place of the task's map of that number, if it stands at a place or at one of a few before it in the file.
    fn find_near(&self, at: MapPlace, task: u64, number: u64) -> Option<MapPlace>
        ensures { IfSome result (λ at. IsFound self.now.files task number at.file at.map) }
    {
        for map in (at.map.saturating_sub(NEAR)..at.map.saturating_add(1)).rev() {
            let near = MapPlace { map, ..at };
            if self.is_map_at(near, task, number) {
                return Some(near);
            }
        }
        None
    }

    // The place of a map that does not stand where it is noted, which is noted then. Mostly its file alone moved.
    #[inline(never)]
    fn find_moved(&self, hint: &Cell<MapTag>, task: u64, number: u64) -> Option<MapPlace>
        ensures some { IfSome result (λ at. IsFound self.now.files task number at.file at.map) }
        ensures none { IfNone result (IsMissing self.now.files task number) }
    {
        let tag = hint.get();
        let at = tag.place();
        let file = self.list.tagged_near(at.file, tag.file());
        if let Some(near) = self.find_near(MapPlace { file, ..at }, task, number) {
            hint.set(tag.moved_to(near));
            return Some(near);
        }
        let at = self.map_tagged(file, tag.map());
        if self.is_map_at(at, task, number) {
            hint.set(tag.moved_to(at));
            return Some(at);
        }
        self.find_among_all(task, number)
    }

    // The place of the file with the name, found by going over the files.
    fn named_among_all(&self, name: &[u8]) -> Option<usize>
        ensures some { IfSome result (λ at. IsNamed self.now.files name.now at) }
        ensures none { IfNone result (found (has_name name.now) self.now.files ≡ None) }
    {
        let files = &self.list;
        for at in 0..files.len() {
            if files[at].is_named(name) {
                return Some(at);
            }
        }
        None
    }

    // Whether the file with the name stands at a place.
    fn is_file_at(&self, at: usize, name: &[u8]) -> bool
        ensures { IsTrue result → IsNamed self.now.files name.now at }
    {
        if at >= self.list.len() {
            return false;
        }
        self.list[at].is_named(name)
    }
}

impl<N: Naming> Lookup for Files<N> {
    ghost seen = { λ f. f };

    #[inline(always)]
    fn find(&self, task: u64, number: u64) -> Option<MapPlace> {
        let Some(hint) = self.hints.map(task, number) else {
            return None;
        };
        let tag = hint.get();
        let at = tag.place();
        if let Some(file) = self.list.tagged_at(at.file, tag.file()) {
            if file.is_map_at(at.map, task, number) {
                return Some(at);
            }
        }
        self.find_moved(hint, task, number)
    }

    fn named(&self, name: &[u8]) -> Option<usize> {
        let Some(hint) = self.hints.file(name) else {
            return None;
        };
        let tag = hint.get();
        let at = tag.at();
        if let Some(file) = self.list.tagged_at(at, tag.tag()) {
            if file.is_named(name) {
                return Some(at);
            }
        }
        let at = self.list.tagged(tag.tag());
        if self.is_file_at(at, name) {
            hint.set(FileTag::new(at, tag.tag()));
            return Some(at);
        }
        self.named_among_all(name)
    }
}
