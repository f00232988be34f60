//! A child's maps of a file.
ghost use Rattle.std.specs.Prelude.{◌≡◌, ◌++◌, ◌^◌, ◌+◌, ◌≤◌, ℕ, length, vec_capacity, IfOk};
ghost use Rattle.hp_lookup.specs.Forking.{HasRoom, IsReady, children_of, in_list, list_copies, with_list};
ghost use Rattle.hp_file.specs.ForkLists.{IsAmong};
ghost use Rattle.hp_file.specs.HeldPages.{AreHeld, AreShared};

use super::File;
use crate::forking::{children, share_all};
use crate::held_pages::HeldPages;
use hp_lookup::{FileTag, Hints, MapPlace, MapTag, Tags};
use hp_mapping::Mapping;
use hp_model::naming::Naming;
use std::alloc::{AllocError, Global};

impl File {
    /// The maps that a child gets for those of a parent, in a list that has room for all the file's maps.
    pub fn children(
        &self,
        alloc: Global,
        tags: &mut Tags,
        parent: u64,
        child: u64,
    ) -> Result<Vec<Mapping>, AllocError>
        ensures { IfOk result (IsReady parent child self.now) }
    {
        let list = children(&self.maps, alloc, tags, parent, child)?;
        Ok(list)
    }

    /// The same for the parent's maps at some places that rise, up to the first that is no such place.
    pub fn children_at(
        &self,
        places: &[MapPlace],
        alloc: Global,
        tags: &mut Tags,
        parent: u64,
        child: u64,
    ) -> Result<Vec<Mapping>, AllocError>
        ensures among { IfOk result (λ list.
            IsAmong list.items (children_of parent child self.now.maps)) }
        ensures room { IfOk result (HasRoom self.now) }
    {
        let mut list = Vec::with_capacity(alloc, places.len() + self.maps.len())?;
        let mut next = 0;
        for at in places {
            if at.map < next || at.map >= self.map_count() {
                break;
            }
            let map = self.map(at.map);
            if map.task() != parent {
                break;
            }
            list.push_reserved(map.fork_for(tags.take(), child)?);
            next = at.map + 1;
        }
        Ok(list)
    }

    /// Maps come behind its own, and each of their copies has a holder more. Where the file has no memory for them, it takes the
    /// list's.
    pub fn join<N: Naming>(&mut self, mut list: Vec<Mapping>, pages: &mut HeldPages<N>)
        requires room { length list.items + length self.old.maps ≤ vec_capacity list }
        requires held { AreHeld (λ n. in_list n list.items) pages.old }
        requires few { pages.old.more + list_copies list.items ≤ 2 ^ 32 }
        ensures file { self.new ≡ with_list self.old list.items }
        ensures sharing { AreShared (λ n. in_list n list.items) (list_copies list.items) pages.old
            pages.new }
    {
        share_all(&list, pages);
        if self.maps.append(&mut list).is_ok() {
            return;
        }
        let added = list.len();
        list.append(&mut self.maps).unwrap();
        list.rotate_left(added);
        self.maps = list;
    }

    /// The file stands at a place: notes where its maps from one on stand, which are of a task that has been put among the hints,
    /// and their tags.
    pub fn note_maps(&self, task: u64, from: usize, file: FileTag, hints: &Hints) {
        for map in from..self.maps.len() {
            let mapping = &self.maps[map];
            let at = MapPlace {
                file: file.at(),
                map,
            };
            if let Some(noted) = hints.map(task, mapping.number()) {
                noted.set(MapTag::new(at, file.tag(), mapping.tag()));
            }
        }
    }
}
