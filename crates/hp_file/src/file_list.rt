//! Files in their order.
ghost use Rattle.std.specs.Prelude.{◌≡◌, ◌+◌, ◌<◌, ◌++◌, ◌∷◌, [], length, slice_index_or, IfNone, IfSome, OnOk, OnErr};
ghost use Rattle.std.specs.Borrow.{sem};
ghost use Rattle.std.specs.List.{filter, remove, slice_set};
ghost use Rattle.hp_lookup.specs.Leaving.{is_used};

use crate::File;
use hp_lookup::TaggedNumber;
use slab::Slab;
use std::alloc::{AllocError, Global};
use std::marker::Model;
use std::ops::{Index, IndexMut};

// A file is looked for at so many places, from the one where it stood down, and searched for in so many below these, before it
// is searched for in all.
const NEAR: usize = 16;

const FAR: usize = 64;

/// Files in order of creation. Each lies under a key that it keeps, so where a file goes, the words that say where the others lie
/// close up, and no other file is moved. A file that was made later has a greater tag, so that it is found by a binary search.
/// Contracts see the files, and for how many more there is room.
pub struct FileList {
    files: Slab<File>,
    order: Vec<TaggedNumber>,
}

impl Model for FileList {
    ghost use Rattle.hp_file.specs.FileList.{Listed, IsFileOrder, files_in, room_in};
    ghost use Rattle.std.specs.Prelude.{vec_capacity, vec_len};

    ghost Value = { Listed };

    ghost view = { λ l. record {
      files = files_in l.files l.order.items;
      room = room_in l.files (vec_len l.order) (vec_capacity l.order);
    } };

    ghost invariant = { λ l. IsFileOrder l.files l.order.items };
}

// What drops one calls this, and need not know what it holds.
impl Drop for FileList {
    fn drop(self) {
        let FileList {
            files: _files,
            order: _order,
        } = self;
    }
}

impl FileList {
    /// No file. Takes no memory.
    pub fn new(alloc: Global) -> Self
        ensures { result.files ≡ [] }
    {
        FileList {
            files: Slab::new(alloc),
            order: Vec::new(alloc),
        }
    }

    /// How many files there are.
    pub fn len(&self) -> usize
        ensures { result ≡ length self.now.files }
    {
        self.order.len()
    }

    /// Makes room for a file more. Refused where memory is, or where the next key has over 16 bits.
    pub fn make_room(&mut self) -> Result<(), AllocError>
        ensures same { self.new.files ≡ self.old.files }
        ensures ok { OnOk result (0 < self.new.room) }
    {
        if self.files.vacant_key() > u16::MAX as usize {
            return Err(AllocError);
        }
        self.files.reserve(1)?;
        self.order.reserve(1)?;
        Ok(())
    }

    /// Adds a file behind the others. It takes no memory: there is room.
    pub fn push(&mut self, file: File, tag: u64)
        requires { 0 < self.old.room }
        ensures { self.new.files ≡ self.old.files ++ file ∷ [] }
    {
        let number = self.files.insert_reserved(file) as u16;
        self.order.push_reserved(TaggedNumber::new(tag, number));
    }

    /// The tag of the file at a place.
    pub fn tag(&self, at: usize) -> u64
        requires { at < length self.now.files }
    {
        self.order[at].tag()
    }

    /// The file at a place, if it has the tag. One with another tag is not looked at.
    pub fn tagged_at(&self, at: usize, tag: u64) -> Option<&File>
        ensures within { IfSome result (λ file. at < length self.now.files) }
        ensures value { IfSome result (λ file. file.now
            ≡ slice_index_or self.now.files at file.now) }
    {
        match self.order.get(at) {
            Some(spot) if spot.tag() == tag => Some(&self.files[spot.number() as usize]),
            _ => None,
        }
    }

    /// Where a file with the tag stands, if it is there.
    pub fn tagged(&self, tag: u64) -> usize {
        self.order.partition_point(|spot| spot.tag() < tag)
    }

    /// Where the file with a tag stands, if it is there, that stood at a place: files move down alone, and most by a few places.
    pub fn tagged_near(&self, at: usize, tag: u64) -> usize {
        let order = self.order.as_slice();
        let end = order.len().min(at.saturating_add(1));
        for near in (end.saturating_sub(NEAR)..end).rev() {
            if order[near].tag() <= tag {
                return near;
            }
        }
        let near = end.saturating_sub(NEAR);
        let far = near.saturating_sub(FAR);
        if self.is_up_to(far, tag) {
            far + self.order[far..near].partition_point(|spot| spot.tag() < tag)
        } else {
            self.tagged(tag)
        }
    }

    // Whether there is a file at a place, whose tag is this one or less.
    fn is_up_to(&self, at: usize, tag: u64) -> bool {
        match self.order.get(at) {
            Some(spot) => spot.tag() <= tag,
            None => false,
        }
    }

    /// Takes a file out, and those behind it move down.
    pub fn remove(&mut self, at: usize) -> File
        requires { at < length self.old.files }
        ensures value { result ≡ slice_index_or self.old.files at result }
        ensures files { self.new.files ≡ remove self.old.files at }
    {
        let spot = self.order.remove(at);
        self.files.remove(spot.number() as usize)
    }

    /// Takes the last file out, if there is one.
    pub fn pop(&mut self) -> Option<File>
        ensures some { IfSome result (λ file. self.old.files ≡ self.new.files ++ file ∷ []) }
        ensures none { IfNone result (self.old.files ≡ []) }
    {
        let last = self.len().checked_sub(1)?;
        Some(self.remove(last))
    }

    /// Files without name and maps go, and the others move down.
    pub fn retain_used(&mut self)
        ensures { self.new.files ≡ filter is_used self.old.files }
    {
        let mut at = self.len();
        while at > 0 {
            at -= 1;
            if !self[at].is_used() {
                drop(self.remove(at));
            }
        }
    }
}

impl Index<usize> for FileList {
    type Output = File;

    ghost can_index = { λ l at. at < length l.files };

    ghost index_gives = { λ l at file. file ≡ slice_index_or l.files at file };

    fn index(&self, at: usize) -> &File {
        &self.files[self.order[at].number() as usize]
    }
}

impl IndexMut<usize> for FileList {
    ghost use Rattle.hp_file.specs.Lends.{LendsFile};

    fn index_mut(&mut self, at: usize) -> &mut File
        requires { at < length self.old.files }
        ensures* writes_back { sem 𝓛 (LendsFile self.entry at result) }
        ensures value { result.now ≡ slice_index_or self.old.files at result.now }
    {
        &mut self.files[self.order[at].number() as usize]
    }
}
