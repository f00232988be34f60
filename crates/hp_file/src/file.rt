//! A file, with its pages by number.
ghost use Rattle.std.specs.Prelude.{◌≡◌, ◌^◌, ◌-◌, drop, take, ◌≤◌, ℕ, true, ◌+◌, ◌<◌, length, slice_set, None, Some, IfNone, IfSome, [], OnOk, OnErr, IsTrue};
ghost use Rattle.hp_model.specs.declared.cell.Cell.TheVariants.{Hole, Entered, Present};
ghost use Rattle.std.specs.List.{list_any, position_or_len, slice_index_or};
ghost use Rattle.hp_model.specs.files.Mapping.{is_map};
ghost use Rattle.hp_file.specs.HeldPages.{AreDropped, AreHeld};
ghost use Rattle.hp_lookup.specs.Held.{in_file};
ghost use Rattle.hp_model.specs.files.MountCounts.{is_waiting};
ghost use Rattle.hp_lookup.specs.Keyed.{is_name_of};
ghost use Rattle.hp_lookup.specs.Numbered.{mapping_at, with_punched, with_truncated};
ghost use Rattle.hp_model.specs.files.File.{at_least, cell_in, has_page, is_hole, page_of, is_entered};
ghost use Rattle.hp_model.specs.Profile.{most_name_bytes};
ghost use Rattle.std.specs.List.{count_by};

mod adding;
mod copies;
mod filling;
mod forking;
mod leaving;

use crate::dropping::{drop_all_copies, drop_maps, drop_pages};
use crate::held_pages::HeldPages;
pub use filling::word_end;
use hp_inode::Inode;
use hp_lookup::FileName;
use hp_mapping::Mapping;
use hp_model::naming::Naming;
use hp_model::page_no::PageNo;
use std::alloc::{AllocError, Global};
use std::marker::Model;

/// What stands at an index of a file.
#[derive(Clone, Copy, Debug, PartialEq, Eq)]
pub enum CellState {
    Hole,
    Entered,
    Present,
}

/// A file: its maps in order of making, its indices with their pages' numbers, and its name if it has one. What an access looks
/// at stands first.
pub struct File {
    maps: Vec<Mapping>,
    inode: Inode,
    name: Option<FileName>,
}

impl Model for File {
    ghost use Rattle.hp_lookup.specs.Numbered.{NumberedFile};

    ghost Value = { NumberedFile };

    ghost view = { λ f. record {
      name = f.name;
      cells = f.inode;
      maps = f.maps.items;
    } };
}

// What drops one calls this, and need not know what it holds.
impl Drop for File {
    fn drop(self) {
        let File {
            maps: _maps,
            inode: _inode,
            name: _name,
        } = self;
    }
}

impl File {
    // Inlined, so that the name is not moved on the way.
    #[inline(always)]
    pub fn new(alloc: Global, name: Option<FileName>) -> Self
        ensures { result ≡ record { name = name; cells = []; maps = [] } }
    {
        File {
            maps: Vec::new(alloc),
            inode: Inode::new(alloc),
            name,
        }
    }

    /// Where a map with the tag stands, if it is there.
    pub fn map_tagged(&self, tag: u64) -> usize {
        self.maps.partition_point(|m| m.tag() < tag)
    }

    /// Ends the file with its maps. What they hold goes. Answers how many entries without a page it had.
    pub fn close<N: Naming>(self, pages: &mut HeldPages<N>) -> u64
        requires { AreHeld (λ n. in_file n self) pages.old }
        ensures dropping { AreDropped (λ n. in_file n self) (λ n. 0) pages.old pages.new }
        ensures entries { result ≡ count_by is_waiting self.cells }
    {
        let File {
            name: _,
            mut inode,
            maps,
        } = self;
        let len = inode.len();
        drop_pages(&mut inode, 0, len, pages);
        drop_maps(&maps, pages);
        inode.drop_entries(0, len)
    }

    /// Takes the name away.
    pub fn drop_name(&mut self)
        ensures { self.new ≡ record self.old { name = None } }
    {
        self.name = None;
    }

    /// The pages of the indices from `a` up to `b` go with their entries, and so do private copies of them. Entries
    /// without a page stay.
    pub fn punch<N: Naming>(&mut self, a: u64, b: u64, pages: &mut HeldPages<N>)
        requires { AreHeld (λ n. in_file n self.old) pages.old }
        ensures file { self.new ≡ with_punched a b self.old }
        ensures dropping { AreDropped (λ n. in_file n self.old)
            (λ n. in_file n self.new) pages.old pages.new }
    {
        drop_pages(&mut self.inode, a, b, pages);
        drop_all_copies(&mut self.maps, a, b, pages);
    }

    /// Makes the file `len` indices long. Pages, entries and private copies from there on go. Answers how many entries
    /// without a page went.
    pub fn truncate<N: Naming>(&mut self, len: u64, pages: &mut HeldPages<N>) -> u64
        requires held { AreHeld (λ n. in_file n self.old) pages.old }
        requires small { len < 2 ^ 32 }
        ensures file { self.new ≡ with_truncated len self.old }
        ensures dropping { AreDropped (λ n. in_file n self.old)
            (λ n. in_file n self.new) pages.old pages.new }
        ensures entries { result ≡ count_by is_waiting (drop len self.old.cells) }
    {
        let end = self.inode.len();
        self.punch(len, len + end, pages);
        let inode = &mut self.inode;
        let entries = inode.drop_entries(len.min(end), end);
        inode.set_len(len);
        entries
    }

    pub fn len(&self) -> u64
        ensures { result ≡ length self.now.cells }
    {
        self.inode.len()
    }

    /// How many indices have a page.
    pub fn page_count(&self) -> u64
        ensures { result ≡ count_by has_page self.now.cells }
    {
        self.inode.page_count()
    }

    /// How many indices are entered, with a page or without.
    pub fn entry_count(&self) -> u64
        ensures { result ≡ count_by is_entered self.now.cells }
    {
        self.inode.entry_count()
    }

    pub fn page_at(&self, index: u64) -> Option<PageNo>
        ensures { result ≡ page_of (cell_in self.now.cells index) }
    {
        self.inode.page_at(index)
    }

    pub fn entered(&self, index: u64) -> bool
        ensures { result ≡ is_entered (cell_in self.now.cells index) }
    {
        self.inode.entered(index)
    }

    /// The page of an entered index.
    pub fn fill(&mut self, index: u64, number: PageNo)
        requires { cell_in self.old.cells index ≡ Entered }
        ensures { self.new ≡ record self.old {
          cells = slice_set self.old.cells index (Present number);
        } }
    {
        self.inode.fill(index, number);
    }

    // The index behind one below the length.
    fn after(&self, index: u64) -> u64
        requires { index < length self.now.cells }
        ensures { result ≡ index + 1 }
    {
        let len = self.inode.len();
        if index < len { index + 1 } else { len }
    }

    /// Enters an index that is a hole, and makes the room for its page and for its removal.
    pub fn enter(&mut self, index: u64) -> Result<(), AllocError>
        requires below { index < length self.old.cells }
        requires hole { cell_in self.old.cells index ≡ Hole }
        ensures ok { OnOk result (self.new ≡ record self.old {
          cells = slice_set self.old.cells index Entered;
        }) }
        ensures err { OnErr result (self.new ≡ self.old) }
    {
        let end = self.after(index);
        self.inode.reserve_range(index, end)?;
        Ok(())
    }

    /// An entered index without a page is a hole.
    pub fn leave(&mut self, index: u64)
        requires below { index < length self.old.cells }
        requires entered { cell_in self.old.cells index ≡ Entered }
        ensures { self.new ≡ record self.old { cells = slice_set self.old.cells index Hole } }
    {
        let end = self.after(index);
        self.inode.drop_entries(index, end);
    }

    /// How many indices from `a` up to `b` have no entry. Past the end none has.
    pub fn missing(&self, a: u64, b: u64) -> u64
        requires { a ≤ b }
        ensures { result ≡ count_by is_hole (take (b - a) (drop a (at_least b self.now.cells))) }
    {
        let inode = &self.inode;
        let known = b.min(inode.len());
        inode.missing(a, known) + (b - known.max(a))
    }

    /// The place of the task's map of that number, or how many maps there are.
    pub fn place_of(&self, task: u64, number: u64) -> usize
        ensures { result ≡ position_or_len (is_map task number) self.now.maps }
    {
        let maps = self.maps.as_slice();
        maps.iter()
            .position(|m| is_map(m, task, number))
            .unwrap_or(maps.len())
    }

    /// The map at a place.
    pub fn map(&self, at: usize) -> &Mapping
        requires { at < length self.now.maps }
        ensures { result.now ≡ slice_index_or self.now.maps at result.now }
    {
        &self.maps[at]
    }

    /// Whether the task's map of that number stands at a place.
    pub fn is_map_at(&self, at: usize, task: u64, number: u64) -> bool
        ensures within { IsTrue result → at < length self.now.maps }
        ensures map { IsTrue result → is_map task number (mapping_at self.now at) ≡ true }
    {
        match self.maps.get(at) {
            Some(map) => is_map(map, task, number),
            None => false,
        }
    }

    /// How many maps it has.
    pub fn map_count(&self) -> usize
        ensures { result ≡ length self.now.maps }
    {
        self.maps.len()
    }

    /// The name, if it has one.
    pub fn name(&self) -> Option<&[u8]>
        ensures some { IfSome result (λ name. self.now.name ≡ Some name.now) }
        ensures few { IfSome result (λ name. length name.now ≤ most_name_bytes) }
        ensures none { IfNone result (self.now.name ≡ None) }
    {
        match &self.name {
            Some(name) => Some(name.as_slice()),
            None => None,
        }
    }

    pub fn is_named(&self, name: &[u8]) -> bool
        ensures { result ≡ is_name_of name.now self.now.name }
    {
        match &self.name {
            Some(own) => own.as_slice() == name,
            None => false,
        }
    }

    /// Whether it has the task's map of that number.
    pub fn has_map(&self, task: u64, number: u64) -> bool
        ensures { result ≡ list_any (is_map task number) self.now.maps }
    {
        self.maps.iter().any(|m| is_map(m, task, number))
    }
}

fn is_map(map: &Mapping, task: u64, number: u64) -> bool
    ensures { result ≡ is_map task number map.now }
{
    map.task() == task && map.number() == number
}
