//! The indices of a file that has entries, or was to have some.
ghost use Rattle.std.specs.Prelude.{ℕ, ◌≡◌, ◌+◌, ◌*◌, ◌/◌, ◌<◌, ◌≤◌, ◌^◌, [], length, drop, OnOk, OnErr, false};
ghost use Rattle.std.specs.List.{slice_set, count_by, All};
ghost use Rattle.hp_model.specs.files.File.{is_entered, is_hole, has_page, page_of, entered, at_least, cell_in, cells_to};
ghost use Rattle.hp_model.specs.Lists.{edit_range, part};
ghost use Rattle.hp_model.specs.declared.cell.Cell.TheVariants.{Hole, Entered, Present};
ghost use Rattle.hp_inode.specs.Kept.{cells_of};
ghost use Rattle.hp_inode.specs.Taking.{TakesPage};

use crate::block::BLOCK;
use crate::entries::Entries;
use crate::table::PageTable;
use hp_model::page_no::PageNo;
use std::alloc::{AllocError, Global};
use std::marker::Model;

/// A file's length, which of its indices are entered, and their pages; and a range that can be entered with no memory.
/// Contracts see the list of its cells, and the range. The methods that `Inode` has are as it says of them.
pub(crate) struct Indices {
    len: u64,
    pub(crate) table: PageTable,
    // how many indices are entered, and how many of these have a page
    count: u64,
    pages: u64,
    pub(crate) entries: Entries,
    // the range that can be entered: none after a change of the entries
    from: u64,
    to: u64,
    // a block whose tables stay when it has no entry
    spare: u64,
}

impl Model for Indices {
    ghost use Rattle.hp_inode.specs.Kept.{cells_of};
    ghost use Rattle.hp_inode.specs.Ready.{Ready, IsReady};

    ghost Value = { Ready };

    ghost view = { λ f. record {
      cells = cells_of f.len f.entries f.table;
      from = f.from;
      to = f.to;
    } };

    ghost invariant = { λ f. IsReady f.len f.count f.pages f.entries f.table f.from f.to };
}

// What drops one calls this, and need not know what it holds.
impl Drop for Indices {
    fn drop(self) {
        let Indices {
            len: _len,
            table: _table,
            count: _count,
            pages: _pages,
            entries: _entries,
            from: _from,
            to: _to,
            spare: _spare,
        } = self;
    }
}

impl Indices {
    /// `len` holes.
    pub fn new(alloc: Global, len: u64) -> Self
        requires { len < 2 ^ 32 }
        ensures { result.cells ≡ cells_of len [] [] }
    {
        Indices {
            len,
            count: 0,
            pages: 0,
            entries: Entries::new(alloc),
            table: PageTable::new(alloc),
            from: 0,
            to: 0,
            spare: 0,
        }
    }

    pub fn len(&self) -> u64
        ensures len { result ≡ length self.now.cells }
        ensures small { result < 2 ^ 32 }
    {
        self.len
    }

    pub fn entry_count(&self) -> u64
        ensures { result ≡ count_by is_entered self.now.cells }
    {
        self.count
    }

    pub fn page_count(&self) -> u64
        ensures { result ≡ count_by has_page self.now.cells }
    {
        self.pages
    }

    pub fn pages_within(&self, a: u64, b: u64) -> u64
        requires { b ≤ length self.now.cells }
        ensures { result ≡ count_by has_page (part a b self.now.cells) }
    {
        self.table.count(a, b)
    }

    pub fn missing(&self, a: u64, b: u64) -> u64
        requires { b ≤ length self.now.cells }
        ensures { result ≡ count_by is_hole (part a b self.now.cells) }
    {
        self.entries.missing(a, b)
    }

    pub fn fill(&mut self, i: u64, page: PageNo)
        requires { cell_in self.old.cells i ≡ Entered }
        ensures { self.new.cells ≡ slice_set self.old.cells i (Present page) }
    {
        self.table.fill(i, page);
        self.pages += 1;
    }

    pub fn reserve_range(&mut self, a: u64, b: u64) -> Result<(), AllocError>
        requires { b ≤ length self.old.cells }
        ensures ok { OnOk result (self.new.cells ≡ edit_range entered a b self.old.cells) }
        ensures err { OnErr result (self.new.cells ≡ self.old.cells) }
    {
        // it is below 2^32, and so is b
        let _ = &self.len;
        if b.saturating_sub(a) == 1 {
            return self.reserve(a);
        }
        self.prepare(a, b)?;
        self.enter();
        Ok(())
    }

    // Enters one index, and makes the room for its page.
    #[inline(always)]
    fn reserve(&mut self, i: u64) -> Result<(), AllocError>
        requires { i < length self.old.cells }
        ensures ok { OnOk result (self.new.cells
            ≡ edit_range entered i (i + 1) self.old.cells) }
        ensures err { OnErr result (self.new.cells ≡ self.old.cells) }
    {
        self.to = 0;
        self.table.make_slot(i)?;
        let fresh = self.entries.enter(i)?;
        self.count += u64::from(fresh);
        Ok(())
    }

    /// Makes the room to enter the indices from `a` up to `b`, past the end too. At an error the cells are as they were.
    pub fn prepare(&mut self, a: u64, b: u64) -> Result<(), AllocError>
        requires { b < 2 ^ 32 }
        ensures ok { OnOk result (self.new ≡ record { cells = self.old.cells; from = a; to = b }) }
        ensures err { OnErr result (self.new.cells ≡ self.old.cells) }
    {
        self.to = 0;
        self.table.make_slots(a, b)?;
        self.entries.make_room(a, b)?;
        self.from = a;
        self.to = b;
        Ok(())
    }

    /// Enters the range, which makes the file longer where it reaches past the end.
    pub fn enter(&mut self)
        ensures { self.new.cells ≡ edit_range entered self.old.from self.old.to
            (at_least self.old.to self.old.cells) }
    {
        let (from, to) = (self.from, self.to);
        self.to = 0;
        let missing = self.entries.missing(from, to);
        self.entries.add(from, to);
        self.len = self.len.max(to);
        self.count += missing;
    }

    pub fn set_len(&mut self, len: u64)
        requires small { len < 2 ^ 32 }
        requires holes { All (λ cell. cell ≡ Hole) (drop len self.old.cells) }
        ensures { self.new.cells ≡ cells_to len self.old.cells }
    {
        self.len = len;
    }

    pub fn lengthen(&mut self, len: u64)
        requires { len < 2 ^ 32 }
        ensures { self.new.cells ≡ at_least len self.old.cells }
    {
        self.len = self.len.max(len);
    }

    pub fn take_page(&mut self, a: u64, b: u64) -> Option<PageNo>
        ensures { TakesPage a b self.old.cells self.new.cells result }
    {
        let page = self.take_next(a, b);
        if page.is_none() {
            self.settle(a, b);
        }
        page
    }

    // The same, with tables that stay.
    #[inline(always)]
    fn take_next(&mut self, a: u64, b: u64) -> Option<PageNo>
        ensures { TakesPage a b self.old.cells self.new.cells result }
    {
        let (i, page) = self.table.take_first(a, b)?;
        self.pages -= 1;
        self.drop_entry(i);
        Some(page)
    }

    // Makes an index that is entered, and has no page, a hole.
    #[inline(always)]
    fn drop_entry(&mut self, i: u64)
        requires { cell_in self.old.cells i ≡ Entered }
        ensures { self.new.cells ≡ edit_range (λ cell. Hole) i (i + 1) self.old.cells }
    {
        self.to = 0;
        self.entries.take_out(i);
        self.count -= 1;
    }

    pub fn drop_entries(&mut self, a: u64, b: u64) -> u64
        requires within { b ≤ length self.old.cells }
        requires pageless { All (λ cell. has_page cell ≡ false) (part a b self.old.cells) }
        ensures count { result ≡ count_by is_entered (part a b self.old.cells) }
        ensures cells { self.new.cells ≡ edit_range (λ cell. Hole) a b self.old.cells }
    {
        self.to = 0;
        let count = self.entries.remove(a, b);
        self.count -= count;
        self.settle(a, b);
        count
    }

    /// Leaves the range that can be entered.
    pub fn leave(&mut self)
        ensures { self.new.cells ≡ self.old.cells }
    {
        self.settle(self.from, self.to);
    }

    // Sees to the blocks from the index `a` up to `b` that have no entry.
    fn settle(&mut self, a: u64, b: u64)
        ensures { self.new.cells ≡ self.old.cells }
    {
        let end = b.div_ceil(BLOCK).min(self.entries.blocks());
        for at in a / BLOCK..end {
            if self.entries.is_spent(at) {
                self.spend(at);
            }
        }
    }

    // The tables of a block without an entry stay for the next one, and those of the block that stayed before are given back.
    fn spend(&mut self, at: u64)
        ensures { self.new.cells ≡ self.old.cells }
    {
        if at != self.spare {
            self.give_back(self.spare);
            self.spare = at;
        }
    }

    // Gives a block's tables back where it has no entry.
    fn give_back(&mut self, at: u64)
        ensures { self.new.cells ≡ self.old.cells }
    {
        if self.entries.is_spent(at) {
            self.to = 0;
            self.entries.give_back(at);
            self.table.give_back(at);
        }
    }
}
