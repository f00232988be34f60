//! A file's indices: its length, which are entered, and their pages by number.
#![tactic(auto)]

ghost use Rattle.std.specs.Prelude.{ℕ, ◌≡◌, ◌+◌, ◌*◌, ◌/◌, ◌<◌, ◌≤◌, ◌^◌, [], length, drop, OnOk, OnErr, IfOk, IfErr, MatchOption, None, false};
ghost use Rattle.std.specs.List.{slice_set, count_by, All};
ghost use Rattle.hp_model.specs.files.File.{is_entered, is_hole, has_page, page_of, entered, at_least, cell_in, cells_to};
ghost use Rattle.hp_model.specs.Lists.{edit_range, part, found};
ghost use Rattle.hp_model.specs.declared.cell.Cell.TheVariants.{Hole, Entered, Present};

use form::Form;
use hp_model::page_no::PageNo;
use indices::Indices;
pub use ready::ReadyInode;
use std::alloc::{AllocError, Global};
use std::marker::Model;

mod bits;
mod block;
mod block_list;
mod chunk_list;
mod entries;
mod entry_block;
mod form;
mod indices;
mod page_block;
mod places;
mod ready;
mod table;

/// The indices of a file, each a hole, entered (a page is reserved for it), or entered with its page.
///
/// A file takes 16 bytes until its first entry, with which its tables are made, and again once it is cut to length 0. Contracts see the list of its cells.
/// Only `reserve_range` and `prepare` ask for memory.
pub struct Inode {
    alloc: Global,
    form: Form,
}

impl Model for Inode {
    ghost use Rattle.std.specs.Prelude.{List, ℕ};
    ghost use Rattle.hp_model.specs.declared.cell.Cell.{Cell};

    ghost Value = { List (Cell ℕ) };

    ghost use Rattle.hp_inode.specs.Form.{cells_in, IsForm};

    ghost view = { λ f. cells_in f.form };

    ghost invariant = { λ f. IsForm f.form };
}

// What drops one calls this, and need not know what it holds.
impl Drop for Inode {
    fn drop(self) {
        let Inode {
            alloc: _alloc,
            form: _form,
        } = self;
    }
}

impl Inode {
    /// A file of length 0.
    pub fn new(alloc: Global) -> Self
        ensures { result ≡ [] }
    {
        Inode {
            alloc,
            form: Form::Holes(0),
        }
    }

    // A file of some indices. It asks for memory where they did.
    #[inline(always)]
    fn kept(indices: Box<Indices>) -> Self
        ensures { result ≡ indices.value.cells }
    {
        Inode {
            alloc: *Box::allocator(&indices),
            form: Form::Kept(indices),
        }
    }

    /// The length in indices.
    #[inline(always)]
    pub fn len(&self) -> u64
        ensures len { result ≡ length self.now }
        ensures small { result < 2 ^ 32 }
    {
        match &self.form {
            Form::Holes(len) => *len,
            Form::Kept(indices) => indices.len(),
        }
    }

    /// The page of the index `i`, if it has one.
    pub fn page_at(&self, i: u64) -> Option<PageNo>
        ensures { result ≡ page_of (cell_in self.now i) }
    {
        match &self.form {
            Form::Holes(_) => None,
            Form::Kept(indices) => indices.table.page_at(i),
        }
    }

    /// Whether the index `i` is entered, with a page or without.
    pub fn entered(&self, i: u64) -> bool
        ensures { result ≡ is_entered (cell_in self.now i) }
    {
        match &self.form {
            Form::Holes(_) => false,
            Form::Kept(indices) => indices.entries.contains(i),
        }
    }

    /// How many indices are entered, with a page or without.
    pub fn entry_count(&self) -> u64
        ensures { result ≡ count_by is_entered self.now }
    {
        match &self.form {
            Form::Holes(_) => 0,
            Form::Kept(indices) => indices.entry_count(),
        }
    }

    /// How many indices have a page.
    pub fn page_count(&self) -> u64
        ensures { result ≡ count_by has_page self.now }
    {
        match &self.form {
            Form::Holes(_) => 0,
            Form::Kept(indices) => indices.page_count(),
        }
    }

    /// How many indices from `a` up to `b` have a page.
    pub fn pages_within(&self, a: u64, b: u64) -> u64
        requires { b ≤ length self.now }
        ensures { result ≡ count_by has_page (part a b self.now) }
    {
        match &self.form {
            Form::Holes(_) => 0,
            Form::Kept(indices) => indices.pages_within(a, b),
        }
    }

    /// How many indices from `a` up to `b` are holes.
    pub fn missing(&self, a: u64, b: u64) -> u64
        requires { b ≤ length self.now }
        ensures { result ≡ count_by is_hole (part a b self.now) }
    {
        match &self.form {
            Form::Holes(_) => b.saturating_sub(a),
            Form::Kept(indices) => indices.missing(a, b),
        }
    }

    /// Gives an entered index without a page its page.
    pub fn fill(&mut self, i: u64, page: PageNo)
        requires { cell_in self.old i ≡ Entered }
        ensures { self.new ≡ slice_set self.old i (Present page) }
    {
        let Form::Kept(indices) = &mut self.form else {
            return;
        };
        indices.fill(i, page);
    }

    /// Enters the indices from `a` up to `b`, and makes the room for their pages.
    /// At an error the cells are as they were.
    pub fn reserve_range(&mut self, a: u64, b: u64) -> Result<(), AllocError>
        requires { b ≤ length self.old }
        ensures ok { OnOk result (self.new ≡ edit_range entered a b self.old) }
        ensures err { OnErr result (self.new ≡ self.old) }
    {
        match &mut self.form {
            Form::Holes(len) => {
                let mut indices = Box::new(self.alloc, Indices::new(self.alloc, *len))?;
                indices.reserve_range(a, b)?;
                self.form = Form::Kept(indices);
                Ok(())
            }
            Form::Kept(indices) => indices.reserve_range(a, b),
        }
    }

    /// Makes the room to enter the indices from `a` up to `b`, past the end too. Where memory is refused, the inode is
    /// handed back as it was.
    pub fn prepare(self, a: u64, b: u64) -> Result<ReadyInode, Inode>
        requires { b < 2 ^ 32 }
        ensures ok { IfOk result (λ ready. ready ≡ record { cells = self; from = a; to = b }) }
        ensures err { IfErr result (λ inode. inode ≡ self) }
    {
        let Inode { alloc, form } = self;
        let mut indices = match form.kept(alloc) {
            Ok(indices) => indices,
            Err(form) => return Err(Inode { alloc, form }),
        };
        if indices.prepare(a, b).is_err() {
            return Err(Inode::kept(indices));
        }
        Ok(ReadyInode { indices })
    }

    /// Makes the file `len` indices long: longer by holes, or shorter by holes alone. A file of length 0 gives back what its
    /// entries took.
    pub fn set_len(&mut self, len: u64)
        requires small { len < 2 ^ 32 }
        requires holes { All (λ cell. cell ≡ Hole) (drop len self.old) }
        ensures { self.new ≡ cells_to len self.old }
    {
        if len == 0 {
            self.form = Form::Holes(0);
            return;
        }
        match &mut self.form {
            Form::Holes(own) => *own = len,
            Form::Kept(indices) => indices.set_len(len),
        }
    }

    /// Makes the file at least `len` indices long, by holes.
    pub fn lengthen(&mut self, len: u64)
        requires { len < 2 ^ 32 }
        ensures { self.new ≡ at_least len self.old }
    {
        match &mut self.form {
            Form::Holes(own) => *own = (*own).max(len),
            Form::Kept(indices) => indices.lengthen(len),
        }
    }

    /// Takes the lowest page of the indices from `a` up to `b` out, with its entry. Entries without a page stay.
    pub fn take_page(&mut self, a: u64, b: u64) -> Option<PageNo>
        ensures page { MatchOption (found has_page (part a b self.old))
            (result ≡ None)
            (λ p. result ≡ page_of p.1) }
        ensures cells { MatchOption (found has_page (part a b self.old))
            (self.new ≡ self.old)
            (λ p. self.new ≡ slice_set self.old (a + p.0) Hole) }
        ensures none { result ≡ None → All (λ cell. has_page cell ≡ false) (part a b self.new) }
    {
        let Form::Kept(indices) = &mut self.form else {
            return None;
        };
        indices.take_page(a, b)
    }

    /// Makes the indices from `a` up to `b` holes, and answers how many were entered. None of them has a page.
    pub fn drop_entries(&mut self, a: u64, b: u64) -> u64
        requires within { b ≤ length self.old }
        requires pageless { All (λ cell. has_page cell ≡ false) (part a b self.old) }
        ensures count { result ≡ count_by is_entered (part a b self.old) }
        ensures cells { self.new ≡ edit_range (λ cell. Hole) a b self.old }
    {
        let Form::Kept(indices) = &mut self.form else {
            return 0;
        };
        indices.drop_entries(a, b)
    }
}
