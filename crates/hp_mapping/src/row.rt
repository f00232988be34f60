//! The places of a map, small or large.
ghost use Rattle.std.specs.Prelude.{◌≡◌, ◌<◌, length, map, replicate, slice_index_or, IsSome, IfOk};
ghost use Rattle.hp_model.specs.declared.place.Place.TheVariants.{Gone};
ghost use Rattle.hp_model.specs.files.Mapping.{is_live, copy_of, is_unconsumed, without_copy, unconsumed};
ghost use Rattle.hp_mapping.specs.Mapped.{at_index, consumed, fresh, IsPlaceRun, Leaves, SetsCopy};

use crate::dense::Dense;
use crate::packed_place::PackedPlace;
use crate::sparse::Sparse;
use hp_model::page_no::PageNo;
use std::alloc::{AllocError, Global};
use std::marker::Model;

// From so many places on a touch writes a chunk, and not all that stand before it.
const LARGE: usize = 4096;

/// Places, counted from 0. Contracts see them alone.
#[derive(Drop)]
pub(crate) struct Row {
    form: Form,
}

#[derive(Drop)]
enum Form {
    Dense(Dense),
    Sparse(Box<Sparse>),
}

impl Model for Row {
    ghost use Rattle.std.specs.Prelude.{ℕ, List};
    ghost use Rattle.hp_model.specs.declared.place.Place.{Place};
    ghost use Rattle.hp_mapping.specs.Forms.{places_of};

    ghost Value = { List (Place ℕ) };

    ghost view = { λ r. places_of r.form };
}

impl Row {
    /// So many fresh places.
    pub(crate) fn new(alloc: Global, count: usize) -> Result<Self, AllocError>
        ensures { IfOk result (λ r. r ≡ replicate count fresh) }
    {
        let is_large = LARGE < count && count <= u32::MAX as usize;
        let form = if is_large {
            Form::Sparse(Box::new(alloc, Sparse::new(alloc, count)?)?)
        } else {
            Form::Dense(Dense::new(alloc, count)?)
        };
        Ok(Row { form })
    }

    /// The places of a child's map.
    pub(crate) fn forked(&self, alloc: Global) -> Result<Self, AllocError>
        ensures { IfOk result (λ r. r ≡ map unconsumed self.now) }
    {
        let form = match &self.form {
            Form::Dense(dense) => Form::Dense(dense.forked(alloc)?),
            Form::Sparse(sparse) => Form::Sparse(Box::new(alloc, sparse.forked(alloc)?)?),
        };
        Ok(Row { form })
    }

    pub(crate) fn len(&self) -> usize
        ensures { result ≡ length self.now }
    {
        match &self.form {
            Form::Dense(dense) => dense.len(),
            Form::Sparse(sparse) => sparse.len(),
        }
    }

    /// Places that stand one behind another, from one that has a copy on.
    pub(crate) fn run_from(&self, at: usize) -> &[PackedPlace]
        requires { IsSome (copy_of (slice_index_or self.now at Gone)) }
        ensures { IsPlaceRun at self.now result.now }
    {
        match &self.form {
            Form::Dense(dense) => dense.run_from(at),
            Form::Sparse(sparse) => sparse.run_from(at),
        }
    }

    pub(crate) fn is_live(&self, at: usize) -> bool
        ensures { result ≡ is_live (slice_index_or self.now at Gone) }
    {
        match &self.form {
            Form::Dense(dense) => dense.is_live(at),
            Form::Sparse(sparse) => sparse.is_live(at),
        }
    }

    pub(crate) fn is_unconsumed(&self, at: usize) -> bool
        ensures { result ≡ is_unconsumed (slice_index_or self.now at Gone) }
    {
        match &self.form {
            Form::Dense(dense) => dense.is_unconsumed(at),
            Form::Sparse(sparse) => sparse.is_unconsumed(at),
        }
    }

    pub(crate) fn copy_at(&self, at: usize) -> Option<PageNo>
        ensures { result ≡ copy_of (slice_index_or self.now at Gone) }
    {
        match &self.form {
            Form::Dense(dense) => dense.copy_at(at),
            Form::Sparse(sparse) => sparse.copy_at(at),
        }
    }

    pub(crate) fn consume(&mut self, at: usize)
        requires { at < length self.old }
        ensures { self.new ≡ at_index consumed at self.old }
    {
        match &mut self.form {
            Form::Dense(dense) => dense.consume(at),
            Form::Sparse(sparse) => sparse.consume(at),
        }
    }

    /// Says whether the place had no copy.
    pub(crate) fn set_copy(&mut self, at: usize, page: PageNo) -> bool
        requires { at < length self.old }
        ensures { SetsCopy at page self.old self.new result }
    {
        match &mut self.form {
            Form::Dense(dense) => dense.set_copy(at, page),
            Form::Sparse(sparse) => sparse.set_copy(at, page),
        }
    }

    pub(crate) fn drop_copy(&mut self, at: usize)
        requires { IsSome (copy_of (slice_index_or self.old at Gone)) }
        ensures { self.new ≡ at_index without_copy at self.old }
    {
        match &mut self.form {
            Form::Dense(dense) => dense.drop_copy(at),
            Form::Sparse(sparse) => sparse.drop_copy(at),
        }
    }

    /// Says whether the place's reservation was there.
    pub(crate) fn leave(&mut self, at: usize) -> bool
        requires { at < length self.old }
        ensures { Leaves at self.old self.new result }
    {
        match &mut self.form {
            Form::Dense(dense) => dense.leave(at),
            Form::Sparse(sparse) => sparse.leave(at),
        }
    }
}
