//! The forms of an inode.
ghost use Rattle.std.specs.Prelude.{◌≡◌, IfOk, IfErr};
ghost use Rattle.hp_inode.specs.Form.{cells_in, IsForm};

use crate::indices::Indices;
use std::alloc::Global;

/// So many holes, or indices of which some have been entered.
#[derive(Drop)]
pub(crate) enum Form {
    Holes(u64),
    Kept(Box<Indices>),
}

impl Form {
    /// The indices, made where there are holes alone. Where memory is refused, the form is handed back.
    pub fn kept(self, alloc: Global) -> Result<Box<Indices>, Form>
        requires { IsForm self }
        ensures ok { IfOk result (λ indices. indices.value.cells ≡ cells_in self) }
        ensures err { IfErr result (λ form. form ≡ self) }
    {
        match self {
            Form::Kept(indices) => Ok(indices),
            Form::Holes(len) => {
                Box::new(alloc, Indices::new(alloc, len)).map_err(|_| Form::Holes(len))
            }
        }
    }
}
