//! Why a run over lines ended before its input's end.
ghost use Rattle.std.specs.Prelude.{◌≡◌};
ghost use Rattle.hp_model.specs.run.Served.{text_of_fault};

use thiserror::Error;

/// What ended a run.
#[derive(Clone, Copy, PartialEq, Eq, Debug, Error)]
#[error("{}", self.text())]
pub enum RunFault {
    /// Memory was refused before the first byte was read.
    Memory,
    /// A read failed.
    Read,
    /// A write failed.
    Write,
    /// The input has more bytes than the limit of 1,073,741,824.
    TooLong,
}

impl RunFault {
    /// What is said of it.
    pub fn text(self) -> &'static str
        ensures { result.now ≡ text_of_fault self }
    {
        match self {
            RunFault::Memory => "out of memory",
            RunFault::Read => "read failed",
            RunFault::Write => "write failed",
            RunFault::TooLong => "input too long",
        }
    }
}
