//! What the words of a command line ask for.

use clap::Error;
use std::alloc::{AllocError, AllocFailed, Global};

/// The machine of a run.
#[derive(Debug, Drop)]
pub struct Machine {
    /// The frames of each node.
    pub frames: Vec<u64>,
    /// The bytes of a page.
    pub page: u64,
    /// How many slots there are; the first is mounted.
    pub slots: u64,
}

impl Machine {
    /// Asks for the bytes of all pages in one piece, and gives them back. It is refused where the system would not grant so
    /// many: node by node it might, and end the process when the pages are touched.
    #[inline(never)]
    pub fn ask_whole(&self, alloc: Global) -> Result<(), AllocError> {
        let mut bytes = 0usize;
        for frames in &self.frames {
            bytes = bytes.saturating_add((*frames as usize).saturating_mul(self.page as usize));
        }
        let _whole: Vec<u8> = Vec::with_capacity(alloc, bytes)?;
        Ok(())
    }
}

/// What a server is asked for.
#[derive(Clone, Copy, Debug, PartialEq, Eq)]
pub struct Serving {
    /// The port to listen at; at 0 the system chooses one.
    pub port: u16,
    /// How many sessions to serve.
    pub sessions: usize,
    /// By how many workers.
    pub workers: usize,
    /// For how many entries each trail has room, and for how many receipts each session; at 0 none are kept.
    pub room: usize,
    /// The seconds after which a session is ended whose client sends nothing, or reads no replies; at 0 it is not.
    pub idle: u64,
}

/// A form of the program.
#[derive(Debug, Drop)]
pub enum Config {
    /// Standard input is a script.
    Script(Machine),
    /// Sessions are served over TCP.
    Serve(Machine, Serving),
}

/// Why the words give no configuration.
#[derive(Debug, Drop)]
pub enum Wrong {
    /// Memory for reading them was refused.
    Memory,
    /// `clap` refuses them, or they ask for help or the version.
    Parse(Error),
    /// The option of this name has a value that it can't have.
    BadValue(&'static str),
    /// An option stands before the subcommand.
    OptionFirst,
}

impl From<AllocError> for Wrong {
    ghost use Rattle.std.specs.Prelude.{◌≡◌};
    ghost use Rattle.hp_words.specs.declared.settings.Wrong.TheVariants.{Memory};

    ghost from_gives = { λ _ e. e ≡ Memory };

    fn from(_error: AllocError) -> Wrong {
        Wrong::Memory
    }
}

impl<T: Drop> From<AllocFailed<T>> for Wrong {
    ghost use Rattle.std.specs.Prelude.{◌≡◌};
    ghost use Rattle.hp_words.specs.declared.settings.Wrong.TheVariants.{Memory};

    ghost from_gives = { λ _ e. e ≡ Memory };

    fn from(_error: AllocFailed<T>) -> Wrong {
        Wrong::Memory
    }
}
