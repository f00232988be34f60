//! Why serving ended before its end.
ghost use Rattle.std.specs.Prelude.{◌≡◌};
ghost use Rattle.hp_serving.specs.Ended.{line_of_fault};

use hp_wire::fault::RunFault;
use std::alloc::AllocError;

/// What ended the serving of all sessions. A fault of one session is none of these.
#[derive(Clone, Copy, PartialEq, Eq, Debug)]
pub enum ServeFault {
    /// Memory was refused, or no worker could be started.
    Memory,
    /// The program's own output could not be written.
    Write,
    /// The source of connections failed.
    Network,
}

impl ServeFault {
    /// The line that names it.
    pub fn line(self) -> &'static str
        ensures { result.now ≡ line_of_fault self }
    {
        match self {
            ServeFault::Memory => "hugetlbd: out of memory\n",
            ServeFault::Write => "hugetlbd: write failed\n",
            ServeFault::Network => "hugetlbd: network failed\n",
        }
    }
}
