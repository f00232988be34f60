//! The memory of two nodes of four frames of 1,024 bytes each, for each test.
ghost use Rattle.std.specs.Prelude.{◌≡◌, ◌∷◌, []};
ghost use Rattle.hp_nodes.specs.Ledgers.{AreFrames};
ghost use Rattle.hp_pool.specs.Ledgers.{AreLedgers};

use hp_model::naming::Naming;
use hp_pool::Blanks;
use std::alloc::Global;
use std::marker::Brand;
use std::process::Abort;

/// What is done with it, whatever its names are.
pub trait Trial {
    fn run<N: Naming, R: Abort>(self, rt: &R, alloc: Global, blanks: Blanks)
        requires ledgers { AreLedgers N.Naming blanks }
        requires frames { AreFrames N.frames (4 ∷ 4 ∷ []) }
        requires bytes { N.page_bytes ≡ 1024 };
}

// With the names of these ledgers.
fn named<N: Naming, R: Abort, T: Trial>(rt: &R, alloc: Global, trial: T, blanks: Blanks)
    requires ledgers { AreLedgers N.Naming blanks }
    requires frames { AreFrames N.frames (4 ∷ 4 ∷ []) }
    requires bytes { N.page_bytes ≡ 1024 }
{
    trial.run::<N, R>(rt, alloc, blanks);
}

pub fn tried<R: Abort, T: Trial>(rt: &R, alloc: Global, trial: T) {
    let blanks = Blanks::new(alloc, &[4, 4], 1024).expect(rt, "memory");
    named::<Brand, R, T>(rt, alloc, trial, blanks);
}
