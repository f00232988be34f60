//! What a machine is made of, before any type stands for it.
ghost use Rattle.std.specs.Prelude.{◌≡◌, ◌≤◌, length, All, IfOk};
ghost use Rattle.hp_model.specs.Profile.{most_frames};
ghost use Rattle.hp_nodes.specs.Ledgers.{AreFrames, AreFull, blanks_of};
ghost use Rattle.hp_pool.specs.Ledgers.{IsWhole};

use std::alloc::{AllocError, Global};
use std::sync::ledger::Blank;

/// The ledgers of one machine, which no type stands for yet: one for the permits, and those of each node; and the frames
/// of its nodes.
#[derive(Drop)]
pub struct Blanks {
    pub permits: Blank,
    pub nodes: hp_nodes::Blanks,
}

impl Blanks {
    /// A ledger that is cut into as many parts as there can be permits, and nodes with so many frames each, of
    /// `page_bytes` bytes.
    ///
    /// Takes all the memory that the pages will ever need. Where some is refused, the rest is given back before the
    /// error is answered.
    pub fn new(alloc: Global, frames: &[u64], page_bytes: usize) -> Result<Self, AllocError>
        requires few { length frames.now ≤ 4 }
        requires small { All (λ f. f ≤ most_frames) frames.now }
        ensures whole { IfOk result (λ b. IsWhole b.permits) }
        ensures frames { IfOk result (λ b. AreFrames (blanks_of b.nodes) frames.now) }
        ensures full { IfOk result (λ b. AreFull page_bytes b.nodes) }
    {
        Ok(Blanks {
            permits: Blank::new(u64::MAX),
            nodes: hp_nodes::Blanks::new(alloc, frames, page_bytes)?,
        })
    }
}
