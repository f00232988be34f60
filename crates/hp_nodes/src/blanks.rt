//! What the pages of a machine are made of and count in.
ghost use Rattle.std.specs.Prelude.{◌≡◌, ◌≤◌, length, slice_index, All, IfOk};
ghost use Rattle.hp_model.specs.Profile.{most_frames};
ghost use Rattle.hp_nodes.specs.Ledgers.{AreFrames, AreFull, IsNode, blanks_of};

use hp_frames::Stock;
use std::alloc::{AllocError, Global};
use std::sync::ledger::Blank;

/// The ledgers of a node, with a part for each frame, and its frames.
#[derive(Drop)]
pub struct NodeBlanks {
    pub count: u64,
    pub claims: Blank,
    pub pages: Blank,
    pub stock: Stock,
}

/// What there is of the four nodes, used or not.
#[derive(Drop)]
pub struct Blanks {
    pub zero: NodeBlanks,
    pub one: NodeBlanks,
    pub two: NodeBlanks,
    pub three: NodeBlanks,
}

impl NodeBlanks {
    fn new(alloc: Global, node: u8, count: u64, page_bytes: usize) -> Result<Self, AllocError>
        requires { count ≤ most_frames }
        ensures { IfOk result (λ b. IsNode node count page_bytes b) }
    {
        let stock = Stock::new(alloc, node, count, page_bytes)?;
        Ok(NodeBlanks {
            count,
            claims: Blank::new(count),
            pages: Blank::new(count),
            stock,
        })
    }
}

// The frames of a node, and none where there is no such node.
fn count_at(frames: &[u64], node: usize) -> u64
    requires { All (λ f. f ≤ most_frames) frames.now }
    ensures count { result ≡ slice_index frames.now node }
    ensures few { result ≤ most_frames }
{
    if node < frames.len() { frames[node] } else { 0 }
}

impl Blanks {
    /// Nodes with so many frames each, of `page_bytes` bytes.
    ///
    /// Takes all the memory that the pages will ever need. Where some is refused, the rest is given back before the
    /// error is answered.
    pub fn new(alloc: Global, frames: &[u64], page_bytes: usize) -> Result<Self, AllocError>
        requires few { length frames.now ≤ 4 }
        requires small { All (λ f. f ≤ most_frames) frames.now }
        ensures frames { IfOk result (λ b. AreFrames (blanks_of b) frames.now) }
        ensures full { IfOk result (λ b. AreFull page_bytes b) }
    {
        Ok(Blanks {
            zero: NodeBlanks::new(alloc, 0, count_at(frames, 0), page_bytes)?,
            one: NodeBlanks::new(alloc, 1, count_at(frames, 1), page_bytes)?,
            two: NodeBlanks::new(alloc, 2, count_at(frames, 2), page_bytes)?,
            three: NodeBlanks::new(alloc, 3, count_at(frames, 3), page_bytes)?,
        })
    }
}
