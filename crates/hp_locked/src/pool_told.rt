//! What an event of the pool alone answers.
ghost use Rattle.std.specs.Prelude.{◌≡◌};
ghost use Rattle.hp_model.specs.beside.Told.{told_reply};
ghost use Rattle.hp_locked.specs.Told.{pool_reply};

use hp_model::answer::{Answer, Counts, NodeCount, Reply};
use hp_model::refusal::Refusal;
use hp_model::told::Told;

/// An answer that can be told as often as it is wanted.
#[derive(Clone, Copy, Debug, PartialEq, Eq)]
pub enum PoolTold {
    Done,
    /// Refused as OutOfRange.
    TooMuch,
    Number(u64),
    Numbers(Counts),
    PerNode { nodes: u64, rows: [NodeCount; 4] },
}

impl PoolTold {
    /// As a reply, for an entry or a receipt.
    pub fn reply(&self) -> Reply
        ensures { result ≡ pool_reply self.now }
    {
        match *self {
            PoolTold::Done => Ok(Answer::Done),
            PoolTold::TooMuch => Err(Refusal::OutOfRange),
            PoolTold::Number(n) => Ok(Answer::Number(n)),
            PoolTold::Numbers(counts) => Ok(Answer::Numbers(counts)),
            PoolTold::PerNode { nodes, rows } => Ok(Answer::PerNode { nodes, rows }),
        }
    }

    /// For the caller.
    #[inline(always)]
    pub fn told(self) -> Result<Told<'static>, Refusal>
        ensures { told_reply result ≡ pool_reply self }
    {
        match self {
            PoolTold::Done => Ok(Told::Done),
            PoolTold::TooMuch => Err(Refusal::OutOfRange),
            PoolTold::Number(n) => Ok(Told::Number(n)),
            PoolTold::Numbers(counts) => Ok(Told::Numbers(counts)),
            PoolTold::PerNode { nodes, rows } => Ok(Told::PerNode { nodes, rows }),
        }
    }
}
