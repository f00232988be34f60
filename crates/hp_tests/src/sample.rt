//! A small service.

use crate::plain::{Plain, Tells};
use hp_model::answer::{Counts, NodeCount};
use hp_model::refusal::Refusal;
use hp_model::step::Step;
use hp_model::told::Told;

/// Answers by the step alone.
#[derive(Drop)]
pub struct Sample {
    pub calls: u64,
}

impl Sample {
    pub fn new() -> Plain<Sample> {
        Plain {
            by: Sample { calls: 0 },
        }
    }
}

impl Tells for Sample {
    fn note(&mut self) {
        self.calls = self.calls.saturating_add(1);
    }

    fn told(&self, step: &Step<'_>) -> Result<Told<'static>, Refusal> {
        match step {
            Step::Nr { pages } => Ok(Told::Number(*pages)),
            Step::Connect { .. } | Step::Create { .. } => Ok(Told::Done),
            Step::Map { .. } => Ok(Told::MapNo(1)),
            Step::Meminfo => Ok(Told::Numbers(Counts {
                total: 4,
                free: 4,
                rsvd: 0,
                surp: 0,
                nr: 4,
                overcommit: 0,
            })),
            Step::Nodes => Ok(Told::PerNode {
                nodes: 2,
                rows: [NodeCount {
                    total: 2,
                    free: 2,
                    surp: 0,
                }; 4],
            }),
            Step::Df { .. } => Ok(Told::Usage {
                max: Some(3),
                min: 2,
                used: 3,
                inodes: None,
                files: 1,
            }),
            Step::Stat { .. } => Ok(Told::Stat {
                len: 3,
                pages: 1,
                entries: 1,
                maps: 2,
            }),
            _ => Err(Refusal::NoSuchSlot),
        }
    }

    fn fault(&self) -> Result<(), Refusal> {
        Err(Refusal::NoSuchSlot)
    }
}
