//! A mount's share of the pool: a limit, a minimum that stays committed, and what its files and maps have.
#![tactic(auto)]

mod subpool;

pub use subpool::Subpool;
