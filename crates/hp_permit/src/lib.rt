//! Permits: amounts of pages that a book issued, and that have to come back to it; and claims on frames of a node.
#![tactic(auto)]

mod book;
mod claim;
mod claim_set;
mod parts;
mod permit;
mod quad;
mod redeemed;

pub use book::Book;
pub use claim::Claim;
pub use claim_set::ClaimSet;
pub use parts::Parts;
pub use permit::Permit;
pub use quad::Quad;
pub use redeemed::Redeemed;
