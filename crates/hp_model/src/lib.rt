//! The types and definitions of the huge page pool and its reservation server.
#![tactic(auto)]

pub mod answer;
pub mod bytes;
pub mod cell;
pub mod copying;
pub mod entry;
pub mod event;
pub mod fault;
pub mod lent;
pub mod limits;
pub mod names;
pub mod naming;
pub mod node;
pub mod page_no;
pub mod place;
pub mod profile;
pub mod queued;
pub mod refusal;
pub mod section;
pub mod service;
pub mod step;
pub mod told;
