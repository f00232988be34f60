//! Marks on numbers, a bit for each, 64 in a word.
#![tactic(auto)]

pub mod marks;
