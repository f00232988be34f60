//! Tests of the crates below a mount, and of lines: what no contract of theirs says.
#![tactic(auto)]

#[cfg(test)]
mod clients;
#[cfg(test)]
mod ends;
#[cfg(test)]
mod frames;
#[cfg(test)]
mod plain;
#[cfg(test)]
mod region;
#[cfg(test)]
mod runs;
#[cfg(test)]
mod same;
#[cfg(test)]
mod sample;
#[cfg(test)]
mod trail;
