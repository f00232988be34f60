//! Tests of the machine for one thread: it gets along with ample memory, and gives back all that it held.
#![tactic(auto)]

#[cfg(test)]
mod same;
#[cfg(test)]
mod system;
#[cfg(test)]
mod trial;
