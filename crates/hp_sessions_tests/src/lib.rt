//! Tests of the machine that threads share, and of sessions on it.
#![tactic(auto)]

#[cfg(test)]
mod asking;
#[cfg(test)]
mod filling;
#[cfg(test)]
mod following;
#[cfg(test)]
mod full;
#[cfg(test)]
mod gates;
#[cfg(test)]
mod lines;
#[cfg(test)]
mod machine;
#[cfg(test)]
mod making;
#[cfg(test)]
mod over_tcp;
#[cfg(test)]
mod places;
#[cfg(test)]
mod rows;
#[cfg(test)]
mod same;
#[cfg(test)]
mod sources;
#[cfg(test)]
mod stage;
#[cfg(test)]
mod stress;
#[cfg(test)]
mod talking;
#[cfg(test)]
mod works;
