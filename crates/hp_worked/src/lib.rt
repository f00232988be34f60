//! Worked runs of the machine: scripts whose replies are theorems, byte for byte, by computation.
#![tactic(auto)]
