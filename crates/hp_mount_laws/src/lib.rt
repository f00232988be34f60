//! What events do to a mount, and what holds of it: the words of a mount's contracts, and their lemmas.
#![tactic(auto)]
