//! Cuts of a run into segments: what is right with the whole is right with its parts, and the other way round.
#![tactic(auto)]

pub mod laws;
