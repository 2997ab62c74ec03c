//! Runs of the machine of nodes as histories of the log of `nr_ring`, and as recordings that an auditor accepts.
#![tactic(auto)]

pub mod laws;
