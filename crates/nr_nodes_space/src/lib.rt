//! Nodes that keep one address space each as page tables, over the log of `nr_machine` and by the plans of `vs_plan`: what processors find.
#![tactic(auto)]

pub mod laws;
