//! The program: it times the page table, the shared log, the replicas, or the steps of the protocol's core.
//!
//! What the work came to goes to standard output and says whether it was right; operations a second go to standard error.
#![tactic(auto)]

mod clock;
mod fault;
mod log;
mod page_table;
mod replicas;
mod steps;
mod words;

use std::process::ExitCode;

fn main(rt: HostRuntime) -> ExitCode {
    ExitCode::from(words::run(&rt))
}
