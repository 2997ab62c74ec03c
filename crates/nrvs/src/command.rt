//! What the program can be asked to do.

use crate::runs::{ChainSetup, Setup};
use audit_commands::Inspection;

/// What the program can be asked to do.
#[derive(Debug, Drop)]
pub enum Command<'a> {
    /// Judge traces, or look into one.
    Inspect(Inspection<'a>),
    /// Take the protocol's core through the steps of the script; and write the recording instead of the verdict on it.
    Simulate(Setup, bool),
    /// Run the threads of the script, each call with up to so many turns; and write the trace instead of the answers.
    Run(Setup, u32, bool),
    /// Run the threads of a script of any length in segments.
    RunChain(Setup, ChainSetup),
}
