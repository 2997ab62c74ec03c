//! The engines of runs, each over a reader and a writer: `simulate_io` writes the verdict on the protocol's core after the steps of a
//! script, which is a function of what it reads; `run_io` writes what came of its run of a script's threads, and `run_chain_io` of a run in
//! segments.
mod chain_setup;
mod kept_lines;
mod run_text;
mod script_input;
mod served_chain;
mod served_run;
mod setup;
mod simulate;

pub use chain_setup::ChainSetup;
pub use kept_lines::KeptLines;
pub use served_chain::run_chain_io;
pub use served_run::run_io;
pub use setup::Setup;
pub use simulate::simulate_io;
