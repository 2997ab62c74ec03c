//! Replicas on which threads read and update.

mod caller;
mod command;
mod draws;
mod measure;

pub use command::run;
