//! The steps of the protocol's core, which a list of calls takes one after another.

mod calls;
mod command;
mod measure;
mod scripts;

pub use command::run;
