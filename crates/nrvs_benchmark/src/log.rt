//! Looks at the shared log and appends to it, by up to four threads.

mod appends;
mod command;
mod entry;
mod looks;

pub use command::run;
