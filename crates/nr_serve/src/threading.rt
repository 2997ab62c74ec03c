//! Runs: jobs that workers take, and threads that serve them.

pub(crate) mod chain_run;
pub(crate) mod job;
pub(crate) mod running;
pub(crate) mod serving;
pub(crate) mod team;
pub(crate) mod threads;
pub(crate) mod worker;
