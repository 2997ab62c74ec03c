//! The page table on four workloads. What its work comes to is a sum of all answers.

mod command;
mod load;
mod measure;
mod sum;
mod workload;

pub use command::run;
