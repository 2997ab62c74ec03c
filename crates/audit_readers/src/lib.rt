//! The audit's commands over a reader and a writer, of traces and of chains. `audit_io` writes the verdict, `explain_io` the verdict and
//! what shows its fault, `order_io` an order of the calls that is looked for, `resolve_io` where an address leads in a dump, and `pages_io`
//! the pages of one. `audit_chain_io` writes the lines of each segment as soon as it is whole. What they write is a function of what they
//! read.
#![tactic(auto)]

mod audit;
mod chain;
mod ends;
mod explain;
mod fault;
mod form;
pub mod laws;
mod order;
mod pages;
mod progress;
mod report;
mod resolve;
mod sink;
mod source;
mod unit_input;

pub use audit::{audit_io, audit_read, named_audit_io, named_audit_read};
pub use chain::audit::{MOST_BLOCKS, audit_chain_io};
pub use chain::explain::explain_chain_io;
pub use chain::pages::{chain_end_io, chain_start_io};
pub use ends::{BLOCK, read_block, write_report, write_text};
pub use explain::{explain_all_io, explain_io, explained_read, fully_explained_read};
pub use fault::ProgFault;
pub use form::Form;
pub use nr_audit::{Met, Totals};
pub use order::order_io;
pub use pages::{pages_io, pages_read};
pub use progress::{Progress, Unwatched};
pub use report::Report;
pub use resolve::{resolve_io, resolve_read};
pub use sink::{Output, Sink};
pub use source::{Input, Source};
pub use unit_input::{read_trace, read_units};
