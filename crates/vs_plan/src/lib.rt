//! Plans: what a kernel has to store, to flush and to free for a call on a page table whose frames it keeps itself.
//!
//! A `Planner` holds no memory. It asks for the words of one frame after another by number, then for frames whose words are all
//! 0, and ends with a `Plan`. It has the answer, a table to be filled if a page is split, the stores in their order, what has
//! to be flushed, and which frames are no longer linked. The caller finds the frames, fills, stores, flushes and frees. No call
//! allocates memory or waits.
//!
//! Addresses are in bytes. A frame number is a physical address divided by 4,096.
#![tactic(auto)]

pub mod changes;
pub mod flags;
pub mod laws;
mod plans;
mod tables;
mod words;

pub use plans::plan::{Fill, Flush, MOST_STORES, MOST_UNLINKED, Plan, Reply, Step, Store};
pub use plans::planner::{Asks, Phase, Planner};
pub use plans::request::{BadRequest, Request, ends_beyond};
pub use plans::target::Target;
pub use tables::others::has_other;
pub use vs_types::{
    ABOVE_FLAGS, BELOW_FLAGS, are_bits, bits_in, page_word, with_address, with_rights,
};
pub use words::reading::{FrameWords, PlainWords};
