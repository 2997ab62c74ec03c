//! Page tables as memory: how an address is translated, what a table leads to, and dumps of tables.
//!
//! A frame is 4,096 bytes: 512 words of 64 bits. A frame number is a physical address divided by 4,096.
#![tactic(auto)]

mod dump;
pub mod examples;
mod frame_words;
mod frames;
mod gathering;
pub mod laws;
mod listing;
pub mod pages;
mod reached;
mod traversal;
mod walk;
mod zeros;

pub use dump::{Dump, OpenDump};
pub use frame_words::FrameWords;
pub use frames::Frames;
pub use listing::{LeavesOf, leaves, leaves_in};
pub use reached::Reached;
pub use traversal::{PageVisitor, VisitorOf, traverse, traverse_in};
pub use vs_types::FRAME_WORDS;
pub use walk::{Walk, WalkFault, WalkOf, translate, translate_in};
pub use zeros::are_zero;
