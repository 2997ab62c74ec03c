//! Stores of page-table frames: which frames are in use, and the words of each.
//!
//! A frame is 4,096 bytes: 512 words of 64 bits. A frame number is a physical address divided by 4,096.
#![tactic(auto)]

mod frame;
mod lent_arena;
mod mark;
mod raw_arena;
mod region;
mod store;
mod vec_arena;

pub use frame::Frame;
pub use lent_arena::{LentArena, LentParts};
pub use mark::FrameMark;
pub use raw_arena::RawArena;
pub use store::FrameStore;
pub use vec_arena::VecArena;
pub use vs_types::FRAME_WORDS;
