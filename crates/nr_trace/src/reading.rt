//! Reading of traces.

mod dumps;
mod events;
mod feed;
mod header;
mod lists;
mod numbers;
mod reader;
mod room;
mod whole;

pub use feed::{Feed, SegmentFeed};
pub use whole::read;
