//! What shows the first fault of a trace or of a chain: the calls, replies, places and entries of tables that one has to look at.
#![tactic(auto)]

mod calls;
mod chain;
mod ends;
mod fields;
pub mod laws;
mod search;
mod tables;
mod trace;
mod unit_feed;
mod units;

pub use calls::answers::{address_about, asked_address};
pub use chain::evidence::{
    BadSegment, Given, Lag, Leading, MissedUpdate, Moment, OpenUpdate, Origin, Reach,
    SegmentEvidence, StaleTouch, StartBeyond, StartDiffers, WhyWrong, WrongRelease,
};
pub use chain::explanation::{ChainCounts, ChainExplanation};
pub use chain::reader::{ChainReader, ReaderStep};
pub use chain::touches::fewest;
pub use fields::{BadField, EventField, FieldFault, field_fault};
pub use search::events::call_at;
pub use search::nearest::nearest;
pub use search::replies::reply_to;
pub use search::spaces::{answer_after, apply_place, last_look};
pub use tables::dumps::{difference, explain_dump};
pub use tables::paths::{
    Target, another_way, entries_read, entry_at, find_way, way_to_frame, way_to_reserved,
};
pub use trace::all_dumps::{DumpExplanation, FullExplanation, explain_all_read};
pub use trace::counts::Counts;
pub use trace::evidence::{
    Difference, EarlyCall, Evidence, LongPrefix, Misplaced, MissingTable, NoUpdate, OpenCalls,
    OtherAnswer, Owner, PastEnd, PlacedUpdate, RecordedCall, RecordedReply, ReservedEntry,
    SharedTable, ShortPrefix, StrayReply, StrayTable, TableEntry, TwoPlaces, TwoReplies,
};
pub use trace::explaining::{Explanation, explain, explain_read};
pub use trace::nearby::{NamedMemory, RightAfter, Stretch};
pub use unit_feed::UnitFeed;
pub use units::{BadUnit, HEADER_BYTES, Unread};
