//! What shows each fault of a trace.

use crate::trace::nearby::{NamedMemory, RightAfter};
use crate::units::BadUnit;
use nr_trace::{Asked, Event};
use vs_types::Answer;
use vs_walk::Walk;

/// A call as a trace has it. Its number is the index of its event.
#[derive(Clone, Copy, Debug, PartialEq, Eq)]
pub struct RecordedCall {
    pub event: u32,
    pub replica: u8,
    pub thread: u16,
    pub asked: Asked,
}

/// A reply as a trace has it.
#[derive(Clone, Copy, Debug, PartialEq, Eq)]
pub struct RecordedReply {
    pub event: u32,
    /// The call that it answers.
    pub call: u32,
    /// The place of an update; of a read how many entries it saw.
    pub at: u32,
    pub answer: Answer,
}

/// An update and its place in the log.
#[derive(Clone, Copy, Debug, PartialEq, Eq)]
pub struct PlacedUpdate {
    pub place: u32,
    pub call: RecordedCall,
}

/// An entry that is read on the way through the tables of a dump.
#[derive(Clone, Copy, Debug, PartialEq, Eq)]
pub struct TableEntry {
    /// The level of the table, 1 to 5.
    pub level: u8,
    /// The number of the table's frame.
    pub frame: u64,
    /// The index of the word in the frame, 0 to 511.
    pub index: u16,
    pub word: u64,
}

/// Two calls of one thread, of which the second was made while the first had no reply.
#[derive(Clone, Copy, Debug, PartialEq, Eq)]
pub struct OpenCalls {
    pub first: RecordedCall,
    pub second: RecordedCall,
}

/// A reply that names no earlier call.
#[derive(Clone, Copy, Debug, PartialEq, Eq)]
pub struct StrayReply {
    pub reply: RecordedReply,
    /// The event that it names, if there is one.
    pub named: Option<Event>,
}

/// Two replies to one call.
#[derive(Clone, Copy, Debug, PartialEq, Eq)]
pub struct TwoReplies {
    pub call: RecordedCall,
    pub first: RecordedReply,
    pub second: RecordedReply,
}

/// A place of the log that names no update.
#[derive(Clone, Copy, Debug, PartialEq, Eq)]
pub struct NoUpdate {
    pub place: u32,
    /// The number that the log has there.
    pub call: u32,
    /// The event that it names, if there is one.
    pub named: Option<Event>,
}

/// One update at two places of the log.
#[derive(Clone, Copy, Debug, PartialEq, Eq)]
pub struct TwoPlaces {
    pub call: RecordedCall,
    pub first: u32,
    pub second: u32,
}

/// An update whose reply gives a place at which the log doesn't have it.
#[derive(Clone, Copy, Debug, PartialEq, Eq)]
pub struct Misplaced {
    pub call: RecordedCall,
    pub reply: RecordedReply,
    /// The first place at which the log has the call, if any.
    pub own: Option<u32>,
    /// What the log has at the place that the reply gives.
    pub there: Option<u32>,
}

/// A read whose reply gives more entries than the log has.
#[derive(Clone, Copy, Debug, PartialEq, Eq)]
pub struct PastEnd {
    pub call: RecordedCall,
    pub reply: RecordedReply,
    /// How many entries the log has.
    pub places: u32,
}

/// A call that comes after fewer entries than were known before it was made.
#[derive(Clone, Copy, Debug, PartialEq, Eq)]
pub struct EarlyCall {
    pub call: RecordedCall,
    /// After how many entries it is: the place of an update; of a read how many it saw.
    pub entries: u32,
    /// The most entries that were known when it was made.
    pub floor: u64,
    /// The reply that made so many known.
    pub reply: RecordedReply,
    /// The call that this reply answers.
    pub answered: RecordedCall,
    /// The first reply to the call itself, if there is one.
    pub own: Option<RecordedReply>,
}

/// A call whose answer is not that of the space.
#[derive(Clone, Copy, Debug, PartialEq, Eq)]
pub struct OtherAnswer {
    pub call: RecordedCall,
    pub reply: RecordedReply,
    /// What the space answers.
    pub wanted: Answer,
    /// The address that both answers are about.
    pub address: u64,
    /// The last update before the call that changed how this address looks, if one did.
    pub changed: Option<PlacedUpdate>,
    /// After how many entries, nearest to those that the call had, the space gives the answer.
    pub right: RightAfter,
    /// Where the space before the call has the memory that the answer names, if it names any.
    pub memory: Option<NamedMemory>,
}

/// A dump that has applied more entries than the log has.
#[derive(Clone, Copy, Debug, PartialEq, Eq)]
pub struct LongPrefix {
    pub replica: u8,
    pub applied: u32,
    /// How many entries the log has.
    pub places: u32,
}

/// A dump that has applied fewer entries than are known by a reply at its replica.
#[derive(Clone, Copy, Debug, PartialEq, Eq)]
pub struct ShortPrefix {
    pub replica: u8,
    pub applied: u32,
    /// A reply there by which more entries are known, the first in the trace.
    pub reply: RecordedReply,
    /// How many entries are known by it.
    pub known: u64,
    /// The call that it answers.
    pub call: RecordedCall,
}

/// The owner of the tables.
#[derive(Clone, Copy, Debug, PartialEq, Eq)]
pub enum Owner {
    /// The dump of this replica.
    Dump(u8),
    /// The start of a segment.
    Start,
}

/// A frame to which tables lead, and which their owner lacks.
#[derive(Debug, Drop)]
pub struct MissingTable {
    pub owner: Owner,
    pub frame: u64,
    /// The entries that lead there from the root.
    pub path: Vec<TableEntry>,
}

/// A frame to which tables lead twice.
#[derive(Debug, Drop)]
pub struct SharedTable {
    pub owner: Owner,
    pub frame: u64,
    /// The entries that lead there from the root, first.
    pub first: Vec<TableEntry>,
    /// Other entries that lead there.
    pub second: Vec<TableEntry>,
}

/// An entry with a reserved bit set.
#[derive(Debug, Drop)]
pub struct ReservedEntry {
    pub owner: Owner,
    /// The entries that lead to its table from the root.
    pub path: Vec<TableEntry>,
    pub entry: TableEntry,
    /// A bit of its word that is set and reserved.
    pub bit: u8,
}

/// A frame of a dump to which its tables do not lead.
#[derive(Clone, Copy, Debug, PartialEq, Eq)]
pub struct StrayTable {
    pub replica: u8,
    pub frame: u64,
}

/// An address that a dump translates not as the space does.
#[derive(Debug, Drop)]
pub struct Difference {
    pub replica: u8,
    pub applied: u32,
    pub address: u64,
    /// How the dump translates the address.
    pub found: Walk,
    /// The entries that are read on the way.
    pub path: Vec<TableEntry>,
    /// How the address looks in the space after the entries that the dump has applied.
    pub wanted: Answer,
    /// The last of these updates that changed how the address looks, if one did.
    pub changed: Option<PlacedUpdate>,
}

/// What shows a fault. Each variant is that of the fault of its name.
#[derive(Debug, Drop)]
pub enum Evidence {
    Format(BadUnit),
    ThreadOpen(OpenCalls),
    NoSuchCall(StrayReply),
    AnsweredTwice(TwoReplies),
    NotAnUpdate(NoUpdate),
    PlacedTwice(TwoPlaces),
    NotPlaced(Misplaced),
    PastLog(PastEnd),
    Early(EarlyCall),
    WrongAnswer(OtherAnswer),
    PrefixPastLog(LongPrefix),
    PrefixShort(ShortPrefix),
    MissingFrame(MissingTable),
    SharedFrame(SharedTable),
    ReservedBit(ReservedEntry),
    StrayFrame(StrayTable),
    Differs(Difference),
}
