//! What is said of a fault, as a list of parts: words, and facts with their names.

use nr_explain::{
    MissedUpdate, NamedMemory, OpenUpdate, PlacedUpdate, RecordedCall, RecordedReply, RightAfter,
    TableEntry,
};
use nr_trace::{Event, Format, TraceUnit};
use vs_types::Answer;
use vs_walk::Walk;

/// What a fact says.
#[derive(Clone, Copy)]
pub enum Says<'a> {
    /// `none` in the lines, null in JSON.
    Nothing,
    Call(RecordedCall),
    Reply(RecordedReply),
    /// The reply to a call, if there is one.
    Own(Option<RecordedReply>),
    /// The event that a number names, if there is one.
    Event(u32, Option<Event>),
    /// The last update that changed how an address looks, if there is one.
    Changed(Option<PlacedUpdate>),
    /// The update that takes away that an address leads somewhere, and the reply to it.
    Taken(OpenUpdate),
    /// An entry of a table.
    Step(TableEntry),
    /// The entries that are read on a way: a line each, and none where there are none.
    Steps(&'a [TableEntry]),
    /// The entries on the way from the root to a table: the same, but without entries it is the root, and a line says so.
    Way(&'a [TableEntry]),
    Count(u64),
    /// A place of the log, or what it has there, if there is such a place.
    Place(Option<u32>),
    /// The number of a frame: hexadecimal in the lines, a number in JSON.
    Frame(u64),
    /// Hexadecimal in both.
    Address(u64),
    Answer(Answer),
    /// The end of a walk.
    Walk(Walk),
    /// Which unit of a trace or of a segment it is.
    Unit(TraceUnit),
    /// The first bytes that were read.
    Bytes(&'a [u8]),
    /// A fault of the format; the lines say what is allowed there.
    Allowed(Format),
    /// What is reserved in an entry of this level.
    Reserved(u8),
    Text(&'a str),
    /// After how many entries, nearest to those that a call had, its answer is the space's.
    Right(RightAfter),
    /// The memory that an answer names, if it names any: a line, or none.
    Memory(Option<NamedMemory>),
    /// The update that a touch should have seen, if there is one, to the end of its reply's line.
    Missed(Option<MissedUpdate>),
    /// The update that was still open then, to the end of its reply's line, or no line.
    Open(Option<OpenUpdate>),
    /// The update that was called later: a line, or none.
    Later(Option<PlacedUpdate>),
}

/// A part of what is said, by where it is printed; in JSON a fact is a member of this name.
#[derive(Clone, Copy)]
pub enum Part<'a> {
    /// Words in the lines alone.
    Words(&'static str),
    /// A fact in the lines alone.
    InLines(Says<'a>),
    /// A fact in the lines and in JSON.
    InBoth(&'static str, Says<'a>),
    /// A fact in JSON alone.
    InJson(&'static str, Says<'a>),
}
