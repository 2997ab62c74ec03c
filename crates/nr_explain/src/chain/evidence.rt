//! What shows each fault of a segment.

ghost use Rattle.std.specs.Prelude.{◌≡◌};
ghost use Rattle.nr_audit.specs.Met.{sum_up};

use crate::trace::evidence::{
    Difference, Evidence, MissingTable, OtherAnswer, PlacedUpdate, RecordedCall, RecordedReply,
    ReservedEntry, SharedTable, TableEntry,
};
use crate::trace::nearby::RightAfter;
use crate::units::BadUnit;
use vs_types::{Answer, Page, Size};
use vs_walk::Walk;

/// What gave an address its look as a segment begins.
#[derive(Clone, Copy, Debug, PartialEq, Eq)]
pub enum Origin {
    /// The address is not mapped, and the chain begins with no pages.
    Nothing,
    /// It looks as in the start of the chain's first segment.
    Start,
    /// It looks otherwise than where the chain begins: an update of an earlier segment has changed that.
    Earlier,
}

/// The unit that shows a fault of the format of a segment.
#[derive(Debug, Drop)]
pub struct BadSegment {
    /// How many bytes of the chain come before the segment. A number above 2^64 - 1 is given as that.
    pub begins: u64,
    /// The unit: its offset is how many bytes of the segment come before it.
    pub unit: BadUnit,
}

impl BadSegment {
    /// How many bytes of the chain come before the unit. A number above 2^64 - 1 is given as that. It allocates no memory.
    pub fn offset(&self) -> u64
        ensures { result ≡ sum_up self.now.begins self.now.unit.offset }
    {
        self.begins.saturating_add(self.unit.offset)
    }
}

/// A page of a start that ends above the physical addresses that a page may have.
#[derive(Debug, Drop)]
pub struct StartBeyond {
    pub page: Page,
    /// The entries that the walk of its base reads.
    pub path: Vec<TableEntry>,
}

/// An address that a start translates not as the space before its segment does.
#[derive(Debug, Drop)]
pub struct StartDiffers {
    pub address: u64,
    /// How the start translates the address.
    pub found: Walk,
    /// The entries that are read on the way.
    pub path: Vec<TableEntry>,
    /// How the address looks in the space after the segment before.
    pub wanted: Answer,
    pub origin: Origin,
}

/// How an address looked at a moment.
#[derive(Clone, Copy, Debug, PartialEq, Eq)]
pub struct Moment {
    /// After how many entries of the log.
    pub entries: u32,
    /// How the address looked then.
    pub look: Answer,
}

/// How far the table of a touch's replica may lag behind the log.
#[derive(Clone, Copy, Debug, PartialEq, Eq)]
pub struct Lag {
    /// How many entries its replica was known to have applied when the touch was made.
    pub known: u64,
    /// The first reply that shows so many, if there are any.
    pub shown: Option<RecordedReply>,
}

/// An update that was over before a touch was made.
#[derive(Clone, Copy, Debug, PartialEq, Eq)]
pub struct MissedUpdate {
    pub update: PlacedUpdate,
    /// The first reply to it, which comes before the touch.
    pub reply: RecordedReply,
}

/// An update that wasn't answered when a touch or a release was made.
#[derive(Clone, Copy, Debug, PartialEq, Eq)]
pub struct OpenUpdate {
    pub update: PlacedUpdate,
    /// The first reply to it, if there is one.
    pub reply: Option<RecordedReply>,
}

/// A touch that is answered as its address was at no moment that was still allowed.
#[derive(Debug, Drop)]
pub struct StaleTouch {
    pub call: RecordedCall,
    pub reply: RecordedReply,
    /// The fewest entries of its segment's log after which it may be answered. Where it found no page, they have each update that changed
    /// how its address looks and was answered before it was made; else each of these that took away from the address.
    pub first: u32,
    /// The most. No moment is allowed where they are fewer than the fewest.
    pub last: u32,
    /// How far the table of its replica may lag, where the touch found no page: then it may be answered from the entries that were known
    /// on, too.
    pub lag: Option<Lag>,
    /// How its address looked at the first of these moments, and then after each update that changed that, up to the last.
    pub looks: Vec<Moment>,
    /// Where the fewest is none, how its address may still be found to look behind the segments before, too: with a page, or without one,
    /// as the touch found it. Else none.
    pub earlier: Vec<Answer>,
    /// The last one of the fewest entries, if there is one: an update that the touch should have seen.
    pub missed: Option<MissedUpdate>,
    /// The first update among them that ends what the touch found, and wasn't answered when it was made, if there is one.
    pub still_open: Option<OpenUpdate>,
    /// The update behind the most entries, which was made after the touch was answered, if the answer is the space's behind it.
    pub later: Option<PlacedUpdate>,
    /// After how many entries of its segment's log the space gives its answer: nearest below the fewest, and nearest above the most.
    pub right: RightAfter,
}

/// Memory that a release gives to somebody else.
#[derive(Clone, Copy, Debug, PartialEq, Eq)]
pub struct Given {
    pub size: Size,
    /// The physical address at which it begins.
    pub phys: u64,
}

/// When an address leads into some memory.
#[derive(Clone, Copy, Debug, PartialEq, Eq)]
pub enum Leading {
    /// After so many entries of its segment's log, the most that are allowed; and what takes that away from then on, if something does.
    Within(u32, Option<OpenUpdate>),
    /// Behind the segments before: as before an update of them that was never answered.
    Earlier,
}

/// An address from which an access that begins with a release may reach the memory that it gives away.
#[derive(Clone, Copy, Debug, PartialEq, Eq)]
pub struct Reach {
    /// The least such address.
    pub address: u64,
    /// The fewest entries of its segment's log after which the access may be answered.
    pub first: u32,
    /// The most.
    pub last: u32,
    /// How the address looks then: it leads into the memory.
    pub look: Answer,
    pub leading: Leading,
}

/// Why a release is wrong.
#[derive(Clone, Copy, Debug, PartialEq, Eq)]
pub enum WhyWrong {
    /// This first reply to it is another one than `Done`.
    Otherwise(RecordedReply),
    /// Its memory may be reached so; and the first reply to it, if there is one.
    Reached(Option<RecordedReply>, Reach),
}

/// A release of memory that may still be reached, or that is answered otherwise than by `Done`.
#[derive(Clone, Copy, Debug, PartialEq, Eq)]
pub struct WrongRelease {
    pub call: RecordedCall,
    pub why: WhyWrong,
}

/// What shows a fault of a segment.
#[derive(Debug, Drop)]
pub enum SegmentEvidence {
    /// A fault of the format.
    Format(BadSegment),
    /// A fault of the events, of the log, or of a dump by itself, as of a trace.
    Within(Evidence),
    /// A wrong answer, and how its address came to look as it did where no update of the segment changed that.
    WrongAnswer(OtherAnswer, Origin),
    /// A dump that translates an address otherwise, likewise.
    Differs(Difference, Origin),
    StartMissing(MissingTable),
    StartShared(SharedTable),
    StartReserved(ReservedEntry),
    /// The frame of a start to which its tables do not lead.
    StartStray(u64),
    StartBeyond(StartBeyond),
    StartDiffers(StartDiffers),
    Stale(StaleTouch),
    Reachable(WrongRelease),
}
