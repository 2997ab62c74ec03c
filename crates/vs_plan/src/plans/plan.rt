//! Plans: stores, fill, flush, and what is answered.
ghost use Rattle.vs_plan.specs.inside.Ended.{ChangesNothing};

use arrayvec::ArrayVec;
use vs_types::{Answer, Size};

/// The most stores of a plan: a page's entry, and a link to a table of each level below the root's.
pub const MOST_STORES: usize = 5;

/// The most tables that a plan unlinks.
pub const MOST_UNLINKED: usize = 4;

/// A store: the word of this frame at this index, which is `old`, becomes `new`.
#[repr(C)]
#[derive(Clone, Copy, Debug, Default, PartialEq, Eq)]
pub struct Store {
    /// The frame's number.
    pub frame: u64,
    /// The word's index in it: 0 to 511.
    pub index: usize,
    /// The word as it was shown.
    pub old: u64,
    /// The word that is to be stored.
    pub new: u64,
}

/// What each processor that may have used the page table has to forget after the last store, before it goes on.
#[derive(Clone, Copy, Debug, PartialEq, Eq)]
pub enum Flush {
    /// Nothing.
    Nothing,
    /// The translations of the page at this base, of this size.
    Page(u64, Size),
    /// These, and all entries of paging-structure caches: tables were unlinked.
    PageAndTables(u64, Size),
    /// The translations of all addresses from this base on for as many bytes as this size has, whatever pages they were kept for,
    /// and all entries of paging-structure caches: pages of another size lie there.
    Range(u64, Size),
}

/// A table that is filled before the stores: the word of this frame at index i, from 0 to 511, becomes `first + i * step`, but in the gap
/// it stays 0.
#[repr(C)]
#[derive(Clone, Copy, Debug, Default, PartialEq, Eq)]
pub struct Fill {
    /// The frame's number. No way leads to it before the stores.
    pub frame: u64,
    /// The word at index 0.
    pub first: u64,
    /// What a word has above the one before it.
    pub step: u64,
    /// The first index of the gap, and how many words it has: none by a split.
    pub gap: u64,
    pub gap_count: u64,
}

/// What came out.
#[derive(Clone, Copy, Debug, PartialEq, Eq)]
pub enum Reply {
    /// As one sequential address space answers: `Done`, `Overlap`, `Removed`, `NotMapped`, `Inside`, `Changed` or `Mapped`. A prune
    /// is `Done`.
    Answer(Answer),
    /// No frame was given where one was needed. Those that were given before aren't used.
    NoFrame,
    /// This frame, which was given, lies beyond the physical addresses. None that was given is used.
    FrameRange(u64),
    /// The entries that lead to the page's table allow less than the page is to allow.
    Rights,
    /// This table, in which the least overlapped page was looked for, has no entry that is present. It is on the way of this address:
    /// `Request::Prune` of that unlinks the table, unless it stays (`Target::pinned`).
    Empty(u64, u64),
    /// A reserved bit is set in the word of this frame at this index, from 0 to 511: it links to a frame beyond the physical addresses, or
    /// says what no entry says.
    Reserved(u64, usize),
    /// By a remap the physical address is no multiple of the size of the page that is there. By a join or a collapse that of the page that
    /// is to take the place of the others would be none.
    PhysUnaligned,
    /// By a remap or a collapse the page would not lie below physical 2^51, or not within the physical addresses.
    PhysRange,
    /// The page that is to be split, or of which parts are to be removed, has 4 KiB.
    Smallest,
    /// The page that begins at the address of a join or a collapse has 1 GiB.
    Largest,
    /// The address of a join or a collapse is no multiple of the next larger size than that of the page that begins there.
    Unaligned,
    /// By a join the entry at this index, from 0 to 511, is the first in its table that is no page that follows on: with another physical
    /// address, other rights or other bits, but for the accessed and the dirty flag. By a collapse the address may be any.
    Apart(usize),
    /// The table of the pages that are to be joined or replaced stays linked (`Target::pinned`).
    Pinned,
}

/// What a caller has to do: the fill, then the stores in their order, then the flush; then the frames that are no longer linked are
/// its own.
#[derive(Drop)]
pub struct Plan {
    /// What came out.
    pub reply: Reply,
    /// The bits of the entry of the page that is removed, changed or asked for, as it was shown, beside its address and its rights:
    /// at the places that `Request::Map` has. 0 where there is no such page.
    pub bits: u64,
    /// The table that has to be filled before the stores: by a split and an unmap of parts alone.
    pub fill: Option<Fill>,
    /// The stores. None where nothing is changed.
    pub stores: ArrayVec<Store, MOST_STORES>,
    /// What has to be forgotten.
    pub flush: Flush,
    /// The frame numbers of the tables that the stores unlink, in whose frames all words are 0 then. By a join, a collapse and a prune their
    /// words stay: the frame has to be cleared before it is given again.
    pub unlinked: ArrayVec<u64, MOST_UNLINKED>,
}

/// What is to be done next.
#[derive(Drop)]
pub enum Step {
    /// To show the words of the frame of this number: `Planner::see`.
    See(u64),
    /// To give a frame whose words are all 0, or none: `Planner::give`.
    Give,
    /// The end: to carry the plan out.
    Planned(Plan),
}

impl Plan {
    /// A plan that changes nothing.
    pub(crate) fn nothing(reply: Reply, bits: u64) -> Plan
        ensures { ChangesNothing reply bits result }
    {
        Plan {
            reply,
            bits,
            fill: None,
            stores: ArrayVec::new(),
            flush: Flush::Nothing,
            unlinked: ArrayVec::new(),
        }
    }
}
