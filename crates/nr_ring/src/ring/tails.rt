//! The tails of a log, and why a batch was not appended.
ghost use Rattle.std.specs.Prelude.{◌≡◌};
ghost use Rattle.nr_ring.specs.inside.Held.{tails_of_head};

use crate::cells::words::{COMPLETED_WORD, HEAD_WORDS, LOCAL_WORDS, TAIL_WORD};

/// The tails of a log: how many entries it has, and how many of them have been taken. All are at most as many as it has places.
#[derive(Clone, Copy, Debug, PartialEq, Eq)]
pub struct Tails {
    /// The place at which the next entry will be.
    pub tail: u64,
    /// The greatest local tail.
    pub completed: u64,
    /// The local tail of each replica; 0 for those that are absent.
    pub local: [u64; 4],
}

/// Another pass's event has come since this pass last saw the cell.
#[derive(Clone, Copy, Debug, PartialEq, Eq)]
pub struct Moved;

/// Why a batch was not appended.
#[derive(Clone, Copy, Debug, PartialEq, Eq)]
pub enum AppendFault {
    /// The log would go past its end: it would have more entries than places.
    LogEnded,
    /// Some replica has still to take an entry whose place in the ring the batch needs.
    Full(Tails),
    /// Another pass's event came between.
    Moved(Tails),
}

/// The tails that a head has.
pub(crate) fn tails_in(head: &[u64; HEAD_WORDS]) -> Tails
    ensures { result ≡ tails_of_head head.now }
{
    Tails {
        tail: head[TAIL_WORD],
        completed: head[COMPLETED_WORD],
        local: [
            head[LOCAL_WORDS],
            head[LOCAL_WORDS + 1],
            head[LOCAL_WORDS + 2],
            head[LOCAL_WORDS + 3],
        ],
    }
}
