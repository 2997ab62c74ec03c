//! Why a benchmark ends early.
use std::alloc::{AllocError, AllocFailed};
use std::io;
use std::num::ParseIntError;
use vs_types::{BadConfig, BadOp, Memory};

/// How the program is used.
const USAGE: &str = "usage: nrvs_benchmark page_table [ROUNDS [raw|lent] [five]]\n\
    \x20                     log looks|appends THREADS CALLS\n\
    \x20                     replicas THREADS REPLICAS CALLS READS [maps]\n\
    \x20                     core THREADS REPLICAS CALLS";

/// Why a benchmark ends early.
#[derive(Clone, Copy)]
pub enum ProgFault {
    /// The program's words are none that it knows.
    BadWords,
    /// A page of a workload is not well formed.
    BadPage,
    /// The threads' updates are more than the log has room for.
    LogEnded,
    /// A call was not answered, or not as it must be, or another thread did not get on.
    Stuck,
    /// The output gave an error.
    CannotWrite,
    /// The clock gave an error.
    NoClock,
    /// A growth of memory was refused.
    Memory,
}

impl ProgFault {
    /// What is written to standard error.
    pub fn text(self) -> &'static str {
        match self {
            ProgFault::BadWords => USAGE,
            ProgFault::BadPage => "a page of a workload is not well formed",
            ProgFault::LogEnded => "the log has ended",
            ProgFault::Stuck => "a thread is stuck",
            ProgFault::CannotWrite => "cannot write",
            ProgFault::NoClock => "cannot read the clock",
            ProgFault::Memory => "out of memory",
        }
    }

    /// The exit status: 3 where memory runs out, else 2.
    pub fn status(self) -> u8 {
        match self {
            ProgFault::Memory => 3,
            _ => 2,
        }
    }
}

impl From<AllocError> for ProgFault {
    fn from(_error: AllocError) -> ProgFault {
        ProgFault::Memory
    }
}

impl<T: Drop> From<AllocFailed<T>> for ProgFault {
    fn from(_error: AllocFailed<T>) -> ProgFault {
        ProgFault::Memory
    }
}

impl From<Memory> for ProgFault {
    fn from(_error: Memory) -> ProgFault {
        ProgFault::Memory
    }
}

impl From<BadConfig> for ProgFault {
    fn from(_error: BadConfig) -> ProgFault {
        ProgFault::BadWords
    }
}

impl From<BadOp> for ProgFault {
    fn from(_error: BadOp) -> ProgFault {
        ProgFault::BadPage
    }
}

impl From<io::Error> for ProgFault {
    fn from(_error: io::Error) -> ProgFault {
        ProgFault::CannotWrite
    }
}

impl From<ParseIntError> for ProgFault {
    fn from(_error: ParseIntError) -> ProgFault {
        ProgFault::BadWords
    }
}
