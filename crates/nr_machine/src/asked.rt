//! What a machine asks for, and what it refuses.

use crate::words::{Operation, Update};

/// The end of tails and of second words: 2^57.
pub const END: u64 = 0x0200_0000_0000_0000;

/// What its caller is asked for next.
#[derive(Clone, Copy, Debug, PartialEq, Eq)]
pub enum Asked {
    /// This operation, and then `told` with what the word was before it.
    Carry(Operation),
    /// To apply this entry to the node's state and flush, and then `applied` with its reply.
    Apply(Update),
    /// To have the node of this number take entries, since the updates have no room before it does. Then `told` with any value.
    Lags(u64),
    /// Nothing: the call is over.
    Done,
    /// Nothing ever again: it was given a value that no word of its nodes has, or the log would pass its end.
    Broken,
}

/// Why a call is refused. Nothing changes then.
#[derive(Clone, Copy, Debug, PartialEq, Eq)]
pub enum Refusal {
    /// The call before isn't over.
    Busy,
    /// There is no update.
    Empty,
    /// There are more than 16 updates.
    TooMany,
    /// The second word of an update isn't below 2^57.
    TooLarge,
}

/// What an entry was answered: two numbers, whose meaning is the caller's.
#[repr(C)]
#[derive(Clone, Copy, Debug, Default, PartialEq, Eq)]
pub struct Reply {
    pub first: u64,
    pub second: u64,
}
