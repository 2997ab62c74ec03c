//! Memory that ran out, alone or among the faults of a call.
ghost use Rattle.std.specs.Prelude.{◌≡◌};
ghost use Rattle.vs_types.specs.declared.requests.refusal.Fail.TheVariants as fails;

use std::alloc::{AllocError, AllocFailed};
use std::error::Error;
use std::fmt;

/// A growth of memory was refused.
#[derive(Clone, Copy, Debug, PartialEq, Eq)]
pub struct Memory;

impl fmt::Display for Memory {
    fn fmt<W: fmt::Write>(&self, f: &mut fmt::Formatter<W>) -> fmt::Result {
        write!(f, "out of memory")
    }
}

impl Error for Memory {}

impl From<AllocError> for Memory {
    fn from(_error: AllocError) -> Memory {
        Memory
    }
}

impl<T: Drop> From<AllocFailed<T>> for Memory {
    fn from(_error: AllocFailed<T>) -> Memory {
        Memory
    }
}

/// Why a call that allocates gave no answer.
#[derive(Clone, Copy, Debug, PartialEq, Eq)]
pub enum Fail<E> {
    /// A growth of memory was refused. It may come before any other refusal.
    Memory,
    /// A refusal of the call's own.
    Refused(E),
}

impl<E> From<Memory> for Fail<E> {
    ghost from_gives = { λ _ fail. fail ≡ fails.Memory };

    fn from(_error: Memory) -> Fail<E> {
        Fail::Memory
    }
}

impl<E> From<AllocError> for Fail<E> {
    ghost from_gives = { λ _ fail. fail ≡ fails.Memory };

    fn from(_error: AllocError) -> Fail<E> {
        Fail::Memory
    }
}

impl<T: Drop, E> From<AllocFailed<T>> for Fail<E> {
    ghost from_gives = { λ _ fail. fail ≡ fails.Memory };

    fn from(_error: AllocFailed<T>) -> Fail<E> {
        Fail::Memory
    }
}
