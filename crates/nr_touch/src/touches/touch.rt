//! An access through a TLB, as it was recorded.

use vs_types::{Access, Answer, Mode};

/// An answered access that a processor made through its TLB, while a trace was recorded.
#[derive(Clone, Copy, Debug)]
pub struct Touch {
    /// The index of the event at which it was made.
    pub made: u32,
    /// The index of the event at which it was answered.
    pub answered: u32,
    /// How many entries of the log its replica was known to have applied when it was made: those that replies before it show, of
    /// calls that were made there.
    pub known: u64,
    pub address: u64,
    pub mode: Mode,
    pub access: Access,
    pub answer: Answer,
}
