//! What is near a wrong answer: the places of the log at which it would have been right, and where the memory is that it names.

/// Numbers of entries of a log, one after another.
#[derive(Clone, Copy, Debug, PartialEq, Eq)]
pub struct Stretch {
    pub first: u32,
    pub last: u32,
}

/// After how many entries of the log the space gives an answer, nearest below and above those that the call had.
#[derive(Clone, Copy, Debug, PartialEq, Eq)]
pub struct RightAfter {
    /// The nearest of the fewer entries, and all that go on from these down.
    pub before: Option<Stretch>,
    /// The nearest of the more entries, and all that go on from these up.
    pub behind: Option<Stretch>,
    /// How many entries the log has.
    pub places: u32,
}

/// The memory that an answer names.
#[derive(Clone, Copy, Debug, PartialEq, Eq)]
pub struct NamedMemory {
    pub phys: u64,
    /// The least address that the space translates to it, if there is one.
    pub address: Option<u64>,
}
