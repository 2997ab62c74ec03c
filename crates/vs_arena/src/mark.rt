//! The mark of a frame that is lent.

/// What a `LentArena` keeps of a frame, 4 bytes of the caller's memory. It may have any content at first.
#[repr(C)]
#[derive(Clone, Copy, Debug, Default)]
pub struct FrameMark {
    /// `IN_USE`, or of a frame that was freed the one that was freed before it.
    pub(crate) before: u16,
    /// The note of a frame that is in use.
    pub(crate) note: u16,
}

/// No frame has this index.
pub(crate) const IN_USE: u16 = 0xFFFF;
