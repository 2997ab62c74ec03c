//! What a command writes, and its status.

/// What a command answers: its lines, and the exit status.
#[derive(Debug, Drop)]
pub struct Report {
    /// The lines, each with its LF.
    pub text: String,
    /// 0, or 1 where something is wrong with the trace.
    pub status: u8,
}
