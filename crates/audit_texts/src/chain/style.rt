//! How the audit of a chain is printed.

/// How the audit of a chain is printed.
#[derive(Clone, Copy, Debug)]
pub struct Style {
    /// As JSON, an object on a line, in place of lines.
    pub as_json: bool,
    /// Nothing of the segments that are right.
    pub quiet: bool,
}
