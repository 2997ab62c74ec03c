//! What the first bytes of an input say that it is.

/// What an input is, by its first bytes.
#[derive(Clone, Copy, Debug, PartialEq, Eq)]
pub enum Form {
    /// It has ended, and has no byte.
    Empty,
    /// It begins as a trace.
    Trace,
    /// It begins as a chain.
    Chain,
    /// It begins as a file of gzip.
    Gzip,
    /// It begins as a file of xz.
    Xz,
    /// Its first bytes are printable ASCII, tabs or ends of lines.
    Text,
    /// It is none of these, or nothing was read of it.
    Unknown,
}

/// Whether a text in ASCII may have this byte.
fn is_printable(byte: u8) -> bool {
    matches!(byte, b' '..=b'~' | b'\t' | b'\n' | b'\r')
}

/// What begins with these bytes.
pub(crate) fn form_of(head: &[u8]) -> Form {
    if head.is_empty() {
        Form::Unknown
    } else if head.starts_with(b"NRVT") {
        Form::Trace
    } else if head.starts_with(b"NRVS") {
        Form::Chain
    } else if head.starts_with(b"\x1f\x8b") {
        Form::Gzip
    } else if head.starts_with(b"\xfd7zXZ\0") {
        Form::Xz
    } else if head.iter().all(|byte| is_printable(*byte)) {
        Form::Text
    } else {
        Form::Unknown
    }
}
