//! What helps a person beyond the texts: each is a line of its own on standard error.

use crate::diagnostics::Diagnostics;
use audit_readers::write_text;
use itoa::Buffer;
use std::alloc::{AllocError, Global};
use std::io::Write;

/// The most digits of an address.
const DIGITS: usize = 16;

/// Writes a text to the errors, where they can be written to.
pub(crate) fn try_text<E: Write>(text: &str, errors: &mut E) {
    let _ = write_text(errors, text.as_bytes());
}

/// Writes to the errors that fewer calls overlap than are asked for, if any are. It allocates no memory.
pub(crate) fn tell_few<E: Write>(least: u32, errors: &mut E) {
    if least == 0 {
        return;
    }
    try_text("fewer than ", errors);
    try_text(Buffer::new().format(least), errors);
    try_text(" calls overlapped\n", errors);
}

/// Writes a remark to the errors, on a line of its own: on a named file behind its name; on standard input only where the errors are a
/// terminal, so that a program reads the texts alone.
pub fn remark<E: Diagnostics>(name: Option<&str>, text: &str, errors: &mut E) {
    match name {
        Some(name) => {
            try_text(name, errors);
            try_text(": ", errors);
        }
        None => {
            if !errors.is_terminal() {
                return;
            }
        }
    }
    try_text(text, errors);
    try_text("\n", errors);
}

/// Why a word spells no address.
fn why_no_address(word: &str) -> &'static str {
    let Some(digits) = word.as_bytes().strip_prefix(b"0x") else {
        return "doesn't begin with 0x";
    };
    if digits.is_empty() {
        "has no digits after 0x"
    } else if !digits.iter().all(|digit| digit.is_ascii_hexdigit()) {
        "has other characters than hexadecimal digits after 0x"
    } else if digits.len() > DIGITS {
        "has more than 16 digits after 0x"
    } else {
        "is no address"
    }
}

/// Which word spells no address, and why.
fn address_line(alloc: Global, word: &str) -> Result<String, AllocError> {
    let why = why_no_address(word);
    format!(in alloc; "{word:?} {why}")
}

/// Says which word spells no address, and why, where memory for it is there.
pub(crate) fn remark_address<E: Diagnostics>(
    alloc: Global,
    name: Option<&str>,
    word: &str,
    errors: &mut E,
) {
    if let Ok(line) = address_line(alloc, word) {
        remark(name, line.as_str(), errors);
    }
}
