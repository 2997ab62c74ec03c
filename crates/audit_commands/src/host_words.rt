//! The program's own words, from the host.

use std::{env, io};

/// Why the program doesn't know its own words.
#[derive(Debug, Drop)]
pub enum NoWords {
    /// There was no memory for them.
    Memory,
    /// One of them is no text in UTF-8.
    NotText,
}

/// The program's own words, the first of which is its name. Allocates them.
///
/// # Errors
///
/// `Memory` where there was none, `NotText` where one of them is no text in UTF-8.
pub fn program_words(rt: &HostRuntime) -> Result<Vec<String>, NoWords> {
    match env::args(rt) {
        Ok(words) => words.collect(rt.alloc()).map_err(|_| NoWords::Memory),
        Err(error) if error.kind() == io::ErrorKind::InvalidData => Err(NoWords::NotText),
        Err(_) => Err(NoWords::Memory),
    }
}
