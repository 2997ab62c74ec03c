//! A script that is read, of which the last lines are kept.

ghost use Rattle.std.specs.Prelude.{◌≡◌};

use memchr::memchr;
use std::alloc::{AllocError, Global};
use std::io::{self, Read};

/// From so many bytes on no line is kept that ended before the last read: one more than a script may have that is read at once.
const MOST_BYTES: usize = 16_777_217;

/// A reader of a script that keeps the lines that it has read, so that it can be said why one of them is bad. Of a script that is longer
/// than one that is read at once it keeps the last ones.
#[derive(Drop)]
pub struct KeptLines<R> {
    reader: R,
    alloc: Global,
    /// What is kept, from the begin of a line on; `None` if nothing is to be kept, or memory for it was lacking.
    kept: Option<Vec<u8>>,
    /// How many lines came before.
    before: u32,
}

/// What comes after the first end of a line, if there is one.
fn after_line(text: &[u8]) -> Option<&[u8]> {
    let end = memchr(b'\n', text)?;
    Some(&text[end + 1..])
}

/// The line at the front of a text.
fn first_line(text: &[u8]) -> &[u8] {
    match memchr(b'\n', text) {
        Some(end) => &text[..end],
        None => text,
    }
}

/// The line that has begun, and how many lines end before it.
fn begun_line(text: &[u8]) -> (&[u8], u32) {
    let mut rest = text;
    let mut ended = 0u32;
    for turn in 0..text.len() {
        let Some(after) = after_line(rest) else {
            return (rest, ended);
        };
        rest = after;
        ended = ended.saturating_add(1);
    }
    (rest, ended)
}

impl<R> KeptLines<R> {
    /// A reader of which nothing has been read yet. It keeps lines if it is to.
    pub fn new(alloc: Global, reader: R, keeps: bool) -> KeptLines<R>
        ensures { result.reader ≡ reader }
    {
        let kept = if keeps { Some(Vec::new(alloc)) } else { None };
        KeptLines {
            reader,
            alloc,
            kept,
            before: 0,
        }
    }

    /// The line of this number, from 1, without its end, if it is kept.
    pub fn line(&self, number: u32) -> Option<&[u8]> {
        let kept = self.kept.as_ref()?;
        let skipped = number.checked_sub(self.before)?.checked_sub(1)?;
        let mut rest = kept.as_slice();
        for turn in 0..skipped {
            rest = after_line(rest)?;
        }
        Some(first_line(rest))
    }

    /// What is kept without the lines that have ended.
    fn shortened(&mut self, kept: Vec<u8>) -> Result<Vec<u8>, AllocError>
        ensures { self.new.reader ≡ self.old.reader }
    {
        let (begun, ended) = begun_line(kept.as_slice());
        self.before = self.before.saturating_add(ended);
        Vec::from_slice(self.alloc, begun)
    }

    /// What is kept with a block more.
    fn lengthened(&mut self, kept: Vec<u8>, block: &[u8]) -> Result<Vec<u8>, AllocError>
        ensures { self.new.reader ≡ self.old.reader }
    {
        let mut bytes = if kept.len() < MOST_BYTES {
            kept
        } else {
            self.shortened(kept)?
        };
        bytes.extend_from_slice(block)?;
        Ok(bytes)
    }

    /// Keeps a block that was read, if lines are kept.
    fn keep(&mut self, block: &[u8])
        ensures { self.new.reader ≡ self.old.reader }
    {
        if let Some(kept) = self.kept.take() {
            self.kept = self.lengthened(kept, block).ok();
        }
    }
}

impl<R: Read> Read for KeptLines<R> {
    ghost remaining = { λ lines. R.remaining lines.reader };

    fn read(&mut self, block: &mut [u8]) -> io::Result<usize> {
        let count = self.reader.read(block)?;
        self.keep(&block[..count]);
        Ok(count)
    }
}
