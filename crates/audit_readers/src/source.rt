//! An input that is read in blocks, and what its last read gave.

ghost use Rattle.std.specs.Prelude.{◌≡◌, Ok};
ghost use Rattle.std.specs.Result.{result_err, result_ok};

use crate::form::{Form, form_of};
use std::io::{self, Read};

/// So many bytes at the front say what an input is.
const HEAD: usize = 6;

/// A reader of which it is known what its last read gave.
pub trait Source: Read {
    ghost use Rattle.std.specs.Prelude.{ℕ, Option};
    ghost use Rattle.std.specs.Io.{ReadsAtMost};
    ghost use Rattle.std.specs.Io.KnownBytes.{ReadConsumes};

    /// How many bytes the last `read_some` gave; none where it gave an error.
    ghost last_read: { Self → Option ℕ };

    /// Reads once, as `read` does, and notes what that gave.
    ///
    /// # Errors
    ///
    /// The error that the read gave.
    fn read_some(&mut self, block: &mut [u8]) -> io::Result<usize>
        ensures bound { ReadsAtMost result block.new }
        ensures bytes { ReadConsumes (Self.remaining self.old) (Self.remaining self.new) result
            block.new }
        ensures last { last_read self.new ≡ result_ok result };
}

/// A reader that notes what its last read gave, its first six bytes, and whether it has ended.
#[derive(Drop)]
pub struct Input<R> {
    pub reader: R,
    last: io::Result<usize>,
    head: [u8; HEAD],
    /// How many bytes of the head have been read.
    known: usize,
    ended: bool,
}

impl<R> Input<R> {
    /// A reader of which nothing has been read yet.
    pub fn new(reader: R) -> Input<R>
        ensures reader { result.reader ≡ reader }
        ensures last { result.last ≡ Ok 0 }
    {
        Input {
            reader,
            last: Ok(0),
            head: [0; HEAD],
            known: 0,
            ended: false,
        }
    }

    /// The error that the last read gave, if it gave one.
    pub fn error(&self) -> Option<io::Error>
        ensures { result ≡ result_err self.now.last }
    {
        self.last.err()
    }

    /// What it is, by its first bytes.
    pub fn form(&self) -> Form {
        if self.ended && self.known == 0 {
            return Form::Empty;
        }
        form_of(&self.head[..self.known.min(HEAD)])
    }

    /// Keeps bytes that were read, if they are among the first six.
    fn note(&mut self, bytes: &[u8])
        ensures reader { self.new.reader ≡ self.old.reader }
        ensures last { self.new.last ≡ self.old.last }
    {
        for byte in bytes {
            if self.known >= HEAD {
                return;
            }
            self.head[self.known] = *byte;
            self.known += 1;
        }
    }
}

impl<R: Read> Read for Input<R> {
    ghost remaining = { λ input. R.remaining input.reader };

    fn read(&mut self, block: &mut [u8]) -> io::Result<usize> {
        self.reader.read(block)
    }
}

impl<R: Read> Source for Input<R> {
    ghost last_read = { λ input. result_ok input.last };

    fn read_some(&mut self, block: &mut [u8]) -> io::Result<usize> {
        self.last = self.reader.read(block);
        if let Ok(count) = self.last {
            self.ended = count == 0;
            self.note(&block[..count]);
        }
        self.last
    }
}
