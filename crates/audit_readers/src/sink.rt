//! A writer of which it is known whether anybody still reads what it writes.

use std::io::{self, ErrorKind, Write};

/// A writer of which it is known whether anybody still reads what it writes.
pub trait Sink: Write {
    /// Whether its last write or flush failed since the other end of a pipe is closed.
    fn is_closed(&self) -> bool;
}

/// A writer that notes whether the other end of its pipe is closed.
#[derive(Drop)]
pub struct Output<W> {
    pub writer: W,
    closed: bool,
}

/// Whether a call failed since the other end of a pipe is closed.
fn has_no_reader<T>(made: &io::Result<T>) -> bool {
    match made {
        Ok(_) => false,
        Err(error) => error.kind() == ErrorKind::BrokenPipe,
    }
}

impl<W> Output<W> {
    /// A writer to which nothing was written yet.
    pub fn new(writer: W) -> Output<W> {
        Output {
            writer,
            closed: false,
        }
    }
}

impl<W: Write> Write for Output<W> {
    ghost contents = { λ output. W.contents output.writer };

    fn write(&mut self, bytes: &[u8]) -> io::Result<usize> {
        let written = self.writer.write(bytes);
        self.closed = has_no_reader(&written);
        written
    }

    fn flush(&mut self) -> io::Result<()> {
        let flushed = self.writer.flush();
        self.closed = has_no_reader(&flushed);
        flushed
    }
}

impl<W: Write> Sink for Output<W> {
    fn is_closed(&self) -> bool {
        self.closed
    }
}
