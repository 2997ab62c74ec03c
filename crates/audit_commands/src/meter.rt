//! Standard error, and how far an audit has come there.

use crate::diagnostics::Diagnostics;
use crate::progress_line::Distance;
use audit_readers::{Met, Progress, Totals, write_text};
use std::alloc::{AllocError, Global};
use std::io::{self, Write};
use std::rt::Clock;
use std::time::Instant;

/// Standard error. If it is a terminal, it can show how far the audit of a chain has come: a line that is written over once a second. At the
/// end it shows there what is counted of the right traces or of the right chain.
#[derive(Drop)]
pub struct Meter<C, E> {
    alloc: Global,
    clock: C,
    errors: E,
    is_terminal: bool,
    /// When the audit began, if its progress is to be shown.
    begun: Option<Instant>,
    /// How many bytes its input has, if that is known.
    size: Option<u64>,
    /// How many seconds after that it was shown last; 0 if nothing is shown.
    shown: u64,
    come: Distance,
    /// How much the right traces or the right chain have, if there is one.
    counted: Option<Totals>,
}

impl<C: Clock, E: Write> Meter<C, E> {
    /// Over this writer, which may be a terminal. The clock says when a second has passed.
    pub fn new(alloc: Global, clock: C, errors: E, is_terminal: bool) -> Meter<C, E> {
        Meter {
            alloc,
            clock,
            errors,
            is_terminal,
            begun: None,
            size: None,
            shown: 0,
            come: Distance {
                bytes: 0,
                segments: 0,
                calls: 0,
            },
            counted: None,
        }
    }

    /// What is written after so many seconds. A terminal cuts the line where its row ends, so that the next one covers it.
    fn line(&self, seconds: u64) -> Result<String, AllocError> {
        let line = self.come.line(self.alloc, seconds, self.size)?;
        format!(in self.alloc; "\x1b[K\x1b[?7l{line}\x1b[?7h\r")
    }

    /// Shows what there is after so many seconds, if there is memory for it.
    fn show(&mut self, seconds: u64) {
        self.shown = seconds;
        if let Ok(line) = self.line(seconds) {
            let _ = write_text(&mut self.errors, line.as_bytes());
        }
    }

    /// How many calls there are, and how many of these overlap; of a chain also how many touches were open beside an update.
    fn counts_line(&self, totals: Totals) -> Result<String, AllocError> {
        let (calls, overlapping) = (totals.calls, totals.met.overlapping);
        if self.come.segments == 0 {
            return format!(in self.alloc; "{calls} calls, {overlapping} overlapping\n");
        }
        let beside = totals.met.beside;
        format!(in self.alloc;
            "{calls} calls, {overlapping} overlapping, {beside} touches beside an update\n"
        )
    }

    /// What excuses the touches of a right chain.
    fn excuses_line(&self, met: Met) -> Result<String, AllocError> {
        let Met {
            since_open,
            since_kept,
            since_lagging,
            repeated,
            ..
        } = met;
        format!(in self.alloc;
            "excuses: {since_open} open, {since_kept} kept, {since_lagging} lagging, {repeated} repeated\n"
        )
    }

    /// Shows this line, if there was memory for it.
    fn show_line(&mut self, line: Result<String, AllocError>) {
        if let Ok(line) = line {
            let _ = write_text(&mut self.errors, line.as_bytes());
        }
    }

    /// Shows how much the right traces or the right chain have, on a terminal, if there is one; of a chain that was watched also what excuses its
    /// touches.
    fn show_counts(&mut self, watched: bool) {
        let Some(counted) = self.counted.take() else {
            return;
        };
        if !self.is_terminal {
            return;
        }
        let line = self.counts_line(counted);
        self.show_line(line);
        if watched {
            let line = self.excuses_line(counted.met);
            self.show_line(line);
        }
    }

    /// Removes what is shown.
    fn clear(&mut self) {
        if self.shown > 0 {
            self.shown = 0;
            let _ = write_text(&mut self.errors, b"\x1b[K");
        }
    }
}

impl<C: Clock, E: Write> Progress for Meter<C, E> {
    fn start(&mut self, size: Option<u64>) {
        if self.is_terminal {
            self.begun = Instant::now(&self.clock).ok();
            self.size = size;
        }
    }

    fn read(&mut self, bytes: usize) {
        self.come.bytes = self.come.bytes.saturating_add(bytes as u64);
        let Some(begun) = self.begun else {
            return;
        };
        if let Ok(passed) = begun.elapsed(&self.clock) {
            let seconds = passed.as_secs();
            if seconds > self.shown {
                self.show(seconds);
            }
        }
    }

    fn right(&mut self, calls: usize) {
        self.come.segments = self.come.segments.saturating_add(1);
        self.come.calls = self.come.calls.saturating_add(calls as u64);
    }

    fn wants_counts(&self) -> bool {
        self.is_terminal
    }

    fn counted(&mut self, totals: Totals) {
        let sums = self.counted.unwrap_or(Totals::none());
        self.counted = Some(sums.plus(totals));
    }

    fn end(&mut self) {
        self.clear();
        let watched = self.begun.is_some();
        self.begun = None;
        self.show_counts(watched);
    }
}

impl<C: Clock, E: Write> Write for Meter<C, E> {
    ghost contents = { λ meter. E.contents meter.errors };

    fn write(&mut self, bytes: &[u8]) -> io::Result<usize> {
        self.errors.write(bytes)
    }

    fn flush(&mut self) -> io::Result<()> {
        self.errors.flush()
    }
}

impl<C: Clock, E: Write> Diagnostics for Meter<C, E> {
    ghost is_seen = { λ meter. meter.is_terminal };

    fn is_terminal(&self) -> bool {
        self.is_terminal
    }
}
