//! The line that shows how far the audit of a chain has come.

use std::alloc::{AllocError, Global};

/// How far the audit of a chain has come, or how far it comes in a second.
#[derive(Clone, Copy, Debug)]
pub(crate) struct Distance {
    /// How many bytes were read.
    pub(crate) bytes: u64,
    /// How many segments are right.
    pub(crate) segments: u64,
    /// How many calls their orders have.
    pub(crate) calls: u64,
}

/// How many there were in each second; all of them if no second has passed.
fn each_second(all: u64, seconds: u64) -> u64 {
    all.checked_div(seconds).unwrap_or(all)
}

/// A number, and the word for what is counted.
fn counted(alloc: Global, number: u64, one: &str) -> Result<String, AllocError> {
    let end = if number == 1 { "" } else { "s" };
    format!(in alloc; "{number} {one}{end}")
}

/// A number of bytes in the greatest unit of which there are ten.
fn amount(alloc: Global, bytes: u64) -> Result<String, AllocError> {
    let kilo = bytes / 1000;
    let mega = kilo / 1000;
    let giga = mega / 1000;
    if giga >= 10 {
        format!(in alloc; "{giga} GB")
    } else if mega >= 10 {
        format!(in alloc; "{mega} MB")
    } else if kilo >= 10 {
        format!(in alloc; "{kilo} KB")
    } else {
        counted(alloc, bytes, "byte")
    }
}

/// A time in the greatest unit of which there are two.
fn duration(alloc: Global, seconds: u64) -> Result<String, AllocError> {
    let minutes = seconds / 60;
    let hours = minutes / 60;
    if hours >= 2 {
        format!(in alloc; "{hours} h")
    } else if minutes >= 2 {
        format!(in alloc; "{minutes} min")
    } else {
        format!(in alloc; "{seconds} s")
    }
}

/// Of how many bytes, if that is known.
fn of_all(alloc: Global, size: Option<u64>) -> Result<String, AllocError> {
    match size {
        Some(size) => {
            let all = amount(alloc, size)?;
            format!(in alloc; " of {all}")
        }
        None => Ok(String::new(alloc)),
    }
}

/// How long it still takes, if that is known.
fn to_go(alloc: Global, rest: Option<u64>) -> Result<String, AllocError> {
    match rest {
        Some(seconds) => {
            let time = duration(alloc, seconds)?;
            format!(in alloc; "; {time} to go")
        }
        None => Ok(String::new(alloc)),
    }
}

impl Distance {
    /// How far it comes in a second, after so many.
    fn each_second(self, seconds: u64) -> Distance {
        Distance {
            bytes: each_second(self.bytes, seconds),
            segments: each_second(self.segments, seconds),
            calls: each_second(self.calls, seconds),
        }
    }

    /// How many seconds the rest takes, as long for each byte as what was read in so many seconds.
    fn rest(self, seconds: u64, size: Option<u64>) -> Option<u64> {
        let left = size?.checked_sub(self.bytes)?;
        left.saturating_mul(seconds).checked_div(self.bytes)
    }

    fn text(self, alloc: Global, size: Option<u64>) -> Result<String, AllocError> {
        let bytes = amount(alloc, self.bytes)?;
        let of_all = of_all(alloc, size)?;
        let segments = counted(alloc, self.segments, "segment")?;
        let calls = counted(alloc, self.calls, "call")?;
        format!(in alloc; "{bytes}{of_all}, {segments}, {calls}")
    }

    /// What is shown after so many seconds, of an input with so many bytes, if their number is known.
    pub(crate) fn line(
        self,
        alloc: Global,
        seconds: u64,
        size: Option<u64>,
    ) -> Result<String, AllocError> {
        let all = self.text(alloc, size)?;
        let each = self.each_second(seconds).text(alloc, None)?;
        let rest = to_go(alloc, self.rest(seconds, size))?;
        format!(in alloc; "{all}; {each} a second{rest}")
    }
}
