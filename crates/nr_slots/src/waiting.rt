//! Updates that wait for a combiner.
ghost use Rattle.std.specs.Prelude.{◌≡◌, ◌<◌};
ghost use Rattle.vs_types.specs.declared.limits.TheConstants.{CALLS};

use nr_ring::PackedEntry;
use std::marker::Model;
use vs_types::{LogEntry, Op};

/// An update that waits for a combiner: the thread that posted it, the number of its call, which is below `CALLS`, and its operation.
/// Call and operation are kept as the two words of the log's entry; contracts see the three.
#[derive(Clone, Copy, Debug, PartialEq, Eq)]
pub struct Waiting {
    thread: u16,
    entry: PackedEntry,
}

impl Model for Waiting {
    ghost use Rattle.std.specs.Prelude.{◌<◌};
    ghost use Rattle.vs_types.specs.declared.limits.TheConstants.{CALLS};
    ghost use Rattle.nr_slots.specs.Updates.{Waiting};

    ghost Value = { Waiting };

    ghost view = { λ w. record { thread = w.thread; call = w.entry.call; op = w.entry.op } };

    ghost invariant = { λ w. w.entry.call < CALLS };

    ghost inverse = { λ w. record {
      thread = w.thread;
      entry = record { call = w.call; op = w.op };
    } };
}

impl Waiting {
    /// An update of a thread.
    #[inline(always)]
    pub fn new(thread: u16, call: u32, op: Op) -> Waiting
        requires { call < CALLS }
        ensures thread { result.thread ≡ thread }
        ensures call { result.call ≡ call }
        ensures op { result.op ≡ op }
    {
        let entry = PackedEntry::new(LogEntry { call, op });
        Waiting { thread, entry }
    }

    /// The thread that posted it.
    #[inline(always)]
    pub fn thread(self) -> u16
        ensures { result ≡ self.thread }
    {
        self.thread
    }

    /// The number of its call, which is below 131,072.
    #[inline(always)]
    pub fn call(self) -> u32
        ensures call { result ≡ self.call }
        ensures in_range { result < CALLS }
    {
        self.entry.call()
    }

    /// What it does.
    pub fn op(self) -> Op
        ensures { result ≡ self.op }
    {
        let LogEntry { op, .. } = self.entry.entry();
        op
    }

    /// What it asks the log for. Its call is below 131,072.
    #[inline(always)]
    pub fn entry(self) -> PackedEntry
        ensures entry { result ≡ record { call = self.call; op = self.op } }
        ensures in_range { self.call < CALLS }
    {
        self.entry
    }
}

impl Default for Waiting {
    /// Fills the unused places of an `ArrayVec`.
    fn default() -> Waiting {
        let LogEntry { op, .. } = LogEntry::default();
        Waiting::new(0, 0, op)
    }
}
