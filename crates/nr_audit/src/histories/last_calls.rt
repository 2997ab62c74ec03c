//! The last call of each thread.

ghost use Rattle.std.specs.Prelude.{◌≡◌, ◌≢◌, ℕ, ◌+◌, ◌<◌, ◌^◌, IfOk, OnOk, None, Some};
ghost use Rattle.nr_audit.specs.inside.LastCalls.{last_of, HasRowFor, HasRows};

use crate::checks::tables::{MaybeIndex, empty_table};
use std::alloc::Global;
use std::collections::BTreeMap;
use vs_types::Memory;

/// The last call of each thread that has made one. It takes no more memory than the events of a trace do, however many threads its
/// layout has.
#[derive(Drop)]
pub(crate) enum LastCalls {
    /// A row for each thread of the layout.
    Rows(Vec<MaybeIndex>),
    /// An entry for each thread that has made a call.
    Entries(BTreeMap<u16, u32>),
}

impl LastCalls {
    /// No thread has made a call. Allocates four bytes for each thread; where there are more threads than events, nothing yet.
    pub(crate) fn new(alloc: Global, threads: u16, events: usize) -> Result<LastCalls, Memory>
        ensures none { IfOk result (λ last. (thread : ℕ) → last_of last thread ≡ None) }
        ensures rows { IfOk result (HasRows threads) }
    {
        if threads as usize > events {
            return Ok(LastCalls::Entries(BTreeMap::new(alloc)));
        }
        let rows = empty_table(alloc, threads as usize)?;
        Ok(LastCalls::Rows(rows))
    }

    /// The last call of a thread.
    pub(crate) fn of(&self, thread: u16) -> Option<u32>
        requires { HasRowFor thread self.now }
        ensures { result ≡ last_of self.now thread }
    {
        match self {
            LastCalls::Rows(rows) => rows[thread as usize].get(),
            LastCalls::Entries(entries) => entries.get(&thread).copied(),
        }
    }

    /// Notes a call as the last one of a thread. Allocates memory for an entry.
    pub(crate) fn note(&mut self, thread: u16, call: u32) -> Result<(), Memory>
        requires row { HasRowFor thread self.old }
        requires few { call + 1 < 2 ^ 32 }
        ensures own { OnOk result (last_of self.new thread ≡ Some call) }
        ensures others { OnOk result ((other : ℕ) → other ≢ thread
            → last_of self.new other ≡ last_of self.old other) }
        ensures rows { (threads : ℕ) → HasRows threads self.old → OnOk result (HasRows threads self.new) }
    {
        match self {
            LastCalls::Rows(rows) => {
                rows[thread as usize] = MaybeIndex::of(call);
            }
            LastCalls::Entries(entries) => {
                entries.insert(thread, call)?;
            }
        }
        Ok(())
    }
}
