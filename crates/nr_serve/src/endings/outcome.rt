//! What comes of a run.
use crate::endings::call_outcome::CallOutcome;
use nr_audit::Order;
use nr_ring::{LogName, LogPass};
use nr_trace::Fault;
use std::marker::Model;

/// What came of the calls, by thread and then by call. Contracts see the lists.
#[derive(Debug, Drop)]
pub struct Answers {
    threads: Vec<Vec<CallOutcome>>,
}

impl Model for Answers {
    ghost use Rattle.std.specs.Prelude.{List, map};
    ghost use Rattle.nr_serve.specs.declared.endings.call_outcome.CallOutcome.{CallOutcome};

    ghost Value = { List (List CallOutcome) };

    ghost view = { λ a. map (λ said. said.items) a.threads.items };
}

impl Answers {
    ghost use Rattle.std.specs.Prelude.{◌≡◌, map};

    pub(crate) fn of(threads: Vec<Vec<CallOutcome>>) -> Answers
        ensures { result ≡ map (λ said. said.items) threads.items }
    {
        Answers { threads }
    }

    /// What came of the calls of each thread, in order.
    pub fn threads(&self) -> &[Vec<CallOutcome>]
        ensures { map (λ said. said.items) result.now ≡ self.now }
    {
        &self.threads
    }
}

/// The bytes of a trace. Contracts see the list.
#[derive(Debug, Drop)]
pub struct TraceBytes {
    bytes: Vec<u8>,
}

impl Model for TraceBytes {
    ghost use Rattle.std.specs.Prelude.{ℕ, List};

    ghost Value = { List ℕ };

    ghost view = { λ t. t.bytes.items };
}

impl TraceBytes {
    ghost use Rattle.std.specs.Prelude.{◌≡◌};

    pub(crate) fn of(bytes: Vec<u8>) -> TraceBytes
        ensures { result ≡ bytes.items }
    {
        TraceBytes { bytes }
    }

    /// The bytes.
    pub fn as_slice(&self) -> &[u8]
        ensures { result.now ≡ self.now }
    {
        &self.bytes
    }
}

/// The passes of the threads. Contracts see the list.
#[derive(Drop)]
pub struct Passes<J: LogName> {
    passes: Vec<LogPass<J>>,
}

impl<J: LogName> Model for Passes<J> {
    ghost use Rattle.std.specs.Prelude.{List};
    ghost use Rattle.nr_ring.specs.Pass.{Known};

    ghost Value = { List Known };

    ghost view = { λ p. p.passes.items };
}

impl<J: LogName> Passes<J> {
    ghost use Rattle.std.specs.Prelude.{◌≡◌};

    pub(crate) fn of(passes: Vec<LogPass<J>>) -> Passes<J>
        ensures { result ≡ passes.items }
    {
        Passes { passes }
    }

    /// The pass of each thread.
    pub fn threads(&self) -> &[LogPass<J>]
        ensures { result.now ≡ self.now }
    {
        &self.passes
    }
}

/// What came of a run whose threads have ended: the auditor's verdict on the bytes of its trace.
#[derive(Drop)]
pub enum Outcome<J: LogName> {
    /// The auditor found the trace right. What came of the calls, the trace's bytes, the recorded order of its calls, and the
    /// passes of the threads.
    Verified {
        answers: Answers,
        trace: TraceBytes,
        order: Order,
        passes: Passes<J>,
    },
    /// The first fault of the trace.
    Refused {
        trace: TraceBytes,
        fault: Fault,
    },
}
