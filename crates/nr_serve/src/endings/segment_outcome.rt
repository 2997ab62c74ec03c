//! What comes of a segment of a run.
use crate::endings::outcome::{Answers, Passes, TraceBytes};
use crate::threading::chain_run::ChainRun;
use nr_audit::Order;
use nr_ring::LogName;
use nr_trace::Fault;

/// What comes of a segment whose threads have ended: the auditor's verdict on it.
#[derive(Drop)]
pub enum SegmentOutcome<J: LogName> {
    /// It is right, and all that was asked is answered. What came of its calls, its bytes, the recorded order of its calls, and the run,
    /// which goes on.
    Right {
        answers: Answers,
        bytes: TraceBytes,
        order: Order,
        run: ChainRun<J>,
    },
    /// It is right, and a thread was stopped: it is the run's last. The passes are those of the threads.
    Last {
        answers: Answers,
        bytes: TraceBytes,
        order: Order,
        passes: Passes<J>,
    },
    /// The first fault of the segment.
    Wrong {
        bytes: TraceBytes,
        fault: Fault,
    },
}
