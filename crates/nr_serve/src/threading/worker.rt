//! What a thread of a run hands back.

use crate::endings::call_outcome::CallOutcome;
use nr_record::Pen;
use nr_ring::{LogName, LogPass};
use std::marker::Model;

/// What a thread hands back when it has ended: its pen, its pass, and what came of each of its calls, in order.
#[derive(Drop)]
pub(crate) struct Worker<J: LogName> {
    pub(crate) pen: Pen,
    pub(crate) pass: LogPass<J>,
    pub(crate) said: Vec<CallOutcome>,
}

impl<J: LogName> Model for Worker<J> {
    ghost use Rattle.nr_serve.specs.inside.Calls.{WorkerState};

    ghost Value = { WorkerState };

    ghost view = { λ w. record { pen = w.pen; pass = w.pass; said = w.said.items } };
}
