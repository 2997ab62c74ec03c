//! What an audit finds.

use nr_trace::Fault;
use std::marker::Model;

/// Calls of a trace in an order, each by the index of its event. Contracts see the list.
#[derive(Debug, Drop)]
pub struct Order {
    calls: Vec<u32>,
}

impl Model for Order {
    ghost use Rattle.std.specs.Prelude.{ℕ, List};
    ghost use Rattle.std.specs.Coded.{coded_ℕ, coded_list};

    ghost Value = { List ℕ };

    ghost coded = { coded_list coded_ℕ };

    ghost view = { λ o. o.calls.items };
}

impl Order {
    ghost use Rattle.std.specs.Prelude.{◌≡◌};

    pub(crate) fn of(calls: Vec<u32>) -> Order
        ensures { result ≡ calls.items }
    {
        Order { calls }
    }

    pub(crate) fn into_calls(self) -> Vec<u32>
        ensures { result.items ≡ self }
    {
        self.calls
    }

    /// The calls from the first to the last.
    pub fn calls(&self) -> &[u32]
        ensures { result.now ≡ self.now }
    {
        &self.calls
    }
}

/// What an audit finds of a trace, or of a segment that is the first of its chain.
#[derive(Debug, Drop)]
pub enum Verdict {
    /// The trace is right, with this order of its calls: a linearization, which each dump fits.
    Yes(Order),
    /// The first fault.
    No(Fault),
}
