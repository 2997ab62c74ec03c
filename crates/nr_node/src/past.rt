//! What a replica has applied and keeps no more.
ghost use Rattle.std.specs.Prelude.{◌≡◌, take};
ghost use Rattle.nr_ring.specs.LogHistory.{log_after};
ghost use Rattle.nr_node.specs.inside.Replica.{PastState};

use crate::seen::Seen;
use nr_ring::{LogName, LogPass};
use std::marker::Model;

/// The entries that a replica has applied and keeps no more: how many they are, and, for clauses alone, what its pass had seen when
/// it forgot them. Contracts see the entries.
#[derive(Drop)]
pub(crate) struct Past<J: LogName> {
    count: u64,
    seen: Seen<LogPass<J>>,
}

impl<J: LogName> Model for Past<J> {
    ghost use Rattle.std.specs.Prelude.{take};
    ghost use Rattle.nr_ring.specs.LogHistory.{log_after};
    ghost use Rattle.nr_node.specs.inside.Replica.{PastState};

    ghost Value = { PastState };

    ghost view = { λ p. record {
      count = p.count;
      entries = take p.count (log_after J.replicas p.seen.value.view.seen).entries;
    } };
}

impl<J: LogName> Past<J> {
    /// So many entries, which are the first of those that a pass has seen.
    pub(crate) fn of(count: u64, pass: &LogPass<J>) -> Past<J>
        ensures { result ≡ record {
          count = count;
          entries = take count (log_after J.replicas pass.now.view.seen).entries;
        } }
    {
        Past {
            count,
            seen: Seen::of(pass),
        }
    }

    /// How many they are.
    #[inline(always)]
    pub(crate) fn count(&self) -> u64
        ensures { result ≡ self.now.count }
    {
        self.count
    }
}
