//! A thread's pass to a log.
ghost use Rattle.std.specs.Prelude.{◌≡◌, ◌<◌, ◌≤◌, [], ◌∷◌, All, MatchOption};
ghost use Rattle.nr_ring.specs.LogHistory.{IsLogHistory, log_after, tail};
ghost use Rattle.nr_ring.specs.Pass.{tails_of};
ghost use Rattle.nr_ring.specs.View.{StartsWith};
ghost use Rattle.nr_ring.specs.inside.Held.{Remembers};

use crate::cells::stored::Stored;
use crate::cells::words::HEAD_WORDS;
use crate::passing::rule::LogRule;
use crate::ring::name::LogName;
use crate::ring::tails::{Tails, tails_in};
use crate::ring::view::View;
use std::marker::Model;
use version_cell::Pass;

/// A pass to the cell of a log.
pub(crate) type Inner<J> = Pass<View, Stored, LogRule<J>, HEAD_WORDS>;

/// What one thread knows of a log: its pass to the cell, with the tails that it saw last; the replica that it owns, if any; and the ring
/// that it stores its entries in. Contracts see which log it is and what the pass knows of it.
#[derive(Drop)]
pub struct LogPass<J: LogName> {
    pub(crate) inner: Inner<J>,
    pub(crate) replica: Option<u8>,
    pub(crate) ring: u8,
}

impl<J: LogName> Model for LogPass<J> {
    ghost use Rattle.nr_ring.specs.Pass.{Known};
    ghost use Rattle.nr_ring.specs.inside.Held.{Remembers};

    ghost Value = { Known };

    ghost view = { λ p. record { log = p.inner.cell; view = p.inner.view } };

    ghost invariant = { λ p. Remembers J.depth J.replicas J.passes J.places p.replica p.ring p.inner };
}

impl<J: LogName> LogPass<J> {
    /// The pass to a log over one to its cell.
    pub(crate) fn new(inner: Inner<J>, replica: Option<u8>, ring: u8) -> LogPass<J>
        requires { Remembers J.depth J.replicas J.passes J.places replica ring inner }
        ensures { (result.log ≡ inner.cell) × (result.view ≡ inner.view) }
    {
        LogPass {
            inner,
            replica,
            ring,
        }
    }

    /// The tails of the log after all that the pass has seen.
    pub(crate) fn tails(&self) -> Tails
        ensures { result ≡ tails_of (log_after J.replicas self.now.view.seen) }
    {
        tails_in(self.inner.head())
    }

    /// The replica that it owns, or `None` where it owns none.
    pub fn replica(&self) -> Option<u8>
        ensures { MatchOption result (self.now.view.owns ≡ [])
            (λ replica. self.now.view.owns ≡ replica ∷ []) }
    {
        self.replica
    }

    /// Does nothing: its clauses say what holds of every pass. What it has seen is a history, which begins with all that it was
    /// given, and has no more entries than the log has places. Each replica that it owns is one of the log's, and it has one right to make
    /// events.
    pub fn has_seen_a_history(&self)
        ensures history { IsLogHistory J.depth J.replicas self.now.view.seen }
        ensures told { All (StartsWith self.now.view.seen) self.now.view.told }
        ensures owns { All (λ replica. replica < J.replicas) self.now.view.owns }
        ensures rights { self.now.view.rights ≡ 1 }
        ensures ends { tail (log_after J.replicas self.now.view.seen) ≤ J.places }
    {
        let _known = &self.inner;
    }
}
