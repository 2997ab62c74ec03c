//! A trace that comes in pieces, and the unit that shows why it is refused.

ghost use Rattle.std.specs.Prelude.{◌≡◌, ◌≢◌, ◌+◌, ◌≤◌, ◌++◌, ℕ, List, [], length, IfErr, IfOk, OnErr, OnOk, drop};
ghost use Rattle.nr_trace.specs.Feed.{HasNoFaultYet};
ghost use Rattle.nr_explain.specs.Units.{IfBad, IsBadFor, ReadsUnits};
ghost use Rattle.nr_explain.specs.declared.units.Unread.TheVariants as reasons;

use crate::ends::Ends;
use crate::units::Unread;
use nr_trace::{Feed, Trace};
use std::alloc::Global;
use std::marker::Model;
use std::mem::replace;
use vs_types::Fail;

/// A reader of a trace that comes in pieces, cut anywhere, which keeps what shows the unit that a refusal is about. Contracts see
/// the bytes that it was fed.
#[derive(Drop)]
pub struct UnitFeed {
    alloc: Global,
    feed: Feed,
    ends: Ends,
}

impl Model for UnitFeed {
    ghost use Rattle.std.specs.Prelude.{ℕ, List};

    ghost Value = { List ℕ };

    ghost use Rattle.nr_explain.specs.inside.Ends.{taken, IsFed};

    ghost view = { λ f. taken f.feed };

    ghost invariant = { λ f. IsFed (taken f.feed) f.feed f.ends };
}

impl UnitFeed {
    /// A feed that nothing was given yet. It allocates no memory.
    pub fn new(alloc: Global) -> UnitFeed
        ensures { result ≡ [] }
    {
        UnitFeed {
            alloc,
            feed: Feed::new(alloc),
            ends: Ends::new(alloc),
        }
    }

    /// Takes the next piece. It allocates the memory that `nr_trace::Feed` takes, 4,096 bytes for the last that came, and where the
    /// piece is refused as much as it has. After an error nothing was given to the feed, as to a new one.
    ///
    /// # Errors
    ///
    /// The bad unit, as soon as it is whole: no later piece can mend it. And `Memory` where a growth of memory was refused.
    pub fn feed(&mut self, piece: &[u8]) -> Result<(), Unread>
        ensures fed { OnOk result ((self.new ≡ self.old ++ piece.now)
            × HasNoFaultYet (self.old ++ piece.now)) }
        ensures bad { IfErr result (IfBad (IsBadFor (self.old ++ piece.now))) }
        ensures emptied { OnErr result (self.new ≡ []) }
    {
        let empty = UnitFeed::new(self.alloc);
        let UnitFeed {
            alloc,
            mut feed,
            mut ends,
        } = replace(self, empty);
        match feed.feed_or_refuse(piece) {
            Ok(()) => {
                ends.keep(piece)?;
                *self = UnitFeed { alloc, feed, ends };
                Ok(())
            }
            Err(Fail::Memory) => Err(Unread::Memory),
            Err(Fail::Refused(refusal)) => {
                let bad = ends.refused(piece, refusal)?;
                Err(Unread::Bad(bad))
            }
        }
    }

    /// The trace that the pieces spell one after the other. It allocates no memory.
    ///
    /// # Errors
    ///
    /// The unit that is cut off.
    pub fn end(self) -> Result<Trace, Unread>
        ensures reads { ReadsUnits self result }
        ensures memory { IfErr result (λ unread. unread ≢ reasons.Memory) }
    {
        let UnitFeed {
            alloc: _,
            feed,
            ends,
        } = self;
        match feed.end_or_refuse() {
            Ok(trace) => Ok(trace),
            Err(Fail::Memory) => Err(Unread::Memory),
            Err(Fail::Refused(refusal)) => Err(Unread::Bad(ends.cut_off(refusal))),
        }
    }
}
