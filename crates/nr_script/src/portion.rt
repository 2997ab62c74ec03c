//! A script of any length that comes in pieces, portion by portion.
ghost use Rattle.std.specs.Prelude.{◌≡◌, ◌<◌, ◌≤◌, ◌+◌, [], IfErr, IfOk, OnErr, OnOk, length, map, replicate, take};
ghost use Rattle.vs_types.specs.Refusal.{IfRefused};
ghost use Rattle.nr_script.specs.Portion.{EndsPortion, HasBadNext, IsNoRequest, TakesLines, no_portion, request_count};

use crate::gathering::Gathering;
use crate::line_feed::LineFeed;
use crate::script::BadLine;
use std::alloc::Global;
use std::marker::Model;
use vs_types::{Depth, Fail, Memory, Request};

/// A reader of a script of any length, which comes in pieces, cut anywhere, and lists no steps. It gathers what each thread asks, until that
/// is handed out. Contracts see the depth, the line that has begun, its number, and what each of 64 threads asks since then.
#[derive(Debug, Drop)]
pub struct PortionFeed {
    depth: Depth,
    lines: LineFeed,
    gathering: Gathering,
}

impl Model for PortionFeed {
    ghost use Rattle.nr_script.specs.Portion.{PortionState};
    ghost use Rattle.nr_script.specs.inside.Gathering.{IsCounted, state_of};

    ghost Value = { PortionState };

    ghost view = { λ p. state_of p.depth p.lines p.gathering };

    ghost invariant = { λ p. IsCounted p.gathering };
}

impl PortionFeed {
    /// A script of which nothing has come yet, and whose requests are to be well formed at the depth. It allocates the lists.
    ///
    /// # Errors
    ///
    /// Out of memory.
    pub fn new(alloc: Global, depth: Depth) -> Result<PortionFeed, Memory>
        ensures { IfOk result (λ portion. portion ≡ no_portion depth) }
    {
        let gathering = Gathering::new(alloc)?;
        Ok(PortionFeed {
            depth,
            lines: LineFeed::new(alloc),
            gathering,
        })
    }

    /// How many requests were gathered since the last portion was handed out.
    pub fn asked(&self) -> usize
        ensures count { result ≡ request_count self.now.lists }
        ensures one_each { length self.now.lists ≡ 64 }
    {
        self.gathering.asked
    }

    /// Takes lines at the front of the next piece: all of it, or so much that so many requests are gathered, at least 1 byte if there
    /// is one and that many are not gathered yet. How many bytes were taken. It allocates memory for the requests, and for a line that goes
    /// over the end of a piece.
    ///
    /// # Errors
    ///
    /// `BadLine` with the number of the first line that has no form, whose request is not well formed at the depth, or that lists a step.
    /// `Memory` where a growth of memory was refused. It is of no use any more then.
    pub fn feed(&mut self, piece: &[u8], most: usize) -> Result<usize, Fail<BadLine>>
        requires { request_count self.old.lists ≤ most }
        ensures within { IfOk result (λ count. count ≤ length piece.now) }
        ensures takes { IfOk result (λ count. TakesLines self.old (take count piece.now) self.new) }
        ensures few { OnOk result (request_count self.new.lists ≤ most) }
        ensures full { IfOk result
            (λ count. count < length piece.now → request_count self.new.lists ≡ most) }
        ensures some { IfOk result
            (λ count. request_count self.old.lists < most → 0 < length piece.now → 0 < count) }
        ensures bad { IfErr result (IfRefused (λ bad. HasBadNext self.old piece.now most bad.0)) }
    {
        self.gathering
            .feed(&mut self.lines, self.depth, piece, most)
    }

    /// What each of 64 threads asks since the last portion, which then has been handed out. It allocates new lists.
    ///
    /// # Errors
    ///
    /// Out of memory; nothing is handed out then.
    pub fn hand_out(&mut self, alloc: Global) -> Result<Vec<Vec<Request>>, Memory>
        ensures lists { IfOk result
            (λ lists. map (λ list. list.items) lists.items ≡ self.old.lists) }
        ensures rest { OnOk result (self.new ≡ record self.old { lists = replicate 64 [] }) }
        ensures err { OnErr result (self.new ≡ self.old) }
    {
        self.gathering.hand_out(alloc)
    }

    /// The last portion, where no piece comes any more: what each of 64 threads asks since the last one that was handed out.
    ///
    /// # Errors
    ///
    /// `BadLine` with the number of the line that has begun, as of `feed`. `Memory` where a growth of memory was refused.
    pub fn end(self) -> Result<Vec<Vec<Request>>, Fail<BadLine>>
        requires { request_count self.lists < usize.MAX }
        ensures ends { IfOk result
            (λ lists. EndsPortion self (map (λ list. list.items) lists.items)) }
        ensures few { IfOk result (λ lists.
            request_count (map (λ list. list.items) lists.items) ≤ request_count self.lists + 1) }
        ensures bad { IfErr result
            (IfRefused (λ bad. (bad.0 ≡ self.number) × IsNoRequest self.depth self.begun)) }
    {
        let PortionFeed {
            depth,
            lines,
            gathering,
        } = self;
        let mut gathered = gathering;
        gathered.take(lines.end(depth))?;
        Ok(gathered.lists)
    }
}
