//! What is gathered of the lines of a script that comes in pieces.
ghost use Rattle.std.specs.Prelude.{◌≡◌, ◌<◌, ◌≤◌, ◌+◌, [], IfErr, IfOk, OnErr, OnOk, length, map, replicate, take};
ghost use Rattle.vs_types.specs.Refusal.{IfRefused};
ghost use Rattle.nr_script.specs.Portion.{HasBadNext, TakesLines};

use crate::line::Line;
use crate::line_feed::{Fed, LineFeed};
use crate::script::BadLine;
use std::alloc::Global;
use std::mem;
use vs_types::{Depth, Fail, Memory, Request, THREADS};

/// What each of 64 threads asks in the lines since the last portion, and the number of the line that has begun.
#[derive(Debug, Drop)]
pub(crate) struct Gathering {
    /// From 1; 4,294,967,295 for each line from there on.
    pub(crate) number: u32,
    /// A list for each thread.
    pub(crate) lists: Vec<Vec<Request>>,
    /// How many requests the lists have.
    pub(crate) asked: usize,
}

/// An empty list for each of 64 threads.
fn no_lists(alloc: Global) -> Result<Vec<Vec<Request>>, Memory>
    ensures { IfOk result (λ lists. map (λ list. list.items) lists.items ≡ replicate 64 []) }
{
    let mut lists = Vec::with_capacity(alloc, THREADS as usize)?;
    for thread in 0..THREADS {
        lists.push(Vec::new(alloc))?;
    }
    Ok(lists)
}

impl Gathering {
    ghost use Rattle.nr_script.specs.inside.Gathering.{IsCounted, IsNothingOrStep, IsOfThreads, TakesLine, lists_in, state_of};
    ghost use Rattle.nr_script.specs.inside.Reading.{with_request};

    /// Nothing is gathered, and the first line has begun.
    pub(crate) fn new(alloc: Global) -> Result<Gathering, Memory>
        ensures number { IfOk result (λ gathering. gathering.number ≡ 1) }
        ensures lists { IfOk result (λ gathering. lists_in gathering ≡ replicate 64 []) }
        ensures counted { IfOk result IsCounted }
    {
        let lists = no_lists(alloc)?;
        Ok(Gathering {
            number: 1,
            lists,
            asked: 0,
        })
    }

    /// A request more.
    fn ask(&mut self, thread: u16, request: Request) -> Result<(), Memory>
        requires counted { IsCounted self.old }
        requires thread { thread < 64 }
        requires room { self.old.asked < usize.MAX }
        ensures counted { IsCounted self.new }
        ensures number { self.new.number ≡ self.old.number }
        ensures asked { OnOk result (self.new.asked ≡ self.old.asked + 1) }
        ensures lists { OnOk result
            (lists_in self.new ≡ with_request thread request (lists_in self.old)) }
    {
        self.lists[thread as usize].push(request)?;
        self.asked += 1;
        Ok(())
    }

    /// Takes what the line says that has begun, and the next begins.
    ///
    /// # Errors
    ///
    /// `BadLine` with the line's number where it says nothing, or a step. `Memory` where a growth of memory was refused.
    pub(crate) fn take(&mut self, said: Option<Line>) -> Result<(), Fail<BadLine>>
        requires counted { IsCounted self.old }
        requires threads { IsOfThreads said }
        requires room { self.old.asked < usize.MAX }
        ensures counted { IsCounted self.new }
        ensures few { OnOk result (self.new.asked ≤ self.old.asked + 1) }
        ensures taken { OnOk result (TakesLine said self.old self.new) }
        ensures bad { IfErr result
            (IfRefused (λ bad. (bad.0 ≡ self.old.number) × IsNothingOrStep said)) }
    {
        let number = self.number;
        self.number = number.saturating_add(1);
        let Some(line) = said else {
            return Err(Fail::Refused(BadLine(number)));
        };
        match line {
            Line::PassedOver => {}
            Line::Request(thread, request) => self.ask(thread, request)?,
            Line::Step(_) => return Err(Fail::Refused(BadLine(number))),
        }
        Ok(())
    }

    /// Takes the lines that end in the next piece, up to so many requests in all.
    pub(crate) fn feed(
        &mut self,
        lines: &mut LineFeed,
        depth: Depth,
        piece: &[u8],
        most: usize,
    ) -> Result<usize, Fail<BadLine>>
        requires counted { IsCounted self.old }
        requires few { self.old.asked ≤ most }
        ensures counted { IsCounted self.new }
        ensures within { IfOk result (λ count. count ≤ length piece.now) }
        ensures takes { IfOk result (λ count. TakesLines (state_of depth lines.old self.old)
            (take count piece.now) (state_of depth lines.new self.new)) }
        ensures few { OnOk result (self.new.asked ≤ most) }
        ensures full { IfOk result (λ count. count < length piece.now → self.new.asked ≡ most) }
        ensures some { IfOk result
            (λ count. self.old.asked < most → 0 < length piece.now → 0 < count) }
        ensures bad { IfErr result (IfRefused
            (λ bad. HasBadNext (state_of depth lines.old self.old) piece.now most bad.0)) }
    {
        let mut taken = 0;
        while taken < piece.len() {
            if self.asked >= most {
                return Ok(taken);
            }
            match lines.feed(depth, &piece[taken..])? {
                Fed::More => return Ok(piece.len()),
                Fed::Ended(count, said) => {
                    self.take(said)?;
                    taken += count;
                }
            }
        }
        Ok(taken)
    }

    /// What each thread asks, which then has been handed out.
    pub(crate) fn hand_out(&mut self, alloc: Global) -> Result<Vec<Vec<Request>>, Memory>
        requires counted { IsCounted self.old }
        ensures counted { IsCounted self.new }
        ensures lists { IfOk result
            (λ lists. map (λ list. list.items) lists.items ≡ lists_in self.old) }
        ensures none { OnOk result (lists_in self.new ≡ replicate 64 []) }
        ensures number { self.new.number ≡ self.old.number }
        ensures err { OnErr result (self.new ≡ self.old) }
    {
        let fresh = no_lists(alloc)?;
        self.asked = 0;
        Ok(mem::replace(&mut self.lists, fresh))
    }
}
