//! What is kept of the lines of a script as they are read.
ghost use Rattle.std.specs.Prelude.{◌≡◌, ◌+◌, ◌<◌, max, [], ◌∷◌, ◌++◌, List, length, map, IfOk, MatchResult, OnOk, Some};
ghost use Rattle.std.specs.Option.{option_or};
ghost use Rattle.vs_types.specs.declared.limits.TheConstants.{LOG_PLACES};
ghost use Rattle.vs_types.specs.Refusal.{IfRefused};
ghost use Rattle.nr_script.specs.Lines.{Says};
ghost use Rattle.nr_script.specs.Script.{IsBadAfter};
ghost use Rattle.nr_script.specs.declared.line.Line.{Line};

use crate::line::{Line, parse_line};
use crate::script::{BadLine, SCRIPT_REQUESTS, SCRIPT_STEPS};
use nr_core::Step;
use std::alloc::Global;
use vs_types::{Depth, Fail, Memory, Request, THREADS};

/// What the lines so far have said.
#[derive(Debug, Drop)]
pub(crate) struct Reading {
    /// 1 plus the greatest thread of a request.
    pub(crate) threads: u16,
    /// How many requests there are.
    pub(crate) asked: usize,
    /// What each thread asks, in the order of the lines: a list for each that there can be.
    pub(crate) lists: Vec<Vec<Request>>,
    /// The steps, in the order of the lines.
    pub(crate) steps: Vec<Step>,
    /// The first line that is a step.
    pub(crate) first_step: Option<u32>,
}

impl Reading {
    ghost use Rattle.nr_script.specs.inside.Reading.{IsReadSoFar, with_request};

    /// Nothing is read.
    pub(crate) fn new(alloc: Global) -> Result<Reading, Memory>
        ensures { IfOk result (IsReadSoFar []) }
    {
        let mut lists = Vec::with_capacity(alloc, THREADS as usize)?;
        for thread in 0..THREADS {
            lists.push(Vec::new(alloc))?;
        }
        Ok(Reading {
            threads: 1,
            asked: 0,
            lists,
            steps: Vec::new(alloc),
            first_step: None,
        })
    }

    /// A request more.
    pub(crate) fn ask(&mut self, thread: u16, request: Request) -> Result<(), Memory>
        requires thread { thread < 64 }
        requires few { self.old.asked < LOG_PLACES }
        requires lists { length self.old.lists.items ≡ 64 }
        ensures threads { OnOk result (self.new.threads ≡ max self.old.threads (thread + 1)) }
        ensures asked { OnOk result (self.new.asked ≡ self.old.asked + 1) }
        ensures lists { OnOk result (map (λ list. list.items) self.new.lists.items
            ≡ with_request thread request (map (λ list. list.items) self.old.lists.items)) }
        ensures steps { OnOk result (self.new.steps ≡ self.old.steps) }
        ensures first { OnOk result (self.new.first_step ≡ self.old.first_step) }
    {
        self.lists[thread as usize].push(request)?;
        self.asked += 1;
        self.threads = self.threads.max(thread + 1);
        Ok(())
    }

    /// A step more, in the line of this number.
    pub(crate) fn step(&mut self, step: Step, number: u32) -> Result<(), Memory>
        ensures threads { OnOk result (self.new.threads ≡ self.old.threads) }
        ensures asked { OnOk result (self.new.asked ≡ self.old.asked) }
        ensures lists { OnOk result (self.new.lists ≡ self.old.lists) }
        ensures steps { OnOk result (self.new.steps.items ≡ self.old.steps.items ++ step ∷ []) }
        ensures first { OnOk result
            (self.new.first_step ≡ option_or self.old.first_step (Some number)) }
    {
        self.steps.push(step)?;
        self.first_step = self.first_step.or(Some(number));
        Ok(())
    }

    /// The next line, which has this number.
    pub(crate) fn take_line(
        &mut self,
        depth: Depth,
        line: &[u8],
        number: u32,
    ) -> Result<(), Fail<BadLine>>
        requires lists { length self.old.lists.items ≡ 64 }
        ensures { (said : List Line) → IsReadSoFar said self.old → number ≡ length said + 1
            → MatchResult result
            (λ _. (it : Line) × Says depth line.now it × IsReadSoFar (said ++ it ∷ []) self.new)
            (IfRefused (λ bad. (bad.0 ≡ number) × IsBadAfter depth said line.now)) }
    {
        let Some(said) = parse_line(depth, line) else {
            return Err(Fail::Refused(BadLine(number)));
        };
        match said {
            Line::PassedOver => {}
            Line::Request(thread, request) => {
                if self.asked >= SCRIPT_REQUESTS {
                    return Err(Fail::Refused(BadLine(number)));
                }
                self.ask(thread, request)?;
            }
            Line::Step(step) => {
                if self.steps.len() >= SCRIPT_STEPS {
                    return Err(Fail::Refused(BadLine(number)));
                }
                self.step(step, number)?;
            }
        }
        Ok(())
    }
}
