//! Updates with their answers.
ghost use Rattle.std.specs.Prelude.{◌≡◌, ◌<◌};
ghost use Rattle.vs_types.specs.declared.limits.TheConstants.{CALLS};

use crate::waiting::Waiting;
use nr_ring::PackedEntry;
use std::marker::Model;
use vs_types::{Answer, Op};

/// An update with its place in the log and what it was answered. Contracts see these two and the update's thread, call and operation.
#[derive(Clone, Copy, Debug, PartialEq, Eq)]
pub struct Answered {
    update: Waiting,
    place: u64,
    answer: Answer,
}

impl Model for Answered {
    ghost use Rattle.nr_slots.specs.Updates.{Answered};

    ghost Value = { Answered };

    ghost view = { λ a. record {
      thread = a.update.thread;
      call = a.update.call;
      op = a.update.op;
      place = a.place;
      answer = a.answer;
    } };

    ghost inverse = { λ a. record {
      update = record { thread = a.thread; call = a.call; op = a.op };
      place = a.place;
      answer = a.answer;
    } };
}

impl Answered {
    /// An update that was answered so, at this place of the log.
    #[inline(always)]
    pub fn new(update: Waiting, place: u64, answer: Answer) -> Answered
        ensures { result ≡ record {
          thread = update.thread;
          call = update.call;
          op = update.op;
          place = place;
          answer = answer;
        } }
    {
        Answered {
            update,
            place,
            answer,
        }
    }

    /// The thread that posted the update.
    #[inline(always)]
    pub fn thread(self) -> u16
        ensures { result ≡ self.thread }
    {
        self.update.thread()
    }

    /// The number of its call, which is below 131,072.
    #[inline(always)]
    pub fn call(self) -> u32
        ensures call { result ≡ self.call }
        ensures in_range { result < CALLS }
    {
        self.update.call()
    }

    /// What it does.
    pub fn op(self) -> Op
        ensures { result ≡ self.op }
    {
        self.update.op()
    }

    /// What it asked the log for.
    #[inline(always)]
    pub fn entry(self) -> PackedEntry
        ensures { result ≡ record { call = self.call; op = self.op } }
    {
        self.update.entry()
    }

    /// Its place in the log.
    #[inline(always)]
    pub fn place(self) -> u64
        ensures { result ≡ self.place }
    {
        self.place
    }

    /// What it was answered.
    #[inline(always)]
    pub fn answer(self) -> Answer
        ensures { result ≡ self.answer }
    {
        self.answer
    }
}

impl Default for Answered {
    /// Fills the unused places of an `ArrayVec`.
    fn default() -> Answered {
        Answered::new(Waiting::default(), 0, Answer::Done)
    }
}
