//! Calls one after another, each with what it has to answer.

use crate::caller::{Caller, Said};
use nr_replicas::{Gate, ReplicasName, UpdateFault};
use nr_ring::LogName;
use std::process::Abort;
use std::sync::Wait;
use vs_types::{Access, Answer, Depth, Mode, Op, Query, Rights, Size};

/// How many turns a call has that is to be answered.
pub const TURNS: u32 = 100_000;

/// What a call asks.
#[derive(Clone, Copy)]
pub enum Asks {
    /// A page of 4 KiB is mapped to 0x1000, with all rights: that of this number from 0x400000 on, each in 2 MiB of its own, so that it
    /// takes a table.
    Map(u32),
    /// The page at 0x400000 goes.
    Unmap,
    /// The translation of an address.
    Resolve(u64),
    /// Whether an access in user mode is allowed.
    Access(u64, Access),
}

impl Asks {
    pub fn query(self, rt: &impl Abort, depth: Depth) -> Query {
        match self {
            Asks::Map(number) => {
                let base = 0x400000 + 0x200000 * u64::from(number);
                let op = Op::map(depth, base, Size::K4, 0x1000, Rights::ALL);
                Query::Update(op.expect(rt, "a map"))
            }
            Asks::Unmap => Query::Update(Op::unmap(depth, 0x400000).expect(rt, "an unmap")),
            Asks::Resolve(address) => Query::Resolve(address),
            Asks::Access(address, access) => Query::Access(address, Mode::User, access),
        }
    }
}

/// The page at 0x400000 is mapped.
pub const MAP: Asks = Asks::Map(0);

/// A call of a thread, and what it has to be answered.
#[derive(Clone, Copy)]
pub struct Step {
    pub thread: u16,
    pub call: u32,
    pub asks: Asks,
    pub turns: u32,
    pub wanted: Said,
}

impl Step {
    /// The update is answered so.
    pub fn update(thread: u16, call: u32, asks: Asks, place: u64, answer: Answer) -> Step {
        Step {
            thread,
            call,
            asks,
            turns: TURNS,
            wanted: Said::Answer(place, answer),
        }
    }

    /// The update is not answered.
    pub fn fault(thread: u16, call: u32, asks: Asks, turns: u32, fault: UpdateFault) -> Step {
        Step {
            thread,
            call,
            asks,
            turns,
            wanted: Said::Fault(fault),
        }
    }

    /// The address looks so after so many entries.
    pub fn read(thread: u16, address: u64, at: u64, answer: Answer) -> Step {
        Step {
            thread,
            call: 0,
            asks: Asks::Resolve(address),
            turns: TURNS,
            wanted: Said::Answer(at, answer),
        }
    }

    /// An access in user mode is answered so after so many entries.
    pub fn access(thread: u16, address: u64, access: Access, at: u64, answer: Answer) -> Step {
        Step {
            thread,
            call: 0,
            asks: Asks::Access(address, access),
            turns: TURNS,
            wanted: Said::Answer(at, answer),
        }
    }

    /// The same call in so many turns. It is stopped where they are fewer than it takes.
    pub fn in_turns(self, turns: u32, takes: u32) -> Step {
        let wanted = if turns < takes {
            Said::Stopped
        } else {
            self.wanted
        };
        Step {
            turns,
            wanted,
            ..self
        }
    }
}

/// Makes the call of a step, at a gate.
pub fn take_step<J: LogName, K: ReplicasName, G: Gate, R: Wait + Abort>(
    rt: &R,
    caller: &mut Caller<J, K>,
    step: &Step,
    gate: &G,
) {
    let (thread, call) = (step.thread, step.call);
    let query = step.asks.query(rt, caller.depth());
    let said = caller.ask(rt, call, query, step.turns, gate);
    assert_eq!(rt; said, step.wanted, "call {call} of thread {thread}");
}

/// Makes the calls of these steps one after another, at a gate.
pub fn take_all<J: LogName, K: ReplicasName, G: Gate, R: Wait + Abort>(
    rt: &R,
    callers: &mut Vec<Caller<J, K>>,
    steps: &[Step],
    gate: &G,
) {
    for step in steps {
        let thread = usize::from(step.thread);
        let caller = callers
            .get_mut(thread)
            .expect(rt, "a thread of the replicas");
        take_step(rt, caller, step, gate);
    }
}
