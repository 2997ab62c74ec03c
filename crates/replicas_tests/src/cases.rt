//! Tests of calls one after another.

use crate::dumps::assert_dumps;
use crate::gate::CountingGate;
use crate::scene::{Settled, Test, run};
use crate::steps::Step;
use nr_replicas::Point;
use std::alloc::Global;
use std::process::Abort;
use std::sync::Wait;
use std::thread::Threads;
use vs_types::{Config, Depth, Op, Query};

/// Steps one after another, and the calls that are to be in the log.
#[derive(Drop)]
pub struct Plan {
    pub steps: Vec<Step>,
    pub calls: Vec<u32>,
}

impl Plan {
    pub fn new(alloc: Global) -> Plan {
        Plan {
            steps: Vec::new(alloc),
            calls: Vec::new(alloc),
        }
    }

    /// A step of which nothing comes into the log.
    pub fn add(&mut self, rt: &impl Abort, step: Step) {
        self.steps.push(step).expect(rt, "memory");
    }

    /// A step whose call comes into it.
    pub fn place(&mut self, rt: &impl Abort, step: Step) {
        self.add(rt, step);
        self.calls.push(step.call).expect(rt, "memory");
    }
}

/// The calls of a test on new replicas, and what is to be left.
#[derive(Clone, Copy)]
pub struct Case<'s> {
    pub depth: Depth,
    pub replicas: u8,
    pub threads: u16,
    pub tables: u16,
    /// The gate says stop to this thread at this point.
    pub stops: Option<(u16, Point)>,
    pub steps: &'s [Step],
    /// Whether the settling is handed the passes of the threads.
    pub hands_passes: bool,
    /// The call at each place of the log.
    pub calls: &'s [u32],
    /// How many entries each replica has applied, as many as there are.
    pub applied: [u32; 4],
    /// How many batches were appended, and so how often the gate was asked.
    pub batches: u32,
}

impl<'s> Case<'s> {
    /// One that is left as it was, where no step does anything.
    pub fn new(
        depth: Depth,
        replicas: u8,
        threads: u16,
        tables: u16,
        steps: &'s [Step],
    ) -> Case<'s> {
        Case {
            depth,
            replicas,
            threads,
            tables,
            stops: None,
            steps,
            hands_passes: true,
            calls: &[],
            applied: [0; 4],
            batches: 0,
        }
    }

    fn config(&self, rt: &impl Abort) -> Config {
        let config = Config::new(self.depth, self.replicas, self.threads, self.tables);
        config.expect(rt, "a configuration")
    }

    /// Takes the steps on new replicas, whose log, local tails and batches are then as they are to be.
    pub fn settle<R: Wait + Abort + Threads + Sync>(&self, rt: &R, alloc: Global) -> Settled {
        let gate = CountingGate::new(self.stops);
        let test = Test::Steps(self.steps, &gate, self.hands_passes);
        let settled = run(rt, alloc, self.config(rt), test);
        settled.assert(rt, self.calls, &self.applied);
        assert_eq!(rt; gate.asked(), [0, self.batches, 0]);
        settled
    }

    /// The same, and the dumps are those of plain spaces.
    pub fn assert<R: Wait + Abort + Threads + Sync>(&self, rt: &R, alloc: Global) {
        let settled = self.settle(rt, alloc);
        assert_dumps(
            rt,
            alloc,
            self.config(rt),
            &settled,
            &self.updates(rt, alloc),
        );
    }

    /// The updates of the log.
    fn updates(&self, rt: &impl Abort, alloc: Global) -> Vec<Op> {
        let mut updates = Vec::new(alloc);
        for call in self.calls {
            let update = update_of(rt, self.depth, self.steps, *call);
            updates.push(update).expect(rt, "memory");
        }
        updates
    }
}

/// The update that a call of these steps makes.
fn update_of(rt: &impl Abort, depth: Depth, steps: &[Step], call: u32) -> Op {
    for step in steps {
        if step.call == call
            && let Query::Update(op) = step.asks.query(rt, depth)
        {
            return op;
        }
    }
    panic!(rt; "no step makes the update of call {call}")
}
