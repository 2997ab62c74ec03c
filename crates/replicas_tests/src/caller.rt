//! A thread of some replicas, as a test has it call.
ghost use Rattle.std.specs.Prelude.{◌≡◌, ◌<◌};

use nr_replicas::{Gate, Replicas, ReplicasName, Stopped, UpdateFault};
use nr_ring::{LogName, LogPass};
use std::marker::Model;
use std::process::Abort;
use std::sync::Wait;
use vs_types::{Access, Answer, CALLS, Depth, Mode, Op, Query};

/// What a call is answered.
#[derive(Clone, Copy, Debug, PartialEq, Eq)]
pub enum Said {
    /// The place of an update, or how many entries a read saw; and the answer.
    Answer(u64, Answer),
    /// Why an update was not answered.
    Fault(UpdateFault),
    /// A read was not answered.
    Stopped,
}

/// A call that was made, and what it was answered.
#[derive(Clone, Copy)]
pub struct Made {
    pub call: u32,
    pub query: Query,
    pub said: Said,
    /// How many batches it appended, as its gate was asked.
    pub batches: u32,
}

/// Some replicas, and the pass of one of their threads.
#[derive(Drop)]
pub struct Caller<'a, J: LogName, K: ReplicasName> {
    replicas: &'a Replicas<J, K>,
    pass: LogPass<J>,
    thread: u16,
    depth: Depth,
}

impl<'a, J: LogName, K: ReplicasName> Model for Caller<'a, J, K> {
    ghost use Rattle.std.specs.Prelude.{◌≡◌, ◌<◌};
    ghost use Rattle.nr_ring.specs.Pass.{Known};

    ghost Value = { Known };

    ghost view = { λ c. c.pass };

    ghost invariant = { λ c.
        (c.pass.log ≡ K.log) × (c.thread < c.replicas.now.threads) × (c.depth ≡ J.depth) };
}

impl<'a, J: LogName, K: ReplicasName> Caller<'a, J, K> {
    pub fn new(
        replicas: &'a Replicas<J, K>,
        pass: LogPass<J>,
        thread: u16,
        depth: Depth,
    ) -> Caller<'a, J, K>
        requires log { pass.log ≡ K.log }
        requires thread { thread < replicas.now.threads }
        requires depth { depth ≡ J.depth }
    {
        Caller {
            replicas,
            pass,
            thread,
            depth,
        }
    }

    pub fn into_pass(self) -> LogPass<J>
        ensures { result.log ≡ K.log }
    {
        self.pass
    }

    pub fn thread(&self) -> u16 {
        self.thread
    }

    pub fn depth(&self) -> Depth {
        self.depth
    }

    /// Makes a call, of an operation that is well formed at the depth, or about a canonical address.
    pub fn ask<G: Gate, R: Wait + Abort>(
        &mut self,
        rt: &R,
        call: u32,
        query: Query,
        turns: u32,
        gate: &G,
    ) -> Said {
        match query {
            Query::Update(op) => self.update(rt, call, op, turns, gate),
            Query::Resolve(address) => {
                assert!(rt; self.depth.is_canonical(address));
                let read = self
                    .replicas
                    .read(rt, &mut self.pass, self.thread, call, address, turns);
                said_to_a_read(read)
            }
            Query::Access(address, mode, access) => {
                self.access(rt, call, address, mode, access, turns)
            }
        }
    }

    fn update<G: Gate, R: Wait + Abort>(
        &mut self,
        rt: &R,
        call: u32,
        op: Op,
        turns: u32,
        gate: &G,
    ) -> Said {
        assert!(rt; call < CALLS);
        assert!(rt; op.fits(self.depth));
        let updated = self
            .replicas
            .update(rt, &mut self.pass, self.thread, call, op, turns, gate);
        match updated {
            Ok((place, answer)) => Said::Answer(place, answer),
            Err(fault) => Said::Fault(fault),
        }
    }

    fn access<R: Wait + Abort>(
        &mut self,
        rt: &R,
        call: u32,
        address: u64,
        mode: Mode,
        access: Access,
        turns: u32,
    ) -> Said {
        assert!(rt; self.depth.is_canonical(address));
        let read = self.replicas.access(
            rt,
            &mut self.pass,
            self.thread,
            call,
            address,
            mode,
            access,
            turns,
        );
        said_to_a_read(read)
    }
}

fn said_to_a_read(read: Result<(u64, Answer), Stopped>) -> Said {
    match read {
        Ok((at, answer)) => Said::Answer(at, answer),
        Err(Stopped) => Said::Stopped,
    }
}
