//! A thread of some replicas.
ghost use Rattle.std.specs.Prelude.{◌≡◌, ◌<◌};
ghost use Rattle.vs_types.specs.Depth.{IsCanonical};
ghost use Rattle.vs_types.specs.Operation.{IsAction};
ghost use Rattle.vs_types.specs.declared.addresses.depth.Depth.TheVariants.{Four};

use crate::fault::ProgFault;
use nr_replicas::{Gate, Point, Replicas, ReplicasName, Signal};
use nr_ring::{LogName, LogPass};
use std::marker::Model;
use std::sync::Wait;
use vs_types::{Answer, CALLS, Op};

/// How many turns a call may take.
const TURNS: u32 = 1 << 30;

/// Stops no thread.
#[derive(Clone, Copy)]
struct Open;

impl Gate for Open {
    fn at(&self, _thread: u16, _point: Point) -> Signal {
        Signal::Go
    }
}

/// Which calls a thread may make: updates from `first` on, and before `end`.
#[derive(Clone, Copy, Debug)]
pub struct Numbers {
    pub first: u32,
    pub end: u32,
}

/// Some replicas, and the pass of one of their threads, at four levels.
#[derive(Drop)]
pub struct Caller<'a, J: LogName, K: ReplicasName> {
    replicas: &'a Replicas<J, K>,
    pass: LogPass<J>,
    thread: u16,
    numbers: Numbers,
}

impl<'a, J: LogName, K: ReplicasName> Model for Caller<'a, J, K> {
    ghost use Rattle.std.specs.Prelude.{◌≡◌, ◌<◌};
    ghost use Rattle.nr_ring.specs.Pass.{Known};
    ghost use Rattle.vs_types.specs.declared.addresses.depth.Depth.TheVariants.{Four};

    ghost Value = { Known };

    ghost view = { λ c. c.pass };

    ghost invariant = { λ c. (c.pass.log ≡ K.log) × (c.thread < c.replicas.now.threads) × (J.depth ≡ Four) };
}

impl<'a, J: LogName, K: ReplicasName> Caller<'a, J, K> {
    pub fn new(
        replicas: &'a Replicas<J, K>,
        pass: LogPass<J>,
        thread: u16,
        numbers: Numbers,
    ) -> Caller<'a, J, K>
        requires log { pass.log ≡ K.log }
        requires thread { thread < replicas.now.threads }
        requires depth { J.depth ≡ Four }
    {
        Caller {
            replicas,
            pass,
            thread,
            numbers,
        }
    }

    /// The thread's number.
    pub fn thread(&self) -> u16 {
        self.thread
    }

    /// Updates the address space, and gives the answer.
    pub fn update<R: Wait>(&mut self, rt: &R, op: Op) -> Result<Answer, ProgFault>
        requires { IsAction Four op }
    {
        let call = self.numbers.first;
        if call >= self.numbers.end || call >= CALLS {
            return Err(ProgFault::LogEnded);
        }
        self.numbers.first = call + 1;
        let replicas = self.replicas;
        match replicas.update(rt, &mut self.pass, self.thread, call, op, TURNS, &Open) {
            Ok((_, answer)) => Ok(answer),
            Err(_) => Err(ProgFault::Stuck),
        }
    }

    /// The translation of an address.
    pub fn read<R: Wait>(&mut self, rt: &R, address: u64) -> Result<Answer, ProgFault>
        requires { IsCanonical Four address }
    {
        let replicas = self.replicas;
        match replicas.read(rt, &mut self.pass, self.thread, 0, address, TURNS) {
            Ok((_, answer)) => Ok(answer),
            Err(_) => Err(ProgFault::Stuck),
        }
    }
}
