//! No look is older than what had returned before it began. No clause says so: a pass that answers what it saw before meets them all.

use crate::log::pair::{Pair, pairs};
use crate::log::party::{OfLog, Party, is_later};
use crate::log::scene::{OF_FOUR, Test, run};
use nr_ring::{AppendFault, LogName, Tails};
use std::alloc::Global;
use std::process::Abort;
use std::sync::atomic::{AtomicU64, Ordering};
use std::thread;
use std::thread::Threads;

/// How many logs there are.
const LOGS: u32 = 1;

/// How many rounds each of four threads makes on each. Each round appends an entry at most, and a log has 65,536 at most.
const ROUNDS: u32 = 10_000;

/// The tails that some call has answered: each is raised after the call returns.
#[derive(Drop)]
struct Told {
    tail: AtomicU64,
    completed: AtomicU64,
    local: [AtomicU64; 4],
}

impl Told {
    fn new() -> Told {
        Told {
            tail: AtomicU64::new(0),
            completed: AtomicU64::new(0),
            local: [
                AtomicU64::new(0),
                AtomicU64::new(0),
                AtomicU64::new(0),
                AtomicU64::new(0),
            ],
        }
    }

    fn raise(&self, tails: Tails) {
        self.tail.fetch_max(tails.tail, Ordering::SeqCst);
        self.completed.fetch_max(tails.completed, Ordering::SeqCst);
        for at in 0..4 {
            self.local[at].fetch_max(tails.local[at], Ordering::SeqCst);
        }
    }

    /// What calls have answered up to now.
    fn now(&self) -> Tails {
        Tails {
            tail: self.tail.load(Ordering::SeqCst),
            completed: self.completed.load(Ordering::SeqCst),
            local: [
                self.local[0].load(Ordering::SeqCst),
                self.local[1].load(Ordering::SeqCst),
                self.local[2].load(Ordering::SeqCst),
                self.local[3].load(Ordering::SeqCst),
            ],
        }
    }

    /// Looks, and sees at least what was answered before.
    fn look<N: LogName, K: OfLog>(&self, rt: &impl Abort, party: &mut Party<N, K>) {
        let before = self.now();
        let tails = party.look();
        assert!(rt; is_later(&tails, &before));
        self.raise(tails);
    }
}

/// An append, which may be refused where the replicas are late or another's event comes between.
fn append<N: LogName, K: OfLog>(rt: &impl Abort, party: &mut Party<N, K>, call: u32, told: &Told) {
    match party.append(rt, call) {
        Ok(place) => {
            told.tail
                .fetch_max(place.saturating_add(1), Ordering::SeqCst);
        }
        Err(AppendFault::Full(tails) | AppendFault::Moved(tails)) => told.raise(tails),
        Err(AppendFault::LogEnded) => panic!(rt; "the log ended"),
    }
}

impl<'a, N: LogName, K: OfLog> Pair<'a, N, K> {
    /// One call of eight kinds, and then a look by each party.
    fn act(&mut self, rt: &impl Abort, round: u32, told: &Told) {
        match (self.number % 8 + round % 8) % 8 {
            0 => append(rt, &mut self.owner, round, told),
            1 | 5 => {
                let _moved = self.owner.advance(rt);
            }
            2 => self.owner.tell(&mut self.other),
            4 => append(rt, &mut self.other, round, told),
            6 => self.other.tell(&mut self.owner),
            _ => told.look(rt, &mut self.other),
        }
        told.look(rt, &mut self.owner);
        told.look(rt, &mut self.other);
    }
}

fn all_rounds<N: LogName, K: OfLog>(rt: &impl Abort, mut pair: Pair<N, K>, told: &Told) {
    for round in 0..ROUNDS {
        pair.act(rt, round, told);
    }
}

pub fn run_rounds<N: LogName + Send + Sync, K: OfLog + Send + Sync, R: Abort + Threads + Sync>(
    rt: &R,
    alloc: Global,
    parties: Vec<Party<N, K>>,
) {
    let all = pairs(rt, alloc, parties);
    let told = Told::new();
    let ended = thread::map_vec(rt, all, &|pair: Pair<N, K>| all_rounds(rt, pair, &told));
    let _all = ended.expect(rt, "memory");
}

#[test]
fn no_look_is_old(rt: HostRuntime) {
    for _ in 0..LOGS {
        run(&rt, rt.alloc(), OF_FOUR, Test::Rounds);
    }
}
