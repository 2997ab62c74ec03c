//! Short rounds in which four threads make calls at the same time. After each round all of them look, while nobody makes an event:
//! a pass that took the words of before for those of the version that an exchange under way was to bring then answers old tails.
ghost use Rattle.std.specs.Prelude.{◌≤◌};

use crate::log::pair::{Pair, pairs};
use crate::log::party::{OfLog, Party};
use crate::log::scene::{OF_FOUR, Test, run};
use crate::log::start::Start;
use crossbeam_utils::Backoff;
use nr_ring::{LogName, Moved, Tails};
use std::alloc::Global;
use std::process::Abort;
use std::sync::Wait;
use std::thread;
use std::thread::Threads;

/// How many logs there are.
const LOGS: u32 = 1;

/// How many rounds there are on each. Each round appends two entries, and a log has 65,536 at most.
const ROUNDS: u32 = 1_000;

impl<'a, N: LogName, K: OfLog> Pair<'a, N, K> {
    /// What the thread does in a round, from 0 to 3.
    fn part(&self, round: u32) -> u32 {
        (self.number % 4 + round % 4) % 4
    }

    /// One thread appends an entry, so that what the others know is old. Then, at the same time, it appends another, and one
    /// thread advances, one looks, and one hands its other party what it has seen.
    fn race<R: Wait + Abort>(&mut self, rt: &R, start: &Start, round: u32)
        requires { round ≤ 65536 }
    {
        let tail = 2 * round;
        if self.part(round) == 1 {
            let moved = self.owner.advance_after(rt, start, round % 61);
            assert!(rt; moved == if round == 0 { Ok(()) } else { Err(Moved) });
            return;
        }
        start.wait(rt);
        if self.part(round) == 0 {
            assert!(rt; self.owner.append(rt, tail) == Ok(u64::from(tail)));
        }
        start.wait(rt);
        match self.part(round) {
            0 => assert!(rt; self.owner.append(rt, tail + 1) == Ok(u64::from(tail) + 1)),
            2 => {
                start.linger(round % 53);
                self.other.look();
            }
            _ => {
                start.linger(round % 59);
                self.owner.tell(&mut self.other);
            }
        }
    }

    /// Both parties see all of the round. The replica of the thread that advanced in vain has taken less than the others.
    fn look(&mut self, rt: &impl Abort, round: u32)
        requires { round ≤ 65536 }
    {
        let taken = 2 * u64::from(round);
        let mut local = [taken; 4];
        let late = (5 - round % 4) % 4;
        local[late as usize] = taken.saturating_sub(2);
        let tails = Tails {
            tail: taken + 2,
            completed: taken,
            local,
        };
        assert!(rt; self.owner.look() == tails);
        assert!(rt; self.other.look() == tails);
    }

    /// Its replica takes all entries, but where it is to be late in the next round.
    fn catch_up<R: Wait + Abort>(&mut self, rt: &R, round: u32) {
        if self.part(round) == 0 {
            return;
        }
        let backoff = Backoff::new();
        for _ in rt.forever() {
            if self.owner.advance(rt).is_ok() {
                return;
            }
            backoff.spin();
        }
        unreachable!()
    }
}

/// One thread's rounds.
fn all_rounds<N: LogName, K: OfLog, R: Wait + Abort>(rt: &R, mut pair: Pair<N, K>, start: &Start) {
    for round in 0..ROUNDS {
        pair.race(rt, start, round);
        start.wait(rt);
        pair.look(rt, round);
        start.wait(rt);
        pair.catch_up(rt, round);
    }
}

pub fn run_races<
    N: LogName + Send + Sync,
    K: OfLog + Send + Sync,
    R: Wait + Abort + Threads + Sync,
>(rt: &R, alloc: Global, parties: Vec<Party<N, K>>) {
    let all = pairs(rt, alloc, parties);
    let start = Start::new();
    let ended = thread::map_vec(rt, all, &|pair: Pair<N, K>| all_rounds(rt, pair, &start));
    let _all = ended.expect(rt, "memory");
}

#[test]
fn looks_after_races(rt: HostRuntime) {
    for _ in 0..LOGS {
        run(&rt, rt.alloc(), OF_FOUR, Test::Races);
    }
}
