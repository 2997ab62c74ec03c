//! Lists of 200 steps from a seed: the auditor says yes to the recording of each.
//!
//! The environment's LISTS may say how many lists there are, and its SEED from which number they are drawn.
ghost use Rattle.std.specs.Prelude.{◌<◌};

use crate::scripts::{Tries, assert_alike, order_of, run_at_once, run_one_by_one};
use nr_core::{Act, Step};
use std::alloc::{Alloc, Global};
use std::env;
use std::process::Abort;
use std::rt::Env;
use std::test::Fail;
use vs_types::{Access, Config, Depth, Mode, Op, Request, Rights, Size};

/// A linear congruential generator (Knuth's MMIX), of which the upper 32 bits are taken.
#[derive(Clone, Copy)]
struct Draws {
    state: u64,
}

impl Draws {
    /// A number below `end`.
    fn below(&mut self, end: u32) -> u32
        requires { 0 < end }
        ensures { result < end }
    {
        self.state = self
            .state
            .wrapping_mul(6364136223846793005)
            .wrapping_add(1442695040888963407);
        ((self.state >> 32) as u32) % end
    }
}

fn rights_of(bits: u32) -> Rights {
    Rights {
        write: bits & 1 != 0,
        user: bits & 2 != 0,
        exec: bits & 4 != 0,
    }
}

fn size_of(number: u32) -> Size {
    match number {
        0 => Size::M2,
        1 => Size::G1,
        _ => Size::K4,
    }
}

/// One of a few bases, near one another, in either half of the address space.
fn base_of(draws: &mut Draws, depth: Depth, size: Size) -> u64 {
    let high = match depth {
        Depth::Four => 0xFFFF_8000_0000_0000,
        Depth::Five => 0xFF00_0000_0000_0000,
    };
    let half = if draws.below(4) == 0 { high } else { 0 };
    half + u64::from(draws.below(3)) * size.bytes()
}

fn request_of(rt: &impl Abort, draws: &mut Draws, depth: Depth) -> Request {
    let size = size_of(draws.below(6));
    let base = base_of(draws, depth, size);
    let rights = rights_of(draws.below(8));
    let mode = if draws.below(2) == 0 {
        Mode::User
    } else {
        Mode::Supervisor
    };
    let access = match draws.below(3) {
        0 => Access::Read,
        1 => Access::Write,
        _ => Access::Fetch,
    };
    let op = match draws.below(7) {
        0 | 1 | 2 => Op::map(
            depth,
            base,
            size,
            u64::from(draws.below(4)) * size.bytes(),
            rights,
        ),
        3 => Op::unmap(depth, base),
        4 => Op::protect(depth, base, rights),
        5 => return Request::resolve(depth, base).expect(rt, "a resolve"),
        _ => return Request::access(depth, base, mode, access).expect(rt, "an access"),
    };
    Request::update(op.expect(rt, "an update"))
}

fn scripts_of(
    rt: &impl Abort,
    alloc: Global,
    draws: &mut Draws,
    config: Config,
) -> Vec<Vec<Request>> {
    let mut scripts = Vec::new(alloc);
    for _ in 0..config.threads() {
        let mut script = Vec::new(alloc);
        for _ in 0..draws.below(12) {
            let request = request_of(rt, draws, config.depth());
            script.push(request).expect(rt, "memory");
        }
        scripts.push(script).expect(rt, "memory");
    }
    scripts
}

/// What the next step of a thread that goes the whole way of an update or a read would be, or any step at all.
fn act_of(draws: &mut Draws, config: Config, thread: u16, turn: u32) -> Act {
    let threads = u32::from(config.threads());
    let replicas = u32::from(config.replicas());
    let other = draws.below(threads + 1) as u16;
    let replica = draws.below(replicas + 1) as u8;
    let kind = if draws.below(4) == 0 {
        draws.below(13)
    } else {
        turn
    };
    match kind {
        0 => Act::Call,
        1 => Act::Post,
        2 => Act::Look,
        3 => Act::Take(if draws.below(4) == 0 {
            replica
        } else {
            (thread % u16::from(config.replicas())) as u8
        }),
        4 => Act::Collect(thread),
        5 => Act::Collect(other),
        6 => Act::Append,
        7 => Act::Advance,
        8 => Act::Apply,
        9 => Act::Answer(if draws.below(4) == 0 { other } else { thread }),
        10 => Act::Release,
        11 => Act::Read,
        _ => Act::Reply,
    }
}

/// 200 steps of drawn threads.
fn steps_of(rt: &impl Abort, alloc: Global, draws: &mut Draws, config: Config) -> Vec<Step> {
    let mut turns = [0u32; 64];
    let mut steps = Vec::new(alloc);
    for _ in 0..200 {
        let thread = draws.below(u32::from(config.threads())) as u16;
        let turn = &mut turns[usize::from(thread)];
        let act = act_of(draws, config, thread, *turn);
        steps.push(Step { thread, act }).expect(rt, "memory");
        *turn = turn.wrapping_add(1) % 13;
    }
    steps
}

/// A number for each kind of step, from 0.
fn kind_of(act: Act) -> usize
    ensures { result < 12 }
{
    match act {
        Act::Call => 0,
        Act::Post => 1,
        Act::Take(_) => 2,
        Act::Collect(_) => 3,
        Act::Append => 4,
        Act::Advance => 5,
        Act::Apply => 6,
        Act::Answer(_) => 7,
        Act::Release => 8,
        Act::Look => 9,
        Act::Read => 10,
        Act::Reply => 11,
    }
}

/// How often a step of each kind was enabled, and was not.
#[derive(Clone, Copy)]
struct Counts {
    enabled: [u64; 12],
    refused: [u64; 12],
}

impl Counts {
    fn count(&mut self, act: Act, done: bool) {
        let kind = kind_of(act);
        if done {
            self.enabled[kind] = self.enabled[kind].wrapping_add(1);
        } else {
            self.refused[kind] = self.refused[kind].wrapping_add(1);
        }
    }
}

fn config_of(rt: &impl Abort, draws: &mut Draws) -> Config {
    let depth = if draws.below(2) == 0 {
        Depth::Four
    } else {
        Depth::Five
    };
    let replicas = draws.below(4) as u8 + 1;
    let threads = draws.below(8) as u16 + 1;
    let tables = draws.below(24) as u16 + 1;
    Config::new(depth, replicas, threads, tables).expect(rt, "a configuration")
}

/// A drawn list is run twice, step by step and at once: the recordings are the same, and the auditor says yes.
fn one_list(rt: &impl Abort, alloc: Global, draws: &mut Draws, counts: &mut Counts) {
    let config = config_of(rt, draws);
    let mut same = *draws;
    let scripts = scripts_of(rt, alloc, draws, config);
    let again = scripts_of(rt, alloc, &mut same, config);
    let steps = steps_of(rt, alloc, draws, config);
    let (by_steps, made) = run_one_by_one(rt, alloc, config, scripts, &steps, Tries::Once);
    for (step, made) in steps.iter().zip(made.iter()) {
        counts.count(step.act, *made);
    }
    let at_once = run_at_once(rt, alloc, config, again, &steps);
    assert_alike(rt, alloc, &by_steps, &at_once);
    let _order = order_of(rt, alloc, &at_once);
}

/// A number of the environment, or this one.
fn number_of<R: Env + Alloc + Abort>(rt: &R, name: &str, otherwise: u64) -> u64 {
    match env::var(rt, name) {
        Ok(text) => text.as_str().parse::<u64>().expect(rt, "a number"),
        Err(_) => otherwise,
    }
}

#[test]
fn a_thousand_lists(rt: HostRuntime) -> Result<(), Fail> {
    let lists = number_of(&rt, "LISTS", 1000);
    let mut draws = Draws {
        state: number_of(&rt, "SEED", 1),
    };
    let mut counts = Counts {
        enabled: [0; 12],
        refused: [0; 12],
    };
    for _ in 0..lists {
        one_list(&rt, rt.alloc(), &mut draws, &mut counts);
    }
    println!(rt; "enabled {:?}", counts.enabled)?;
    println!(rt; "refused {:?}", counts.refused)?;
    for kind in 0..12 {
        assert!(rt; counts.enabled[kind] >= lists / 2, "kind {kind}");
        assert!(rt; counts.refused[kind] >= lists / 2, "kind {kind}");
    }
    Ok(())
}
