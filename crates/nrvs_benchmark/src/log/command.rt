//! The program's words, and what it prints.

ghost use Rattle.std.specs.Prelude.{◌≤◌};

use crate::clock::per_second;
use crate::fault::ProgFault;
use crate::log::appends::{Appends, Taken, append};
use crate::log::looks::{Looks, look};
use std::alloc::Global;
use std::marker::Brand;
use std::rt::Clock;
use std::sync::Wait;
use std::thread::Threads;
use std::time::Duration;

/// What is timed.
#[derive(Clone, Copy)]
enum Call {
    Look,
    Append,
}

/// What the program's words ask for.
#[derive(Clone, Copy)]
struct Wanted {
    call: Call,
    /// 1 to 4.
    threads: u8,
    /// How many calls each thread makes; those that append make 65,536 at most in all.
    calls: u32,
}

/// The words are what is timed, the number of threads and the number of calls.
fn parse_words(words: &[String]) -> Result<Wanted, ProgFault> {
    let [call, threads, calls] = words else {
        return Err(ProgFault::BadWords);
    };
    let call = match call.as_str() {
        "looks" => Call::Look,
        "appends" => Call::Append,
        _ => return Err(ProgFault::BadWords),
    };
    let threads = threads.parse::<u8>()?;
    let calls = calls.parse::<u32>()?;
    Ok(Wanted {
        call,
        threads,
        calls,
    })
}

/// Makes the calls, and prints what they found and how many there were in a second.
pub fn run<R: AllocGlobal + Print + Eprint + Clock + Threads + Wait + Sync>(
    rt: &R,
    words: &[String],
) -> Result<(), ProgFault> {
    let Wanted {
        call,
        threads,
        calls,
    } = parse_words(words)?;
    if threads < 1 || threads > 4 {
        return Err(ProgFault::BadWords);
    }
    let all = u64::from(threads) * u64::from(calls);
    match call {
        Call::Look => {
            let looks = look::<Brand, R>(rt, rt.alloc(), threads, calls)?;
            print_looks(rt, all, &looks)?;
            print_rate(rt, "look", threads, all, looks.time)
        }
        Call::Append => {
            let appends = make_appends(rt, threads, calls)?;
            print_appends(rt, &appends)?;
            print_rate(rt, "append", threads, all, appends.time)
        }
    }
}

/// Makes the appends, if a log has the room for them.
fn make_appends<R: AllocGlobal + Clock + Threads + Wait + Sync>(
    rt: &R,
    threads: u8,
    calls: u32,
) -> Result<Appends, ProgFault>
    requires { (1 ≤ threads) × (threads ≤ 4) }
{
    if u64::from(threads) * u64::from(calls) > 65_536 {
        return Err(ProgFault::BadWords);
    }
    append::<Brand, R>(rt, rt.alloc(), threads, calls)
}

/// How many looks there were, and the sum of the tails that they found.
fn print_looks<R: Print>(rt: &R, all: u64, looks: &Looks) -> Result<(), ProgFault> {
    let tails = looks.tails;
    println!(rt; "looks {all}")?;
    println!(rt; "tails {tails}")?;
    Ok(())
}

/// The tails, and what each replica has taken.
fn print_appends<R: Print>(rt: &R, appends: &Appends) -> Result<(), ProgFault> {
    let tail = appends.tails.tail;
    let completed = appends.tails.completed;
    println!(rt; "tail {tail}")?;
    println!(rt; "completed {completed}")?;
    for taken in &appends.taken {
        let Taken { entries, calls } = *taken;
        println!(rt; "taken {entries} calls {calls}")?;
    }
    Ok(())
}

/// Operations a second of all threads together.
fn print_rate<R: Eprint>(
    rt: &R,
    name: &str,
    threads: u8,
    all: u64,
    time: Duration,
) -> Result<(), ProgFault> {
    let rate = per_second(all, time);
    eprintln!(rt; "operations a second  {name:>12}")?;
    eprintln!(rt; "{threads}_threads            {rate:>12}")?;
    Ok(())
}
