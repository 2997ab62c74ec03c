//! The program's words, and what it prints.

use crate::clock::per_second;
use crate::fault::ProgFault;
use crate::replicas::measure::{Done, Measured, Work, measure};
use std::marker::Brand;
use std::rt::Clock;
use std::sync::Wait;
use std::thread::Threads;
use vs_types::{Config, Depth, TABLES};

/// What the program's words ask for.
#[derive(Clone, Copy)]
struct Wanted {
    threads: u16,
    replicas: u8,
    work: Work,
}

/// The words are the number of threads, that of replicas, how many calls each thread makes, how many of a hundred read, and perhaps `maps`.
fn parse_words(words: &[String]) -> Result<Wanted, ProgFault> {
    let [threads, replicas, calls, reads, rest @ ..] = words else {
        return Err(ProgFault::BadWords);
    };
    let maps = match rest {
        [] => false,
        [word] if word.as_str() == "maps" => true,
        _ => return Err(ProgFault::BadWords),
    };
    let threads = threads.parse::<u16>()?;
    let replicas = replicas.parse::<u8>()?;
    let calls = calls.parse::<u32>()?;
    let reads = reads.parse::<u8>()?;
    if reads > 100 {
        return Err(ProgFault::BadWords);
    }
    Ok(Wanted {
        threads,
        replicas,
        work: Work { calls, reads, maps },
    })
}

/// Makes the calls, and prints what they found and how many there were in a second.
pub fn run<R: AllocGlobal + Print + Eprint + Clock + Threads + Wait + Sync>(
    rt: &R,
    words: &[String],
) -> Result<(), ProgFault> {
    let Wanted {
        threads,
        replicas,
        work,
    } = parse_words(words)?;
    let config = Config::new(Depth::Four, replicas, threads, TABLES)?;
    let measured = measure::<Brand, R>(rt, rt.alloc(), config, work)?;
    print_done(rt, &measured.done)?;
    print_rate(rt, config, work, &measured)
}

/// What each thread did.
fn print_done<R: Print>(rt: &R, all: &[Done]) -> Result<(), ProgFault> {
    for done in all {
        let Done {
            reads,
            updates,
            sum,
        } = *done;
        println!(rt; "reads {reads} updates {updates} sum {sum}")?;
    }
    Ok(())
}

/// Operations a second of all threads together.
fn print_rate<R: Eprint>(
    rt: &R,
    config: Config,
    work: Work,
    measured: &Measured,
) -> Result<(), ProgFault> {
    let (threads, replicas, reads) = (config.threads(), config.replicas(), work.reads);
    let all = u64::from(threads) * u64::from(work.calls);
    let rate = per_second(all, measured.time);
    eprintln!(rt; "operations a second  {:>12}", "call")?;
    let kind = if work.maps { "maps" } else { "reads" };
    eprintln!(rt; "{kind}_{reads}_{threads}_{replicas}  {rate:>12}")?;
    Ok(())
}
