//! The program's words, and what it prints.

use crate::clock::per_second;
use crate::fault::ProgFault;
use crate::steps::calls::steps;
use crate::steps::measure::{Measured, measure};
use crate::steps::scripts::{are_scripts, scripts};
use std::alloc::Global;
use std::rt::Clock;
use std::time::Duration;
use vs_types::{Config, Depth, TABLES};

/// What the program's words ask for.
#[derive(Clone, Copy)]
struct Wanted {
    config: Config,
    /// How many calls each thread makes.
    requests: u32,
}

/// The words are the number of threads, that of replicas, and how many calls all threads make together.
fn parse_words(words: &[String]) -> Result<Wanted, ProgFault> {
    let [threads, replicas, calls] = words else {
        return Err(ProgFault::BadWords);
    };
    let threads = threads.parse::<u16>()?;
    let replicas = replicas.parse::<u8>()?;
    let calls = calls.parse::<u32>()?;
    let config = Config::new(Depth::Four, replicas, threads, TABLES)?;
    if threads % u16::from(replicas.max(1)) != 0 || calls > 65_536 {
        return Err(ProgFault::BadWords);
    }
    Ok(Wanted {
        config,
        requests: calls / u32::from(threads.max(1)),
    })
}

/// Takes the steps, and prints what they came to and how many there were in a second.
pub fn run<R: AllocGlobal + Print + Eprint + Clock>(
    rt: &R,
    words: &[String],
) -> Result<(), ProgFault> {
    let Wanted { config, requests } = parse_words(words)?;
    let (taken, measured) = take_steps(rt, rt.alloc(), config, requests)?;
    print_measured(rt, taken, measured)?;
    print_rate(rt, config, taken, measured.time)
}

/// How many steps there are, and what they came to.
fn take_steps(
    clock: &impl Clock,
    alloc: Global,
    config: Config,
    requests: u32,
) -> Result<(u64, Measured), ProgFault> {
    let steps = steps(alloc, config.threads(), config.replicas(), requests)?;
    let scripts = scripts(alloc, config.threads(), requests)?;
    if !are_scripts(config, &scripts) {
        return Err(ProgFault::BadWords);
    }
    let measured = measure(clock, alloc, config, scripts, &steps)?;
    Ok((steps.len() as u64, measured))
}

fn print_measured<R: Print>(rt: &R, steps: u64, measured: Measured) -> Result<(), ProgFault> {
    let Measured {
        enabled,
        events,
        entries,
        places,
        ..
    } = measured;
    println!(rt; "steps {steps} enabled {enabled}")?;
    println!(rt; "events {events} entries {entries} places {places}")?;
    Ok(())
}

/// Steps a second.
fn print_rate<R: Eprint>(
    rt: &R,
    config: Config,
    steps: u64,
    time: Duration,
) -> Result<(), ProgFault> {
    let (threads, replicas) = (config.threads(), config.replicas());
    let rate = per_second(steps, time);
    eprintln!(rt; "operations a second  {:>12}", "step")?;
    eprintln!(rt; "threads_{threads}_{replicas}          {rate:>12}")?;
    Ok(())
}
