//! The words of the program, and its exit status.
use crate::fault::ProgFault;
use crate::{log, page_table, replicas, steps};
use std::env;
use std::rt::{Clock, Env};
use std::sync::Wait;
use std::thread::Threads;

/// Runs the program on its words, and gives the exit status: 0 where nothing is wrong. Why it ended early is written to standard error;
/// where its words are none that it knows, how it is used.
pub fn run<R: Env + AllocGlobal + Print + Eprint + Clock + Threads + Wait + Sync>(rt: &R) -> u8 {
    match try_run(rt) {
        Ok(()) => 0,
        Err(fault) => {
            let text = fault.text();
            let _ = eprintln!(rt; "{text}");
            fault.status()
        }
    }
}

/// The first word says what is timed, and those after it how.
fn try_run<R: Env + AllocGlobal + Print + Eprint + Clock + Threads + Wait + Sync>(
    rt: &R,
) -> Result<(), ProgFault> {
    let words = read_words(rt)?;
    let [_, part, rest @ ..] = words.as_slice() else {
        return Err(ProgFault::BadWords);
    };
    match part.as_str() {
        "page_table" => page_table::run(rt, rest),
        "log" => log::run(rt, rest),
        "replicas" => replicas::run(rt, rest),
        "core" => steps::run(rt, rest),
        _ => Err(ProgFault::BadWords),
    }
}

/// The program's words, of which the first is its name. It allocates them.
///
/// # Errors
///
/// Out of memory.
fn read_words<R: Env + AllocGlobal>(rt: &R) -> Result<Vec<String>, ProgFault> {
    env::args(rt)
        .map_err(|_| ProgFault::Memory)?
        .collect(rt.alloc())
        .map_err(|_| ProgFault::Memory)
}
