//! The steps of the calls.
use crate::fault::ProgFault;
use nr_core::{Act, Step};
use std::alloc::Global;

/// The steps of all calls: each thread in turn makes its next call with all its steps. Every second one is a read, before which the
/// replica catches up.
pub fn steps(
    alloc: Global,
    threads: u16,
    replicas: u8,
    requests: u32,
) -> Result<Vec<Step>, ProgFault> {
    let mut steps = Vec::new(alloc);
    for number in 0..requests {
        for thread in 0..threads {
            if number % 2 == 0 {
                add_update(&mut steps, thread, replicas)?;
            } else {
                add_read(&mut steps, thread, replicas)?;
            }
        }
    }
    Ok(steps)
}

/// The steps of an update: the thread is its own combiner, and applies as many entries as there are replicas.
fn add_update(steps: &mut Vec<Step>, thread: u16, replicas: u8) -> Result<(), ProgFault> {
    let home = home(thread, replicas);
    let before = [
        Act::Call,
        Act::Post,
        Act::Take(home),
        Act::Collect(thread),
        Act::Append,
        Act::Advance,
    ];
    add_all(steps, thread, &before)?;
    for _ in 0..replicas {
        add_all(steps, thread, &[Act::Apply])?;
    }
    add_all(
        steps,
        thread,
        &[Act::Answer(thread), Act::Release, Act::Reply],
    )
}

/// The steps of a read, which catches up as an update does.
fn add_read(steps: &mut Vec<Step>, thread: u16, replicas: u8) -> Result<(), ProgFault> {
    let home = home(thread, replicas);
    let before = [Act::Call, Act::Look, Act::Take(home), Act::Advance];
    add_all(steps, thread, &before)?;
    for _ in 0..replicas {
        add_all(steps, thread, &[Act::Apply])?;
    }
    add_all(steps, thread, &[Act::Release, Act::Read, Act::Reply])
}

/// The replica to which a thread belongs.
fn home(thread: u16, replicas: u8) -> u8 {
    (thread % u16::from(replicas.max(1))) as u8
}

fn add_all(steps: &mut Vec<Step>, thread: u16, acts: &[Act]) -> Result<(), ProgFault> {
    for act in acts {
        steps.push(Step { thread, act: *act })?;
    }
    Ok(())
}
