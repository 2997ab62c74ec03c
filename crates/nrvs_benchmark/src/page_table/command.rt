//! The words of the command line, and what is run and printed.
use crate::clock::per_second;
use crate::fault::ProgFault;
use crate::page_table::load::Load;
use crate::page_table::measure::{BASE, FRAMES, Measured, measure};
use crate::page_table::workload::Workload;
use std::alloc::Global;
use std::time::Clock;
use vs_arena::{FRAME_WORDS, FrameMark, LentArena, RawArena, VecArena};
use vs_types::Depth;

/// The memory in which the frames of the page table lie.
#[derive(Clone, Copy)]
enum Store {
    /// In a vector.
    Vec,
    /// In one block of memory.
    Raw,
    /// In memory that is lent to the store.
    Lent,
}

impl Store {
    /// The store that a word asks for.
    fn named(word: &str) -> Result<Store, ProgFault> {
        match word {
            "raw" => Ok(Store::Raw),
            "lent" => Ok(Store::Lent),
            _ => Err(ProgFault::BadWords),
        }
    }
}

/// What the program's words ask for.
#[derive(Clone, Copy)]
struct Wanted {
    /// How often each workload is run.
    rounds: u16,
    store: Store,
    depth: Depth,
}

/// The first word is the number of rounds, up to 65,535, or one round if there is none. If there are more, the first isn't timed.
/// After it `raw` asks for frames in one block of memory, or `lent` for frames that are lent, and then `five` for five levels.
fn parse_words(words: &[String]) -> Result<Wanted, ProgFault> {
    let (rounds, (store, depth)) = match words {
        [] => {
            return Ok(Wanted {
                rounds: 1,
                store: Store::Vec,
                depth: Depth::Four,
            });
        }
        [rounds] => (rounds, (Store::Vec, Depth::Four)),
        [rounds, word] => (rounds, store_or_depth(word)?),
        [rounds, store, five] if five.as_str() == "five" => {
            (rounds, (Store::named(store)?, Depth::Five))
        }
        _ => return Err(ProgFault::BadWords),
    };
    Ok(Wanted {
        rounds: rounds.parse::<u16>()?,
        store,
        depth,
    })
}

/// What one word beside the rounds asks for.
fn store_or_depth(word: &str) -> Result<(Store, Depth), ProgFault> {
    match word {
        "five" => Ok((Store::Vec, Depth::Five)),
        _ => Ok((Store::named(word)?, Depth::Four)),
    }
}

/// Runs each workload on a page table of its own, and prints its sum and its times.
pub fn run<R: AllocGlobal + Print + Eprint + Clock>(
    rt: &R,
    words: &[String],
) -> Result<(), ProgFault> {
    let wanted = parse_words(words)?;
    eprintln!(rt;
        "operations a second  {:>12} {:>12} {:>12} {:>12}",
        "map", "resolve", "protect", "unmap"
    )?;
    for workload in Workload::ALL {
        run_workload(rt, workload, wanted)?;
    }
    Ok(())
}

fn run_workload<R: AllocGlobal + Print + Eprint + Clock>(
    rt: &R,
    workload: Workload,
    wanted: Wanted,
) -> Result<(), ProgFault> {
    let load = Load::new(rt.alloc(), workload, wanted.depth)?;
    let measured = measure_in(rt, rt.alloc(), wanted.store, &load, wanted.rounds)?;
    print(rt, workload, wanted.rounds, measured)
}

/// Rounds of a workload over a store of this kind.
fn measure_in(
    clock: &impl Clock,
    alloc: Global,
    store: Store,
    load: &Load,
    rounds: u16,
) -> Result<Measured, ProgFault> {
    match store {
        Store::Vec => measure(clock, VecArena::new(alloc, BASE, FRAMES)?, load, rounds),
        Store::Raw => measure(clock, RawArena::new(alloc, BASE, FRAMES)?, load, rounds),
        Store::Lent => measure_lent(clock, alloc, load, rounds),
    }
}

/// Rounds of a workload over frames that are lent.
fn measure_lent(
    clock: &impl Clock,
    alloc: Global,
    load: &Load,
    rounds: u16,
) -> Result<Measured, ProgFault> {
    let mut words = Vec::from_elem(alloc, [0; FRAME_WORDS], FRAMES)?;
    let mut marks = Vec::from_elem(alloc, FrameMark::default(), FRAMES)?;
    let store = LentArena::new(BASE, words.as_mut_slice(), marks.as_mut_slice());
    measure(clock, store, load, rounds)
}

/// The sum on standard output; operations a second on standard error.
fn print<R: Print + Eprint>(
    rt: &R,
    workload: Workload,
    rounds: u16,
    measured: Measured,
) -> Result<(), ProgFault> {
    let name = workload.name();
    let sum = measured.sum.get();
    println!(rt; "{name} {sum}")?;
    let timed = rounds.saturating_sub(1).max(1);
    let operations = u64::from(workload.pages()) * u64::from(timed);
    let map = per_second(operations, measured.times.map);
    let resolve = per_second(operations, measured.times.resolve);
    let protect = per_second(operations, measured.times.protect);
    let unmap = per_second(operations, measured.times.unmap);
    eprintln!(rt; "{name:<19}  {map:>12} {resolve:>12} {protect:>12} {unmap:>12}")?;
    Ok(())
}
