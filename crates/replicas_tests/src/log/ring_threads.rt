//! Threads that append and take entries at the same time, until the replicas have taken all.

use crate::log::party::{OfLog, Party, is_later};
use crate::log::scene::{Layout, Test, run};
use crossbeam_utils::Backoff;
use nr_ring::{AppendFault, LogName, Tails};
use std::alloc::Global;
use std::process::Abort;
use std::sync::Wait;
use std::sync::atomic::{AtomicU64, Ordering};
use std::thread;
use std::thread::Threads;
use vs_types::Depth;

/// How many entries each of two threads appends.
const ROUNDS: u32 = 10_000;

/// Looks, and sees all entries that a thread had appended or seen before.
fn look_now<N: LogName, K: OfLog>(
    rt: &impl Abort,
    party: &mut Party<N, K>,
    known: &AtomicU64,
) -> Tails {
    let before = known.load(Ordering::SeqCst);
    let tails = party.look();
    let tail = tails.tail;
    assert!(rt; before <= tail);
    known.fetch_max(tail, Ordering::SeqCst);
    tails
}

/// Fetches the entries that the replica has still to take, and advances past them, where no other thread's event comes between. It adds
/// the calls of those that it took to all that it has taken.
fn fetch_and_advance<N: LogName, K: OfLog>(
    rt: &impl Abort,
    party: &mut Party<N, K>,
    replica: u8,
    known: &AtomicU64,
    taken: &mut Vec<u32>,
) {
    let entries = party.fetch();
    let tails = look_now(rt, party, known);
    assert!(rt; replica < 4);
    let local = tails.local[usize::from(replica)];
    assert!(rt; local as usize == taken.len());
    let to = local.saturating_add(entries.len() as u64);
    if let Ok(()) = party.advance_to(rt, to) {
        for entry in entries.as_slice() {
            taken.push(entry.call).expect(rt, "memory");
        }
    }
}

/// Takes the entries that the replica has still to take, where no other thread's event comes between: replica 0 by a fetch and an
/// advance, the others in one exchange. It adds the calls of those that it took.
fn take<N: LogName, K: OfLog>(
    rt: &impl Abort,
    party: &mut Party<N, K>,
    replica: u8,
    known: &AtomicU64,
    taken: &mut Vec<u32>,
) {
    if replica == 0 {
        return fetch_and_advance(rt, party, replica, known, taken);
    }
    if let Ok(entries) = party.take() {
        for entry in entries.as_slice() {
            taken.push(entry.call()).expect(rt, "memory");
        }
    }
}

/// Appends one entry: replica 0 alone, the others as they take all, in one exchange. It adds the calls of what it took.
fn try_append<N: LogName, K: OfLog>(
    rt: &impl Abort,
    party: &mut Party<N, K>,
    replica: u8,
    call: u32,
    taken: &mut Vec<u32>,
) -> Result<u64, AppendFault> {
    if replica == 0 {
        return party.append(rt, call);
    }
    let (place, before) = party.append_and_take(rt, call)?;
    for entry in before.as_slice() {
        taken.push(entry.call()).expect(rt, "memory");
    }
    taken.push(call).expect(rt, "memory");
    Ok(place)
}

/// Appends one entry. While the log is full it takes entries, so that the other thread gets on.
fn append<N: LogName, K: OfLog, R: Wait + Abort>(
    rt: &R,
    party: &mut Party<N, K>,
    replica: u8,
    call: u32,
    known: &AtomicU64,
    taken: &mut Vec<u32>,
) {
    let backoff = Backoff::new();
    for _ in rt.forever() {
        let seen = look_now(rt, party, known);
        match try_append(rt, party, replica, call, taken) {
            Ok(place) => {
                known.fetch_max(place.saturating_add(1), Ordering::SeqCst);
                return;
            }
            Err(AppendFault::LogEnded) => panic!(rt; "the log ended"),
            Err(AppendFault::Moved(tails)) => assert!(rt; is_later(&tails, &seen)),
            Err(AppendFault::Full(tails)) => {
                assert!(rt; is_later(&tails, &seen));
                take(rt, party, replica, known, taken);
            }
        }
        backoff.snooze();
    }
    unreachable!()
}

/// One thread's part. One whose party owns a replica appends its entries, advances after each, and goes on until its replica has
/// taken all entries of both threads; the other looks until all are there. The calls of the entries that it took, in order.
fn work<N: LogName, K: OfLog, R: Wait + Abort>(
    rt: &R,
    alloc: Global,
    mut party: Party<N, K>,
    known: &AtomicU64,
) -> Vec<u32> {
    let mut taken = Vec::new(alloc);
    let owned = party.replica();
    if let Some(replica) = owned {
        for round in 0..ROUNDS {
            let call = 2 * round + u32::from(replica);
            append(rt, &mut party, replica, call, known, &mut taken);
            take(rt, &mut party, replica, known, &mut taken);
        }
    }
    let backoff = Backoff::new();
    for _ in rt.forever() {
        match owned {
            Some(replica) => take(rt, &mut party, replica, known, &mut taken),
            None if look_now(rt, &mut party, known).tail == 20_000 => return taken,
            None => {}
        }
        if taken.len() == 20_000 {
            return taken;
        }
        backoff.snooze();
    }
    unreachable!()
}

/// Whether each thread's entries are there in the order in which it appended them, and all of them.
fn are_in_order(calls: &[u32]) -> bool {
    let mut next = [0, 0];
    for call in calls {
        let thread = (call % 2) as usize;
        if call / 2 != next[thread] {
            return false;
        }
        next[thread] = call / 2 + 1;
    }
    next == [ROUNDS, ROUNDS]
}

/// The parties of a log of two replicas, each in a thread of its own. Both replicas take the same entries in the same order, and each
/// thread's in the order in which it appended them.
pub fn share<N: LogName + Send + Sync, K: OfLog + Send + Sync, R: Wait + Abort + Threads + Sync>(
    rt: &R,
    alloc: Global,
    parties: Vec<Party<N, K>>,
) {
    let known = AtomicU64::new(0);
    let taken = thread::map_vec(
        rt,
        parties,
        &|party: Party<N, K>| work(rt, alloc, party, &known),
    );
    let taken = taken.expect(rt, "memory");
    let here = taken.first().expect(rt, "the first thread's");
    let there = taken.get(1).expect(rt, "the second thread's");
    assert!(rt; here == there);
    assert!(rt; are_in_order(here.as_slice()));
}

#[test]
fn two_threads_share_a_log(rt: HostRuntime) {
    run(&rt, rt.alloc(), Layout::new(Depth::Four, 2, 1), Test::Share);
}
