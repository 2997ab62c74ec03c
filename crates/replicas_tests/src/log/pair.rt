//! The two parties that a thread has.

use crate::log::party::{OfLog, Party};
use nr_ring::LogName;
use std::alloc::Global;
use std::process::Abort;

/// A thread's parties: one that owns the replica of the thread's number, and one that owns none.
#[derive(Drop)]
pub struct Pair<'a, N: LogName, K: OfLog> {
    pub number: u32,
    pub owner: Party<'a, N, K>,
    pub other: Party<'a, N, K>,
}

/// The parties of a log of four replicas and eight passes, two for each of four threads.
pub fn pairs<'a, N: LogName, K: OfLog>(
    rt: &impl Abort,
    alloc: Global,
    parties: Vec<Party<'a, N, K>>,
) -> Vec<Pair<'a, N, K>> {
    let mut all = parties;
    let mut pairs = Vec::new(alloc);
    for number in 0..4 {
        assert!(rt; all.len() > 1);
        let owner = all.remove(0);
        let other = all.remove(all.len() - 1);
        let pair = Pair {
            number,
            owner,
            other,
        };
        pairs.push(pair).expect(rt, "memory");
    }
    pairs
}
