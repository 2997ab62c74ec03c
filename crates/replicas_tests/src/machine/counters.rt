//! Four counters, as what a node keeps: an update adds to one of them, and the reply is what it was before and after.

use nr_machine::{Reply, Update};

pub type Counters = [u64; 4];

/// Adds the second number of an update to the counter that the first one names.
pub fn add(counters: &mut Counters, update: Update) -> Reply {
    let which = (update.first % 4) as usize;
    let first = counters[which];
    let second = first.wrapping_add(update.second);
    counters[which] = second;
    Reply { first, second }
}
