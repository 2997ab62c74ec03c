//! Calls of a log's parties one after another, each with what it has to answer.

use crate::log::party::{OfLog, Party};
use nr_ring::{AppendFault, LogName, Moved, Tails};
use std::process::Abort;

/// What a party does, and what that answers.
#[derive(Clone, Copy)]
pub enum Does {
    /// It appends an entry of this call, which gets this place.
    Appends(u32, u64),
    /// It appends 16 entries of this call, of which the first gets this place.
    AppendsAll(u32, u64),
    /// For an entry there is no room: the tail, the completed tail and the local ones.
    IsFull(u64, u64, [u64; 4]),
    /// For 16 entries there is none.
    IsFullForAll(u64, u64, [u64; 4]),
    /// It sees these tails.
    Looks(u64, u64, [u64; 4]),
    /// It fetches entries of these calls.
    Fetches(&'static [u32]),
    /// It takes entries of these calls.
    Takes(&'static [u32]),
    /// It appends an entry of this call, which gets this place, and takes entries of these calls before it.
    AppendsAndTakes(u32, u64, &'static [u32]),
    /// It advances its replica to this place.
    Advances(u64),
    /// It looks, and then one of the parties after it, counted from 0, appends an entry of this call. An advance to the tail that it
    /// saw is refused.
    AdvancesLate(usize, u32),
    /// One of the parties after it hands it what that has seen.
    IsTold(usize),
}

/// A step of the party of this number.
#[derive(Clone, Copy)]
pub struct Step(pub usize, pub Does);

fn tails(tail: u64, completed: u64, local: [u64; 4]) -> Tails {
    Tails {
        tail,
        completed,
        local,
    }
}

/// Takes these steps one after another.
pub fn take_all<N: LogName, K: OfLog>(rt: &impl Abort, parties: Vec<Party<N, K>>, steps: &[Step]) {
    let mut parties = parties;
    for (place, Step(number, does)) in steps.iter().enumerate() {
        let (first, later) = parties
            .split_at_mut_checked(number.saturating_add(1))
            .expect(rt, "a party of this number");
        let party = first.last_mut().expect(rt, "a party");
        assert!(rt; take(rt, party, later, *does), "step {place}");
    }
}

/// One step of a party, with those after it: whether it answers so.
fn take<'a, N: LogName, K: OfLog>(
    rt: &impl Abort,
    party: &mut Party<'a, N, K>,
    later: &mut [Party<'a, N, K>],
    does: Does,
) -> bool {
    match does {
        Does::Appends(call, place) => party.append(rt, call) == Ok(place),
        Does::AppendsAll(call, place) => party.append_all(rt, call) == Ok(place),
        Does::IsFull(tail, completed, local) => {
            let full = AppendFault::Full(tails(tail, completed, local));
            party.append(rt, 1) == Err(full)
        }
        Does::IsFullForAll(tail, completed, local) => {
            let full = AppendFault::Full(tails(tail, completed, local));
            party.append_all(rt, 2) == Err(full)
        }
        Does::Looks(tail, completed, local) => party.look() == tails(tail, completed, local),
        Does::Fetches(calls) => party.fetches(rt, calls),
        Does::Takes(calls) => party.takes(rt, calls),
        Does::AppendsAndTakes(call, place, calls) => {
            party.appends_and_takes(rt, call, place, calls)
        }
        Does::Advances(to) => party.advance_to(rt, to).is_ok(),
        Does::AdvancesLate(other, call) => {
            let other = later.get_mut(other).expect(rt, "a later party");
            party.advance_late(rt, other, call) == Err(Moved)
        }
        Does::IsTold(by) => {
            let by = later.get_mut(by).expect(rt, "a later party");
            by.tell(party);
            true
        }
    }
}

/// The only party fills its log to the end, by so many batches of 16 entries.
pub fn fill<N: LogName, K: OfLog>(rt: &impl Abort, parties: Vec<Party<N, K>>, batches: u32) {
    let mut parties = parties;
    let party = parties.first_mut().expect(rt, "a party");
    for batch in 0..batches {
        let place = 16 * u64::from(batch);
        assert!(rt; party.append_all(rt, 0) == Ok(place));
        assert!(rt; party.advance_to(rt, place + 16).is_ok());
    }
    assert!(rt; party.append(rt, 1) == Err(AppendFault::LogEnded));
}

/// The only party appends a batch of each size, and its replica takes each before the next.
pub fn append_each_size<N: LogName, K: OfLog>(rt: &impl Abort, parties: Vec<Party<N, K>>) {
    let mut parties = parties;
    let party = parties.first_mut().expect(rt, "a party");
    let mut place = 0u64;
    for count in 1..17 {
        let call = count as u32;
        assert!(rt; party.append_some(rt, count, call) == Ok(place));
        assert!(rt; party.fetches(rt, &[call; 16][..count]));
        place = place.saturating_add(count as u64);
        assert!(rt; party.advance_to(rt, place).is_ok());
    }
}
