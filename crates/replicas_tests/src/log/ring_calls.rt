//! Each call on a log of four replicas at five levels, by each party, after an event of each other: a call that answers what its
//! pass saw before meets every clause.

use crate::log::party::{OfLog, Party};
use crate::log::scene::{OF_FOUR, Test, run};
use arrayvec::ArrayVec;
use nr_ring::{AppendFault, LogName, Moved, Tails};
use std::process::Abort;

/// An event that one party makes.
#[derive(Clone, Copy)]
enum Event {
    Append,
    Advance,
}

/// A call that another makes after it.
#[derive(Clone, Copy)]
enum Call {
    Look,
    Fetch,
    Peek,
    Append,
    AppendFull,
    AdvanceLate,
    AdvanceAfterAnother,
    Tell,
    BeTold,
    Take,
    AppendSome,
    AppendAndTake,
}

static CALLS: [Call; 12] = [
    Call::Look,
    Call::Fetch,
    Call::Peek,
    Call::Append,
    Call::AppendFull,
    Call::AdvanceLate,
    Call::AdvanceAfterAnother,
    Call::Tell,
    Call::BeTold,
    Call::Take,
    Call::AppendSome,
    Call::AppendAndTake,
];

/// The call of an entry: its place, of the first 65,536.
fn call_of(place: u64) -> u32 {
    (place % 65_536) as u32
}

/// Looks, and is to see these tails.
fn look<N: LogName, K: OfLog>(rt: &impl Abort, party: &mut Party<N, K>, tails: &Tails) {
    assert!(rt; party.look() == *tails);
}

/// Appends an entry, of which the call is its place.
fn append<N: LogName, K: OfLog>(rt: &impl Abort, party: &mut Party<N, K>, tails: &mut Tails) {
    let place = tails.tail;
    assert!(rt; party.append(rt, call_of(place)) == Ok(place));
    tails.tail = place.saturating_add(1);
}

/// Its replica takes all entries.
fn advance<N: LogName, K: OfLog>(rt: &impl Abort, party: &mut Party<N, K>, tails: &mut Tails) {
    assert!(rt; party.advance(rt).is_ok());
    has_taken(rt, party, tails);
}

/// Its replica, if it owns one, has taken all entries.
fn has_taken<N: LogName, K: OfLog>(rt: &impl Abort, party: &Party<N, K>, tails: &mut Tails) {
    let tail = tails.tail;
    let Some(replica) = party.replica() else {
        return;
    };
    assert!(rt; replica < 4);
    tails.local[usize::from(replica)] = tail;
    tails.completed = tail;
}

/// Appends 2 to 15 entries at once, of which the call is the first one's place.
fn append_some<N: LogName, K: OfLog>(rt: &impl Abort, party: &mut Party<N, K>, tails: &mut Tails) {
    let place = tails.tail;
    let count = 2 + place % 14;
    assert!(rt; party.append_some(rt, count as usize, call_of(place)) == Ok(place));
    tails.tail = place.saturating_add(count);
}

/// The calls of the entries that its replica has still to take, which are their places; none where it owns none.
fn to_take<N: LogName, K: OfLog>(
    rt: &impl Abort,
    party: &Party<N, K>,
    tails: &Tails,
) -> ArrayVec<u32, 16> {
    let mut calls = ArrayVec::new();
    if let Some(replica) = party.replica() {
        assert!(rt; replica < 4);
        for place in tails.local[usize::from(replica)]..tails.tail {
            assert!(rt; calls.try_push(call_of(place)).is_ok());
        }
    }
    calls
}

/// Appends an entry, of which the call is its place, and is to get all entries that its replica has still to take before it.
fn append_and_take<N: LogName, K: OfLog>(
    rt: &impl Abort,
    party: &mut Party<N, K>,
    tails: &mut Tails,
) {
    let place = tails.tail;
    let calls = to_take(rt, party, tails);
    assert!(rt; party.appends_and_takes(rt, call_of(place), place, calls.as_slice()));
    tails.tail = place.saturating_add(1);
    has_taken(rt, party, tails);
}

/// Fetches, or takes in one exchange, and is to get all entries that its replica has still to take.
fn get<N: LogName, K: OfLog>(rt: &impl Abort, party: &mut Party<N, K>, tails: &Tails, takes: bool) {
    let waiting = to_take(rt, party, tails);
    let calls = waiting.as_slice();
    assert!(rt;
        if takes {
            party.takes(rt, calls)
        } else {
            party.fetches(rt, calls)
        }
    );
}

/// Peeks, and is to get the words of all entries that its replica has still to take.
fn peek<N: LogName, K: OfLog>(rt: &impl Abort, party: &mut Party<N, K>, tails: &Tails) {
    let waiting = to_take(rt, party, tails);
    assert!(rt; party.peeks(rt, waiting.as_slice()));
}

/// The other looks, the first appends an entry, and the other is refused an advance if it owns a replica.
fn advance_late<'a, N: LogName, K: OfLog>(
    rt: &impl Abort,
    first: &mut Party<'a, N, K>,
    other: &mut Party<'a, N, K>,
    tails: &mut Tails,
) {
    let place = tails.tail;
    let late = other.advance_late(rt, first, call_of(place));
    tails.tail = place.saturating_add(1);
    let owns = other.replica().is_some();
    assert!(rt; late == if owns { Err(Moved) } else { Ok(()) });
}

/// The other appends an entry and looks, the replica of the first takes all entries, and the other is refused an advance if both own a
/// replica; if only the other does, its replica takes all entries too.
fn advance_after_another<'a, N: LogName, K: OfLog>(
    rt: &impl Abort,
    first: &mut Party<'a, N, K>,
    other: &mut Party<'a, N, K>,
    tails: &mut Tails,
) {
    append(rt, other, tails);
    let late = other.advance_after_another(rt, first);
    has_taken(rt, first, tails);
    let moved = first.replica().is_some() && other.replica().is_some();
    assert!(rt; late == if moved { Err(Moved) } else { Ok(()) });
    if !moved {
        has_taken(rt, other, tails);
    }
}

/// The other makes its call, after the first has made an event.
fn make_call<'a, N: LogName, K: OfLog>(
    rt: &impl Abort,
    first: &mut Party<'a, N, K>,
    other: &mut Party<'a, N, K>,
    call: Call,
    tails: &mut Tails,
) {
    match call {
        Call::Look => look(rt, other, tails),
        Call::Fetch => get(rt, other, tails, false),
        Call::Peek => peek(rt, other, tails),
        Call::Append => append(rt, other, tails),
        Call::AppendFull => {
            let full = AppendFault::Full(*tails);
            assert!(rt; other.append_all(rt, call_of(tails.tail)) == Err(full));
        }
        Call::AdvanceLate => advance_late(rt, first, other, tails),
        Call::AdvanceAfterAnother => advance_after_another(rt, first, other, tails),
        Call::Tell => {
            other.tell(first);
            append(rt, other, tails);
            look(rt, first, tails);
        }
        Call::BeTold => {
            first.tell(other);
            look(rt, other, tails);
            append(rt, first, tails);
        }
        Call::Take => {
            get(rt, other, tails, true);
            has_taken(rt, other, tails);
        }
        Call::AppendSome => append_some(rt, other, tails),
        Call::AppendAndTake => append_and_take(rt, other, tails),
    }
    look(rt, other, tails);
    look(rt, first, tails);
}

/// The first party makes an event: an append, or an advance past an entry that the other appended.
fn make_event<'a, N: LogName, K: OfLog>(
    rt: &impl Abort,
    first: &mut Party<'a, N, K>,
    other: &mut Party<'a, N, K>,
    event: Event,
    tails: &mut Tails,
) {
    match event {
        Event::Append => append(rt, first, tails),
        Event::Advance => {
            append(rt, other, tails);
            advance(rt, first, tails);
        }
    }
}

/// All replicas take all entries, and all parties look.
fn settle<'a, N: LogName, K: OfLog>(
    rt: &impl Abort,
    first: &mut Party<'a, N, K>,
    others: &mut [Party<'a, N, K>],
    tails: &mut Tails,
) {
    advance(rt, first, tails);
    for other in others.iter_mut() {
        advance(rt, other, tails);
    }
    look(rt, first, tails);
    for other in others.iter_mut() {
        look(rt, other, tails);
    }
}

/// The first party makes each event, and one of the others each call after it.
fn all_calls<'a, N: LogName, K: OfLog>(
    rt: &impl Abort,
    first: &mut Party<'a, N, K>,
    others: &mut [Party<'a, N, K>],
    at: usize,
    tails: &mut Tails,
) {
    for event in [Event::Append, Event::Advance] {
        for next in &CALLS {
            let other = others.get_mut(at).expect(rt, "a party");
            make_event(rt, first, other, event, tails);
            make_call(rt, first, other, *next, tails);
            settle(rt, first, others, tails);
        }
    }
}

/// The first party appends so many batches of 16 entries, and all replicas take each.
fn append_batches<'a, N: LogName, K: OfLog>(
    rt: &impl Abort,
    parties: &mut [Party<'a, N, K>],
    count: u32,
    tails: &mut Tails,
) {
    for _ in 0..count {
        let place = tails.tail;
        let first = parties.first_mut().expect(rt, "a party");
        assert!(rt; first.append_all(rt, call_of(place)) == Ok(place));
        tails.tail = place.saturating_add(16);
        for party in parties.iter_mut() {
            advance(rt, party, tails);
        }
    }
}

/// Each party makes each event, and each of the others each call after it, where the log has so many batches of 16 entries before.
pub fn each_call<'a, N: LogName, K: OfLog>(
    rt: &impl Abort,
    parties: Vec<Party<'a, N, K>>,
    batches: u32,
) {
    let mut all = parties;
    let mut tails = Tails {
        tail: 0,
        completed: 0,
        local: [0; 4],
    };
    append_batches(rt, all.as_mut_slice(), batches, &mut tails);
    for _ in 0..8 {
        assert!(rt; all.len() > 0);
        let mut first = all.remove(0);
        for at in 0..all.len() {
            all_calls(rt, &mut first, all.as_mut_slice(), at, &mut tails);
        }
        all.push(first).expect(rt, "memory");
    }
}

/// At the log's beginning, past its place 20,000, and towards its end.
#[test]
fn each_call_after_each_event(rt: HostRuntime) {
    for batches in [0, 1_250, 3_750] {
        run(&rt, rt.alloc(), OF_FOUR, Test::EachCall(batches));
    }
}
