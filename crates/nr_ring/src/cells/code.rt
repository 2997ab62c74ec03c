//! The code of the value of the cell, from which the tails and the ring of the last entry follow: one number, which each event raises.
ghost use Rattle.std.specs.Prelude.{◌≡◌, ◌≤◌, ◌<◌, ◌+◌, ◌*◌, All, slice_index, slice_set};
ghost use Rattle.vs_types.specs.declared.limits.TheConstants.{REPLICAS};
ghost use Rattle.nr_ring.specs.declared.cells.words.TheConstants.{MOST_PLACES, RINGS};
ghost use Rattle.nr_ring.specs.inside.Batch.{AreSmall};
ghost use Rattle.nr_ring.specs.inside.Codes.{above, code_of, local_in, locals_in, most_in, room_of, word_in};

use crate::cells::words::{COMPLETED_WORD, COUNT_WORD, HEAD_WORDS, LOCAL_WORDS, RINGS, TAIL_WORD};
use vs_types::{REPLICAS, RING};

/// How many entries fewer than the ring holds a replica has still to take; 0 for one that is absent.
fn room_of(tail: u64, local: u64, present: bool) -> u64
    requires { local ≤ MOST_PLACES }
    ensures { result ≡ room_of tail local present }
{
    if present {
        (local + RING as u64).saturating_sub(tail)
    } else {
        0
    }
}

/// The code of tails: the tail, the room of each replica, and how many replicas there are.
#[inline(always)]
pub(crate) fn code_of(tail: u64, locals: [u64; REPLICAS as usize], count: u64) -> u64
    requires tail { tail ≤ MOST_PLACES }
    requires locals { All (λ local. local ≤ MOST_PLACES) locals }
    requires count { count ≤ REPLICAS }
    ensures { result ≡ code_of tail locals count }
{
    let mut code = tail;
    for replica in 0..REPLICAS as usize {
        code = code * 32 + room_of(tail, locals[replica], (replica as u64) < count);
    }
    code * 8 + count
}

/// What is before the last fields of a packed number.
#[inline(always)]
fn above(code: u64, fields: u64) -> u64
    requires { fields ≤ REPLICAS }
    ensures { result ≡ above code fields }
{
    code >> (5 * fields)
}

/// The local tail of a replica.
#[inline(always)]
fn local_in(code: u64, replica: u64) -> u64
    requires { replica < REPLICAS }
    ensures { result ≡ local_in code replica }
{
    if replica < code % 8 {
        let replicas = u64::from(REPLICAS);
        let room = above(code / 8, replicas - (replica + 1)) % 32;
        (above(code / 8, replicas) + room).saturating_sub(RING as u64)
    } else {
        0
    }
}

/// The greatest local tail.
#[inline(always)]
fn most_in(code: u64) -> u64
    ensures { result ≡ most_in code REPLICAS }
{
    let mut most = 0;
    for replica in 0..u64::from(REPLICAS) {
        most = local_in(code, replica).max(most);
    }
    most
}

/// What a code says at a place.
#[inline(always)]
pub(crate) fn head_word(code: u64, place: usize) -> u64
    ensures { result ≡ word_in code place }
{
    let tails = code / RINGS;
    match place {
        TAIL_WORD => above(tails / 8, u64::from(REPLICAS)),
        COMPLETED_WORD => most_in(tails),
        COUNT_WORD => tails % 8,
        _ if place < COUNT_WORD => local_in(tails, (place - LOCAL_WORDS) as u64),
        _ => code % RINGS,
    }
}

/// The local tails that a head has.
#[inline(always)]
pub(crate) fn locals_in(head: &[u64; HEAD_WORDS]) -> [u64; REPLICAS as usize]
    ensures { result ≡ locals_in head.now }
{
    let mut locals = [0; REPLICAS as usize];
    for replica in 0..REPLICAS as usize {
        locals[replica] = head[LOCAL_WORDS + replica];
    }
    locals
}

/// The code of a head with this tail in place of its own, where the last entry is in a ring.
#[inline(always)]
pub(crate) fn appended_code(head: &[u64; HEAD_WORDS], tail: u64, ring: u64) -> u64
    requires small { AreSmall head.now × (tail ≤ MOST_PLACES) × (ring < RINGS) }
    ensures { result
        ≡ code_of tail (locals_in head.now) (slice_index head.now COUNT_WORD) * RINGS + ring }
{
    code_of(tail, locals_in(head), head[COUNT_WORD]) * RINGS + ring
}

/// The code of a head with this tail in place of its own, and a replica's local tail at a place, where the last entry is in a ring.
#[inline(always)]
pub(crate) fn advanced_code(
    head: &[u64; HEAD_WORDS],
    tail: u64,
    replica: u8,
    to: u64,
    ring: u64,
) -> u64
    requires replica { replica < REPLICAS }
    requires small { AreSmall head.now × (tail ≤ MOST_PLACES) × (to ≤ MOST_PLACES)
        × (ring < RINGS) }
    ensures { result
        ≡ code_of tail (slice_set (locals_in head.now) replica to)
        (slice_index head.now COUNT_WORD) * RINGS + ring }
{
    let mut locals = locals_in(head);
    locals[usize::from(replica)] = to;
    code_of(tail, locals, head[COUNT_WORD]) * RINGS + ring
}
