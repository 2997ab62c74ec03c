//! The calls of each store of frames, at several sizes and first numbers.

ghost use Rattle.std.specs.Prelude.{◌≡◌, ◌+◌, ◌^◌, ◌≤◌};
ghost use Rattle.std.specs.FinMap as finite;
ghost use Rattle.vs_arena.specs.Store.{IsInUse, zeros};

use crate::values::BASE;
use std::alloc::Global;
use std::marker::Send;
use std::process::Abort;
use vs_arena::{Frame, FrameStore, RawArena, VecArena};

// A frame that was taken, whose words are all 0.
#[tactic(auto, using(vs_arena::proofs::Stores::in_use))]
fn take_cleared<S: FrameStore>(rt: &impl Abort, store: &mut S) -> Frame
    ensures { S.frames store.new ≡ finite.insert (S.frames store.old) result zeros }
{
    let frame = store.take().expect(rt, "no frame is left");
    assert!(rt; is_cleared(store, frame));
    frame
}

#[tactic(auto, using(vs_arena::proofs::Stores::in_use))]
fn take_number<S: FrameStore>(rt: &impl Abort, store: &mut S) -> u64 {
    let frame = take_cleared(rt, store);
    store.number(frame)
}

// The number of a frame that was taken, and freed while all its words were 0.
#[tactic(auto, using(vs_arena::proofs::Stores::in_use))]
fn take_and_give_zeroed<S: FrameStore>(rt: &impl Abort, store: &mut S) -> u64 {
    let frame = take_cleared(rt, store);
    let number = store.number(frame);
    store.give_zeroed(frame);
    number
}

fn is_cleared<S: FrameStore>(store: &S, frame: Frame) -> bool
    requires { IsInUse (S.frames store.now) frame }
{
    for word in store.frame(frame) {
        if *word != 0 {
            return false;
        }
    }
    true
}

fn write<S: FrameStore>(rt: &impl Abort, store: &mut S, number: u64, word: u64) {
    let frame = store.at(number).expect(rt, "a frame in use");
    store.set(frame, 0, word);
}

fn write_note<S: FrameStore>(rt: &impl Abort, store: &mut S, number: u64, note: u16) {
    let frame = store.at(number).expect(rt, "a frame in use");
    store.set_note(frame, note);
}

// Whether the frame in use with this number has this first word and this note.
fn has<S: FrameStore>(store: &S, number: u64, word: u64, note: u16) -> bool {
    let Some(frame) = store.at(number) else {
        return false;
    };
    let index = number.wrapping_sub(BASE);
    frame.index() as u64 == index && store.get(frame, 0) == word && store.note(frame) == note
}

fn give<S: FrameStore>(rt: &impl Abort, store: &mut S, number: u64) {
    let frame = store.at(number).expect(rt, "a frame in use");
    store.give(frame);
    assert!(rt; store.at(number).is_none());
}

// What a new store of two frames from `BASE` on does.
fn use_two<S: FrameStore>(rt: &impl Abort, store: &mut S) {
    assert!(rt; store.capacity() == 2);
    let first = take_number(rt, store);
    let second = take_number(rt, store);
    assert!(rt; store.used() == 2);
    assert!(rt; first.wrapping_add(second) == 2 * BASE + 1);
    assert!(rt; store.at(BASE + 2).is_none());
    assert!(rt; store.take().is_none());
    write(rt, store, first, 5);
    assert!(rt; has(store, first, 5, 0) && has(store, second, 0, 0));
    write_note(rt, store, first, 65535);
    write_note(rt, store, second, 3);
    assert!(rt; has(store, first, 5, 65535) && has(store, second, 0, 3));
    give(rt, store, first);
    use_again(rt, store, first, second);
}

// The first of two frames was freed, and is taken and freed again. The second stays as it is.
fn use_again<S: FrameStore>(rt: &impl Abort, store: &mut S, first: u64, second: u64) {
    assert!(rt; take_number(rt, store) == first);
    assert!(rt; has(store, first, 0, 0) && has(store, second, 0, 3));
    give(rt, store, first);
    assert!(rt; take_and_give_zeroed(rt, store) == first);
    assert!(rt; store.at(first).is_none());
    assert!(rt; take_number(rt, store) == first);
    assert!(rt; has(store, first, 0, 0) && has(store, second, 0, 3));
}

// All frames of a new store are taken, freed in that order, and taken again.
fn use_all<S: FrameStore>(rt: &impl Abort, alloc: Global, store: &mut S) {
    let mut order = Vec::new(alloc);
    for _ in 0..store.capacity() {
        let number = take_and_fill(rt, store);
        order.push(number).expect(rt, "memory");
    }
    assert!(rt; store.take().is_none());
    for number in &order {
        give(rt, store, *number);
    }
    assert!(rt; store.used() == 0);
    for _ in 0..store.capacity() {
        take_cleared(rt, store);
    }
    assert!(rt; store.take().is_none());
}

// The number of a frame that was taken, whose first word and last one were written.
#[tactic(auto, using(vs_arena::proofs::Stores::in_use))]
fn take_and_fill<S: FrameStore>(rt: &impl Abort, store: &mut S) -> u64 {
    let frame = take_cleared(rt, store);
    store.set(frame, 0, 5);
    store.set(frame, 511, 7);
    store.number(frame)
}

fn use_none<S: FrameStore>(rt: &impl Abort, store: &mut S) {
    assert!(rt; store.capacity() == 0);
    assert!(rt; store.take().is_none());
    assert!(rt; store.at(BASE).is_none());
}

// A new store; where one growth of memory is refused, that of a second try.
fn raw_arena(rt: &impl Abort, alloc: Global, n: usize) -> RawArena
    requires { n ≤ 4096 }
    ensures { result
        ≡ record { base = 2 ^ 39; size = n; frames = finite.empty; notes = finite.empty } }
{
    match RawArena::new(alloc, BASE, n) {
        Ok(arena) => arena,
        Err(_) => RawArena::new(alloc, BASE, n).expect(rt, "memory"),
    }
}

#[test]
fn arenas_of_two(rt: HostRuntime) {
    let mut store = VecArena::new(rt.alloc(), BASE, 2).expect(&rt, "memory");
    use_two(&rt, &mut store);
    use_two(&rt, &mut raw_arena(&rt, rt.alloc(), 2));
}

#[test]
fn arenas_of_all(rt: HostRuntime) {
    let mut store = VecArena::new(rt.alloc(), BASE, 4096).expect(&rt, "memory");
    use_all(&rt, rt.alloc(), &mut store);
    use_all(&rt, rt.alloc(), &mut raw_arena(&rt, rt.alloc(), 4096));
}

#[test]
fn arenas_of_none(rt: HostRuntime) {
    let mut store = VecArena::new(rt.alloc(), BASE, 0).expect(&rt, "memory");
    use_none(&rt, &mut store);
    use_none(&rt, &mut raw_arena(&rt, rt.alloc(), 0));
}

// A new store of so many frames from a base on gives each of them once.
fn use_sized<S: FrameStore>(rt: &impl Abort, store: &mut S, base: u64, n: usize) {
    assert!(rt; store.capacity() == n);
    let n = n as u64;
    let mut sum = 0u64;
    for _ in 0..n {
        let index = take_number(rt, store).wrapping_sub(base);
        assert!(rt; index < n);
        sum = sum.wrapping_add(index);
    }
    assert!(rt; sum == n.wrapping_mul(n.wrapping_sub(1)) / 2);
    assert!(rt; store.take().is_none());
}

// 0 to 64 frames at the least and the greatest bases, and at one between
#[test]
fn arenas_at_many_bases(rt: HostRuntime) {
    for base in [0, 1, BASE, (1 << 40) - 64, (1 << 40) - 16] {
        for n in 0..65 {
            if base + n as u64 <= 1 << 40 {
                let mut store = VecArena::new(rt.alloc(), base, n).expect(&rt, "memory");
                use_sized(&rt, &mut store, base, n);
                let mut store = RawArena::new(rt.alloc(), base, n).expect(&rt, "memory");
                use_sized(&rt, &mut store, base, n);
            }
        }
    }
}

// 16 to 4,096 frames
#[test]
fn arenas_of_many_sizes(rt: HostRuntime) {
    for step in 0..17 {
        let n = 16 + 255 * step;
        let store = VecArena::new(rt.alloc(), BASE, n).expect(&rt, "memory");
        assert!(rt; store.capacity() == n);
        let store = RawArena::new(rt.alloc(), BASE, n).expect(&rt, "memory");
        assert!(rt; store.capacity() == n);
    }
}

fn cross<T: Send>(value: T) -> T {
    value
}

#[test]
fn arena_moves_to_another_thread(rt: HostRuntime) {
    let mut arena = cross(raw_arena(&rt, rt.alloc(), 2));
    assert!(rt; arena.take().is_some());
}
