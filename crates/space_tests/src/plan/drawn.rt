//! Drawn calls: what plans do to a memory, beside the page table that keeps its own frames.

use crate::plan::carried::{TARGET, carried};
use crate::plan::memory::Memory;
use crate::plan::worked::page;
use std::process::Abort;
use vs_arena::{FrameStore, VecArena};
use vs_plan::{Reply, Request, Target};
use vs_space::Space;
use vs_types::{Answer, Depth, Op, Rights, Size};

/// How many calls are drawn at each depth.
const CALLS: u32 = 3_000;

/// The pieces of a page that is split or joined.
const PARTS: u64 = 512;

/// The bases at which pages are drawn: in both halves, and at the end of one.
const TOPS: [u64; 3] = [0, 0x7FFF80000000, 0xFFFF800000000000];

/// The sizes, from which the smaller ones are drawn more often.
const SIZES: [Size; 8] = [
    Size::K4,
    Size::K4,
    Size::K4,
    Size::K4,
    Size::M2,
    Size::M2,
    Size::M2,
    Size::G1,
];

/// Numbers that look random, each from the one before.
#[derive(Clone, Copy)]
struct Draws(u64);

impl Draws {
    /// A number below this one, which isn't 0.
    fn below(&mut self, limit: u64) -> u64 {
        self.0 ^= self.0 << 13;
        self.0 ^= self.0 >> 7;
        self.0 ^= self.0 << 17;
        self.0.checked_rem(limit).unwrap_or(0)
    }

    fn size(&mut self) -> Size {
        SIZES[(self.below(8) % 8) as usize]
    }

    fn rights(&mut self) -> Rights {
        let bits = self.below(8);
        Rights {
            write: bits & 1 != 0,
            user: bits & 2 != 0,
            exec: bits & 4 != 0,
        }
    }

    /// An address, a multiple of this size, near one of a few.
    fn base(&mut self, size: Size) -> u64 {
        let top = TOPS[(self.below(3) % 3) as usize];
        let large = (self.below(2) << 30).wrapping_add(self.below(3) << 21);
        let place = large.wrapping_add(self.below(3) << 12);
        let base = top.wrapping_add(place % (1 << 31));
        base & (size.bytes() - 1 ^ u64::MAX)
    }

    /// A physical address, a multiple of this size, below 2^37; now and then as it follows from the base.
    fn phys(&mut self, base: u64, size: Size) -> u64 {
        match self.below(3) {
            0 => self.below(32).wrapping_mul(size.bytes()),
            _ => base % (1 << 32),
        }
    }
}

/// What the space answers to an operation.
fn applied<S: FrameStore>(rt: &impl Abort, space: &mut Space<S>, op: Op) -> Answer {
    let depth = space.depth();
    assert!(rt; op.fits(depth));
    space.apply(op)
}

/// What it answers to an address.
fn resolved<S: FrameStore>(rt: &impl Abort, space: &Space<S>, address: u64) -> Answer {
    assert!(rt; space.depth().is_canonical(address));
    space.resolve(address)
}

/// The page at an address, where one begins there, or why none does.
fn begins<S: FrameStore>(
    rt: &impl Abort,
    space: &mut Space<S>,
    base: u64,
) -> Result<(u64, Size, Rights), Answer> {
    let Answer::Mapped(phys, size, rights) = resolved(rt, space, base) else {
        return Err(Answer::NotMapped);
    };
    let op = Op::protect(space.depth(), base, rights)
        .ok()
        .expect(rt, "a base");
    match applied(rt, space, op) {
        Answer::Changed(_) => Ok((phys, size, rights)),
        inside => Err(inside),
    }
}

/// Puts pages of this size in the place of others, from a base on, this many of so many: they translate alike.
fn put<S: FrameStore>(
    rt: &impl Abort,
    space: &mut Space<S>,
    base: u64,
    removed: (Size, u64),
    (size, count): (Size, u64),
    (phys, rights): (u64, Rights),
) {
    let depth = space.depth();
    for number in 0..removed.1 {
        let at = base.wrapping_add(number.wrapping_mul(removed.0.bytes()));
        let op = Op::unmap(depth, at).ok().expect(rt, "a base");
        assert!(rt; matches!(applied(rt, space, op), Answer::Removed(..)));
    }
    for number in 0..count {
        let step = number.wrapping_mul(size.bytes());
        let (at, phys) = (base.wrapping_add(step), phys.wrapping_add(step));
        let op = Op::map(depth, at, size, phys, rights)
            .ok()
            .expect(rt, "a page");
        assert!(rt; applied(rt, space, op) == Answer::Done);
    }
}

fn smaller(size: Size) -> Size {
    match size {
        Size::G1 => Size::M2,
        _ => Size::K4,
    }
}

/// What a remap has to answer, which the space does.
fn remapped<S: FrameStore>(
    rt: &impl Abort,
    space: &mut Space<S>,
    base: u64,
    phys: u64,
    rights: Rights,
) -> Reply {
    match begins(rt, space, base) {
        Err(answer) => Reply::Answer(answer),
        Ok((_, size, _)) if phys % size.bytes() != 0 => Reply::PhysUnaligned,
        Ok((_, size, was)) => {
            put(rt, space, base, (size, 1), (size, 1), (phys, rights));
            Reply::Answer(Answer::Changed(was))
        }
    }
}

/// What a split has to answer, which the space does.
fn split<S: FrameStore>(rt: &impl Abort, space: &mut Space<S>, base: u64) -> Reply {
    match begins(rt, space, base) {
        Err(answer) => Reply::Answer(answer),
        Ok((_, Size::K4, _)) => Reply::Smallest,
        Ok((phys, size, rights)) => {
            let parts = (smaller(size), PARTS);
            put(rt, space, base, (size, 1), parts, (phys, rights));
            Reply::Answer(Answer::Changed(rights))
        }
    }
}

/// What a join has to answer, which the space does.
fn joined<S: FrameStore>(rt: &impl Abort, space: &mut Space<S>, base: u64) -> Reply {
    let (phys, size, rights) = match begins(rt, space, base) {
        Err(answer) => return Reply::Answer(answer),
        Ok(page) => page,
    };
    let large = match size {
        Size::K4 => Size::M2,
        Size::M2 => Size::G1,
        Size::G1 => return Reply::Largest,
    };
    if base % large.bytes() != 0 {
        return Reply::Unaligned;
    }
    if phys % large.bytes() != 0 {
        return Reply::PhysUnaligned;
    }
    for number in 0..512usize {
        let step = (number as u64).wrapping_mul(size.bytes());
        let wanted = Answer::Mapped(phys.wrapping_add(step), size, rights);
        if resolved(rt, space, base.wrapping_add(step)) != wanted {
            return Reply::Apart(number);
        }
    }
    put(rt, space, base, (size, PARTS), (large, 1), (phys, rights));
    Reply::Answer(Answer::Changed(rights))
}

/// Draws a call and makes it in the space: the request for a plan, and what it has to answer.
fn draw<S: FrameStore>(
    rt: &impl Abort,
    draws: &mut Draws,
    space: &mut Space<S>,
) -> (Request, Reply) {
    let depth = space.depth();
    let size = draws.size();
    let base = draws.base(size);
    let phys = draws.phys(base, size);
    let rights = draws.rights();
    match draws.below(8) {
        0 => {
            let op = Op::unmap(depth, base).ok().expect(rt, "a base");
            (Request::Unmap(base), Reply::Answer(applied(rt, space, op)))
        }
        1 => {
            let op = Op::protect(depth, base, rights).ok().expect(rt, "a base");
            (
                Request::Protect(base, rights),
                Reply::Answer(applied(rt, space, op)),
            )
        }
        2 => (
            Request::Remap(base, phys, rights),
            remapped(rt, space, base, phys, rights),
        ),
        3 => (Request::Split(base), split(rt, space, base)),
        4 => (Request::Join(base), joined(rt, space, base)),
        _ => {
            let op = Op::map(depth, base, size, phys, rights)
                .ok()
                .expect(rt, "a page");
            let map = Request::Map(page(base, size, phys, rights), 0);
            (map, Reply::Answer(applied(rt, space, op)))
        }
    }
}

/// Drawn calls are answered as by the space, and translate as there.
fn draw_all<S: FrameStore + Drop>(
    rt: &impl Abort,
    mut memory: Memory,
    mut space: Space<S>,
    target: Target,
) {
    let mut draws = Draws(0x9E3779B97F4A7C15);
    for place in 0..CALLS {
        let (request, reply) = draw(rt, &mut draws, &mut space);
        let plan = carried(rt, &mut memory, target, request);
        assert!(rt; plan.reply == reply, "call {place}");
        for _ in 0..4u8 {
            let address = draws.base(Size::K4).wrapping_add(draws.below(4096));
            let asked = carried(rt, &mut memory, target, Request::Ask(address));
            let wanted = Reply::Answer(resolved(rt, &space, address));
            assert!(rt; asked.reply == wanted, "an address after call {place}");
        }
    }
}

#[test]
fn as_the_space(rt: HostRuntime) {
    for depth in [Depth::Four, Depth::Five] {
        let arena = VecArena::new(rt.alloc(), 1 << 39, 512).expect(&rt, "memory");
        let space = Space::new(arena, depth).ok().expect(&rt, "a space");
        let target = Target { depth, ..TARGET };
        draw_all(&rt, Memory::new(&rt, rt.alloc(), 512), space, target);
    }
}
