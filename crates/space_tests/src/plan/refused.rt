//! Requests of which there is no plan, and why.

ghost use Rattle.vs_plan.specs.Planner.{AwaitsWords};

use crate::plan::carried::{TARGET, carried, plan_for};
use crate::plan::memory::Memory;
use crate::plan::worked::{A, B, Said, WRITE, is_so, page};
use std::alloc::Global;
use std::process::Abort;
use vs_plan::{Asks, BadRequest, Flush, PlainWords, Planner, Reply, Request, Step, Target};
use vs_types::{Answer, Page, Rights, Size};

const ALL: Rights = Rights::ALL;

const PAGE: Page = Page {
    base: 0x400000,
    size: Size::K4,
    phys: 0x1000,
    rights: ALL,
};

const LARGE: Page = Page {
    size: Size::M2,
    phys: 0,
    ..PAGE
};

const ELSEWHERE: Page = Page {
    base: 0x600000,
    ..PAGE
};

const ODD: Page = Page {
    base: 0x401000,
    ..LARGE
};

const SHIFTED: Page = Page {
    size: Size::M2,
    ..PAGE
};

const BEYOND: Page = Page {
    phys: 1 << 40,
    ..PAGE
};

/// A target, a request of which there is no plan there, why, and in words.
type Refused = (Target, Request, BadRequest, &'static str);

const FEW_BITS: Target = Target {
    phys_bits: 35,
    ..TARGET
};

const FAR_ROOT: Target = Target {
    root: 1 << 28,
    ..TARGET
};

/// Each reason for which there is no plan.
static REFUSED: [Refused; 9] = [
    (
        FEW_BITS,
        Request::Ask(0),
        BadRequest::PhysBits,
        "physical addresses have 36 to 52 bits",
    ),
    (
        FAR_ROOT,
        Request::Ask(0),
        BadRequest::RootRange,
        "the root lies beyond the physical addresses",
    ),
    (
        TARGET,
        Request::Ask(1 << 47),
        BadRequest::NotCanonical,
        "the address is not canonical",
    ),
    (
        TARGET,
        Request::Map(ODD, 0),
        BadRequest::Unaligned,
        "the address is not aligned",
    ),
    (
        TARGET,
        Request::Join(0x800),
        BadRequest::Unaligned,
        "the address is not aligned",
    ),
    (
        TARGET,
        Request::Map(SHIFTED, 0),
        BadRequest::PhysUnaligned,
        "the physical address is not aligned to the size",
    ),
    (
        TARGET,
        Request::Map(BEYOND, 0),
        BadRequest::PhysRange,
        "the page lies beyond the physical addresses",
    ),
    (
        TARGET,
        Request::Map(PAGE, 1),
        BadRequest::Bits,
        "a bit is set that no map may set",
    ),
    (
        TARGET,
        Request::UnmapPart(0x200000, 511, 2),
        BadRequest::Part,
        "the parts are none, all, or not among 512",
    ),
];

#[test]
fn bad_requests(rt: HostRuntime) {
    for (target, request, reason, text) in &REFUSED {
        let refused = Planner::new(*target, *request).err();
        assert!(rt; refused == Some(*reason), "{text}");
        let said = format!(in rt.alloc(); "{reason}").expect(&rt, "memory");
        assert!(rt; said.as_str() == *text, "{text}");
    }
}

/// A request in this memory is answered so, and nothing is to be done.
fn answers(rt: &impl Abort, memory: &mut Memory, target: Target, request: Request, reply: Reply) {
    let plan = plan_for(rt, memory, target, request);
    assert!(rt; is_so(&plan, Said(reply, 0, Flush::Nothing, &[], &[])));
}

const MAP: Request = Request::Map(PAGE, 0);

const MAP_OVER_IT: Request = Request::Map(LARGE, 0);

const MAP_ELSEWHERE: Request = Request::Map(ELSEWHERE, 0);

const OVERLAP: Reply = Reply::Answer(Answer::Overlap(0x400000));

/// A memory of four frames with the page, which takes three of them.
fn with_page(rt: &impl Abort, alloc: Global) -> Memory {
    let mut memory = Memory::new(rt, alloc, 4);
    let plan = carried(rt, &mut memory, TARGET, MAP);
    assert!(rt; plan.reply == Reply::Answer(Answer::Done));
    memory
}

// The answers of the space, and those for want of a frame.
#[test]
fn replies(rt: HostRuntime) {
    let mut memory = with_page(&rt, rt.alloc());
    answers(&rt, &mut memory, TARGET, MAP, OVERLAP);
    answers(&rt, &mut memory, TARGET, MAP_OVER_IT, OVERLAP);
    let missing = Reply::Answer(Answer::NotMapped);
    answers(&rt, &mut memory, TARGET, Request::Unmap(0x401000), missing);
    answers(&rt, &mut memory, TARGET, MAP_ELSEWHERE, Reply::NoFrame);
    memory.offer(&rt, 1 << 28);
    let number = Reply::FrameRange(1 << 28);
    answers(&rt, &mut memory, TARGET, MAP_ELSEWHERE, number);
}

// What a link doesn't allow, an empty table, and an entry with a reserved bit.
#[test]
fn replies_by_what_is_there(rt: HostRuntime) {
    let mut memory = with_page(&rt, rt.alloc());
    memory.write(&rt, B, 2, 0x1_0000_1003);
    let wide = Request::Map(page(0x401000, Size::K4, 0, ALL), 0);
    answers(&rt, &mut memory, TARGET, wide, Reply::Rights);
    let protect = Request::Protect(0x400000, ALL);
    answers(&rt, &mut memory, TARGET, protect, Reply::Rights);
    let plan = carried(&rt, &mut memory, TARGET, Request::Protect(0x400000, WRITE));
    let narrow = Rights { user: false, ..ALL };
    assert!(rt; plan.reply == Reply::Answer(Answer::Changed(narrow)));
    memory.write(&rt, A, 0, 0);
    let empty = Reply::Empty(A, 0x400000);
    answers(&rt, &mut memory, TARGET, MAP_OVER_IT, empty);
    memory.write(&rt, B, 3, 0x2083);
    let reserved = Reply::Reserved(B, 3);
    answers(&rt, &mut memory, TARGET, Request::Ask(0x600000), reserved);
}

// A link beyond the physical addresses: on the way, where the page is to lie, and under it.
#[test]
fn links_beyond(rt: HostRuntime) {
    let mut memory = with_page(&rt, rt.alloc());
    let last = 0xFF_FFFF_F007;
    memory.write(&rt, B, 3, last + 0x1000);
    let reserved = Reply::Reserved(B, 3);
    let large = Page {
        base: 0x600000,
        ..LARGE
    };
    for request in [
        Request::Ask(0x601000),
        Request::Unmap(0x600000),
        Request::Protect(0x600000, WRITE),
        MAP_ELSEWHERE,
        Request::Map(large, 0),
        Request::Prune(0x600000),
    ] {
        answers(&rt, &mut memory, TARGET, request, reserved);
    }
    memory.write(&rt, B, 2, last + 0x1000);
    let gigabyte = Request::Map(page(0, Size::G1, 0, ALL), 0);
    answers(&rt, &mut memory, TARGET, gigabyte, Reply::Reserved(B, 2));
    memory.write(&rt, B, 3, last);
    let planner = planner_for(&rt, TARGET, Request::Ask(0x601000));
    let asked = asked_last(&rt, &memory, planner);
    assert!(rt; asked == Some((1 << 28) - 1));
}

/// The first frame that a planner asks for which the memory doesn't have.
fn asked_last(rt: &impl Abort, memory: &Memory, mut planner: Planner) -> Option<u64>
    requires { AwaitsWords planner }
{
    let mut number = planner.number;
    for _ in 0..4u8 {
        if !memory.has(number) {
            return Some(number);
        }
        match planner.see(&mut PlainWords(memory.words(rt, number))) {
            Step::See(next) => number = next,
            _ => return None,
        }
    }
    None
}

fn planner_for(rt: &impl Abort, target: Target, request: Request) -> Planner
    ensures { AwaitsWords result }
{
    Planner::new(target, request).ok().expect(rt, "a planner")
}

// What a planner waits for.
#[test]
fn asks(rt: HostRuntime) {
    let memory = Memory::new(&rt, rt.alloc(), 4);
    let mut planner = planner_for(&rt, TARGET, MAP);
    assert!(rt; planner.asks() == Asks::Words(TARGET.root));
    let _step = planner.see(&mut PlainWords(memory.words(&rt, TARGET.root)));
    assert!(rt; planner.asks() == Asks::Frame);
    let mut planner = planner_for(&rt, TARGET, Request::Ask(0));
    let _step = planner.see(&mut PlainWords(memory.words(&rt, TARGET.root)));
    assert!(rt; planner.asks() == Asks::Nothing);
}
