//! Scripts.
use nr_serve::CallOutcome;
use std::alloc::Global;
use std::process::Abort;
use vs_types::{Access, Answer, Depth, Mode, Op, Request, Rights, Size};

/// A page of 4 KiB at 0x400000 is mapped to 0x1000, with all rights.
pub fn map_a(rt: &impl Abort) -> Request {
    let op = Op::map(Depth::Four, 0x400000, Size::K4, 0x1000, Rights::ALL).expect(rt, "a map");
    Request::update(op)
}

/// An address in that page is resolved.
pub fn resolve_a(rt: &impl Abort) -> Request {
    Request::resolve(Depth::Four, 0x400123).expect(rt, "a resolve")
}

/// That page is unmapped.
pub fn unmap_a(rt: &impl Abort) -> Request {
    Request::update(Op::unmap(Depth::Four, 0x400000).expect(rt, "an unmap"))
}

/// What a thread is answered that maps that page, asks for the address, unmaps the page and asks again.
pub const ANSWERS_OF_FOUR: [CallOutcome; 4] = [
    CallOutcome::Answer(0, Answer::Done),
    CallOutcome::Answer(1, Answer::Mapped(0x1123, Size::K4, Rights::ALL)),
    CallOutcome::Answer(1, Answer::Removed(0x1000, Size::K4, Rights::ALL)),
    CallOutcome::Answer(2, Answer::NotMapped),
];

/// 64 requests. Half are updates: that page and the page of 2 MiB that begins with it are mapped, the rights of what is there are
/// changed, and it is unmapped.
pub fn overlapping(rt: &impl Abort, alloc: Global) -> Vec<Request> {
    let whole = Op::map(Depth::Four, 0x400000, Size::M2, 0x200000, Rights::ALL).expect(rt, "a map");
    let rights = Op::protect(Depth::Four, 0x400000, Rights::ALL).expect(rt, "a protect");
    let resolve = resolve_a(rt);
    let eight = [
        map_a(rt),
        resolve,
        Request::update(whole),
        resolve,
        Request::update(rights),
        resolve,
        unmap_a(rt),
        resolve,
    ];
    let mut script = Vec::new(alloc);
    for _ in 0..8u32 {
        script.extend_from_slice(&eight).expect(rt, "memory");
    }
    script
}

/// A page of 4 KiB at 0x800000000000, which only five levels reach, is mapped to 0x1000 with no rights but to read in supervisor mode.
pub fn map_high(rt: &impl Abort) -> Request {
    Request::update(Op::map(Depth::Five, 0x800000000000, Size::K4, 0x1000, Rights::NONE).expect(
        rt, "a map",
    ))
}

/// An access in that page.
pub fn access_high(rt: &impl Abort, mode: Mode, access: Access) -> Request {
    Request::access(Depth::Five, 0x800000000123, mode, access).expect(rt, "an access")
}
