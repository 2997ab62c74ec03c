//! Each form of a line of a script, each reason why one is bad, and the limits.

use nr_core::Act;
use nr_script::{BadLine, SCRIPT_BYTES, Script, read_script};
use std::alloc::Global;
use std::process::Abort;
use vs_types::{Access, BadOp, Depth, Mode, Op, Request, Rights, Size};

/// The script that a text is.
fn script_of(alloc: Global, depth: Depth, text: &[u8]) -> Option<Script> {
    if text.len() > SCRIPT_BYTES {
        return None;
    }
    read_script(alloc, depth, text).ok()
}

/// The first bad line of a text.
fn bad_line(alloc: Global, depth: Depth, text: &[u8]) -> Option<u32> {
    if text.len() > SCRIPT_BYTES {
        return None;
    }
    match read_script(alloc, depth, text) {
        Err(vs_types::Fail::Refused(BadLine(line))) => Some(line),
        _ => None,
    }
}

/// A line so many times, and then another.
fn repeated(rt: &impl Abort, alloc: Global, line: &[u8], times: u32, last: &[u8]) -> Vec<u8> {
    let mut text = Vec::new(alloc);
    for _ in 0..times {
        text.extend_from_slice(line).expect(rt, "memory");
    }
    text.extend_from_slice(last).expect(rt, "memory");
    text
}

/// What a thread asks at this place of its list.
fn asked(script: &Script, thread: usize, index: usize) -> Option<Request> {
    script.requests.get(thread)?.get(index).copied()
}

fn update(op: Result<Op, BadOp>) -> Option<Request> {
    op.ok().map(Request::update)
}

fn rights(write: bool, user: bool, exec: bool) -> Rights {
    Rights { write, user, exec }
}

const REQUESTS: &[u8] = b"# each request
2 map 2M 0xFFFFFFFFC0000000 0x200000 w-x
0 unmap 0x1000

0 protect 0x0000000000ABc000 -u-
0 resolve 0x0
63 access u w 0x7fffffffffff
0 access s r 0xa
0 access s x 0xB
0 map 1G 0x40000000 0x0 ---
1 map 4K 0x1000 0x7FFFFFFFFF000 wux";

#[test]
fn requests_of_each_thread(rt: HostRuntime) {
    let script = script_of(rt.alloc(), Depth::Four, REQUESTS).expect(&rt, "it is a script");
    assert_eq!(rt; script.threads, 64);
    assert_eq!(rt; script.requests.len(), 64);
    for (thread, list) in script.requests.iter().enumerate() {
        let many = match thread {
            0 => 6,
            1 | 2 | 63 => 1,
            _ => 0,
        };
        assert_eq!(rt; list.len(), many);
    }
    assert!(rt; script.steps.is_empty());
    assert_eq!(rt; script.first_step, None);
}

#[test]
fn each_update(rt: HostRuntime) {
    let four = Depth::Four;
    let script = script_of(rt.alloc(), four, REQUESTS).expect(&rt, "it is a script");
    let high = Op::map(
        four,
        0xFFFF_FFFF_C000_0000,
        Size::M2,
        0x20_0000,
        rights(true, false, true),
    );
    assert!(rt; asked(&script, 2, 0) == update(high));
    assert!(rt; asked(&script, 0, 0) == update(Op::unmap(four, 0x1000)));
    assert!(rt;
        asked(&script, 0, 1) == update(Op::protect(four, 0xAB_C000, rights(false, true, false)))
    );
    assert!(rt;
        asked(&script, 0, 5) == update(Op::map(four, 0x4000_0000, Size::G1, 0, Rights::NONE))
    );
    let last = Op::map(four, 0x1000, Size::K4, 0x7_FFFF_FFFF_F000, Rights::ALL);
    assert!(rt; asked(&script, 1, 0) == update(last));
}

#[test]
fn each_read(rt: HostRuntime) {
    let four = Depth::Four;
    let script = script_of(rt.alloc(), four, REQUESTS).expect(&rt, "it is a script");
    assert!(rt; asked(&script, 0, 2) == Request::resolve(four, 0).ok());
    assert!(rt;
        asked(&script, 63, 0)
            == Request::access(four, 0x7FFF_FFFF_FFFF, Mode::User, Access::Write).ok()
    );
    assert!(rt;
        asked(&script, 0, 3) == Request::access(four, 10, Mode::Supervisor, Access::Read).ok()
    );
    assert!(rt;
        asked(&script, 0, 4) == Request::access(four, 11, Mode::Supervisor, Access::Fetch).ok()
    );
}

const STEPS: &[u8] = b"1 resolve 0x0
#
step 0 call
step 1 post
step 2 take 3
step 63 collect 63
step 4 append
step 5 advance
step 6 apply
step 7 answer 10
step 8 release
step 9 look
step 10 read
step 11 reply
";

/// The steps of these lines.
static STEPS_READ: [(u16, Act); 12] = [
    (0, Act::Call),
    (1, Act::Post),
    (2, Act::Take(3)),
    (63, Act::Collect(63)),
    (4, Act::Append),
    (5, Act::Advance),
    (6, Act::Apply),
    (7, Act::Answer(10)),
    (8, Act::Release),
    (9, Act::Look),
    (10, Act::Read),
    (11, Act::Reply),
];

#[test]
fn each_step(rt: HostRuntime) {
    let script = script_of(rt.alloc(), Depth::Four, STEPS).expect(&rt, "it is a script");
    assert_eq!(rt; script.threads, 2);
    assert_eq!(rt; script.first_step, Some(3));
    assert_eq!(rt; script.steps.len(), 12);
    for (step, (thread, act)) in script.steps.iter().zip(STEPS_READ.iter()) {
        assert!(rt; step.thread == *thread && step.act == *act);
    }
}

/// Each is one line that has no form, or a request that is not well formed.
static BAD: [&[u8]; 40] = [
    b"00 resolve 0x0",
    b"64 resolve 0x0",
    b"100 resolve 0x0",
    b"-1 resolve 0x0",
    b"0 map 4K 0x800000000000 0x1000 wux",
    b" 0 resolve 0x0",
    b"0  resolve 0x0",
    b"0 resolve 0x0 ",
    b"0 resolve  0x0",
    b"0 resolve 0x0\r",
    b"0\tresolve 0x0",
    b"0 resolve",
    b"0 resolve 0x0 0x0",
    b"0 resolve 0x",
    b"0 resolve 0x00000000000000000",
    b"0 resolve 0xg",
    b"0 resolve 0x+1",
    b"0 resolve 0X0",
    b"0 resolve 1000",
    b"0 resolve 0x800000000000",
    b"0 unmap 0x1001",
    b"0 map 4K 0x0 0x1001 wux",
    b"0 map 2M 0x1000 0x0 wux",
    b"0 map 4K 0x0 0x8000000000000 wux",
    b"0 map 4k 0x0 0x0 wux",
    b"0 map 4K 0x0 0x0 uwx",
    b"0 map 4K 0x0 0x0 WUX",
    b"0 map 4K 0x0 0x0 wu",
    b"0 map 4K 0x0 0x0",
    b"0 protect 0x0",
    b"0 access x r 0x0",
    b"0 access s s 0x0",
    b"0 Resolve 0x0",
    b"step 0 take",
    b"step 0 take 64",
    b"step 0 take 01",
    b"step 64 call",
    b"step 0 call 1",
    b"step 0 jump",
    b" # no comment",
];

#[test]
fn bad_lines(rt: HostRuntime) {
    for text in &BAD {
        assert_eq!(rt; bad_line(rt.alloc(), Depth::Four, *text), Some(1));
    }
    let third = b"# no form is below\n\n0 resolve\n0 resolve 0x0\nnor here\n";
    assert_eq!(rt; bad_line(rt.alloc(), Depth::Four, third), Some(3));
}

#[test]
fn scripts_that_ask_nothing(rt: HostRuntime) {
    let texts: [&[u8]; 4] = [b"", b"\n\n", b"#", b"#\xff\r\t  \n# and more"];
    for text in texts {
        let script = script_of(rt.alloc(), Depth::Four, text).expect(&rt, "it is a script");
        assert_eq!(rt; script.threads, 1);
        assert_eq!(rt; script.requests.len(), 1);
        assert!(rt; asked(&script, 0, 0).is_none());
        assert!(rt; script.steps.is_empty());
    }
}

#[test]
fn five_levels_reach_further(rt: HostRuntime) {
    let text = b"0 map 4K 0x800000000000 0x1000 wux\n0 unmap 0x100000000000000\n";
    assert_eq!(rt; bad_line(rt.alloc(), Depth::Four, text), Some(1));
    assert_eq!(rt; bad_line(rt.alloc(), Depth::Five, text), Some(2));
}

#[test]
fn the_most_requests(rt: HostRuntime) {
    let all = repeated(&rt, rt.alloc(), b"7 unmap 0x0\n", 65_536, b"step 0 call");
    let script = script_of(rt.alloc(), Depth::Four, &all).expect(&rt, "it is a script");
    assert_eq!(rt; script.threads, 8);
    assert_eq!(rt; script.requests.get(7).map_or(0, Vec::len), 65_536);
    assert_eq!(rt; script.first_step, Some(65_537));
    let more = repeated(
        &rt,
        rt.alloc(),
        b"7 unmap 0x0\n",
        65_536,
        b"#\n0 resolve 0x0",
    );
    assert_eq!(rt; bad_line(rt.alloc(), Depth::Four, &more), Some(65_538));
}

#[test]
fn the_most_steps(rt: HostRuntime) {
    let all = repeated(&rt, rt.alloc(), b"step 0 call\n", 1_000_000, b"");
    let script = script_of(rt.alloc(), Depth::Four, &all).expect(&rt, "it is a script");
    assert_eq!(rt; script.steps.len(), 1_000_000);
    let more = repeated(&rt, rt.alloc(), b"step 0 call\n", 1_000_000, b"step 0 call");
    assert_eq!(rt; bad_line(rt.alloc(), Depth::Four, &more), Some(1_000_001));
}
