//! Events come back as they were kept.

use nr_trace::{Asked, Event, Recorded};
use vs_types::{Access, Answer, BadOp, Depth, Mode, Op, Page, Request, Rights, Size};

const SIZES: [Size; 3] = [Size::K4, Size::M2, Size::G1];

// Each right alone, all and none.
const RIGHTS: [Rights; 5] = [
    Rights {
        write: true,
        ..Rights::NONE
    },
    Rights {
        user: true,
        ..Rights::NONE
    },
    Rights {
        exec: true,
        ..Rights::NONE
    },
    Rights::ALL,
    Rights::NONE,
];

// Whether a call with this request, and greatest numbers, comes back as it was.
fn is_kept(request: Request) -> bool {
    let event = Event::Call {
        replica: u8::MAX,
        thread: u16::MAX,
        asked: Asked::Request(request),
    };
    Recorded::of(event).event() == event
}

// The same of a request, if there is one.
fn is_request_kept(request: Result<Request, BadOp>) -> bool {
    match request {
        Ok(request) => is_kept(request),
        Err(_) => false,
    }
}

// The same of an update.
fn is_update_kept(op: Result<Op, BadOp>) -> bool {
    match op {
        Ok(op) => is_kept(Request::update(op)),
        Err(_) => false,
    }
}

// Whether a reply with this answer, and greatest numbers, comes back as it was.
fn is_told(answer: Answer) -> bool {
    let event = Event::Reply {
        call: u32::MAX - 1,
        at: u32::MAX,
        answer,
    };
    Recorded::of(event).event() == event
}

#[test]
fn calls_come_back(rt: HostRuntime) {
    let last = u64::MAX << 12;
    for rights in RIGHTS {
        for size in SIZES {
            let bytes = size.bytes();
            let base = u64::MAX - bytes + 1;
            let map = Op::map(Depth::Five, base, size, Page::PHYS_END - bytes, rights);
            assert!(rt; is_update_kept(map));
        }
        assert!(rt; is_update_kept(Op::protect(Depth::Five, last, rights)));
    }
    assert!(rt; is_update_kept(Op::unmap(Depth::Five, last)));
    assert!(rt; is_request_kept(Request::resolve(Depth::Five, u64::MAX)));
    for mode in [Mode::Supervisor, Mode::User] {
        for access in [Access::Read, Access::Write, Access::Fetch] {
            let request = Request::access(Depth::Five, u64::MAX, mode, access);
            assert!(rt; is_request_kept(request));
        }
    }
}

#[test]
fn replies_come_back(rt: HostRuntime) {
    for rights in RIGHTS {
        for size in SIZES {
            assert!(rt; is_told(Answer::Removed(u64::MAX, size, rights)));
            assert!(rt; is_told(Answer::Mapped(u64::MAX, size, rights)));
        }
        assert!(rt; is_told(Answer::Changed(rights)));
    }
    for answer in [
        Answer::Done,
        Answer::NotMapped,
        Answer::Overlap(u64::MAX),
        Answer::Full(u64::MAX),
        Answer::Inside(u64::MAX),
        Answer::Allowed(u64::MAX),
        Answer::Fault(u64::MAX),
    ] {
        assert!(rt; is_told(answer));
    }
}
