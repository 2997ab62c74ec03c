//! The events of traces.

use nr_trace::{Asked, Event, Recorded};
use std::alloc::Global;
use std::process::Abort;
use vs_types::{Access, Answer, BadOp, Depth, Mode, Op, Request, Rights, Size};

/// What a call asks.
#[derive(Clone, Copy)]
pub enum Asks {
    /// The page at 0x400000 is mapped to 0x1000, with all rights.
    Map,
    Resolve(u64),
    /// Whether a user may write there.
    Write(u64),
}

/// An event.
#[derive(Clone, Copy)]
pub enum Item {
    /// The replica, the thread and what it asks.
    Call(u8, u16, Asks),
    /// The call, its place or what it saw, and the answer.
    Reply(u32, u32, Answer),
}

pub const MAP: Item = Item::Call(0, 0, Asks::Map);

pub const DONE: Item = Item::Reply(0, 0, Answer::Done);

pub const RESOLVE: Item = Item::Call(0, 0, Asks::Resolve(0x400123));

pub const RESOLVED: Item = Item::Reply(2, 1, Answer::Mapped(0x1123, Size::K4, Rights::ALL));

/// A page is mapped, and an address in it resolved.
pub const RESOLVE_EVENTS: &[Item] = &[MAP, DONE, RESOLVE, RESOLVED];

/// The same with a user's write in place of the resolve.
pub const ACCESS_EVENTS: &[Item] = &[
    MAP,
    DONE,
    Item::Call(0, 0, Asks::Write(0x400123)),
    Item::Reply(2, 1, Answer::Allowed(0x1123)),
];

fn request_of(asks: Asks) -> Result<Request, BadOp> {
    let depth = Depth::Four;
    match asks {
        Asks::Map => {
            let map = Op::map(depth, 0x400000, Size::K4, 0x1000, Rights::ALL)?;
            Ok(Request::update(map))
        }
        Asks::Resolve(address) => Request::resolve(depth, address),
        Asks::Write(address) => Request::access(depth, address, Mode::User, Access::Write),
    }
}

fn event_of(rt: &impl Abort, item: Item) -> Event {
    match item {
        Item::Call(replica, thread, asks) => Event::Call {
            replica,
            thread,
            asked: Asked::Request(request_of(asks).expect(rt, "a request")),
        },
        Item::Reply(call, at, answer) => Event::Reply { call, at, answer },
    }
}

pub fn events_of(rt: &impl Abort, alloc: Global, items: &[Item]) -> Vec<Recorded> {
    let mut events = Vec::new(alloc);
    for item in items {
        let event = Recorded::of(event_of(rt, *item));
        events.push(event).expect(rt, "memory");
    }
    events
}
