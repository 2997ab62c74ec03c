//! Events as a trace keeps them.

ghost use Rattle.std.specs.Prelude.{◌≡◌};
ghost use Rattle.vs_types.specs.Operation.{IsSomeAction};
ghost use Rattle.vs_types.specs.Query.{IsSomeQuery};
ghost use Rattle.vs_types.specs.declared.requests.request.Query.TheVariants as query;

use crate::recordings::event::{Asked, Event};
use std::fmt;
use std::marker::Model;
use std::mem::size_of;
use vs_types::{Access, Action, Answer, Mode, Op, Page, Query, Request, Rights, Size};

/// An event with one tag. Fields lie as they are written here, so that none has more than 24 bytes; and a call has its replica
/// and thread, a reply its call and `at`, at the same bytes in each case.
#[derive(Clone, Copy, PartialEq, Eq)]
enum PackedEvent {
    /// Replica, thread, size, rights, base, physical address.
    Map(u8, u16, Size, Rights, u64, u64),
    /// Replica, thread, base.
    Unmap(u8, u16, u64),
    /// Replica, thread, rights, base.
    Protect(u8, u16, Rights, u64),
    /// Replica, thread, address.
    Resolve(u8, u16, u64),
    /// Replica, thread, mode, access, address.
    Access(u8, u16, Mode, Access, u64),
    /// Replica, thread, mode, access, address.
    Touch(u8, u16, Mode, Access, u64),
    /// Replica, thread, size, physical address.
    Release(u8, u16, Size, u64),
    /// Call, `at`.
    Done(u32, u32),
    /// Call, `at`, base.
    Overlap(u32, u32, u64),
    /// Call, `at`, number of tables.
    Full(u32, u32, u64),
    /// Size, call, `at`, rights, physical address.
    Removed(Size, u32, u32, Rights, u64),
    /// Call, `at`.
    NotMapped(u32, u32),
    /// Call, `at`, base.
    Inside(u32, u32, u64),
    /// Call, `at`, rights.
    Changed(u32, u32, Rights),
    /// Size, call, `at`, rights, physical address.
    Mapped(Size, u32, u32, Rights, u64),
    /// Call, `at`, physical address.
    Allowed(u32, u32, u64),
    /// Call, `at`, error code.
    Fault(u32, u32, u64),
}

const _: () = prove!(size_of::<Recorded>() == 24);

impl PackedEvent {
    ghost use Rattle.nr_trace.specs.inside.PackedEvent.{event_of};

    #[inline(always)]
    fn update(replica: u8, thread: u16, action: Action) -> PackedEvent
        ensures { event_of result ≡ Event.Call replica thread (Asked.Request (query.Update action)) }
    {
        match action {
            Action::Map(page) => {
                PackedEvent::Map(
                    replica,
                    thread,
                    page.size,
                    page.rights,
                    page.base,
                    page.phys,
                )
            }
            Action::Unmap(base) => PackedEvent::Unmap(replica, thread, base),
            Action::Protect(base, rights) => PackedEvent::Protect(replica, thread, rights, base),
        }
    }

    #[inline(always)]
    fn call(replica: u8, thread: u16, request: Request) -> PackedEvent
        ensures { event_of result ≡ Event.Call replica thread (Asked.Request request) }
    {
        match request.query() {
            Query::Update(op) => PackedEvent::update(replica, thread, op.action()),
            Query::Resolve(address) => PackedEvent::Resolve(replica, thread, address),
            Query::Access(address, mode, access) => {
                PackedEvent::Access(replica, thread, mode, access, address)
            }
        }
    }

    #[inline(always)]
    fn asked(replica: u8, thread: u16, asked: Asked) -> PackedEvent
        ensures { event_of result ≡ Event.Call replica thread asked }
    {
        match asked {
            Asked::Request(request) => PackedEvent::call(replica, thread, request),
            Asked::Touch(address, mode, access) => {
                PackedEvent::Touch(replica, thread, mode, access, address)
            }
            Asked::Release(size, phys) => PackedEvent::Release(replica, thread, size, phys),
        }
    }

    #[inline(always)]
    fn reply(call: u32, at: u32, answer: Answer) -> PackedEvent
        ensures { event_of result ≡ Event.Reply call at answer }
    {
        match answer {
            Answer::Done => PackedEvent::Done(call, at),
            Answer::Overlap(base) => PackedEvent::Overlap(call, at, base),
            Answer::Full(need) => PackedEvent::Full(call, at, need),
            Answer::Removed(phys, size, rights) => PackedEvent::Removed(
                size, call, at, rights, phys,
            ),
            Answer::NotMapped => PackedEvent::NotMapped(call, at),
            Answer::Inside(base) => PackedEvent::Inside(call, at, base),
            Answer::Changed(rights) => PackedEvent::Changed(call, at, rights),
            Answer::Mapped(phys, size, rights) => PackedEvent::Mapped(size, call, at, rights, phys),
            Answer::Allowed(phys) => PackedEvent::Allowed(call, at, phys),
            Answer::Fault(code) => PackedEvent::Fault(call, at, code),
        }
    }
}

#[inline(always)]
fn made(replica: u8, thread: u16, asked: Asked) -> Event
    ensures { result ≡ Event.Call replica thread asked }
{
    Event::Call {
        replica,
        thread,
        asked,
    }
}

#[inline(always)]
fn call_of(replica: u8, thread: u16, query: Query) -> Event
    requires { IsSomeQuery query }
    ensures { result ≡ Event.Call replica thread (Asked.Request query) }
{
    made(replica, thread, Asked::Request(Request::of(query)))
}

#[inline(always)]
fn update_of(replica: u8, thread: u16, action: Action) -> Event
    requires { IsSomeAction action }
    ensures { result ≡ Event.Call replica thread (Asked.Request (query.Update action)) }
{
    call_of(replica, thread, Query::Update(Op::of(action)))
}

#[inline(always)]
fn reply_of(call: u32, at: u32, answer: Answer) -> Event
    ensures { result ≡ Event.Reply call at answer }
{
    Event::Reply { call, at, answer }
}

/// An event as a trace keeps it, in 24 bytes. Contracts see the event.
#[derive(Clone, Copy, PartialEq, Eq)]
pub struct Recorded {
    kept: PackedEvent,
}

impl fmt::Debug for Recorded {
    fn fmt<W: fmt::Write>(&self, f: &mut fmt::Formatter<W>) -> fmt::Result {
        self.event().fmt(f)
    }
}

impl Model for Recorded {
    ghost use Rattle.nr_trace.specs.declared.recordings.event.Event.{Event};
    ghost use Rattle.nr_trace.specs.inside.PackedEvent.{event_of, kept_of, same_kept, IsKept};

    ghost Value = { Event };

    ghost view = { λ r. event_of r.kept };

    ghost invariant = { λ r. IsKept (event_of r.kept) };

    ghost inverse = { λ e. record { kept = kept_of e } };

    ghost inverse_ok = { λ r h. same_kept r };
}

impl Recorded {
    /// What keeps the event.
    #[inline(always)]
    pub fn of(event: Event) -> Recorded
        ensures { result ≡ event }
    {
        match event {
            Event::Call {
                replica,
                thread,
                asked,
            } => Recorded {
                kept: PackedEvent::asked(replica, thread, asked),
            },
            Event::Reply { call, at, answer } => Recorded {
                kept: PackedEvent::reply(call, at, answer),
            },
        }
    }

    /// The event that is kept.
    #[inline(always)]
    pub fn event(self) -> Event
        ensures { result ≡ self }
    {
        match self.kept {
            PackedEvent::Map(replica, thread, size, rights, base, phys) => {
                let page = Page {
                    base,
                    phys,
                    size,
                    rights,
                };
                update_of(replica, thread, Action::Map(page))
            }
            PackedEvent::Unmap(replica, thread, base) => update_of(
                replica,
                thread,
                Action::Unmap(base),
            ),
            PackedEvent::Protect(replica, thread, rights, base) => {
                update_of(replica, thread, Action::Protect(base, rights))
            }
            PackedEvent::Resolve(replica, thread, address) => {
                call_of(replica, thread, Query::Resolve(address))
            }
            PackedEvent::Access(replica, thread, mode, access, address) => {
                call_of(replica, thread, Query::Access(address, mode, access))
            }
            PackedEvent::Touch(replica, thread, mode, access, address) => {
                made(replica, thread, Asked::Touch(address, mode, access))
            }
            PackedEvent::Release(replica, thread, size, phys) => {
                made(replica, thread, Asked::Release(size, phys))
            }
            PackedEvent::Done(call, at) => reply_of(call, at, Answer::Done),
            PackedEvent::Overlap(call, at, base) => reply_of(call, at, Answer::Overlap(base)),
            PackedEvent::Full(call, at, need) => reply_of(call, at, Answer::Full(need)),
            PackedEvent::Removed(size, call, at, rights, phys) => {
                reply_of(call, at, Answer::Removed(phys, size, rights))
            }
            PackedEvent::NotMapped(call, at) => reply_of(call, at, Answer::NotMapped),
            PackedEvent::Inside(call, at, base) => reply_of(call, at, Answer::Inside(base)),
            PackedEvent::Changed(call, at, rights) => reply_of(call, at, Answer::Changed(rights)),
            PackedEvent::Mapped(size, call, at, rights, phys) => {
                reply_of(call, at, Answer::Mapped(phys, size, rights))
            }
            PackedEvent::Allowed(call, at, phys) => reply_of(call, at, Answer::Allowed(phys)),
            PackedEvent::Fault(call, at, code) => reply_of(call, at, Answer::Fault(code)),
        }
    }
}
