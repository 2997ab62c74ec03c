//! An event as 24 bytes.

ghost use Rattle.std.specs.Prelude.{◌≡◌, ◌++◌, OnOk};
ghost use Rattle.nr_trace.specs.Spelling.{asked, asked_fields, event, release_fields, touch_fields};

use crate::formats::fields::AnswerFields;
use crate::recordings::event::{Asked, Event};
use vs_types::{Access, Answer, Memory, Mode, RequestFields, Size};

/// The fields of a touch.
fn touch_fields(address: u64, mode: Mode, access: Access) -> RequestFields
    ensures { result ≡ touch_fields address mode access }
{
    RequestFields {
        kind: 5,
        size: access.code(),
        rights: mode.code(),
        address,
        physical: 0,
    }
}

/// The fields of a release.
fn release_fields(size: Size, phys: u64) -> RequestFields
    ensures { result ≡ release_fields size phys }
{
    RequestFields {
        kind: 6,
        size: size.code(),
        rights: 0,
        address: 0,
        physical: phys,
    }
}

/// The fields of what a call asks.
fn asked_fields(what: Asked) -> RequestFields
    ensures { result ≡ asked_fields what }
{
    match what {
        Asked::Request(request) => request.fields(),
        Asked::Touch(address, mode, access) => touch_fields(address, mode, access),
        Asked::Release(size, phys) => release_fields(size, phys),
    }
}

fn asked_bytes(replica: u8, thread: u16, fields: RequestFields) -> [u8; 24]
    ensures { result ≡ asked replica thread fields }
{
    let [t0, t1] = thread.to_be_bytes();
    let [a0, a1, a2, a3, a4, a5, a6, a7] = fields.address.to_be_bytes();
    let [p0, p1, p2, p3, p4, p5, p6, p7] = fields.physical.to_be_bytes();
    let (kind, size, rights) = (fields.kind, fields.size, fields.rights);
    [
        0, replica, t0, t1, kind, size, rights, 0, a0, a1, a2, a3, a4, a5, a6, a7, p0, p1, p2, p3,
        p4, p5, p6, p7,
    ]
}

fn reply_bytes(call: u32, at: u32, answer: Answer) -> [u8; 24]
    ensures { result ≡ event (Event.Reply call at answer) }
{
    let fields = AnswerFields::of(answer);
    let [c0, c1, c2, c3] = call.to_be_bytes();
    let [a0, a1, a2, a3] = at.to_be_bytes();
    let [v0, v1, v2, v3, v4, v5, v6, v7] = fields.value.to_be_bytes();
    let (code, size, rights) = (fields.code, fields.size, fields.rights);
    [
        1, code, size, rights, c0, c1, c2, c3, a0, a1, a2, a3, 0, 0, 0, 0, v0, v1, v2, v3, v4, v5,
        v6, v7,
    ]
}

fn event_bytes(recorded: Event) -> [u8; 24]
    ensures { result ≡ event recorded }
{
    match recorded {
        Event::Call {
            replica,
            thread,
            asked,
        } => asked_bytes(replica, thread, asked_fields(asked)),
        Event::Reply { call, at, answer } => reply_bytes(call, at, answer),
    }
}

pub(crate) fn put_event(out: &mut Vec<u8>, recorded: Event) -> Result<(), Memory>
    ensures { OnOk result (out.new.items ≡ out.old.items ++ event recorded) }
{
    out.extend_from_slice(&event_bytes(recorded))?;
    Ok(())
}
