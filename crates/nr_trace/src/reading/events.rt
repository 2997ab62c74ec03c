//! The event that a unit spells.

ghost use Rattle.std.specs.Prelude.{◌≡◌, ◌≢◌, ◌↔◌, ◌∷◌, length, IsTrue};
ghost use Rattle.vs_types.specs.Config.{Layout};
ghost use Rattle.vs_types.specs.Codes.{size_code};
ghost use Rattle.vs_types.specs.Finds.{Finds};
ghost use Rattle.vs_types.specs.declared.addresses.depth.Depth.{Depth as DepthKind};
ghost use Rattle.nr_trace.specs.Recording.{IsEvent, IsMemory};
ghost use Rattle.nr_trace.specs.Spelling.{event, release_fields};
ghost use Rattle.nr_trace.specs.inside.Reading.{IsAnswerIn, IsAskedIn, IsReleaseWith, IsRequestIn, IsTouchWith, SpellsEvent};

use crate::formats::fields::AnswerFields;
use crate::formats::layout::TraceLayout;
use crate::formats::ranges::is_memory;
use crate::formats::version::Version;
use crate::reading::numbers::{take_u8, take_u16, take_u32, take_u64};
use crate::recordings::event::{Asked, Event};
use crate::recordings::recorded::Recorded;
use vs_types::{Answer, Depth, Query, Request, RequestFields, Size};

/// The request that has the fields, if the version knows it.
fn request_of(version: Version, depth: Depth, fields: RequestFields) -> Option<Request>
    ensures { Finds (IsRequestIn version depth fields) result }
{
    let request = Request::of_fields(depth, fields)?;
    if version.knows_query(request.query()) {
        Some(request)
    } else {
        None
    }
}

/// The kind of a touch.
const TOUCH: u8 = 5;

/// The kind of a release.
const RELEASE: u8 = 6;

/// The touch that has the fields: those of an access, but for the kind.
fn touch_of(depth: Depth, fields: RequestFields) -> Option<Asked>
    requires { fields.kind ≡ TOUCH }
    ensures { Finds (IsTouchWith depth fields) result }
{
    let request = Request::of_fields(depth, RequestFields { kind: 4, ..fields })?;
    match request.query() {
        Query::Access(address, mode, access) => Some(Asked::Touch(address, mode, access)),
        _ => None,
    }
}

/// Whether memory of the size begins where the fields say, and the other fields of a release are 0.
fn is_release(fields: RequestFields, size: Size) -> bool
    requires kind { fields.kind ≡ RELEASE }
    requires code { fields.size ≡ size_code size }
    ensures { IsTrue result
        ↔ IsMemory size fields.physical × (fields ≡ release_fields size fields.physical) }
{
    fields.rights == 0 && fields.address == 0 && is_memory(size, fields.physical)
}

/// The release that has the fields: of memory of a size, from a physical address on.
fn release_of(fields: RequestFields) -> Option<Asked>
    requires { fields.kind ≡ RELEASE }
    ensures { Finds (IsReleaseWith fields) result }
{
    let size = Size::of_code(fields.size)?;
    if is_release(fields, size) {
        Some(Asked::Release(size, fields.physical))
    } else {
        None
    }
}

/// The touch that has the fields, if the version knows touches.
fn known_touch(version: Version, depth: Depth, fields: RequestFields) -> Option<Asked>
    requires { fields.kind ≡ TOUCH }
    ensures { Finds (IsAskedIn version depth fields) result }
{
    if version.knows_touch() {
        touch_of(depth, fields)
    } else {
        None
    }
}

/// The release that has the fields, if the version knows releases.
fn known_release(version: Version, fields: RequestFields) -> Option<Asked>
    requires { fields.kind ≡ RELEASE }
    ensures { (depth : DepthKind) → Finds (IsAskedIn version depth fields) result }
{
    if version.knows_touch() {
        release_of(fields)
    } else {
        None
    }
}

/// The request that has the fields, as what is asked, if the version knows it.
fn known_request(version: Version, depth: Depth, fields: RequestFields) -> Option<Asked>
    requires touch { fields.kind ≢ TOUCH }
    requires release { fields.kind ≢ RELEASE }
    ensures { Finds (IsAskedIn version depth fields) result }
{
    let request = request_of(version, depth, fields)?;
    Some(Asked::Request(request))
}

/// What has the fields, if the version knows it.
fn asked_of(version: Version, depth: Depth, fields: RequestFields) -> Option<Asked>
    ensures { Finds (IsAskedIn version depth fields) result }
{
    match fields.kind {
        TOUCH => known_touch(version, depth, fields),
        RELEASE => known_release(version, fields),
        _ => known_request(version, depth, fields),
    }
}

/// The answer that has the fields, if the version knows it.
fn answer_of(version: Version, fields: AnswerFields) -> Option<Answer>
    ensures { Finds (IsAnswerIn version fields) result }
{
    let answer = fields.answer()?;
    if version.knows_answer(answer) {
        Some(answer)
    } else {
        None
    }
}

fn call_of(version: Version, layout: TraceLayout, bytes: &[u8]) -> Option<Recorded>
    requires { length bytes.now ≡ 23 }
    ensures { Finds (SpellsEvent version layout (0 ∷ bytes.now)) result }
{
    let (replica, rest) = take_u8(bytes);
    let (thread, rest) = take_u16(rest);
    let (kind, rest) = take_u8(rest);
    let (size, rest) = take_u8(rest);
    let (rights, rest) = take_u8(rest);
    let (unused, rest) = take_u8(rest);
    let (address, rest) = take_u64(rest);
    let (physical, _) = take_u64(rest);
    if replica >= layout.replicas() || thread >= layout.threads() || unused != 0 {
        return None;
    }
    let fields = RequestFields {
        kind,
        size,
        rights,
        address,
        physical,
    };
    let asked = asked_of(version, layout.depth(), fields)?;
    Some(Recorded::of(Event::Call {
        replica,
        thread,
        asked,
    }))
}

fn reply_of(version: Version, layout: TraceLayout, bytes: &[u8]) -> Option<Recorded>
    requires { length bytes.now ≡ 23 }
    ensures { Finds (SpellsEvent version layout (1 ∷ bytes.now)) result }
{
    let (code, rest) = take_u8(bytes);
    let (size, rest) = take_u8(rest);
    let (rights, rest) = take_u8(rest);
    let (call, rest) = take_u32(rest);
    let (at, rest) = take_u32(rest);
    let (unused, rest) = take_u32(rest);
    let (value, _) = take_u64(rest);
    if unused != 0 {
        return None;
    }
    let fields = AnswerFields {
        code,
        size,
        rights,
        value,
    };
    let answer = answer_of(version, fields)?;
    Some(Recorded::of(Event::Reply { call, at, answer }))
}

/// The event that the 24 bytes spell, if it is one of a service laid out so, and the version knows it.
pub(crate) fn event_of(version: Version, layout: TraceLayout, unit: &[u8]) -> Option<Recorded>
    requires { length unit.now ≡ 24 }
    ensures { Finds (SpellsEvent version layout unit.now) result }
{
    let (tag, rest) = take_u8(unit);
    match tag {
        0 => call_of(version, layout, rest),
        1 => reply_of(version, layout, rest),
        _ => None,
    }
}
