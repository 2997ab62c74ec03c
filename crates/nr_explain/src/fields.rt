//! The first field of an event that isn't what it may be.

ghost use Rattle.std.specs.Prelude.{◌≡◌, ◌<◌};
ghost use Rattle.nr_explain.specs.Fields.{address_fault, answers_of, call_fault, canonical, depth_of, event_fault, field_fault, is_segment};
ghost use Rattle.nr_explain.specs.Fields.{kinds_of, limited, multiple, number_8, number_16, number_32, number_64, physical_fault};
ghost use Rattle.nr_explain.specs.Fields.{reply_fault, rights_fault, rights_of, size_fault, size_of, sizes_of, value_fault, within};

use nr_trace::Format;
use vs_types::{Depth, Page, Size};

/// A field of an event.
#[derive(Clone, Copy, Debug, PartialEq, Eq)]
pub enum EventField {
    /// Whether the event is a call or a reply.
    Tag,
    Replica,
    Thread,
    /// What is asked.
    Kind,
    /// The size of a page, or of memory that is given away.
    Size,
    /// What an access or a touch does, in the place of the size.
    Access,
    Rights,
    /// The mode of an access or a touch, in the place of the rights.
    Mode,
    /// The bytes that no event uses.
    Unused,
    Address,
    Physical,
    /// What is answered.
    Answer,
    /// The number of an answer.
    Value,
}

/// Why a field isn't what it may be.
#[derive(Clone, Copy, Debug, PartialEq, Eq)]
pub enum FieldFault {
    /// It isn't below this. A field that isn't used has to be below 1.
    NotBelow(u64),
    /// The address isn't canonical with so many levels.
    NotCanonical(u8),
    /// It is no multiple of so many bytes.
    NotMultiple(u64),
    /// The page doesn't lie below physical 2^51.
    Beyond,
}

/// A field of an event, the number that it has, and why it isn't what it may be.
#[derive(Clone, Copy, Debug, PartialEq, Eq)]
pub struct BadField {
    pub field: EventField,
    pub value: u64,
    pub fault: FieldFault,
}

// ---- numbers

/// The byte at an index, or 0 behind the end.
fn number_8(bytes: &[u8], at: usize) -> u8
    ensures { result ≡ number_8 bytes.now at }
{
    match bytes.get(at) {
        Some(byte) => *byte,
        None => 0,
    }
}

fn number_16(bytes: &[u8], at: usize) -> u16
    requires { at < 32 }
    ensures { result ≡ number_16 bytes.now at }
{
    u16::from_be_bytes([number_8(bytes, at), number_8(bytes, at + 1)])
}

fn number_32(bytes: &[u8], at: usize) -> u32
    requires { at < 32 }
    ensures { result ≡ number_32 bytes.now at }
{
    u32::from_be_bytes([
        number_8(bytes, at),
        number_8(bytes, at + 1),
        number_8(bytes, at + 2),
        number_8(bytes, at + 3),
    ])
}

fn number_64(bytes: &[u8], at: usize) -> u64
    requires { at < 32 }
    ensures { result ≡ number_64 bytes.now at }
{
    u64::from_be_bytes([
        number_8(bytes, at),
        number_8(bytes, at + 1),
        number_8(bytes, at + 2),
        number_8(bytes, at + 3),
        number_8(bytes, at + 4),
        number_8(bytes, at + 5),
        number_8(bytes, at + 6),
        number_8(bytes, at + 7),
    ])
}

/// Whether a header is that of a segment.
fn is_segment(header: &[u8]) -> bool
    ensures { result ≡ is_segment header.now }
{
    number_8(header, 3) == b'S'
}

/// The depth of a trace or a segment with this header.
#[tactic(auto, unfolding(crate::specs::Fields::depth_of))]
fn depth_of(header: &[u8]) -> Depth
    ensures { result ≡ depth_of header.now }
{
    if number_8(header, 6) == 4 {
        Depth::Four
    } else {
        Depth::Five
    }
}

/// The first kind of request that the version of this header doesn't know.
#[tactic(auto, unfolding(crate::specs::Fields::kinds_of))]
fn kinds_of(header: &[u8]) -> u64
    ensures { result ≡ kinds_of header.now }
{
    if is_segment(header) {
        7
    } else if number_16(header, 4) == 1 {
        4
    } else {
        5
    }
}

/// The first answer that the version of this header doesn't know.
#[tactic(auto, unfolding(crate::specs::Fields::answers_of))]
fn answers_of(header: &[u8]) -> u64
    ensures { result ≡ answers_of header.now }
{
    if is_segment(header) {
        10
    } else if number_16(header, 4) == 1 {
        8
    } else {
        10
    }
}

/// The size of this code. A code above 2 is refused before.
#[tactic(auto, unfolding(crate::specs::Fields::size_of))]
fn size_of(code: u8) -> Size
    ensures { result ≡ size_of code }
{
    if code == 0 {
        Size::K4
    } else if code == 1 {
        Size::M2
    } else {
        Size::G1
    }
}

// ---- what may be wrong with a field

/// The field, where its number isn't below its limit.
#[tactic(auto, unfolding(crate::specs::Fields::limited))]
fn limited(field: EventField, value: u64, limit: u64) -> Option<BadField>
    ensures { result ≡ limited field value limit }
{
    if value < limit {
        return None;
    }
    Some(BadField {
        field,
        value,
        fault: FieldFault::NotBelow(limit),
    })
}

/// The address, where it isn't canonical.
#[tactic(auto, unfolding(crate::specs::Fields::canonical))]
fn canonical(depth: Depth, address: u64) -> Option<BadField>
    ensures { result ≡ canonical depth address }
{
    if depth.is_canonical(address) {
        return None;
    }
    Some(BadField {
        field: EventField::Address,
        value: address,
        fault: FieldFault::NotCanonical(depth.levels()),
    })
}

/// The field, where no page of the size can begin there.
#[tactic(auto, unfolding(crate::specs::Fields::multiple))]
fn multiple(field: EventField, value: u64, size: Size) -> Option<BadField>
    ensures { result ≡ multiple field value size }
{
    if value % size.bytes() == 0 {
        return None;
    }
    Some(BadField {
        field,
        value,
        fault: FieldFault::NotMultiple(size.bytes()),
    })
}

/// The physical address, where a page of the size ends too far.
#[tactic(auto, unfolding(crate::specs::Fields::within))]
fn within(physical: u64, size: Size) -> Option<BadField>
    ensures { result ≡ within physical size }
{
    if physical <= Page::PHYS_END - size.bytes() {
        return None;
    }
    Some(BadField {
        field: EventField::Physical,
        value: physical,
        fault: FieldFault::Beyond,
    })
}

// ---- calls

#[tactic(auto, unfolding(crate::specs::Fields::size_fault))]
fn size_fault(kind: u8, size: u8) -> Option<BadField>
    ensures { result ≡ size_fault kind size }
{
    let size = u64::from(size);
    if kind == 0 || kind == 6 {
        limited(EventField::Size, size, 3)
    } else if kind == 4 || kind == 5 {
        limited(EventField::Access, size, 3)
    } else {
        limited(EventField::Size, size, 1)
    }
}

#[tactic(auto, unfolding(crate::specs::Fields::rights_fault))]
fn rights_fault(kind: u8, rights: u8) -> Option<BadField>
    ensures { result ≡ rights_fault kind rights }
{
    let rights = u64::from(rights);
    if kind == 0 || kind == 2 {
        limited(EventField::Rights, rights, 8)
    } else if kind == 4 || kind == 5 {
        limited(EventField::Mode, rights, 2)
    } else {
        limited(EventField::Rights, rights, 1)
    }
}

#[tactic(auto, unfolding(crate::specs::Fields::address_fault))]
fn address_fault(depth: Depth, kind: u8, size: Size, address: u64) -> Option<BadField>
    ensures { result ≡ address_fault depth kind size address }
{
    if kind == 6 {
        return limited(EventField::Address, address, 1);
    }
    let begins = if kind == 0 {
        multiple(EventField::Address, address, size)
    } else if kind < 3 {
        multiple(EventField::Address, address, Size::K4)
    } else {
        None
    };
    canonical(depth, address).or(begins)
}

#[tactic(auto, unfolding(crate::specs::Fields::physical_fault))]
fn physical_fault(kind: u8, size: Size, physical: u64) -> Option<BadField>
    ensures { result ≡ physical_fault kind size physical }
{
    if kind == 0 || kind == 6 {
        multiple(EventField::Physical, physical, size).or(within(physical, size))
    } else {
        limited(EventField::Physical, physical, 1)
    }
}

#[tactic(auto, unfolding(crate::specs::Fields::call_fault))]
fn call_fault(header: &[u8], unit: &[u8]) -> Option<BadField>
    ensures { result ≡ call_fault header.now unit.now }
{
    let replica = u64::from(number_8(unit, 1));
    let thread = u64::from(number_16(unit, 2));
    let kind = number_8(unit, 4);
    let size = number_8(unit, 5);
    let address = number_64(unit, 8);
    let physical = number_64(unit, 16);
    limited(EventField::Replica, replica, u64::from(number_8(header, 7)))
        .or(limited(EventField::Thread, thread, u64::from(number_16(header, 8))))
        .or(limited(EventField::Kind, u64::from(kind), kinds_of(header)))
        .or(size_fault(kind, size))
        .or(rights_fault(kind, number_8(unit, 6)))
        .or(limited(EventField::Unused, u64::from(number_8(unit, 7)), 1))
        .or(address_fault(depth_of(header), kind, size_of(size), address))
        .or(physical_fault(kind, size_of(size), physical))
}

// ---- replies

/// The first code of a size that a reply with this answer can't have.
#[tactic(auto, unfolding(crate::specs::Fields::sizes_of))]
fn sizes_of(answer: u8) -> u64
    ensures { result ≡ sizes_of answer }
{
    if answer == 3 || answer == 7 { 3 } else { 1 }
}

/// The first code of rights that a reply with this answer can't have.
#[tactic(auto, unfolding(crate::specs::Fields::rights_of))]
fn rights_of(answer: u8) -> u64
    ensures { result ≡ rights_of answer }
{
    if answer == 3 || answer == 6 || answer == 7 {
        8
    } else {
        1
    }
}

#[tactic(auto, unfolding(crate::specs::Fields::value_fault))]
fn value_fault(answer: u8, value: u64) -> Option<BadField>
    ensures { result ≡ value_fault answer value }
{
    if answer == 0 || answer == 4 || answer == 6 {
        limited(EventField::Value, value, 1)
    } else {
        None
    }
}

#[tactic(auto, unfolding(crate::specs::Fields::reply_fault))]
fn reply_fault(header: &[u8], unit: &[u8]) -> Option<BadField>
    ensures { result ≡ reply_fault header.now unit.now }
{
    let answer = number_8(unit, 1);
    let size = u64::from(number_8(unit, 2));
    let rights = u64::from(number_8(unit, 3));
    let unused = u64::from(number_32(unit, 12));
    limited(EventField::Answer, u64::from(answer), answers_of(header))
        .or(limited(EventField::Size, size, sizes_of(answer)))
        .or(limited(EventField::Rights, rights, rights_of(answer)))
        .or(limited(EventField::Unused, unused, 1))
        .or(value_fault(answer, number_64(unit, 16)))
}

// ---- events

#[tactic(auto, unfolding(crate::specs::Fields::event_fault))]
fn event_fault(header: &[u8], unit: &[u8]) -> Option<BadField>
    ensures { result ≡ event_fault header.now unit.now }
{
    let tag = number_8(unit, 0);
    if tag == 0 {
        call_fault(header, unit)
    } else if tag == 1 {
        reply_fault(header, unit)
    } else {
        limited(EventField::Tag, u64::from(tag), 2)
    }
}

/// The first field of a unit with this fault that isn't what it may be, where it is an event, in a trace or a segment with this header,
/// which more bytes may follow. It allocates no memory.
#[tactic(auto, unfolding(crate::specs::Fields::field_fault))]
pub fn field_fault(fault: Format, header: &[u8], unit: &[u8]) -> Option<BadField>
    ensures { result ≡ field_fault fault header.now unit.now }
{
    match fault {
        Format::BadEvent(_) => event_fault(header, unit),
        _ => None,
    }
}
