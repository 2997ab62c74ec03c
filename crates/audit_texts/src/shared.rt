//! What is said alike of faults of a trace and of a chain.

ghost use Rattle.std.specs.Prelude.{◌≡◌, OnOk, map};
ghost use Rattle.audit_texts.specs.Evidence.{answer_parts, look_parts, missing_frame_parts, read_parts, reserved_entry_parts};
ghost use Rattle.audit_texts.specs.Evidence.{shared_frame_parts, stray_frame_parts, unlike_parts};
ghost use Rattle.audit_texts.specs.Parts.{part_of, put_all};

use crate::lines::output::Output;
use crate::lines::parts::{Part, Says};
use nr_explain::{Difference, OtherAnswer, TableEntry};
use std::alloc::{AllocError, Global};
use vs_types::Answer;
use vs_walk::Walk;

/// Puts what was read of a unit of `size` bytes, behind the name of the unit. Allocates the text.
///
/// # Errors
///
/// Out of memory. Some of it may have been put.
#[tactic(auto, unfolding(crate::specs::Evidence::read_parts))]
pub fn put_read<O: Output>(
    out: &mut O,
    alloc: Global,
    offset: u64,
    read: &[u8],
    size: usize,
) -> Result<(), AllocError>
    ensures { OnOk result (O.held out.new
        ≡ put_all (read_parts offset read.now size) (O.held out.old)) }
{
    let parts = [
        Part::Words(", at byte "),
        Part::InBoth("offset", Says::Count(offset)),
        Part::Words("\nread "),
        Part::InBoth("there", Says::Count(read.len() as u64)),
        Part::Words(" of "),
        Part::InBoth("size", Says::Count(size as u64)),
        Part::Words(" bytes: "),
        Part::InBoth("read", Says::Bytes(read)),
        Part::Words("\n"),
    ];
    out.put_all(alloc, &parts)
}

/// Puts a frame that isn't there, and the way to it; `end` ends its line. Allocates the text.
///
/// # Errors
///
/// Out of memory. Some of it may have been put.
#[tactic(auto, unfolding(crate::specs::Evidence::missing_frame_parts))]
pub(crate) fn put_missing_frame<'a, O: Output>(
    out: &mut O,
    alloc: Global,
    fault: &'a str,
    path: &'a [TableEntry],
    frame: u64,
    end: &'static str,
) -> Result<(), AllocError>
    ensures { OnOk result (O.held out.new
        ≡ put_all (missing_frame_parts fault.now path.now frame end.now) (O.held out.old)) }
{
    let parts = [
        Part::InJson("fault", Says::Text(fault)),
        Part::InBoth("path", Says::Way(path)),
        Part::Words("frame "),
        Part::InBoth("frame", Says::Frame(frame)),
        Part::Words(end),
    ];
    out.put_all(alloc, &parts)
}

/// Puts a frame to which tables lead twice, and the ways to it. Allocates the text.
///
/// # Errors
///
/// Out of memory. Some of it may have been put.
#[tactic(auto, unfolding(crate::specs::Evidence::shared_frame_parts))]
pub(crate) fn put_shared_frame<'a, O: Output>(
    out: &mut O,
    alloc: Global,
    fault: &'a str,
    first: &'a [TableEntry],
    second: &'a [TableEntry],
    frame: u64,
) -> Result<(), AllocError>
    ensures { OnOk result (O.held out.new
        ≡ put_all (shared_frame_parts fault.now first.now second.now frame) (O.held out.old)) }
{
    let parts = [
        Part::InJson("fault", Says::Text(fault)),
        Part::Words("one way:\n"),
        Part::InBoth("first", Says::Way(first)),
        Part::Words("another:\n"),
        Part::InBoth("second", Says::Way(second)),
        Part::InJson("frame", Says::Frame(frame)),
    ];
    out.put_all(alloc, &parts)
}

/// Puts an entry with a reserved bit set, and the way to it. Allocates the text.
///
/// # Errors
///
/// Out of memory. Some of it may have been put.
#[tactic(auto, unfolding(crate::specs::Evidence::reserved_entry_parts))]
pub(crate) fn put_reserved_entry<'a, O: Output>(
    out: &mut O,
    alloc: Global,
    fault: &'a str,
    path: &'a [TableEntry],
    entry: TableEntry,
    bit: u8,
) -> Result<(), AllocError>
    ensures { OnOk result (O.held out.new
        ≡ put_all (reserved_entry_parts fault.now path.now entry bit) (O.held out.old)) }
{
    let parts = [
        Part::InJson("fault", Says::Text(fault)),
        Part::InBoth("path", Says::Steps(path)),
        Part::InBoth("entry", Says::Step(entry)),
        Part::Words("bit "),
        Part::InBoth("bit", Says::Count(u64::from(bit))),
        Part::Words(" is set: "),
        Part::InLines(Says::Reserved(entry.level)),
        Part::Words("\n"),
    ];
    out.put_all(alloc, &parts)
}

/// Puts a frame to which no table leads. Allocates the text.
///
/// # Errors
///
/// Out of memory. Some of it may have been put.
#[tactic(auto, unfolding(crate::specs::Evidence::stray_frame_parts))]
pub fn put_stray_frame<O: Output>(
    out: &mut O,
    alloc: Global,
    fault: &str,
    frame: u64,
) -> Result<(), AllocError>
    ensures { OnOk result (O.held out.new
        ≡ put_all (stray_frame_parts fault.now frame) (O.held out.old)) }
{
    let parts = [
        Part::InJson("fault", Says::Text(fault)),
        Part::Words("no table leads to frame "),
        Part::InBoth("frame", Says::Frame(frame)),
        Part::Words("\n"),
    ];
    out.put_all(alloc, &parts)
}

/// Puts a wrong answer, and the one of the space, up to the address. Allocates the text.
///
/// # Errors
///
/// Out of memory. Some of it may have been put.
#[tactic(auto, unfolding(crate::specs::Evidence::answer_parts))]
pub fn put_answer<O: Output>(
    out: &mut O,
    alloc: Global,
    wrong: OtherAnswer,
) -> Result<(), AllocError>
    ensures { OnOk result (O.held out.new ≡ put_all (answer_parts wrong) (O.held out.old)) }
{
    let parts = [
        Part::InJson("fault", Says::Text("WrongAnswer")),
        Part::InBoth("call", Says::Call(wrong.call)),
        Part::InBoth("reply", Says::Reply(wrong.reply)),
        Part::Words("the space answers: "),
        Part::InBoth("wanted", Says::Answer(wrong.wanted)),
        Part::Words("\naddress "),
        Part::InBoth("address", Says::Address(wrong.address)),
    ];
    out.put_all(alloc, &parts)
}

/// Puts how tables translate an address, and how it looks in the space, up to the address. Allocates the text.
///
/// # Errors
///
/// Out of memory. Some of it may have been put.
#[tactic(auto, unfolding(crate::specs::Evidence::look_parts))]
pub fn put_look<O: Output>(
    out: &mut O,
    alloc: Global,
    found: Walk,
    path: &[TableEntry],
    wanted: Answer,
    address: u64,
) -> Result<(), AllocError>
    ensures { OnOk result (O.held out.new
        ≡ put_all (look_parts found path.now wanted address) (O.held out.old)) }
{
    let parts = [
        Part::InBoth("found", Says::Walk(found)),
        Part::Words("\n"),
        Part::InBoth("path", Says::Steps(path)),
        Part::Words("the space: "),
        Part::InBoth("wanted", Says::Answer(wanted)),
        Part::Words("\naddress "),
        Part::InBoth("address", Says::Address(address)),
    ];
    out.put_all(alloc, &parts)
}

/// Puts how a dump translates an address and the space doesn't, up to the address. Allocates the text.
///
/// # Errors
///
/// Out of memory. Some of it may have been put.
#[tactic(auto, unfolding(crate::specs::Evidence::unlike_parts))]
pub fn put_unlike<O: Output>(
    out: &mut O,
    alloc: Global,
    wrong: &Difference,
) -> Result<(), AllocError>
    ensures { OnOk result (O.held out.new ≡ put_all (unlike_parts wrong.now) (O.held out.old)) }
{
    let parts = [
        Part::InJson("fault", Says::Text("Differs")),
        Part::InJson("replica", Says::Count(u64::from(wrong.replica))),
        Part::Words("applied: "),
        Part::InBoth("applied", Says::Count(u64::from(wrong.applied))),
        Part::Words("\nthe dump: "),
    ];
    out.put_all(alloc, &parts)?;
    put_look(
        out,
        alloc,
        wrong.found,
        wrong.path.as_slice(),
        wrong.wanted,
        wrong.address,
    )
}
