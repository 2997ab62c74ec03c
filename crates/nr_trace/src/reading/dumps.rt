//! The units of a dump: its head, and each frame's number and words, which are those of a start too.

ghost use Rattle.std.specs.Prelude.{◌≡◌, ◌<◌, ◌-◌, ◌^◌, ◌++◌, ◌∷◌, [], ◌↔◌, IsTrue, IfOk, length};
ghost use Rattle.std.specs.FinMap as finite;
ghost use Rattle.vs_types.specs.declared.limits.TheConstants.{FRAMES};
ghost use Rattle.vs_types.specs.Finds.{Finds};
ghost use Rattle.vs_types.specs.Frame.{IsFrame};
ghost use Rattle.nr_trace.specs.FirstFault.{IsNext};
ghost use Rattle.nr_trace.specs.inside.Progress.{AreBelow, AreInRange, AreUnits, AtWords, BehindFrames, Belongs, HasRead};
ghost use Rattle.nr_trace.specs.inside.Progress.{IsOpened, IsReady, Takes, begun, frame_begun, frames_of, opened_of, opened_spelling, whole_of, words_begun};
ghost use Rattle.nr_trace.specs.inside.Reading.{SpellsHead};
ghost use Rattle.vs_walk.specs.Dump.{Image};
ghost use Rattle.std.specs.Global.{Vec};

use crate::formats::fields::DumpHead;
use crate::formats::version::Version;
use crate::reading::lists::{at_log, push_words};
use crate::reading::numbers::{take_u32, take_u64};
use crate::reading::reader::{OpenFrame, Opened, Owner, Parts, Reader};
use crate::reading::room::{make_room, room_step};
use crate::refusals::fault::Format;
use crate::refusals::refusal::{Refusal, TraceUnit};
use vs_types::{FRAME_WORDS, Fail, Memory};
use vs_walk::Dump;

/// The parts with the next replica's dump. It allocates memory for the list of dumps.
fn with_dump(mut parts: Parts, dump: Dump) -> Result<Parts, Memory>
    ensures { IfOk result (λ made. (held : Vec Image) × (made ≡ record parts { dumps = held })
        × (held.items ≡ parts.dumps.items ++ dump ∷ [])) }
{
    let replicas = parts.layout.replicas() as usize;
    make_room(&mut parts.dumps, 1, replicas)?;
    parts.dumps.push(dump)?;
    Ok(parts)
}

/// The dump is whole. It allocates memory for the list of dumps.
fn put_dump(mut parts: Parts, owner: Owner, dump: Dump) -> Result<Reader, Memory>
    requires in_range { AreInRange parts }
    requires belongs { Belongs parts owner dump }
    ensures { IfOk result (HasRead parts.form (opened_spelling parts (whole_of owner dump))
        (BehindFrames parts owner)) }
{
    match owner {
        Owner::Start(places, events) => {
            parts.start = Some(dump);
            Ok(at_log(parts, places, events))
        }
        Owner::Replica => {
            let parts = with_dump(parts, dump)?;
            Ok(Reader::Dumps(parts))
        }
    }
}

/// What the 16 bytes spell, if there are as many frames as the version allows, and nothing without frames.
fn dump_head_of(version: Version, unit: &[u8]) -> Option<DumpHead>
    requires { length unit.now ≡ 16 }
    ensures { Finds (SpellsHead version unit.now) result }
{
    let (applied, rest) = take_u32(unit);
    let (frames, rest) = take_u32(rest);
    let (root, _) = take_u64(rest);
    if frames < u32::from(version.least_frames()) || frames > u32::from(version.most_frames()) {
        return None;
    }
    if frames == 0 && (applied != 0 || root != 0) {
        return None;
    }
    Some(DumpHead {
        applied,
        frames,
        root,
    })
}

pub(crate) fn take_dump_head(parts: Parts, unit: &[u8]) -> Result<Reader, Fail<Refusal>>
    requires ready { IsReady (Reader.Dumps parts) }
    requires one_left { length parts.dumps.items < parts.layout.replicas }
    requires whole { length unit.now ≡ 16 }
    ensures { Takes (Reader.Dumps parts) unit.now result }
{
    match dump_head_of(parts.version, unit) {
        Some(head) => {
            let dump = Dump::new(parts.alloc, head.applied, head.root);
            if head.frames == 0 {
                let reader = put_dump(parts, Owner::Replica, dump)?;
                return Ok(reader);
            }
            let opened = Opened {
                dump,
                left: head.frames,
                owner: Owner::Replica,
            };
            Ok(Reader::Frame(parts, opened, None))
        }
        None => {
            let replica = parts.dumps.len() as u8;
            Err(Fail::Refused(Refusal::of(Format::BadCount, TraceUnit::DumpHead(replica), unit)))
        }
    }
}

/// How many frame numbers there are.
const FRAME_NUMBERS: u64 = 1 << 40;

/// Whether a frame of this number can come after the last one.
fn is_next(last: Option<u64>, number: u64) -> bool
    ensures { IsTrue result ↔ IsNext last number }
{
    match last {
        Some(last) => last < number && number < FRAME_NUMBERS,
        None => number < FRAME_NUMBERS,
    }
}

/// The unit of the number of the frame of an index.
pub(crate) fn number_unit(parts: &Parts, owner: Owner, index: u32) -> TraceUnit
    requires { AreInRange parts.now }
    ensures { result ≡ (frames_of parts.now owner).number index }
{
    match owner {
        Owner::Start(_, _) => TraceUnit::StartNumber(index),
        Owner::Replica => TraceUnit::FrameNumber(parts.dumps.len() as u8, index),
    }
}

/// The unit of its words.
pub(crate) fn words_unit(parts: &Parts, owner: Owner, index: u32) -> TraceUnit
    requires { AreInRange parts.now }
    ensures { result ≡ (frames_of parts.now owner).words index }
{
    match owner {
        Owner::Start(_, _) => TraceUnit::StartWords(index),
        Owner::Replica => TraceUnit::FrameWords(parts.dumps.len() as u8, index),
    }
}

/// The fault of a frame whose number is wrong.
fn bad_frame(parts: &Parts, owner: Owner, index: u32) -> Format
    requires { AreInRange parts.now }
    ensures { result ≡ (frames_of parts.now owner).fault index }
{
    match owner {
        Owner::Start(_, _) => Format::BadStart(index),
        Owner::Replica => Format::BadFrame(parts.dumps.len() as u8, index),
    }
}

/// The dump with a frame of this number coming, where so many frames are left. It allocates memory for its frames.
fn begin_frame(opened: Opened, number: u64) -> Result<OpenFrame, Memory>
    requires above { AreBelow opened number }
    requires in_range { number < 2 ^ 40 }
    requires room { finite.len opened.dump.frames < FRAMES }
    ensures { IfOk result (λ frame. frame ≡ begun opened number) }
{
    let Opened {
        mut dump,
        left,
        owner,
    } = opened;
    let count = dump.count();
    dump.make_room(room_step(count, 1, left as usize))?;
    let dump = dump.begin_frame(number)?;
    Ok(OpenFrame {
        dump,
        index: count as u32,
        left,
        owner,
    })
}

pub(crate) fn take_frame_number(
    parts: Parts,
    opened: Opened,
    last: Option<u64>,
    unit: &[u8],
) -> Result<Reader, Fail<Refusal>>
    requires ready { IsReady (Reader.Frame parts opened last) }
    requires whole { length unit.now ≡ 8 }
    ensures { Takes (Reader.Frame parts opened last) unit.now result }
{
    let (number, _) = take_u64(unit);
    if is_next(last, number) {
        let frame = begin_frame(opened, number)?;
        return Ok(Reader::Words(parts, frame));
    }
    let index = opened.dump.count() as u32;
    let fault = bad_frame(&parts, opened.owner, index);
    let named = number_unit(&parts, opened.owner, index);
    Err(Fail::Refused(Refusal::of(fault, named, unit)))
}

/// The frame is whole, and so is its dump where it was the last one, which then goes where it belongs. It allocates memory for
/// the list of dumps.
fn end_frame(parts: Parts, frame: OpenFrame) -> Result<Reader, Memory>
    requires opened { IsOpened parts (opened_of frame) }
    requires in_range { frame.dump.number < 2 ^ 40 }
    requires above { AreBelow (opened_of frame) frame.dump.number }
    requires whole { IsFrame frame.dump.coming }
    ensures { IfOk result (HasRead parts.form (frame_begun parts frame ++ words_begun frame)
        (λ rest refusal. AtWords parts frame (words_begun frame ++ rest) refusal)) }
{
    let OpenFrame {
        dump,
        index: _,
        left,
        owner,
    } = frame;
    let number = dump.number();
    let dump = dump.end_frame();
    let left = left - 1;
    if left == 0 {
        let reader = put_dump(parts, owner, dump)?;
        return Ok(reader);
    }
    let opened = Opened { dump, left, owner };
    Ok(Reader::Frame(parts, opened, Some(number)))
}

pub(crate) fn take_words(
    parts: Parts,
    mut frame: OpenFrame,
    run: &[u8],
) -> Result<Reader, Fail<Refusal>>
    requires ready { IsReady (Reader.Words parts frame) }
    requires run { AreUnits 8 (512 - length frame.dump.coming) (length run.now) }
    ensures { Takes (Reader.Words parts frame) run.now result }
{
    push_words(&mut frame.dump, run);
    if frame.dump.words_come() == FRAME_WORDS {
        let reader = end_frame(parts, frame)?;
        return Ok(reader);
    }
    Ok(Reader::Words(parts, frame))
}
