//! The units of the dumps.

ghost use Rattle.std.specs.Prelude.{◌≡◌, ◌<◌, ◌++◌, OnOk, flat_map, option_copied};
ghost use Rattle.nr_trace.specs.Spelling.{dump, dump_head, frame_number, frame_words, frames, start_units};

use crate::formats::fields::DumpHead;
use crate::writing::lists::put_words;
use crate::writing::numbers::{put_u32, put_u64};
use vs_types::Memory;
use vs_walk::{Dump, FrameWords, Frames};

fn put_dump_head(out: &mut Vec<u8>, head: DumpHead) -> Result<(), Memory>
    ensures { OnOk result (out.new.items ≡ out.old.items ++ dump_head head) }
{
    put_u32(out, head.applied)?;
    put_u32(out, head.frames)?;
    put_u64(out, head.root)?;
    Ok(())
}

fn put_frame(out: &mut Vec<u8>, number: u64, words: &FrameWords<'_>) -> Result<(), Memory>
    ensures { OnOk result
        (out.new.items ≡ out.old.items ++ (frame_number number ++ frame_words words.now)) }
{
    put_u64(out, number)?;
    put_words(out, words)?;
    Ok(())
}

fn put_frames(out: &mut Vec<u8>, held: &Dump) -> Result<(), Memory>
    ensures { OnOk result (out.new.items ≡ out.old.items ++ frames held.now) }
{
    let frames = held.count();
    for k in 0..frames {
        let number = held.number(k);
        let words = held.words(number).unwrap();
        put_frame(out, number, &words)?;
    }
    Ok(())
}

fn put_dump(out: &mut Vec<u8>, held: &Dump) -> Result<(), Memory>
    ensures { OnOk result (out.new.items ≡ out.old.items ++ dump held.now) }
{
    let frames = held.count();
    let head = DumpHead {
        applied: held.applied(),
        frames: frames as u32,
        root: held.root(),
    };
    put_dump_head(out, head)?;
    put_frames(out, held)?;
    Ok(())
}

/// The root of a start, and its frames, where there is one.
pub(crate) fn put_start(out: &mut Vec<u8>, start: Option<&Dump>) -> Result<(), Memory>
    ensures { OnOk result
        (out.new.items ≡ out.old.items ++ start_units (option_copied start.entry)) }
{
    if let Some(start) = start {
        put_u64(out, start.root())?;
        put_frames(out, start)?;
    }
    Ok(())
}

pub(crate) fn put_dumps(out: &mut Vec<u8>, dumps: &[Dump]) -> Result<(), Memory>
    ensures { OnOk result (out.new.items ≡ out.old.items ++ flat_map dump dumps.now) }
{
    for held in dumps {
        put_dump(out, held)?;
    }
    Ok(())
}
