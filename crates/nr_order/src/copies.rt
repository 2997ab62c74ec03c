//! Copies of dumps.

ghost use Rattle.std.specs.Prelude.{◌≡◌, ◌<◌, ◌^◌, All, IfOk, length, slice_index};
ghost use Rattle.std.specs.FinMap as finite;
ghost use Rattle.vs_types.specs.declared.limits.TheConstants.{FRAMES};
ghost use Rattle.vs_walk.specs.Dump.{IsDump};

use std::alloc::Global;
use vs_types::Memory;
use vs_walk::laws::frames_are_a_dump;
use vs_walk::{Dump, FrameWords, Frames};

/// A dump with one frame more, of this number and with these words.
fn with_frame(dump: Dump, number: u64, words: &FrameWords<'_>) -> Result<Dump, Memory>
    requires above { All (λ held. held < number) (finite.keys dump.frames) }
    requires in_range { number < 2 ^ 40 }
    requires room { finite.len dump.frames < FRAMES }
    ensures { IfOk result (λ more. more
        ≡ record dump { frames = finite.insert dump.frames number words.now }) }
{
    let mut opened = dump.begin_frame(number)?;
    for index in 0..words.len() {
        opened.push(words.word(index));
    }
    Ok(opened.end_frame())
}

/// A dump with the same frames, from the same root on, which has applied as many entries. Allocates memory for the frames.
fn copy(alloc: Global, dump: &Dump) -> Result<Dump, Memory>
    ensures { IfOk result (λ copy. copy ≡ dump.now) }
{
    frames_are_a_dump(dump);
    let mut copy = Dump::new(alloc, dump.applied(), dump.root());
    for index in 0..dump.count() {
        let number = dump.number(index);
        let Some(words) = dump.words(number) else {
            unreachable!();
        };
        copy = with_frame(copy, number, &words)?;
    }
    Ok(copy)
}

/// Copies of some dumps. Allocates memory for their frames.
pub(crate) fn copy_all(alloc: Global, dumps: &[Dump]) -> Result<Vec<Dump>, Memory>
    ensures { IfOk result (λ copies. copies.items ≡ dumps.now) }
{
    let mut copies = Vec::with_capacity(alloc, dumps.len())?;
    for index in 0..dumps.len() {
        copies.push(copy(alloc, &dumps[index])?)?;
    }
    Ok(copies)
}
