//! The audit of a chain that is read in blocks.

ghost use Rattle.std.specs.Prelude.{◌≡◌, ◌≢◌, ◌+◌, ◌<◌, ◌^◌, ◌-◌, ◌⊎◌, IfErr, IfOk, OnOk, Option, length, unwrap_or};
ghost use Rattle.std.specs.Io.KnownBytes.{Appends};
ghost use Rattle.nr_audit.specs.Met.{no_totals};
ghost use Rattle.nr_trace.specs.Run.{Run};
ghost use Rattle.nr_chain.specs.Fed.{IsKeptOf};
ghost use Rattle.audit_readers.specs.Answers.{WritesReport};
ghost use Rattle.audit_readers.specs.Ends.{RefusesUnreadable};
ghost use Rattle.audit_readers.specs.Refusals.{IsEndFault};
ghost use Rattle.audit_readers.specs.ChainAudit.{AuditsWhatIsRead, HasReadFewOfChain, HasWrittenAtOnce, HasWrittenFirst, IsChainAudit};
ghost use Rattle.audit_texts.specs.ChainText.{chain_status, lines_of, told_end};
ghost use Rattle.audit_readers.specs.inside.Going.{totals_if, Grows, HasBegun, IsShort, TakesBlock, TakesSome};
ghost use Rattle.audit_readers.specs.inside.Judged.{totals_begun, HasJudged};

use crate::audit::{depends, is_fewer};
use crate::ends::{BLOCK, read_block, write_text};
use crate::fault::ProgFault;
use crate::progress::Progress;
use crate::source::Source;
use audit_texts::{Style, told_end, told_segment};
use nr_audit::{Met, Order, Totals};
use nr_chain::{Chain, Step};
use nr_trace::Fault;
use std::alloc::Global;
use std::io::Write;

/// The most blocks that are read of a chain: those of so many bytes that their count has 64 bits.
pub const MOST_BLOCKS: u64 = (1 << 52) - 1;

/// What a block makes of a chain.
#[derive(Drop)]
enum Taken {
    /// The chain goes on, so many of its segments are right so far, and so much is counted of them, if it is.
    More(Chain, u64, Option<Totals>),
    /// So many segments are right, and the next one has this fault, its first.
    Wrong(u64, Fault),
}

/// Writes the lines of the segment of this number, which is right; none where it is quiet.
fn write_right<W: Write>(
    alloc: Global,
    writer: &mut W,
    number: u64,
    order: &Order,
    style: Style,
) -> Result<(), ProgFault>
    ensures ok { OnOk result (Appends (W.contents writer.old) (W.contents writer.new)
        (lines_of style number order.now)) }
    ensures err { IfErr result (λ fault. (fault ≡ ProgFault.CannotWrite)
        ⊎ ((fault ≡ ProgFault.Memory) × (writer.new ≡ writer.old))) }
    ensures grown { Grows (W.contents writer.old) (W.contents writer.new) }
{
    if style.quiet {
        return Ok(());
    }
    let text = told_segment(alloc, style.as_json, number, order.calls())?;
    write_text(writer, text.as_bytes())
}

/// The status at the end of a chain, of which so many calls are to overlap.
fn status_of(least: u32, totals: Totals, found: Option<Fault>) -> u8
    ensures { result ≡ chain_status least totals found }
{
    match found {
        None => {
            if is_fewer(totals.met.overlapping, least) {
                2
            } else {
                0
            }
        }
        Some(_) => 1,
    }
}

/// Writes the last lines of a chain of which so many segments are right, and gives the status.
fn write_end<W: Write>(
    alloc: Global,
    writer: &mut W,
    number: u64,
    totals: Totals,
    found: Option<Fault>,
    as_json: bool,
    least: u32,
) -> Result<u8, ProgFault>
    ensures ok { IfOk result (λ status. (status ≡ chain_status least totals found)
        × Appends (W.contents writer.old) (W.contents writer.new) (told_end as_json number totals found)) }
    ensures err { IfErr result (λ fault. (fault ≡ ProgFault.CannotWrite)
        ⊎ ((fault ≡ ProgFault.Memory) × (writer.new ≡ writer.old))) }
    ensures grown { Grows (W.contents writer.old) (W.contents writer.new) }
{
    let text = told_end(alloc, as_json, number, totals, found)?;
    write_text(writer, text.as_bytes())?;
    Ok(status_of(least, totals, found))
}

/// The same of a chain that has ended. The progress gets what is counted of a right one.
fn tell_end<W: Write, P: Progress>(
    alloc: Global,
    writer: &mut W,
    number: u64,
    totals: Totals,
    found: Option<Fault>,
    as_json: bool,
    least: u32,
    progress: &mut P,
) -> Result<u8, ProgFault>
    ensures ok { IfOk result (λ status. (status ≡ chain_status least totals found)
        × Appends (W.contents writer.old) (W.contents writer.new) (told_end as_json number totals found)) }
    ensures err { IfErr result (λ fault. (fault ≡ ProgFault.CannotWrite)
        ⊎ ((fault ≡ ProgFault.Memory) × (writer.new ≡ writer.old))) }
    ensures grown { Grows (W.contents writer.old) (W.contents writer.new) }
{
    let status = write_end(alloc, writer, number, totals, found, as_json, least)?;
    if found.is_none() {
        progress.counted(totals);
    }
    Ok(status)
}

/// What is counted before the first segment, if it is asked.
fn totals_begun(counts: bool) -> Option<Totals>
    ensures { result ≡ totals_begun counts }
{
    if counts { Some(Totals::none()) } else { None }
}

/// The totals that are shown: those of no segment where nothing is counted.
fn totals_told(counted: Option<Totals>) -> Totals
    ensures { result ≡ unwrap_or counted no_totals }
{
    match counted {
        Some(totals) => totals,
        None => Totals::none(),
    }
}

/// What is counted with a right segment more, if it is.
fn totals_if(totals: Option<Totals>, order: &Order, met: Option<Met>) -> Option<Totals>
    ensures { result ≡ totals_if totals order.now met }
{
    Some(totals?.with(order, met?))
}

/// Feeds a block to a chain of which so many segments are right, and writes the lines of those that are whole with it and right.
fn take_block<W: Write, P: Progress>(
    alloc: Global,
    writer: &mut W,
    begun: Chain,
    right: u64,
    counted: Option<Totals>,
    block: &[u8],
    style: Style,
    progress: &mut P,
) -> Result<Taken, ProgFault>
    requires known { HasBegun begun }
    requires room { right + length block.now < 2 ^ 64 }
    ensures ok { (run : Option Run) → IsKeptOf run begun.kept → IsShort run begun.bytes
        → IfOk result (TakesBlock run style begun right block.now (W.contents writer.old)
        (W.contents writer.new) counted) }
    ensures err { (run : Option Run) → IsKeptOf run begun.kept → IsShort run begun.bytes
        → IfErr result (λ fault. (fault ≡ ProgFault.CannotWrite)
        ⊎ ((fault ≡ ProgFault.Memory) × TakesSome run style begun right block.now
        (W.contents writer.old) (W.contents writer.new) counted)) }
    ensures grown { Grows (W.contents writer.old) (W.contents writer.new) }
{
    let mut chain = begun;
    let mut number = right;
    let counts = counted.is_some();
    let mut totals = counted;
    let mut rest = block;
    'segments: while !rest.is_empty() {
        match chain.feed(alloc, rest, counts)? {
            Step::More(next) => return Ok(Taken::More(next, number, totals)),
            Step::Right(count, order, met, next) => {
                write_right(alloc, writer, number, &order, style)?;
                progress.right(order.calls().len());
                totals = totals_if(totals, &order, met);
                number += 1;
                chain = next;
                rest = &rest[count..];
            }
            Step::Wrong(fault) => return Ok(Taken::Wrong(number, fault)),
        }
    }
    Ok(Taken::More(chain, number, totals))
}

/// What a chain is found to be that was read to its end or to its first fault.
#[derive(Drop)]
pub(crate) enum Judged {
    /// The input has ended, so many segments are right, and so much is counted of them, if it is.
    Ended(Chain, u64, Option<Totals>),
    /// So many segments are right, and the next one has this fault, its first.
    Faulty(u64, Fault),
}

/// Reads blocks and feeds each, to the end of the input or to the first fault, and writes the lines of right segments.
pub(crate) fn judge_blocks<R: Source, W: Write, P: Progress>(
    alloc: Global,
    reader: &mut R,
    writer: &mut W,
    block: &mut [u8],
    style: Style,
    counts: bool,
    progress: &mut P,
) -> Result<Judged, ProgFault>
    requires { length block.old ≡ 4096 }
    ensures ok { IfOk result (HasJudged style counts (R.remaining reader.old) (R.remaining reader.new)
        (W.contents writer.old) (W.contents writer.new)) }
    ensures err { IfErr result IsEndFault }
    ensures first { IfErr result (λ fault. fault ≢ ProgFault.CannotWrite
        → HasWrittenFirst style (R.remaining reader.old) (R.remaining reader.new)
        (W.contents writer.old) (W.contents writer.new) fault) }
    ensures few { HasReadFewOfChain (R.remaining reader.old) (R.remaining reader.new) }
    ensures at_once { HasWrittenAtOnce style (R.remaining reader.old) (R.remaining reader.new)
        (R.last_read reader.new) (W.contents writer.old) (W.contents writer.new) }
    ensures unread { RefusesUnreadable (2 ^ 52 - 1) (R.remaining reader.old)
        (R.remaining reader.new) (R.last_read reader.new) result }
{
    let mut chain = Chain::new(alloc);
    let mut number = 0;
    let mut totals = totals_begun(counts);
    let mut room = MOST_BLOCKS;
    while room > 0 {
        let count = read_block(reader, block)?;
        if count == 0 {
            return Ok(Judged::Ended(chain, number, totals));
        }
        progress.read(count);
        match take_block(
            alloc,
            writer,
            chain,
            number,
            totals,
            &block[..count],
            style,
            progress,
        )? {
            Taken::More(next, right, more) => {
                chain = next;
                number = right;
                totals = more;
                room -= 1;
            }
            Taken::Wrong(right, fault) => return Ok(Judged::Faulty(right, fault)),
        }
    }
    Err(ProgFault::CannotRead)
}

/// Reads a chain in blocks of 4,096 bytes, judges each segment as soon as it is whole, and writes its lines. At the end it writes how many
/// segments there are, or the first wrong one and its first fault. As JSON it writes an object on a line for each right segment, and one at
/// the end. If its style is `quiet`, it writes what comes at the end alone. The status is 0 where the chain is right, else 1. Where fewer
/// of the calls of a right chain overlap another one than `least`, it is 2, and what is written the same. It reads nothing behind the block
/// in which the first fault shows.
///
/// The lines of a segment are written before more is read than the block with which it is whole. So wherever it ends, also with a write
/// that fails, those of all segments that were whole before its last read are written.
///
/// The progress gets the number of bytes of each block, and of calls of each right segment; and what is counted of a right chain. It changes
/// nothing of what is written. It is counted where the last object has it, the least number is above 0, or the progress wants it. That
/// takes 12 bytes for each event, and 48 for each update that changes the space.
///
/// It allocates what one segment says, the space before it, what its judgement takes, and its lines. If it gives no answer, the lines
/// of some segments at the front of the chain may have been written, which are right.
///
/// # Errors
///
/// `CannotRead` where the last read gave an error, or the input doesn't end within 2^52 - 1 reads; `CannotWrite` where the writer gave an
/// error, `Memory` where a growth of memory was refused.
pub fn audit_chain_io<R: Source, W: Write, P: Progress>(
    alloc: Global,
    reader: &mut R,
    writer: &mut W,
    style: Style,
    least: u32,
    progress: &mut P,
) -> Result<u8, ProgFault>
    ensures ok { IfOk result (WritesReport (IsChainAudit style least) (R.remaining reader.old)
        (W.contents writer.old) (W.contents writer.new)) }
    ensures read { IfOk result (AuditsWhatIsRead style least (R.remaining reader.old)
        (R.remaining reader.new) (W.contents writer.old) (W.contents writer.new)) }
    ensures err { IfErr result IsEndFault }
    ensures first { IfErr result (λ fault. fault ≢ ProgFault.CannotWrite
        → HasWrittenFirst style (R.remaining reader.old) (R.remaining reader.new)
        (W.contents writer.old) (W.contents writer.new) fault) }
    ensures few { HasReadFewOfChain (R.remaining reader.old) (R.remaining reader.new) }
    ensures at_once { HasWrittenAtOnce style (R.remaining reader.old) (R.remaining reader.new)
        (R.last_read reader.new) (W.contents writer.old) (W.contents writer.new) }
    ensures unread { RefusesUnreadable (2 ^ 52 - 1) (R.remaining reader.old)
        (R.remaining reader.new) (R.last_read reader.new) result }
{
    let as_json = style.as_json;
    let counts = depends(as_json, least, progress.wants_counts());
    match judge_blocks(
        alloc,
        reader,
        writer,
        &mut [0; BLOCK],
        style,
        counts,
        progress,
    )? {
        Judged::Ended(chain, number, counted) => {
            let found = chain.end();
            let totals = totals_told(counted);
            tell_end(
                alloc, writer, number, totals, found, as_json, least, progress,
            )
        }
        Judged::Faulty(number, fault) => {
            let none = Totals::none();
            write_end(alloc, writer, number, none, Some(fault), as_json, least)
        }
    }
}
