//! A trace that is read in blocks, to its end or to the first refusal.

ghost use Rattle.std.specs.Prelude.{◌≡◌, [], IfOk, IfErr, MatchResult, OnOk, Result, length};
ghost use Rattle.nr_trace.specs.Feed.{Ends};
ghost use Rattle.nr_trace.specs.Feed.Fed.{Taken};
ghost use Rattle.nr_trace.specs.declared.refusals.fault.Format.{Format};
ghost use Rattle.vs_types.specs.declared.requests.refusal.Fail.{Fail};
ghost use Rattle.nr_trace.specs.Recording.{Recording};
ghost use Rattle.nr_explain.specs.Units.{ReadsUnits};
ghost use Rattle.nr_explain.specs.declared.units.Unread.{Unread};
ghost use Rattle.audit_readers.specs.Answers.{HasRead, HasReadFew, HasReadUnits};
ghost use Rattle.audit_readers.specs.Ends.{RefusesUnreadable};

use crate::ends::{BLOCK, read_block};
use crate::fault::ProgFault;
use crate::source::Source;
use nr_explain::{UnitFeed, Unread};
use nr_trace::{Feed, Format, Trace};
use std::alloc::Global;
use vs_types::Fail;

/// The most bytes that are read of an input: one more than any trace has, so that the last of them is refused.
const MOST_BYTES: usize = 70_647_893;

/// Reads blocks and feeds each, to the end of the input, of which the feed has all then, or to the first refusal, which comes at the
/// latest with the last byte that there is room for.
fn feed_units<R: Source>(
    reader: &mut R,
    feed: &mut UnitFeed,
    block: &mut [u8],
) -> Result<Result<(), Unread>, ProgFault>
    requires empty { feed.old ≡ [] }
    requires block { length block.old ≡ 4096 }
    ensures ok { IfOk result (λ fed. MatchResult fed
        (λ _. (read : Result Recording Unread) → ReadsUnits feed.new read
        → HasReadUnits (R.remaining reader.old) read)
        (λ unread. HasReadUnits (R.remaining reader.old) (Err unread))) }
    ensures err { IfErr result (λ fault. fault ≡ ProgFault.CannotRead) }
    ensures few { HasReadFew (R.remaining reader.old) (R.remaining reader.new) }
    ensures unread { RefusesUnreadable 70647893 (R.remaining reader.old) (R.remaining reader.new)
        (R.last_read reader.new) result }
{
    let mut room = MOST_BYTES;
    while room > 0 {
        let piece = &mut block[..room.min(BLOCK)];
        let count = read_block(reader, piece)?;
        if count == 0 {
            return Ok(Ok(()));
        }
        if let Err(unread) = feed.feed(&piece[..count]) {
            return Ok(Err(unread));
        }
        room -= count;
    }
    Err(ProgFault::CannotRead)
}

/// Reads the input in blocks of at most 4,096 bytes and feeds each to the reader of units: the trace that the input spells, or
/// the unit that shows why it spells none. It reads nothing after the first refusal, and never more than 70,647,893 bytes, one more than
/// the greatest trace has. Allocates memory for the trace, for the beginning of one unit, and for the first 20 and the last 4,096 bytes.
///
/// # Errors
///
/// `CannotRead` if the reader gave an error that is no interruption. Memory that ran out is named inside the answer.
pub fn read_units<R: Source>(
    alloc: Global,
    reader: &mut R,
) -> Result<Result<Trace, Unread>, ProgFault>
    ensures ok { IfOk result (HasReadUnits (R.remaining reader.old)) }
    ensures err { IfErr result (λ fault. fault ≡ ProgFault.CannotRead) }
    ensures few { HasReadFew (R.remaining reader.old) (R.remaining reader.new) }
    ensures unread { RefusesUnreadable 70647893 (R.remaining reader.old) (R.remaining reader.new)
        (R.last_read reader.new) result }
{
    let mut feed = UnitFeed::new(alloc);
    match feed_units(reader, &mut feed, &mut [0; BLOCK])? {
        Ok(()) => Ok(feed.end()),
        Err(unread) => Ok(Err(unread)),
    }
}

/// Reads blocks and feeds each, as `feed_units` does, to a reader that knows no units: what is wrong is then said by its end.
fn feed_blocks<R: Source>(
    reader: &mut R,
    feed: &mut Feed,
    block: &mut [u8],
) -> Result<(), ProgFault>
    requires empty { feed.old ≡ Taken [] }
    requires block { length block.old ≡ 4096 }
    ensures ok { OnOk result ((read : Result Recording (Fail Format)) → Ends feed.new read
        → HasRead (R.remaining reader.old) read) }
    ensures err { IfErr result (λ fault. fault ≡ ProgFault.CannotRead) }
    ensures few { HasReadFew (R.remaining reader.old) (R.remaining reader.new) }
    ensures unread { RefusesUnreadable 70647893 (R.remaining reader.old) (R.remaining reader.new)
        (R.last_read reader.new) result }
{
    let mut room = MOST_BYTES;
    while room > 0 {
        let piece = &mut block[..room.min(BLOCK)];
        let count = read_block(reader, piece)?;
        if count == 0 {
            return Ok(());
        }
        if let Err(_) = feed.feed(&piece[..count]) {
            return Ok(());
        }
        room -= count;
    }
    Err(ProgFault::CannotRead)
}

/// Reads as `read_units` does, and looks for no unit: the trace that the input spells, or why it spells none. Allocates memory for the
/// trace and for the beginning of one unit, and keeps no other bytes than one block.
///
/// # Errors
///
/// Those of `read_units`.
pub fn read_trace<R: Source>(
    alloc: Global,
    reader: &mut R,
) -> Result<Result<Trace, Fail<Format>>, ProgFault>
    ensures ok { IfOk result (HasRead (R.remaining reader.old)) }
    ensures err { IfErr result (λ fault. fault ≡ ProgFault.CannotRead) }
    ensures few { HasReadFew (R.remaining reader.old) (R.remaining reader.new) }
    ensures unread { RefusesUnreadable 70647893 (R.remaining reader.old) (R.remaining reader.new)
        (R.last_read reader.new) result }
{
    let mut feed = Feed::new(alloc);
    feed_blocks(reader, &mut feed, &mut [0; BLOCK])?;
    Ok(feed.end())
}
