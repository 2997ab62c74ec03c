//! Runs in segments: a script of any length, of which a segment is run, judged and written as soon as it is full.
ghost use Rattle.std.specs.Prelude.{◌≡◌, ◌≢◌, ◌+◌, ◌++◌, ◌<◌, ◌^◌, ◌-◌, ℕ, IfErr, IfOk, List, Option, OnOk, false, length, map, string_bytes, true};
ghost use Rattle.std.specs.Io.KnownBytes.{Appends};
ghost use Rattle.vs_types.specs.Query.{AreScripts};
ghost use Rattle.nr_ring.specs.declared.cells.words.TheConstants.{MOST_PLACES};
ghost use Rattle.nr_script.specs.Portion.{request_count};
ghost use Rattle.audit_readers.specs.Ends.{RefusesUnreadable};
ghost use Rattle.nrvs.specs.ServedChain.{HasServed, HasWrittenSegments, IsChainFault, IsServedChain, chain_layout, end_line};
ghost use Rattle.nrvs.specs.ServedRun.{IsRunEnd};
ghost use Rattle.nrvs.specs.inside.ChainGoing.{HasCome, HasFed, HasRunSegment, HasWrittenSome, IsAfter, IsLastFault, IsLastingFault};
ghost use Rattle.nrvs.specs.inside.ChainGoing.{status_of, told_of_segment};

use crate::runs::chain_setup::ChainSetup;
use crate::runs::run_text::{refused_text, said_lines, verified_text};
use crate::runs::script_input::script_fault;
use crate::runs::setup::Setup;
use audit_readers::{BLOCK, MOST_BLOCKS, ProgFault, Source, read_block, write_text};
use nr_ring::LogName;
use nr_script::PortionFeed;
use nr_serve::{AlwaysGo, ChainRun, NoSegment, SegmentOutcome};
use std::alloc::Global;
use std::io::Write;
use std::marker::Brand;
use std::sync::Wait;
use std::thread::Threads;
use vs_types::{Config, Fail, Request, THREADS};

/// What a segment leaves: the run that goes on, or the status with which it ends.
#[derive(Drop)]
pub enum After<J: LogName> {
    GoesOn(ChainRun<J>),
    Ends(u8),
}

/// The text of what came of a segment.
fn outcome_text<J: LogName>(alloc: Global, outcome: &SegmentOutcome<J>) -> Result<String, ProgFault>
    ensures ok { IfOk result (λ text. string_bytes text ≡ told_of_segment false outcome.now) }
    ensures err { IfErr result (λ fault. fault ≡ ProgFault.Memory) }
{
    let text = match outcome {
        SegmentOutcome::Right { answers, .. } => said_lines(alloc, answers.threads())?,
        SegmentOutcome::Last { answers, .. } => verified_text(alloc, answers.threads())?,
        SegmentOutcome::Wrong { fault, .. } => refused_text(alloc, *fault)?,
    };
    Ok(text)
}

/// The bytes of a segment.
fn outcome_bytes<J: LogName>(outcome: &SegmentOutcome<J>) -> &[u8]
    ensures { result.now ≡ told_of_segment true outcome.now }
{
    match outcome {
        SegmentOutcome::Right { bytes, .. } => bytes.as_slice(),
        SegmentOutcome::Last { bytes, .. } => bytes.as_slice(),
        SegmentOutcome::Wrong { bytes, .. } => bytes.as_slice(),
    }
}

/// Writes what came of a segment, and nothing else.
fn write_outcome<J: LogName, W: Write>(
    alloc: Global,
    writer: &mut W,
    outcome: &SegmentOutcome<J>,
    as_trace: bool,
) -> Result<(), ProgFault>
    ensures ok { OnOk result (Appends (W.contents writer.old) (W.contents writer.new)
        (told_of_segment as_trace outcome.now)) }
    ensures err { IfErr result IsRunEnd }
    ensures alone { IfErr result (λ fault. fault ≢ ProgFault.CannotWrite
        → writer.new ≡ writer.old) }
{
    if as_trace {
        write_text(writer, outcome_bytes(outcome))?;
    } else {
        let text = outcome_text(alloc, outcome)?;
        write_text(writer, text.as_bytes())?;
    }
    Ok(())
}

/// Why there is no segment.
fn segment_fault(fail: Fail<NoSegment>) -> ProgFault
    ensures end { IsRunEnd result }
    ensures unwritten { result ≢ ProgFault.CannotWrite }
{
    match fail {
        Fail::Memory => ProgFault::Memory,
        Fail::Refused(NoSegment::NoThread | NoSegment::NotCut) => ProgFault::NoThread,
    }
}

/// What a segment leaves.
fn left_by<J: LogName>(outcome: SegmentOutcome<J>) -> After<J>
    ensures { IsAfter outcome result }
{
    match outcome {
        SegmentOutcome::Right { run, .. } => After::GoesOn(run),
        SegmentOutcome::Last { .. } => After::Ends(0),
        SegmentOutcome::Wrong { .. } => After::Ends(1),
    }
}

/// Writes what came of a segment, and gives what it leaves.
fn tell_segment<J: LogName, W: Write>(
    alloc: Global,
    writer: &mut W,
    outcome: SegmentOutcome<J>,
    as_trace: bool,
) -> Result<After<J>, ProgFault>
    ensures after { IfOk result (IsAfter outcome) }
    ensures ok { OnOk result (Appends (W.contents writer.old) (W.contents writer.new)
        (told_of_segment as_trace outcome)) }
    ensures err { IfErr result IsRunEnd }
    ensures alone { IfErr result (λ fault. fault ≢ ProgFault.CannotWrite
        → writer.new ≡ writer.old) }
{
    write_outcome(alloc, writer, &outcome, as_trace)?;
    Ok(left_by(outcome))
}

/// The status with which the run ends, if it does.
fn status_of<J: LogName>(after: After<J>) -> Option<u8>
    ensures { result ≡ status_of after }
{
    match after {
        After::GoesOn(_) => None,
        After::Ends(status) => Some(status),
    }
}

/// Runs the next segment, and writes what came of it.
fn run_segment<J: LogName + Send + Sync, W: Write, T: Threads + Wait + Sync>(
    rt: &T,
    alloc: Global,
    writer: &mut W,
    run: ChainRun<J>,
    scripts: Vec<Vec<Request>>,
    chain: ChainSetup,
) -> Result<After<J>, ProgFault>
    requires scripts { AreScripts run.layout (map (λ script. script.items) scripts.items) }
    ensures ok { IfOk result (HasRunSegment chain.as_trace run
        (map (λ script. script.items) scripts.items) (W.contents writer.old)
        (W.contents writer.new)) }
    ensures err { IfErr result IsRunEnd }
    ensures alone { IfErr result (λ fault. fault ≢ ProgFault.CannotWrite
        → writer.new ≡ writer.old) }
{
    match run.segment(rt, alloc, scripts, chain.turns, &AlwaysGo) {
        Ok(outcome) => tell_segment(alloc, writer, outcome, chain.as_trace),
        Err(fail) => Err(segment_fault(fail)),
    }
}

/// Takes a piece of the script: runs and writes each segment that is full with it.
fn feed_piece<J: LogName + Send + Sync, W: Write, T: Threads + Wait + Sync>(
    rt: &T,
    alloc: Global,
    writer: &mut W,
    run: ChainRun<J>,
    portion: &mut PortionFeed,
    piece: &[u8],
    setup: Setup,
    chain: ChainSetup,
) -> Result<After<J>, ProgFault>
    requires come { (bytes : List ℕ) × (old : Option (List ℕ))
        × HasCome setup chain bytes old (W.contents writer.old) run portion.old }
    requires few { request_count portion.old.lists < chain.most }
    ensures ok { (bytes : List ℕ) (old : Option (List ℕ))
        → HasCome setup chain bytes old (W.contents writer.old) run portion.old
        → IfOk result (HasFed setup chain (length piece.now) (bytes ++ piece.now) old
        (W.contents writer.new) portion.new) }
    ensures few { OnOk result (request_count portion.new.lists < chain.most) }
    ensures err { (bytes : List ℕ) (old : Option (List ℕ))
        → HasCome setup chain bytes old (W.contents writer.old) run portion.old
        → IfErr result (IsLastingFault setup.depth (bytes ++ piece.now)) }
    ensures first { (bytes : List ℕ) (old : Option (List ℕ))
        → HasCome setup chain bytes old (W.contents writer.old) run portion.old
        → IfErr result (λ fault. fault ≢ ProgFault.CannotWrite
        → HasWrittenSome setup chain (length piece.now) (bytes ++ piece.now) old
        (W.contents writer.new)) }
{
    let most = chain.most as usize;
    let mut going = run;
    let mut rest = piece;
    'segments: while !rest.is_empty() {
        let taken = match portion.feed(rest, most) {
            Ok(taken) => taken,
            Err(fail) => return Err(script_fault(fail)),
        };
        rest = &rest[taken..];
        if portion.asked() < most {
            continue;
        }
        let scripts = portion.hand_out(alloc)?;
        match run_segment(rt, alloc, writer, going, scripts, chain)? {
            After::GoesOn(next) => going = next,
            After::Ends(status) => return Ok(After::Ends(status)),
        }
    }
    Ok(After::GoesOn(going))
}

/// Writes that the run is verified, where its bytes aren't asked for, and gives the status.
fn write_end<W: Write>(writer: &mut W, as_trace: bool) -> Result<u8, ProgFault>
    ensures ok { IfOk result (λ status. (status ≡ 0)
        × Appends (W.contents writer.old) (W.contents writer.new) (end_line as_trace)) }
    ensures err { IfErr result (λ fault. fault ≡ ProgFault.CannotWrite) }
{
    if as_trace {
        return Ok(0);
    }
    write_text(writer, b"verified\n")?;
    Ok(0)
}

/// Runs what is left where no piece comes any more, writes what came of it, and that the run is verified.
fn end_chain<J: LogName + Send + Sync, W: Write, T: Threads + Wait + Sync>(
    rt: &T,
    alloc: Global,
    writer: &mut W,
    run: ChainRun<J>,
    portion: PortionFeed,
    setup: Setup,
    chain: ChainSetup,
) -> Result<u8, ProgFault>
    requires come { (bytes : List ℕ) × (old : Option (List ℕ))
        × HasCome setup chain bytes old (W.contents writer.old) run portion }
    requires few { request_count portion.lists < chain.most }
    ensures ok { (bytes : List ℕ) (old : Option (List ℕ))
        → HasCome setup chain bytes old (W.contents writer.old) run portion
        → IfOk result (λ status. (text : List ℕ)
        × IsServedChain setup chain bytes bytes text status
        × Appends old (W.contents writer.new) text) }
    ensures err { (bytes : List ℕ) (old : Option (List ℕ))
        → HasCome setup chain bytes old (W.contents writer.old) run portion
        → IfErr result (IsLastFault setup.depth bytes) }
    ensures first { (bytes : List ℕ) (old : Option (List ℕ))
        → HasCome setup chain bytes old (W.contents writer.old) run portion
        → IfErr result (λ fault. fault ≢ ProgFault.CannotWrite
        → HasWrittenSome setup chain 0 bytes old (W.contents writer.new)) }
{
    let scripts = match portion.end() {
        Ok(scripts) => scripts,
        Err(fail) => return Err(script_fault(fail)),
    };
    let after = run_segment(rt, alloc, writer, run, scripts, chain)?;
    match status_of(after) {
        None => write_end(writer, chain.as_trace),
        Some(status) => Ok(status),
    }
}

/// Reads, runs and writes segment by segment.
fn chain_named<J: LogName + Send + Sync, W: Write, R: Source, T: Threads + Wait + Sync>(
    rt: &T,
    alloc: Global,
    reader: &mut R,
    writer: &mut W,
    block: &mut [u8],
    config: Config,
    setup: Setup,
    chain: ChainSetup,
) -> Result<u8, ProgFault>
    requires block { length block.old ≡ 4096 }
    requires config { config ≡ chain_layout setup }
    requires depth { config.depth ≡ J.depth }
    requires replicas { config.replicas ≡ J.replicas }
    requires passes { J.passes ≡ config.replicas + config.threads }
    requires places { J.places ≡ MOST_PLACES }
    ensures ok { IfOk result (HasServed setup chain (R.remaining reader.old)
        (R.remaining reader.new) (W.contents writer.old) (W.contents writer.new)) }
    ensures err { IfErr result (IsChainFault setup.depth (R.remaining reader.old)) }
    ensures first { IfErr result (λ fault. fault ≢ ProgFault.CannotWrite
        → HasWrittenSegments setup chain (R.remaining reader.old)
        (R.remaining reader.new) (W.contents writer.old) (W.contents writer.new)) }
    ensures unread { RefusesUnreadable (2 ^ 52 - 1) (R.remaining reader.old)
        (R.remaining reader.new) (R.last_read reader.new) result }
{
    let mut run = ChainRun::<J>::new(alloc, config)?;
    let mut portion = PortionFeed::new(alloc, setup.depth)?;
    let mut room = MOST_BLOCKS;
    while room > 0 {
        let count = read_block(reader, block)?;
        if count == 0 {
            return end_chain(rt, alloc, writer, run, portion, setup, chain);
        }
        let piece = &block[..count];
        match feed_piece(rt, alloc, writer, run, &mut portion, piece, setup, chain)? {
            After::GoesOn(next) => run = next,
            After::Ends(status) => return Ok(status),
        }
        room -= 1;
    }
    Err(ProgFault::CannotRead)
}

/// Reads a script of any length that lists no steps, and runs it with 64 threads in segments of so many requests. It writes what came of
/// each call of a segment, by thread and then by call, as soon as the segment is judged. At the end it writes that the run is verified, or
/// that a segment is refused, and why. With `as_trace` it writes the bytes of its segments alone, which are one chain. The status is 0
/// where all segments are right, else 1. A segment in which a thread was stopped is the last, and nothing is asked of the lines behind it.
///
/// It reads in blocks of 4,096 bytes, and no more than fills a segment before that is run. So it allocates the replicas, a segment, what its
/// judgement takes and the space before it, its text, and a line that goes over the end of a block. Waits for the threads.
///
/// # Errors
///
/// What came of the segments before may have been written then. `BadLine` with the first line that has no form, whose request is not well
/// formed at the depth, or that is a step; `NoThread` where a thread could not be started, or the log could not be cut; `CannotRead` where the
/// last read gave an error, or the input doesn't end within 2^52 - 1 reads; `CannotWrite` where the writer gave an error; `Memory` where a
/// growth of memory was refused.
pub fn run_chain_io<T: Threads + Wait + Sync, R: Source, W: Write>(
    rt: &T,
    alloc: Global,
    reader: &mut R,
    writer: &mut W,
    setup: Setup,
    chain: ChainSetup,
) -> Result<u8, ProgFault>
    ensures ok { IfOk result (HasServed setup chain (R.remaining reader.old)
        (R.remaining reader.new) (W.contents writer.old) (W.contents writer.new)) }
    ensures err { IfErr result (IsChainFault setup.depth (R.remaining reader.old)) }
    ensures first { IfErr result (λ fault. fault ≢ ProgFault.CannotWrite
        → HasWrittenSegments setup chain (R.remaining reader.old)
        (R.remaining reader.new) (W.contents writer.old) (W.contents writer.new)) }
    ensures unread { RefusesUnreadable (2 ^ 52 - 1) (R.remaining reader.old)
        (R.remaining reader.new) (R.last_read reader.new) result }
{
    let Ok(config) = Config::new(setup.depth, setup.replicas, THREADS, setup.tables) else {
        unreachable!()
    };
    chain_named::<Brand, W, R, T>(
        rt,
        alloc,
        reader,
        writer,
        &mut [0; BLOCK],
        config,
        setup,
        chain,
    )
}
