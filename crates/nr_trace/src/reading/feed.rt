//! A trace or a segment that comes in pieces.

ghost use Rattle.std.specs.Prelude.{◌≡◌, ◌+◌, ◌++◌, ◌↔◌, ℕ, List, [], length, IfErr, IsNone, IsSome, IsTrue, MatchResult};
ghost use Rattle.vs_types.specs.Refusal.{IfRefused};
ghost use Rattle.nr_trace.specs.FirstFault.{IsRefusedBy};
ghost use Rattle.nr_trace.specs.Feed.{fault_alone, fault_of, Ends, EndsRefused, EndsSegment, Feeds, FeedsSegment, IsRefusedAs, IsWhole};
ghost use Rattle.nr_trace.specs.Spelling.{SpellsAs};
ghost use Rattle.nr_trace.specs.Feed.Fed.{Taken};
ghost use Rattle.nr_trace.specs.inside.Progress.{cut_off, form_of, said, unit_bytes, Ahead, HasRead, IsReady, IsRun};
ghost use Rattle.nr_trace.specs.inside.Feeding.{AreFewer, HasCome, HasTaken, IsCut, IsSound};

use crate::formats::layout::TraceLayout;
use crate::formats::version::Form;
use crate::reading::reader::Reader;
use crate::recordings::trace::Trace;
use crate::refusals::fault::Format;
use crate::refusals::refusal::{Refusal, TraceUnit};
use std::alloc::Global;
use std::marker::Model;
use std::mem::replace;
use vs_types::Fail;

#[derive(Drop)]
pub(crate) enum State {
    /// All whole units are read; the beginning of the next one.
    Open(Reader, Vec<u8>),
    /// Why no more is taken.
    Stopped(Fail<Refusal>),
}

/// What a reader's refusal says of the fault.
fn fault_of(fail: Fail<Refusal>) -> Fail<Format>
    ensures { result ≡ fault_of fail }
{
    match fail {
        Fail::Memory => Fail::Memory,
        Fail::Refused(refusal) => Fail::Refused(refusal.fault),
    }
}

/// Takes the next run, behind which these bytes come.
fn take_front(reader: Reader, run: &[u8], behind: &[u8]) -> Result<Reader, Fail<Refusal>>
    requires ready { IsReady reader }
    requires run { IsRun reader (length run.now) }
    ensures { MatchResult result
        (HasRead (form_of reader) (said reader ++ run.now)
        (λ rest refusal. Ahead reader (run.now ++ rest) refusal))
        (IfRefused (IsRefusedBy (Ahead reader) (run.now ++ behind.now))) }
{
    match reader.take_run(run) {
        Ok(next) => Ok(next),
        Err(Fail::Memory) => Err(Fail::Memory),
        Err(Fail::Refused(refusal)) => Err(Fail::Refused(refusal.and_then(behind))),
    }
}

/// Takes all whole units at the front of the bytes, by runs, and gives what is left: the beginning of the next unit, or what is
/// behind the last one.
fn take_units(reader: Reader, bytes: &[u8]) -> Result<(Reader, &[u8]), Fail<Refusal>>
    requires { IsSound reader }
    ensures { MatchResult result
        (λ left. IsCut (form_of reader) (said reader) bytes.now left.0 left.1.now)
        (IfRefused (IsRefusedAs (form_of reader) (said reader ++ bytes.now) (length bytes.now))) }
{
    let mut reader = reader;
    let mut rest = bytes;
    while let Some(len) = reader.run_len(rest.len()) {
        if rest.len() < len {
            return Ok((reader, rest));
        }
        let (run, behind) = rest.split_at(len);
        reader = take_front(reader, run, behind)?;
        rest = behind;
    }
    Ok((reader, rest))
}

/// Takes all whole units at the front of the bytes, and keeps the beginning of the next one. Gives how many bytes that were: all,
/// unless no unit is left.
fn take_bytes(
    reader: Reader,
    mut begun: Vec<u8>,
    bytes: &[u8],
) -> Result<(State, usize), Fail<Refusal>>
    requires sound { IsSound reader }
    requires between { begun.items ≡ [] }
    ensures { MatchResult result
        (λ taken. HasTaken (form_of reader) (said reader) bytes.now taken.0 taken.1)
        (IfRefused (IsRefusedAs (form_of reader) (said reader ++ bytes.now) (length bytes.now))) }
{
    let (reader, rest) = take_units(reader, bytes)?;
    match reader.unit_len() {
        None => Ok((State::Open(reader, begun), bytes.len() - rest.len())),
        Some(_) => {
            begun.extend_from_slice(rest)?;
            Ok((State::Open(reader, begun), bytes.len()))
        }
    }
}

/// Completes the unit that has begun, and goes on after it. Gives how many bytes of the piece are taken: all, unless no unit is left.
fn take_piece(
    reader: Reader,
    mut begun: Vec<u8>,
    piece: &[u8],
) -> Result<(State, usize), Fail<Refusal>>
    requires sound { IsSound reader }
    requires fewer { AreFewer (unit_bytes reader) begun.items }
    ensures { MatchResult result
        (λ taken. HasTaken (form_of reader) (said reader ++ begun.items) piece.now taken.0 taken.1)
        (IfRefused (IsRefusedAs (form_of reader) (said reader ++ begun.items ++ piece.now)
        (length (begun.items ++ piece.now)))) }
{
    match reader.unit_len() {
        Some(len) if !begun.is_empty() => {
            let missing = len - begun.len();
            if piece.len() < missing {
                begun.extend_from_slice(piece)?;
                return Ok((State::Open(reader, begun), piece.len()));
            }
            let (front, behind) = piece.split_at(missing);
            begun.extend_from_slice(front)?;
            let reader = take_front(reader, &begun, behind)?;
            begun.clear();
            let (state, count) = take_bytes(reader, begun, behind)?;
            Ok((state, missing + count))
        }
        _ => take_bytes(reader, begun, piece),
    }
}

/// The next piece of a trace, of which nothing may be left.
fn take_all(reader: Reader, begun: Vec<u8>, piece: &[u8]) -> Result<State, Fail<Refusal>>
    requires sound { (form_of reader ≡ Form.Trace) × IsSound reader }
    requires fewer { AreFewer (unit_bytes reader) begun.items }
    ensures { MatchResult result (HasCome Form.Trace (said reader ++ begun.items ++ piece.now))
        (IfRefused (IsRefusedAs Form.Trace (said reader ++ begun.items ++ piece.now)
        (length (begun.items ++ piece.now)))) }
{
    let (state, count) = take_piece(reader, begun, piece)?;
    if count < piece.len() {
        return Err(Fail::Refused(Refusal::of(
            Format::Trailing,
            TraceUnit::Behind,
            &piece[count..],
        )));
    }
    Ok(state)
}

/// What a reader has read, where no unit is left; these bytes have begun one.
fn ended(reader: Reader, begun: Vec<u8>) -> Result<Trace, Fail<Refusal>>
    requires { IsSound reader }
    ensures { MatchResult result
        (λ trace. IsNone (unit_bytes reader) × SpellsAs (form_of reader) (said reader) trace)
        (λ fail. (fail ≡ Fail.Refused (cut_off reader begun.items)) × IsSome (unit_bytes reader)) }
{
    match reader.unit_len() {
        Some(_) => Err(Fail::Refused(reader.cut_off(&begun))),
        None => Ok(reader.finish()),
    }
}

/// A reader of a trace that comes in pieces, cut anywhere. It keeps what the whole units so far say, and the beginning of
/// one unit. Contracts see the bytes that it was fed, or why it takes no more.
#[derive(Drop)]
pub struct Feed {
    state: State,
}

impl Model for Feed {
    ghost use Rattle.nr_trace.specs.Feed.{Fed};

    ghost Value = { Fed };

    ghost use Rattle.nr_trace.specs.inside.Feeding.{IsFeeding, fed};
    ghost use Rattle.nr_trace.specs.declared.formats.version.Form.TheVariants as forms;

    ghost view = { λ f. fed f.state };

    ghost invariant = { λ f. IsFeeding forms.Trace f.state };
}

impl Feed {
    /// A feed that nothing was given yet. It allocates no memory.
    pub fn new(alloc: Global) -> Feed
        ensures { result ≡ Taken [] }
    {
        Feed {
            state: State::Open(Reader::new(alloc, Form::Trace), Vec::new(alloc)),
        }
    }

    /// Takes the next piece. A feed that has refused answers the same from then on. It allocates memory for what the whole
    /// units say, 4,096 bytes for the words of a dump's next frame, and for the beginning of one unit, fewer than 24 bytes.
    ///
    /// # Errors
    ///
    /// The first fault of the bytes so far, as soon as a whole unit has one, or a byte comes after the last unit: no later
    /// piece can mend it. A unit that has only begun is not looked into. And `Memory` where a growth of memory was refused.
    pub fn feed(&mut self, piece: &[u8]) -> Result<(), Fail<Format>>
        ensures { Feeds self.old piece.now self.new result }
    {
        match self.feed_or_refuse(piece) {
            Ok(()) => Ok(()),
            Err(fail) => Err(fault_of(fail)),
        }
    }

    /// Takes the next piece as `feed` does, and says of a refusal which unit shows the fault.
    ///
    /// # Errors
    ///
    /// As `feed`, with the unit, and how many of the bytes so far are left from its first one on. What has refused before gives
    /// the unit of that time.
    pub fn feed_or_refuse(&mut self, piece: &[u8]) -> Result<(), Fail<Refusal>>
        ensures feeds { Feeds self.old piece.now self.new (fault_alone result) }
        ensures refused { (bytes : List ℕ) → self.old ≡ Taken bytes
            → IfErr result (IfRefused
            (IsRefusedAs Form.Trace (bytes ++ piece.now) (length piece.now + 23))) }
    {
        let state = replace(&mut self.state, State::Stopped(Fail::Memory));
        let next = match state {
            State::Open(reader, begun) => take_all(reader, begun, piece),
            State::Stopped(fail) => Err(fail),
        };
        match next {
            Ok(state) => {
                self.state = state;
                Ok(())
            }
            Err(fail) => {
                self.state = State::Stopped(fail);
                Err(fail)
            }
        }
    }

    /// The trace that the pieces spell one after the other. It allocates no memory.
    ///
    /// # Errors
    ///
    /// What `feed` has refused with, or `Truncated`.
    pub fn end(self) -> Result<Trace, Fail<Format>>
        ensures { Ends self result }
    {
        match self.end_or_refuse() {
            Ok(trace) => Ok(trace),
            Err(fail) => Err(fault_of(fail)),
        }
    }

    /// The trace that the pieces spell, as `end` gives it; of a refusal it says which unit is cut off.
    ///
    /// # Errors
    ///
    /// As `end`, with the unit, and how many of the bytes are left from its first one on.
    pub fn end_or_refuse(self) -> Result<Trace, Fail<Refusal>>
        ensures ends { Ends self (fault_alone result) }
        ensures refused { EndsRefused Form.Trace self result }
    {
        let Feed { state } = self;
        match state {
            State::Open(reader, begun) => ended(reader, begun),
            State::Stopped(fail) => Err(fail),
        }
    }
}

/// A reader of a segment of a chain that comes in pieces, cut anywhere. It keeps what the whole units so far say, and the beginning of
/// one unit. Contracts see the bytes that it was fed, or why it takes no more, and how the segment before is laid out.
#[derive(Drop)]
pub struct SegmentFeed {
    before: Option<TraceLayout>,
    state: State,
}

impl Model for SegmentFeed {
    ghost use Rattle.nr_trace.specs.Feed.{FedSegment};

    ghost Value = { FedSegment };

    ghost use Rattle.nr_trace.specs.inside.Feeding.{IsFeeding, fed};
    ghost use Rattle.nr_trace.specs.declared.formats.version.Form.TheVariants as forms;

    ghost view = { λ f. record { before = f.before; pieces = fed f.state } };

    ghost invariant = { λ f. IsFeeding (forms.Segment f.before) f.state };
}

impl SegmentFeed {
    /// A feed that nothing was given yet, of a segment that comes after one that is laid out so, or of the first one. It
    /// allocates no memory.
    pub fn new(alloc: Global, before: Option<TraceLayout>) -> SegmentFeed
        ensures { result ≡ record { before = before; pieces = Taken [] } }
    {
        let layout = before;
        SegmentFeed {
            before,
            state: State::Open(Reader::new(alloc, Form::Segment(layout)), Vec::new(alloc)),
        }
    }

    /// Takes bytes at the front of the next piece, and gives how many: all of them, unless the segment is whole before its end; what is
    /// left belongs to the next segment. A feed that has refused answers the same from then on.
    ///
    /// # Errors
    ///
    /// The first fault of the bytes so far, as soon as a whole unit has one: no later piece can mend it. A unit that has only begun is
    /// not looked into. And `Memory` where a growth of memory was refused.
    pub fn feed(&mut self, piece: &[u8]) -> Result<usize, Fail<Format>>
        ensures { FeedsSegment self.old piece.now self.new result }
    {
        match self.feed_or_refuse(piece) {
            Ok(count) => Ok(count),
            Err(fail) => Err(fault_of(fail)),
        }
    }

    /// Takes bytes as `feed` does, and says of a refusal which unit shows the fault.
    ///
    /// # Errors
    ///
    /// As `feed`, with the unit, and how many of the bytes so far are left from its first one on. What has refused before gives
    /// the unit of that time.
    pub fn feed_or_refuse(&mut self, piece: &[u8]) -> Result<usize, Fail<Refusal>>
        ensures feeds { FeedsSegment self.old piece.now self.new (fault_alone result) }
        ensures refused { (bytes : List ℕ) → self.old.pieces ≡ Taken bytes
            → IfErr result (IfRefused
            (IsRefusedAs (Form.Segment self.old.before) (bytes ++ piece.now)
            (length piece.now + 23))) }
    {
        let state = replace(&mut self.state, State::Stopped(Fail::Memory));
        let next = match state {
            State::Open(reader, begun) => take_piece(reader, begun, piece),
            State::Stopped(fail) => Err(fail),
        };
        match next {
            Ok((state, count)) => {
                self.state = state;
                Ok(count)
            }
            Err(fault) => {
                self.state = State::Stopped(fault);
                Err(fault)
            }
        }
    }

    /// Whether the bytes so far spell a segment.
    pub fn is_whole(&self) -> bool
        ensures { IsTrue result ↔ IsWhole self.now }
    {
        match &self.state {
            State::Open(reader, _) => reader.unit_len().is_none(),
            State::Stopped(_) => false,
        }
    }

    /// The segment that the bytes spell. It allocates no memory.
    ///
    /// # Errors
    ///
    /// What `feed` has refused with, or `Truncated`.
    pub fn end(self) -> Result<Trace, Fail<Format>>
        ensures { EndsSegment self result }
    {
        match self.end_or_refuse() {
            Ok(segment) => Ok(segment),
            Err(fail) => Err(fault_of(fail)),
        }
    }

    /// The segment that the bytes spell, as `end` gives it; of a refusal it says which unit is cut off.
    ///
    /// # Errors
    ///
    /// As `end`, with the unit, and how many of the bytes are left from its first one on.
    pub fn end_or_refuse(self) -> Result<Trace, Fail<Refusal>>
        ensures ends { EndsSegment self (fault_alone result) }
        ensures refused { EndsRefused (Form.Segment self.before) self.pieces result }
    {
        let SegmentFeed { before: _, state } = self;
        match state {
            State::Open(reader, begun) => ended(reader, begun),
            State::Stopped(fail) => Err(fail),
        }
    }
}
