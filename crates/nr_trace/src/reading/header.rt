//! The units of the header, which are the magic, the version and the counts, and the root of a start.

ghost use Rattle.std.specs.Prelude.{◌≡◌, ◌⊎◌, ◌+◌, length};
ghost use Rattle.vs_types.specs.Depth.{levels};
ghost use Rattle.vs_types.specs.Finds.{Finds};
ghost use Rattle.nr_trace.specs.FirstFault.{counts_bytes, counts_unit, magic_of, refusal_at, AtLog, AtStart, IsCounts};
ghost use Rattle.nr_trace.specs.Spelling.{start_count};
ghost use Rattle.nr_trace.specs.Versions.{version_code, IsVersionOf};
ghost use Rattle.nr_trace.specs.declared.formats.version.Version.TheVariants.{Segment};
ghost use Rattle.nr_trace.specs.inside.Progress.{header_units, AreInRange, HasRead, IsEmpty, IsReady, Takes};
ghost use Rattle.nr_trace.specs.inside.Reading.{SpellsCounts};

use crate::formats::fields::Counts;
use crate::formats::layout::TraceLayout;
use crate::formats::version::{Form, Version};
use crate::reading::lists::at_log;
use crate::reading::numbers::{take_u8, take_u16, take_u32, take_u64};
use crate::reading::reader::{Opened, Owner, Parts, Reader};
use crate::refusals::fault::Format;
use crate::refusals::refusal::{Refusal, TraceUnit};
use std::alloc::Global;
use vs_types::{CALLS, Depth, Fail, LOG_PLACES};
use vs_walk::Dump;

/// What the bytes begin with.
fn magic_of(form: &Form) -> [u8; 4]
    ensures { result ≡ magic_of form.now }
{
    match form {
        Form::Trace => *b"NRVT",
        Form::Segment(_) => *b"NRVS",
    }
}

pub(crate) fn take_magic(alloc: Global, form: Form, unit: &[u8]) -> Result<Reader, Fail<Refusal>>
    requires { length unit.now ≡ 4 }
    ensures { Takes (Reader.Magic alloc form) unit.now result }
{
    let wanted = magic_of(&form);
    if unit == wanted.as_slice() {
        Ok(Reader::Version(alloc, form))
    } else {
        Err(Fail::Refused(Refusal::of(Format::BadMagic, TraceUnit::Magic, unit)))
    }
}

/// The version of this number in what has the form.
fn version_of(form: &Form, code: u16) -> Option<Version>
    ensures { Finds (λ version. IsVersionOf form.now version × (code ≡ version_code version))
        result }
{
    match form {
        Form::Trace => match code {
            1 => Some(Version::V1),
            2 => Some(Version::V2),
            _ => None,
        },
        Form::Segment(_) => match code {
            1 => Some(Version::Segment),
            _ => None,
        },
    }
}

pub(crate) fn take_version(alloc: Global, form: Form, unit: &[u8]) -> Result<Reader, Fail<Refusal>>
    requires { length unit.now ≡ 2 }
    ensures { Takes (Reader.Version alloc form) unit.now result }
{
    let (code, _) = take_u16(unit);
    match version_of(&form, code) {
        Some(version) => Ok(Reader::Header(alloc, form, version)),
        None => Err(Fail::Refused(Refusal::of(Format::BadVersion, TraceUnit::Version, unit))),
    }
}

fn depth_of(count: u8) -> Option<Depth>
    ensures { Finds (λ depth. count ≡ levels depth) result }
{
    match count {
        4 => Some(Depth::Four),
        5 => Some(Depth::Five),
        _ => None,
    }
}

/// How many frames the start has, where the counts end so.
fn start_of(version: Version, rest: &[u8]) -> u32
    requires { 14 + length rest.now ≡ counts_bytes version }
    ensures spelled { rest.now ≡ start_count version result }
    ensures few { version ≡ Segment ⊎ (result ≡ 0) }
{
    match version {
        Version::V1 => 0,
        Version::V2 => 0,
        Version::Segment => {
            let (start, _) = take_u32(rest);
            start
        }
    }
}

/// What the bytes spell, if all of it is in range, and the version knows the depth.
pub(crate) fn counts_of(version: Version, unit: &[u8]) -> Option<Counts>
    requires { length unit.now ≡ counts_bytes version }
    ensures { Finds (SpellsCounts version unit.now) result }
{
    let (levels, rest) = take_u8(unit);
    let (replicas, rest) = take_u8(rest);
    let (threads, rest) = take_u16(rest);
    let (tables, rest) = take_u16(rest);
    let (places, rest) = take_u32(rest);
    let (events, rest) = take_u32(rest);
    let start = start_of(version, rest);
    if places > LOG_PLACES {
        return None;
    }
    if events > CALLS {
        return None;
    }
    if start > u32::from(version.most_start()) {
        return None;
    }
    let depth = depth_of(levels)?;
    if !version.knows_depth(depth) {
        return None;
    }
    let layout = TraceLayout::new(version, depth, replicas, threads, tables)?;
    Some(Counts {
        layout,
        places,
        events,
        start,
    })
}

/// The units after the counts: those of the start, where it has frames, and else those of the log.
fn at_start(parts: Parts, numbers: Counts) -> Reader
    requires in_range { AreInRange parts }
    requires empty { IsEmpty parts }
    requires numbers { IsCounts parts.version numbers }
    requires layout { numbers.layout ≡ parts.layout }
    ensures { HasRead parts.form (header_units numbers parts) (AtStart numbers.start
        (AtLog parts.version parts.layout 0 numbers.places numbers.events)) result }
{
    if numbers.start == 0 {
        at_log(parts, numbers.places, numbers.events)
    } else {
        Reader::Root(parts, numbers)
    }
}

/// The unit of the counts.
pub(crate) fn counts_unit(version: Version) -> TraceUnit
    ensures { result ≡ counts_unit version }
{
    match version {
        Version::V1 => TraceUnit::Counts,
        Version::V2 => TraceUnit::Counts,
        Version::Segment => TraceUnit::SegmentCounts,
    }
}

/// That the counts have this fault.
fn bad_counts(version: Version, fault: Format, unit: &[u8]) -> Refusal
    ensures { result ≡ refusal_at (counts_unit version) unit.now fault }
{
    Refusal::of(fault, counts_unit(version), unit)
}

pub(crate) fn take_header(
    alloc: Global,
    form: Form,
    version: Version,
    unit: &[u8],
) -> Result<Reader, Fail<Refusal>>
    requires ready { IsVersionOf form version }
    requires whole { length unit.now ≡ counts_bytes version }
    ensures { Takes (Reader.Header alloc form version) unit.now result }
{
    match counts_of(version, unit) {
        Some(counts) => {
            let layout = counts.layout;
            if !form.follows(&layout) {
                return Err(Fail::Refused(bad_counts(version, Format::BadChain, unit)));
            }
            let parts = Parts {
                alloc,
                form,
                version,
                layout,
                start: None,
                log: Vec::new(alloc),
                events: Vec::new(alloc),
                dumps: Vec::new(alloc),
            };
            Ok(at_start(parts, counts))
        }
        None => Err(Fail::Refused(bad_counts(version, Format::BadCount, unit))),
    }
}

pub(crate) fn take_root(parts: Parts, numbers: Counts, unit: &[u8]) -> Result<Reader, Fail<Refusal>>
    requires ready { IsReady (Reader.Root parts numbers) }
    requires whole { length unit.now ≡ 8 }
    ensures { Takes (Reader.Root parts numbers) unit.now result }
{
    let (root, _) = take_u64(unit);
    let dump = Dump::new(parts.alloc, 0, root);
    let opened = Opened {
        dump,
        left: numbers.start,
        owner: Owner::Start(numbers.places, numbers.events),
    };
    Ok(Reader::Frame(parts, opened, None))
}
