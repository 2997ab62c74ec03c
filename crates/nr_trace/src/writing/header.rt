//! The units before the log.

ghost use Rattle.std.specs.Prelude.{◌≡◌, ◌++◌, OnOk};
ghost use Rattle.nr_trace.specs.Spelling.{counts, counts_front, magic, start_count, version_word};

use crate::formats::fields::Counts;
use crate::formats::version::Version;
use crate::writing::numbers::{put_u16, put_u32};
use vs_types::Memory;

/// The 14 bytes of the counts that each version has.
fn counts_front(numbers: Counts) -> [u8; 14]
    ensures { result ≡ counts_front numbers }
{
    let layout = numbers.layout;
    let [h0, h1] = layout.threads().to_be_bytes();
    let [t0, t1] = layout.tables().to_be_bytes();
    let [p0, p1, p2, p3] = numbers.places.to_be_bytes();
    let [e0, e1, e2, e3] = numbers.events.to_be_bytes();
    let (levels, replicas) = (layout.depth().levels(), layout.replicas());
    [
        levels, replicas, h0, h1, t0, t1, p0, p1, p2, p3, e0, e1, e2, e3,
    ]
}

fn put_magic(out: &mut Vec<u8>, version: Version) -> Result<(), Memory>
    ensures { OnOk result (out.new.items ≡ out.old.items ++ magic version) }
{
    match version {
        Version::Segment => out.extend_from_slice(b"NRVS")?,
        _ => out.extend_from_slice(b"NRVT")?,
    }
    Ok(())
}

/// How many frames the start has, of a segment.
fn put_start_count(out: &mut Vec<u8>, version: Version, start: u32) -> Result<(), Memory>
    ensures { OnOk result (out.new.items ≡ out.old.items ++ start_count version start) }
{
    match version {
        Version::Segment => put_u32(out, start)?,
        _ => {}
    }
    Ok(())
}

/// The magic, the version and the counts.
pub(crate) fn put_header(out: &mut Vec<u8>, version: Version, numbers: Counts) -> Result<(), Memory>
    ensures { OnOk result
        (out.new.items
        ≡ out.old.items ++ (magic version ++ version_word version ++ counts version numbers)) }
{
    let start = numbers.start;
    put_magic(out, version)?;
    put_u16(out, version.code())?;
    out.extend_from_slice(&counts_front(numbers))?;
    put_start_count(out, version, start)?;
    Ok(())
}
