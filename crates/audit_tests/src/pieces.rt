//! Traces that are read in pieces.
ghost use Rattle.std.specs.Prelude.{◌<◌};

use crate::bytes::map_then_resolve;
use crate::trace::is_spelled;
use nr_trace::{Feed, Format};
use std::alloc::Global;
use std::process::Abort;

/// Whether the bytes, which spell a trace, spell it in pieces of this length too.
pub fn is_read_in_pieces(rt: &impl Abort, alloc: Global, bytes: &[u8], len: usize) -> bool
    requires { 0 < len }
{
    let mut feed = Feed::new(alloc);
    for piece in bytes.chunks(len) {
        feed.feed(piece).expect(rt, "a piece of a trace");
    }
    let trace = feed.end().expect(rt, "a trace");
    is_spelled(rt, alloc, &trace, bytes)
}

#[test]
fn pieces_of_every_kind_give_one_trace(rt: HostRuntime) {
    let alloc = rt.alloc();
    let bytes = map_then_resolve(&rt, alloc);
    for len in [1, 7, 4095, 4096] {
        assert!(rt; len > 0);
        assert!(rt; is_read_in_pieces(&rt, alloc, &bytes, len), "{len}");
    }
}

/// A piece, or the bytes of a whole trace; and what is answered.
type Piece = (Option<&'static [u8]>, Result<(), vs_types::Fail<Format>>);

const MAGIC: vs_types::Fail<Format> = vs_types::Fail::Refused(Format::BadMagic);

const TRAILING: vs_types::Fail<Format> = vs_types::Fail::Refused(Format::Trailing);

/// A fault is reported again.
static OTHER_MAGIC: [Piece; 3] = [
    (Some(b"NRV"), Ok(())),
    (Some(b"X"), Err(MAGIC)),
    (None, Err(MAGIC)),
];

/// A byte after the trace is reported at once.
static BYTE_BEHIND: [Piece; 2] = [(None, Ok(())), (Some(&[0]), Err(TRAILING))];

/// The pieces one after another, and then the end, which answers this.
fn feed_all(rt: &impl Abort, alloc: Global, pieces: &[Piece], end: vs_types::Fail<Format>) {
    let whole = map_then_resolve(rt, alloc);
    let mut feed = Feed::new(alloc);
    for (piece, told) in pieces {
        let bytes = match piece {
            Some(bytes) => *bytes,
            None => whole.as_slice(),
        };
        assert!(rt; feed.feed(bytes) == *told);
    }
    assert!(rt; feed.end().err() == Some(end));
}

#[test]
fn faults_are_told_from_then_on(rt: HostRuntime) {
    feed_all(&rt, rt.alloc(), &OTHER_MAGIC, MAGIC);
    feed_all(&rt, rt.alloc(), &BYTE_BEHIND, TRAILING);
}
