//! The numbers of entries, nearest to those that a call had, after which the space gives an answer.

ghost use Rattle.std.specs.Prelude.{◌≡◌, IfOk};
ghost use Rattle.vs_types.specs.Query.{IsQuery};
ghost use Rattle.nr_audit.specs.Verdict.{space_of};
ghost use Rattle.nr_explain.specs.Nearest.{IsNearest};
ghost use Rattle.nr_explain.specs.inside.Nearest.{begun, first_with, last_with, prolonged, tried};

use crate::calls::places::places;
use crate::search::asking::is_told;
use crate::search::spaces::apply_place;
use crate::trace::nearby::{RightAfter, Stretch};
use nr_trace::Trace;
use vs_plain::PlainSpace;
use vs_types::{Answer, Memory, Request};

/// The last stretch with a number behind it.
fn prolonged(last: Option<Stretch>, entries: u32) -> Stretch
    ensures { result ≡ prolonged last entries }
{
    if let Some(stretch) = last {
        if u64::from(stretch.last) + 1 == u64::from(entries) {
            return Stretch {
                first: stretch.first,
                last: entries,
            };
        }
    }
    Stretch {
        first: entries,
        last: entries,
    }
}

/// The first stretch with a number behind it, where that goes on it.
fn begun(first: Option<Stretch>, entries: u32) -> Stretch
    ensures { result ≡ begun first entries }
{
    match first {
        None => Stretch {
            first: entries,
            last: entries,
        },
        Some(stretch) => {
            if u64::from(stretch.last) + 1 == u64::from(entries) {
                Stretch {
                    first: stretch.first,
                    last: entries,
                }
            } else {
                stretch
            }
        }
    }
}

/// The last stretch below a number with one more, after which the answer is right or is not.
fn last_with(last: Option<Stretch>, below: u32, entries: u32, is: bool) -> Option<Stretch>
    ensures { result ≡ last_with last below entries is }
{
    if is && entries < below {
        Some(prolonged(last, entries))
    } else {
        last
    }
}

/// The first stretch above a number and not below another with one more, after which the answer is right or is not.
fn first_with(
    first: Option<Stretch>,
    below: u32,
    above: u32,
    entries: u32,
    is: bool,
) -> Option<Stretch>
    ensures { result ≡ first_with first below above entries is }
{
    if is && above < entries && below <= entries {
        Some(begun(first, entries))
    } else {
        first
    }
}

/// What is found with a number of entries more, after which the answer is right or is not.
fn tried(right: RightAfter, below: u32, above: u32, entries: u32, is: bool) -> RightAfter
    ensures { result ≡ tried right below above entries is }
{
    RightAfter {
        before: last_with(right.before, below, entries, is),
        behind: first_with(right.behind, below, above, entries, is),
        places: right.places,
    }
}

/// After how many entries the space answers a request so, from this space on: nearest below a number, and nearest above another and not
/// below the first. Allocates memory for the space.
///
/// # Errors
///
/// `Memory` where a growth of memory was refused.
pub fn nearest(
    trace: &Trace,
    start: PlainSpace,
    request: Request,
    told: Answer,
    below: u32,
    above: u32,
) -> Result<RightAfter, Memory>
    requires start { start ≡ space_of trace.now.layout start.space }
    requires fits { IsQuery trace.now.layout.depth request }
    ensures { IfOk result (IsNearest start.space trace.now request told below above) }
{
    let places = places(trace);
    let none = RightAfter {
        before: None,
        behind: None,
        places,
    };
    let mut space = start;
    let at_first = is_told(&mut space, request, told)?;
    let mut right = tried(none, below, above, 0, at_first);
    for place in 0..places {
        apply_place(trace, &mut space, place)?;
        let then = is_told(&mut space, request, told)?;
        right = tried(right, below, above, place + 1, then);
    }
    Ok(right)
}
