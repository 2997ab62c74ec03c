//! The releases of a segment.

ghost use Rattle.std.specs.Prelude.{◌≡◌, ◌↔◌, ◌+◌, ◌^◌, ◌<◌, IfOk, IsTrue, OnOk, length};
ghost use Rattle.std.specs.Prelude.{option_and_then, option_map, slice_get};
ghost use Rattle.nr_touch.specs.Releases.{AreMemory};
ghost use Rattle.nr_audit.specs.Releases.{IsDoneOrOpen};
ghost use Rattle.nr_audit.specs.inside.Begun.{release_by, AreReleasesBelow, IsReleaseAt};

use crate::checks::answers::agrees;
use crate::histories::history::History;
use crate::histories::last_events::answer_at;
use nr_touch::Release;
use nr_trace::{Asked, Event, Trace};
use std::alloc::Global;
use vs_types::{Answer, Memory};

/// Whether a call is answered by `Done`, or not at all.
fn is_done(segment: &Trace, history: &History, call: u32) -> bool
    requires { history.now ≡ segment.now }
    ensures { IsTrue result ↔ IsDoneOrOpen segment.now call }
{
    match history.reply(call) {
        Some(reply) => agrees(answer_at(segment, reply), Answer::Done),
        None => true,
    }
}

/// The release that an event is, if it is one; it is answered by `Done`, or not at all, or it isn't.
fn release_at(segment: &Trace, made: u32, is_done: bool) -> Option<Release>
    ensures { result ≡ release_by made is_done (slice_get segment.now.events made) }
{
    match segment.events().get(made as usize)?.event() {
        Event::Call {
            asked: Asked::Release(size, phys),
            ..
        } => Some(Release {
            made,
            size,
            phys,
            is_done,
        }),
        _ => None,
    }
}

/// The release that is made at an event, if it is one.
fn recorded_release(segment: &Trace, history: &History, made: usize) -> Option<Release>
    requires same { history.now ≡ segment.now }
    requires few { made < 2 ^ 32 }
    ensures { IsReleaseAt segment.now made result }
{
    let done = is_done(segment, history, made as u32);
    release_at(segment, made as u32, done)
}

/// Adds the release that is made at an event, if it is one. It allocates memory for it.
fn push_release(
    segment: &Trace,
    history: &History,
    made: usize,
    releases: &mut Vec<Release>,
) -> Result<(), Memory>
    requires same { history.now ≡ segment.now }
    requires few { made < 2 ^ 32 }
    ensures { AreReleasesBelow segment.now made releases.old.items
        → OnOk result (AreReleasesBelow segment.now (made + 1) releases.new.items) }
{
    match recorded_release(segment, history, made) {
        None => Ok(()),
        Some(release) => {
            releases.push(release)?;
            Ok(())
        }
    }
}

/// The releases of a segment, by call number. It allocates memory for them.
pub(crate) fn releases_of(
    alloc: Global,
    segment: &Trace,
    history: &History,
) -> Result<Vec<Release>, Memory>
    requires { history.now ≡ segment.now }
    ensures below { IfOk result (λ releases.
        AreReleasesBelow segment.now (length segment.now.events) releases.items) }
    ensures memory { IfOk result (λ releases. AreMemory releases.items) }
{
    let mut releases = Vec::new(alloc);
    for made in 0..segment.events().len() {
        push_release(segment, history, made, &mut releases)?;
    }
    Ok(releases)
}

/// The call number of the release of this index, if there is one.
pub(crate) fn release_number(releases: &[Release], index: Option<usize>) -> Option<u32>
    ensures { result ≡ option_map (λ release. release.made)
        (option_and_then (slice_get releases.now) index) }
{
    let release = releases.get(index?)?;
    Some(release.made)
}
