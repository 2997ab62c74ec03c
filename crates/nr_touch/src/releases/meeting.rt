//! A release beside one page: whether an access that begins with it could reach its memory there.

ghost use Rattle.std.specs.Prelude.{◌≡◌, ℕ, ◌↔◌, ◌+◌, ◌*◌, ◌%◌, ◌<◌, ◌≤◌, ◌^◌, IfSome, IsTrue, Option};
ghost use Rattle.vs_types.specs.Page.{bytes_of};
ghost use Rattle.nr_trace.specs.Recording.{IsMemory};
ghost use Rattle.nr_touch.specs.Releases.{HasPhys};
ghost use Rattle.nr_touch.specs.inside.Alike.{AreAlike, AreAlikeTo};
ghost use Rattle.nr_touch.specs.inside.Joined.{Behind, IsBuilt};
ghost use Rattle.nr_touch.specs.inside.Reached.{probe_at, FindsFrame, IsMetAt, IsRoomy, LeadsSo, LeadsThere};
ghost use Rattle.nr_touch.specs.inside.Levels.{left_in, IsLadder};
ghost use Rattle.nr_touch.specs.inside.Overs.{IsSettled};

use crate::changes::history::History;
use crate::releases::release::Release;
use crate::touches::excuse::is_right_behind;
use crate::touches::joined::Joined;
use crate::touches::touch::Touch;
use vs_types::{Access, Answer, Mode, Page};

/// The number of an event has 32 bits.
pub(crate) fn event_fits(event: u32)
    ensures { event < 2 ^ 32 }
{}

/// The touch that is made and answered at an event, and finds this physical address at that one.
fn probe(event: u32, address: u64, phys: u64) -> Touch
    ensures { result ≡ probe_at event address phys }
{
    Touch {
        made: event,
        answered: event,
        known: 0,
        address,
        mode: Mode::Supervisor,
        access: Access::Read,
        answer: Answer::Allowed(phys),
    }
}

/// Whether the memory of the release has the physical address.
fn is_in(release: &Release, phys: u64) -> bool
    ensures { IsTrue result ↔ HasPhys release.now phys }
{
    if phys < release.phys {
        return false;
    }
    let offset = phys - release.phys;
    offset < release.size.bytes()
}

/// Whether what lies so far behind the base of the page has memory of the release, and an access that begins with the release could
/// find it there.
fn is_met(joined: &Joined, release: &Release, page: Page, offset: u64) -> bool
    requires built { IsBuilt joined.now }
    requires base { page.base + offset < 2 ^ 64 }
    requires frame { page.phys + offset < 2 ^ 64 }
    ensures { (b : Behind joined.now) → IsTrue result ↔ IsMetAt b release.now page offset }
{
    let address = page.base + offset;
    let phys = page.phys + offset;
    if !is_in(release, phys) {
        return false;
    }
    let touch = probe(release.made, address, phys);
    is_right_behind(joined, &touch)
}

/// The frame of the page below which none has memory of the release.
fn first_frame(release: &Release, page: Page) -> u64
    requires page { IsRoomy page }
    requires memory { IsMemory release.now.size release.now.phys }
    ensures least { (frame : ℕ) → HasPhys release.now (page.phys + frame * 4096) → result ≤ frame }
    ensures has { release.now.phys ≤ page.phys + result * 4096 }
{
    if release.phys <= page.phys {
        return 0;
    }
    (release.phys - page.phys) / 4096
}

/// The frame of the page from which on none has memory of the release.
fn end_frame(release: &Release, page: Page) -> u64
    requires { IsMemory release.now.size release.now.phys }
    ensures behind { (frame : ℕ) → frame * 4096 < bytes_of page.size
        → HasPhys release.now (page.phys + frame * 4096) → frame < result }
    ensures within { (frame : ℕ) → frame < result → frame * 4096 < bytes_of page.size }
{
    let until = release.phys + release.size.bytes();
    if until <= page.phys {
        return 0;
    }
    let shared = (until - page.phys - 1) / 4096 + 1;
    let frames = page.size.bytes() / 4096;
    shared.min(frames)
}

/// An address from the first of a frame on, up to which each has the same changes of these levels as that.
fn alike_in(levels: &[History], address: u64) -> u64
    requires ladder { IsLadder levels.now }
    requires frame { address % 4096 ≡ 0 }
    requires in_range { address + 4096 ≤ 2 ^ 64 }
    ensures { AreAlikeTo (left_in levels.now) address result }
{
    let mut last = u64::MAX;
    for level in levels {
        last = last.min(level.alike_until(address));
    }
    last
}

/// An address from the first of a frame on, up to which each has the same changes of earlier segments as that.
fn alike_left(joined: &Joined, address: u64) -> u64
    requires built { IsBuilt joined.now }
    requires frame { address % 4096 ≡ 0 }
    requires in_range { address + 4096 ≤ 2 ^ 64 }
    ensures { AreAlikeTo (left_in joined.now.earlier.items) address result }
{
    alike_in(&joined.earlier, address)
}

/// A frame behind this one of the page, up to which each has the same changes as this one. At most four searches by halving, and four in
/// each level of what was left.
fn next_frame(joined: &Joined, page: Page, frame: u64) -> u64
    requires built { IsBuilt joined.now }
    requires page { IsRoomy page }
    requires within { frame * 4096 < bytes_of page.size }
    ensures up { frame < result }
    ensures own { (next : ℕ) → frame ≤ next → next < result
        → AreAlike joined.now.history.changes.items (page.base + frame * 4096)
        (page.base + next * 4096) }
    ensures earlier { (next : ℕ) → frame ≤ next → next < result
        → AreAlike (left_in joined.now.earlier.items) (page.base + frame * 4096)
        (page.base + next * 4096) }
{
    let address = page.base + frame * 4096;
    let own = joined.history.alike_until(address);
    let left = alike_left(joined, address);
    let last = own.min(left);
    (last - page.base) / 4096 + 1
}

/// The first frame of the page in which an access that begins with the release could reach its memory, or `None`. It is compared in a
/// frame of each stretch between pages that changes are of, up to that frame.
pub(crate) fn frame_there(joined: &Joined, release: &Release, page: Page) -> Option<u64>
    requires built { IsBuilt joined.now }
    requires page { IsRoomy page }
    requires memory { IsMemory release.now.size release.now.phys }
    ensures finds { (b : Behind joined.now) → FindsFrame b release.now page result }
    ensures within { IfSome result (λ frame. frame * 4096 < bytes_of page.size) }
{
    event_fits(release.made);
    let mut frame = first_frame(release, page);
    let end = end_frame(release, page);
    while frame < end {
        let offset = frame * 4096;
        if is_met(joined, release, page, offset) {
            return Some(frame);
        }
        frame = next_frame(joined, page, frame);
    }
    None
}

/// Whether an access that begins with the release could reach its memory through the page.
pub(crate) fn leads_there(joined: &Joined, release: &Release, page: Page) -> bool
    requires built { IsBuilt joined.now }
    requires page { IsRoomy page }
    requires memory { IsMemory release.now.size release.now.phys }
    ensures sound { (b : Behind joined.now) → IsTrue result → LeadsThere b release.now page }
    ensures whole { (b : Behind joined.now) → LeadsSo b release.now page → IsTrue result }
{
    match frame_there(joined, release, page) {
        Some(_) => true,
        None => false,
    }
}

/// The address of a frame of the page.
pub(crate) fn frame_address(page: Page, frame: u64) -> u64
    requires page { IsRoomy page }
    requires within { frame * 4096 < bytes_of page.size }
    ensures { result ≡ page.base + frame * 4096 }
{
    let offset = frame * 4096;
    page.base + offset
}

/// Whether each change before the place was made by the release, of the addresses at which the page has its memory. It is compared in a
/// frame of each stretch between pages that changes are of.
pub(crate) fn is_settled(joined: &Joined, release: &Release, page: Page, place: u32) -> bool
    requires built { IsBuilt joined.now }
    requires page { IsRoomy page }
    requires memory { IsMemory release.now.size release.now.phys }
    ensures { IsTrue result → IsSettled joined.now.history.changes.items release.now page place }
{
    let made = release.made;
    let mut next = first_frame(release, page);
    let end = end_frame(release, page);
    while next < end {
        let address = frame_address(page, next);
        if joined.history.last_allowed(address, made, place) < place {
            return false;
        }
        next = next_frame(joined, page, next);
    }
    true
}
