//! A script of any length that is read in portions: each thread's requests come in order, and a bad line is named.
ghost use Rattle.std.specs.Prelude.{◌≤◌};

use nr_script::{BadLine, PortionFeed};
use std::alloc::Global;
use vs_types::{Depth, Fail, Request};

const TEXT: &[u8] =
    b"0 resolve 0x1000\n# none\n1 resolve 0x2000\n0 resolve 0x3000\n63 resolve 0xA\n";

/// The portions of a text, of at most so many requests.
fn portions_of(
    alloc: Global,
    text: &[u8],
    most: usize,
) -> Result<Vec<Vec<Vec<Request>>>, Fail<BadLine>>
    requires { 1 ≤ most }
{
    let mut portion = PortionFeed::new(alloc, Depth::Four)?;
    let mut portions = Vec::new(alloc);
    let mut rest = text;
    while !rest.is_empty() {
        let count = portion.feed(rest, most)?;
        rest = &rest[count..];
        if portion.asked() < most {
            continue;
        }
        portions.push(portion.hand_out(alloc)?)?;
    }
    portions.push(portion.end()?)?;
    Ok(portions)
}

/// What a thread asks in a portion.
fn asked(portions: &[Vec<Vec<Request>>], portion: usize, thread: usize) -> &[Request] {
    match portions.get(portion) {
        Some(lists) => match lists.get(thread) {
            Some(list) => list.as_slice(),
            None => &[],
        },
        None => &[],
    }
}

fn resolve(address: u64) -> Option<Request> {
    Request::resolve(Depth::Four, address).ok()
}

#[test]
fn portions_of_three(rt: HostRuntime) {
    let portions = portions_of(rt.alloc(), TEXT, 3).expect(&rt, "a script");
    assert_eq!(rt; portions.len(), 2);
    assert_eq!(rt; asked(&portions, 0, 0).len(), 2);
    assert_eq!(rt; asked(&portions, 0, 0).first().copied(), resolve(0x1000));
    assert_eq!(rt; asked(&portions, 0, 0).last().copied(), resolve(0x3000));
    assert_eq!(rt; asked(&portions, 0, 1).first().copied(), resolve(0x2000));
    assert_eq!(rt; asked(&portions, 1, 63).first().copied(), resolve(0xA));
    assert_eq!(rt; asked(&portions, 1, 0).len(), 0);
}

#[test]
fn step_is_a_bad_line(rt: HostRuntime) {
    let text = b"0 resolve 0x1000\n\nstep 0 call\n";
    let portions = portions_of(rt.alloc(), text, 1);
    assert!(rt; matches!(portions, Err(Fail::Refused(BadLine(3)))));
}

#[test]
fn last_line_has_no_form(rt: HostRuntime) {
    let portions = portions_of(rt.alloc(), b"0 resolve 0x1000\n64 resolve 0x0", 2);
    assert!(rt; matches!(portions, Err(Fail::Refused(BadLine(2)))));
}
