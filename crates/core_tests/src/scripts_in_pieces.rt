//! A script that comes in pieces: its lines are those of the whole text, wherever it is cut.

use nr_script::{Fed, Line, LineFeed};
use std::alloc::Global;
use std::process::Abort;
use vs_types::{Depth, Request};

const TEXT: &[u8] =
    b"# a page\n0 resolve 0x1000\n\n1 resolve 0x2000\n0  resolve 0x0\n63 resolve 0xA";

/// What the lines of a piece say, behind those before it.
fn take_piece(rt: &impl Abort, feed: &mut LineFeed, piece: &[u8], lines: &mut Vec<Option<Line>>) {
    let mut rest = piece;
    while !rest.is_empty() {
        match feed.feed(Depth::Four, rest).expect(rt, "memory") {
            Fed::More => return,
            Fed::Ended(count, said) => {
                lines.push(said).expect(rt, "memory");
                rest = &rest[count..];
            }
        }
    }
}

/// What the lines of a text say that is cut at two places.
fn lines_of(
    rt: &impl Abort,
    alloc: Global,
    text: &[u8],
    first: usize,
    second: usize,
) -> Vec<Option<Line>> {
    let mut feed = LineFeed::new(alloc);
    let mut lines = Vec::new(alloc);
    let first = first.min(text.len());
    let second = second.max(first).min(text.len());
    take_piece(rt, &mut feed, &text[..first], &mut lines);
    take_piece(rt, &mut feed, &text[first..second], &mut lines);
    take_piece(rt, &mut feed, &text[second..], &mut lines);
    lines.push(feed.end(Depth::Four)).expect(rt, "memory");
    lines
}

fn resolve(address: u64) -> Option<Request> {
    Request::resolve(Depth::Four, address).ok()
}

/// What a line asks of a thread, if it does.
fn asked(lines: &[Option<Line>], index: usize) -> Option<(u16, Request)> {
    match lines.get(index) {
        Some(Some(Line::Request(thread, request))) => Some((*thread, *request)),
        _ => None,
    }
}

#[test]
fn lines_wherever_it_is_cut(rt: HostRuntime) {
    for first in 0..TEXT.len() {
        for second in first..TEXT.len() {
            let lines = lines_of(&rt, rt.alloc(), TEXT, first, second);
            assert_eq!(rt; lines.len(), 6);
            assert_eq!(rt; lines[0], Some(Line::PassedOver));
            assert_eq!(rt;
                asked(&lines, 1),
                resolve(0x1000).map(|request| (0, request))
            );
            assert_eq!(rt; lines[2], Some(Line::PassedOver));
            assert_eq!(rt;
                asked(&lines, 3),
                resolve(0x2000).map(|request| (1, request))
            );
            assert_eq!(rt; lines[4], None);
            assert_eq!(rt; asked(&lines, 5), resolve(0xA).map(|request| (63, request)));
        }
    }
}

#[test]
fn nothing_is_one_empty_line(rt: HostRuntime) {
    let lines = lines_of(&rt, rt.alloc(), b"", 0, 0);
    assert_eq!(rt; lines.len(), 1);
    assert_eq!(rt; lines[0], Some(Line::PassedOver));
}

#[test]
fn text_that_ends_a_line(rt: HostRuntime) {
    let lines = lines_of(&rt, rt.alloc(), b"step 0 call\n", 3, 12);
    assert_eq!(rt; lines.len(), 2);
    assert!(rt; matches!(lines[0], Some(Line::Step(_))));
    assert_eq!(rt; lines[1], Some(Line::PassedOver));
}
