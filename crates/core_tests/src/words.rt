//! The words of requests, both ways.

use std::alloc::Global;
use std::process::Abort;
use vs_text::{parse_address, parse_request, parse_rights, push_address, push_page, request_text};
use vs_types::{Access, BadOp, Depth, Mode, Op, Request, Rights, Size};

fn update(op: Result<Op, BadOp>) -> Option<Request> {
    op.ok().map(Request::update)
}

/// Asserts that the words are this request at four levels, and that it is written so.
fn is_both_ways(
    rt: &impl Abort,
    alloc: Global,
    words: &[&[u8]],
    request: Option<Request>,
    text: &str,
) {
    let request = request.expect(rt, "it is well formed");
    assert!(rt;
        parse_request(Depth::Four, words) == Some(request),
        "{text}"
    );
    let written = request_text(alloc, request).expect(rt, "memory");
    assert_eq!(rt; written.as_str(), text);
}

/// Addresses have one to sixteen digits of either case, behind `0x`.
static ADDRESSES: [(&[u8], Option<u64>); 10] = [
    (b"0x0", Some(0)),
    (b"0x400aBc", Some(4_197_052)),
    (b"0x0000000000000001", Some(1)),
    (b"0xffffffffffffffff", Some(18_446_744_073_709_551_615)),
    (b"0x10000000000000000", None),
    (b"0x", None),
    (b"0X1", None),
    (b"0x+1", None),
    (b"0x1g", None),
    (b"400000", None),
];

#[test]
fn addresses_have_one_to_sixteen_digits_of_either_case(rt: HostRuntime) {
    for (word, address) in &ADDRESSES {
        assert_eq!(rt; parse_address(*word), *address, "{word:?}");
    }
}

#[test]
fn addresses_and_pages_are_added_to_a_text(rt: HostRuntime) {
    let mut text = String::new(rt.alloc());
    push_address(&mut text, 18_446_744_073_709_551_615).expect(&rt, "memory");
    push_address(&mut text, 0).expect(&rt, "memory");
    let rights = Rights {
        write: true,
        user: false,
        exec: true,
    };
    push_page(&mut text, 2_097_152, Size::M2, rights).expect(&rt, "memory");
    assert_eq!(rt; text.as_str(), "0xffffffffffffffff0x00x200000 2M w-x");
}

/// Rights have three letters in one order.
static RIGHTS: [(&[u8], Option<Rights>); 5] = [
    (b"wux", Some(Rights::ALL)),
    (b"---", Some(Rights::NONE)),
    (b"uwx", None),
    (b"wu", None),
    (b"WUX", None),
];

#[test]
fn rights_have_three_letters_in_one_order(rt: HostRuntime) {
    for (word, rights) in &RIGHTS {
        assert!(rt; parse_rights(*word) == *rights, "{word:?}");
    }
}

const FOUR: Depth = Depth::Four;

#[test]
fn each_update_is_read_as_it_is_written(rt: HostRuntime) {
    let alloc = rt.alloc();
    let words: &[&[u8]] = &[b"map", b"4K", b"0x400000", b"0x1000", b"wux"];
    let map = update(Op::map(FOUR, 0x40_0000, Size::K4, 0x1000, Rights::ALL));
    is_both_ways(&rt, alloc, words, map, "map 4K 0x400000 0x1000 wux");
    let words: &[&[u8]] = &[b"unmap", b"0xffffffffc0000000"];
    let unmap = update(Op::unmap(FOUR, 0xffff_ffff_c000_0000));
    is_both_ways(&rt, alloc, words, unmap, "unmap 0xffffffffc0000000");
    let user = Rights {
        user: true,
        ..Rights::NONE
    };
    let words: &[&[u8]] = &[b"protect", b"0xabc000", b"-u-"];
    let protect = update(Op::protect(FOUR, 0xab_c000, user));
    is_both_ways(&rt, alloc, words, protect, "protect 0xabc000 -u-");
}

#[test]
fn each_read_is_read_as_it_is_written(rt: HostRuntime) {
    let alloc = rt.alloc();
    let words: &[&[u8]] = &[b"resolve", b"0x400123"];
    let resolve = Request::resolve(FOUR, 0x40_0123).ok();
    is_both_ways(&rt, alloc, words, resolve, "resolve 0x400123");
    let words: &[&[u8]] = &[b"access", b"s", b"x", b"0xb"];
    let access = Request::access(FOUR, 0xb, Mode::Supervisor, Access::Fetch).ok();
    is_both_ways(&rt, alloc, words, access, "access s x 0xb");
}

/// No word, one too few or too many, another case, another order, an address that is not canonical, and one that is not aligned.
static OTHER_FORMS: [&[&[u8]]; 7] = [
    &[],
    &[b"resolve"],
    &[b"resolve", b"0x0", b"0x0"],
    &[b"Resolve", b"0x0"],
    &[b"access", b"r", b"s", b"0x0"],
    &[b"resolve", b"0x800000000000"],
    &[b"map", b"2M", b"0x1000", b"0x0", b"wux"],
];

#[test]
fn words_of_another_form_are_no_request(rt: HostRuntime) {
    for words in &OTHER_FORMS {
        assert!(rt; parse_request(FOUR, *words).is_none(), "{words:?}");
    }
    let words: &[&[u8]] = &[b"resolve", b"0x800000000000"];
    assert!(rt; parse_request(Depth::Five, words).is_some());
}
