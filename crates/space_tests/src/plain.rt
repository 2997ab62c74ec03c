//! Plain spaces of many pages and tables.

use std::process::Abort;
use vs_plain::PlainSpace;
use vs_types::{Access, Answer, Depth, Mode, Op, Page, Rights, Size};

/// Maps a page with all rights; where memory is refused, at a second try, before which the space must be unchanged.
fn map(rt: &impl Abort, space: &mut PlainSpace, base: u64, size: Size, phys: u64) {
    let made = Op::map(space.depth(), base, size, phys, Rights::ALL);
    let op = made.expect(rt, "a well-formed operation");
    assert!(rt; op.fits(space.depth()));
    let before = (space.tables(), space.resolve(base));
    let answer = match space.apply(op) {
        Ok(answer) => answer,
        Err(_) => {
            assert!(rt; (space.tables(), space.resolve(base)) == before);
            assert!(rt; op.fits(space.depth()));
            space.apply(op).expect(rt, "memory")
        }
    };
    assert!(rt; answer == Answer::Done);
}

fn pages(rt: &impl Abort, space: &PlainSpace) -> Vec<Page> {
    match space.pages() {
        Ok(pages) => pages,
        Err(_) => space.pages().expect(rt, "memory"),
    }
}

/// As many tables as there can be, but for a few: one for each of 65,400 stretches of 2 MiB, and 128 of the next level.
fn use_many(rt: &impl Abort, space: &mut PlainSpace, tables: usize) {
    assert!(rt; space.tables() == 1);
    for place in 0..65_400u64 {
        map(rt, space, place << 21, Size::K4, 0x1000);
    }
    assert!(rt; space.tables() == tables);
    let last = 65_399 << 21;
    let mapped = Answer::Mapped(0x1FFF, Size::K4, Rights::ALL);
    assert!(rt; space.resolve(last + 4095) == mapped);
    assert!(rt; space.access(last + 4096, Mode::User, Access::Write) == Answer::Fault(6));
    let pages = pages(rt, space);
    assert!(rt; pages.len() == 65_400);
    assert!(rt; pages[65_399].base == last);
}

#[test]
fn pages_of_many_tables(rt: HostRuntime) {
    use_many(
        &rt,
        &mut PlainSpace::new(rt.alloc(), 65_535, Depth::Four),
        65_530,
    );
    use_many(
        &rt,
        &mut PlainSpace::new(rt.alloc(), 65_535, Depth::Five),
        65_531,
    );
}

/// The pages by rising base, however they were mapped: in a list, and one after another.
fn use_rising(rt: &impl Abort, space: &mut PlainSpace, depth: Depth) {
    assert!(rt; space.depth() == depth && space.iter().next().is_none());
    for place in 0..100u64 {
        let base = (99 - place) << 21;
        map(rt, space, base, Size::M2, base);
    }
    let listed = pages(rt, space);
    let mut each = space.iter();
    assert!(rt; each.size_hint() == (100, Some(100)));
    for place in 0..100u64 {
        let page = Some(Page {
            base: place << 21,
            phys: place << 21,
            size: Size::M2,
            rights: Rights::ALL,
        });
        assert!(rt; each.next() == page && listed.get(place as usize).copied() == page);
    }
    assert!(rt; each.next().is_none() && each.size_hint() == (0, Some(0)));
}

#[test]
fn pages_by_rising_base(rt: HostRuntime) {
    use_rising(
        &rt,
        &mut PlainSpace::new(rt.alloc(), 4096, Depth::Four),
        Depth::Four,
    );
    use_rising(
        &rt,
        &mut PlainSpace::new(rt.alloc(), 4096, Depth::Five),
        Depth::Five,
    );
}
