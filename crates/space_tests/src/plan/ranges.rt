//! Ranges of pages: what a range leaves in a memory is what the calls page by page leave in another.

ghost use Rattle.vs_range.specs.Planner.{AwaitsRange};

use crate::plan::carried::{TARGET, carried};
use crate::plan::memory::{FIRST, Memory};
use crate::plan::worked::{WRITE, page};
use std::process::Abort;
use vs_plan::{BadRequest, PlainWords, Plan, Reply, Request};
use vs_range::{Change, Forget, RangePlanner, RangeStep, Run};
use vs_types::{Answer, Rights, Size};

/// The most steps of one planner: one for each level and each new table, one more for the lowest table, and two.
const MOST_STEPS: usize = 13;

/// How many frames a memory has.
const FRAMES: u32 = 12;

/// The first page is 16 pages before the end of a table.
const BASE: u64 = 0x1F0000;

/// 40 pages of 4 KiB.
const BYTES: u64 = 40 * 0x1000;

/// What came of a planner.
#[derive(Drop)]
enum End {
    Run(Run),
    Harvest(Run),
    Plan(Plan),
    Absent(u64),
    Beyond(Size),
}

/// Goes on with the planner of a range to its end.
fn ended(rt: &impl Abort, memory: &mut Memory, mut range: RangePlanner) -> End
    requires { AwaitsRange range }
{
    let mut step = RangeStep::See(range.planner.number);
    for _ in 0..MOST_STEPS {
        match step {
            RangeStep::See(number) => {
                step = range.see(&mut PlainWords(memory.words(rt, number)));
            }
            RangeStep::Give => {
                step = range.give(memory.take());
            }
            RangeStep::Runs(run) => return End::Run(run),
            RangeStep::Harvests(run) => return End::Harvest(run),
            RangeStep::Planned(plan) => return End::Plan(plan),
            RangeStep::Absent(bytes) => return End::Absent(bytes),
            RangeStep::Beyond(size) => return End::Beyond(size),
        }
    }
    panic!(rt; "no end after the most steps")
}

/// A word with these rights.
fn allowed(word: u64, rights: Rights) -> u64 {
    let write = if rights.write { 2 } else { 0 };
    let user = if rights.user { 4 } else { 0 };
    let no_fetch = if rights.exec { 0 } else { 1 << 63 };
    (word & 0x7FFF_FFFF_FFFF_FFF9) | write | user | no_fetch
}

/// Carries a run out.
fn carry_out(rt: &impl Abort, memory: &mut Memory, run: Run) {
    for number in 0..run.count {
        let index = run.index.wrapping_add(number);
        let word = memory.word(rt, run.frame, index);
        let new = match run.change {
            Change::Write(first, step) => first.wrapping_add(step.wrapping_mul(number as u64)),
            Change::Clear => 0,
            Change::Allow(rights) => allowed(word, rights),
            Change::Unflag => word & !0x60,
        };
        memory.write(rt, run.frame, index, new);
    }
}

/// What is done to a range.
#[derive(Clone, Copy)]
enum Asked {
    Map(Rights),
    Unmap,
    Protect(Rights),
    Harvest,
}

/// The planner of what is asked, for so many bytes from a base on. A map leads each page to its own address.
fn planner(rt: &impl Abort, asked: Asked, base: u64, bytes: u64) -> RangePlanner
    ensures { AwaitsRange result }
{
    let made = match asked {
        Asked::Map(rights) => {
            RangePlanner::map_range(TARGET, page(base, Size::K4, base, rights), 0, bytes)
        }
        Asked::Unmap => RangePlanner::unmap_range(TARGET, base, bytes),
        Asked::Protect(rights) => RangePlanner::protect_range(TARGET, base, bytes, rights),
        Asked::Harvest => RangePlanner::harvest_range(TARGET, base, bytes),
    };
    match made {
        Ok(range) => range,
        Err(_) => panic!(rt; "a range that is refused"),
    }
}

/// Does what is asked to the whole range, planner by planner: how many runs there were, and how many plans of one page.
fn whole(rt: &impl Abort, memory: &mut Memory, asked: Asked) -> (u32, u32) {
    let mut done = 0u64;
    let mut runs = 0u32;
    let mut alone = 0u32;
    for _ in 0..64 {
        if done >= BYTES {
            break;
        }
        let range = planner(rt, asked, BASE.wrapping_add(done), BYTES.wrapping_sub(done));
        match ended(rt, memory, range) {
            End::Run(run) | End::Harvest(run) => {
                carry_out(rt, memory, run);
                runs = runs.wrapping_add(1);
                done = done.wrapping_add((run.count as u64).wrapping_mul(0x1000));
            }
            End::Plan(plan) => {
                memory.carry_out(rt, &plan);
                alone = alone.wrapping_add(1);
                done = done.wrapping_add(0x1000);
            }
            End::Absent(bytes) => done = done.wrapping_add(bytes),
            End::Beyond(_) => panic!(rt; "a page that is too large"),
        }
    }
    assert!(rt; done == BYTES);
    (runs, alone)
}

/// Does what is asked to the range page by page.
fn each_page(rt: &impl Abort, memory: &mut Memory, asked: Asked) {
    for number in 0..BYTES / 0x1000 {
        let base = BASE.wrapping_add(number.wrapping_mul(0x1000));
        let request = match asked {
            Asked::Map(rights) => Request::Map(page(base, Size::K4, base, rights), 0),
            Asked::Unmap => Request::Unmap(base),
            Asked::Protect(rights) => Request::Protect(base, rights),
            Asked::Harvest => Request::Ask(base),
        };
        let plan = carried(rt, memory, TARGET, request);
        assert!(rt; !plan.stores.as_slice().is_empty());
    }
}

/// Whether two memories have the same words.
fn are_same(rt: &impl Abort, memory: &Memory, other: &Memory) -> bool {
    for number in 0..u64::from(FRAMES) {
        for index in 0..512 {
            let word = memory.word(rt, FIRST + number, index);
            if word != other.word(rt, FIRST + number, index) {
                return false;
            }
        }
    }
    true
}

// 16 pages at the end of a table and 24 at the beginning of the next: two runs, and a page alone where a table is linked or unlinked.
#[test]
fn as_page_by_page(rt: HostRuntime) {
    let mut memory = Memory::new(&rt, rt.alloc(), FRAMES);
    let mut other = Memory::new(&rt, rt.alloc(), FRAMES);
    let rows = [
        (Asked::Map(WRITE), (2, 2)),
        (Asked::Protect(Rights::ALL), (2, 0)),
        (Asked::Unmap, (2, 2)),
    ];
    for (asked, counts) in rows {
        assert!(rt; whole(&rt, &mut memory, asked) == counts);
        each_page(&rt, &mut other, asked);
        assert!(rt; are_same(&rt, &memory, &other));
        assert!(rt; memory.free() == other.free());
    }
}

/// What came of a planner, where that is a plan.
fn reply(end: &End) -> Option<Reply> {
    match end {
        End::Plan(plan) => Some(plan.reply),
        _ => None,
    }
}

// A hole, a page that ends beyond the range, one that begins before it, and one that is in the way.
#[test]
fn refused_by_the_range(rt: HostRuntime) {
    let mut memory = Memory::new(&rt, rt.alloc(), FRAMES);
    let large = page(0x400000, Size::M2, 0x400000, Rights::ALL);
    let plan = carried(&rt, &mut memory, TARGET, Request::Map(large, 0));
    assert!(rt; plan.reply == Reply::Answer(Answer::Done));
    let hole = planner(&rt, Asked::Unmap, 0x201000, 0x200000);
    let end = ended(&rt, &mut memory, hole);
    assert!(rt; matches!(end, End::Absent(0x1FF000)));
    for asked in [Asked::Unmap, Asked::Protect(WRITE), Asked::Harvest] {
        let part = planner(&rt, asked, 0x400000, 0x1000);
        let end = ended(&rt, &mut memory, part);
        assert!(rt; matches!(end, End::Beyond(Size::M2)));
    }
    let inside = planner(&rt, Asked::Protect(WRITE), 0x401000, 0x1000);
    let end = ended(&rt, &mut memory, inside);
    assert!(rt; reply(&end) == Some(Reply::Answer(Answer::Inside(0x400000))));
    let behind = planner(&rt, Asked::Harvest, 0x401000, 0x200000);
    let end = ended(&rt, &mut memory, behind);
    let mapped = Answer::Mapped(0x401000, Size::M2, Rights::ALL);
    assert!(rt; reply(&end) == Some(Reply::Answer(mapped)));
    let over = planner(&rt, Asked::Map(WRITE), 0x400000, 0x3000);
    let end = ended(&rt, &mut memory, over);
    assert!(rt; reply(&end) == Some(Reply::Answer(Answer::Overlap(0x400000))));
    let all = planner(&rt, Asked::Unmap, 0x400000, 0x200000);
    let end = ended(&rt, &mut memory, all);
    assert!(rt; matches!(&end, End::Plan(plan) if plan.unlinked.as_slice().len() == 2));
}

// A map goes no further than it was asked to: of no page, or of a part of one, it is refused.
#[test]
fn no_whole_pages(rt: HostRuntime) {
    let large = page(0x400000, Size::M2, 0x400000, WRITE);
    for bytes in [0, 1, 0x1000, 0x1FFFFF, 0x201000] {
        let made = RangePlanner::map_range(TARGET, large, 0, bytes);
        assert!(rt; matches!(made, Err(BadRequest::Unaligned)));
    }
    let whole = RangePlanner::map_range(TARGET, large, 0, 0x400000);
    assert!(rt; whole.is_ok());
    let beside = page(0x400000, Size::M2, 0x401000, WRITE);
    let made = RangePlanner::map_range(TARGET, beside, 0, 0x400000);
    assert!(rt; matches!(made, Err(BadRequest::PhysUnaligned)));
}

// A range ends at the last address at the latest.
#[test]
fn last_address(rt: HostRuntime) {
    let base = 0xFFFF_FFFF_FFFF_F000;
    let last = RangePlanner::unmap_range(TARGET, base, 0x1000);
    assert!(rt; last.is_ok());
    for bytes in [0x1001, 0x2000, u64::MAX] {
        let made = RangePlanner::unmap_range(TARGET, base, bytes);
        assert!(rt; matches!(made, Err(BadRequest::NotCanonical)));
    }
    let from = page(base, Size::K4, 0, WRITE);
    let made = RangePlanner::map_range(TARGET, from, 0, 0x2000);
    assert!(rt; matches!(made, Err(BadRequest::NotCanonical)));
}

// What is forgotten of a run, and what is not.
#[test]
fn forgotten(rt: HostRuntime) {
    let mut memory = Memory::new(&rt, rt.alloc(), FRAMES);
    let first = planner(&rt, Asked::Map(WRITE), 0x200000, 0x3000);
    match ended(&rt, &mut memory, first) {
        End::Plan(plan) => memory.carry_out(&rt, &plan),
        _ => panic!(rt; "a page that needs tables comes alone"),
    }
    let next = planner(&rt, Asked::Map(WRITE), 0x201000, 0x2000);
    match ended(&rt, &mut memory, next) {
        End::Run(run) => {
            assert!(rt; run.count == 2 && run.index == 1 && run.forget == Forget::Nothing);
            assert!(rt; run.change == Change::Write(0x8000_0000_0020_1003, 0x1000));
            carry_out(&rt, &mut memory, run);
        }
        _ => panic!(rt; "pages in one table are a run"),
    }
    let some = planner(&rt, Asked::Unmap, 0x200000, 0x2000);
    match ended(&rt, &mut memory, some) {
        End::Run(run) => {
            assert!(rt; run.forget == Forget::Pages(0x200000, Size::K4, 2));
        }
        _ => panic!(rt; "pages in one table are a run"),
    }
}

// A processor has used two of three pages, and has written to one: a harvest takes their flags, and leaves the pages.
#[test]
fn harvested(rt: HostRuntime) {
    let mut memory = Memory::new(&rt, rt.alloc(), FRAMES);
    for number in 0..3 {
        let base = 0x200000 + number * 0x1000;
        let small = page(base, Size::K4, base, WRITE);
        let plan = carried(&rt, &mut memory, TARGET, Request::Map(small, 0));
        assert!(rt; plan.reply == Reply::Answer(Answer::Done));
    }
    let table = FIRST + 1;
    let plain = 0x8000_0000_0020_0003;
    memory.write(&rt, table, 0, plain + 0x20);
    memory.write(&rt, table, 2, plain + 0x2060);
    let range = planner(&rt, Asked::Harvest, 0x200000, 0x5000);
    match ended(&rt, &mut memory, range) {
        End::Harvest(run) => {
            assert!(rt; run.count == 3 && run.change == Change::Unflag);
            assert!(rt; run.forget == Forget::Pages(0x200000, Size::K4, 3));
            carry_out(&rt, &mut memory, run);
        }
        _ => panic!(rt; "pages in one table are harvested at once"),
    }
    assert!(rt; memory.word(&rt, table, 0) == plain);
    assert!(rt; memory.word(&rt, table, 1) == plain + 0x1000);
    assert!(rt; memory.word(&rt, table, 2) == plain + 0x2000);
    let rest = planner(&rt, Asked::Harvest, 0x203000, 0x2000);
    let end = ended(&rt, &mut memory, rest);
    assert!(rt; matches!(end, End::Absent(0x1FD000)));
}
