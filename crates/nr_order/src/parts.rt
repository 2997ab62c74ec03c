//! The parts of a run that can be ordered by themselves, and how their orders become one.
//!
//! The addresses of a page are aligned to its size, so of two stretches that maps ask for one lies in the other, or they are apart. A part
//! is a stretch that lies in no other, with the calls that touch it. Where there are no large maps, each page is a part.

use crate::calls::{Orderable, short};
use crate::stays::address_of;
use std::alloc::Global;
use vs_types::{Action, Answer, Depth, Memory, Page, Query};

/// The addresses that a call may touch. The order is that of the fields: the widest comes first where some begin at one address.
#[derive(Clone, Copy, Debug, PartialEq, Eq, PartialOrd, Ord)]
struct Stretch {
    first: u64,
    /// How far the last address is from the end of all.
    behind: u64,
}

/// A call in its part. The order is that of the fields.
#[derive(Clone, Copy, Debug, PartialEq, Eq, PartialOrd, Ord)]
pub(crate) struct Member {
    pub(crate) part: u32,
    /// Its index among all calls.
    pub(crate) call: u32,
}

/// The bounds of a part.
#[derive(Clone, Copy, Debug)]
pub(crate) struct Bounds {
    pub(crate) first: u64,
    pub(crate) last: u64,
}

/// The calls by part, and the bounds of each part.
#[derive(Debug, Drop)]
pub(crate) struct Parts {
    pub(crate) members: Vec<Member>,
    pub(crate) bounds: Vec<Bounds>,
}

fn page_asked(call: &Orderable) -> Option<Page> {
    match call.request.query() {
        Query::Update(op) => match op.action() {
            Action::Map(page) => Some(page),
            _ => None,
        },
        _ => None,
    }
}

fn stretch_of(call: &Orderable) -> Stretch {
    let address = address_of(call.request.query());
    let first = address - address % 4096;
    let bytes = match page_asked(call) {
        Some(page) => page.size.bytes(),
        None => 4096,
    };
    Stretch {
        first,
        behind: u64::MAX - first.saturating_add(bytes.saturating_sub(1)),
    }
}

/// The stretches that lie in no other, by rising address. Allocates memory for those of all calls.
fn outer_of(alloc: Global, calls: &[Orderable]) -> Result<Vec<Bounds>, Memory> {
    let mut stretches = Vec::with_capacity(alloc, calls.len())?;
    for call in calls {
        stretches.push(stretch_of(call))?;
    }
    stretches.sort_unstable();
    let mut outer: Vec<Bounds> = Vec::new(alloc);
    for stretch in stretches.iter() {
        let is_apart = match outer.last() {
            Some(before) => stretch.first > before.last,
            None => true,
        };
        if is_apart {
            outer.push(Bounds {
                first: stretch.first,
                last: u64::MAX - stretch.behind,
            })?;
        }
    }
    Ok(outer)
}

/// The parts of some calls. Allocates memory for the members.
pub(crate) fn list_parts(alloc: Global, calls: &[Orderable]) -> Result<Parts, Memory> {
    let bounds = outer_of(alloc, calls)?;
    let mut members = Vec::with_capacity(alloc, calls.len())?;
    for (index, call) in calls.iter().enumerate() {
        let first = stretch_of(call).first;
        let behind = bounds.partition_point(|each| each.first <= first);
        members.push(Member {
            part: short(behind.saturating_sub(1)),
            call: short(index),
        })?;
    }
    members.sort_unstable();
    Ok(Parts { members, bounds })
}

/// Where a call of a part's order comes in the order of all: at the greatest event at which it, or one before it in its part, was made.
/// That is before its own reply, so that what was answered before another call was made comes before that call. The order is that of the
/// fields.
#[derive(Clone, Copy, Debug, PartialEq, Eq, PartialOrd, Ord)]
pub(crate) struct Point {
    pub(crate) event: u32,
    /// How many points came before it.
    pub(crate) turn: u32,
    /// The index of the call.
    pub(crate) call: u32,
}

/// A table that a page needs, by level and by the stretch that it covers.
#[derive(Clone, Copy, Debug, PartialEq, Eq, PartialOrd, Ord)]
struct Table {
    level: u8,
    index: u64,
}

/// The tables that the maps could need at once, whatever their order. Allocates memory for those of each map.
fn most_tables(alloc: Global, calls: &[Orderable], depth: Depth) -> Result<usize, Memory> {
    let mut tables = Vec::new(alloc);
    for call in calls {
        let Some(page) = page_asked(call) else {
            continue;
        };
        for level in page.size.level()..depth.levels() {
            tables.push(Table {
                level,
                index: page.base >> (12 + 9 * u32::from(level.min(5))),
            })?;
        }
    }
    tables.sort_unstable();
    let mut count = 1usize;
    let mut before = None;
    for table in tables.iter() {
        if before != Some(*table) {
            count = count.saturating_add(1);
        }
        before = Some(*table);
    }
    Ok(count)
}

/// Whether the number of tables may matter, so that no part can be ordered by itself.
pub(crate) fn are_coupled(
    alloc: Global,
    calls: &[Orderable],
    depth: Depth,
    tables: u16,
) -> Result<bool, Memory> {
    for call in calls {
        if matches!(call.answer, Some(Answer::Full(_))) {
            return Ok(true);
        }
    }
    Ok(most_tables(alloc, calls, depth)? > usize::from(tables))
}
