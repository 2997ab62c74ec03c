//! Which pages may still come, and which still have to be found.

use crate::calls::{NEVER, Orderable, short};
use std::alloc::Global;
use std::collections::BTreeMap;
use vs_types::{Action, Answer, Memory, Query, Size};

/// A page whatever its rights.
#[derive(Clone, Copy, Debug, PartialEq, Eq, PartialOrd, Ord)]
struct PageKey {
    base: u64,
    phys: u64,
    level: u8,
}

/// How many calls may map each page, and how many find it, of those that aren't put.
#[derive(Drop)]
pub(crate) struct Stays {
    /// By call the row of the page that it may map, or `NEVER`.
    gives: Vec<u32>,
    /// By call the row of the page that it finds, or `NEVER`.
    wants: Vec<u32>,
    givers: Vec<u32>,
    wanters: Vec<u32>,
}

/// The address that a request names.
pub(crate) fn address_of(query: Query) -> u64 {
    match query {
        Query::Update(op) => match op.action() {
            Action::Map(page) => page.base,
            Action::Unmap(base) | Action::Protect(base, _) => base,
        },
        Query::Resolve(address) | Query::Access(address, _, _) => address,
    }
}

/// The page of this size that is found at an address, which leads there.
fn found_at(address: u64, size: Size, phys: u64) -> PageKey {
    let offset = address % size.bytes();
    PageKey {
        base: address - offset,
        phys: phys.wrapping_sub(offset),
        level: size.level(),
    }
}

/// The page that a call may map.
fn given_by(call: &Orderable) -> Option<PageKey> {
    let Query::Update(op) = call.request.query() else {
        return None;
    };
    let Action::Map(page) = op.action() else {
        return None;
    };
    match call.answer {
        None | Some(Answer::Done) => Some(PageKey {
            base: page.base,
            phys: page.phys,
            level: page.size.level(),
        }),
        Some(_) => None,
    }
}

/// The page that a call finds.
fn wanted_by(call: &Orderable) -> Option<PageKey> {
    match call.answer? {
        Answer::Removed(phys, size, _) | Answer::Mapped(phys, size, _) => {
            Some(found_at(address_of(call.request.query()), size, phys))
        }
        _ => None,
    }
}

/// The row of a page, a new one where it has none; `NEVER` where there is no page.
fn row_of(rows: &mut BTreeMap<PageKey, u32>, page: Option<PageKey>) -> Result<u32, Memory> {
    let Some(page) = page else {
        return Ok(NEVER);
    };
    if let Some(row) = rows.get(&page) {
        return Ok(*row);
    }
    let row = short(rows.len());
    rows.insert(page, row)?;
    Ok(row)
}

fn add_one(counts: &mut Vec<u32>, row: u32) {
    if let Some(count) = counts.get_mut(row as usize) {
        *count = count.saturating_add(1);
    }
}

fn take_one(counts: &mut Vec<u32>, row: u32) {
    if let Some(count) = counts.get_mut(row as usize) {
        *count = count.saturating_sub(1);
    }
}

fn count_at(counts: &Vec<u32>, row: u32) -> u32 {
    counts.get(row as usize).copied().unwrap_or(0)
}

fn row_at(rows: &Vec<u32>, call: u32) -> u32 {
    rows.get(call as usize).copied().unwrap_or(NEVER)
}

impl Stays {
    /// Of calls of which none is put. Allocates memory for the pages.
    pub(crate) fn of(alloc: Global, calls: &[Orderable]) -> Result<Stays, Memory> {
        let mut rows = BTreeMap::new(alloc);
        let mut gives = Vec::with_capacity(alloc, calls.len())?;
        let mut wants = Vec::with_capacity(alloc, calls.len())?;
        for call in calls {
            gives.push(row_of(&mut rows, given_by(call))?)?;
            wants.push(row_of(&mut rows, wanted_by(call))?)?;
        }
        let mut givers = vec![in alloc; 0u32; rows.len()]?;
        let mut wanters = vec![in alloc; 0u32; rows.len()]?;
        for row in gives.iter() {
            add_one(&mut givers, *row);
        }
        for row in wants.iter() {
            add_one(&mut wanters, *row);
        }
        Ok(Stays {
            gives,
            wants,
            givers,
            wanters,
        })
    }

    /// Notes that a call is put. False where it takes a page away that others still find, and no call can bring it back.
    pub(crate) fn put(&mut self, call: u32, takes: bool) -> bool {
        take_one(&mut self.givers, row_at(&self.gives, call));
        let page = row_at(&self.wants, call);
        take_one(&mut self.wanters, page);
        !takes || count_at(&self.givers, page) > 0 || count_at(&self.wanters, page) == 0
    }

    /// Notes that it isn't any more.
    pub(crate) fn take_back(&mut self, call: u32) {
        add_one(&mut self.givers, row_at(&self.gives, call));
        add_one(&mut self.wanters, row_at(&self.wants, call));
    }
}
