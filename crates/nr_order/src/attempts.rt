//! What is tried to find an order of the calls of a trace.

ghost use Rattle.std.specs.Prelude.{IfOk, IfSome};
ghost use Rattle.nr_order.specs.Finding.{IsOrderedOf};

use crate::calls::{NEVER, Orderable, short};
use crate::demands::Demands;
use crate::frontier::Aims;
use crate::judging::{Ordered, judge_order};
use crate::moving::{MovingSpace, hash_of_page};
use crate::parts::{Bounds, Point, are_coupled, list_parts};
use crate::search::search;
use nr_trace::Trace;
use std::alloc::Global;
use vs_types::{Fail, Memory, Page};
use vs_walk::leaves;

/// The numbers of the calls of these indexes.
fn numbers_of(alloc: Global, calls: &[Orderable], order: &[u32]) -> Result<Vec<u32>, Memory> {
    let mut numbers = Vec::with_capacity(alloc, order.len())?;
    for index in order {
        if let Some(call) = calls.get(*index as usize) {
            numbers.push(call.made)?;
        }
    }
    Ok(numbers)
}

/// The number of the space of those pages that begin in these bounds; they come by rising base.
fn hash_within(pages: &[Page], bounds: Bounds) -> u64 {
    let from = pages.partition_point(|page| page.base < bounds.first);
    let mut hash = 0u64;
    for index in from..pages.len() {
        let page = pages[index];
        if page.base > bounds.last {
            break;
        }
        hash = hash.wrapping_add(hash_of_page(page));
    }
    hash
}

/// A call with its place in an order that is nearly the recorded one. The order is that of the fields.
#[derive(Clone, Copy, Debug, PartialEq, Eq, PartialOrd, Ord)]
struct Ranked {
    /// The greatest recorded place of it and those before it in its part.
    place: u32,
    /// Its place in the order that was found.
    at: u32,
    call: u32,
}

/// The calls of a trace, what its dumps ask, and the steps that are left.
#[derive(Drop)]
pub(crate) struct Attempts {
    alloc: Global,
    calls: Vec<Orderable>,
    demands: Demands,
    steps: u32,
}

impl Attempts {
    pub(crate) fn new(
        alloc: Global,
        calls: Vec<Orderable>,
        demands: Demands,
        steps: u32,
    ) -> Attempts {
        Attempts {
            alloc,
            calls,
            demands,
            steps,
        }
    }

    /// Looks for an order of some calls that meets the aims, with at most so many of the steps that are left. Gives their indexes.
    fn find(
        &mut self,
        trace: &Trace,
        calls: &[Orderable],
        aims: Aims,
        most: u32,
    ) -> Result<Option<Vec<u32>>, Memory> {
        let layout = trace.layout();
        let space = MovingSpace::new(self.alloc, layout.depth(), layout.tables());
        let steps = self.steps.min(most);
        let searched = search(self.alloc, calls, space, aims, steps)?;
        let taken = steps.saturating_sub(searched.steps);
        self.steps = self.steps.saturating_sub(taken);
        Ok(searched.order)
    }

    /// The trace with the order of these indexes, where it is right.
    fn judge(&self, trace: &Trace, order: &[u32]) -> Result<Option<Ordered>, Memory>
        ensures { IfOk result (λ found. IfSome found (IsOrderedOf trace.now)) }
    {
        let numbers = numbers_of(self.alloc, &self.calls, order)?;
        judge_order(self.alloc, trace, &numbers)
    }

    /// All calls, to be lent while the steps are counted.
    fn all_calls(&self) -> Result<Vec<Orderable>, Memory> {
        Ok(Vec::from_slice(self.alloc, &self.calls)?)
    }

    /// Tries an order of all calls that meets what the dumps ask at their numbers, by the ranks.
    fn try_numbered(&mut self, trace: &Trace, most: u32) -> Result<Option<Ordered>, Memory>
        ensures { IfOk result (λ found. IfSome found (IsOrderedOf trace.now)) }
    {
        let aims = Aims {
            demands: self.demands,
            is_numbered: true,
            last: None,
            by_rank: true,
        };
        let calls = self.all_calls()?;
        match self.find(trace, &calls, aims, most)? {
            Some(order) => self.judge(trace, &order),
            None => Ok(None),
        }
    }

    /// The replica whose dump is behind all answered calls, if one is known to be.
    fn last_replica(&self, replicas: u8) -> Option<u8> {
        let mut updates = 0u32;
        for call in self.calls.iter() {
            if call.is_update() {
                updates = updates.saturating_add(1);
            }
        }
        for replica in 0..replicas {
            if let Some(demand) = self.demands.of_replica(replica) {
                if demand.applied == updates || replicas == 1 {
                    return Some(replica);
                }
            }
        }
        None
    }

    /// What a part is to meet, or all calls: in the end the pages of the last dump, where there is one.
    fn aims_within(&self, replicas: u8, pages: Option<&[Page]>, bounds: Bounds) -> Aims {
        Aims {
            demands: Demands::none(),
            is_numbered: false,
            last: match pages {
                Some(pages) => Some(hash_within(pages, bounds)),
                None => None,
            },
            by_rank: replicas > 1,
        }
    }

    /// An order of the calls of each part by itself, merged.
    fn find_by_parts(
        &mut self,
        trace: &Trace,
        pages: Option<&[Page]>,
    ) -> Result<Option<Vec<u32>>, Memory> {
        let parts = list_parts(self.alloc, &self.calls)?;
        let mut points = Vec::with_capacity(self.alloc, self.calls.len())?;
        let mut at = 0;
        for (part, bounds) in parts.bounds.iter().enumerate() {
            let mut own = Vec::new(self.alloc);
            let mut calls = Vec::new(self.alloc);
            for index in at..parts.members.len() {
                let member = parts.members[index];
                if member.part as usize != part {
                    break;
                }
                if let Some(call) = self.calls.get(member.call as usize) {
                    own.push(member.call)?;
                    calls.push(*call)?;
                }
                at = index + 1;
            }
            let aims = self.aims_within(trace.layout().replicas(), pages, *bounds);
            let Some(order) = self.find(trace, &calls, aims, u32::MAX)? else {
                return Ok(None);
            };
            push_points(&mut points, &own, &calls, &order)?;
        }
        points.sort_unstable();
        let mut merged = Vec::with_capacity(self.alloc, points.len())?;
        for point in points.iter() {
            merged.push(point.call)?;
        }
        Ok(Some(merged))
    }

    /// An order that leaves the numbers of the dumps out: by parts, where the number of tables can't matter.
    fn find_unnumbered(&mut self, trace: &Trace) -> Result<Option<Vec<u32>>, Memory> {
        let layout = trace.layout();
        let mut found = None;
        if let Some(replica) = self.last_replica(layout.replicas()) {
            if let Some(dump) = trace.dumps().get(replica as usize) {
                found = match leaves(self.alloc, dump, dump.root(), layout.depth()) {
                    Ok(leaves) => Some(leaves),
                    Err(Fail::Memory) => return Err(Memory),
                    Err(Fail::Refused(_)) => None,
                };
            }
        }
        let pages = match &found {
            Some(leaves) => Some(leaves.pages.as_slice()),
            None => None,
        };
        if !are_coupled(self.alloc, &self.calls, layout.depth(), layout.tables())? {
            return self.find_by_parts(trace, pages);
        }
        let all = Bounds {
            first: 0,
            last: u64::MAX,
        };
        let aims = self.aims_within(layout.replicas(), pages, all);
        let calls = self.all_calls()?;
        self.find(trace, &calls, aims, u32::MAX)
    }

    /// Ranks the calls by an order of their indexes: as recorded, as far as the order of each part leaves it.
    fn rank_by(&mut self, order: &[u32]) -> Result<(), Memory> {
        let parts = list_parts(self.alloc, &self.calls)?;
        let mut part_of = vec![in self.alloc; 0u32; self.calls.len()]?;
        for member in parts.members.iter() {
            if let Some(row) = part_of.get_mut(member.call as usize) {
                *row = member.part;
            }
        }
        let mut places = vec![in self.alloc; 0u32; parts.bounds.len()]?;
        let mut ranked = Vec::with_capacity(self.alloc, order.len())?;
        for index in order {
            let place = match self.calls.get(*index as usize) {
                Some(call) if call.rank != NEVER => call.rank,
                _ => 0,
            };
            let part = part_of.get(*index as usize).copied().unwrap_or(0);
            let mut greatest = place;
            if let Some(row) = places.get_mut(part as usize) {
                *row = place.max(*row);
                greatest = *row;
            }
            ranked.push(Ranked {
                place: greatest,
                at: short(ranked.len()),
                call: *index,
            })?;
        }
        ranked.sort_unstable();
        for call in self.calls.iter_mut() {
            call.rank = NEVER;
        }
        for (rank, row) in ranked.iter().enumerate() {
            if let Some(call) = self.calls.get_mut(row.call as usize) {
                call.rank = short(rank);
            }
        }
        Ok(())
    }

    /// First as recorded, with few steps; then without the numbers of the dumps; then with them, and the order that was found so by ranks.
    pub(crate) fn run(&mut self, trace: &Trace) -> Result<Option<Ordered>, Memory>
        ensures { IfOk result (λ found. IfSome found (IsOrderedOf trace.now)) }
    {
        let few = short(trace.events().len()).saturating_mul(8);
        if !trace.log().is_empty() {
            if let Some(right) = self.try_numbered(trace, few)? {
                return Ok(Some(right));
            }
        }
        let Some(order) = self.find_unnumbered(trace)? else {
            return Ok(None);
        };
        if let Some(right) = self.judge(trace, &order)? {
            return Ok(Some(right));
        }
        self.rank_by(&order)?;
        self.try_numbered(trace, u32::MAX)
    }
}

/// Appends where the calls of a part's order come in the order of all.
fn push_points(
    points: &mut Vec<Point>,
    own: &[u32],
    calls: &[Orderable],
    order: &[u32],
) -> Result<(), Memory> {
    let mut event = 0;
    for index in order {
        let at = *index as usize;
        if let (Some(call), Some(asked)) = (own.get(at), calls.get(at)) {
            event = asked.made.max(event);
            points.push(Point {
                event,
                turn: short(points.len()),
                call: *call,
            })?;
        }
    }
    Ok(())
}
