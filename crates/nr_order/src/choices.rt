//! The calls that may come next where a reply needs one.

use crate::calls::Orderable;
use crate::frontier::Frontier;
use std::alloc::Global;
use vs_types::Memory;

/// A call that may come next. The order is that of the fields: it is the one in which they are tried.
#[derive(Clone, Copy, Debug, PartialEq, Eq, PartialOrd, Ord)]
pub(crate) struct Candidate {
    /// Its rank, where ranks count.
    rank: u32,
    is_other: bool,
    is_idle: bool,
    answered: u32,
    pub(crate) call: u32,
}

/// Whether two calls ask the same and are answered the same, so that the one that is answered first can go first. Where updates are counted
/// for the dumps, only calls of one replica can change places, or those that aren't answered.
fn are_alike(first: &Orderable, second: &Orderable, is_numbered: bool) -> bool {
    if is_numbered && first.replica != second.replica && first.answer.is_some() {
        return false;
    }
    first.request == second.request && first.answer == second.answer
}

/// Whether a call comes in the place of one that is listed, or is no better than it: then there is nothing to add.
fn is_listed(
    frontier: &Frontier<'_>,
    listed: &mut Vec<Candidate>,
    candidate: Candidate,
    call: &Orderable,
) -> bool {
    let is_numbered = frontier.is_numbered();
    for row in listed.iter_mut() {
        if let Some(other) = frontier.call(row.call) {
            if are_alike(call, &other, is_numbered) {
                if candidate.answered < row.answered {
                    *row = candidate;
                }
                return true;
            }
        }
    }
    false
}

/// The open calls that may come next where a call is wanted: that one first, then those behind which it is right, then by their replies.
/// Where ranks count, by these first. Allocates memory for them.
pub(crate) fn list_candidates(
    alloc: Global,
    frontier: &mut Frontier<'_>,
    wanted: u32,
) -> Result<Vec<Candidate>, Memory> {
    let mut listed = Vec::new(alloc);
    for at in 0..frontier.open().len() {
        let Some(index) = frontier.open().get(at).copied() else {
            break;
        };
        let Some(call) = frontier.call(index) else {
            continue;
        };
        if frontier.is_free(&call) {
            continue;
        }
        let candidate = Candidate {
            rank: if frontier.by_rank() { call.rank } else { 0 },
            is_other: index != wanted,
            is_idle: false,
            answered: call.answered,
            call: index,
        };
        if !is_listed(frontier, &mut listed, candidate, &call) {
            listed.push(candidate)?;
        }
    }
    Ok(listed)
}

/// Finds which of the candidates help a wanted call, and sorts them.
pub(crate) fn sort_candidates(
    frontier: &mut Frontier<'_>,
    listed: &mut Vec<Candidate>,
    wanted: u32,
) -> Result<(), Memory> {
    if let (Some(call), false) = (frontier.call(wanted), frontier.by_rank()) {
        for row in listed.iter_mut() {
            if row.call != wanted {
                row.is_idle = !frontier.helps(row.call, &call)?;
            }
        }
    }
    listed.sort_unstable();
    Ok(())
}
