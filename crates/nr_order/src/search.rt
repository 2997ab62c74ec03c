//! A search for an order of some calls: depth first, with a memory of where it was.
//!
//! The events are taken one after another. A change is put into the order only where a reply needs it: its own, or that of a call whose
//! answer isn't right yet. Three rules cut the search, and lose no order:
//!
//! - A call that changes nothing is put as soon as its answer is right: whatever is right behind it is so without it.
//! - Of open calls that ask and are answered the same, the one that is answered first goes first: the two can change places.
//! - A page that no call can bring back isn't taken away while a call still has to find it.
//!
//! Unanswered updates stay open to the end, and may be left out.

use crate::calls::Orderable;
use crate::choices::{list_candidates, sort_candidates};
use crate::frontier::{Aims, Frontier};
use crate::moments::{Moment, list_moments};
use crate::moving::MovingSpace;
use std::alloc::Global;
use std::collections::HashSet;
use std::hash::{BuildHasherDefault, FoldHasher};
use vs_types::Memory;

/// A moment at which several calls may come next.
#[derive(Clone, Copy, Debug)]
struct Choice {
    at: usize,
    trail: usize,
    /// The call that is wanted there.
    wanted: u32,
    /// Where its options begin in the list of all.
    first: usize,
    /// The next one to be tried.
    next: usize,
    /// Whether all options are listed, and not the wanted call alone.
    is_full: bool,
}

/// How a turn ends.
enum Turn {
    Goes,
    Found,
    Over,
}

/// A search for an order of some calls.
#[derive(Drop)]
struct Seeker<'a> {
    alloc: Global,
    frontier: Frontier<'a>,
    moments: Vec<Moment>,
    /// The next moment.
    at: usize,
    choices: Vec<Choice>,
    options: Vec<u32>,
    been: HashSet<u64, BuildHasherDefault<FoldHasher>, Global>,
    /// Whether the next turn goes back to a choice.
    is_stuck: bool,
}

impl<'a> Seeker<'a> {
    fn new(alloc: Global, frontier: Frontier<'a>, moments: Vec<Moment>) -> Seeker<'a> {
        let is_stuck = !frontier.fits();
        Seeker {
            alloc,
            frontier,
            moments,
            at: 0,
            choices: Vec::new(alloc),
            options: Vec::new(alloc),
            been: HashSet::new(alloc),
            is_stuck,
        }
    }

    /// Notes that a call is wanted here, with which others may come first. They are listed when it has been tried.
    fn choose(&mut self, wanted: u32) -> Result<(), Memory> {
        self.is_stuck = true;
        let first = self.options.len();
        let choice = Choice {
            at: self.at,
            trail: self.frontier.trail_len(),
            wanted,
            first,
            next: first,
            is_full: self.frontier.by_rank(),
        };
        if choice.is_full {
            self.list_options(wanted, false)?;
        } else {
            self.options.push(wanted)?;
        }
        self.choices.push(choice)?;
        Ok(())
    }

    /// Lists the options where a call is wanted, but that call where it was tried.
    fn list_options(&mut self, wanted: u32, is_tried: bool) -> Result<(), Memory> {
        let mut listed = list_candidates(self.alloc, &mut self.frontier, wanted)?;
        sort_candidates(&mut self.frontier, &mut listed, wanted)?;
        for row in listed.iter() {
            if !is_tried || row.call != wanted {
                self.options.push(row.call)?;
            }
        }
        Ok(())
    }

    /// Behind the last event only unanswered updates are open, and any of them may still come.
    fn end(&mut self) -> Result<Turn, Memory> {
        if self.frontier.is_whole() {
            return Ok(Turn::Found);
        }
        match self.frontier.open().get(0).copied() {
            Some(index) => self.choose(index)?,
            None => self.is_stuck = true,
        }
        Ok(Turn::Goes)
    }

    /// Passes the next event, or stops there for a choice.
    fn go_on(&mut self) -> Result<Turn, Memory> {
        let Some(moment) = self.moments.get(self.at).copied() else {
            return self.end();
        };
        if !moment.is_reply {
            self.at = self.at.saturating_add(1);
            self.is_stuck = !self.frontier.begin(moment.call)?;
        } else if self.frontier.is_put(moment.call) {
            self.at = self.at.saturating_add(1);
        } else {
            self.choose(moment.call)?;
        }
        Ok(Turn::Goes)
    }

    /// The next option of the last choice; `None` where it has no more, and is given up.
    fn next_option(&mut self) -> Result<Option<u32>, Memory> {
        let Some(mut choice) = self.choices.pop() else {
            return Ok(None);
        };
        if choice.next >= self.options.len() && !choice.is_full {
            choice.is_full = true;
            self.list_options(choice.wanted, true)?;
        }
        let Some(option) = self.options.get(choice.next).copied() else {
            self.options.truncate(choice.first);
            return Ok(None);
        };
        choice.next = choice.next.saturating_add(1);
        self.choices.push(choice)?;
        Ok(Some(option))
    }

    /// Goes back to the last choice, and tries its next option.
    fn go_back(&mut self) -> Result<Turn, Memory> {
        let Some(choice) = self.choices.last().copied() else {
            return Ok(Turn::Over);
        };
        self.frontier.undo(choice.trail)?;
        self.at = choice.at;
        let Some(option) = self.next_option()? else {
            return Ok(Turn::Goes);
        };
        if self.frontier.put(option)? == Some(true) {
            let is_new = self.been.insert(self.frontier.state(self.at))?;
            self.is_stuck = !is_new;
        }
        Ok(Turn::Goes)
    }

    fn turn(&mut self) -> Result<Turn, Memory> {
        if self.is_stuck {
            self.go_back()
        } else {
            self.go_on()
        }
    }
}

/// What came of a search.
#[derive(Debug, Drop)]
pub(crate) struct Searched {
    /// The indexes of the calls in an order.
    pub(crate) order: Option<Vec<u32>>,
    /// How many steps are left.
    pub(crate) steps: u32,
}

/// Looks for an order of some calls, which come by number, that meets the aims, with at most so many steps. Allocates memory for the calls,
/// and for each step that goes on.
pub(crate) fn search(
    alloc: Global,
    calls: &[Orderable],
    space: MovingSpace,
    aims: Aims,
    steps: u32,
) -> Result<Searched, Memory> {
    let frontier = Frontier::new(alloc, calls, space, aims, steps)?;
    let moments = list_moments(alloc, calls)?;
    let mut seeker = Seeker::new(alloc, frontier, moments);
    for _ in 0..steps {
        if !seeker.frontier.step() {
            break;
        }
        match seeker.turn()? {
            Turn::Goes => {}
            Turn::Found => {
                let order = Vec::from_slice(alloc, seeker.frontier.order())?;
                let steps = seeker.frontier.steps();
                return Ok(Searched {
                    order: Some(order),
                    steps,
                });
            }
            Turn::Over => break,
        }
    }
    Ok(Searched {
        order: None,
        steps: seeker.frontier.steps(),
    })
}
