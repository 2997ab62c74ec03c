//! How far an order has come: the calls that are put, those that are open, and the space.

use crate::calls::Orderable;
use crate::demands::Demands;
use crate::moving::{Effect, MovingSpace, mix};
use crate::stays::{Stays, address_of};
use std::alloc::Global;
use vs_types::{Answer, Memory, Page};

/// What was done, to be taken back.
#[derive(Clone, Copy, Debug)]
enum Done {
    Opened(u32),
    Put(u32, Effect),
}

/// What an order has to meet beside the answers.
#[derive(Clone, Copy, Debug)]
pub(crate) struct Aims {
    /// What the dumps ask, each behind its number of updates.
    pub(crate) demands: Demands,
    /// Whether the updates are counted for them: then each update has its place in the order, also one that changes nothing.
    pub(crate) is_numbered: bool,
    /// The number of the space in the end, if that is known.
    pub(crate) last: Option<u64>,
    /// Whether the order of the ranks is tried first.
    pub(crate) by_rank: bool,
}

/// How far an order of some calls has come.
#[derive(Drop)]
pub(crate) struct Frontier<'a> {
    calls: &'a [Orderable],
    aims: Aims,
    space: MovingSpace,
    /// The calls that are made and not put.
    open: Vec<u32>,
    is_put: Vec<bool>,
    order: Vec<u32>,
    trail: Vec<Done>,
    /// A number of the calls that are open: others most likely have another.
    mark: u64,
    stays: Stays,
    /// How many updates are put.
    updates: u32,
    /// How many steps are left.
    steps: u32,
}

fn mark_of(call: u32) -> u64 {
    mix(u64::from(call) + 1)
}

/// Whether an address lies in a page.
fn is_in(page: Page, address: u64) -> bool {
    address >= page.base && address - page.base < page.size.bytes()
}

/// False where an effect can't make a call right: it changes no address that the call is about. Each page lies in one GiB.
fn may_matter(effect: Effect, call: &Orderable) -> bool {
    let address = address_of(call.request.query());
    match effect {
        Effect::Nothing => false,
        Effect::Changed(base, _, _) => base >> 30 == address >> 30,
        Effect::Put(page) | Effect::Taken(page) => {
            if call.is_update() {
                page.base >> 30 == address >> 30 || matches!(call.answer, Some(Answer::Full(_)))
            } else {
                is_in(page, address)
            }
        }
    }
}

impl<'a> Frontier<'a> {
    pub(crate) fn new(
        alloc: Global,
        calls: &'a [Orderable],
        space: MovingSpace,
        aims: Aims,
        steps: u32,
    ) -> Result<Frontier<'a>, Memory> {
        let is_put = vec![in alloc; false; calls.len()]?;
        let stays = Stays::of(alloc, calls)?;
        Ok(Frontier {
            calls,
            aims,
            space,
            open: Vec::new(alloc),
            is_put,
            order: Vec::new(alloc),
            trail: Vec::new(alloc),
            mark: 0,
            stays,
            updates: 0,
            steps,
        })
    }

    pub(crate) fn call(&self, index: u32) -> Option<Orderable> {
        self.calls.get(index as usize).copied()
    }

    pub(crate) fn open(&self) -> &[u32] {
        &self.open
    }

    pub(crate) fn order(&self) -> &[u32] {
        &self.order
    }

    pub(crate) fn trail_len(&self) -> usize {
        self.trail.len()
    }

    pub(crate) fn steps(&self) -> u32 {
        self.steps
    }

    pub(crate) fn by_rank(&self) -> bool {
        self.aims.by_rank
    }

    pub(crate) fn is_numbered(&self) -> bool {
        self.aims.is_numbered
    }

    pub(crate) fn is_put(&self, index: u32) -> bool {
        self.is_put.get(index as usize).copied().unwrap_or(true)
    }

    /// A number of the open calls and the space: others most likely have another.
    pub(crate) fn state(&self, event: usize) -> u64 {
        mix(self.mark ^ mix(self.space.hash() ^ mix(event as u64)))
    }

    /// Takes a step. False where none is left.
    pub(crate) fn step(&mut self) -> bool {
        if self.steps == 0 {
            return false;
        }
        self.steps -= 1;
        true
    }

    /// Whether the call may be put wherever it is right: whatever is right behind it is so without it.
    pub(crate) fn is_free(&self, call: &Orderable) -> bool {
        if self.aims.is_numbered {
            !call.is_update()
        } else {
            call.changes_nothing()
        }
    }

    /// Whether the order may go on from here, by what the dumps ask.
    pub(crate) fn fits(&self) -> bool {
        !self.aims.is_numbered || self.aims.demands.fit(self.updates, self.space.hash())
    }

    /// Whether an order may end here.
    pub(crate) fn is_whole(&self) -> bool {
        if let Some(last) = self.aims.last {
            if self.space.hash() != last {
                return false;
            }
        }
        !self.aims.is_numbered || self.aims.demands.are_behind(self.updates)
    }

    fn close(&mut self, index: u32) {
        for at in 0..self.open.len() {
            if self.open[at] == index {
                self.open.swap_remove(at);
                self.mark = self.mark ^ mark_of(index);
                return;
            }
        }
    }

    fn reopen(&mut self, index: u32) -> Result<(), Memory> {
        self.open.push(index)?;
        self.mark = self.mark ^ mark_of(index);
        Ok(())
    }

    fn mark_put(&mut self, index: u32, is_put: bool) {
        if let Some(row) = self.is_put.get_mut(index as usize) {
            *row = is_put;
        }
    }

    /// Notes that an open call is put, which had this effect. False where no order goes on so.
    fn note(&mut self, index: u32, call: &Orderable, effect: Effect) -> Result<bool, Memory> {
        self.close(index);
        self.mark_put(index, true);
        self.order.push(index)?;
        self.trail.push(Done::Put(index, effect))?;
        let is_update = call.is_update();
        if is_update {
            self.updates = self.updates.saturating_add(1);
        }
        let takes = matches!(effect, Effect::Taken(_));
        if !self.stays.put(index, takes) {
            return Ok(false);
        }
        if !self.aims.is_numbered {
            return Ok(true);
        }
        if !self.aims.demands.allow(call, self.updates) {
            return Ok(false);
        }
        Ok(!is_update || self.fits())
    }

    /// Tries an open call as the next one. `None` where it isn't right there; false where no order goes on so.
    pub(crate) fn put(&mut self, index: u32) -> Result<Option<bool>, Memory> {
        let Some(call) = self.call(index) else {
            return Ok(None);
        };
        self.steps = self.steps.saturating_sub(1);
        let Some(effect) = self.space.make(call.request, call.answer)? else {
            return Ok(None);
        };
        if matches!(effect, Effect::Nothing) && !self.aims.is_numbered && !self.is_free(&call) {
            return Ok(None);
        }
        let goes = self.note(index, &call, effect)?;
        if !goes {
            return Ok(Some(false));
        }
        let fits = self.put_free(effect)?;
        Ok(Some(fits))
    }

    /// Puts the open calls that are free and right, once an effect may have made them so. False where no order goes on so.
    fn put_free(&mut self, effect: Effect) -> Result<bool, Memory> {
        if matches!(effect, Effect::Nothing) {
            return Ok(true);
        }
        let mut at = 0;
        for _ in 0..self.open.len() {
            let Some(index) = self.open.get(at).copied() else {
                break;
            };
            match self.put_if_freed(index, effect)? {
                None => at += 1,
                Some(true) => {}
                Some(false) => return Ok(false),
            }
        }
        Ok(true)
    }

    /// Puts an open call, if it is free, and right by this effect. False where no order goes on so.
    fn put_if_freed(&mut self, index: u32, effect: Effect) -> Result<Option<bool>, Memory> {
        match self.call(index) {
            Some(call) if may_matter(effect, &call) => self.put_if_free(index),
            _ => Ok(None),
        }
    }

    /// Puts an open call, if it is free and right. False where no order goes on so.
    fn put_if_free(&mut self, index: u32) -> Result<Option<bool>, Memory> {
        let Some(call) = self.call(index) else {
            return Ok(None);
        };
        if call.answer.is_none() || !self.is_free(&call) {
            return Ok(None);
        }
        self.steps = self.steps.saturating_sub(1);
        match self.space.make(call.request, call.answer)? {
            Some(_) => Ok(Some(self.note(index, &call, Effect::Nothing)?)),
            None => Ok(None),
        }
    }

    /// Opens a call, and puts it if it is free and right. False where no order goes on so.
    pub(crate) fn begin(&mut self, index: u32) -> Result<bool, Memory> {
        self.reopen(index)?;
        self.trail.push(Done::Opened(index))?;
        Ok(self.put_if_free(index)?.unwrap_or(true))
    }

    /// Takes the last thing back.
    fn take_back(&mut self, done: Done) -> Result<(), Memory> {
        match done {
            Done::Opened(index) => self.close(index),
            Done::Put(index, effect) => {
                self.space.take_back(effect)?;
                self.order.pop();
                self.mark_put(index, false);
                self.stays.take_back(index);
                self.reopen(index)?;
                if let Some(call) = self.call(index) {
                    if call.is_update() {
                        self.updates = self.updates.saturating_sub(1);
                    }
                }
            }
        }
        Ok(())
    }

    /// Takes back all but the first things that were done.
    pub(crate) fn undo(&mut self, trail: usize) -> Result<(), Memory> {
        for _ in trail..self.trail.len() {
            if let Some(done) = self.trail.pop() {
                self.take_back(done)?;
            }
        }
        Ok(())
    }

    /// Whether a call could be the next one, and the other one behind it.
    pub(crate) fn helps(&mut self, index: u32, other: &Orderable) -> Result<bool, Memory> {
        let Some(call) = self.call(index) else {
            return Ok(false);
        };
        self.steps = self.steps.saturating_sub(1);
        let Some(effect) = self.space.make(call.request, call.answer)? else {
            return Ok(false);
        };
        let helps = match self.space.make(other.request, other.answer)? {
            Some(next) => {
                self.space.take_back(next)?;
                true
            }
            None => false,
        };
        self.space.take_back(effect)?;
        Ok(helps)
    }

    /// Whether a call could be the next one.
    pub(crate) fn is_right(&mut self, call: &Orderable) -> Result<bool, Memory> {
        match self.space.make(call.request, call.answer)? {
            Some(effect) => {
                self.space.take_back(effect)?;
                Ok(true)
            }
            None => Ok(false),
        }
    }
}
