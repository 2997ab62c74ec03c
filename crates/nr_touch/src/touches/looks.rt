//! How an address may still be found to look behind some segments.

ghost use Rattle.std.specs.Prelude.{◌≡◌, ◌↔◌, ◌∷◌, ◌++◌, ◌≤◌, ℕ, drop, length, reverse, take, IfOk, IfSome, IsTrue, [], List, None, Option};
ghost use Rattle.vs_types.specs.Page.{covers};
ghost use Rattle.nr_trace.specs.Run.{Run, end_of};
ghost use Rattle.nr_touch.specs.Looks.{is_ended, looks_left, AreLooksLeft};
ghost use Rattle.nr_touch.specs.Tails.{AreSound, HasIndexes, IsSoundLeft, IsTailOf, IsTailOfRun, KeepsChanges};
ghost use Rattle.nr_touch.specs.inside.Changes.{page_before};
ghost use Rattle.nr_touch.specs.inside.Lefts.{AreEndedBy};
ghost use Rattle.nr_touch.specs.declared.touches.tail.Left.{Left as LeftRow};

use crate::changes::change::Change;
use crate::touches::tail::{Left, Tail};
use std::alloc::Global;
use vs_types::{Answer, Memory};

/// Whether an address is one of the page of a change.
fn has(change: Change, address: u64) -> bool
    ensures { IsTrue result ↔ IsTrue (covers change.page address) }
{
    let base = change.page.base;
    if address < base {
        return false;
    }
    let offset = address - base;
    let bytes = change.page.size.bytes();
    if bytes <= offset {
        return false;
    }
    true
}

/// Whether later changes that have an address end that a page is found there, and that none is.
#[derive(Clone, Copy, Debug)]
struct Ended {
    page: bool,
    none: bool,
}

/// The same with one change before them, which has the address.
fn ended_with(ended: Ended, left: &Left) -> Ended
    ensures { (later : List LeftRow) (address : ℕ) → AreEndedBy later address ended
        → IsTrue (covers left.now.change.page address)
        → AreEndedBy (left.now ∷ later) address result }
{
    Ended {
        page: (left.over && left.change.takes) || ended.page,
        none: left.over || ended.none,
    }
}

/// Whether these end that an address is found to look as before the change.
fn is_ended(ended: Ended, change: Change) -> bool
    ensures { (changes : List LeftRow) (address : ℕ) → AreEndedBy changes address ended
        → result ≡ is_ended changes address (page_before change) }
{
    if change.was_mapped {
        ended.page
    } else {
        ended.none
    }
}

/// Adds the look that a change leaves, behind those of the later ones. Gives what ends with this one, and may allocate memory.
fn pass(looks: &mut Vec<Answer>, ended: Ended, left: &Left, address: u64) -> Result<Ended, Memory>
    requires { IsSoundLeft left.now }
    ensures { (later : List LeftRow) → AreEndedBy later address ended
        → looks.old.items ≡ reverse (looks_left later address)
        → IfOk result (λ now. AreEndedBy (left.now ∷ later) address now
        × (looks.new.items ≡ reverse (looks_left (left.now ∷ later) address))) }
{
    if !has(left.change, address) {
        return Ok(ended);
    }
    let now = ended_with(ended, left);
    if is_ended(now, left.change) {
        return Ok(now);
    }
    looks.push(left.change.look_before(address))?;
    Ok(now)
}

/// How an address may still be found to look by these changes. Allocates the list.
fn looks_of(alloc: Global, changes: &[Left], address: u64) -> Result<Vec<Answer>, Memory>
    requires { AreSound changes.now }
    ensures { IfOk result (λ looks. looks.items ≡ looks_left changes.now address) }
{
    let mut looks = Vec::new(alloc);
    let mut ended = Ended {
        page: false,
        none: false,
    };
    let count = changes.len();
    for passed in 0..count {
        ended = pass(&mut looks, ended, &changes[count - 1 - passed], address)?;
    }
    looks.reverse();
    Ok(looks)
}

/// The first changes, so many, of what was left before; none, where nothing was.
fn front_of(alloc: Global, before: Option<Tail>, count: usize) -> Vec<Left>
    ensures some { IfSome before (λ before. result.items ≡ take count before.changes.items) }
    ensures none { before ≡ None → result.items ≡ [] }
{
    match before {
        Some(tail) => {
            let mut changes = tail.changes;
            changes.truncate(count);
            changes
        }
        None => Vec::new(alloc),
    }
}

/// What this is the front of. Allocates memory for the rest.
fn with_rest(front: Vec<Left>, all: &[Left]) -> Result<Vec<Left>, Memory>
    requires { length front.items ≤ length all.now }
    ensures { IfOk result
        (λ rows. rows.items ≡ front.items ++ drop (length front.items) all.now) }
{
    let mut rows = front;
    let start = rows.len();
    rows.extend_from_slice(&all[start..])?;
    Ok(rows)
}

impl Tail {
    /// The same once more, but without the columns and the indexes of the pages: no segment goes on behind the copy. It is made of a copy
    /// of what was left before the last segment, if there is one. Allocates memory for the changes that it doesn't have.
    ///
    /// # Errors
    ///
    /// `Memory` where a growth of memory was refused.
    pub fn copy(&self, alloc: Global, before: Option<Tail>) -> Result<Tail, Memory>
        requires { IfSome before (λ before. KeepsChanges before self.now) }
        ensures changes { IfOk result
            (λ copy. copy.changes.items ≡ self.now.changes.items) }
        ensures tail { (before : Option Run) → IsTailOf before self.now
            → IfOk result (IsTailOf before) }
        ensures back { (run : Run) → HasIndexes self.now (end_of run)
            → IfOk result (λ copy. IsTailOfRun run copy → IsTailOfRun run self.now) }
    {
        let kept = self.kept;
        let front = front_of(alloc, before, kept);
        let changes = with_rest(front, &self.changes)?;
        Ok(Tail {
            changes,
            levels: Vec::new(alloc),
            index: None,
            kept,
        })
    }

    /// How an address may still be found to look: as before a change of it, where neither that one nor a later one of it ends this.
    /// Allocates the list of these looks, which are in the order of the log.
    ///
    /// # Errors
    ///
    /// `Memory` where a growth of memory was refused.
    pub fn looks_left(&self, alloc: Global, address: u64) -> Result<Vec<Answer>, Memory>
        requires { AreSound self.now.changes.items }
        ensures are { IfOk result
            (λ looks. AreLooksLeft self.now.changes.items address looks.items) }
        ensures list { IfOk result
            (λ looks. looks.items ≡ looks_left self.now.changes.items address) }
    {
        looks_of(alloc, &self.changes, address)
    }
}
