//! When pages lead into blocks of memory, by the pages' stays: sorted, so that one search finds those that lead into a block at an event.
//! The times at which updates are open are sorted and searched likewise.

ghost use Rattle.std.specs.Prelude.{◌≡◌, ◌+◌, ◌<◌, ◌^◌, ◌↔◌, ◌++◌, map, IfOk, IsTrue, OnOk};
ghost use Rattle.std.specs.List.Sorted.{IsNonDecreasingBy, IsPermutation};
ghost use Rattle.nr_touch.specs.inside.Bounds.{IsBoundary, IsRising};
ghost use Rattle.nr_touch.specs.inside.Lives.{lives_at, AreColumnsOf, AreLives, AreRowsOf, HaveLives, HaveRows, IsMet};

use crate::changes::bounds::raise;
use crate::changes::search::{last_below, search};
use crate::releases::block::{around, whole};
use crate::releases::stays::Stay;
use std::alloc::Global;
use vs_types::{Memory, Page, Size};

/// A page leads into a block of memory from one event to another; or an update of a page's addresses is open so long.
#[derive(Clone, Copy, Debug)]
pub(crate) struct Life {
    /// The number of the block, or of the page.
    pub(crate) block: u64,
    pub(crate) from: u32,
    pub(crate) until: u32,
    /// The index of what it is the life of: of the stay among those that are given, or of the update in the log.
    pub(crate) row: usize,
}

/// The lives by block and first event.
#[derive(Debug, Drop)]
pub(crate) struct Lives {
    pub(crate) blocks: Vec<u64>,
    pub(crate) from: Vec<u32>,
    /// The last event of each one, or of one before it of its block.
    pub(crate) until: Vec<u32>,
    /// What each one is the life of.
    pub(crate) rows: Vec<usize>,
}

/// The lives of a page: in the memory of each size, and as a whole.
fn lives_at(page: Page, from: u32, until: u32, row: usize) -> [Life; 4]
    ensures { result ≡ lives_at page from until row }
{
    let small = around(page.phys, Size::K4);
    let large = around(page.phys, Size::M2);
    let huge = around(page.phys, Size::G1);
    let own = whole(page.phys, page.size);
    [
        Life {
            block: small,
            from,
            until,
            row,
        },
        Life {
            block: large,
            from,
            until,
            row,
        },
        Life {
            block: huge,
            from,
            until,
            row,
        },
        Life {
            block: own,
            from,
            until,
            row,
        },
    ]
}

fn put_lives(
    lives: &mut Vec<Life>,
    page: Page,
    from: u32,
    until: u32,
    row: usize,
) -> Result<(), Memory>
    ensures { OnOk result (lives.new.items ≡ lives.old.items ++ lives_at page from until row) }
{
    lives.extend_from_slice(&lives_at(page, from, until, row))?;
    Ok(())
}

/// The lives of the stays, in their order.
fn lives_of(alloc: Global, stays: &[Stay]) -> Result<Vec<Life>, Memory>
    ensures { IfOk result (λ lives. HaveLives stays.now lives.items) }
{
    let mut lives = Vec::new(alloc);
    for (row, stay) in stays.iter().enumerate() {
        put_lives(&mut lives, stay.page, stay.from, stay.until, row)?;
    }
    Ok(lives)
}

/// Sorts the lives by first event.
fn sort_by_from(lives: &mut Vec<Life>) -> Result<(), Memory>
    ensures same { OnOk result (IsPermutation lives.old.items lives.new.items) }
    ensures rising { OnOk result (IsNonDecreasingBy (λ l. l.from) lives.new.items) }
{
    lives.sort_by_key(|each| each.from)?;
    Ok(())
}

/// Sorts the lives, which come by first event, by block and first event.
fn sort_by_block(lives: &mut Vec<Life>) -> Result<(), Memory>
    requires { IsNonDecreasingBy (λ l. l.from) lives.old.items }
    ensures same { OnOk result (IsPermutation lives.old.items lives.new.items) }
    ensures rising { OnOk result (IsRising (map (λ l. l.block) lives.new.items)
        (map (λ l. l.from) lives.new.items)) }
{
    lives.sort_by_key(|each| each.block)?;
    Ok(())
}

fn blocks_of(alloc: Global, lives: &[Life]) -> Result<Vec<u64>, Memory>
    ensures { IfOk result (λ v. v.items ≡ map (λ l. l.block) lives.now) }
{
    Ok(lives.iter().map(|each| each.block).collect(alloc)?)
}

fn from_of(alloc: Global, lives: &[Life]) -> Result<Vec<u32>, Memory>
    ensures { IfOk result (λ v. v.items ≡ map (λ l. l.from) lives.now) }
{
    Ok(lives.iter().map(|each| each.from).collect(alloc)?)
}

fn until_of(alloc: Global, lives: &[Life]) -> Result<Vec<u32>, Memory>
    ensures { IfOk result (λ v. v.items ≡ map (λ l. l.until) lives.now) }
{
    Ok(lives.iter().map(|each| each.until).collect(alloc)?)
}

fn rows_of(alloc: Global, lives: &[Life]) -> Result<Vec<usize>, Memory>
    ensures { IfOk result (λ v. v.items ≡ map (λ l. l.row) lives.now) }
{
    Ok(lives.iter().map(|each| each.row).collect(alloc)?)
}

impl Lives {
    /// Those of these stays. Allocates 192 bytes for each, of which half are freed.
    pub(crate) fn of(alloc: Global, stays: &[Stay]) -> Result<Lives, Memory>
        ensures lives { IfOk result AreLives }
        ensures rows { IfOk result (HaveRows stays.now) }
    {
        let lives = lives_of(alloc, stays)?;
        Lives::sorted(alloc, lives)
    }

    /// The columns of these. Allocates 24 bytes for each, and while it sorts a copy of them.
    pub(crate) fn sorted(alloc: Global, lives: Vec<Life>) -> Result<Lives, Memory>
        ensures lives { IfOk result AreLives }
        ensures columns { IfOk result (AreColumnsOf lives.items) }
        ensures rows { IfOk result (AreRowsOf lives.items) }
    {
        let mut lives = lives;
        sort_by_from(&mut lives)?;
        sort_by_block(&mut lives)?;
        let blocks = blocks_of(alloc, &lives)?;
        let from = from_of(alloc, &lives)?;
        let mut until = until_of(alloc, &lives)?;
        raise(&blocks, &mut until);
        let rows = rows_of(alloc, &lives)?;
        Ok(Lives {
            blocks,
            from,
            until,
            rows,
        })
    }

    /// How many lives come before the first one of the block that begins after the event: a search by halving.
    pub(crate) fn begun(&self, block: u64, event: u32) -> usize
        requires { AreLives self.now }
        ensures found { IsBoundary self.now.blocks.items self.now.from.items block
            (event + 1) result }
        ensures in_range { event < 2 ^ 32 }
    {
        search(&self.blocks, &self.from, block, u64::from(event) + 1)
    }

    /// Whether some life of the block has an event from the first one up to the last: a search by halving.
    pub(crate) fn meets(&self, block: u64, first: u32, last: u32) -> bool
        requires { AreLives self.now }
        ensures meets { IsTrue result ↔ IsMet self.now block first last }
        ensures in_range { last < 2 ^ 32 }
    {
        let Some(row) = last_below(&self.blocks, &self.from, block, u64::from(last) + 1) else {
            return false;
        };
        if self.until[row] < first {
            return false;
        }
        true
    }
}
