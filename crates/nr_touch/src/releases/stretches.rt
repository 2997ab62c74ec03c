//! Rows of pages that have gone: a search from the last row back steps over many at once.

ghost use Rattle.std.specs.Prelude.{◌≡◌, ℕ, ◌<◌, ◌≤◌, length, slice_index, IfOk};
ghost use Rattle.nr_touch.specs.inside.Stays.{AreStretches, EndsBy};

use crate::releases::lives::Lives;
use crate::releases::stays::Stay;
use std::alloc::Global;
use vs_types::Memory;

/// For each row a stretch of rows of its block that ends with it, and the last event of their stays. The k-th row of a block ends a stretch
/// of as many rows as the greatest power of two that divides k. So a search takes few steps to the next page that may still be found.
#[derive(Debug, Drop)]
pub(crate) struct Stretches {
    /// The first row of each stretch.
    pub(crate) since: Vec<usize>,
    pub(crate) until: Vec<u32>,
}

/// The last event of the stay of a row, or 0 where there is none.
fn end_of(stays: &[Stay], row: usize) -> u32
    ensures { EndsBy stays.now row result }
{
    if row >= stays.len() {
        return 0;
    }
    stays[row].until
}

/// The first row of the stretch that ends with this row, and the last event of its stays. The stretches of the rows before are known. It
/// takes in the stretch before it while that is of the same block and has as many rows.
fn stretch(lives: &Lives, stays: &[Stay], stretches: &Stretches, row: usize) -> (usize, u32)
    requires rows { length lives.now.rows.items ≡ length lives.now.blocks.items }
    requires within { row < length lives.now.rows.items }
    requires stretches { AreStretches stays.now lives.now.rows.items
        stretches.now.since.items stretches.now.until.items row }
    ensures within { result.0 ≤ row }
    ensures over { (j : ℕ) → result.0 ≤ j → j ≤ row
        → EndsBy stays.now (slice_index lives.now.rows.items j) result.1 }
{
    let mut first = row;
    let mut until = end_of(stays, lives.rows[row]);
    while first > 0 {
        let before = first - 1;
        if lives.blocks[before] != lives.blocks[row] {
            return (first, until);
        }
        let start = stretches.since[before];
        if first - start != row + 1 - first {
            return (first, until);
        }
        until = until.max(stretches.until[before]);
        first = start;
    }
    (first, until)
}

impl Stretches {
    /// The stretches of the rows of lives. Allocates 12 bytes for each row.
    pub(crate) fn of(alloc: Global, lives: &Lives, stays: &[Stay]) -> Result<Stretches, Memory>
        requires { length lives.now.rows.items ≡ length lives.now.blocks.items }
        ensures { IfOk result (λ stretches. AreStretches stays.now lives.now.rows.items
            stretches.since.items stretches.until.items (length lives.now.rows.items)) }
    {
        let mut stretches = Stretches {
            since: Vec::new(alloc),
            until: Vec::new(alloc),
        };
        for row in 0..lives.rows.len() {
            let (first, until) = stretch(lives, stays, &stretches, row);
            stretches.since.push(first)?;
            stretches.until.push(until)?;
        }
        Ok(stretches)
    }
}
