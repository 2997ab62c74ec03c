//! What is done to a page table, which is opened for it, and taken apart again.
ghost use Rattle.std.specs.Prelude.{◌≡◌, ◌+◌, ◌^◌, ◌<◌, ◌≤◌, [], length, drop};
ghost use Rattle.vs_types.specs.Depth.{levels};
ghost use Rattle.vs_types.specs.Operation.{IsAction};
ghost use Rattle.vs_types.specs.Space.{no_pages};
ghost use Rattle.vs_types.specs.declared.limits.TheConstants.{TABLES};
ghost use Rattle.vs_space.specs.Table.{IsTableOf, IsTableStep};
ghost use Rattle.nrvs_c.specs.Table.{IsOpen, IsUsable, depth_in, lent_table};

use crate::table::{Closed, Table, close, open};
use vs_arena::{FRAME_WORDS, FrameMark, LentArena};
use vs_space::{NoRoot, Space};
use vs_types::{Answer, Depth, Op};

/// Makes a page table with no pages in memory that is lent; at least one frame is. What marks there are beyond one for each frame stay.
pub(crate) fn make(
    table: &mut Table,
    words: &mut [[u64; FRAME_WORDS]],
    marks: &mut [FrameMark],
    depth: Depth,
    base: u64,
)
    requires some { 0 < length words.old }
    requires few { length words.old ≤ TABLES }
    requires in_range { base + length words.old ≤ 2 ^ 40 }
    requires marked { length words.old ≤ length marks.old }
    ensures usable { IsUsable table.new words.new marks.new }
    ensures open { IsOpen table.new words.new marks.new }
    ensures empty { IsTableOf (lent_table [] table.new words.new marks.new) no_pages }
    ensures levels { table.new.levels ≡ levels depth }
    ensures same_base { table.new.base ≡ base }
    ensures surplus { drop (length words.old) marks.new ≡ drop (length words.old) marks.old }
{
    let (own, _) = marks.split_at_mut(words.len());
    let closed = make_in(depth, base, words, own);
    *table = closed.table;
}

/// Does an operation. What marks there are beyond one for each frame stay.
pub(crate) fn apply(
    table: &mut Table,
    words: &mut [[u64; FRAME_WORDS]],
    marks: &mut [FrameMark],
    op: Op,
) -> Answer
    requires open { IsOpen table.old words.old marks.old }
    requires well_formed { IsAction (depth_in table.old) op }
    ensures usable { IsUsable table.new words.new marks.new }
    ensures open { IsOpen table.new words.new marks.new }
    ensures step { IsTableStep (lent_table [] table.old words.old marks.old) op result
        (lent_table [] table.new words.new marks.new) }
    ensures surplus { drop (length words.old) marks.new ≡ drop (length words.old) marks.old }
{
    let (own, _) = marks.split_at_mut(words.len());
    let changed = apply_in(*table, words, own, op);
    *table = changed.table;
    changed.answer
}

/// The memory lent and the handle after an operation, and what was answered.
#[derive(Drop)]
struct Changed<'a, 'b> {
    words: &'a mut [[u64; FRAME_WORDS]],
    marks: &'b mut [FrameMark],
    table: Table,
    answer: Answer,
}

/// Does what `make` does, in as many marks as frames.
fn make_in<'a, 'b>(
    depth: Depth,
    base: u64,
    words: &'a mut [[u64; FRAME_WORDS]],
    marks: &'b mut [FrameMark],
) -> Closed<'a, 'b>
    requires some { 0 < length words.old }
    requires few { length words.old ≤ TABLES }
    requires in_range { base + length words.old ≤ 2 ^ 40 }
    requires marked { length words.old ≤ length marks.old }
    ensures same_words { result.words.ghost_name ≡ words.entry.ghost_name }
    ensures same_marks { result.marks.ghost_name ≡ marks.entry.ghost_name }
    ensures usable { IsUsable result.table result.words.now result.marks.now }
    ensures open { IsOpen result.table result.words.now result.marks.now }
    ensures empty { IsTableOf (lent_table [] result.table result.words.now result.marks.now)
        no_pages }
    ensures levels { result.table.levels ≡ levels depth }
    ensures same_base { result.table.base ≡ base }
    ensures limit { length result.words.now ≡ length words.old }
{
    match Space::new(LentArena::new(base, words, marks), depth) {
        Ok(space) => close(space),
        Err(NoRoot) => unreachable!(),
    }
}

/// Does what `apply` does, in as many marks as frames.
fn apply_in<'a, 'b>(
    table: Table,
    words: &'a mut [[u64; FRAME_WORDS]],
    marks: &'b mut [FrameMark],
    op: Op,
) -> Changed<'a, 'b>
    requires open { IsOpen table words.old marks.old }
    requires well_formed { IsAction (depth_in table) op }
    ensures same_words { result.words.ghost_name ≡ words.entry.ghost_name }
    ensures same_marks { result.marks.ghost_name ≡ marks.entry.ghost_name }
    ensures usable { IsUsable result.table result.words.now result.marks.now }
    ensures open { IsOpen result.table result.words.now result.marks.now }
    ensures step { IsTableStep (lent_table [] table words.old marks.old) op result.answer
        (lent_table [] result.table result.words.now result.marks.now) }
{
    let mut space = open(table, words, marks);
    let answer = space.apply(op);
    let Closed {
        words,
        marks,
        table,
    } = close(space);
    Changed {
        words,
        marks,
        table,
        answer,
    }
}
