//! Changes undone, from the last one back to the first.

ghost use Rattle.std.specs.Prelude.{◌≡◌, IfOk, OnOk};
ghost use Rattle.vs_types.specs.Space.{Space};
ghost use Rattle.nr_touch.specs.inside.Undo.{ComesFrom, LeadsTo};

use crate::changes::change::Change;
use vs_plain::PlainSpace;
use vs_types::{Action, Memory, Op};

/// Undoes a change: takes away the page that begins where that of the change does, if one begins there, and puts back the page that was
/// there before, if one was. Allocates memory where it puts a page back.
fn undo(space: &mut PlainSpace, change: Change) -> Result<(), Memory>
    requires { (before : Space) × ComesFrom space.old.depth before space.old.space change }
    ensures { (before : Space) → ComesFrom space.old.depth before space.old.space change
        → OnOk result (space.new ≡ record space.old { space = before }) }
{
    space.apply(Op::of(Action::Unmap(change.page.base)))?;
    if change.was_mapped {
        space.add(change.page)?;
    }
    Ok(())
}

/// The space before some changes, of the one after them. Allocates memory for the pages that it puts back.
pub(crate) fn undo_all(space: PlainSpace, changes: &[Change]) -> Result<PlainSpace, Memory>
    requires { (before : Space) × LeadsTo space.depth before changes.now space.space }
    ensures { (before : Space) → LeadsTo space.depth before changes.now space.space
        → IfOk result (λ found. found ≡ record space { space = before }) }
{
    let mut space = space;
    let count = changes.len();
    for undone in 0..count {
        undo(&mut space, changes[count - 1 - undone])?;
    }
    Ok(space)
}
