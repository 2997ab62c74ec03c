//! Room in lists whose final lengths the counts promise.

ghost use Rattle.std.specs.Prelude.{◌≡◌, ◌+◌, ◌≤◌, max, min, OnOk};
ghost use Rattle.std.specs.Vec.{vec_capacity, vec_len};

use std::cmp::{max, min};
use vs_types::Memory;

/// For how many more elements a list without enough room is given some: for as many as it has, at least 64, but for no
/// more than are promised; and for those that are needed.
pub(crate) fn room_step(held: usize, needed: usize, promised: usize) -> usize
    ensures { result ≡ max needed (min (max held 64) promised) }
{
    max(needed, min(max(held, 64), promised))
}

/// Makes room for so many more elements, and for no more than are promised. It allocates memory where there is no room.
pub(crate) fn make_room<T>(items: &mut Vec<T>, needed: usize, promised: usize) -> Result<(), Memory>
    ensures same { items.new.items ≡ items.old.items }
    ensures enough { OnOk result (vec_len items.new + needed ≤ vec_capacity items.new) }
    ensures at_most { OnOk result
        (vec_capacity items.new
        ≤ max (vec_capacity items.old) (vec_len items.old + max needed promised)) }
{
    if items.capacity() - items.len() < needed {
        items.reserve_exact(room_step(items.len(), needed, promised))?;
    }
    Ok(())
}
