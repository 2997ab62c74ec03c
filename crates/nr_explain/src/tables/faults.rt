//! What shows a fault of tables, those of a dump or of a start.

ghost use Rattle.std.specs.Prelude.{◌≡◌, IfOk};
ghost use Rattle.vs_walk.specs.Differences.{HasMissingFrame, HasReservedBit, HasSharedFrame};
ghost use Rattle.nr_explain.specs.Evidence.{IsMissingTable, IsReservedEntry, IsSharedTable};

use crate::tables::paths::{another_way, way_to_frame, way_to_reserved};
use crate::trace::evidence::{MissingTable, Owner, ReservedEntry, SharedTable};
use std::alloc::Global;
use vs_types::{Depth, Memory};
use vs_walk::Dump;

/// The entries that lead to a frame that the tables' owner lacks. Allocates memory for them.
pub(crate) fn missing_table(
    alloc: Global,
    owner: Owner,
    image: &Dump,
    depth: Depth,
    frame: u64,
) -> Result<MissingTable, Memory>
    requires { HasMissingFrame depth image.now frame }
    ensures owner { IfOk result (λ wrong. wrong.owner ≡ owner) }
    ensures frame { IfOk result (λ wrong. wrong.frame ≡ frame) }
    ensures is { IfOk result (IsMissingTable depth image.now) }
{
    let path = way_to_frame(alloc, image, depth, frame)?;
    Ok(MissingTable { owner, frame, path })
}

/// The entries that lead to a frame, and others that lead there too. Allocates memory for them.
pub(crate) fn shared_table(
    alloc: Global,
    owner: Owner,
    image: &Dump,
    depth: Depth,
    frame: u64,
) -> Result<SharedTable, Memory>
    requires { HasSharedFrame depth image.now frame }
    ensures owner { IfOk result (λ wrong. wrong.owner ≡ owner) }
    ensures frame { IfOk result (λ wrong. wrong.frame ≡ frame) }
    ensures is { IfOk result (IsSharedTable depth image.now) }
{
    let first = way_to_frame(alloc, image, depth, frame)?;
    let (first, second) = another_way(alloc, image, depth, frame, first)?;
    Ok(SharedTable {
        owner,
        frame,
        first,
        second,
    })
}

/// The entries that lead to a table which has a word with a reserved bit set, that word, and the lowest such bit. Allocates them.
pub(crate) fn reserved_entry(
    alloc: Global,
    owner: Owner,
    image: &Dump,
    depth: Depth,
    frame: u64,
    index: u16,
) -> Result<ReservedEntry, Memory>
    requires { HasReservedBit depth image.now frame index }
    ensures owner { IfOk result (λ wrong. wrong.owner ≡ owner) }
    ensures frame { IfOk result (λ wrong. wrong.entry.frame ≡ frame) }
    ensures index { IfOk result (λ wrong. wrong.entry.index ≡ index) }
    ensures is { IfOk result (IsReservedEntry depth image.now) }
{
    let (path, entry, bit) = way_to_reserved(alloc, image, depth, frame, index)?;
    Ok(ReservedEntry {
        owner,
        path,
        entry,
        bit,
    })
}
