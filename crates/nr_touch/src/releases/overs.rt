//! What releases were compared with in vain: a page that is over for a memory stays over, so a later release of it isn't compared with that
//! page again.

ghost use Rattle.std.specs.Prelude.{IfSome, IsTrue, OnOk};
ghost use Rattle.nr_touch.specs.inside.Joined.{Behind};
ghost use Rattle.nr_touch.specs.inside.Overs.{AddsNote, AreKnown, AreOver, IsNoted, IsOfMemory, KnowsNothing};
ghost use Rattle.nr_touch.specs.declared.releases.changed.Changed.{Changed as ChangedRow};
ghost use Rattle.nr_touch.specs.declared.touches.joined.Joined.{Joined as JoinedRow};

use crate::releases::release::Release;
use std::alloc::Global;
use std::collections::BTreeMap;
use vs_types::{Memory, Size};

/// From a release on, the first rows that are of a block, this many, don't lead to its memory.
#[derive(Clone, Copy, Debug)]
pub(crate) struct Over {
    pub(crate) release: Release,
    pub(crate) block: u64,
    pub(crate) rows: usize,
}

/// What is known by the releases so far: by the memory of a release and a block that it is about.
#[derive(Debug, Drop)]
pub(crate) struct Overs {
    pub(crate) known: BTreeMap<(u64, u64), Over>,
}

/// The number of a memory.
fn memory_of(release: &Release) -> u64 {
    match release.size {
        Size::K4 => release.phys,
        Size::M2 => release.phys | 1,
        Size::G1 => release.phys | 2,
    }
}

/// Whether the other release is of the memory of this one.
fn is_of(release: &Release, other: &Release) -> bool
    ensures { IsTrue result → IsOfMemory release.now other.now }
{
    if other.size != release.size {
        return false;
    }
    other.phys == release.phys
}

impl Overs {
    /// Before all releases nothing is known. It allocates no memory.
    pub(crate) fn none(alloc: Global) -> Overs
        ensures { KnowsNothing result }
    {
        Overs {
            known: BTreeMap::new(alloc),
        }
    }

    /// What was noted of the memory of a release, and of a block: a search.
    pub(crate) fn noted(&self, release: &Release, block: u64) -> Option<Over>
        ensures { IfSome result (IsNoted self.now release.now block) }
    {
        let Some(over) = self.known.get(&(memory_of(release), block)) else {
            return None;
        };
        if over.block != block {
            return None;
        }
        if !is_of(&over.release, release) {
            return None;
        }
        Some(*over)
    }

    /// How many of the first rows a release needs no comparison with, if they are of this block, and the releases come by event.
    pub(crate) fn rows(&self, release: &Release, block: u64) -> usize
        ensures { (joined : JoinedRow) (b : Behind joined) (changed : ChangedRow)
            → AreKnown b changed self.now → AreOver b changed release.now block 0 result }
    {
        let Some(over) = self.noted(release, block) else {
            return 0;
        };
        if release.made < over.release.made {
            return 0;
        }
        over.rows
    }

    /// Notes how many of the first rows are over from the release on, if they are of this block. Allocates memory for a new row.
    pub(crate) fn note(&mut self, release: &Release, block: u64, rows: usize) -> Result<(), Memory>
        ensures { OnOk result (AddsNote self.old release.now block rows self.new) }
    {
        let over = Over {
            release: *release,
            block,
            rows,
        };
        self.known.insert((memory_of(release), block), over)?;
        Ok(())
    }
}
