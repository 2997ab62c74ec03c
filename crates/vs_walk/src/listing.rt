//! The list of the pages that a page table maps.
ghost use Rattle.std.specs.Prelude.{◌≡◌, ◌<◌, ℕ, Some, None, IfOk, IfErr, OnOk};
ghost use Rattle.std.specs.List.{AllPairs};
ghost use Rattle.vs_types.specs.Depth.{IsCanonical};
ghost use Rattle.vs_types.specs.Refusal.{IfRefused};
ghost use Rattle.vs_walk.specs.InFormat.{traversal_in, walk_fault_in};
ghost use Rattle.vs_walk.specs.Reached.{AreJust};
ghost use Rattle.vs_walk.specs.Traversal.{found, reached, traversal, walk_fault};
ghost use Rattle.vs_walk.specs.Walk.{walk};
ghost use Rattle.vs_walk.specs.Memory.{AreWhole};
ghost use Rattle.vs_types.specs.Space.{page_covering};
ghost use Rattle.vs_walk.specs.Laws.{as_found};

use crate::frames::Frames;
use crate::pages::{Leaves, Pages};
use crate::reached::Reached;
use crate::traversal::{VisitorOf, traverse_in};
use crate::walk::WalkFault;
use std::alloc::Global;
use vs_types::{Depth, EntryFormat, Fail, Memory};

/// What the tables of a memory map, in a format whose pages are of this type, and the frames that they take.
#[derive(Drop)]
pub struct LeavesOf<P> {
    /// The pages, in the order in which they are found.
    pub pages: Vec<P>,
    /// The frames that are reached, by rising number.
    pub reached: Reached,
}

/// Pages one after another.
#[derive(Drop)]
struct Taken<P> {
    pages: Vec<P>,
}

impl<P: Copy> VisitorOf<P> for Taken<P> {
    ghost HasVisited = { λ taken pages. taken.pages.items ≡ pages };

    fn visit(&mut self, page: P) -> Result<(), Memory> {
        self.pages.push(page)?;
        Ok(())
    }
}

/// All pages that the table in the frame of number `root` maps, in any format of entries, and the frames that are reached from there.
/// Allocates memory for both.
///
/// # Errors
///
/// The first fault of the traversal, or out of memory.
pub fn leaves_in<F: Frames, E: EntryFormat>(
    alloc: Global,
    frames: &F,
    root: u64,
    format: E,
) -> Result<LeavesOf<E::Page>, Fail<WalkFault>>
    ensures pages { IfOk result
        (λ leaves. leaves.pages.items ≡ found (traversal_in (E.format format) (F.memory frames.now) root)) }
    ensures reached { IfOk result
        (λ leaves. AreJust leaves.reached (reached (traversal_in (E.format format) (F.memory frames.now) root))) }
    ensures faultless { OnOk result (walk_fault_in (E.format format) (F.memory frames.now) root ≡ None) }
    ensures first { IfErr result
        (IfRefused (λ fault. walk_fault_in (E.format format) (F.memory frames.now) root ≡ Some fault)) }
{
    let mut taken = Taken {
        pages: Vec::new(alloc),
    };
    let reached = traverse_in(alloc, frames, root, format, &mut taken)?;
    Ok(LeavesOf {
        pages: taken.pages,
        reached,
    })
}

/// All pages that the table in the frame of number `root` maps, and the frames that are reached from there. Allocates
/// memory for both.
///
/// # Errors
///
/// The first fault of the traversal (a frame that is missing, one that is reached a second time, or a word with a reserved bit
/// set), or out of memory.
pub fn leaves<F: Frames>(
    alloc: Global,
    frames: &F,
    root: u64,
    depth: Depth,
) -> Result<Leaves, Fail<WalkFault>>
    ensures pages { IfOk result
        (λ leaves. leaves.pages ≡ found (traversal depth (F.memory frames.now) root)) }
    ensures reached { IfOk result
        (λ leaves. AreJust leaves.reached (reached (traversal depth (F.memory frames.now) root))) }
    ensures faultless { OnOk result (walk_fault depth (F.memory frames.now) root ≡ None) }
    ensures rising { IfOk result
        (λ leaves. AreWhole (F.memory frames.now)
        → AllPairs (λ p q. p.base < q.base) leaves.pages) }
    ensures walked { IfOk result
        (λ leaves. AreWhole (F.memory frames.now) → (address : ℕ) → IsCanonical depth address
        → walk depth (F.memory frames.now) root address
        ≡ as_found address (page_covering address leaves.pages)) }
    ensures first { IfErr result
        (IfRefused (λ fault. walk_fault depth (F.memory frames.now) root ≡ Some fault)) }
{
    let leaves = leaves_in(alloc, frames, root, depth)?;
    Ok(Leaves {
        pages: Pages::of(leaves.pages),
        reached: leaves.reached,
    })
}
