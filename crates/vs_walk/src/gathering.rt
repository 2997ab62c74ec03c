//! A dump of the frames that a traversal reaches.
ghost use Rattle.std.specs.Prelude.{◌≡◌, ◌<◌, ◌≤◌, ◌^◌, ℕ, length, All, Contains, IsTrue, Some, None, IfOk, IfErr, OnOk};
ghost use Rattle.std.specs.FinMap as finite;
ghost use Rattle.vs_types.specs.declared.limits.TheConstants.{FRAMES};
ghost use Rattle.vs_types.specs.Refusal.{IfRefused};
ghost use Rattle.vs_walk.specs.Traversal.{traversal, reached, walk_fault};

use crate::dump::Dump;
use crate::frames::Frames;
use crate::traversal::{PageVisitor, traverse};
use crate::walk::WalkFault;
use std::alloc::Global;
use vs_types::{Depth, Fail, Memory, Page};

/// Passes all pages over.
#[derive(Drop)]
struct PassOver;

impl PageVisitor for PassOver {
    ghost HasTaken = { λ _ _. Unit {0} };

    fn take(&mut self, _page: Page) -> Result<(), Memory> {
        Ok(())
    }
}

impl Dump {
    /// The dump of the page table whose root is the frame of number `root`, after `applied` entries of the log: just the
    /// frames that are reached from there, each with its words. Allocates memory for them.
    ///
    /// If the traversal meets no fault, at most 65,535 frames may be reached, with numbers below 2^40.
    ///
    /// # Errors
    ///
    /// The first fault of the traversal, or out of memory.
    pub fn gather<F: Frames>(
        alloc: Global,
        frames: &F,
        root: u64,
        depth: Depth,
        applied: u32,
    ) -> Result<Dump, Fail<WalkFault>>
        requires few { walk_fault depth (F.memory frames.now) root ≡ None
            → length (reached (traversal depth (F.memory frames.now) root)) ≤ FRAMES }
        requires in_range { walk_fault depth (F.memory frames.now) root ≡ None
            → All (λ number. number < 2 ^ 40)
            (reached (traversal depth (F.memory frames.now) root)) }
        ensures applied { IfOk result (λ dump. dump.applied ≡ applied) }
        ensures root { IfOk result (λ dump. dump.root ≡ root) }
        ensures held { IfOk result
            (λ dump. (number : ℕ)
            → Contains (reached (traversal depth (F.memory frames.now) root)) number
            → finite.get dump.frames number ≡ finite.get (F.memory frames.now) number) }
        ensures only { IfOk result
            (λ dump. (number : ℕ) → IsTrue (finite.contains_key dump.frames number)
            → Contains (reached (traversal depth (F.memory frames.now) root)) number) }
        ensures few { IfOk result (λ dump. finite.len dump.frames
            ≤ length (reached (traversal depth (F.memory frames.now) root))) }
        ensures faultless { OnOk result (walk_fault depth (F.memory frames.now) root ≡ None) }
        ensures first { IfErr result
            (IfRefused (λ fault. walk_fault depth (F.memory frames.now) root ≡ Some fault)) }
    {
        let reached = traverse(alloc, frames, root, depth, &mut PassOver)?;
        let mut dump = Dump::new(alloc, applied, root);
        let numbers = reached.as_slice();
        dump.make_room(numbers.len())?;
        for number in numbers {
            let Some(words) = frames.words(*number) else {
                unreachable!();
            };
            dump.add(*number, &words)?;
        }
        Ok(dump)
    }
}
