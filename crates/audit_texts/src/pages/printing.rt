//! What is printed of the pages of a dump, and of a space.

ghost use Rattle.std.specs.Prelude.{◌≡◌, IfErr, IfOk, None, OnOk, Some, false, true, string_bytes};
ghost use Rattle.vs_types.specs.Refusal.{IfRefused};
ghost use Rattle.vs_types.specs.Space.{pages, IsSpace};
ghost use Rattle.vs_walk.specs.Traversal.{walk_fault};
ghost use Rattle.audit_texts.specs.Dumps.{dump_text};
ghost use Rattle.audit_texts.specs.Listing.{pages_text};

use crate::pages::visitors::{PageLines, RangeLines};
use std::alloc::Global;
use vs_plain::PlainSpace;
use vs_types::{Depth, Fail, Memory};
use vs_walk::laws::frames_are_a_dump;
use vs_walk::{Dump, PageVisitor, WalkFault, traverse};

/// The lines of its pages.
fn lines_of_pages(alloc: Global, dump: &Dump, depth: Depth) -> Result<String, Fail<WalkFault>>
    ensures text { IfOk result (λ text. string_bytes text ≡ dump_text false depth dump.now) }
    ensures faultless { OnOk result (walk_fault depth dump.now.frames dump.now.root ≡ None) }
    ensures first { IfErr result
        (IfRefused (λ fault. walk_fault depth dump.now.frames dump.now.root ≡ Some fault)) }
{
    let mut lines = PageLines::new(alloc);
    traverse(alloc, dump, dump.root(), depth, &mut lines)?;
    Ok(lines.text)
}

/// The lines of their ranges.
fn lines_of_ranges(alloc: Global, dump: &Dump, depth: Depth) -> Result<String, Fail<WalkFault>>
    ensures text { IfOk result (λ text. string_bytes text ≡ dump_text true depth dump.now) }
    ensures faultless { OnOk result (walk_fault depth dump.now.frames dump.now.root ≡ None) }
    ensures first { IfErr result
        (IfRefused (λ fault. walk_fault depth dump.now.frames dump.now.root ≡ Some fault)) }
{
    frames_are_a_dump(dump);
    let mut lines = RangeLines::new(alloc);
    traverse(alloc, dump, dump.root(), depth, &mut lines)?;
    Ok(lines.end()?)
}

/// The pages that a dump maps, by rising base: a line for each, or, as ranges, one for all that follow one another with one size
/// and the same rights, virtually and physically. It goes once through the tables. It allocates memory for the text and for the numbers
/// of the frames that are reached, and keeps no pages.
///
/// # Errors
///
/// The first fault of the traversal (a frame that is missing, one that is reached a second time, or a word with a reserved bit
/// set), or out of memory.
pub fn dump_text(
    alloc: Global,
    dump: &Dump,
    depth: Depth,
    as_ranges: bool,
) -> Result<String, Fail<WalkFault>>
    ensures text { IfOk result (λ text. string_bytes text ≡ dump_text as_ranges depth dump.now) }
    ensures faultless { OnOk result (walk_fault depth dump.now.frames dump.now.root ≡ None) }
    ensures first { IfErr result
        (IfRefused (λ fault. walk_fault depth dump.now.frames dump.now.root ≡ Some fault)) }
{
    if as_ranges {
        lines_of_ranges(alloc, dump, depth)
    } else {
        lines_of_pages(alloc, dump, depth)
    }
}

/// The lines of the pages of a space.
fn lines_of_space(alloc: Global, space: &PlainSpace) -> Result<String, Memory>
    ensures text { IfOk result (λ text. string_bytes text
        ≡ pages_text false (pages space.now.space)) }
    ensures apart { IsSpace space.now.depth space.now.space }
{
    let mut lines = PageLines::new(alloc);
    for page in space.iter() {
        lines.take(page)?;
    }
    Ok(lines.text)
}

/// The lines of their ranges.
fn ranges_of_space(alloc: Global, space: &PlainSpace) -> Result<String, Memory>
    ensures text { IfOk result (λ text. string_bytes text
        ≡ pages_text true (pages space.now.space)) }
    ensures apart { IsSpace space.now.depth space.now.space }
{
    let mut lines = RangeLines::new(alloc);
    for page in space.iter() {
        lines.take(page)?;
    }
    lines.end()
}

/// The pages of a space by rising base, as `dump_text` has those of a dump. It allocates memory for the text, and keeps no pages.
///
/// # Errors
///
/// Out of memory.
pub fn space_text(alloc: Global, space: &PlainSpace, as_ranges: bool) -> Result<String, Memory>
    ensures text { IfOk result
        (λ text. string_bytes text ≡ pages_text as_ranges (pages space.now.space)) }
    ensures apart { IsSpace space.now.depth space.now.space }
{
    if as_ranges {
        ranges_of_space(alloc, space)
    } else {
        lines_of_space(alloc, space)
    }
}
