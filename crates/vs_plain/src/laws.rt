//! What holds of each plain address space.
ghost use Rattle.vs_types.specs.Space.{IsSpace};

use crate::plain::PlainSpace;

/// The pages of a plain address space are well formed, and no two of them cover one address.
pub fn pages_are_a_space(space: &PlainSpace)
    ensures { IsSpace space.now.depth space.now.space }
{
    let _pages = space.iter();
}
