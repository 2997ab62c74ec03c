//! The blocks of memory that pages lead into, and that releases are about.

ghost use Rattle.std.specs.Prelude.{◌≡◌};
ghost use Rattle.nr_touch.specs.inside.Blocks.{around, blocks_at, whole};

use crate::changes::history::number_at;
use vs_types::{Page, Size};

/// The number of the memory of this size that has the physical address, as that in which a page lies.
pub(crate) fn around(phys: u64, size: Size) -> u64
    ensures { result ≡ around phys size }
{
    number_at(phys, size)
}

/// The number of the memory of this size that has the physical address, as that of a whole page.
pub(crate) fn whole(phys: u64, size: Size) -> u64
    ensures { result ≡ whole phys size }
{
    number_at(phys, size) + 3
}

/// The blocks that a page leads into: the memory of each size in which it lies, and its own.
pub(crate) fn blocks(page: Page) -> [u64; 4]
    ensures { result ≡ blocks_at page }
{
    [
        around(page.phys, Size::K4),
        around(page.phys, Size::M2),
        around(page.phys, Size::G1),
        whole(page.phys, page.size),
    ]
}
