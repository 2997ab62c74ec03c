//! A release beside the pages that no update of its segment changed: those of the index.

ghost use Rattle.std.specs.Prelude.{IsTrue};
ghost use Rattle.vs_types.specs.Space.{Holds};
ghost use Rattle.vs_types.specs.declared.addresses.page.Page.{Page as PageRow};
ghost use Rattle.nr_trace.specs.Recording.{IsMemory};
ghost use Rattle.nr_touch.specs.inside.Indexed.{IsIndexed};
ghost use Rattle.nr_touch.specs.inside.Joined.{Behind, IsBuilt};
ghost use Rattle.nr_touch.specs.inside.Blocks.{IsBlockOf};
ghost use Rattle.nr_touch.specs.inside.Reached.{LeadsSo, LeadsThere};

use crate::releases::index::{Index, page_from};
use crate::releases::meeting::leads_there;
use crate::releases::release::Release;
use crate::touches::joined::Joined;

/// Whether an access that begins with the release could reach its memory through a page that the index has in this block.
pub(crate) fn leads_in_pages(joined: &Joined, index: &Index, release: &Release, block: u64) -> bool
    requires built { IsBuilt joined.now }
    requires memory { IsMemory release.now.size release.now.phys }
    ensures sound { (b : Behind joined.now) → IsTrue result
        → (page : PageRow) × LeadsThere b release.now page }
    ensures whole { (b : Behind joined.now) (page : PageRow) → Holds joined.now.space.space page
        → IsIndexed index.now page → IsBlockOf page block → LeadsSo b release.now page
        → IsTrue result }
{
    for row in index.rows.range((block, 0)..=(block, u64::MAX)) {
        if let Some(page) = page_from(&joined.space, row.1) {
            if leads_there(joined, release, page) {
                return true;
            }
        }
    }
    false
}
