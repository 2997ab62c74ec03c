//! What is at an address, and the page before it.
ghost use Rattle.std.specs.Prelude.{◌≡◌, ◌≤◌};
ghost use Rattle.vs_types.specs.Page.{covers};

use vs_types::Page;

/// What is at an address: the page that covers it, or none, and the last page that begins before it.
pub(crate) enum Place {
    Covered(Page),
    Free(Option<Page>),
}

/// Whether a page that begins at the address or before it covers it.
pub(crate) fn reaches(page: Page, address: u64) -> bool
    requires { page.base ≤ address }
    ensures { result ≡ covers page address }
{
    address - page.base < page.size.bytes()
}
