//! Where a space has the memory that an answer names.

ghost use Rattle.std.specs.Prelude.{◌≡◌, ℕ, Contains, IfNone, IfOk, IfSome};
ghost use Rattle.vs_types.specs.Page.{IsPage};
ghost use Rattle.vs_types.specs.declared.addresses.depth.Depth.{Depth};
ghost use Rattle.vs_types.specs.declared.addresses.page.Page.{Page as PageRow};
ghost use Rattle.nr_explain.specs.Nearest.{named_memory, IsMemoryOf, IsWhere};
ghost use Rattle.nr_explain.specs.inside.Nearest.{LeadsTo};

use crate::trace::nearby::NamedMemory;
use vs_plain::PlainSpace;
use vs_types::{Answer, Memory, Page};

/// The physical address that an answer names, if it names one.
fn named_memory(answer: Answer) -> Option<u64>
    ensures { result ≡ named_memory answer }
{
    match answer {
        Answer::Removed(phys, _, _) | Answer::Mapped(phys, _, _) | Answer::Allowed(phys) => {
            Some(phys)
        }
        _ => None,
    }
}

/// The address of a page that is translated to a physical address, if one is.
fn address_in(page: Page, phys: u64) -> Option<u64>
    requires { (depth : Depth) × IsPage depth page }
    ensures none { IfNone result ((address : ℕ) → LeadsTo page address phys → ⊥) }
    ensures some { IfSome result (λ address. LeadsTo page address phys) }
{
    if phys < page.phys {
        return None;
    }
    let offset = phys - page.phys;
    if offset >= page.size.bytes() {
        return None;
    }
    Some(page.base + offset)
}

/// The first address of pages that is translated to a physical address, if one is.
fn address_among(pages: &[Page], phys: u64) -> Option<u64>
    requires { (page : PageRow) → Contains pages.now page → (depth : Depth) × IsPage depth page }
    ensures none { IfNone result ((page : PageRow) → Contains pages.now page → (address : ℕ)
        → LeadsTo page address phys → ⊥) }
    ensures some { IfSome result (λ address.
        (page : PageRow) × Contains pages.now page × LeadsTo page address phys) }
{
    for page in pages {
        if let Some(address) = address_in(*page, phys) {
            return Some(address);
        }
    }
    None
}

/// The first address that a space translates to a physical address, if there is one. Allocates a list of the pages.
fn where_is(space: &PlainSpace, phys: u64) -> Result<Option<u64>, Memory>
    ensures { IfOk result (IsWhere space.now.space phys) }
{
    let pages = space.pages()?;
    Ok(address_among(pages.as_slice(), phys))
}

/// Where a space has the memory that an answer names, if it names any. Allocates a list of the pages.
pub(crate) fn memory_of(space: &PlainSpace, told: Answer) -> Result<Option<NamedMemory>, Memory>
    ensures { IfOk result (IsMemoryOf space.now.space told) }
{
    let Some(phys) = named_memory(told) else {
        return Ok(None);
    };
    let address = where_is(space, phys)?;
    Ok(Some(NamedMemory { phys, address }))
}
