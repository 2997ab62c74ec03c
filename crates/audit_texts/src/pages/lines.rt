//! The lines of pages and of ranges.

ghost use Rattle.std.specs.Prelude.{◌≡◌, ◌≤◌, ◌^◌, ◌++◌, OnOk, string_bytes};
ghost use Rattle.vs_text.specs.Words.{hexadecimal};
ghost use Rattle.audit_texts.specs.Listing.{mapping_text, page_line, range_line};
ghost use Rattle.audit_texts.specs.Ranges.{range_end};

use crate::pages::range::PageRange;
use std::alloc::AllocError;
use vs_text::{push_address, push_rights, size_text};
use vs_types::{Page, Rights, Size};

/// Adds a size, a physical address and rights, and ends the line.
fn push_mapping(text: &mut String, size: Size, phys: u64, rights: Rights) -> Result<(), AllocError>
    ensures { OnOk result
        (string_bytes text.new ≡ string_bytes text.old ++ mapping_text size phys rights) }
{
    text.push_str(size_text(size))?;
    text.push(' ')?;
    push_address(text, phys)?;
    text.push(' ')?;
    push_rights(text, rights)?;
    text.push_str("\n")
}

/// Adds the line of a page. If memory runs out, a part of it may have been added.
#[tactic(auto, unfolding(crate::specs::Listing::page_line))]
pub(crate) fn push_page_line(text: &mut String, page: Page) -> Result<(), AllocError>
    ensures { OnOk result (string_bytes text.new ≡ string_bytes text.old ++ page_line page) }
{
    push_address(text, page.base)?;
    text.push(' ')?;
    push_mapping(text, page.size, page.phys, page.rights)
}

/// Adds the first address after a range.
fn push_end(text: &mut String, range: PageRange) -> Result<(), AllocError>
    ensures { OnOk result (range_end range ≤ 2 ^ 64
        → string_bytes text.new ≡ string_bytes text.old ++ hexadecimal (range_end range)) }
{
    match range.end() {
        Some(end) => push_address(text, end),
        None => text.push_str("0x10000000000000000"),
    }
}

/// Adds the line of a range. If memory runs out, a part of it may have been added.
#[tactic(auto, unfolding(crate::specs::Listing::range_line))]
pub(crate) fn push_range_line(text: &mut String, range: PageRange) -> Result<(), AllocError>
    ensures { OnOk result (range_end range ≤ 2 ^ 64
        → string_bytes text.new ≡ string_bytes text.old ++ range_line range) }
{
    let first = range.first;
    push_address(text, first.base)?;
    text.push(' ')?;
    push_end(text, range)?;
    text.push(' ')?;
    push_mapping(text, first.size, first.phys, first.rights)
}
