//! Pages that follow one another.

ghost use Rattle.std.specs.Prelude.{◌≡◌, ◌<◌, ◌≤◌, ◌^◌, ◌⊎◌, ◌↔◌, IsTrue, IfNone, IfSome};
ghost use Rattle.audit_texts.specs.Ranges.{alone, longer, page_after, range_bytes, range_end};

use vs_types::Page;

/// Pages of one size and with the same rights that follow one another, virtually and physically.
#[derive(Clone, Copy, Debug)]
pub(crate) struct PageRange {
    /// The first of them.
    pub(crate) first: Page,
    /// How many they are.
    pub(crate) count: u64,
}

fn are_equal(left: Page, right: Page) -> bool
    ensures { IsTrue result ↔ (left ≡ right) }
{
    left == right
}

impl PageRange {
    /// One page.
    pub(crate) fn alone(page: Page) -> PageRange
        ensures { result ≡ alone page }
    {
        PageRange {
            first: page,
            count: 1,
        }
    }

    /// How many bytes it has, where they are below 2^64.
    fn bytes(self) -> Option<u64>
        ensures some { IfSome result (λ bytes. bytes ≡ range_bytes self) }
        ensures none { IfNone result (2 ^ 64 ≤ range_bytes self) }
    {
        self.count.checked_mul(self.first.size.bytes())
    }

    /// The first address after it, where that is below 2^64.
    pub(crate) fn end(self) -> Option<u64>
        ensures some { IfSome result (λ end. end ≡ range_end self) }
        ensures none { IfNone result (2 ^ 64 ≤ range_end self) }
    {
        let bytes = self.bytes()?;
        self.first.base.checked_add(bytes)
    }

    /// The page that would go on with it, where there can be one.
    fn page_after(self) -> Option<Page>
        ensures some { IfSome result (λ page. page ≡ page_after self) }
        ensures none { IfNone result
            ((2 ^ 64 ≤ (page_after self).base) ⊎ (2 ^ 64 ≤ (page_after self).phys)) }
    {
        let bytes = self.bytes()?;
        let base = self.first.base.checked_add(bytes)?;
        let phys = self.first.phys.checked_add(bytes)?;
        Some(Page {
            base,
            size: self.first.size,
            rights: self.first.rights,
            phys,
        })
    }

    /// Whether the page goes on with it.
    pub(crate) fn goes_on_with(self, page: Page) -> bool
        ensures { IsTrue result ↔ (page ≡ page_after self) }
    {
        match self.page_after() {
            Some(next) => are_equal(page, next),
            None => false,
        }
    }

    /// With the page that goes on with it.
    pub(crate) fn longer(self) -> PageRange
        requires { range_end self < 2 ^ 64 }
        ensures { result ≡ longer self }
    {
        PageRange {
            first: self.first,
            count: self.count + 1,
        }
    }
}
