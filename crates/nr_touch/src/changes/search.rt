//! A search in a list that is sorted by page.

ghost use Rattle.std.specs.Prelude.{◌≡◌, ◌≤◌, ◌<◌, IsTrue, false};
ghost use Rattle.nr_touch.specs.inside.Bounds.{IsBoundary, IsFirstFrom, IsLastBelow, IsRising};

/// Whether a page's number and bound come before those that are looked for.
fn is_before(page: u64, bound: u64, of_page: u64, from_bound: u64) -> bool
    ensures page { IsTrue result → page ≤ of_page }
    ensures bound { IsTrue result → page ≡ of_page → bound < from_bound }
    ensures not_page { result ≡ false → of_page ≤ page }
    ensures not_bound { result ≡ false → page ≡ of_page → from_bound ≤ bound }
{
    if page == of_page {
        bound < from_bound
    } else {
        page < of_page
    }
}

/// The first index from which on page and bound are at least these, by halving.
pub(crate) fn search(pages: &[u64], bounds: &[u32], of_page: u64, from_bound: u64) -> usize
    requires { IsRising pages.now bounds.now }
    ensures { IsBoundary pages.now bounds.now of_page from_bound result }
{
    let mut low = 0;
    let mut high = pages.len();
    while low < high {
        let middle = low + (high - low) / 2;
        if is_before(
            pages[middle],
            u64::from(bounds[middle]),
            of_page,
            from_bound,
        ) {
            low = middle + 1;
        } else {
            high = middle;
        }
    }
    low
}

/// The last row of a page whose bound is below this one.
pub(crate) fn last_below(pages: &[u64], bounds: &[u32], of_page: u64, bound: u64) -> Option<usize>
    requires { IsRising pages.now bounds.now }
    ensures { IsLastBelow pages.now bounds.now of_page bound result }
{
    let behind = search(pages, bounds, of_page, bound);
    if behind == 0 {
        return None;
    }
    if pages[behind - 1] != of_page {
        return None;
    }
    Some(behind - 1)
}

/// The first row of a page whose bound is this one or more.
pub(crate) fn first_from(pages: &[u64], bounds: &[u32], of_page: u64, bound: u64) -> Option<usize>
    requires { IsRising pages.now bounds.now }
    ensures { IsFirstFrom pages.now bounds.now of_page bound result }
{
    let row = search(pages, bounds, of_page, bound);
    if row == pages.len() {
        return None;
    }
    if pages[row] != of_page {
        return None;
    }
    Some(row)
}
