//! Bounds of lists that are sorted by page.

ghost use Rattle.std.specs.Prelude.{◌≡◌, length};
ghost use Rattle.nr_touch.specs.inside.Bounds.{IsRaised, IsLowered};

/// Raises each number to the greatest one of its page up to it. The pages come by rising number.
pub(crate) fn raise(pages: &[u64], bounds: &mut [u32])
    requires { length pages.now ≡ length bounds.old }
    ensures { IsRaised pages.now bounds.old bounds.new (length bounds.old) }
{
    for index in 1..bounds.len() {
        if pages[index - 1] == pages[index] {
            bounds[index] = bounds[index].max(bounds[index - 1]);
        }
    }
}

/// Lowers each number to the least one of its page from it on. The pages come by rising number.
pub(crate) fn lower(pages: &[u64], bounds: &mut [u32])
    requires { length pages.now ≡ length bounds.old }
    ensures { IsLowered pages.now bounds.old bounds.new 0 }
{
    let count = bounds.len();
    for passed in 1..count {
        let index = count - 1 - passed;
        if pages[index] == pages[index + 1] {
            bounds[index] = bounds[index].min(bounds[index + 1]);
        }
    }
}
