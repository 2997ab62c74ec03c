//! What is written to arrays that C lends.

ghost use Rattle.std.specs.Prelude.{◌≡◌};
ghost use Rattle.audit_numbers.specs.Told.{array_after, with_items};

use nr_audit::Verdict;

/// Writes the calls of an order where there is room for all of them.
fn write_calls(calls: &[u32], order: &mut [u32])
    ensures { order.new ≡ with_items calls.now order.old }
{
    if calls.len() <= order.len() {
        order[..calls.len()].copy_from_slice(calls);
    }
}

/// Writes the calls of the order that a yes has, where there is room for all of them.
pub(crate) fn write_order(verdict: &Verdict, order: &mut [u32])
    ensures { order.new ≡ array_after verdict.now order.old }
{
    if let Verdict::Yes(found) = verdict {
        write_calls(found.calls(), order);
    }
}

/// Writes a text where there is room for all of it.
pub(crate) fn write_text(text: &[u8], array: &mut [u8])
    ensures { array.new ≡ with_items text.now array.old }
{
    if text.len() <= array.len() {
        array[..text.len()].copy_from_slice(text);
    }
}
