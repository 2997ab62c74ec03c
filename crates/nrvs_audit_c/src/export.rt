//! The call for C that judges a trace.

ghost use Rattle.std.specs.Prelude.{◌≡◌, ◌≢◌, ℕ, List, length};
ghost use Rattle.nr_audit.specs.Headline.{AreRightWith};
ghost use Rattle.audit_numbers.specs.Told.{IsAudited, with_items};

use audit_numbers::{Finding, judge_trace};
use std::alloc::Global;

/// Whether bytes are those of a right trace: `audit` of `nr_audit`. Its verdict is given in numbers, and where it is yes and the array
/// has room for the order, the calls are written there. It allocates memory, which is freed when it returns; where some is refused,
/// it returns 3.
#[unsafe(no_mangle)]
pub extern "C" fn nrvs_audit(
    alloc: Global,
    bytes: &[u8],
    order: &mut [u32],
    finding: &mut Finding,
) -> u32
    ensures told { result ≢ 3 → IsAudited bytes.now order.old result finding.new order.new }
    ensures right { result ≡ 0 → (calls : List ℕ) × AreRightWith bytes.now calls
        × (finding.new.calls ≡ length calls)
        × (order.new ≡ with_items calls order.old) }
    ensures refused_finding { result ≡ 3 → finding.new ≡ finding.old }
    ensures refused_order { result ≡ 3 → order.new ≡ order.old }
{
    judge_trace(alloc, bytes, order, finding)
}
