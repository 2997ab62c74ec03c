//! A trace that is judged at once.

ghost use Rattle.std.specs.Prelude.{◌≡◌, ◌≢◌, ℕ, List, length};
ghost use Rattle.nr_audit.specs.Headline.{AreRightWith};
ghost use Rattle.audit_numbers.specs.Told.{IsAudited, with_items};

use crate::finding::Finding;
use crate::status::{NO_MEMORY, status_of};
use crate::written::write_order;
use nr_audit::audit;
use std::alloc::Global;

/// Whether bytes are those of a right trace: `audit` of `nr_audit`. Its verdict is given in numbers, and where it is yes and the array
/// has room for the order, the calls are written there, each as the index of its event. It allocates memory, which is freed when it
/// returns.
///
/// Returns 0 where the trace is right, 1 where it has the fault that `finding` says, and 3 where memory was refused; nothing is written
/// then.
pub fn judge_trace(alloc: Global, bytes: &[u8], order: &mut [u32], finding: &mut Finding) -> u32
    ensures told { result ≢ 3 → IsAudited bytes.now order.old result finding.new order.new }
    ensures right { result ≡ 0 → (calls : List ℕ) × AreRightWith bytes.now calls
        × (finding.new.calls ≡ length calls)
        × (order.new ≡ with_items calls order.old) }
    ensures refused_finding { result ≡ 3 → finding.new ≡ finding.old }
    ensures refused_order { result ≡ 3 → order.new ≡ order.old }
{
    let Ok(verdict) = audit(alloc, bytes) else {
        return NO_MEMORY;
    };
    *finding = Finding::of(&verdict);
    write_order(&verdict, order);
    status_of(&verdict)
}
