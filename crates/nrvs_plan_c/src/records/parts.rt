//! The calls for C that begin an unmap of parts of a page, and a collapse.
ghost use Rattle.std.specs.Prelude.{◌≡◌, ◌≢◌, nat_lt, if◌then◌else◌};
ghost use Rattle.vs_plan.specs.declared.plans.request.Request.{Request};
ghost use Rattle.vs_plan.specs.Request.{request_fault};
ghost use Rattle.nrvs_plan_c.specs.Kept.{request_in, rights_in, target_in, target_of};
ghost use Rattle.nrvs_plan_c.specs.Next.{HasBegun};
ghost use Rattle.nrvs_plan_c.specs.Status.{begun_status, target_status};

use crate::begin::{begin, call_of, call_with};
use crate::records::kept::{Call, Plan, Target};

/// Begins the plan of an unmap of parts of a page.
#[unsafe(no_mangle)]
pub extern "C" fn nrvs_plan_unmap_part(
    plan: &mut Plan,
    target: &Target,
    base: u64,
    first: u64,
    count: u64,
) -> u32
    ensures status { result ≡ target_status target.now.levels target.now.phys_bits
        (begun_status (request_fault (target_of target.now) (Request.UnmapPart base first count))) }
    ensures target { result ≡ 32 → target_in plan.new.call ≡ target_of target.now }
    ensures request { result ≡ 32 → request_in plan.new.call
        ≡ Request.UnmapPart base first count }
    ensures begun { result ≡ 32 → HasBegun plan.new }
    ensures refused { result ≢ 32 → plan.new ≡ plan.old }
{
    let call = match call_of(target, 8, base) {
        Ok(call) => call,
        Err(status) => return status,
    };
    let call = Call {
        physical: first,
        bits: count,
        ..call
    };
    begin(plan, call)
}

/// Begins the plan of a collapse.
#[unsafe(no_mangle)]
pub extern "C" fn nrvs_plan_collapse(
    plan: &mut Plan,
    target: &Target,
    base: u64,
    physical: u64,
    rights: u32,
) -> u32
    ensures status { result ≡ target_status target.now.levels target.now.phys_bits
        (if nat_lt 7 rights then 7 else begun_status (request_fault (target_of target.now)
        (Request.Collapse base physical (rights_in rights)))) }
    ensures target { result ≡ 32 → target_in plan.new.call ≡ target_of target.now }
    ensures request { result ≡ 32 → request_in plan.new.call
        ≡ Request.Collapse base physical (rights_in rights) }
    ensures begun { result ≡ 32 → HasBegun plan.new }
    ensures refused { result ≢ 32 → plan.new ≡ plan.old }
{
    match call_with(target, 9, base, rights) {
        Ok(call) => begin(plan, Call { physical, ..call }),
        Err(status) => status,
    }
}
