//! Ranges by one call, over frames that lie one after another in memory: a direct map.
ghost use Rattle.std.specs.Prelude.{◌≡◌, ◌≢◌, nat_lt, if◌then◌else◌};
ghost use Rattle.vs_plan.specs.declared.plans.request.Request.{Request};
ghost use Rattle.vs_plan.specs.Request.{request_fault};
ghost use Rattle.nrvs_plan_c.specs.Kept.{page_in, request_in, rights_in, target_in, target_of};
ghost use Rattle.nrvs_plan_c.specs.Range.{map_range_status, range_status, HasBegunRange};
ghost use Rattle.nrvs_plan_c.specs.RangeIn.{HasSeenRange};
ghost use Rattle.nrvs_plan_c.specs.Status.{begun_status, target_status};

use crate::records::kept::{Target, Words};
use crate::records::range::{
    Run, nrvs_plan_harvest_range, nrvs_plan_map_range, nrvs_plan_protect_range,
    nrvs_plan_unmap_range, see_range,
};
use crate::records::status::SEE;
use crate::walk::frame_at;
use vs_plan::PlainWords;

/// A range of pages that are mapped, as far as the frames that are asked for lie here.
#[unsafe(no_mangle)]
pub extern "C" fn nrvs_plan_map_range_in(
    run: &mut Run,
    target: &Target,
    frames: &[Words],
    first: u64,
    base: u64,
    size: u32,
    physical: u64,
    rights: u32,
    bits: u64,
    bytes: u64,
) -> u32
    ensures refused { let begun =
        map_range_status target.now base size physical rights bits bytes in
        begun ≢ 32 → (result ≡ begun) × (run.new ≡ run.old) }
    ensures seen { let begun =
        map_range_status target.now base size physical rights bits bytes in
        begun ≡ 32 → HasSeenRange (target_of target.now)
        (Request.Map (page_in base size physical rights) bits) bytes first frames.now run.new result }
{
    let begun = nrvs_plan_map_range(run, target, base, size, physical, rights, bits, bytes);
    if begun != SEE {
        return begun;
    }
    see_range_in(run, frames, first)
}

/// A range of pages that are removed, as far as the frames that are asked for lie here.
#[unsafe(no_mangle)]
pub extern "C" fn nrvs_plan_unmap_range_in(
    run: &mut Run,
    target: &Target,
    frames: &[Words],
    first: u64,
    base: u64,
    bytes: u64,
) -> u32
    ensures refused { let begun = range_status base bytes
        (target_status target.now.levels target.now.phys_bits
        (begun_status (request_fault (target_of target.now) (Request.Unmap base)))) in
        begun ≢ 32 → (result ≡ begun) × (run.new ≡ run.old) }
    ensures seen { let begun = range_status base bytes
        (target_status target.now.levels target.now.phys_bits
        (begun_status (request_fault (target_of target.now) (Request.Unmap base)))) in
        begun ≡ 32 → HasSeenRange (target_of target.now)
        (Request.Unmap base) bytes first frames.now run.new result }
{
    let begun = nrvs_plan_unmap_range(run, target, base, bytes);
    if begun != SEE {
        return begun;
    }
    see_range_in(run, frames, first)
}

/// A range of pages that get other rights, as far as the frames that are asked for lie here.
#[unsafe(no_mangle)]
pub extern "C" fn nrvs_plan_protect_range_in(
    run: &mut Run,
    target: &Target,
    frames: &[Words],
    first: u64,
    base: u64,
    bytes: u64,
    rights: u32,
) -> u32
    ensures refused { let begun = range_status base bytes
        (target_status target.now.levels target.now.phys_bits
        (if nat_lt 7 rights then 7 else begun_status (request_fault (target_of target.now)
        (Request.Protect base (rights_in rights))))) in
        begun ≢ 32 → (result ≡ begun) × (run.new ≡ run.old) }
    ensures seen { let begun = range_status base bytes
        (target_status target.now.levels target.now.phys_bits
        (if nat_lt 7 rights then 7 else begun_status (request_fault (target_of target.now)
        (Request.Protect base (rights_in rights))))) in
        begun ≡ 32 → HasSeenRange (target_of target.now)
        (Request.Protect base (rights_in rights)) bytes first frames.now run.new result }
{
    let begun = nrvs_plan_protect_range(run, target, base, bytes, rights);
    if begun != SEE {
        return begun;
    }
    see_range_in(run, frames, first)
}

/// A range of pages whose flags are taken away, as far as the frames that are asked for lie here.
#[unsafe(no_mangle)]
pub extern "C" fn nrvs_plan_harvest_range_in(
    run: &mut Run,
    target: &Target,
    frames: &[Words],
    first: u64,
    base: u64,
    bytes: u64,
) -> u32
    ensures refused { let begun = range_status base bytes
        (target_status target.now.levels target.now.phys_bits
        (begun_status (request_fault (target_of target.now) (Request.Ask base)))) in
        begun ≢ 32 → (result ≡ begun) × (run.new ≡ run.old) }
    ensures seen { let begun = range_status base bytes
        (target_status target.now.levels target.now.phys_bits
        (begun_status (request_fault (target_of target.now) (Request.Ask base)))) in
        begun ≡ 32 → HasSeenRange (target_of target.now)
        (Request.Ask base) bytes first frames.now run.new result }
{
    let begun = nrvs_plan_harvest_range(run, target, base, bytes);
    if begun != SEE {
        return begun;
    }
    see_range_in(run, frames, first)
}

/// Shows the frames that are asked for, as far as they lie here.
fn see_range_in(run: &mut Run, frames: &[Words], first: u64) -> u32
    requires { HasBegunRange (target_in run.old.plan.call) (request_in run.old.plan.call) run.old.bytes run.old }
    ensures seen { HasSeenRange (target_in run.old.plan.call) (request_in run.old.plan.call)
        run.old.bytes first frames.now run.new result }
{
    let mut status = SEE;
    while status == SEE {
        let Some(words) = frame_at(frames, first, run.plan.frame) else {
            return SEE;
        };
        let mut words = PlainWords(&words.word);
        status = see_range(run, &mut words);
    }
    status
}
