//! Plans by one call, over frames that lie one after another in memory: a direct map.
ghost use Rattle.std.specs.Prelude.{◌≡◌, ◌≢◌, nat_lt, if◌then◌else◌};
ghost use Rattle.vs_plan.specs.declared.plans.request.Request.{Request};
ghost use Rattle.vs_plan.specs.Request.{request_fault};
ghost use Rattle.nrvs_plan_c.specs.Direct.{HasSeen};
ghost use Rattle.nrvs_plan_c.specs.Kept.{page_in, rights_in, target_of};
ghost use Rattle.nrvs_plan_c.specs.Status.{begun_status, target_status};

use crate::exports::{
    nrvs_plan_ask, nrvs_plan_map, nrvs_plan_protect, nrvs_plan_remap, nrvs_plan_unmap,
};
use crate::records::kept::{Plan, Target, Words};
use crate::records::status::PLANNED;
use crate::ways::at_once::{
    asks_at_once, maps_at_once, protects_at_once, remaps_at_once, unmaps_at_once,
};
use crate::ways::in_steps::go_on_in;

/// The plan of a map, as far as the frames that are asked for lie here.
#[unsafe(no_mangle)]
pub extern "C" fn nrvs_plan_map_in(
    plan: &mut Plan,
    target: &Target,
    frames: &[Words],
    first: u64,
    base: u64,
    size: u32,
    physical: u64,
    rights: u32,
    bits: u64,
) -> u32
    ensures refused { let begun = target_status target.now.levels target.now.phys_bits
        (if nat_lt 2 size then 6 else if nat_lt 7 rights then 7
        else begun_status (request_fault (target_of target.now)
        (Request.Map (page_in base size physical rights) bits))) in
        begun ≢ 32 → (result ≡ begun) × (plan.new ≡ plan.old) }
    ensures seen { let begun = target_status target.now.levels target.now.phys_bits
        (if nat_lt 2 size then 6 else if nat_lt 7 rights then 7
        else begun_status (request_fault (target_of target.now)
        (Request.Map (page_in base size physical rights) bits))) in
        begun ≡ 32 → HasSeen (target_of target.now)
        (Request.Map (page_in base size physical rights) bits) first frames.now plan.new result }
{
    if maps_at_once(
        plan, target, frames, first, base, size, physical, rights, bits,
    ) {
        return PLANNED;
    }
    let begun = nrvs_plan_map(plan, target, base, size, physical, rights, bits);
    go_on_in(plan, begun, frames, first)
}

/// The plan of an unmap, as far as the frames that are asked for lie here.
#[unsafe(no_mangle)]
pub extern "C" fn nrvs_plan_unmap_in(
    plan: &mut Plan,
    target: &Target,
    frames: &[Words],
    first: u64,
    base: u64,
) -> u32
    ensures refused { let begun = target_status target.now.levels target.now.phys_bits
        (begun_status (request_fault (target_of target.now) (Request.Unmap base))) in
        begun ≢ 32 → (result ≡ begun) × (plan.new ≡ plan.old) }
    ensures seen { let begun = target_status target.now.levels target.now.phys_bits
        (begun_status (request_fault (target_of target.now) (Request.Unmap base))) in
        begun ≡ 32 → HasSeen (target_of target.now)
        (Request.Unmap base) first frames.now plan.new result }
{
    if unmaps_at_once(plan, target, frames, first, base) {
        return PLANNED;
    }
    let begun = nrvs_plan_unmap(plan, target, base);
    go_on_in(plan, begun, frames, first)
}

/// The plan of a protect, as far as the frames that are asked for lie here.
#[unsafe(no_mangle)]
pub extern "C" fn nrvs_plan_protect_in(
    plan: &mut Plan,
    target: &Target,
    frames: &[Words],
    first: u64,
    base: u64,
    rights: u32,
) -> u32
    ensures refused { let begun = target_status target.now.levels target.now.phys_bits
        (if nat_lt 7 rights then 7 else begun_status (request_fault (target_of target.now)
        (Request.Protect base (rights_in rights)))) in
        begun ≢ 32 → (result ≡ begun) × (plan.new ≡ plan.old) }
    ensures seen { let begun = target_status target.now.levels target.now.phys_bits
        (if nat_lt 7 rights then 7 else begun_status (request_fault (target_of target.now)
        (Request.Protect base (rights_in rights)))) in
        begun ≡ 32 → HasSeen (target_of target.now)
        (Request.Protect base (rights_in rights)) first frames.now plan.new result }
{
    if protects_at_once(plan, target, frames, first, base, rights) {
        return PLANNED;
    }
    let begun = nrvs_plan_protect(plan, target, base, rights);
    go_on_in(plan, begun, frames, first)
}

/// The plan of a remap, as far as the frames that are asked for lie here.
#[unsafe(no_mangle)]
pub extern "C" fn nrvs_plan_remap_in(
    plan: &mut Plan,
    target: &Target,
    frames: &[Words],
    first: u64,
    base: u64,
    physical: u64,
    rights: u32,
) -> u32
    ensures refused { let begun = target_status target.now.levels target.now.phys_bits
        (if nat_lt 7 rights then 7 else begun_status (request_fault (target_of target.now)
        (Request.Remap base physical (rights_in rights)))) in
        begun ≢ 32 → (result ≡ begun) × (plan.new ≡ plan.old) }
    ensures seen { let begun = target_status target.now.levels target.now.phys_bits
        (if nat_lt 7 rights then 7 else begun_status (request_fault (target_of target.now)
        (Request.Remap base physical (rights_in rights)))) in
        begun ≡ 32 → HasSeen (target_of target.now)
        (Request.Remap base physical (rights_in rights)) first frames.now plan.new result }
{
    if remaps_at_once(plan, target, frames, first, base, physical, rights) {
        return PLANNED;
    }
    let begun = nrvs_plan_remap(plan, target, base, physical, rights);
    go_on_in(plan, begun, frames, first)
}

/// The plan of a question, as far as the frames that are asked for lie here.
#[unsafe(no_mangle)]
pub extern "C" fn nrvs_plan_ask_in(
    plan: &mut Plan,
    target: &Target,
    frames: &[Words],
    first: u64,
    address: u64,
) -> u32
    ensures refused { let begun = target_status target.now.levels target.now.phys_bits
        (begun_status (request_fault (target_of target.now) (Request.Ask address))) in
        begun ≢ 32 → (result ≡ begun) × (plan.new ≡ plan.old) }
    ensures seen { let begun = target_status target.now.levels target.now.phys_bits
        (begun_status (request_fault (target_of target.now) (Request.Ask address))) in
        begun ≡ 32 → HasSeen (target_of target.now)
        (Request.Ask address) first frames.now plan.new result }
{
    if asks_at_once(plan, target, frames, first, address) {
        return PLANNED;
    }
    let begun = nrvs_plan_ask(plan, target, address);
    go_on_in(plan, begun, frames, first)
}
