//! Plans that are made by one way down, over frames that lie one after another in memory: of pages of 4 KiB, where no table is linked or
//! unlinked.
ghost use Rattle.std.specs.Prelude.{◌≡◌, ◌+◌, ◌%◌, ◌<◌, ◌≤◌, ℕ, IsFalse, IsTrue, length, nat_lt, if◌then◌else◌};
ghost use Rattle.vs_types.specs.Depth.{index_at};
ghost use Rattle.vs_walk.specs.Memory.{Memory};
ghost use Rattle.vs_plan.specs.declared.plans.request.Request.{Request};
ghost use Rattle.vs_plan.specs.Request.{request_fault};
ghost use Rattle.vs_plan.specs.Target.{frames_end};
ghost use Rattle.nrvs_plan_c.specs.Direct.{HasFramesWithin, HasSeen};
ghost use Rattle.nrvs_plan_c.specs.Kept.{page_in, rights_in, target_of};
ghost use Rattle.nrvs_plan_c.specs.Status.{begun_status, target_status};
ghost use Rattle.nrvs_plan_c.specs.inside.End.{Stays};

use crate::end::{End, end_ask, end_map, end_protect, end_remap, end_unmap};
use crate::records::kept::{Plan, Target, Words};
use crate::walk::{end_in, frame_at};
use vs_plan::{PlainWords, ends_beyond, has_other};
use vs_types::are_bits;

/// Whether the plan of a map was made.
pub(crate) fn maps_at_once(
    plan: &mut Plan,
    target: &Target,
    frames: &[Words],
    first: u64,
    base: u64,
    size: u32,
    physical: u64,
    rights: u32,
    bits: u64,
) -> bool
    ensures asked { IsTrue result → target_status target.now.levels target.now.phys_bits
        (if nat_lt 2 size then 6 else if nat_lt 7 rights then 7
        else begun_status (request_fault (target_of target.now)
        (Request.Map (page_in base size physical rights) bits))) ≡ 32 }
    ensures seen { IsTrue result → HasSeen (target_of target.now)
        (Request.Map (page_in base size physical rights) bits) first frames.now plan.new 0 }
    ensures none { IsFalse result → plan.new ≡ plan.old }
{
    if size != 0 || rights > 7 {
        return false;
    }
    if base % 4096 != 0 || physical % 4096 != 0 || !are_bits(bits) {
        return false;
    }
    let Some(end) = end_in(frames, first, target, base) else {
        return false;
    };
    if ends_beyond(physical, 4096, target.phys_bits as u8) {
        return false;
    }
    end_map(plan, end, base, physical, rights as u8, bits);
    true
}

/// Whether the plan of an unmap was made.
pub(crate) fn unmaps_at_once(
    plan: &mut Plan,
    target: &Target,
    frames: &[Words],
    first: u64,
    base: u64,
) -> bool
    ensures asked { IsTrue result → target_status target.now.levels target.now.phys_bits
        (begun_status (request_fault (target_of target.now) (Request.Unmap base))) ≡ 32 }
    ensures seen { IsTrue result → HasSeen (target_of target.now)
        (Request.Unmap base) first frames.now plan.new 0 }
    ensures none { IsFalse result → plan.new ≡ plan.old }
{
    if base % 4096 != 0 {
        return false;
    }
    let Some(end) = end_in(frames, first, target, base) else {
        return false;
    };
    if !may_clear(frames, first, target, end) {
        return false;
    }
    end_unmap(plan, end, base);
    true
}

/// Whether the plan of a protect was made.
pub(crate) fn protects_at_once(
    plan: &mut Plan,
    target: &Target,
    frames: &[Words],
    first: u64,
    base: u64,
    rights: u32,
) -> bool
    ensures asked { IsTrue result → target_status target.now.levels target.now.phys_bits
        (if nat_lt 7 rights then 7 else begun_status (request_fault (target_of target.now)
        (Request.Protect base (rights_in rights)))) ≡ 32 }
    ensures seen { IsTrue result → HasSeen (target_of target.now)
        (Request.Protect base (rights_in rights)) first frames.now plan.new 0 }
    ensures none { IsFalse result → plan.new ≡ plan.old }
{
    if rights > 7 {
        return false;
    }
    if base % 4096 != 0 {
        return false;
    }
    let Some(end) = end_in(frames, first, target, base) else {
        return false;
    };
    end_protect(plan, end, base, rights as u8);
    true
}

/// Whether the plan of a remap was made.
pub(crate) fn remaps_at_once(
    plan: &mut Plan,
    target: &Target,
    frames: &[Words],
    first: u64,
    base: u64,
    physical: u64,
    rights: u32,
) -> bool
    ensures asked { IsTrue result → target_status target.now.levels target.now.phys_bits
        (if nat_lt 7 rights then 7 else begun_status (request_fault (target_of target.now)
        (Request.Remap base physical (rights_in rights)))) ≡ 32 }
    ensures seen { IsTrue result → HasSeen (target_of target.now)
        (Request.Remap base physical (rights_in rights)) first frames.now plan.new 0 }
    ensures none { IsFalse result → plan.new ≡ plan.old }
{
    if rights > 7 {
        return false;
    }
    if base % 4096 != 0 {
        return false;
    }
    let Some(end) = end_in(frames, first, target, base) else {
        return false;
    };
    let phys_bits = target.phys_bits as u8;
    end_remap(plan, end, base, physical, phys_bits, rights as u8);
    true
}

/// Whether the plan of a question was made.
pub(crate) fn asks_at_once(
    plan: &mut Plan,
    target: &Target,
    frames: &[Words],
    first: u64,
    address: u64,
) -> bool
    ensures asked { IsTrue result → target_status target.now.levels target.now.phys_bits
        (begun_status (request_fault (target_of target.now) (Request.Ask address))) ≡ 32 }
    ensures seen { IsTrue result → HasSeen (target_of target.now)
        (Request.Ask address) first frames.now plan.new 0 }
    ensures none { IsFalse result → plan.new ≡ plan.old }
{
    let Some(end) = end_in(frames, first, target, address) else {
        return false;
    };
    end_ask(plan, end, address);
    true
}

/// Whether the entry at the end can be cleared, and its table stays linked: it is no page, or the table has another word or stays whatever it
/// has.
fn may_clear(frames: &[Words], first: u64, target: &Target, end: End) -> bool
    requires index { end.index < 512 }
    requires within { first + length frames.now ≤ frames_end (target_of target.now) }
    ensures { IsTrue result → (memory : Memory) (address : ℕ)
        → HasFramesWithin (target_of target.now) memory first frames.now
        → end.index ≡ index_at 1 address → end.word % 2 ≡ 1
        → Stays (target_of target.now) memory address end }
{
    if !end.is_page() || target.pinned == 1 || target.pinned == 2 {
        return true;
    }
    match frame_at(frames, first, end.number) {
        Some(words) => has_other(&mut PlainWords(&words.word), end.index),
        None => false,
    }
}
