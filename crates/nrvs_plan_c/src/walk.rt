//! The way of an address down to a table of level 1, over frames that lie one after another in memory.
ghost use Rattle.std.specs.Prelude.{◌≡◌, ◌+◌, ◌-◌, ◌<◌, ◌≤◌, ◌^◌, IfNone, IfSome, IsTrue, length, slice_index_or};
ghost use Rattle.vs_walk.specs.Memory.{Memory};
ghost use Rattle.vs_plan.specs.Target.{frames_end};
ghost use Rattle.nrvs_plan_c.specs.Direct.{HasFramesWithin, IsElsewhere};
ghost use Rattle.nrvs_plan_c.specs.Kept.{target_of};
ghost use Rattle.nrvs_plan_c.specs.inside.End.{IsAskable, IsEndOf};

use crate::end::End;
use crate::records::codes::depth_in;
use crate::records::kept::{Target, Words};
use vs_types::{all_allowed, index_at, is_link, linked_frame, narrowed};

/// The end of the way of an address, where target and address may be asked for, and it leads to a table of level 1 by frames that all
/// lie here.
#[inline(always)]
pub(crate) fn end_in(frames: &[Words], first: u64, target: &Target, address: u64) -> Option<End>
    ensures askable { IfSome result (λ end. IsAskable target.now address) }
    ensures index { IfSome result (λ end. end.index < 512) }
    ensures within { IfSome result (λ end. first + length frames.now
        ≤ frames_end (target_of target.now)) }
    ensures end { IfSome result (λ end. (memory : Memory)
        → HasFramesWithin (target_of target.now) memory first frames.now
        → IsEndOf (target_of target.now) memory address end) }
{
    if !is_askable(target, address) {
        return None;
    }
    if !are_within(frames, first, target.phys_bits) {
        return None;
    }
    let mut level = target.levels as u8;
    let mut number = target.root;
    let mut allowed = all_allowed();
    while level > 1 {
        let Some(words) = frame_at(frames, first, number) else {
            return None;
        };
        let word = words.word[index_at(level, address)];
        if !is_link(word) {
            return None;
        }
        allowed = narrowed(allowed, word);
        number = linked_frame(word);
        level -= 1;
    }
    let Some(last) = frame_at(frames, first, number) else {
        return None;
    };
    let index = index_at(1, address);
    let word = last.word[index];
    Some(End {
        number,
        index,
        word,
        allowed,
    })
}

/// Whether there is such a target, and the address is canonical.
fn is_askable(target: &Target, address: u64) -> bool
    ensures { IsTrue result → IsAskable target.now address }
{
    (target.levels == 4 || target.levels == 5)
        && target.phys_bits >= 36
        && target.phys_bits <= 52
        && target.root >> (target.phys_bits - 12) == 0
        && depth_in(target.levels as u8).is_canonical(address)
}

/// Whether frames from a number on lie within the physical addresses.
fn are_within(frames: &[Words], first: u64, phys_bits: u32) -> bool
    requires from { 36 ≤ phys_bits }
    requires to { phys_bits ≤ 52 }
    ensures { IsTrue result → first + length frames.now ≤ 2 ^ (phys_bits - 12) }
{
    let end = 1u64 << (phys_bits - 12);
    first <= end && frames.len() as u64 <= end - first
}

/// The words of the frame of this number, where it lies here.
pub(crate) fn frame_at<'a>(frames: &'a [Words], first: u64, number: u64) -> Option<&'a Words>
    ensures there { IfSome result (λ words. (first ≤ number)
        × (number - first < length frames.now)
        × (words.now ≡ slice_index_or frames.now (number - first) words.now)) }
    ensures none { IfNone result (IsElsewhere first (length frames.now) number) }
{
    if number < first {
        return None;
    }
    frames.get((number - first) as usize)
}
