//! How a plan goes down by a link where it is kept, in C's struct: what most calls of `nrvs_plan_see` do.
ghost use Rattle.std.specs.Prelude.{◌≡◌, ◌-◌, ◌/◌, ◌%◌, ◌^◌, ◌<◌, ◌≤◌, ℕ, List, Some, IsTrue, IsFalse, slice_index};
ghost use Rattle.std.specs.FinMap as finite;
ghost use Rattle.vs_types.specs.Depth.{index_at};
ghost use Rattle.vs_types.specs.Entry.{meaning, rights_of};
ghost use Rattle.vs_types.specs.declared.entries.entry.Meaning.{Meaning};
ghost use Rattle.vs_walk.specs.Memory.{Memory};
ghost use Rattle.vs_plan.specs.Request.{lowest_of};
ghost use Rattle.vs_plan.specs.Shown.{IsShown};
ghost use Rattle.nrvs_plan_c.specs.declared.records.codes.TheConstants.{DESCENT};
ghost use Rattle.nrvs_plan_c.specs.Kept.{IsSound, planner_in, request_in};

use crate::records::kept::{Call, Plan};
use vs_types::{address_bits, is_link, narrowed};

/// Goes on to the table to which this word leads, which was read of these words, where the way doesn't end here, and no other word of the
/// table is asked for. Whether it did: else nothing is changed.
#[inline(always)]
pub(crate) fn go_down(plan: &mut Plan, word: u64) -> bool
    requires sound { IsSound plan.old }
    requires descent { plan.old.way.phase ≤ DESCENT }
    ensures stays { IsFalse result → plan.new ≡ plan.old }
    ensures sound { IsSound plan.new }
    ensures call { plan.new.call ≡ plan.old.call }
    ensures phase { plan.new.way.phase ≡ plan.old.way.phase }
    ensures fewer { IsTrue result → plan.new.way.level < plan.old.way.level }
    ensures down { IsTrue result → plan.new.way.level ≡ plan.old.way.level - 1 }
    ensures below { IsTrue result → lowest_of (request_in plan.old.call) < plan.old.way.level }
    ensures link { IsTrue result → meaning plan.old.way.level word
        ≡ Meaning.Table (word % 2 ^ 52 / 2 ^ 12) (rights_of word) }
    ensures shown { IsTrue result → (memory : Memory) (words : List ℕ)
        → IsShown memory (planner_in plan.old)
        → word ≡ slice_index words (index_at plan.old.way.level plan.old.call.address)
        → finite.get memory plan.old.frame ≡ Some words
        → IsShown memory (planner_in plan.new) }
{
    let level = plan.way.level;
    if level < plan.way.stop {
        return false;
    }
    if !goes_on_below(plan.call, level) {
        return false;
    }
    if !is_link(word) {
        return false;
    }
    let address = address_bits(word);
    if address >> plan.call.phys_bits != 0 {
        return false;
    }
    plan.met.numbers[level as usize] = plan.frame;
    plan.met.words[level as usize] = word;
    plan.way.allowed = narrowed(plan.way.allowed, word);
    plan.frame = address / 4096;
    plan.way.level = level - 1;
    true
}

/// Whether a way may go on below a table of this level.
fn goes_on_below(call: Call, level: u8) -> bool
    requires { 1 ≤ level }
    ensures below { IsTrue result → lowest_of (request_in call) < level }
    ensures some { IsTrue result → 2 ≤ level }
{
    call.size < level - 1
}
