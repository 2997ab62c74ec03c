//! Plans over frames that lie one after another in memory, step by step.
ghost use Rattle.std.specs.Prelude.{◌≡◌, ◌≢◌};
ghost use Rattle.nrvs_plan_c.specs.Direct.{HasSeen};
ghost use Rattle.nrvs_plan_c.specs.Kept.{request_in, target_in};
ghost use Rattle.nrvs_plan_c.specs.Next.{HasBegun};

use crate::records::kept::{Plan, Words};
use crate::records::status::SEE;
use crate::see::see_each_once;
use crate::walk::frame_at;
use vs_plan::PlainWords;

/// Shows a plan that has begun the frames that it asks for, as far as they lie here; `begun` is what the call returned that began it.
#[inline(never)]
pub(crate) fn go_on_in(plan: &mut Plan, begun: u32, frames: &[Words], first: u64) -> u32
    requires { begun ≡ 32 → HasBegun plan.old }
    ensures refused { begun ≢ 32 → (result ≡ begun) × (plan.new ≡ plan.old) }
    ensures seen { begun ≡ 32 → HasSeen (target_in plan.old.call) (request_in plan.old.call)
        first frames.now plan.new result }
{
    if begun != SEE {
        return begun;
    }
    see_in(plan, frames, first)
}

/// Shows the frames that are asked for, as far as they lie here.
fn see_in(plan: &mut Plan, frames: &[Words], first: u64) -> u32
    requires { HasBegun plan.old }
    ensures seen { HasSeen (target_in plan.old.call) (request_in plan.old.call) first frames.now plan.new result }
{
    let mut status = SEE;
    while status == SEE {
        let Some(words) = frame_at(frames, first, plan.frame) else {
            return SEE;
        };
        status = see_each_once(plan, PlainWords(&words.word));
    }
    status
}
