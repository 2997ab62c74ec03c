//! What comes next, once a planner has answered.
ghost use Rattle.std.specs.Prelude.{◌≡◌, ◌≢◌, ◌≤◌, ◌-◌, ℕ, List, Option};
ghost use Rattle.vs_types.specs.Depth.{levels};
ghost use Rattle.vs_walk.specs.Memory.{Memory};
ghost use Rattle.vs_plan.specs.declared.plans.plan.TheConstants.{MOST_UNLINKED};
ghost use Rattle.vs_plan.specs.Planner.{Awaits, HasGiven, frames_given, gives_left, sees_left};
ghost use Rattle.vs_plan.specs.Shown.{IsNext};
ghost use Rattle.nrvs_plan_c.specs.declared.records.codes.TheConstants.{ENDED};
ghost use Rattle.nrvs_plan_c.specs.Kept.{IsSound, phase_in, planner_in, request_in, target_in};
ghost use Rattle.nrvs_plan_c.specs.Next.{IsNextOf, status_in};

use crate::records::codes::ENDED;
use crate::records::kept::{Plan, keep};
use crate::records::status::{GIVE, PLANNED, SEE};
use crate::records::told::write;
use vs_plan::{Planner, Step};

/// Keeps the planner, or writes its plan.
#[inline(never)]
pub(crate) fn go_on(plan: &mut Plan, planner: &Planner, step: &Step) -> u32
    requires target { planner.now.target ≡ target_in plan.old.call }
    requires request { planner.now.request ≡ request_in plan.old.call }
    requires awaits { Awaits planner.now step.now }
    ensures sound { IsSound plan.new }
    ensures call { plan.new.call ≡ plan.old.call }
    ensures asked { result ≢ 17 }
    ensures status { result ≡ status_in (phase_in plan.new.way.phase) }
    ensures ended { result ≡ 0 → plan.new.way.phase ≡ ENDED }
    ensures phase { 1 ≤ plan.new.way.phase }
    ensures named { result ≡ 0 → plan.new.unlinked_count ≤ MOST_UNLINKED }
    ensures level { result ≡ 32 → plan.new.way.level ≡ sees_left planner.now step.now }
    ensures sees { result ≡ 32 → gives_left planner.now step.now ≡ levels planner.now.target.depth }
    ensures height { result ≡ 33 → plan.new.way.level - plan.new.way.height
        ≡ gives_left planner.now step.now }
    ensures given { (frames : List ℕ) → result ≡ 33 → HasGiven planner.now frames step.now
        → frames_given (planner_in plan.new) ≡ frames }
    ensures next { (memory : Memory) (offered : List (Option ℕ))
        → IsNext memory planner.now offered step.now → IsNextOf memory plan.new offered result }
{
    match step {
        Step::See(_) => {
            keep(plan, planner);
            SEE
        }
        Step::Give => {
            keep(plan, planner);
            GIVE
        }
        Step::Planned(made) => {
            plan.way.phase = ENDED;
            write(plan, made);
            PLANNED
        }
    }
}
