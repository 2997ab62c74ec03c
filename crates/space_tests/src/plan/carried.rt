//! A plan is asked for step by step, and carried out in a memory.

ghost use Rattle.vs_plan.specs.Planner.{AwaitsWords};

use crate::plan::memory::{FIRST, Memory};
use std::process::Abort;
use vs_plan::{PlainWords, Plan, Planner, Request, Step, Target};
use vs_types::Depth;

/// The page table whose root is the first frame, where physical addresses have 40 bits.
pub const TARGET: Target = Target {
    depth: Depth::Four,
    pinned: 0,
    phys_bits: 40,
    root: FIRST,
};

/// The most steps up to a plan: one for each level and each new table, and two.
const MOST_STEPS: usize = 12;

/// The plan of a planner that was made.
fn planned(rt: &impl Abort, memory: &mut Memory, mut planner: Planner) -> Plan
    requires { AwaitsWords planner }
{
    let mut step = Step::See(planner.number);
    for _ in 0..MOST_STEPS {
        match step {
            Step::See(number) => {
                step = planner.see(&mut PlainWords(memory.words(rt, number)));
            }
            Step::Give => {
                step = planner.give(memory.take());
            }
            Step::Planned(plan) => return plan,
        }
    }
    panic!(rt; "no plan after the most steps")
}

/// The plan of a request, which must be well formed.
pub fn plan_for(rt: &impl Abort, memory: &mut Memory, target: Target, request: Request) -> Plan {
    let planner = Planner::new(target, request)
        .ok()
        .expect(rt, "a request that is well formed");
    planned(rt, memory, planner)
}

/// The plan of a request, which is carried out.
pub fn carried(rt: &impl Abort, memory: &mut Memory, target: Target, request: Request) -> Plan {
    let plan = plan_for(rt, memory, target, request);
    memory.carry_out(rt, &plan);
    plan
}
