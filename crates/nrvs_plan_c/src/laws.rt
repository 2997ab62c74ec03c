//! What holds of all plans in numbers. The function does nothing: its clause says it.
ghost use Rattle.std.specs.Prelude.{◌<◌, ℕ};
ghost use Rattle.vs_types.specs.Bits.{HasFlagsSet};
ghost use Rattle.nrvs_plan_c.specs.declared.records.kept.Plan.{Plan};
ghost use Rattle.nrvs_plan_c.specs.Told.{IsMadeAgain, store_at};

/// If a store finds its word with other flags, the numbers that `nrvs_plan_again` leaves are those of the plan that `Plan::again` makes,
/// which is right for the memory with that word (`plans_are_right_again`).
pub fn plans_are_made_again()
    ensures { (plan : Plan) (index found : ℕ) → index < plan.store_count
        → HasFlagsSet (store_at plan index).old found → IsMadeAgain plan index found }
{}
