//! Laws of the definitions in `specs/`. Each function does nothing: its clauses say what holds of all processors and plans.

ghost use Rattle.std.specs.Prelude.{◌≡◌, ◌≢◌, ◌≤◌, ◌++◌, ◌∷◌, ℕ, List, [], Contains, Some, length, take};
ghost use Rattle.vs_types.specs.Depth.{levels, IsCanonical};
ghost use Rattle.vs_types.specs.Space.{Space};
ghost use Rattle.vs_types.specs.declared.addresses.page.Rights.{Rights};
ghost use Rattle.vs_walk.specs.Memory.{Memory};
ghost use Rattle.vs_walk.specs.declared.walk.Walk.{Walk};
ghost use Rattle.vs_space.specs.Flags.{AreSameButFlags};
ghost use Rattle.vs_space.specs.Path.{table_at};
ghost use Rattle.vs_plan.specs.declared.plans.plan.Flush.{Flush};
ghost use Rattle.vs_plan.specs.declared.plans.target.Target.{Target};
ghost use Rattle.vs_plan.specs.Processor.{Moment, PagingEntry, MayFind, MayKeep, IsUpToDate};
ghost use Rattle.vs_plan.specs.Flushed.{while_stored};
ghost use Rattle.vs_plan.specs.Lived.{AreButFlags};
ghost use Rattle.vs_plan.specs.Right.{begun, ended};
ghost use Rattle.vs_plan.specs.Stores.{stored_all};
ghost use Rattle.vs_range.specs.Several.{Call, AreRight, FindsOneOf, HaveAll, HaveAllInOrder, ended_all, flushed_by, flushed_while, flushes_of, from_tables, unlinked_by, while_planned};

/// Plans one after another need no flush between them. Let a processor be up to date before the first plan. It is so again once the stores of
/// all are made and it has flushed all that each of their flushes drops. The order is free if it reads nothing between two flushes. If it reads
/// between them, it is up to date after the last one where they come in an order that counts (`flushes_come_in_order`). Processors may set flags
/// meanwhile: before each plan, among its stores, before the flushes and between them. No way leads to a frame that one of them has unlinked;
/// but until those flushes a processor may read it, and so no later plan may write into it. After them nothing that is kept leads into one:
/// then the frames are free. And each access that is made meanwhile, after any number of a plan's stores and of the flushes, finds what a walk
/// finds before the first plan, or after one of them: no page that never was.
pub fn flushes_of_several_plans_suffice()
    ensures after { (target : Target) (memory now : Memory) (space : Space) (calls : List Call)
        (flushes : List Flush) (earlier lived : List Moment)
        → AreRight target memory space [] calls
        → HaveAll flushes calls → IsUpToDate target.depth target.root memory earlier
        → AreButFlags lived (while_planned calls earlier)
        → AreSameButFlags (ended_all memory calls) now
        → IsUpToDate target.depth target.root now (flushed_by flushes lived) }
    ensures read { (target : Target) (memory now : Memory) (space : Space) (calls : List Call)
        (flushes : List Flush) (earlier lived : List Moment)
        → AreRight target memory space [] calls
        → HaveAllInOrder flushes calls → IsUpToDate target.depth target.root memory earlier
        → AreButFlags lived (flushed_while (ended_all memory calls) flushes
        (while_planned calls earlier))
        → AreSameButFlags (ended_all memory calls) now
        → IsUpToDate target.depth target.root now lived }
    ensures unreached { (target : Target) (memory now : Memory) (space : Space) (calls : List Call)
        (number : ℕ) → AreRight target memory space [] calls
        → AreSameButFlags (ended_all memory calls) now → Contains (unlinked_by calls) number
        → (level address : ℕ)
        → table_at (levels target.depth) now target.root level address ≢ Some number }
    ensures freed { (target : Target) (memory now : Memory) (space : Space) (calls : List Call)
        (moments : List Moment) (level region number : ℕ) (rights : Rights)
        → AreRight target memory space [] calls
        → AreSameButFlags (ended_all memory calls) now
        → IsUpToDate target.depth target.root now moments
        → Contains (unlinked_by calls) number
        → MayKeep target.depth target.root moments (PagingEntry level region number rights) → ⊥ }
    ensures between { (target : Target) (memory now : Memory) (space : Space) (calls : List Call)
        (call : Call) (earlier lived : List Moment) (done address : ℕ) (end : Walk)
        → AreRight target memory space [] (calls ++ call ∷ [])
        → IsUpToDate target.depth target.root memory earlier
        → done ≤ length call.plan.stores.items → IsCanonical target.depth address
        → AreButFlags lived (while_stored (begun call.memory call.plan)
        (take done call.plan.stores.items) (while_planned calls earlier))
        → AreSameButFlags (stored_all (begun call.memory call.plan)
        (take done call.plan.stores.items)) now
        → MayFind target.depth target.root now lived address end
        → FindsOneOf target.depth target.root memory (calls ++ call ∷ []) address end }
    ensures flushing { (target : Target) (memory now : Memory) (space : Space) (calls : List Call)
        (call : Call) (flushes : List Flush) (earlier lived : List Moment) (address : ℕ) (end : Walk)
        → AreRight target memory space [] (calls ++ call ∷ [])
        → IsUpToDate target.depth target.root memory earlier → IsCanonical target.depth address
        → AreButFlags lived (flushed_while (ended call.memory call.plan) flushes
        (while_planned (calls ++ call ∷ []) earlier))
        → AreSameButFlags (ended call.memory call.plan) now
        → MayFind target.depth target.root now lived address end
        → FindsOneOf target.depth target.root memory (calls ++ call ∷ []) address end }
{}

/// Flushes that drop all that those of some plans drop come in an order that counts in three cases. The first of them drops what is kept of
/// tables too, as each INVLPG does; or none of them does; or they are the plans' own, in their order.
pub fn flushes_come_in_order()
    ensures tables { (calls : List Call) (flushes : List Flush) → from_tables flushes ≡ flushes
        → HaveAll flushes calls → HaveAllInOrder flushes calls }
    ensures pages { (calls : List Call) (flushes : List Flush) → from_tables flushes ≡ []
        → HaveAll flushes calls → HaveAllInOrder flushes calls }
    ensures own { (calls : List Call) → HaveAllInOrder (flushes_of calls) calls }
{}
