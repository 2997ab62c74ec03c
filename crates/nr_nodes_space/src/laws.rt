//! What holds of every schedule whose entries are applied by right plans. Each function does nothing: its clauses say what holds.

ghost use Rattle.std.specs.Prelude.{◌≡◌, ◌⊎◌, ◌<◌, ◌≤◌, ◌+◌, ◌∷◌, ℕ, List, Option, Some, length};
ghost use Rattle.std.specs.FinMap as finite;
ghost use Rattle.vs_types.specs.Depth.{IsCanonical};
ghost use Rattle.vs_types.specs.Space.{Space, no_pages};
ghost use Rattle.vs_types.specs.declared.requests.answer.Answer.{Answer};
ghost use Rattle.vs_arena.specs.Store.{zeros};
ghost use Rattle.vs_walk.specs.Memory.{AreWhole, Memory};
ghost use Rattle.vs_walk.specs.Walk.{TranslatesAs};
ghost use Rattle.vs_walk.specs.declared.walk.Walk.{Walk};
ghost use Rattle.vs_plan.specs.declared.plans.plan.Plan.{Plan};
ghost use Rattle.vs_plan.specs.declared.plans.plan.Reply.{Reply};
ghost use Rattle.vs_plan.specs.declared.plans.request.Request.{Request};
ghost use Rattle.vs_plan.specs.declared.plans.target.Target.{Target};
ghost use Rattle.vs_plan.specs.Processor.{Is, IsUpToDate, MayFind, Moment};
ghost use Rattle.nr_machine.specs.Actor.{MayApply};
ghost use Rattle.nr_machine.specs.Laws.{Everywhere};
ghost use Rattle.nr_machine.specs.States.{Kind};
ghost use Rattle.nr_nodes_space.specs.Examples.{at_plan, example, one_table};
ghost use Rattle.nr_nodes_space.specs.Tables.{AreReached, IsCarriedOut, IsMeanwhile, IsPlanFor, Tables, after_works, found_in, space_of};

/// Each node's memory translates as the space after the entries that it has applied, and its processors are up to date.
pub fn tables_follow_the_log()
    ensures translates { (nodes : ℕ) (target : ℕ → Target) (kind : Kind Space Answer)
        (w : Tables) (n : ℕ) → AreReached nodes target kind w → n < nodes
        → TranslatesAs (target n).depth (w.memory n) (target n).root
        (space_of kind w (w.nodes.world.actor n).applied) }
    ensures up_to_date { (nodes : ℕ) (target : ℕ → Target) (kind : Kind Space Answer)
        (w : Tables) (n : ℕ) → AreReached nodes target kind w → n < nodes
        → IsUpToDate (target n).depth (target n).root (w.memory n) (w.moments n) }
{}

/// What a plan answers is what the one log answers at the place of its entry, on each node. So an update that ended was given its plans'
/// answers (`states_follow_the_log` of `nr_machine`).
pub fn plans_answer_as_the_log()
    ensures { (nodes : ℕ) (target : ℕ → Target) (kind : Kind Space Answer) (w : Tables) (n : ℕ)
        (request : Request) (offered : List (Option ℕ)) (plan : Plan)
        → AreReached nodes target kind w → n < nodes → MayApply (w.nodes.world.actor n)
        → IsPlanFor target kind w n request offered plan
        → plan.reply ≡ Reply.Answer
        (kind.answer (space_of kind w (w.nodes.world.actor n).applied)
        (w.nodes.world.log.entry (w.nodes.world.actor n).applied)) }
{}

/// What a processor finds, in the memory as it is, is what the space after some entries has there: after as many as its node has applied.
/// While the stores of the next entry's plan are made, whatever flags are set meanwhile, it is after as many, or one more.
pub fn processors_find_the_log()
    ensures between { (nodes : ℕ) (target : ℕ → Target) (kind : Kind Space Answer)
        (w : Tables) (n address : ℕ) (end : Walk) → AreReached nodes target kind w
        → n < nodes → IsCanonical (target n).depth address
        → MayFind (target n).depth (target n).root (w.memory n)
        (Is (w.memory n) ∷ w.moments n) address end
        → end ≡ found_in kind w (w.nodes.world.actor n).applied address }
    ensures meanwhile { (nodes : ℕ) (target : ℕ → Target) (kind : Kind Space Answer)
        (w : Tables) (n address done : ℕ) (end : Walk) (request : Request)
        (offered : List (Option ℕ)) (plan : Plan) (now : Memory) (lived : List Moment)
        → AreReached nodes target kind w → n < nodes
        → MayApply (w.nodes.world.actor n) → IsPlanFor target kind w n request offered plan
        → done ≤ length plan.stores.items → IsMeanwhile w n plan done now lived
        → IsCanonical (target n).depth address
        → MayFind (target n).depth (target n).root now lived address end
        → (end ≡ found_in kind w (w.nodes.world.actor n).applied address)
        ⊎ (end ≡ found_in kind w ((w.nodes.world.actor n).applied + 1) address) }
{}

/// Once every node is done with a place, each has applied more entries than that: so what its processors find, by the clauses above, is of
/// a space after the entry at that place. What the entry took away none of them finds, unless a later entry has put it there again.
pub fn nothing_older_is_found()
    ensures between { (nodes : ℕ) (target : ℕ → Target) (kind : Kind Space Answer) (w : Tables)
        (n place address : ℕ) (end : Walk) → AreReached nodes target kind w → n < nodes
        → Everywhere nodes w.nodes.world place → IsCanonical (target n).depth address
        → MayFind (target n).depth (target n).root (w.memory n)
        (Is (w.memory n) ∷ w.moments n) address end
        → (count : ℕ) × (place < count) × (end ≡ found_in kind w count address) }
    ensures meanwhile { (nodes : ℕ) (target : ℕ → Target) (kind : Kind Space Answer)
        (w : Tables) (n place address done : ℕ) (end : Walk) (request : Request)
        (offered : List (Option ℕ)) (plan : Plan) (now : Memory) (lived : List Moment)
        → AreReached nodes target kind w → n < nodes
        → Everywhere nodes w.nodes.world place → MayApply (w.nodes.world.actor n)
        → IsPlanFor target kind w n request offered plan
        → done ≤ length plan.stores.items → IsMeanwhile w n plan done now lived
        → IsCanonical (target n).depth address
        → MayFind (target n).depth (target n).root now lived address end
        → (count : ℕ) × (place < count) × (end ≡ found_in kind w count address) }
{}

/// What is asked of works can be met: here one node appends an entry and carries out whatever plan is right for it, while flags are set.
pub fn works_can_be_done()
    ensures { (target : Target) (kind : Kind Space Answer) (memory now : Memory)
        (request : Request) (offered : List (Option ℕ)) (plan : Plan) (lived : List Moment)
        → kind.initial ≡ no_pages → AreWhole memory → finite.get memory target.root ≡ Some zeros
        → IsPlanFor (λ n. target) kind (at_plan kind memory) 0 request offered plan
        → IsCarriedOut (at_plan kind memory) 0 plan now lived
        → AreReached 1 (λ n. target) kind (after_works kind (one_table kind memory)
        (example request offered plan now lived)) }
{}
