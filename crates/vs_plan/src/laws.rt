//! Laws of the definitions in `specs/`. Each function does nothing: its clauses say what holds of all processors and plans.

ghost use Rattle.std.specs.Prelude.{◌≡◌, ℕ, List, All, Option, Some, [], ◌∷◌};
ghost use Rattle.std.specs.FinMap as finite;
ghost use Rattle.vs_types.specs.Depth.{IsCanonical};
ghost use Rattle.vs_types.specs.Space.{Space, no_pages};
ghost use Rattle.vs_types.specs.declared.addresses.depth.Depth.{Depth};
ghost use Rattle.vs_arena.specs.Store.{zeros};
ghost use Rattle.vs_walk.specs.Memory.{Memory, AreWhole};
ghost use Rattle.vs_types.specs.Step.{look};
ghost use Rattle.vs_walk.specs.Walk.{TranslatesAs, walk};
ghost use Rattle.vs_walk.specs.declared.walk.Walk.{Walk};
ghost use Rattle.vs_plan.specs.declared.plans.plan.Fill.{Fill};
ghost use Rattle.vs_plan.specs.declared.plans.plan.Plan.{Plan};
ghost use Rattle.vs_plan.specs.declared.plans.plan.Store.{Store};
ghost use Rattle.vs_plan.specs.declared.plans.request.Request.{Request};
ghost use Rattle.vs_plan.specs.declared.plans.target.Target.{Target};
ghost use Rattle.vs_space.specs.Flags.{AreSameButFlags};
ghost use Rattle.vs_plan.specs.Flushed.{Suffices, while_stored};
ghost use Rattle.vs_plan.specs.Lived.{AreButFlags};
ghost use Rattle.vs_plan.specs.OnWalk.{IsDroppedOnWalk};
ghost use Rattle.vs_plan.specs.Other.{AreBeside, HasSameTables, IsBeside, IsRightBeside, IsShared, LeadsNotTo};
ghost use Rattle.vs_plan.specs.Premise.{IsPremise, HasOwnWay};
ghost use Rattle.vs_plan.specs.Processor.{Kept, Moment, Is, MayFind, MayKeep, IsUpToDate};
ghost use Rattle.vs_plan.specs.Request.{IsRequest, address_of};
ghost use Rattle.vs_plan.specs.Answered.{space_after};
ghost use Rattle.vs_plan.specs.Right.{IsRight, begun, ended};
ghost use Rattle.vs_plan.specs.Target.{PinsRoot};

/// An access of a processor that is up to date finds what a walk of the memory finds. It stays up to date while the memory stays.
pub fn up_to_date_processors_find_walks()
    ensures find { (depth : Depth) (root : ℕ) (memory : Memory) (moments : List Moment)
        (address : ℕ) (end : Walk) → IsUpToDate depth root memory moments
        → IsCanonical depth address
        → MayFind depth root memory moments address end → end ≡ walk depth memory root address }
    ensures stay { (depth : Depth) (root : ℕ) (memory : Memory) (moments : List Moment)
        → IsUpToDate depth root memory moments
        → IsUpToDate depth root memory (Is memory ∷ moments) }
{}

/// The fill of a right plan changes no table that is reached, so that no processor reads it (`unreached_frames_are_unread`). And its flush
/// suffices for each processor that was up to date before its stores. While they are made, an access finds what a walk finds before or
/// after them all. After them and the flush the processor is up to date, and keeps nothing that leads into a frame that was unlinked.
pub fn flushes_of_right_plans_suffice()
    ensures filled { (target : Target) (request : Request) (memory : Memory) (space : Space)
        (offered : List (Option ℕ)) (plan : Plan)
        → IsRight target request memory space offered plan
        → HasSameTables target.depth target.root memory (begun memory plan) }
    ensures suffice { (target : Target) (request : Request) (memory : Memory) (space : Space)
        (offered : List (Option ℕ)) (plan : Plan)
        → IsPremise target.depth memory target.root (address_of request) space
        → IsRight target request memory space offered plan
        → Suffices target.depth target.root (begun memory plan) plan.stores.items plan.flush
        plan.unlinked.items }
{}

/// For one plan a flush suffices too that drops of the entries for tables only those on the walks of its addresses (`IsDroppedOnWalk`).
/// What a processor keeps after the stores, and such a flush doesn't drop, it might keep too if it began with nothing and read the memory
/// as it is then. So it is up to date, whatever flags were set meanwhile.
pub fn flushes_on_walks_suffice()
    ensures { (target : Target) (request : Request) (memory now : Memory) (space : Space)
        (offered : List (Option ℕ)) (plan : Plan) (earlier lived : List Moment) (kept : Kept)
        → IsPremise target.depth memory target.root (address_of request) space
        → IsCanonical target.depth (address_of request)
        → IsRight target request memory space offered plan
        → IsUpToDate target.depth target.root (begun memory plan) earlier
        → AreButFlags lived (while_stored (begun memory plan) plan.stores.items earlier)
        → AreSameButFlags (ended memory plan) now
        → MayKeep target.depth target.root lived kept
        → (IsDroppedOnWalk plan.flush kept → ⊥)
        → MayKeep target.depth target.root (Is now ∷ []) kept }
{}

/// What is written into a frame to which no way leads is read by no processor: each stays up to date, and each walk is as before.
pub fn unreached_frames_are_unread()
    ensures keep { (depth : Depth) (root : ℕ) (old new : Memory) (moments : List Moment)
        → HasSameTables depth root old new → IsUpToDate depth root old moments
        → IsUpToDate depth root new (Is new ∷ moments) }
    ensures walks { (depth : Depth) (root : ℕ) (old new : Memory) (address : ℕ)
        → HasSameTables depth root old new
        → walk depth new root address ≡ walk depth old root address }
{}

/// A plan for one root is right for each other root beside it (`IsBeside`), which may share the tables below. Let any number of its stores be made. An
/// address whose root entries lead to one table is then walked alike from both roots, and one that meets no table on the way of the
/// plan's base is walked as before. No frame that was unlinked is reached, and the flush suffices for processors that walk from the
/// other root.
pub fn plans_are_right_beside_their_root()
    ensures { (target : Target) (request : Request) (memory : Memory) (space : Space)
        (offered : List (Option ℕ)) (plan : Plan) (other : ℕ)
        → IsPremise target.depth memory target.root (address_of request) space
        → IsRight target request memory space offered plan
        → IsBeside target memory (address_of request) plan other
        → IsRightBeside target memory (address_of request) plan other }
{}

/// Two roots have no tables in common but those of addresses that have the same way from both below the roots. Then a plan for any base
/// is one beside the other root, where the tables that the root leads to stay if the base is such an address, and the other root leads
/// to no spare frame that is written. After it that is so again, and so is what a plan through the other root asks of the memory. No other
/// way leads to the tables on an address's way. From the other root the memory translates as each space that has what the root's
/// has now at addresses in common, and elsewhere what the other's had. It is so the other way round too, if each table of the root has
/// one way.
pub fn roots_stay_beside()
    ensures beside { (target : Target) (memory : Memory) (base : ℕ) (plan : Plan) (other : ℕ)
        → AreBeside target.depth memory target.root other
        → (IsShared target.depth memory target.root other base → PinsRoot target)
        → All (λ (store : Store). LeadsNotTo target.depth memory target.root store.frame
        → LeadsNotTo target.depth memory other store.frame) plan.stores.items
        → ((fill : Fill) → plan.fill ≡ Some fill
        → LeadsNotTo target.depth memory other fill.frame)
        → IsBeside target memory base plan other }
    ensures again { (target : Target) (request : Request) (memory : Memory) (space : Space)
        (offered : List (Option ℕ)) (plan : Plan) (other : ℕ)
        → IsPremise target.depth memory target.root (address_of request) space
        → IsRight target request memory space offered plan
        → IsBeside target memory (address_of request) plan other
        → AreBeside target.depth memory target.root other
        → AreBeside target.depth (ended memory plan) target.root other }
    ensures own { (target : Target) (request : Request) (memory : Memory) (space : Space)
        (offered : List (Option ℕ)) (plan : Plan) (other : ℕ)
        → IsPremise target.depth memory target.root (address_of request) space
        → IsRight target request memory space offered plan
        → IsBeside target memory (address_of request) plan other
        → AreBeside target.depth memory target.root other → (address : ℕ)
        → HasOwnWay target.depth memory target.root address
        → HasOwnWay target.depth memory other address
        → HasOwnWay target.depth (ended memory plan) other address }
    ensures translates { (target : Target) (request : Request) (memory : Memory) (space : Space)
        (offered : List (Option ℕ)) (plan : Plan) (other : ℕ)
        → IsPremise target.depth memory target.root (address_of request) space
        → IsRight target request memory space offered plan
        → IsBeside target memory (address_of request) plan other
        → AreBeside target.depth memory target.root other → (before then : Space)
        → TranslatesAs target.depth memory other before
        → ((address : ℕ) → IsCanonical target.depth address
        → IsShared target.depth memory target.root other address
        → look then address ≡ look (space_after target request space plan.reply) address)
        → ((address : ℕ) → IsCanonical target.depth address
        → (IsShared target.depth memory target.root other address → ⊥)
        → look then address ≡ look before address)
        → TranslatesAs target.depth (ended memory plan) other then }
    ensures swapped { (depth : Depth) (memory : Memory) (root other : ℕ)
        → AreBeside depth memory root other → ((address : ℕ) → HasOwnWay depth memory root address)
        → AreBeside depth memory other root }
{}

/// Plans follow one another. A frame whose words are all 0 is the root of the empty space. After a right plan, what the next one asks of
/// the memory holds with the space after it, for each address for which no other way led to the tables on its way.
pub fn premises_hold_again()
    ensures first { (depth : Depth) (memory : Memory) (root address : ℕ) → AreWhole memory
        → finite.get memory root ≡ Some zeros
        → IsPremise depth memory root address no_pages }
    ensures next { (target : Target) (request : Request) (memory : Memory) (space : Space)
        (offered : List (Option ℕ)) (plan : Plan) (address : ℕ)
        → IsRequest target request
        → IsPremise target.depth memory target.root (address_of request) space
        → IsRight target request memory space offered plan
        → HasOwnWay target.depth memory target.root address
        → IsPremise target.depth (ended memory plan) target.root address
        (space_after target request space plan.reply) }
{}
