//! Laws of plans in whose tables processors set flags meanwhile. Each function does nothing: its clauses say what holds of all memories.
ghost use Rattle.std.specs.Prelude.{◌≡◌, ◌∷◌, ◌%◌, ◌^◌, ℕ, IsSome, List, Option, [], None, Some};
ghost use Rattle.std.specs.FinMap as finite;
ghost use Rattle.vs_types.specs.Space.{Space};
ghost use Rattle.vs_types.specs.declared.addresses.depth.Depth.{Depth};
ghost use Rattle.vs_types.specs.declared.addresses.page.Page.{Page};
ghost use Rattle.vs_types.specs.declared.addresses.page.Rights.{Rights};
ghost use Rattle.vs_types.specs.declared.addresses.page.Size.{Size};
ghost use Rattle.vs_walk.specs.Memory.{Memory};
ghost use Rattle.vs_walk.specs.Walk.{TranslatesAs};
ghost use Rattle.vs_walk.specs.declared.walk.Walk.{Walk};
ghost use Rattle.vs_space.specs.Flags.{AreSameButFlags};
ghost use Rattle.vs_plan.specs.declared.plans.plan.Fill.{Fill};
ghost use Rattle.vs_plan.specs.declared.plans.plan.Flush.{Flush};
ghost use Rattle.vs_plan.specs.declared.plans.plan.Plan.{Plan};
ghost use Rattle.vs_plan.specs.declared.plans.plan.Store.{Store};
ghost use Rattle.vs_plan.specs.declared.plans.request.Request.{Request};
ghost use Rattle.vs_plan.specs.declared.plans.target.Target.{Target};
ghost use Rattle.vs_plan.specs.Again.{IsAgain, IsPlanAgain, TakesTable, fill_again, new_again};
ghost use Rattle.vs_types.specs.Bits.{HasFlagsSet, bits_in, flagged, flags_into, page_word, with_address, with_flags_of, with_rights};
ghost use Rattle.vs_plan.specs.Flushed.{Suffices};
ghost use Rattle.vs_plan.specs.Lived.{AreButFlags, SufficesButFlags};
ghost use Rattle.vs_plan.specs.Premise.{IsPremise, HasOwnWay};
ghost use Rattle.vs_plan.specs.Processor.{Moment, MayFind, IsUpToDate};
ghost use Rattle.vs_plan.specs.Request.{address_of};
ghost use Rattle.vs_plan.specs.Right.{IsRight, IsTold, begun};
ghost use Rattle.vs_plan.specs.Stores.{FindTheirWords, filled, stored};

/// Memories in which nothing differs but the accessed flag and the dirty flag of entries that are present translate as the same space.
/// They stay so by stores of words in which nothing else differs, and `Store::again` gives such a store. So whatever flags processors set
/// while a plan is carried out, at each moment the memory translates as it would without them. And no flag is lost: what a protect or a
/// remap stores again, and the bits of the page's entry with the flags that were found, are those of the word that was found. So is
/// what a split fills in again: the entries of the parts of the page of the word that was found. What a join or a collapse stores has both
/// flags, whatever word it found.
pub fn flags_keep_plans_safe()
    ensures translations { (depth : Depth) (root : ℕ) (old new : Memory) (space : Space)
        → AreSameButFlags old new → TranslatesAs depth old root space
        → TranslatesAs depth new root space }
    ensures stores { (old new : Memory) (store again : Store) → AreSameButFlags old new
        → IsSome (finite.get old store.frame) → IsAgain store again
        → AreSameButFlags (stored old store) (stored new again) }
    ensures again { (store : Store) (word : ℕ) → HasFlagsSet store.old word
        → IsAgain store (record store { old = word; new = with_flags_of word store.new }) }
    ensures protects { (old word : ℕ) (rights : Rights) → HasFlagsSet old word
        → with_flags_of word (with_rights old rights) ≡ with_rights word rights }
    ensures remaps { (size : Size) (old word phys : ℕ) (rights : Rights) → phys % 2 ^ 12 ≡ 0
        → HasFlagsSet old word
        → with_flags_of word (with_rights (with_address size old phys) rights)
        ≡ with_rights (with_address size word phys) rights }
    ensures bits { (size : Size) (old word : ℕ) → HasFlagsSet old word
        → flags_into word (bits_in size old) ≡ bits_in size word }
    ensures fills { (old new : Memory) (fill : Fill) (word : ℕ) → AreSameButFlags old new
        → fill.first % 2 ≡ 1 → fill.step % 2 ^ 7 ≡ 0
        → AreSameButFlags (filled old (Some fill)) (filled new (fill_again word (Some fill))) }
    ensures splits { (page : Page) (size : Size) (old word : ℕ) → page.phys % 2 ^ 12 ≡ 0
        → HasFlagsSet old word
        → flags_into word (page_word page (bits_in size old))
        ≡ page_word page (bits_in size word) }
    ensures joins { (page : Page) (size : Size) (first word number : ℕ) → page.phys % 2 ^ 12 ≡ 0
        → new_again None (number ∷ []) word (page_word page (flagged (bits_in size first)))
        ≡ flagged (page_word page (bits_in size first)) }
{}

/// What a processor may keep, and what an access finds, doesn't depend on flags. So a processor that is up to date stays so where flags
/// are set, and a flush that suffices for stores does so whatever flags are set before, between and after them. And what a plan asks of
/// a memory holds with other flags too.
pub fn flags_keep_processors_up_to_date()
    ensures keep { (depth : Depth) (root : ℕ) (lived told : List Moment) (memory now : Memory)
        → AreButFlags lived told → AreSameButFlags memory now
        → IsUpToDate depth root memory told → IsUpToDate depth root now lived }
    ensures find { (depth : Depth) (root : ℕ) (lived told : List Moment) (memory now : Memory)
        (address : ℕ) (end : Walk) → AreButFlags lived told → AreSameButFlags memory now
        → MayFind depth root now lived address end → MayFind depth root memory told address end }
    ensures suffice { (depth : Depth) (root : ℕ) (memory : Memory) (stores : List Store)
        (flush : Flush) (unlinked : List ℕ) → Suffices depth root memory stores flush unlinked
        → SufficesButFlags depth root memory stores flush unlinked }
    ensures ways { (depth : Depth) (root address : ℕ) (old new : Memory) → AreSameButFlags old new
        → HasOwnWay depth old root address → HasOwnWay depth new root address }
    ensures premises { (depth : Depth) (root address : ℕ) (space : Space) (old new : Memory)
        → AreSameButFlags old new → IsPremise depth old root address space
        → IsPremise depth new root address space }
{}

/// A right plan is right for each memory in which its stores find their words, and that differs from the one that was shown in flags alone.
/// The bits that it answers have to be those of the page's entry still. And so is the plan with the word that one of its stores found,
/// whose bits are those of the page's entry then. Those of a join or a collapse, of the first page as it was shown, have to be so still.
pub fn plans_are_right_again()
    ensures elsewhere { (target : Target) (request : Request) (memory now : Memory) (space : Space)
        (offered : List (Option ℕ)) (plan : Plan)
        → IsPremise target.depth memory target.root (address_of request) space
        → IsRight target request memory space offered plan → AreSameButFlags memory now
        → FindTheirWords (begun now plan) plan.stores.items
        → IsTold target now (address_of request) plan.bits plan.reply
        → IsRight target request now space offered plan }
    ensures again { (target : Target) (request : Request) (memory now : Memory) (space : Space)
        (offered : List (Option ℕ)) (plan again : Plan) (index word : ℕ)
        → IsPremise target.depth memory target.root (address_of request) space
        → IsRight target request memory space offered plan → IsPlanAgain plan index word again
        → AreSameButFlags memory now → FindTheirWords (begun now again) again.stores.items
        → (TakesTable request → IsTold target now (address_of request) again.bits again.reply)
        → IsRight target request now space offered again }
{}
