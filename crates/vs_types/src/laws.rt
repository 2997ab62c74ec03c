//! Laws of the definitions in `specs/`. Each function does nothing: its clauses say what holds of every space, page,
//! operation and limit.
ghost use Rattle.std.specs.Prelude.{◌≡◌, ℕ, Bool, ◌+◌, ◌<◌, ◌≤◌, ◌↔◌, Contains, IsTrue, IsFalse, List, slice_get, Some, None};
ghost use Rattle.std.specs.FinMap as finite;
ghost use Rattle.vs_types.specs.declared.addresses.access.Access.{Access};
ghost use Rattle.vs_types.specs.declared.addresses.access.Mode.{Mode};
ghost use Rattle.vs_types.specs.declared.addresses.depth.Depth.{Depth};
ghost use Rattle.vs_types.specs.declared.addresses.page.Page.{Page};
ghost use Rattle.vs_types.specs.declared.addresses.page.Rights.{Rights};
ghost use Rattle.vs_types.specs.declared.requests.op.Action.{Action};
ghost use Rattle.vs_types.specs.declared.requests.request.Query.{Query};
ghost use Rattle.vs_types.specs.declared.requests.answer.Answer.{Answer};
ghost use Rattle.vs_types.specs.Access.{allows, fault_code};
ghost use Rattle.vs_types.specs.Config.{Layout, IsLayout, config_fault};
ghost use Rattle.vs_types.specs.Depth.{IsCanonical};
ghost use Rattle.vs_types.specs.Laws.{as_in, LooksChanged, HasNewRights, changes, IsLeastOverlapped, IsInside};
ghost use Rattle.vs_types.specs.Operation.{IsAction, action_fault};
ghost use Rattle.vs_types.specs.Page.{covers, intersection, overlaps, IsPage, IsPageBelow};
ghost use Rattle.vs_types.specs.Query.{IsQuery, query_fault};
ghost use Rattle.vs_types.specs.Space.{Space, no_pages, pages, Holds, IsSpace, page_at, table_count};
ghost use Rattle.vs_types.specs.Step.{step, look, after};

/// A space lists the pages that it holds, and the page at an address is the one that it holds there.
pub fn holds_is_listed()
    ensures listed { (depth : Depth) (space : Space) (page : Page) → IsSpace depth space
        → Contains (pages space) page ↔ Holds space page }
    ensures found { (depth : Depth) (space : Space) (address : ℕ) (page : Page)
        → IsSpace depth space
        → (page_at space address ≡ Some page) ↔ (Holds space page × IsTrue (covers page address)) }
    ensures look { (depth : Depth) (space : Space) (address : ℕ) (page : Page) → IsSpace depth space
        → Holds space page → IsTrue (covers page address)
        → look space address ≡ as_in page address }
    ensures empty { (depth : Depth) → IsSpace depth no_pages }
    ensures empty_look { (address : ℕ) → look no_pages address ≡ Answer.NotMapped }
{}

/// The space after one operation more is that after a step by it.
pub fn spaces_go_on_by_operations()
    ensures start { (depth : Depth) (limit : ℕ) (actions : List Action)
        → after depth limit actions 0 ≡ no_pages }
    ensures next { (depth : Depth) (limit n : ℕ) (actions : List Action) (action : Action)
        → slice_get actions n ≡ Some action
        → after depth limit actions (n + 1)
        ≡ (step depth limit (after depth limit actions n) action).space }
{}

/// Two pages overlap exactly where some address is in both.
pub fn overlap_is_a_shared_address()
    ensures { (p q : Page)
        → IsTrue (overlaps p q) ↔
        ((address : ℕ) × IsTrue (covers p address) × IsTrue (covers q address)) }
{}

/// What is well formed is exactly what has no fault.
pub fn well_formed_is_without_fault()
    ensures action { (depth : Depth) (action : Action)
        → (action_fault depth action ≡ None) ↔ IsAction depth action }
    ensures query { (depth : Depth) (query : Query)
        → (query_fault depth query ≡ None) ↔ IsQuery depth query }
    ensures config { (layout : Layout) → (config_fault layout ≡ None) ↔ IsLayout layout }
{}

/// What is well formed with four levels is so with five.
pub fn four_levels_fit_in_five()
    ensures canonical { (address : ℕ) → IsCanonical Depth.Four address
        → IsCanonical Depth.Five address }
    ensures action { (action : Action) → IsAction Depth.Four action → IsAction Depth.Five action }
    ensures query { (query : Query) → IsQuery Depth.Four query → IsQuery Depth.Five query }
{}

/// What two sets of rights have in common allows an access exactly where each of them does, and a supervisor's read is
/// always allowed. The code of a fault says what the access was, and whether a page covers its address.
pub fn rights_allow_accesses()
    ensures both { (a b : Rights) (mode : Mode) (access : Access)
        → IsTrue (allows (intersection a b) mode access) ↔
        (IsTrue (allows a mode access) × IsTrue (allows b mode access)) }
    ensures supervisor_read { (rights : Rights)
        → IsTrue (allows rights Mode.Supervisor Access.Read) }
    ensures codes { (p q : Bool) (m n : Mode) (a b : Access) → fault_code p m a ≡ fault_code q n b
        → (p ≡ q) × (m ≡ n) × (a ≡ b) }
{}

/// A step by a well-formed operation keeps a space a space.
pub fn step_keeps_spaces()
    ensures { (depth : Depth) (limit : ℕ) (space : Space) (action : Action) → IsSpace depth space
        → IsAction depth action
        → IsSpace depth (step depth limit space action).space }
{}

/// After `Done` the addresses of the page, which nothing covered, look as it says, and all others as before.
pub fn done_adds_the_page()
    ensures fresh { (depth : Depth) (limit : ℕ) (space : Space) (page : Page) (address : ℕ)
        → IsSpace depth space
        → (step depth limit space (Action.Map page)).answer ≡ Answer.Done
        → IsTrue (covers page address) → look space address ≡ Answer.NotMapped }
    ensures looks { (depth : Depth) (limit : ℕ) (space : Space) (page : Page) → IsSpace depth space
        → IsPage depth page
        → (step depth limit space (Action.Map page)).answer ≡ Answer.Done
        → LooksChanged page (as_in page) space (step depth limit space (Action.Map page)).space }
{}

/// After `Removed`, which names the page that was there, its addresses are not mapped, and all others look as before.
pub fn removed_takes_the_page_away()
    ensures held { (depth : Depth) (limit : ℕ) (space : Space) (page : Page) → IsSpace depth space
        → (step depth limit space (Action.Unmap page.base)).answer
        ≡ Answer.Removed page.phys page.size page.rights → Holds space page }
    ensures looks { (depth : Depth) (limit : ℕ) (space : Space) (page : Page) → IsSpace depth space
        → (step depth limit space (Action.Unmap page.base)).answer
        ≡ Answer.Removed page.phys page.size page.rights
        → LooksChanged page (λ address. Answer.NotMapped) space
        (step depth limit space (Action.Unmap page.base)).space }
{}

/// After `Changed`, which names the rights of the page that was there, its addresses look as before but with the new
/// rights, and all others as before. No other page changes.
pub fn changed_changes_rights_alone()
    ensures held { (depth : Depth) (limit : ℕ) (space : Space) (base : ℕ) (rights old : Rights)
        → IsSpace depth space
        → (step depth limit space (Action.Protect base rights)).answer ≡ Answer.Changed old
        → (page : Page) × Holds space page × (page.base ≡ base) × (page.rights ≡ old) }
    ensures pages { (depth : Depth) (limit : ℕ) (space : Space) (page : Page) (rights old : Rights)
        → IsSpace depth space → Holds space page
        → (step depth limit space (Action.Protect page.base rights)).answer ≡ Answer.Changed old
        → HasNewRights page rights space
        (step depth limit space (Action.Protect page.base rights)).space }
    ensures looks { (depth : Depth) (limit : ℕ) (space : Space) (page : Page) (rights old : Rights)
        → IsSpace depth space → Holds space page
        → (step depth limit space (Action.Protect page.base rights)).answer ≡ Answer.Changed old
        → LooksChanged page (as_in (record page { rights = rights })) space
        (step depth limit space (Action.Protect page.base rights)).space }
{}

/// After any answer but `Done`, `Removed` and `Changed` the space is the one before.
pub fn other_answers_leave_the_space()
    ensures { (depth : Depth) (limit : ℕ) (space : Space) (action : Action)
        → IsFalse (changes (step depth limit space action).answer)
        → (step depth limit space action).space ≡ space }
{}

/// What the other answers of an operation say: `Overlap` names the least base of a page that is overlapped, `Full` the
/// tables of the space with the page, which are more than the limit, `Inside` the base of a page that has the address and
/// begins below it; and `NotMapped` is the answer exactly where the address is not mapped.
pub fn refusals_say_why()
    ensures overlap { (depth : Depth) (limit : ℕ) (space : Space) (page : Page) (base : ℕ)
        → IsSpace depth space
        → (step depth limit space (Action.Map page)).answer ≡ Answer.Overlap base
        → IsLeastOverlapped space page base }
    ensures full { (depth : Depth) (limit : ℕ) (space : Space) (page : Page) (need : ℕ)
        → (step depth limit space (Action.Map page)).answer ≡ Answer.Full need
        → (need ≡ table_count depth (finite.insert space page.base page)) × (limit < need) }
    ensures unmap_inside { (depth : Depth) (limit : ℕ) (space : Space) (address base : ℕ)
        → IsSpace depth space
        → (step depth limit space (Action.Unmap address)).answer ≡ Answer.Inside base
        → IsInside space address base }
    ensures protect_inside { (depth : Depth) (limit : ℕ) (space : Space) (address base : ℕ)
        (rights : Rights) → IsSpace depth space
        → (step depth limit space (Action.Protect address rights)).answer ≡ Answer.Inside base
        → IsInside space address base }
    ensures unmap_not_mapped { (depth : Depth) (limit : ℕ) (space : Space) (address : ℕ)
        → IsSpace depth space
        → ((step depth limit space (Action.Unmap address)).answer ≡ Answer.NotMapped) ↔
        (look space address ≡ Answer.NotMapped) }
    ensures protect_not_mapped { (depth : Depth) (limit : ℕ) (space : Space) (address : ℕ)
        (rights : Rights) → IsSpace depth space
        → ((step depth limit space (Action.Protect address rights)).answer ≡ Answer.NotMapped) ↔
        (look space address ≡ Answer.NotMapped) }
{}

/// Two spaces in which each canonical address looks the same are equal. The addresses of a page are canonical.
pub fn spaces_that_look_alike_are_equal()
    ensures equal { (depth : Depth) (s t : Space) → IsSpace depth s → IsSpace depth t
        → ((address : ℕ) → IsCanonical depth address → look s address ≡ look t address) → s ≡ t }
    ensures canonical { (limit : ℕ) (depth : Depth) (page : Page) (address : ℕ)
        → IsPageBelow limit depth page → IsTrue (covers page address)
        → IsCanonical depth address }
{}

/// A step never needs more tables than the limit, if the space before did not. An unmap never needs more tables than
/// before, and a protect needs as many.
pub fn step_keeps_the_limit()
    ensures limit { (depth : Depth) (limit : ℕ) (space : Space) (action : Action)
        → IsSpace depth space → table_count depth space ≤ limit
        → table_count depth (step depth limit space action).space ≤ limit }
    ensures unmap { (depth : Depth) (limit : ℕ) (space : Space) (base : ℕ) → IsSpace depth space
        → table_count depth (step depth limit space (Action.Unmap base)).space
        ≤ table_count depth space }
    ensures protect { (depth : Depth) (limit : ℕ) (space : Space) (base : ℕ) (rights : Rights)
        → IsSpace depth space
        → table_count depth (step depth limit space (Action.Protect base rights)).space
        ≡ table_count depth space }
{}
