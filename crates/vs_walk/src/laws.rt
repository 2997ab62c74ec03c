//! Laws of the definitions in `specs/`: of walks, of the traversal of all tables, and of what both say of spaces. Each
//! function does nothing: its clauses say what holds of every memory.
ghost use Rattle.std.specs.Prelude.{◌≡◌, ◌≢◌, ◌≤◌, ◌<◌, ◌^◌, ◌⊎◌, ◌++◌, ◌∷◌, ℕ, List, length, All, Contains, IsTrue, IsFalse, Some, None, nat_eq};
ghost use Rattle.std.specs.FinMap as finite;
ghost use Rattle.std.specs.List.{AllPairs, IsDistinct};
ghost use Rattle.vs_types.specs.declared.limits.TheConstants.{FRAMES};
ghost use Rattle.vs_types.specs.declared.addresses.depth.Depth.{Depth};
ghost use Rattle.vs_types.specs.declared.addresses.page.Page.{Page};
ghost use Rattle.vs_types.specs.Depth.{IsCanonical};
ghost use Rattle.vs_types.specs.Page.{covers, end_of, IsPage, IsPageBelow};
ghost use Rattle.vs_types.specs.Space.{Space, IsSpace, pages, page_covering};
ghost use Rattle.vs_walk.specs.Dump.{Image, IsDump};
ghost use Rattle.vs_walk.specs.Memory.{Memory, AreWhole};
ghost use Rattle.vs_walk.specs.Walk.{walk, TranslatesAs};
ghost use Rattle.vs_walk.specs.Traversal.{OfReservedBit, traversal, found, reached, walk_fault};
ghost use Rattle.vs_walk.specs.Laws.{as_found, IsReservedWord};
ghost use Rattle.vs_walk.specs.declared.walk.Walk.TheVariants as ends;
ghost use Rattle.vs_walk.specs.declared.walk.WalkFault.TheVariants as faults;

use crate::dump::Dump;

/// A memory translates as at most one space.
pub fn translates_as_one_space()
    ensures { (depth : Depth) (memory : Memory) (root : ℕ) (s t : Space) → IsSpace depth s
        → IsSpace depth t → TranslatesAs depth memory root s
        → TranslatesAs depth memory root t → s ≡ t }
{}

/// If a memory translates as a space, no walk of a canonical address meets a reserved bit or a frame that is missing.
pub fn spaces_translate_without_fault()
    ensures reserved { (depth : Depth) (memory : Memory) (root : ℕ) (space : Space) (address : ℕ)
        → TranslatesAs depth memory root space
        → IsCanonical depth address → walk depth memory root address ≢ ends.Reserved }
    ensures missing { (depth : Depth) (memory : Memory) (root : ℕ) (space : Space) (address : ℕ)
        → TranslatesAs depth memory root space
        → IsCanonical depth address → walk depth memory root address ≢ ends.Missing }
{}

/// The walk of a canonical address ends as the found page that covers it says, and with no mapping where none does: at
/// each address if the traversal meets no fault, and else if the walk meets none. If it meets one, no found page
/// covers the address.
pub fn found_pages_are_the_walks()
    ensures faultless { (depth : Depth) (memory : Memory) (root address : ℕ) → AreWhole memory
        → IsCanonical depth address
        → walk_fault depth memory root ≡ None
        → walk depth memory root address
        ≡ as_found address (page_covering address (found (traversal depth memory root))) }
    ensures each { (depth : Depth) (memory : Memory) (root address : ℕ) → AreWhole memory
        → IsCanonical depth address
        → walk depth memory root address ≢ ends.Reserved
        → walk depth memory root address ≢ ends.Missing
        → walk depth memory root address
        ≡ as_found address (page_covering address (found (traversal depth memory root))) }
    ensures none { (depth : Depth) (memory : Memory) (root address : ℕ) → AreWhole memory
        → IsCanonical depth address
        → (walk depth memory root address ≡ ends.Reserved) ⊎
        (walk depth memory root address ≡ ends.Missing)
        → page_covering address (found (traversal depth memory root)) ≡ None }
{}

/// The pages that are found are well formed. Their bases rise, each page ends at the base of the next or before, and
/// no two of them cover one address.
pub fn found_pages_rise()
    ensures well_formed { (depth : Depth) (memory : Memory) (root : ℕ) → AreWhole memory
        → All (IsPageBelow (2 ^ 52) depth) (found (traversal depth memory root)) }
    ensures bases { (depth : Depth) (memory : Memory) (root : ℕ) → AreWhole memory
        → AllPairs (λ p q. p.base < q.base) (found (traversal depth memory root)) }
    ensures ends { (depth : Depth) (memory : Memory) (root : ℕ) → AreWhole memory
        → AllPairs (λ p q. end_of p ≤ q.base) (found (traversal depth memory root)) }
    ensures apart { (depth : Depth) (memory : Memory) (root : ℕ) (p q : Page) (address : ℕ)
        → AreWhole memory
        → Contains (found (traversal depth memory root)) p
        → Contains (found (traversal depth memory root)) q → IsTrue (covers p address)
        → IsTrue (covers q address) → p ≡ q }
{}

/// The first frame that is reached is the root. If the traversal meets no fault, each frame that is reached is in the
/// memory, and none is reached twice. If that is so and no reserved bit is met, there is no fault.
pub fn reached_once()
    ensures root_first { (depth : Depth) (memory : Memory) (root : ℕ) → (others : List ℕ)
        × (reached (traversal depth memory root) ≡ root ∷ others) }
    ensures held { (depth : Depth) (memory : Memory) (root : ℕ)
        → walk_fault depth memory root ≡ None
        → All (λ number. IsTrue (finite.contains_key memory number))
        (reached (traversal depth memory root)) }
    ensures once { (depth : Depth) (memory : Memory) (root : ℕ)
        → walk_fault depth memory root ≡ None
        → IsDistinct nat_eq (reached (traversal depth memory root)) }
    ensures faultless { (depth : Depth) (memory : Memory) (root : ℕ)
        → All (λ number. IsTrue (finite.contains_key memory number))
        (reached (traversal depth memory root))
        → IsDistinct nat_eq (reached (traversal depth memory root))
        → ((number index : ℕ) → Contains (traversal depth memory root) (OfReservedBit number index)
        → ⊥) → walk_fault depth memory root ≡ None }
{}

/// What the first fault says: a missing frame is reached and not in the memory, and a shared one is in the memory and
/// is reached twice. A word with a reserved bit is in a frame that is reached, as an entry of the level at which the
/// frame is reached.
pub fn faults_are_met()
    ensures missing { (depth : Depth) (memory : Memory) (root number : ℕ)
        → walk_fault depth memory root ≡ Some (faults.Missing number)
        → IsFalse (finite.contains_key memory number)
        × Contains (reached (traversal depth memory root)) number }
    ensures shared { (depth : Depth) (memory : Memory) (root number : ℕ)
        → walk_fault depth memory root ≡ Some (faults.Shared number)
        → IsTrue (finite.contains_key memory number)
        × ((before after : List ℕ)
        × (reached (traversal depth memory root) ≡ before ++ number ∷ after)
        × Contains before number) }
    ensures reserved { (depth : Depth) (memory : Memory) (root number index : ℕ)
        → walk_fault depth memory root ≡ Some (faults.Reserved number index)
        → IsReservedWord depth memory root number index
        × Contains (reached (traversal depth memory root)) number }
{}

/// If the first fault of the traversal is a frame that is missing or a reserved bit, the walk of some canonical
/// address ends there. If there is no fault, no walk meets one. A frame that is reached twice ends no walk.
pub fn faults_are_walked()
    ensures missing { (depth : Depth) (memory : Memory) (root number : ℕ) → AreWhole memory
        → walk_fault depth memory root ≡ Some (faults.Missing number)
        → (address : ℕ) × IsCanonical depth address
        × (walk depth memory root address ≡ ends.Missing) }
    ensures reserved { (depth : Depth) (memory : Memory) (root number index : ℕ) → AreWhole memory
        → walk_fault depth memory root ≡ Some (faults.Reserved number index)
        → (address : ℕ) × IsCanonical depth address
        × (walk depth memory root address ≡ ends.Reserved) }
    ensures faultless { (depth : Depth) (memory : Memory) (root address : ℕ)
        → walk_fault depth memory root ≡ None
        → (walk depth memory root address ≢ ends.Reserved)
        × (walk depth memory root address ≢ ends.Missing) }
{}

/// Without a fault of the traversal, a memory translates as the space whose pages, by rising base, are those that are
/// found. If it translates as a space, the pages that are found are those of the space, and the first fault, if there
/// is one, is a frame that is reached twice. Without a fault and with all found pages below physical 2^51 there is such a
/// space.
pub fn found_pages_are_the_space()
    ensures translates { (depth : Depth) (memory : Memory) (root : ℕ) (space : Space)
        → AreWhole memory → walk_fault depth memory root ≡ None
        → found (traversal depth memory root) ≡ pages space → TranslatesAs depth memory root space }
    ensures found { (depth : Depth) (memory : Memory) (root : ℕ) (space : Space) → AreWhole memory
        → IsSpace depth space → TranslatesAs depth memory root space
        → found (traversal depth memory root) ≡ pages space }
    ensures fault { (depth : Depth) (memory : Memory) (root : ℕ) (space : Space) → AreWhole memory
        → TranslatesAs depth memory root space
        → (walk_fault depth memory root ≡ None) ⊎
        ((number : ℕ) × (walk_fault depth memory root ≡ Some (faults.Shared number))) }
    ensures space { (depth : Depth) (memory : Memory) (root : ℕ) → AreWhole memory
        → walk_fault depth memory root ≡ None
        → All (IsPage depth) (found (traversal depth memory root))
        → (space : Space) × IsSpace depth space
        × (pages space ≡ found (traversal depth memory root))
        × TranslatesAs depth memory root space }
{}

/// What a value of this type shows is a dump.
pub fn frames_are_a_dump(dump: &Dump)
    ensures { IsDump dump.now }
{
    let _count = dump.count();
}

/// Each frame of a dump has 512 words.
pub fn dumps_are_whole()
    ensures { (dump : Image) → IsDump dump → AreWhole dump.frames }
{}

/// Without a fault of the traversal, no more frames are reached than the memory has: of a dump at most 65,535, with
/// numbers below 2^40.
pub fn few_are_reached()
    ensures few { (depth : Depth) (memory : Memory) (root : ℕ) → walk_fault depth memory root ≡ None
        → length (reached (traversal depth memory root)) ≤ finite.len memory }
    ensures of_dump { (dump : Image) (depth : Depth) (root : ℕ) → IsDump dump
        → walk_fault depth dump.frames root ≡ None
        → length (reached (traversal depth dump.frames root)) ≤ FRAMES }
    ensures in_range { (dump : Image) (depth : Depth) (root : ℕ) → IsDump dump
        → walk_fault depth dump.frames root ≡ None
        → All (λ number. number < 2 ^ 40) (reached (traversal depth dump.frames root)) }
{}
