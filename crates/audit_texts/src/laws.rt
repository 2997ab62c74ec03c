//! Laws of the definitions in `specs/`. Each function does nothing: its clauses say what holds of all pages, dumps and faults.

ghost use Rattle.std.specs.Prelude.{◌≡◌, ◌↔◌, ◌<◌, ℕ, List, Bool, All, IsTrue, flat_map};
ghost use Rattle.vs_types.specs.Space.{pages, IsSpace, Space};
ghost use Rattle.vs_types.specs.declared.addresses.depth.Depth.{Depth};
ghost use Rattle.vs_types.specs.declared.addresses.page.Page.{Page};
ghost use Rattle.vs_walk.specs.Dump.{Image, IsDump};
ghost use Rattle.vs_walk.specs.Walk.{TranslatesAs};
ghost use Rattle.nr_trace.specs.declared.refusals.fault.Fault.{Fault};
ghost use Rattle.audit_texts.specs.AuditJson.{named_fault_text};
ghost use Rattle.audit_texts.specs.Dumps.{dump_text, IsFaultless, TranslateAlike};
ghost use Rattle.audit_texts.specs.Listing.{pages_text};
ghost use Rattle.audit_texts.specs.Ranges.{pages_of, ranges_of, same_page, AreParted};
ghost use Rattle.audit_texts.specs.Text.{fault_text};

/// The ranges of some pages have these pages, in their order, each once; each has one at least; and none goes on with the one before
/// it: pages are joined just where they follow one another.
pub fn ranges_are_the_pages()
    ensures together { (them : List Page) → flat_map pages_of (ranges_of them) ≡ them }
    ensures some { (them : List Page) → All (λ range. 0 < range.count) (ranges_of them) }
    ensures parted { (them : List Page) → AreParted (ranges_of them) }
    ensures same { (p q : Page) → IsTrue (same_page p q) ↔ (p ≡ q) }
{}

/// Two dumps without a fault, of which the same is printed, translate each address alike, whatever their depths; and at one depth the
/// same is printed of those that do.
pub fn equal_texts_are_equal_spaces()
    ensures equal { (as_ranges : Bool) (depth other_depth : Depth) (dump other : Image)
        → IsFaultless depth dump → IsFaultless other_depth other
        → dump_text as_ranges depth dump ≡ dump_text as_ranges other_depth other
        → TranslateAlike depth dump other_depth other }
    ensures alike { (as_ranges : Bool) (depth : Depth) (dump other : Image)
        → IsFaultless depth dump → IsFaultless depth other
        → TranslateAlike depth dump depth other
        → dump_text as_ranges depth dump ≡ dump_text as_ranges depth other }
{}

/// What is printed of a dump that translates as a space is what is printed of the pages of the space. No two spaces have the same text.
pub fn spaces_have_texts()
    ensures of_dump { (as_ranges : Bool) (depth : Depth) (dump : Image) (space : Space)
        → IsDump dump → IsSpace depth space → TranslatesAs depth dump.frames dump.root space
        → dump_text as_ranges depth dump ≡ pages_text as_ranges (pages space) }
    ensures equal { (as_ranges : Bool) (depth : Depth) (s t : Space)
        → IsSpace depth s → IsSpace depth t
        → pages_text as_ranges (pages s) ≡ pages_text as_ranges (pages t) → s ≡ t }
{}

/// The number, the name and the numbers that JSON has of a fault are those of its text, in this order, with spaces between them.
pub fn json_names_faults_as_the_text()
    ensures { (fault : Fault) → fault_text fault ≡ named_fault_text fault }
{}
