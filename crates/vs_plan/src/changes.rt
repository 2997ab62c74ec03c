//! Laws of what a split and a join do to a space. Each function does nothing: its clauses say what holds of all spaces.

ghost use Rattle.std.specs.Prelude.{◌≡◌, ◌≢◌, ◌↔◌, ◌+◌, ◌*◌, ◌%◌, ◌^◌, ◌<◌, ◌≤◌, ℕ, None};
ghost use Rattle.vs_types.specs.Entry.{meaning, size_at};
ghost use Rattle.vs_types.specs.Page.{bytes_of};
ghost use Rattle.vs_types.specs.declared.entries.entry.Meaning.{Meaning};
ghost use Rattle.vs_types.specs.declared.addresses.page.Rights.{Rights};
ghost use Rattle.vs_types.specs.Bits.{bits_in, unflagged};
ghost use Rattle.vs_plan.specs.Answered.{Follows};
ghost use Rattle.vs_types.specs.Space.{Space, IsSpace};
ghost use Rattle.vs_types.specs.Step.{look};
ghost use Rattle.vs_types.specs.declared.addresses.depth.Depth.{Depth};
ghost use Rattle.vs_types.specs.declared.addresses.page.Page.{Page};
ghost use Rattle.vs_types.specs.declared.addresses.page.Size.{Size};
ghost use Rattle.vs_plan.specs.Changes.{split, split_refusal, join, join_refusal, larger, HasParts, leads_to};

/// A split that isn't refused leaves a space of well-formed pages that lie apart, in which each address leads to the same physical
/// address with the same rights as before.
pub fn splits_keep_translations()
    ensures spaces { (depth : Depth) (space : Space) (base : ℕ) → IsSpace depth space
        → split_refusal space base ≡ None → IsSpace depth (split space base).space }
    ensures translations { (depth : Depth) (space : Space) (base : ℕ) → IsSpace depth space
        → split_refusal space base ≡ None → (address : ℕ)
        → leads_to (look (split space base).space address) ≡ leads_to (look space address) }
{}

/// A join that isn't refused, where all parts of the page are there, leaves a space of well-formed pages that lie apart, in which each
/// address leads to the same physical address with the same rights as before.
pub fn joins_keep_translations()
    ensures spaces { (depth : Depth) (space : Space) (page : Page) → IsSpace depth space
        → page.size ≢ Size.K4 → HasParts space page → join_refusal space page.base ≡ None
        → IsSpace depth (join space page.base).space }
    ensures translations { (depth : Depth) (space : Space) (page : Page) → IsSpace depth space
        → page.size ≢ Size.K4 → HasParts space page → join_refusal space page.base ≡ None
        → (address : ℕ)
        → leads_to (look (join space page.base).space address) ≡ leads_to (look space address) }
{}

/// Let the first entry of a table of pages of 4 KiB or 2 MiB have a physical address that is a multiple of the next larger size. Another
/// entry follows on from it exactly if it is that of a page whose physical address is as many pages further on. It has the same rights
/// and, but for the accessed and the dirty flag, the same bits.
pub fn entries_follow_on_by_their_parts()
    ensures { (level first index word phys : ℕ) (own : Rights) → 1 ≤ level → level ≤ 2
        → first < 2 ^ 64 → word < 2 ^ 64 → meaning level first ≡ Meaning.Leaf phys own
        → phys % bytes_of (larger (size_at level)) ≡ 0 → index < 512
        → Follows (size_at level) first index word
        ↔ ((meaning level word ≡ Meaning.Leaf (phys + index * bytes_of (size_at level)) own)
        × (unflagged (bits_in (size_at level) word)
        ≡ unflagged (bits_in (size_at level) first))) }
{}
