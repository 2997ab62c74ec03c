//! A law and worked examples of the words of log entries.
ghost use Rattle.std.specs.Prelude.{◌≡◌, ℕ, List, [], ◌∷◌};
ghost use Rattle.vs_types.specs.Examples.{map_all, user_and_exec};
ghost use Rattle.vs_types.specs.LogEntry.{SpellsEntry, log_words};
ghost use Rattle.vs_types.specs.declared.addresses.depth.Depth.{Depth};
ghost use Rattle.vs_types.specs.declared.log_entry.LogEntry.{LogEntry};
ghost use Rattle.vs_types.specs.declared.requests.op.Action.TheVariants.{Unmap, Protect};
ghost use Rattle.vs_types.specs.declared.addresses.page.Size.TheVariants.{K4};

/// Words spell one entry at most, at any depths.
pub fn log_words_spell_one_entry()
    ensures { (depth other : Depth) (words : List ℕ) (p q : LogEntry) → SpellsEntry depth words p
        → SpellsEntry other words q → p ≡ q }
{}

/// The words of a map, of an unmap and of a protect; and words whose bit 7 is set, which spell no entry.
pub fn words_of_entries()
    ensures map { log_words (record { call = 0; op = map_all 0x400000 K4 0x1000 })
        ≡ 0x400070 ∷ 0x1 ∷ [] }
    ensures unmap { log_words (record { call = 3; op = Unmap 0xFFFF800000000000 })
        ≡ 0xFFFF800000000001 ∷ 0x18000000000 ∷ [] }
    ensures protect { log_words (record { call = 131071; op = Protect 0x1000 user_and_exec })
        ≡ 0x1062 ∷ 0xFFFF8000000000 ∷ [] }
    ensures reserved_bit { (depth : Depth) (entry : LogEntry)
        → SpellsEntry depth (0x4000F0 ∷ 0x1 ∷ []) entry → ⊥ }
{}
