//! Worked examples: what the definitions give at numbers. The prover computes each.

ghost use Rattle.std.specs.Prelude.{◌≡◌, ℕ, List, [], ◌∷◌, take, Some, true, false};
ghost use Rattle.vs_types.specs.declared.requests.answer.Answer.TheVariants.{Allowed, Changed, Done, Fault, Full, Inside, Mapped, NotMapped, Overlap, Removed};
ghost use Rattle.vs_types.specs.declared.addresses.access.Access.TheVariants.{Fetch, Read, Write};
ghost use Rattle.vs_types.specs.declared.addresses.access.Mode.TheVariants.{Supervisor, User};
ghost use Rattle.vs_types.specs.declared.addresses.depth.Depth.{Depth};
ghost use Rattle.vs_types.specs.declared.addresses.depth.Depth.TheVariants.{Five, Four};
ghost use Rattle.vs_types.specs.declared.requests.op.Action.TheVariants.{Unmap};
ghost use Rattle.vs_types.specs.declared.requests.op.BadOp.TheVariants.{NotCanonical};
ghost use Rattle.vs_types.specs.declared.entries.entry.Meaning.TheVariants.{Leaf, Reserved, Table};
ghost use Rattle.vs_types.specs.declared.addresses.page.Size.TheVariants.{G1, K4, M2};
ghost use Rattle.vs_types.specs.Depth.{index_at, is_canonical};
ghost use Rattle.vs_types.specs.Entry.{all_rights, leaf_word, meaning, table_word};
ghost use Rattle.vs_types.specs.Operation.{action_fault};
ghost use Rattle.vs_types.specs.Examples.{allow_after, answers, look_after, tables_after};
ghost use Rattle.vs_types.specs.Examples.{no_rights, other_rights, user_and_exec, write_only};
ghost use Rattle.vs_types.specs.Examples.{beyond_four_levels, both_halves, last_page, map_all, past_three_tables, written_then_run};
ghost use Rattle.vs_types.specs.Examples.{large_then_small, one_gigabyte, small_replaced, small_then_large};

/// Pages at both ends of the addresses that are not canonical.
pub fn both_halves_of_the_address_space()
    ensures answers { answers Four 4096 both_halves ≡ Done ∷ Done ∷ [] }
    ensures tables { tables_after Four 4096 both_halves ≡ 7 }
    ensures low_index { index_at 4 0x7FFFFFFFF000 ≡ 255 }
    ensures high_index { index_at 4 0xFFFF800000000000 ≡ 256 }
    ensures last_low_address { look_after Four 4096 both_halves 0x7FFFFFFFFFFF
        ≡ Mapped 0x2FFF K4 all_rights }
    ensures between { is_canonical Four 0x800000000000 ≡ false }
{}

/// A page that overlaps two is answered the base of the lower one.
pub fn overlap_names_least_base()
    ensures answers { (depth : Depth)
        → answers depth 4096 small_then_large ≡ Done ∷ Done ∷ Overlap 0x40001000 ∷ [] }
    ensures tables { tables_after Four 4096 small_then_large ≡ 5 }
{}

/// A page that begins before the new one is named too, and so it is to a protect of an address in it.
pub fn overlap_names_a_page_that_begins_before()
    ensures answers { (depth : Depth)
        → answers depth 4096 large_then_small ≡ Done ∷ Overlap 0x200000 ∷ Inside 0x200000 ∷ [] }
    ensures tables { tables_after Four 4096 large_then_small ≡ 3 }
{}

/// The last page of all ends at 2^64.
pub fn last_page_of_the_address_space()
    ensures answers { (depth : Depth)
        → answers depth 4096 last_page ≡ Done ∷ Overlap 0xFFFFFFFFC0000000 ∷ [] }
    ensures last_address { (depth : Depth)
        → look_after depth 4096 last_page 0xFFFFFFFFFFFFFFFF ≡ Mapped 0x3FFFFFFF G1 all_rights }
{}

/// A page of 1 GiB, write only: an unmap in its midst names its base, and an address in it is translated.
pub fn gigabyte_page()
    ensures answers { (depth : Depth)
        → answers depth 4096 one_gigabyte ≡ Done ∷ Inside 0x40000000 ∷ [] }
    ensures tables { tables_after Four 4096 one_gigabyte ≡ 2 }
    ensures inner_address { (depth : Depth)
        → look_after depth 4096 one_gigabyte 0x40001234 ≡ Mapped 0x40001234 G1 write_only }
{}

/// With a limit of three tables, a map that needs a fourth names four; one that overlaps is answered so first.
pub fn full_names_its_need()
    ensures answers { answers Four 3 past_three_tables ≡ Done ∷ Full 4 ∷ Overlap 0x200000 ∷ [] }
    ensures tables { tables_after Four 3 past_three_tables ≡ 3 }
    ensures without_tables { answers Four 0 (map_all 0 G1 0 ∷ []) ≡ Full 2 ∷ [] }
{}

/// A table is counted only where a page needs it.
pub fn unmap_frees_tables()
    ensures answers { (depth : Depth)
        → answers depth 4096 small_replaced ≡ Done ∷ Removed 0x1000 K4 all_rights ∷ Done ∷ [] }
    ensures with_small { tables_after Four 4096 (take 1 small_replaced) ≡ 4 }
    ensures with_none { tables_after Four 4096 (take 2 small_replaced) ≡ 1 }
    ensures with_large { tables_after Four 4096 small_replaced ≡ 3 }
{}

/// A protect gives a page other rights, and answers those from before.
pub fn protect_changes_rights()
    ensures answers { (depth : Depth)
        → answers depth 4096 other_rights ≡ Done ∷ Changed write_only ∷ NotMapped ∷ [] }
    ensures changed { (depth : Depth)
        → look_after depth 4096 other_rights 0x1000 ≡ Mapped 0x5000 K4 user_and_exec }
{}

/// An access needs the right that it asks for, and in user mode the user right; a supervisor's read needs none. A fault's code says
/// whether a page covers the address, and what the access was. After a protect the new rights hold.
pub fn accesses_ask_for_rights()
    ensures answers { (depth : Depth)
        → answers depth 4096 written_then_run ≡ Done ∷ Changed write_only ∷ [] }
    ensures supervisor_write { (depth : Depth)
        → allow_after depth 4096 (take 1 written_then_run) 0x400123 Supervisor Write
        ≡ Allowed 0x1123 }
    ensures user_read { (depth : Depth)
        → allow_after depth 4096 (take 1 written_then_run) 0x400123 User Read ≡ Fault 5 }
    ensures user_write { (depth : Depth)
        → allow_after depth 4096 (take 1 written_then_run) 0x400123 User Write ≡ Fault 7 }
    ensures supervisor_fetch { (depth : Depth)
        → allow_after depth 4096 (take 1 written_then_run) 0x400123 Supervisor Fetch ≡ Fault 17 }
    ensures user_fetch { (depth : Depth)
        → allow_after depth 4096 (take 1 written_then_run) 0x400123 User Fetch ≡ Fault 21 }
    ensures read_of_nothing { (depth : Depth)
        → allow_after depth 4096 (take 1 written_then_run) 0x401000 Supervisor Read ≡ Fault 0 }
    ensures user_write_of_nothing { (depth : Depth)
        → allow_after depth 4096 (take 1 written_then_run) 0x401000 User Write ≡ Fault 6 }
    ensures user_fetch_of_nothing { (depth : Depth)
        → allow_after depth 4096 (take 1 written_then_run) 0x401000 User Fetch ≡ Fault 20 }
    ensures write_refused_after { (depth : Depth)
        → allow_after depth 4096 written_then_run 0x400123 Supervisor Write ≡ Fault 3 }
    ensures fetch_allowed_after { (depth : Depth)
        → allow_after depth 4096 written_then_run 0x400123 Supervisor Fetch ≡ Allowed 0x1123 }
{}

/// With five levels: pages where four levels reach none, and at both ends of the addresses that are not canonical.
pub fn beyond_four_levels()
    ensures answers { answers Five 4096 beyond_four_levels ≡ Done ∷ Done ∷ Done ∷ [] }
    ensures with_one { tables_after Five 4096 (take 1 beyond_four_levels) ≡ 5 }
    ensures with_two { tables_after Five 4096 (take 2 beyond_four_levels) ≡ 9 }
    ensures with_three { tables_after Five 4096 beyond_four_levels ≡ 13 }
    ensures high_index { index_at 5 0xFF00000000000000 ≡ 256 }
    ensures first_high_address { look_after Five 4096 beyond_four_levels 0xFF00000000000000
        ≡ Mapped 0x3000 K4 all_rights }
    ensures between { action_fault Five (Unmap 0x100000000000000) ≡ Some NotCanonical }
    ensures full { answers Five 4 (map_all 0 K4 0x1000 ∷ []) ≡ Full 5 ∷ [] }
    ensures gigabyte { tables_after Five 4096 (take 1 one_gigabyte) ≡ 3 }
{}

/// Words as entries: a page of 1 GiB, pages of 2 MiB and 1 GiB with a reserved bit and with the ignored one beside it, a
/// page of 4 KiB whose ignored bits are all set, one whose address has bit 51, a table, and a table of the highest level
/// that has bit 7, at four levels and at five.
pub fn entry_words()
    ensures gigabyte { meaning 3 0x8000000040000083 ≡ Leaf 0x40000000 write_only }
    ensures reserved_in_large { meaning 2 0x202087 ≡ Reserved }
    ensures ignored_in_large { meaning 2 0x201087 ≡ Leaf 0x200000 all_rights }
    ensures lowest_reserved_in_gigabyte { meaning 3 0x40002083 ≡ Reserved }
    ensures highest_reserved_in_gigabyte { meaning 3 0x60000083 ≡ Reserved }
    ensures ignored_in_gigabyte { meaning 3 0x40001087 ≡ Leaf 0x40000000 all_rights }
    ensures highest_address_bit { meaning 1 0x8000000001007 ≡ Leaf 0x8000000001000 all_rights }
    ensures ignored_in_small { meaning 1 0x7FF0000000001FFF ≡ Leaf 0x1000 all_rights }
    ensures table { meaning 4 0x2007 ≡ Table 2 all_rights }
    ensures no_page_in_root { meaning 4 0x87 ≡ Reserved }
    ensures no_page_in_root_of_five { meaning 5 0x87 ≡ Reserved }
    ensures table_of_root_of_five { meaning 5 0x2007 ≡ Table 2 all_rights }
    ensures written_gigabyte { leaf_word G1 0x40000000 write_only ≡ 0x8000000040000083 }
    ensures written_small { leaf_word K4 0x7FFFFFFFFF000 no_rights ≡ 0x8007FFFFFFFFF001 }
    ensures written_table { table_word 2 ≡ 0x2007 }
{}
