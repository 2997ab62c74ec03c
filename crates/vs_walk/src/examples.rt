//! Worked examples: what the definitions give at numbers.
ghost use Rattle.std.specs.Prelude.{◌≡◌, List, [], ◌∷◌, Some, None};
ghost use Rattle.vs_types.specs.declared.addresses.depth.Depth.TheVariants.{Four, Five};
ghost use Rattle.vs_types.specs.declared.addresses.page.Size.TheVariants.{K4, M2};
ghost use Rattle.vs_walk.specs.declared.walk.Walk.TheVariants.{NotMapped, Reserved, Missing, Mapped};
ghost use Rattle.vs_walk.specs.declared.walk.WalkFault.TheVariants as faults;
ghost use Rattle.vs_walk.specs.Walk.{all_rights, walk};
ghost use Rattle.vs_walk.specs.Traversal.{traversal, reached, found, walk_fault};
ghost use Rattle.vs_walk.specs.Examples.{page_tables, high_tables, three_tables, one_table, two_empty_frames, one_empty_frame, write_and_exec};

/// Tables of one page of 4 KiB: an address in it, one after it, and the traversal.
pub fn map_then_resolve()
    ensures mapped { walk Four (page_tables 0x4007 0x1007) 1 0x400123
        ≡ Mapped 0x1123 K4 all_rights }
    ensures not_mapped { walk Four (page_tables 0x4007 0x1007) 1 0x401000 ≡ NotMapped }
    ensures reached { reached (traversal Four (page_tables 0x4007 0x1007) 1) ≡ 1 ∷ 2 ∷ 3 ∷ 4 ∷ [] }
    ensures found { found (traversal Four (page_tables 0x4007 0x1007) 1)
        ≡ record { base = 0x400000; size = K4; phys = 0x1000; rights = all_rights } ∷ [] }
    ensures faultless { walk_fault Four (page_tables 0x4007 0x1007) 1 ≡ None }
{}

/// An entry above the leaf that keeps users out keeps them out of the page.
pub fn dump_with_fewer_rights()
    ensures { walk Four (page_tables 0x4003 0x1007) 1 0x400000 ≡ Mapped 0x1000 K4 write_and_exec }
{}

/// A leaf with each bit set that means nothing translates as one without them.
pub fn ignored_bits_are_ignored()
    ensures { walk Four (page_tables 0x4007 0x7FF0000000001FFF) 1 0x400123
        ≡ Mapped 0x1123 K4 all_rights }
{}

/// What is wrong with tables that are no tree: a reserved bit, a table that leads to itself, a frame that is missing.
/// Bit 12 of a page of 2 MiB means nothing, and a frame that nothing leads to is not reached.
pub fn faulty_dumps()
    ensures reserved_bit { walk_fault Four (three_tables 0x202087) 1 ≡ Some (faults.Reserved 3 1) }
    ensures reserved_walk { walk Four (three_tables 0x202087) 1 0x200000 ≡ Reserved }
    ensures other_page { walk_fault Four (three_tables 0x201087) 1 ≡ None }
    ensures other_page_walk { walk Four (three_tables 0x201087) 1 0x200000
        ≡ Mapped 0x200000 M2 all_rights }
    ensures shared_frame { walk_fault Four (one_table 0x1007) 1 ≡ Some (faults.Shared 1) }
    ensures missing_frame { walk_fault Four (one_table 0x2007) 1 ≡ Some (faults.Missing 2) }
    ensures missing_walk { walk Four (one_table 0x2007) 1 0 ≡ Missing }
    ensures stray_frame { walk_fault Four two_empty_frames 1 ≡ None }
    ensures stray_reached { reached (traversal Four two_empty_frames 1) ≡ 1 ∷ [] }
    ensures missing_root { walk_fault Four one_empty_frame 5 ≡ Some (faults.Missing 5) }
{}

/// Five levels: the high half begins at index 256 of the root, and bit 7 of its words is reserved. The same words with
/// four levels: the root is the table of level 4, and the page one table above.
pub fn five_levels()
    ensures mapped { walk Five high_tables 1 0xFF00000000000123 ≡ Mapped 0x3123 K4 all_rights }
    ensures not_mapped { walk Five high_tables 1 0x123 ≡ NotMapped }
    ensures reached { reached (traversal Five high_tables 1) ≡ 1 ∷ 2 ∷ 3 ∷ 4 ∷ 5 ∷ [] }
    ensures found { found (traversal Five high_tables 1)
        ≡ record { base = 0xFF00000000000000; size = K4; phys = 0x3000; rights = all_rights } ∷ [] }
    ensures faultless { walk_fault Five high_tables 1 ≡ None }
    ensures reserved_bit { walk_fault Five (one_table 0x87) 1 ≡ Some (faults.Reserved 1 0) }
    ensures empty { walk_fault Five one_empty_frame 1 ≡ None }
    ensures with_four { walk Four high_tables 1 0xFFFF800000000123 ≡ Mapped 0x5123 K4 all_rights }
    ensures found_with_four { found (traversal Four high_tables 1)
        ≡ record { base = 0xFFFF800000000000; size = K4; phys = 0x5000; rights = all_rights } ∷ [] }
{}
