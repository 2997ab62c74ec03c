//! Laws of the definitions in `specs/`: what a processor does to the tables that it walks. Each function does nothing: its
//! clauses say what holds of all frames.
ghost use Rattle.std.specs.Prelude.{ℕ};
ghost use Rattle.vs_types.specs.Space.{Space};
ghost use Rattle.vs_types.specs.declared.addresses.depth.Depth.{Depth};
ghost use Rattle.vs_arena.specs.Store.{Store, Notes, Lenders};
ghost use Rattle.vs_space.specs.Flags.{AreSameButFlags};
ghost use Rattle.vs_space.specs.Kept.{KeepsTable, table_of};
ghost use Rattle.vs_space.specs.Table.{IsTableOf};

/// A processor that walks the tables sets the accessed flag and the dirty flag in entries that are present. Frames in which
/// these flags change, and nothing else, keep a page table if they kept one before, and it is that of the same space.
pub fn flags_keep_the_table()
    ensures keeps { (depth : Depth) (root base limit : ℕ) (old new : Store) (notes : Notes)
        → AreSameButFlags old new → KeepsTable depth root base limit old notes
        → KeepsTable depth root base limit new notes }
    ensures same_space { (lenders : Lenders) (depth : Depth) (root base limit : ℕ)
        (old new : Store) (space : Space)
        → AreSameButFlags old new → IsTableOf (table_of lenders depth root base limit old) space
        → IsTableOf (table_of lenders depth root base limit new) space }
{}
