//! Laws of the definitions in `specs/`: what a processor does to the memory lent. Each function does nothing: its clauses say what
//! holds of all memory.
ghost use Rattle.std.specs.Prelude.{◌≡◌, ℕ, List};
ghost use Rattle.vs_types.specs.Space.{Space};
ghost use Rattle.vs_arena.specs.Store.{Lenders};
ghost use Rattle.vs_arena.specs.declared.mark.FrameMark.{FrameMark};
ghost use Rattle.vs_space.specs.Table.{IsTableOf};
ghost use Rattle.nrvs_c.specs.Call.{IsSound};
ghost use Rattle.nrvs_c.specs.Flags.{IsLentSameButFlags};
ghost use Rattle.nrvs_c.specs.Table.{lent_status, lent_table};
ghost use Rattle.nrvs_c.specs.declared.table.Table.{Table};

/// A processor that walks the tables sets the accessed flag and the dirty flag in entries that are present. If these flags
/// change in the words lent, and nothing else, a handle can be used with them if it could before, its page table is in them,
/// and it is that of the same space.
pub fn flags_keep_the_table()
    ensures usable { (handle : Table) (words after : List (List ℕ)) (marks : List FrameMark)
        → IsLentSameButFlags words after
        → lent_status handle after marks ≡ lent_status handle words marks }
    ensures sound { (handle : Table) (words after : List (List ℕ)) (marks : List FrameMark)
        → IsLentSameButFlags words after → IsSound handle words marks → IsSound handle after marks }
    ensures same_space { (lenders : Lenders) (handle : Table) (words after : List (List ℕ))
        (marks : List FrameMark) (space : Space) → IsLentSameButFlags words after
        → IsTableOf (lent_table lenders handle words marks) space
        → IsTableOf (lent_table lenders handle after marks) space }
{}
