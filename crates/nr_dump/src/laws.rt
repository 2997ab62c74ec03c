//! Laws of the definitions in `specs/`. Each function does nothing: its clauses say what holds of every dump.
ghost use Rattle.std.specs.Prelude.{◌≡◌, ◌↔◌};
ghost use Rattle.vs_types.specs.declared.addresses.depth.Depth.{Depth};
ghost use Rattle.vs_types.specs.Space.{Space, IsSpace};
ghost use Rattle.vs_walk.specs.Dump.{Image, IsDump};
ghost use Rattle.nr_dump.specs.declared.fault.DumpFault.{DumpFault};
ghost use Rattle.nr_dump.specs.Faults.{IsFirstOfDump, HasNoFault, FitsSpace};

/// A dump has no fault exactly where it translates as the space, its tables lead to no frame twice, and they lead to
/// each of its frames. At most one fault is the first.
pub fn dumps_fit_or_have_a_fault()
    ensures fits { (depth : Depth) (dump : Image) (space : Space) → IsDump dump
        → IsSpace depth space
        → FitsSpace depth dump space ↔ HasNoFault depth dump space }
    ensures one_first { (depth : Depth) (dump : Image) (space : Space) (fault other : DumpFault)
        → IsFirstOfDump depth dump space fault
        → IsFirstOfDump depth dump space other → fault ≡ other }
{}
