//! The page table of a replica.
ghost use Rattle.std.specs.FinMap as finite;
ghost use Rattle.std.specs.Prelude.{◌≡◌, ◌+◌, ◌*◌, ◌<◌, ◌≤◌, IfOk};
ghost use Rattle.vs_types.specs.Depth.{IsCanonical};
ghost use Rattle.vs_types.specs.Operation.{IsAction};
ghost use Rattle.vs_types.specs.Space as spaces;
ghost use Rattle.vs_types.specs.Space.{table_count};
ghost use Rattle.vs_types.specs.Step.{step, look, allow};
ghost use Rattle.vs_types.specs.declared.limits.TheConstants.{TABLES};
ghost use Rattle.vs_space.specs.Table.{IsTableOf};
ghost use Rattle.nr_trace.specs.Parts.{HasFrames};
ghost use Rattle.nr_trace.specs.declared.formats.version.Version.TheVariants.{V1};
ghost use Rattle.nr_core.specs.Run.{IsDumpOfReplica};
ghost use Rattle.nr_core.specs.State.{Replica};
ghost use Rattle.nr_core.specs.inside.OneSpace.{one_space};

use std::alloc::Global;
use vs_arena::VecArena;
use vs_space::Space;
use vs_types::{Access, Answer, Config, Fail, Memory, Mode, Op};
use vs_walk::Dump;

/// The frame number of the first table that a replica may have: the frames of tables begin at physical 2^51, and each replica has
/// 4,096 of them.
const FIRST_FRAME: u64 = 1 << 39;

/// The page table of a replica, and the space that it is of.
#[derive(Drop)]
pub(crate) struct Table {
    pages: Space<VecArena>,
    ghost of: { (space : spaces.Space) × IsTableOf pages space } by { one_space pages },
    ghost few: { pages.limit ≤ TABLES },
}

impl Table {
    /// The table of the empty space, at the layout's depth and under its limit of tables.
    pub(crate) fn new(alloc: Global, config: Config, replica: u8) -> Result<Table, Memory>
        ensures empty { IfOk result (λ table. table.of.0 ≡ spaces.no_pages) }
        ensures depth { IfOk result (λ table. table.pages.depth ≡ config.depth) }
        ensures limit { IfOk result (λ table. table.pages.limit ≡ config.tables) }
    {
        let tables = usize::from(config.tables());
        let base = FIRST_FRAME + 4096 * u64::from(replica);
        let store = VecArena::new(alloc, base, tables)?;
        match Space::new(store, config.depth()) {
            Ok(pages) => Ok(Table { pages }),
            Err(_) => unreachable!(),
        }
    }

    /// Does an operation.
    pub(crate) fn apply(&mut self, op: Op) -> Answer
        requires { IsAction self.old.pages.depth op }
        ensures answer { result
            ≡ (step self.old.pages.depth self.old.pages.limit self.old.of.0 op).answer }
        ensures space { self.new.of.0
            ≡ (step self.old.pages.depth self.old.pages.limit self.old.of.0 op).space }
        ensures depth { self.new.pages.depth ≡ self.old.pages.depth }
        ensures limit { self.new.pages.limit ≡ self.old.pages.limit }
    {
        self.pages.apply(op)
    }

    /// The translation of a canonical address, or `NotMapped`.
    pub(crate) fn resolve(&self, address: u64) -> Answer
        requires { IsCanonical self.now.pages.depth address }
        ensures { result ≡ look self.now.of.0 address }
    {
        self.pages.resolve(address)
    }

    /// Whether an access of a canonical address is allowed, and where that is.
    pub(crate) fn access(&self, address: u64, mode: Mode, access: Access) -> Answer
        requires { IsCanonical self.now.pages.depth address }
        ensures { result ≡ allow self.now.of.0 address mode access }
    {
        self.pages.access(address, mode, access)
    }

    /// As many frames are in use as the space has tables, and no more than a dump may have.
    fn frames_are_counted(&self)
        ensures counts { finite.len self.now.pages.memory
            ≡ table_count self.now.pages.depth self.now.of.0 }
        ensures few { finite.len self.now.pages.memory ≤ TABLES }
    {
        self.pages.tables();
    }

    /// Its frames, after `applied` entries of the log.
    pub(crate) fn dump(&self, alloc: Global, applied: u32) -> Result<Dump, Memory>
        ensures is { (replica : Replica) → replica.applied ≡ applied → replica.space ≡ self.now.of.0
            → IfOk result (IsDumpOfReplica self.now.pages.depth replica) }
        ensures frames { IfOk result (HasFrames V1) }
    {
        self.frames_are_counted();
        let root = self.pages.root();
        let depth = self.pages.depth();
        match Dump::gather(alloc, &self.pages, root, depth, applied) {
            Ok(dump) => Ok(dump),
            Err(Fail::Memory) => Err(Memory),
            Err(Fail::Refused(_)) => unreachable!(),
        }
    }
}
