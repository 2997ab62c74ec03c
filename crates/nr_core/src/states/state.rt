//! The state of the protocol, as it is stored and as contracts see it.
use crate::states::parts::{ReplicaState, ThreadState};
use nr_trace::Recorded;
use std::alloc::Global;
use std::marker::Model;
use vs_types::{Config, LogEntry};

/// The state of the protocol. Contracts see it with the space of each replica in place of its page table.
#[derive(Drop)]
pub struct Core {
    pub(crate) alloc: Global,
    pub(crate) config: Config,
    pub(crate) events: Vec<Recorded>,
    pub(crate) log: Vec<LogEntry>,
    /// The completed tail.
    pub(crate) completed: u32,
    pub(crate) replicas: Vec<ReplicaState>,
    pub(crate) threads: Vec<ThreadState>,
}

impl Model for Core {
    ghost use Rattle.std.specs.Coded.{codes, coded_ℕ};
    ghost use Rattle.std.specs.FinMap as finite;
    ghost use Rattle.std.specs.Ordering.{nat_cmp};
    ghost use Rattle.vs_types.specs.contracts.addresses.page.Page as page_contract;
    ghost use Rattle.nr_core.specs.State.{State};

    ghost Value = { State };

    ghost coded = { Prim.hlevel (codes, finite.code {R = nat_cmp} coded_ℕ page_contract.the_row.coded) };

    ghost use Rattle.nr_core.specs.inside.Fields.{parts_in};
    ghost use Rattle.nr_core.specs.inside.Parts.{state_in, AreParts};

    ghost view = { λ c. state_in (parts_in c) };

    ghost invariant = { λ c. AreParts (parts_in c) };
}
