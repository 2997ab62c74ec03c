//! What the dumps ask of an order.

use crate::calls::Orderable;
use crate::moving::hash_of_pages;
use nr_trace::Trace;
use std::alloc::Global;
use vs_types::{Fail, Memory, REPLICAS};
use vs_walk::leaves;

/// The dump of a replica: how many updates come before it, and the number of its space.
#[derive(Clone, Copy, Debug)]
pub(crate) struct Demand {
    pub(crate) applied: u32,
    pub(crate) hash: u64,
}

/// What each replica's dump asks of an order: it is a read of all addresses, behind as many updates as the replica had applied, and behind
/// all calls that were answered there.
#[derive(Clone, Copy, Debug)]
pub(crate) struct Demands {
    of_replicas: [Option<Demand>; REPLICAS as usize],
}

impl Demands {
    /// Nothing is asked.
    pub(crate) fn none() -> Demands {
        Demands {
            of_replicas: [None; REPLICAS as usize],
        }
    }

    /// Those of a trace; `None` where the tables of a dump have a fault. Allocates memory for the pages of one dump at a time.
    pub(crate) fn of(alloc: Global, trace: &Trace) -> Result<Option<Demands>, Memory> {
        let mut demands = Demands::none();
        let depth = trace.layout().depth();
        for (replica, dump) in trace.dumps().iter().enumerate() {
            let found = match leaves(alloc, dump, dump.root(), depth) {
                Ok(found) => found,
                Err(Fail::Memory) => return Err(Memory),
                Err(Fail::Refused(_)) => return Ok(None),
            };
            if let Some(row) = demands.of_replicas.get_mut(replica) {
                *row = Some(Demand {
                    applied: dump.applied(),
                    hash: hash_of_pages(found.pages.as_slice()),
                });
            }
        }
        Ok(Some(demands))
    }

    /// The demand of a replica.
    pub(crate) fn of_replica(&self, replica: u8) -> Option<Demand> {
        *self.of_replicas.get(replica as usize)?
    }

    /// Whether the space after so many updates is what the dumps with just so many ask.
    pub(crate) fn fit(&self, updates: u32, hash: u64) -> bool {
        for demand in self.of_replicas {
            if let Some(demand) = demand {
                if demand.applied == updates && demand.hash != hash {
                    return false;
                }
            }
        }
        true
    }

    /// Whether a call that is answered behind so many updates comes before the dump of its replica.
    pub(crate) fn allow(&self, call: &Orderable, updates: u32) -> bool {
        match (self.of_replica(call.replica), call.answer) {
            (Some(demand), Some(_)) => updates <= demand.applied,
            _ => true,
        }
    }

    /// Whether no dump has applied more updates than these.
    pub(crate) fn are_behind(&self, updates: u32) -> bool {
        for demand in self.of_replicas {
            if let Some(demand) = demand {
                if demand.applied > updates {
                    return false;
                }
            }
        }
        true
    }
}
