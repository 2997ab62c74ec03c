//! The start of the protocol.
ghost use Rattle.std.specs.Prelude.{◌≡◌, map, replicate, All, IfOk};
ghost use Rattle.vs_types.specs.Query.{AreScripts};
ghost use Rattle.nr_core.specs.State.{new_replica, start};
ghost use Rattle.nr_core.specs.inside.Parts.{replica_in, thread_of, IsReplica};

use crate::states::parts::{Marks, ReplicaState, ThreadState};
use crate::states::stage::Stage;
use crate::states::state::Core;
use crate::states::table::Table;
use std::alloc::Global;
use vs_types::{Config, Memory, Request};

impl Core {
    /// The protocol at its start, with a script for each thread. It keeps the scripts, and allocates memory: 4,101 bytes for each
    /// table that each replica may have. There is one script for each thread, with at most 65,536 requests in all, each well formed
    /// at the depth.
    ///
    /// # Errors
    ///
    /// Out of memory.
    pub fn new(alloc: Global, config: Config, scripts: Vec<Vec<Request>>) -> Result<Core, Memory>
        requires { AreScripts config (map (λ script. script.items) scripts.items) }
        ensures { IfOk result (λ core.
            core ≡ start config (map (λ script. script.items) scripts.items)) }
    {
        let threads = new_threads(alloc, scripts)?;
        let replicas = new_replicas(alloc, config)?;
        Ok(Core {
            alloc,
            config,
            events: Vec::new(alloc),
            log: Vec::new(alloc),
            completed: 0,
            replicas,
            threads,
        })
    }
}

/// A thread for each script.
fn new_threads(alloc: Global, scripts: Vec<Vec<Request>>) -> Result<Vec<ThreadState>, Memory>
    ensures { IfOk result (λ threads. threads.items ≡ map thread_of scripts.items) }
{
    let mut threads = Vec::new(alloc);
    for script in scripts {
        threads.push(ThreadState {
            script,
            made: 0,
            stage: Stage::Idle,
            holds: None,
        })?;
    }
    Ok(threads)
}

/// Replicas as they are at the start, as many as the layout has.
fn new_replicas(alloc: Global, config: Config) -> Result<Vec<ReplicaState>, Memory>
    ensures seen { IfOk result (λ replicas.
        map replica_in replicas.items ≡ replicate config.replicas new_replica) }
    ensures each { IfOk result (λ replicas. All (IsReplica config) replicas.items) }
{
    let mut replicas = Vec::new(alloc);
    for replica in 0..config.replicas() {
        replicas.push(new_replica(alloc, config, replica)?)?;
    }
    Ok(replicas)
}

/// A replica as it is at the start.
fn new_replica(alloc: Global, config: Config, replica: u8) -> Result<ReplicaState, Memory>
    ensures seen { IfOk result (λ made. replica_in made ≡ new_replica) }
    ensures each { IfOk result (λ made. IsReplica config made) }
{
    let table = Table::new(alloc, config, replica)?;
    Ok(ReplicaState {
        marks: Marks {
            holder: None,
            placed: false,
            local: 0,
            applied: 0,
        },
        batch: Vec::new(alloc),
        table,
    })
}
