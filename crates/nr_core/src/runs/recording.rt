//! A recording of the state.
ghost use Rattle.std.specs.Prelude.{◌≡◌, All, IfOk, map};
ghost use Rattle.std.specs.List.{AllZip};
ghost use Rattle.nr_trace.specs.Parts.{HasFrames};
ghost use Rattle.nr_trace.specs.Recording.{IsRecording};
ghost use Rattle.nr_trace.specs.declared.formats.version.Version.TheVariants.{V1};
ghost use Rattle.nr_core.specs.Run.{IsDumpOfReplica, IsRecordingOf};
ghost use Rattle.nr_core.specs.inside.Parts.{replica_in, IsReplica};

use crate::states::parts::ReplicaState;
use crate::states::state::Core;
use nr_trace::Trace;
use std::alloc::Global;
use vs_types::{Config, LogEntry, Memory};
use vs_walk::Dump;

impl Core {
    /// A recording of the state as it is: the events, the call at each place of the log, and a dump of each replica, in the first
    /// version of the format that has all of it. It allocates memory: 24 bytes for each event, 4 for each place and 5,160 for each table.
    ///
    /// # Errors
    ///
    /// Out of memory.
    pub fn trace(&self) -> Result<Trace, Memory>
        ensures recording { IfOk result (IsRecordingOf self.now) }
        ensures in_range { IfOk result IsRecording }
    {
        let log = calls_in(self.alloc, &self.log)?;
        let mut events = Vec::new(self.alloc);
        events.extend_from_slice(&self.events)?;
        let dumps = dumps_of(self.alloc, self.config, &self.replicas)?;
        Ok(Trace::of_run(self.config, log, events, dumps))
    }
}

/// The call at each place of the log.
fn calls_in(alloc: Global, log: &[LogEntry]) -> Result<Vec<u32>, Memory>
    ensures { IfOk result (λ calls. calls.items ≡ map (λ entry. entry.call) log.now) }
{
    let mut calls = Vec::with_capacity(alloc, log.len())?;
    for entry in log {
        calls.push(entry.call)?;
    }
    Ok(calls)
}

/// A dump of each replica.
fn dumps_of(alloc: Global, config: Config, replicas: &[ReplicaState]) -> Result<Vec<Dump>, Memory>
    requires { All (IsReplica config) replicas.now }
    ensures each { IfOk result (λ dumps.
        AllZip (IsDumpOfReplica config.depth) (map replica_in replicas.now) dumps.items) }
    ensures frames { IfOk result (λ dumps. All (HasFrames V1) dumps.items) }
{
    let mut dumps = Vec::with_capacity(alloc, replicas.len())?;
    for replica in replicas {
        dumps.push(dump_of(alloc, config, replica)?)?;
    }
    Ok(dumps)
}

/// A dump of a replica.
fn dump_of(alloc: Global, config: Config, replica: &ReplicaState) -> Result<Dump, Memory>
    requires { IsReplica config replica.now }
    ensures is { IfOk result (IsDumpOfReplica config.depth (replica_in replica.now)) }
    ensures frames { IfOk result (HasFrames V1) }
{
    replica.table.dump(alloc, replica.marks.applied)
}
