//! What the replicas of one log have in common, beside what the log's name says.
use std::marker::Brand;

/// Names the log of some replicas, how many tables each may have, and the place at which the last cut ended, 0 if there was none. It is
/// picked once the log is made or cut; by it the node behind a replica's lock is known to be of that log, and to keep the entries since.
pub trait ReplicasName {
    ghost use Rattle.std.specs.Prelude.{ℕ};
    ghost use Rattle.nr_ring.specs.Pass.{TableId};

    ghost log: { TableId };

    ghost tables: { ℕ };

    ghost base: { ℕ } = { 0 };
}

impl ReplicasName for Brand {
    ghost use Rattle.nr_replicas.specs.Replicas.{no_log};

    ghost log = { no_log };

    ghost tables = { 1 };

    ghost base = { 0 };
}
