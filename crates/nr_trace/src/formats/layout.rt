//! How a recorded service was laid out.

ghost use Rattle.std.specs.Prelude.{◌≡◌, ◌↔◌, IsTrue};
ghost use Rattle.vs_types.specs.declared.limits.TheConstants.{FRAMES};

use crate::formats::version::Version;
use std::marker::Model;
use vs_types::{Config, Depth, REPLICAS};

/// How a recorded service was laid out: as its version of the format allows. Contracts see its layout.
#[derive(Clone, Copy, Debug, PartialEq, Eq)]
pub struct TraceLayout {
    depth: Depth,
    replicas: u8,
    threads: u16,
    tables: u16,
}

impl Model for TraceLayout {
    ghost use Rattle.vs_types.specs.Config.{Layout, IsLayoutWithin};
    ghost use Rattle.vs_types.specs.declared.limits.TheConstants.{FRAMES};

    ghost Value = { Layout };

    ghost view = { λ c.
        record { depth = c.depth; replicas = c.replicas; threads = c.threads; tables = c.tables } };

    ghost invariant = { λ c.
        IsLayoutWithin FRAMES FRAMES
        (record {
          depth = c.depth;
          replicas = c.replicas;
          threads = c.threads;
          tables = c.tables;
        }) };

    ghost inverse = { λ l.
        record { depth = l.depth; replicas = l.replicas; threads = l.threads; tables = l.tables } };
}

impl TraceLayout {
    ghost use Rattle.std.specs.Prelude.{MatchOption};
    ghost use Rattle.vs_types.specs.Config.{Layout, IsLayout, IsLayoutWithin};
    ghost use Rattle.nr_trace.specs.Versions.{most_tables, most_threads};

    /// The layout of these numbers. `None` where one of them is out of the ranges of the version.
    pub fn new(
        version: Version,
        depth: Depth,
        replicas: u8,
        threads: u16,
        tables: u16,
    ) -> Option<TraceLayout>
        ensures { let layout : Layout =
            record { depth = depth; replicas = replicas; threads = threads; tables = tables } in
            MatchOption result
            (IsLayoutWithin (most_threads version) (most_tables version) layout → ⊥)
            (λ made. (made ≡ layout)
            × IsLayoutWithin (most_threads version) (most_tables version) layout) }
    {
        if replicas < 1 || replicas > REPLICAS {
            return None;
        }
        if threads < 1 || threads > version.most_threads() {
            return None;
        }
        if tables < 1 || tables > version.most_tables() {
            return None;
        }
        Some(TraceLayout {
            depth,
            replicas,
            threads,
            tables,
        })
    }

    /// The layout of a configuration.
    pub fn of(config: Config) -> TraceLayout
        ensures is { result ≡ config }
        ensures in_range { IsLayout config }
    {
        TraceLayout {
            depth: config.depth(),
            replicas: config.replicas(),
            threads: config.threads(),
            tables: config.tables(),
        }
    }

    /// Whether the version has as many threads and tables.
    pub(crate) fn is_in(self, version: Version) -> bool
        ensures { IsTrue result ↔ IsLayoutWithin (most_threads version) (most_tables version) self }
    {
        self.threads <= version.most_threads() && self.tables <= version.most_tables()
    }

    /// The depth of its page tables: four levels or five.
    pub fn depth(self) -> Depth
        ensures { result ≡ self.depth }
    {
        self.depth
    }

    /// How many replicas there are: 1 to 4.
    pub fn replicas(self) -> u8
        ensures reads { result ≡ self.replicas }
        ensures in_range { IsLayoutWithin FRAMES FRAMES self }
    {
        self.replicas
    }

    /// How many threads there are: 1 to 64; of a segment up to 65,535.
    pub fn threads(self) -> u16
        ensures reads { result ≡ self.threads }
        ensures in_range { IsLayoutWithin FRAMES FRAMES self }
    {
        self.threads
    }

    /// How many tables each replica has at most: 1 to 4,096; of a segment up to 65,535.
    pub fn tables(self) -> u16
        ensures reads { result ≡ self.tables }
        ensures in_range { IsLayoutWithin FRAMES FRAMES self }
    {
        self.tables
    }
}
