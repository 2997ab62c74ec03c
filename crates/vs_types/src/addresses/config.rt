//! Configurations: the depth, and how many replicas, threads and tables there are.
ghost use Rattle.std.specs.Prelude.{◌≡◌};

use crate::addresses::depth::Depth;
use crate::limits::{REPLICAS, TABLES, THREADS};
use std::error::Error;
use std::fmt;
use std::marker::Model;

/// Why numbers make no configuration.
#[derive(Clone, Copy, Debug, PartialEq, Eq)]
pub enum BadConfig {
    /// The replicas are not 1 to 4.
    Replicas,
    /// The threads are not 1 to 64.
    Threads,
    /// The tables are not 1 to 4,096.
    Tables,
}

impl fmt::Display for BadConfig {
    fn fmt<W: fmt::Write>(&self, f: &mut fmt::Formatter<W>) -> fmt::Result {
        match self {
            BadConfig::Replicas => write!(f, "the replicas are not 1 to 4"),
            BadConfig::Threads => write!(f, "the threads are not 1 to 64"),
            BadConfig::Tables => write!(f, "the tables are not 1 to 4096"),
        }
    }
}

impl Error for BadConfig {}

/// How a service is laid out: its depth, replicas, threads, and tables for each replica.
#[derive(Clone, Copy, Debug, PartialEq, Eq)]
pub struct Config {
    depth: Depth,
    replicas: u8,
    threads: u16,
    tables: u16,
}

impl Model for Config {
    ghost use Rattle.vs_types.specs.Config.{Layout, IsLayout};

    ghost Value = { Layout };

    ghost view = { λ c.
        record { depth = c.depth; replicas = c.replicas; threads = c.threads; tables = c.tables } };

    ghost invariant = { λ c.
        IsLayout
        (record {
          depth = c.depth;
          replicas = c.replicas;
          threads = c.threads;
          tables = c.tables;
        }) };

    ghost inverse = { λ l.
        record { depth = l.depth; replicas = l.replicas; threads = l.threads; tables = l.tables } };
}

impl Config {
    ghost use Rattle.vs_types.specs.Config.{Layout, IsLayout, config_fault};
    ghost use Rattle.vs_types.specs.Faults.{GivesUnless};

    /// A configuration of these numbers.
    ///
    /// # Errors
    ///
    /// `BadConfig` with the first number that is out of its range.
    pub fn new(depth: Depth, replicas: u8, threads: u16, tables: u16) -> Result<Config, BadConfig>
        ensures { let layout : Layout =
            record { depth = depth; replicas = replicas; threads = threads; tables = tables } in
            GivesUnless (config_fault layout) layout result }
    {
        if replicas < 1 || replicas > REPLICAS {
            return Err(BadConfig::Replicas);
        }
        if threads < 1 || threads > THREADS {
            return Err(BadConfig::Threads);
        }
        if tables < 1 || tables > TABLES {
            return Err(BadConfig::Tables);
        }
        Ok(Config {
            depth,
            replicas,
            threads,
            tables,
        })
    }

    /// How many levels each page table has: four or five.
    pub fn depth(self) -> Depth
        ensures { result ≡ self.depth }
    {
        self.depth
    }

    /// 1 to 4.
    pub fn replicas(self) -> u8
        ensures reads { result ≡ self.replicas }
        ensures in_range { IsLayout self }
    {
        self.replicas
    }

    /// 1 to 64.
    pub fn threads(self) -> u16
        ensures reads { result ≡ self.threads }
        ensures in_range { IsLayout self }
    {
        self.threads
    }

    /// 1 to 4,096, for each replica.
    pub fn tables(self) -> u16
        ensures reads { result ≡ self.tables }
        ensures in_range { IsLayout self }
    {
        self.tables
    }
}
