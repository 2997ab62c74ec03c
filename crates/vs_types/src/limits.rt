//! How many of each thing there can be. Clauses cite these.

/// The most replicas of a service.
pub const REPLICAS: u8 = 4;

/// The most threads of a service.
pub const THREADS: u16 = 64;

/// The most tables of a space: frames of 4,096 bytes.
pub const TABLES: u16 = 4_096;

/// The most frames of a dump.
pub const FRAMES: u16 = 65_535;

/// The most levels of tables.
pub const MOST_LEVELS: u8 = 5;

/// The places of a log: how many operations one run can do.
pub const LOG_PLACES: u32 = 65_536;

/// The events of a run. A call is numbered by its event, so its number is below it.
pub const CALLS: u32 = 131_072;

/// The places of the ring in which the log's entries are, and so the most updates of a batch.
pub const RING: usize = 16;
