//! How a simulation or a run is laid out.

ghost use Rattle.std.specs.Prelude.{◌≤◌};

use vs_types::Depth;

/// How a run is laid out, but for its threads, which its script says.
#[derive(Clone, Copy, Debug)]
pub struct Setup {
    /// The depth of each page table.
    pub depth: Depth,
    /// 1 to 4.
    pub replicas: u8,
    /// 1 to 4,096, for each replica.
    pub tables: u16,
    pub ghost in_range: { (1 ≤ replicas) × (replicas ≤ 4) × (1 ≤ tables) × (tables ≤ 4096) },
}
