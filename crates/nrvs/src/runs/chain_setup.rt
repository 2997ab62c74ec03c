//! How a run in segments goes.

ghost use Rattle.std.specs.Prelude.{◌≤◌};

/// How a run in segments goes, and what is written of it.
#[derive(Clone, Copy, Debug)]
pub struct ChainSetup {
    /// The most turns of a call.
    pub turns: u32,
    /// The most requests of a segment: 1 to 65,536.
    pub most: u32,
    /// Whether the bytes of the chain are written in place of the answers.
    pub as_trace: bool,
    pub ghost in_range: { (1 ≤ most) × (most ≤ 65536) },
}
