//! The gate of a run that nobody stops.

use nr_replicas::{Gate, Point, Signal};

/// A gate that always answers `Go`.
#[derive(Clone, Copy, Debug)]
pub struct AlwaysGo;

impl Gate for AlwaysGo {
    ghost use Rattle.std.specs.Prelude.{◌≡◌};

    fn at(&self, _thread: u16, _point: Point) -> Signal
        ensures { result ≡ Signal.Go }
    {
        Signal::Go
    }
}
