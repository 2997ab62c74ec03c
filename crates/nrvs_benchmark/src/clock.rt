//! What the clock says.
ghost use Rattle.std.specs.Duration.{as_nanos};
ghost use Rattle.std.specs.Prelude.{◌≡◌, ◌<◌, ◌*◌, ◌/◌, ◌^◌, IfErr, max};

use crate::fault::ProgFault;
use std::time::{Clock, Duration, Instant};

/// What the clock says.
///
/// # Errors
///
/// `NoClock` where it can't be read.
pub fn now(clock: &impl Clock) -> Result<Instant, ProgFault>
    ensures { IfErr result (λ fault. fault ≡ ProgFault.NoClock) }
{
    Instant::now(clock).map_err(|_| ProgFault::NoClock)
}

/// How many operations fit into a second, rounded down, where this many took this time; of no time at all, as if it were a nanosecond. So
/// it is as long as there are less than 18 billion operations, and the time is less than 584 years; else some number.
pub fn per_second(operations: u64, time: Duration) -> u64
    ensures { as_nanos time < 2 ^ 64 → operations * 1_000_000_000 < 2 ^ 64
        → result ≡ operations * 1_000_000_000 / max (as_nanos time) 1 }
{
    let nanos = time
        .as_secs()
        .saturating_mul(1_000_000_000)
        .saturating_add(u64::from(time.subsec_nanos()));
    operations.saturating_mul(1_000_000_000) / nanos.max(1)
}
