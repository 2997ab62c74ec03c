//! The steps, and the time that they take.
ghost use Rattle.std.specs.Prelude.{map};
ghost use Rattle.vs_types.specs.Query.{AreScripts};

use crate::clock::now;
use crate::fault::ProgFault;
use nr_core::{Core, Step};
use nr_trace::{Event, Trace};
use std::alloc::Global;
use std::time::{Clock, Duration};
use vs_types::{Config, Request};

/// What the steps came to.
#[derive(Clone, Copy, Debug)]
pub struct Measured {
    /// How many steps were enabled.
    pub enabled: u64,
    /// How many events are recorded.
    pub events: u64,
    /// How many entries the log has.
    pub entries: u64,
    /// The sum of the places of the updates and of how many entries there were at the reads.
    pub places: u64,
    pub time: Duration,
}

/// Takes the steps from the start, with a script for each thread.
pub fn measure(
    clock: &impl Clock,
    alloc: Global,
    config: Config,
    scripts: Vec<Vec<Request>>,
    steps: &[Step],
) -> Result<Measured, ProgFault>
    requires { AreScripts config (map (λ script. script.items) scripts.items) }
{
    let mut core = Core::new(alloc, config, scripts)?;
    let (enabled, time) = time_steps(clock, &mut core, steps)?;
    let trace = core.trace()?;
    Ok(Measured {
        enabled,
        events: trace.events().len() as u64,
        entries: trace.log().len() as u64,
        places: places(&trace),
        time,
    })
}

/// How many steps were enabled, and the time that all took.
fn time_steps(
    clock: &impl Clock,
    core: &mut Core,
    steps: &[Step],
) -> Result<(u64, Duration), ProgFault> {
    let start = now(clock)?;
    let enabled = take(core, steps)?;
    Ok((enabled, now(clock)?.duration_since(start)))
}

/// Takes the steps in turn. How many were enabled.
fn take(core: &mut Core, steps: &[Step]) -> Result<u64, ProgFault> {
    let mut enabled = 0u64;
    for step in steps {
        if core.step(*step)? {
            enabled = enabled.wrapping_add(1);
        }
    }
    Ok(enabled)
}

/// The sum of what the replies of a trace have for the place of an update, or of a read.
fn places(trace: &Trace) -> u64 {
    let mut sum = 0u64;
    for recorded in trace.events() {
        if let Event::Reply { at, .. } = recorded.event() {
            sum = sum.wrapping_add(u64::from(at));
        }
    }
    sum
}
