//! A script, and how it is read.
ghost use Rattle.std.specs.Prelude.{◌≡◌, ◌≤◌, IfOk, IfErr, length, map};
ghost use Rattle.vs_types.specs.Config.{Layout};
ghost use Rattle.vs_types.specs.Refusal.{IfRefused};
ghost use Rattle.vs_types.specs.Query.{AreScripts};
ghost use Rattle.nr_script.specs.Script.{IsBadLine, IsScript};
ghost use Rattle.nr_script.specs.inside.Reading.{IsAllRead};
ghost use Rattle.nr_script.specs.declared.script.TheConstants.{SCRIPT_BYTES};

use crate::parts::cut;
use crate::reading::Reading;
use nr_core::Step;
use std::alloc::Global;
use vs_types::{Depth, Fail, LOG_PLACES, Request};

/// The most bytes of a script.
pub const SCRIPT_BYTES: usize = 16_777_216;

/// The most requests of a script.
pub const SCRIPT_REQUESTS: usize = LOG_PLACES as usize;

/// The most steps of a script.
pub const SCRIPT_STEPS: usize = 1_000_000;

/// What a script asks of each thread, and the steps that it lists.
#[derive(Debug, Drop)]
pub struct Script {
    /// How many threads there are: 1 to 64.
    pub threads: u16,
    /// What each thread asks, in order: one list for each thread.
    pub requests: Vec<Vec<Request>>,
    /// The steps, in order.
    pub steps: Vec<Step>,
    /// The first line that is a step, counted from 1.
    pub first_step: Option<u32>,
}

/// The number of a line, counted from 1: it has no form, is not well formed, or goes past a limit.
#[derive(Clone, Copy, Debug, PartialEq, Eq)]
pub struct BadLine(pub u32);

/// Reads the lines of a text.
fn read_lines(alloc: Global, depth: Depth, bytes: &[u8]) -> Result<Reading, Fail<BadLine>>
    requires { length bytes.now ≤ SCRIPT_BYTES }
    ensures ok { IfOk result (IsAllRead depth bytes.now) }
    ensures err { IfErr result (IfRefused (λ bad. IsBadLine depth bytes.now bad.0)) }
{
    let mut reading = Reading::new(alloc)?;
    let mut left = Some(bytes);
    let mut number = 0;
    while let Some(text) = left {
        let (line, rest) = cut(text, b'\n');
        number += 1;
        reading.take_line(depth, line, number)?;
        left = rest;
    }
    Ok(reading)
}

/// Reads a script, whose requests are well formed at the depth. Each line ends by LF, and the last LF may be missing; it is a
/// request of a thread, a step, a comment, or empty. It takes time linear in the bytes, and memory for the requests and the
/// steps.
///
/// # Errors
///
/// `BadLine`: the first line that has no form, is not well formed, or is the 65,537th request or the 1,000,001st step.
/// `Memory` where a growth of memory was refused; it may come before.
pub fn read_script(alloc: Global, depth: Depth, bytes: &[u8]) -> Result<Script, Fail<BadLine>>
    requires { length bytes.now ≤ SCRIPT_BYTES }
    ensures ok { IfOk result (IsScript depth bytes.now) }
    ensures threads { IfOk result (λ script. (1 ≤ script.threads) × (script.threads ≤ 64)) }
    ensures scripts { IfOk result (λ script. (layout : Layout) → layout.depth ≡ depth
        → layout.threads ≡ script.threads
        → AreScripts layout (map (λ list. list.items) script.requests.items)) }
    ensures err { IfErr result (IfRefused (λ bad. IsBadLine depth bytes.now bad.0)) }
{
    let reading = read_lines(alloc, depth, bytes)?;
    let mut requests = reading.lists;
    requests.truncate(reading.threads as usize);
    let script = Script {
        threads: reading.threads,
        requests,
        steps: reading.steps,
        first_step: reading.first_step,
    };
    Ok(script)
}
