//! What the threads ask for.
ghost use Rattle.std.specs.Prelude.{◌≡◌, All, IsTrue, map};
ghost use Rattle.vs_types.specs.Query.{IsQuery};
ghost use Rattle.vs_types.specs.Query.{AreScripts};

use crate::fault::ProgFault;
use std::alloc::Global;
use vs_types::{Config, Depth, Op, Request, Rights, Size};

/// A script for each thread, of so many requests.
pub fn scripts(alloc: Global, threads: u16, requests: u32) -> Result<Vec<Vec<Request>>, ProgFault> {
    let mut scripts = Vec::new(alloc);
    for thread in 0..threads {
        scripts.push(script(alloc, thread, requests)?)?;
    }
    Ok(scripts)
}

fn script(alloc: Global, thread: u16, requests: u32) -> Result<Vec<Request>, ProgFault> {
    let mut script = Vec::new(alloc);
    for number in 0..requests {
        script.push(request(thread, number)?)?;
    }
    Ok(script)
}

/// The request of a thread with this number: a map, a resolve, an unmap and a resolve of each of its own pages in turn.
fn request(thread: u16, number: u32) -> Result<Request, ProgFault> {
    let page = (u64::from(thread) * 4096 + u64::from(number) / 4 % 4096) * 4096;
    let depth = Depth::Four;
    match number % 4 {
        0 => {
            let map = Op::map(depth, page, Size::K4, page, Rights::ALL)?;
            Ok(Request::update(map))
        }
        2 => Ok(Request::update(Op::unmap(depth, page)?)),
        _ => Ok(Request::resolve(depth, page + 0x123)?),
    }
}

/// Whether there is one script for each thread, with requests that are few enough and well formed.
pub fn are_scripts(config: Config, scripts: &[Vec<Request>]) -> bool
    ensures { IsTrue result → AreScripts config (map (λ script. script.items) scripts.now) }
{
    if scripts.len() != usize::from(config.threads()) {
        return false;
    }
    let mut left: usize = 65_536;
    for script in scripts {
        if script.len() > left || !all_fit(config.depth(), script) {
            return false;
        }
        left -= script.len();
    }
    true
}

/// Whether each request of a script is well formed at the depth.
fn all_fit(depth: Depth, script: &[Request]) -> bool
    ensures { IsTrue result → All (IsQuery depth) script.now }
{
    script.iter().all(|request| request.fits(depth))
}
