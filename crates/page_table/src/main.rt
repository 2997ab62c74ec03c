//! An example: a page table of four levels in memory of its own, as README shows it.
#![tactic(auto)]

use anyhow::Result;
use vs_arena::RawArena;
use vs_space::Space;
use vs_types::{Depth, Op, Rights, Size};

fn main(rt: HostRuntime) -> Result<()> {
    let mut space = Space::new(RawArena::new(rt.alloc(), 1 << 39, 4096)?, Depth::Four)?;
    let page = Op::map(Depth::Four, 0x400000, Size::K4, 0x1000, Rights::ALL)?;
    println!(rt; "{:?}", space.apply(page))?;
    println!(rt; "{:?}", space.resolve(0x400123))?;
    Ok(())
}
