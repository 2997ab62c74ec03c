//! Runs by their numbers.
ghost use Rattle.std.specs.Prelude.{◌≡◌, ◌%◌, ◌<◌, ◌^◌};
ghost use Rattle.vs_types.specs.Page.{bytes_of};
ghost use Rattle.vs_types.specs.Bits.{AreBits};
ghost use Rattle.vs_range.specs.Planner.{map_run, protect_run, unmap_run, harvest_run};

use crate::run::{Change, Forget, Run};
use vs_types::{Page, Rights, Size, page_word};

/// The run that maps so many pages.
pub(crate) fn run_of_map(page: Page, bits: u64, count: usize, frame: u64, index: usize) -> Run
    requires bits { AreBits bits }
    requires aligned { page.phys % bytes_of page.size ≡ 0 }
    requires in_range { page.phys < 2 ^ 52 }
    ensures { result ≡ map_run page bits count frame index }
{
    Run {
        size: page.size,
        count,
        frame,
        index,
        change: Change::Write(page_word(page, bits), page.size.bytes()),
        forget: Forget::Nothing,
    }
}

/// The run that gives so many pages these rights.
pub(crate) fn run_of_protect(
    size: Size,
    base: u64,
    rights: Rights,
    count: usize,
    frame: u64,
    index: usize,
) -> Run
    ensures { result ≡ protect_run size base rights count frame index }
{
    let forget = Forget::Pages(base, size, count);
    Run {
        size,
        count,
        frame,
        index,
        change: Change::Allow(rights),
        forget,
    }
}

/// The run that removes so many pages.
pub(crate) fn run_of_unmap(size: Size, base: u64, count: usize, frame: u64, index: usize) -> Run
    ensures { result ≡ unmap_run size base count frame index }
{
    Run {
        size,
        count,
        frame,
        index,
        change: Change::Clear,
        forget: Forget::Pages(base, size, count),
    }
}

/// The run that takes the flags from so many pages.
pub(crate) fn run_of_harvest(size: Size, base: u64, count: usize, frame: u64, index: usize) -> Run
    ensures { result ≡ harvest_run size base count frame index }
{
    let forget = Forget::Pages(base, size, count);
    let change = Change::Unflag;
    Run {
        size,
        count,
        frame,
        index,
        change,
        forget,
    }
}
