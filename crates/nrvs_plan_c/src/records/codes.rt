//! What the numbers mean that are kept.
ghost use Rattle.std.specs.Prelude.{◌≡◌, ◌≤◌};
ghost use Rattle.nrvs_plan_c.specs.Kept.{depth_in, size_in, rights_in, phase_in, takes_frame};

use vs_plan::Phase;
use vs_types::{Depth, Rights, Size};

/// The code of the phase on the first way down of an unmap that may unlink its page's table: it looks at no table above that one. Where that
/// is left empty, a second way does.
pub(crate) const BRIEF: u8 = 0;

/// The code of the phase on the way down.
pub(crate) const DESCENT: u8 = 1;

/// The greatest code of a phase in which words are waited for.
pub(crate) const SEARCH: u8 = 2;

/// The code of the phase in which the plan is there.
pub(crate) const ENDED: u8 = 5;

/// The code of the answer that something is done, which names no page.
pub(crate) const DONE: u8 = 0;

/// Whether a frame is waited for in the phase of a code.
pub(crate) fn takes_frame(code: u8) -> bool
    ensures { result ≡ takes_frame code }
{
    code == 3 || code == 4
}

/// The depth with so many levels.
pub(crate) fn depth_in(levels: u8) -> Depth
    ensures { result ≡ depth_in levels }
{
    if levels == 5 {
        Depth::Five
    } else {
        Depth::Four
    }
}

/// The size of a code below 3.
pub(crate) fn size_in(code: u8) -> Size
    ensures { result ≡ size_in code }
{
    match code {
        0 => Size::K4,
        1 => Size::M2,
        _ => Size::G1,
    }
}

/// The rights of a code below 8.
pub(crate) fn rights_in(code: u8) -> Rights
    ensures { result ≡ rights_in code }
{
    Rights {
        write: code % 2 == 1,
        user: code / 2 % 2 == 1,
        exec: code / 4 % 2 == 1,
    }
}

/// How far a planner is by a code below 6.
pub(crate) fn phase_in(code: u8) -> Phase
    ensures { result ≡ phase_in code }
{
    match code {
        0 | 1 => Phase::Descent,
        2 => Phase::Search,
        3 => Phase::Growth,
        4 => Phase::Division,
        _ => Phase::Ended,
    }
}

/// The code of how far a planner is.
pub(crate) fn code_of(phase: Phase) -> u8
    ensures is { phase_in result ≡ phase }
    ensures some { 1 ≤ result }
{
    match phase {
        Phase::Descent => 1,
        Phase::Search => 2,
        Phase::Growth => 3,
        Phase::Division => 4,
        Phase::Ended => 5,
    }
}
