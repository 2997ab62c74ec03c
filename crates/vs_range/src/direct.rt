//! Plans over frames that lie one after another in memory, as in a direct map.
ghost use Rattle.std.specs.Prelude.{◌≡◌, ◌-◌, ◌<◌, ◌≤◌, ℕ, Some, IfNone, IfSome, MatchResult, length, slice_index_or};
ghost use Rattle.vs_walk.specs.Memory.{Memory};
ghost use Rattle.vs_plan.specs.declared.plans.plan.Step.{Step};
ghost use Rattle.vs_plan.specs.Planner.{AwaitsWords};
ghost use Rattle.vs_plan.specs.Request.{request_fault};
ghost use Rattle.vs_plan.specs.Shown.{IsShown};
ghost use Rattle.vs_range.specs.Direct.{HasSeenIn, IsElsewhere};

use vs_plan::{BadRequest, PlainWords, Planner, Request, Step, Target};
use vs_types::FRAME_WORDS;

/// A planner and its step, after it has seen all frames that it asks for and that lie here: those from the number `first` on. Where all lie here
/// the step is the plan, or `Step::Give`. `Step::See` asks for a frame that lies elsewhere, and the planner goes on by `Planner::see`.
///
/// # Errors
///
/// `BadRequest`, the first that holds.
pub fn plan_in(
    target: Target,
    request: Request,
    frames: &[[u64; FRAME_WORDS]],
    first: u64,
) -> Result<(Planner, Step), BadRequest>
    ensures refused { MatchResult result (λ made. Unit {0})
        (λ e. request_fault target request ≡ Some e) }
    ensures seen { MatchResult result
        (λ made. HasSeenIn target request first frames.now made.0 made.1) (λ e. Unit {0}) }
    ensures elsewhere { MatchResult result
        (λ made. (number : ℕ) → made.1 ≡ Step.See number
        → IsElsewhere first (length frames.now) number) (λ e. Unit {0}) }
{
    let mut planner = Planner::new(target, request)?;
    let step = see_in(&mut planner, frames, first);
    Ok((planner, step))
}

/// Shows a new planner the frames that it asks for, as far as they lie here.
fn see_in(planner: &mut Planner, frames: &[[u64; FRAME_WORDS]], first: u64) -> Step
    requires awaits { AwaitsWords planner.old }
    requires shown { (memory : Memory) → IsShown memory planner.old }
    ensures seen { HasSeenIn planner.old.target planner.old.request first frames.now
        planner.new result }
    ensures elsewhere { (number : ℕ) → result ≡ Step.See number
        → IsElsewhere first (length frames.now) number }
{
    let mut step = Step::See(planner.number);
    while let Step::See(number) = step {
        let Some(words) = frame_at(frames, first, number) else {
            return Step::See(number);
        };
        step = planner.see(&mut PlainWords(words));
    }
    step
}

/// The words of the frame of this number, where it lies here.
fn frame_at<'a>(
    frames: &'a [[u64; FRAME_WORDS]],
    first: u64,
    number: u64,
) -> Option<&'a [u64; FRAME_WORDS]>
    ensures there { IfSome result (λ words. (first ≤ number)
        × (number - first < length frames.now)
        × (words.now ≡ slice_index_or frames.now (number - first) words.now)) }
    ensures none { IfNone result (IsElsewhere first (length frames.now) number) }
{
    if number < first {
        return None;
    }
    frames.get((number - first) as usize)
}
