//! A range's planner as it is kept, and its runs in numbers.
ghost use Rattle.std.specs.Prelude.{◌≡◌, ◌≢◌, ◌+◌, ◌*◌, ◌<◌, ◌≤◌, ◌^◌, ℕ, List, Option};
ghost use Rattle.std.specs.Int.Bits.{bit_and};
ghost use Rattle.vs_types.specs.Page.{bytes_of};
ghost use Rattle.vs_walk.specs.Memory.{Memory};
ghost use Rattle.vs_plan.specs.declared.plans.plan.TheConstants.{MOST_STORES};
ghost use Rattle.vs_plan.specs.Planner.{frames_given};
ghost use Rattle.vs_range.specs.Planner.{AwaitsNext, HasGivenFor, HasRoom, IsRangeNext, range_sees_left};
ghost use Rattle.vs_range.specs.Run.{word_after};
ghost use Rattle.nrvs_plan_c.specs.Kept.{planner_in, request_in, target_in};
ghost use Rattle.nrvs_plan_c.specs.Range.{IsRangeNextOf, IsRangeStatus, IsRunTold, IsSoundRange, KeepsRange, range_in, range_sees_in};
ghost use Rattle.nrvs_plan_c.specs.inside.Stepped.{IsStatusOf};

use crate::records::codes::ENDED;
use crate::records::kept::{keep, open};
use crate::records::range::Run;
use crate::records::status::{ABSENT, BEYOND, GIVE, HARVEST, PLANNED, RUN, SEE};
use crate::records::told::write;
use vs_range::{Change, Forget, RangePlanner, RangeStep};
use vs_types::{BUT_FLAGS, BUT_RIGHTS, rights_bits};

/// The range's planner that is kept.
#[inline(never)]
pub(crate) fn open_range(run: &Run) -> RangePlanner
    requires { run.now.plan.store_count ≤ MOST_STORES }
    ensures is { result ≡ range_in run.now }
    ensures target { 1 ≤ run.now.plan.way.phase
        → result.planner.target ≡ target_in run.now.plan.call }
{
    RangePlanner {
        planner: open(&run.plan),
        base: run.base,
        bytes: run.bytes,
        alone: run.own == 1,
    }
}

/// Keeps a range's planner, or writes its run or its plan.
#[inline(never)]
pub(crate) fn go_on_range(run: &mut Run, range: &RangePlanner, step: &RangeStep) -> u32
    requires sound { IsSoundRange run.old }
    requires target { range.now.planner.target ≡ target_in run.old.plan.call }
    requires request { range.now.planner.request ≡ request_in run.old.plan.call }
    requires base { range.now.base ≡ run.old.base }
    requires bytes { range.now.bytes ≡ run.old.bytes }
    requires awaits { AwaitsNext range.now step.now }
    requires room { HasRoom step.now }
    ensures asked { result ≢ 17 }
    ensures told { IsStatusOf step.now run.new result }
    ensures again { result ≡ 32 → range_in run.new ≡ range.now }
    ensures status { IsRangeStatus run.new result }
    ensures sound { IsSoundRange run.new }
    ensures kept { KeepsRange run.old run.new }
    ensures fewer { result ≡ 32 → range_sees_in run.new ≡ range_sees_left range.now step.now }
    ensures given { (frames : List ℕ) → result ≡ 33 → HasGivenFor range.now frames step.now
        → frames_given (planner_in run.new.plan) ≡ frames }
    ensures next { (memory : Memory) (offered : List (Option ℕ))
        → IsRangeNext memory range.now offered step.now → IsRangeNextOf memory run.new offered result }
{
    match step {
        RangeStep::See(_) => {
            keep(&mut run.plan, &range.planner);
            run.own = u64::from(range.alone);
            SEE
        }
        RangeStep::Give => {
            keep(&mut run.plan, &range.planner);
            GIVE
        }
        RangeStep::Planned(made) => {
            run.plan.way.phase = ENDED;
            write(&mut run.plan, made);
            PLANNED
        }
        RangeStep::Runs(made) => {
            write_run(run, range.planner.level, made);
            RUN
        }
        RangeStep::Harvests(made) => {
            write_run(run, range.planner.level, made);
            HARVEST
        }
        RangeStep::Absent(bytes) => {
            run.plan.way.phase = ENDED;
            run.covered = *bytes;
            ABSENT
        }
        RangeStep::Beyond(size) => {
            run.plan.way.phase = ENDED;
            run.size = u32::from(size.code());
            BEYOND
        }
    }
}

/// Writes a run, which lies in a table of this level.
fn write_run(run: &mut Run, level: u8, made: &vs_range::Run)
    requires { made.now.index + made.now.count ≤ 512 }
    ensures told { IsRunTold run.new made.now }
    ensures level { run.new.plan.way.level ≡ level }
    ensures ended { run.new.plan.way.phase ≡ ENDED }
    ensures room { run.new.plan.store_count ≡ run.old.plan.store_count }
    ensures kept { KeepsRange run.old run.new }
{
    run.frame = made.frame;
    run.index = made.index;
    run.count = made.count;
    (run.keep, run.first_word, run.step) = numbers_of(made.change);
    run.size = u32::from(made.size.code());
    run.flush = match made.forget {
        Forget::Nothing => 0,
        Forget::Pages(_, _, _) => 1,
    };
    run.covered = made.count as u64 * made.size.bytes();
    run.plan.way.level = level;
    run.plan.way.phase = ENDED;
}

/// How words change, in numbers: what of a word is kept, what is added to the first, and what more to each after it than to the one before.
fn numbers_of(change: Change) -> (u64, u64, u64)
    ensures { (number word : ℕ) → word < 2 ^ 64
        → bit_and word result.0 + result.1 + number * result.2 ≡ word_after change number word }
{
    match change {
        Change::Write(first, step) => (0, first, step),
        Change::Clear => (0, 0, 0),
        Change::Allow(rights) => (BUT_RIGHTS, rights_bits(rights), 0),
        Change::Unflag => (BUT_FLAGS, 0, 0),
    }
}
