//! A plan in numbers.
ghost use Rattle.std.specs.Prelude.{◌≡◌, ◌≤◌};
ghost use Rattle.vs_plan.specs.declared.plans.plan.TheConstants.{MOST_STORES, MOST_UNLINKED};
ghost use Rattle.nrvs_plan_c.specs.Told.{IsFillTold, IsTold, answer_numbers, bits_again, bits_told, flush_numbers, is_linking, reply_numbers};

use crate::records::codes::DONE;
use crate::records::kept::Plan;
use vs_plan::{Fill, Flush, Reply as Outcome, Store};
use vs_types::{Answer, flags_into};

/// What came out in numbers: its code, and what it has; what it doesn't have is 0.
#[repr(C)]
#[derive(Clone, Copy, Debug, PartialEq, Eq)]
pub struct Reply {
    /// 0 to 9 as an answer. 10 no frame, 11 a frame out of range, 12 too few rights, 13 an empty table, 14 a reserved bit. 15 a physical
    /// address that isn't aligned, 16 one out of range, 17 the smallest page, 18 the largest, 19 no first page, 20 an entry apart, 21 a table that
    /// stays.
    pub code: u8,
    /// The code of a page's size.
    pub size: u8,
    /// The code of a page's rights.
    pub rights: u8,
    /// An address in bytes, the number of a frame, or an index.
    pub number: u64,
}

impl Reply {
    /// The numbers of what came out.
    fn of(outcome: Outcome) -> Reply
        ensures { result ≡ reply_numbers outcome }
    {
        match outcome {
            Outcome::Answer(answer) => Reply::of_answer(answer),
            Outcome::NoFrame => Reply::with(10, 0),
            Outcome::FrameRange(number) => Reply::with(11, number),
            Outcome::Rights => Reply::with(12, 0),
            Outcome::Empty(number, _) => Reply::with(13, number),
            Outcome::Reserved(number, _) => Reply::with(14, number),
            Outcome::PhysUnaligned => Reply::with(15, 0),
            Outcome::PhysRange => Reply::with(16, 0),
            Outcome::Smallest => Reply::with(17, 0),
            Outcome::Largest => Reply::with(18, 0),
            Outcome::Unaligned => Reply::with(19, 0),
            Outcome::Apart(index) => Reply::with(20, index as u64),
            Outcome::Pinned => Reply::with(21, 0),
        }
    }

    /// The numbers of an answer.
    fn of_answer(answer: Answer) -> Reply
        ensures { result ≡ answer_numbers answer }
    {
        match answer {
            Answer::Done | Answer::NotMapped => Reply::with(answer.code(), 0),
            Answer::Overlap(base) | Answer::Inside(base) => Reply::with(answer.code(), base),
            Answer::Full(number) | Answer::Allowed(number) | Answer::Fault(number) => {
                Reply::with(answer.code(), number)
            }
            Answer::Changed(rights) => Reply {
                rights: rights.code(),
                ..Reply::with(answer.code(), 0)
            },
            Answer::Removed(phys, size, rights) | Answer::Mapped(phys, size, rights) => Reply {
                code: answer.code(),
                size: size.code(),
                rights: rights.code(),
                number: phys,
            },
        }
    }

    pub(crate) fn with(code: u8, number: u64) -> Reply
        ensures { result ≡ record { code = code; size = 0; rights = 0; number = number } }
    {
        Reply {
            code,
            size: 0,
            rights: 0,
            number,
        }
    }
}

/// The bits of the page's entry; or an address on whose way the empty table is; or the index of the word with a reserved bit.
fn bits_told(outcome: Outcome, bits: u64) -> u64
    ensures { result ≡ bits_told outcome bits }
{
    match outcome {
        Outcome::Empty(_, address) => address,
        Outcome::Reserved(_, index) => index as u64,
        _ => bits,
    }
}

/// The numbers of a flush: its code, the page's base and the code of its size.
fn flush_numbers(flush: Flush) -> (u32, u64, u32)
    ensures { result ≡ flush_numbers flush }
{
    match flush {
        Flush::Nothing => (0, 0, 0),
        Flush::Page(base, size) => (1, base, u32::from(size.code())),
        Flush::PageAndTables(base, size) => (2, base, u32::from(size.code())),
        Flush::Range(base, size) => (3, base, u32::from(size.code())),
    }
}

/// Writes whether a frame is filled, and where it is, how.
fn write_fill(plan: &mut Plan, fill: Option<Fill>)
    ensures says { IsFillTold plan.new.fills plan.new.fill fill }
    ensures rest { plan.new ≡ record plan.old { fills = plan.new.fills; fill = plan.new.fill } }
{
    match fill {
        Some(fill) => {
            plan.fills = 1;
            plan.fill = fill;
        }
        None => plan.fills = 0,
    }
}

/// Writes what a plan says.
pub(crate) fn write(plan: &mut Plan, made: &vs_plan::Plan)
    ensures says { IsTold plan.new made.now }
    ensures call { plan.new.call ≡ plan.old.call }
    ensures way { plan.new.way ≡ plan.old.way }
    ensures room { plan.new.store_count ≤ MOST_STORES }
    ensures named { plan.new.unlinked_count ≤ MOST_UNLINKED }
{
    plan.reply = Reply::of(made.reply);
    plan.bits = bits_told(made.reply, made.bits);
    write_fill(plan, made.fill);
    plan.store_count = made.stores.len();
    plan.stores[..made.stores.len()].copy_from_slice(made.stores.as_slice());
    (plan.flush, plan.flush_base, plan.flush_size) = flush_numbers(made.flush);
    plan.unlinked_count = made.unlinked.len();
    plan.unlinked[..made.unlinked.len()].copy_from_slice(made.unlinked.as_slice());
}

/// Whether a store writes a link to the table that is filled, or in the place of the link to a table that is unlinked.
pub(crate) fn is_linking(plan: &Plan) -> bool
    ensures { result ≡ is_linking plan.now }
{
    plan.fills != 0 || plan.unlinked_count != 0
}

/// The bits that are said of a page's entry, once the store at an index found it with other flags.
pub(crate) fn bits_again(plan: &Plan, index: usize, store: Store, found: u64) -> u64
    ensures { result ≡ bits_again plan.now index store found }
{
    if plan.reply.code == DONE || index != 0 || (plan.unlinked_count != 0 && store.new != 0) {
        return plan.bits;
    }
    flags_into(found, plan.bits)
}
