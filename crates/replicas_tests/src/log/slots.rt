//! Each call on slots in each state of a slot.
ghost use Rattle.std.specs.Prelude.{◌≡◌};

use arrayvec::ArrayVec;
use nr_slots::{Answered, NotTaken, Slots, Waiting};
use std::alloc::Global;
use std::process::Abort;
use vs_types::{Answer, CALLS, Depth, Op, Rights, Size};

/// What a thread does with its slot, and what that answers.
#[derive(Clone, Copy)]
enum Does {
    /// It posts its update.
    Posts,
    /// Its update is refused.
    PostsAgain,
    /// Another update is refused.
    PostsInVain,
    /// Its update is answered.
    Answers,
    /// This is refused.
    AnswersAgain,
    /// Another answer to its call is refused.
    AnswersInVain,
    /// It polls its answer.
    Polls,
    /// It has none, and an answer to another call or of no thread is refused.
    HasNoAnswer,
}

/// A step on slots.
#[derive(Clone, Copy)]
enum Step {
    /// Each of so many threads, by rising number from this one on, does these in turn.
    Each(u16, u16, &'static [Does]),
    /// The 64 threads post, by falling number.
    AllPost,
    /// A collect takes the updates of so many threads, from this one on.
    Collects(u16, u16),
}

/// No clause says what the calls do to a slot. Each call is tried on each of 64 slots in each of its states. What is
/// refused is another update or answer than the slot has, and changes nothing.
static EACH_STATE: [Step; 21] = [
    Step::Each(0, 64, &[Does::HasNoAnswer, Does::AnswersInVain]),
    Step::Collects(0, 0),
    Step::AllPost,
    Step::Each(
        0,
        64,
        &[Does::PostsInVain, Does::AnswersInVain, Does::HasNoAnswer],
    ),
    Step::Collects(0, 16),
    Step::Each(0, 16, &[Does::PostsInVain, Does::HasNoAnswer]),
    Step::Each(
        0,
        16,
        &[Does::Answers, Does::AnswersInVain, Does::PostsInVain],
    ),
    Step::Collects(16, 16),
    Step::Each(16, 16, &[Does::PostsInVain, Does::HasNoAnswer]),
    Step::Each(
        16,
        16,
        &[Does::Answers, Does::AnswersInVain, Does::PostsInVain],
    ),
    Step::Collects(32, 16),
    Step::Each(32, 16, &[Does::PostsInVain, Does::HasNoAnswer]),
    Step::Each(
        32,
        16,
        &[Does::Answers, Does::AnswersInVain, Does::PostsInVain],
    ),
    Step::Collects(48, 16),
    Step::Each(48, 16, &[Does::PostsInVain, Does::HasNoAnswer]),
    Step::Each(
        48,
        16,
        &[Does::Answers, Does::AnswersInVain, Does::PostsInVain],
    ),
    Step::Collects(0, 0),
    Step::Each(
        0,
        64,
        &[Does::Polls, Does::AnswersInVain, Does::HasNoAnswer],
    ),
    Step::Collects(0, 0),
    Step::Each(40, 1, &[Does::Posts]),
    Step::Collects(40, 1),
];

static ROUND_TRIP: [Step; 3] = [
    Step::Each(1, 1, &[Does::Posts, Does::PostsAgain]),
    Step::Collects(1, 1),
    Step::Each(
        1,
        1,
        &[
            Does::Answers,
            Does::AnswersAgain,
            Does::Polls,
            Does::HasNoAnswer,
            Does::Posts,
        ],
    ),
];

/// On the last of the most slots that there can be.
static LAST_THREAD: [Step; 3] = [
    Step::Each(65_534, 1, &[Does::Posts]),
    Step::Collects(65_534, 1),
    Step::Each(65_534, 1, &[Does::Answers, Does::Polls]),
];

static NO_THREAD: [Step; 2] = [
    Step::Collects(0, 0),
    Step::Each(0, 1, &[Does::AnswersAgain]),
];

/// What a thread posts and is answered. Each of the threads 0 to 63 has a call, an operation, a place and an answer of its own;
/// thread 0 has call 0 and the last place, thread 63 place 0.
fn of_thread(rt: &impl Abort, thread: u16) -> Answered {
    let number = thread.min(63);
    let base = 0x200000 * (u64::from(number) + 1);
    let rights = Rights {
        write: number < 32,
        ..Rights::ALL
    };
    let answers = [
        Answer::Overlap(base),
        Answer::Done,
        Answer::Full(u64::from(number) + 4),
        Answer::Removed(base, Size::M2, rights),
        Answer::NotMapped,
        Answer::Inside(base),
        Answer::Changed(rights),
    ];
    let ops = [
        Op::map(Depth::Four, base, Size::M2, 2 * base, rights),
        Op::unmap(Depth::Four, base),
        Op::protect(Depth::Four, base, rights),
    ];
    let op = ops[usize::from(number % 3)].expect(rt, "a well-formed operation");
    Answered::new(
        Waiting::new(thread, 2047 * u32::from(number), op),
        65_535 * (63 - u64::from(number)) / 63,
        answers[usize::from(number % 7)],
    )
}

/// The same as another thread's, but for the thread and the call.
fn like(rt: &impl Abort, thread: u16, call: u32, other: Answered) -> Answered {
    assert!(rt; call < CALLS);
    Answered::new(
        Waiting::new(thread, call, other.op()),
        other.place(),
        other.answer(),
    )
}

/// Whether an update is posted: those of each second thread as they wait.
fn posts(rt: &impl Abort, slots: &Slots, count: u16, update: Answered) -> bool
    requires { slots.now ≡ count }
{
    let (thread, call) = (update.thread(), update.call());
    assert!(rt; thread < count && call < CALLS);
    let posted = if thread % 2 == 0 {
        slots.post(thread, call, update.op())
    } else {
        slots.post_waiting(Waiting::new(thread, call, update.op()))
    };
    posted.is_ok()
}

/// What a thread polls.
fn poll(rt: &impl Abort, slots: &Slots, count: u16, thread: u16) -> Option<Answered>
    requires { slots.now ≡ count }
{
    assert!(rt; thread < count);
    slots.poll(thread)
}

/// Whether an answer is refused.
fn is_not_taken(slots: &Slots, answered: Answered) -> bool {
    slots.answer(answered) == Err(NotTaken)
}

/// What a thread does with its slot of so many: whether that answers so.
fn take(rt: &impl Abort, slots: &Slots, count: u16, thread: u16, does: Does) -> bool
    requires { slots.now ≡ count }
{
    let own = of_thread(rt, thread);
    let next = of_thread(rt, thread.wrapping_add(1) % 64);
    match does {
        Does::Posts => posts(rt, slots, count, own),
        Does::PostsAgain => !posts(rt, slots, count, own),
        Does::PostsInVain => !posts(rt, slots, count, like(rt, thread, next.call(), next)),
        Does::Answers => slots.answer(own).is_ok(),
        Does::AnswersAgain => is_not_taken(slots, own),
        Does::AnswersInVain => is_not_taken(slots, like(rt, thread, own.call(), next)),
        Does::Polls => poll(rt, slots, count, thread) == Some(own),
        Does::HasNoAnswer => {
            let call = own.call();
            let other_call = like(rt, thread, call.wrapping_add(1), own);
            let no_thread = like(rt, thread.wrapping_add(64), call, own);
            is_not_taken(slots, other_call)
                && is_not_taken(slots, no_thread)
                && poll(rt, slots, count, thread).is_none()
        }
    }
}

/// Whether the updates of so many threads are collected, from the first one on.
fn collects(rt: &impl Abort, slots: &Slots, first: u16, count: u16) -> bool {
    let mut batch = ArrayVec::new();
    slots.collect(&mut batch);
    let mut thread = first;
    for waiting in batch.as_slice() {
        if (waiting.thread(), waiting.entry()) != (thread, of_thread(rt, thread).entry()) {
            return false;
        }
        thread = thread.wrapping_add(1);
    }
    thread.wrapping_sub(first) == count
}

/// Takes a step.
fn make_step(rt: &impl Abort, slots: &Slots, count: u16, step: Step)
    requires { slots.now ≡ count }
{
    match step {
        Step::Each(first, count_of, all) => {
            for number in 0..count_of {
                let thread = first.wrapping_add(number);
                for does in all {
                    assert!(rt; take(rt, slots, count, thread, *does), "thread {thread}");
                }
            }
        }
        Step::AllPost => {
            for number in 0..64 {
                assert!(rt; take(rt, slots, count, 63 - number, Does::Posts));
            }
        }
        Step::Collects(first, many) => assert!(rt; collects(rt, slots, first, many)),
    }
}

/// Takes steps on so many new slots.
fn run(rt: &impl Abort, alloc: Global, count: u16, steps: &[Step]) {
    let slots: Slots = Slots::new(alloc, count).expect(rt, "memory");
    for next in steps {
        make_step(rt, &slots, count, *next);
    }
}

#[test]
fn slots_in_each_state(rt: HostRuntime) {
    run(&rt, rt.alloc(), 64, &EACH_STATE);
}

#[test]
fn slot_round_trip(rt: HostRuntime) {
    run(&rt, rt.alloc(), 2, &ROUND_TRIP);
}

#[test]
fn slots_of_all_threads(rt: HostRuntime) {
    run(&rt, rt.alloc(), 65_535, &LAST_THREAD);
}

#[test]
fn slots_of_no_thread(rt: HostRuntime) {
    run(&rt, rt.alloc(), 0, &NO_THREAD);
}
