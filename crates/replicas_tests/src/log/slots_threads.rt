//! Threads that post, and one that answers, at the same time.
ghost use Rattle.std.specs.Prelude.{◌≡◌};
ghost use Rattle.replicas_tests.specs.declared.log.slots_threads.TheConstants.{POSTERS};

use arrayvec::ArrayVec;
use crossbeam_utils::Backoff;
use nr_slots::{Answered, Slots, Waiting};
use std::process::Abort;
use std::sync::Wait;
use std::thread;
use vs_types::{Answer, CALLS, Depth, Op};

/// How many threads post: more than a batch has room for.
const POSTERS: u16 = 20;

/// How many updates each of them posts.
const ROUNDS: u32 = 200;

/// A slot for each thread that posts.
#[derive(Drop)]
struct Shared {
    slots: Slots,
    ghost each: { slots ≡ POSTERS },
}

/// What a thread posts in a round, and what it is answered: it unmaps a page of its own, which is not mapped.
fn update_of(rt: &impl Abort, thread: u16, round: u32) -> Answered {
    let base = 0x1000 * (u64::from(thread) + 1);
    let op = Op::unmap(Depth::Four, base).expect(rt, "an unmap");
    assert!(rt; round < CALLS);
    Answered::new(
        Waiting::new(thread, round, op),
        u64::from(65_535u32.saturating_sub(round)),
        Answer::Full(u64::from(round) + 1),
    )
}

impl Shared {
    /// Posts into its slot, which is empty.
    fn post<R: Wait + Abort>(&self, rt: &R, update: Answered) {
        let (thread, call) = (update.thread(), update.call());
        assert!(rt; thread < POSTERS && call < CALLS);
        let posted = self.slots.post(thread, call, update.op());
        assert_eq!(rt; posted, Ok(()));
    }

    /// Waits for the answer.
    fn wait<R: Wait + Abort>(&self, rt: &R, thread: u16) -> Answered {
        assert!(rt; thread < POSTERS);
        let backoff = Backoff::new();
        for _ in rt.forever() {
            if let Some(answered) = self.slots.poll(thread) {
                return answered;
            }
            backoff.snooze();
        }
        unreachable!()
    }

    /// Posts in each round, and is answered that update before the next.
    fn post_all<R: Wait + Abort>(&self, rt: &R, thread: u16) {
        for round in 0..ROUNDS {
            let update = update_of(rt, thread, round);
            self.post(rt, update);
            assert_eq!(rt; self.wait(rt, thread), update);
        }
    }

    /// Answers the update of a round, which was collected, and can't do so again.
    fn answer<R: Wait + Abort>(&self, rt: &R, thread: u16, round: u32) {
        let answered = self.slots.answer(update_of(rt, thread, round));
        let again = self.slots.answer(update_of(rt, thread, round));
        assert!(rt; answered.is_ok() && again.is_err());
    }

    /// Collects what was posted, and answers it: of each thread the update of the round that comes next.
    fn answer_some<R: Wait + Abort>(&self, rt: &R, rounds: &mut [u32; 20]) {
        let mut batch = ArrayVec::new();
        self.slots.collect(&mut batch);
        for waiting in batch.as_slice() {
            let thread = waiting.thread();
            assert!(rt; thread < POSTERS);
            let place = usize::from(thread);
            let round = rounds[place];
            let update = update_of(rt, thread, round);
            assert_eq!(rt; waiting.entry(), update.entry());
            self.answer(rt, thread, round);
            rounds[place] = round.saturating_add(1);
        }
    }

    /// Collects, without a rest, until it has answered all.
    fn answer_all<R: Wait + Abort>(&self, rt: &R) {
        let mut rounds = [0; 20];
        for _ in rt.forever() {
            self.answer_some(rt, &mut rounds);
            if rounds == [ROUNDS; 20] {
                return;
            }
        }
        unreachable!()
    }
}

/// No update is lost, answered twice or refused: a slot that is empty takes one, whatever the thread that collects does.
#[test]
fn many_threads_post(rt: HostRuntime) {
    let shared = Shared {
        slots: Slots::new(rt.alloc(), POSTERS).expect(&rt, "memory"),
    };
    let threads = vec![in rt.alloc();
        0u16, 1, 2, 3, 4, 5, 6, 7, 8, 9, 10, 11, 12, 13, 14, 15, 16, 17, 18, 19, POSTERS,
    ]
    .expect(&rt, "memory");
    let ended = thread::map_vec(
        &rt,
        threads,
        &|thread: u16| {
            if thread < POSTERS {
                shared.post_all(&rt, thread);
            } else {
                shared.answer_all(&rt);
            }
        },
    );
    let _all = ended.expect(&rt, "memory");
}
