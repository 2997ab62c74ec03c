//! How a thread waits for a lock that another thread has.
use crossbeam_utils::Backoff;
use std::sync::{Mutex, MutexGuard, Wait};
use std::thread::Parker;
use std::time::Duration;

/// How often a call sleeps for a moment before it waits until it is woken.
const NAPS: u32 = 32;

/// How long a call has waited for locks: it spins at first, then yields the processor, then sleeps for a moment each time, and at
/// last waits until it is woken. A thread that sleeps leaves the lock and what lies under it to the cache of the one that has it.
#[derive(Drop)]
pub(crate) struct Patience {
    backoff: Backoff,
    naps: u32,
}

impl Patience {
    pub(crate) fn new() -> Patience {
        Patience {
            backoff: Backoff::new(),
            naps: 0,
        }
    }

    /// A lock, where it is free; else the thread waits for a moment. Once it has waited for long enough it waits until it has the lock.
    pub(crate) fn attempt<'a, T, R: Wait>(
        &mut self,
        rt: &R,
        lock: &'a Mutex<T>,
    ) -> Option<MutexGuard<'a, T>> {
        if self.naps == NAPS {
            return Some(lock.lock(rt));
        }
        let guard = lock.try_lock();
        if guard.is_none() {
            self.pause(rt);
        }
        guard
    }

    /// A lock, once it is free.
    pub(crate) fn hold<'a, T, R: Wait>(&mut self, rt: &R, lock: &'a Mutex<T>) -> MutexGuard<'a, T> {
        for _ in 0..NAPS {
            if let Some(guard) = self.attempt(rt, lock) {
                return guard;
            }
        }
        lock.lock(rt)
    }

    /// Waits for a moment.
    fn pause<R: Wait>(&mut self, rt: &R) {
        if !self.backoff.is_completed() {
            self.backoff.snooze();
        } else if self.naps < NAPS {
            self.naps += 1;
            Parker::new().park_timeout(rt, Duration::from_micros(1));
        }
    }
}
