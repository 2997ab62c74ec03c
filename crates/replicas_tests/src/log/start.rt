//! A line at which threads wait for one another, so that they go on at the same time.
use crossbeam_utils::Backoff;
use std::sync::Wait;
use std::sync::atomic::{AtomicU64, Ordering};

/// How many threads have come to it since it was made: as soon as four more have come, they go on.
#[derive(Drop)]
pub struct Start {
    come: AtomicU64,
}

impl Start {
    pub fn new() -> Start {
        Start {
            come: AtomicU64::new(0),
        }
    }

    /// Waits until four threads have come.
    pub fn wait<R: Wait>(&self, rt: &R) {
        let round = self.come.fetch_add(1, Ordering::SeqCst) / 4;
        let backoff = Backoff::new();
        for _ in rt.forever() {
            if self.come.load(Ordering::SeqCst) / 4 > round {
                return;
            }
            backoff.snooze();
        }
        unreachable!()
    }

    /// Passes some time, the more the greater the number.
    pub fn linger(&self, number: u32) {
        for _ in 0..number {
            self.come.load(Ordering::SeqCst);
        }
    }
}
