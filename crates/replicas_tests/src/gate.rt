//! A gate that counts, and may say stop.

use nr_replicas::{Gate, Point, Signal};
use std::sync::atomic::{AtomicU32, Ordering};

/// A gate that counts how often it is asked at each point, and says stop to one thread at one point, or to none.
#[derive(Drop)]
pub struct CountingGate {
    stops: Option<(u16, Point)>,
    called: AtomicU32,
    appended: AtomicU32,
    answered: AtomicU32,
}

impl CountingGate {
    pub fn new(stops: Option<(u16, Point)>) -> CountingGate {
        CountingGate {
            stops,
            called: AtomicU32::new(0),
            appended: AtomicU32::new(0),
            answered: AtomicU32::new(0),
        }
    }

    /// How often it was asked when a call was made, when a batch was appended, and when a call had its answer.
    pub fn asked(&self) -> [u32; 3] {
        [
            self.called.load(Ordering::SeqCst),
            self.appended.load(Ordering::SeqCst),
            self.answered.load(Ordering::SeqCst),
        ]
    }
}

impl Gate for CountingGate {
    fn at(&self, thread: u16, point: Point) -> Signal {
        let count = match point {
            Point::Called => &self.called,
            Point::Appended => &self.appended,
            Point::Answered => &self.answered,
        };
        count.fetch_add(1, Ordering::SeqCst);
        if self.stops == Some((thread, point)) {
            Signal::Stop
        } else {
            Signal::Go
        }
    }
}
