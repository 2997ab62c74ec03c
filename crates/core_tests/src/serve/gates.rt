//! Gates that stop a thread, hold it, or count.
use nr_replicas::{Gate, Point, Signal};
use std::alloc::Global;
use std::process::Abort;
use std::sync::atomic::{AtomicU32, Ordering};
use std::thread;
use vs_types::Memory;

/// Says stop to one thread at one point.
#[derive(Clone, Copy, Drop)]
pub struct StopAt(pub u16, pub Point);

impl Gate for StopAt {
    fn at(&self, thread: u16, point: Point) -> Signal {
        if thread == self.0 && point == self.1 {
            Signal::Stop
        } else {
            Signal::Go
        }
    }
}

/// Holds a thread until the number has come so far; after 10,000,000 turns of its own it says stop.
fn hold(come: &AtomicU32, least: u32) -> Signal {
    for _ in 0..10_000_000u32 {
        if come.load(Ordering::SeqCst) >= least {
            return Signal::Go;
        }
        thread::yield_now();
    }
    Signal::Stop
}

/// Holds one thread when it has made a call, until the other comes to a point; and stops the other there, or lets it go on.
#[derive(Drop)]
pub struct HoldUntil {
    held: u16,
    until: Point,
    stops: bool,
    come: AtomicU32,
}

impl HoldUntil {
    pub fn new(held: u16, until: Point, stops: bool) -> HoldUntil {
        HoldUntil {
            held,
            until,
            stops,
            come: AtomicU32::new(0),
        }
    }
}

impl Gate for HoldUntil {
    fn at(&self, thread: u16, point: Point) -> Signal {
        if thread == self.held {
            return if point == Point::Called {
                hold(&self.come, 1)
            } else {
                Signal::Go
            };
        }
        if point != self.until {
            return Signal::Go;
        }
        self.come.store(1, Ordering::SeqCst);
        if self.stops { Signal::Stop } else { Signal::Go }
    }
}

/// Two threads in turn, of which thread 0 makes one call and thread 1 three: each waits at its points for what the other has come to.
#[derive(Drop)]
pub struct InTurn {
    /// How many of these points were come to: the call of thread 0, the second call of thread 1, the answer of thread 0, and the third
    /// call of thread 1.
    come: AtomicU32,
    /// How many calls thread 1 has made.
    calls: AtomicU32,
}

impl InTurn {
    pub fn new() -> InTurn {
        InTurn {
            come: AtomicU32::new(0),
            calls: AtomicU32::new(0),
        }
    }

    fn come(&self, points: u32, least: u32) -> Signal {
        self.come.store(points, Ordering::SeqCst);
        hold(&self.come, least)
    }
}

impl Gate for InTurn {
    fn at(&self, thread: u16, point: Point) -> Signal {
        match (thread, point) {
            (0, Point::Called) => self.come(1, 2),
            (0, Point::Answered) => self.come(3, 4),
            (1, Point::Called) => match self.calls.fetch_add(1, Ordering::SeqCst) {
                0 => hold(&self.come, 1),
                1 => self.come(2, 3),
                _ => self.come(4, 4),
            },
            _ => Signal::Go,
        }
    }
}

/// Holds each thread when it has made its call, until so many threads have.
#[derive(Drop)]
pub struct AllAtOnce {
    threads: u32,
    come: AtomicU32,
}

impl AllAtOnce {
    pub fn new(threads: u32) -> AllAtOnce {
        AllAtOnce {
            threads,
            come: AtomicU32::new(0),
        }
    }
}

impl Gate for AllAtOnce {
    fn at(&self, _thread: u16, point: Point) -> Signal {
        if point != Point::Called {
            return Signal::Go;
        }
        self.come.fetch_add(1, Ordering::SeqCst);
        hold(&self.come, self.threads)
    }
}

/// Holds one thread at a point, until another has come to a point of its own; that one goes on from its call when the first is held.
#[derive(Drop)]
pub struct Around {
    held: (u16, Point),
    until: (u16, Point),
    is_held: AtomicU32,
    has_come: AtomicU32,
}

impl Around {
    pub fn new(held: (u16, Point), until: (u16, Point)) -> Around {
        Around {
            held,
            until,
            is_held: AtomicU32::new(0),
            has_come: AtomicU32::new(0),
        }
    }
}

impl Gate for Around {
    fn at(&self, thread: u16, point: Point) -> Signal {
        if (thread, point) == self.held {
            self.is_held.store(1, Ordering::SeqCst);
            return hold(&self.has_come, 1);
        }
        if (thread, point) == self.until {
            self.has_come.store(1, Ordering::SeqCst);
        }
        if thread == self.until.0 && point == Point::Called {
            hold(&self.is_held, 1)
        } else {
            Signal::Go
        }
    }
}

/// How often a thread was asked at each point.
#[derive(Drop)]
struct Asked {
    called: AtomicU32,
    appended: AtomicU32,
    answered: AtomicU32,
}

/// Counts how often each thread is asked at each point.
#[derive(Drop)]
pub struct Counting {
    threads: Vec<Asked>,
}

impl Counting {
    pub fn new(alloc: Global, count: u32) -> Result<Counting, Memory> {
        let mut threads = Vec::new(alloc);
        for _ in 0..count {
            threads.push(Asked {
                called: AtomicU32::new(0),
                appended: AtomicU32::new(0),
                answered: AtomicU32::new(0),
            })?;
        }
        Ok(Counting { threads })
    }

    /// How often a thread was asked when it had made a call, when it had appended a batch, and when it had an answer.
    pub fn asked(&self, rt: &impl Abort, thread: usize) -> [u32; 3] {
        let asked = self.threads.get(thread).expect(rt, "a thread of the run");
        [
            asked.called.load(Ordering::SeqCst),
            asked.appended.load(Ordering::SeqCst),
            asked.answered.load(Ordering::SeqCst),
        ]
    }
}

impl Gate for Counting {
    fn at(&self, thread: u16, point: Point) -> Signal {
        let Some(asked) = self.threads.get(usize::from(thread)) else {
            return Signal::Stop;
        };
        let count = match point {
            Point::Called => &asked.called,
            Point::Appended => &asked.appended,
            Point::Answered => &asked.answered,
        };
        count.fetch_add(1, Ordering::SeqCst);
        Signal::Go
    }
}
