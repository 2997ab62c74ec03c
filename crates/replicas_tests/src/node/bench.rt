//! A node on a log, as tests have it make calls.
ghost use Rattle.std.specs.Prelude.{◌≡◌, All, [], ◌∷◌};
ghost use Rattle.vs_types.specs.LogEntry.{IsLogEntry};
ghost use Rattle.vs_types.specs.Operation.{IsAction};

use arrayvec::ArrayVec;
use nr_dump::check;
use nr_node::{Held, Node};
use nr_ring::{AppendFault, LogName, RingLog, Tails};
use nr_slots::{Answered, Slots, Waiting};
use std::alloc::Global;
use std::marker::Model;
use std::process::Abort;
use vs_arena::FrameStore;
use vs_plain::PlainSpace;
use vs_types::{Access, Answer, CALLS, Depth, LogEntry, Mode, Op, Rights, Size};

/// An update of the page of 4 KiB at 0x400000.
#[derive(Clone, Copy)]
pub enum Update {
    /// To the physical address 0x1000, with all rights.
    Map,
    Unmap,
}

impl Update {
    pub fn op(self, rt: &impl Abort, depth: Depth) -> Op
        ensures { IsAction depth result }
    {
        let made = match self {
            Update::Map => Op::map(depth, 0x400000, Size::K4, 0x1000, Rights::ALL),
            Update::Unmap => Op::unmap(depth, 0x400000),
        };
        let op = made.expect(rt, "an update");
        assert!(rt; op.fits(depth));
        op
    }

    /// The entry of a call that makes it.
    pub fn entry(self, rt: &impl Abort, depth: Depth, call: u32) -> LogEntry
        ensures { IsLogEntry depth result }
    {
        let op = self.op(rt, depth);
        assert!(rt; call < CALLS);
        LogEntry { call, op }
    }
}

/// An update of a thread, by its call; and at its place what it is answered.
#[derive(Clone, Copy)]
pub struct Given(pub u16, pub u32, pub Update, pub u64, pub Answer);

/// What a node does, and what it answers.
#[derive(Clone, Copy)]
pub enum Does {
    /// It holds so much.
    Has(Held),
    HasApplied(u64),
    /// It takes an update of each of two threads, by its call, to hold.
    Holds([(u16, u32, Update); 2]),
    /// Its batch gets this place.
    Puts(u64),
    /// The log has no room for it: the tail, the completed tail and the local ones.
    IsFull(u64, u64, [u64; 4]),
    /// It catches up by so many entries, and gives these answers.
    CatchesUp(u64, &'static [Given]),
    /// It follows the log: it has then applied so many entries, and so many of them are above its replica's local tail.
    Follows(u64, usize),
    /// It puts the batch that it holds and catches up at once: the first update is the one that is wanted.
    PutsAndCatchesUp([Given; 2]),
    /// It forgets what it has applied: so many entries.
    Forgets(u64),
    /// The entry at a place is a call's, of this update, which was answered so.
    Told(u64, u32, Update, Answer),
    /// It has not applied the entry of this place, or has forgotten it.
    NotTold(u64),
    /// The translation of an address, after so many entries.
    Reads(u64, u64, Answer),
    /// An access in user mode, after so many entries.
    Accesses(u64, Access, u64, Answer),
}

/// A batch of two updates that are well formed at this depth.
fn pair(first: Waiting, second: Waiting, depth: Depth) -> ArrayVec<Waiting, 16>
    requires first { IsAction depth first.op }
    requires second { IsAction depth second.op }
    ensures items { result.items ≡ first ∷ second ∷ [] }
    ensures fit { All (λ waiting. IsAction depth waiting.op) result.items }
{
    let mut batch = ArrayVec::new();
    batch.push(first);
    batch.push(second);
    batch
}

/// A log and a node on it.
#[derive(Drop)]
pub struct Bench<'a, S: FrameStore, J: LogName> {
    log: &'a RingLog<J>,
    node: Node<S, J>,
    slots: Slots,
    depth: Depth,
}

impl<'a, S: FrameStore, J: LogName> Model for Bench<'a, S, J> {
    ghost use Rattle.std.specs.Prelude.{◌≡◌};
    ghost use Rattle.nr_ring.specs.Pass.{Known};

    ghost Value = { Known };

    ghost view = { λ b. b.node.known };

    ghost invariant = { λ b. (b.node.known.log ≡ b.log.now) × (b.slots ≡ 8) × (b.depth ≡ J.depth) };
}

impl<'a, S: FrameStore, J: LogName> Bench<'a, S, J> {
    pub fn new(log: &'a RingLog<J>, node: Node<S, J>, slots: Slots, depth: Depth) -> Bench<'a, S, J>
        requires log { node.known.log ≡ log.now }
        requires slots { slots ≡ 8 }
        requires depth { depth ≡ J.depth }
    {
        Bench {
            log,
            node,
            slots,
            depth,
        }
    }

    /// Takes steps one after another.
    pub fn take_all(&mut self, rt: &impl Abort, steps: &[Does]) {
        for (place, does) in steps.iter().enumerate() {
            assert!(rt; self.take(rt, *does), "step {place}");
        }
    }

    /// One step: whether the node answers so.
    fn take(&mut self, rt: &impl Abort, does: Does) -> bool {
        match does {
            Does::Has(held) => self.node.held() == held,
            Does::HasApplied(count) => self.node.applied() == count,
            Does::Holds(updates) => {
                self.hold(rt, updates);
                true
            }
            Does::Puts(place) => self.put(rt) == Ok(place),
            Does::IsFull(tail, completed, local) => {
                let tails = Tails {
                    tail,
                    completed,
                    local,
                };
                self.put(rt) == Err(AppendFault::Full(tails))
            }
            Does::CatchesUp(count, answers) => self.catches_up(rt, count, answers),
            Does::Follows(applied, ahead) => {
                self.follow(rt);
                self.node.applied() == applied && self.node.ahead() == ahead
            }
            Does::PutsAndCatchesUp(answers) => {
                self.collect(rt, answers);
                self.puts_and_catches_up(rt, answers)
            }
            Does::Forgets(count) => {
                assert!(rt; self.node.ahead() == 0);
                self.node.forget();
                self.node.base() == count && self.node.applied() == count && self.node.has_room()
            }
            Does::Told(place, call, update, answer) => {
                let entry = update.entry(rt, self.depth, call);
                self.node.told(place) == Some((entry, answer))
            }
            Does::NotTold(place) => self.node.told(place).is_none(),
            Does::Reads(address, at, answer) => self.reads(rt, address, None) == (at, answer),
            Does::Accesses(address, access, at, answer) => {
                self.reads(rt, address, Some(access)) == (at, answer)
            }
        }
    }

    fn hold(&mut self, rt: &impl Abort, updates: [(u16, u32, Update); 2]) {
        let [first, second] = updates;
        let first = self.waiting(rt, first);
        let second = self.waiting(rt, second);
        let batch = pair(first, second, self.depth);
        assert!(rt; self.node.held() == Held::Nothing);
        self.node.hold(&batch);
    }

    /// An update of a thread, by its call.
    fn waiting(&self, rt: &impl Abort, update: (u16, u32, Update)) -> Waiting
        ensures { IsAction J.depth result.op }
    {
        let (thread, call, update) = update;
        assert!(rt; call < CALLS);
        Waiting::new(thread, call, update.op(rt, self.depth))
    }

    /// The same, with its place and its answer.
    fn answered(&self, rt: &impl Abort, given: Given) -> Answered {
        let Given(thread, call, update, place, answer) = given;
        Answered::new(self.waiting(rt, (thread, call, update)), place, answer)
    }

    /// Puts the batch that it holds.
    fn put(&mut self, rt: &impl Abort) -> Result<u64, AppendFault> {
        match self.node.held() {
            Held::Unplaced(_) => self.node.put_batch(self.log),
            _ => panic!(rt; "no batch without a place"),
        }
    }

    /// Whether it catches up by so many entries, and gives these answers.
    fn catches_up(&mut self, rt: &impl Abort, count: u64, wanted: &[Given]) -> bool {
        let mut answers = ArrayVec::new();
        assert!(rt; self.node.has_room_to_take());
        if self.node.catch_up(self.log, &mut answers) != Ok(count)
            || answers.len() != wanted.len()
        {
            return false;
        }
        for at in 0..wanted.len() {
            if answers[at] != self.answered(rt, wanted[at]) {
                return false;
            }
        }
        true
    }

    /// Follows the log, where no update that it holds has a place.
    fn follow(&mut self, rt: &impl Abort) {
        assert!(rt; self.node.has_room_to_take());
        match self.node.held() {
            Held::Placed(_, _) => panic!(rt; "a batch with a place"),
            _ => self.node.follow(self.log),
        }
    }

    /// Has the slots of the threads be taken with their updates, as where a combiner has collected them.
    fn collect(&self, rt: &impl Abort, updates: [Given; 2]) {
        for Given(thread, call, update, _, _) in updates {
            let op = update.op(rt, self.depth);
            assert!(rt; thread < 8 && call < CALLS);
            assert!(rt; self.slots.post(thread, call, op).is_ok());
        }
        let mut batch = ArrayVec::new();
        self.slots.collect(&mut batch);
        assert!(rt; batch.len() == 2);
    }

    /// Whether it puts its batch and catches up at once, gives the answer of the first update, and leaves the other one in its slot.
    fn puts_and_catches_up(&mut self, rt: &impl Abort, answers: [Given; 2]) -> bool {
        let [first, second] = answers;
        let Given(thread, call, update, _, _) = first;
        let entry = self.waiting(rt, (thread, call, update)).entry();
        let mut own = None;
        assert!(rt; self.node.has_room());
        let put = match self.node.held() {
            Held::Unplaced(_) => {
                let (log, slots) = (self.log, &self.slots);
                self.node
                    .put_and_catch_up(log, slots, thread, entry, &mut own)
            }
            _ => panic!(rt; "no batch without a place"),
        };
        let left = self.answered(rt, second);
        assert!(rt; thread < 8 && second.0 < 8);
        put.is_ok()
            && own == Some((first.3, first.4))
            && self.slots.poll(second.0) == Some(left)
            && self.slots.poll(thread).is_none()
            && self.slots.close(thread, call).is_ok()
    }

    /// A read, or an access in user mode.
    fn reads(&self, rt: &impl Abort, address: u64, access: Option<Access>) -> (u64, Answer) {
        assert!(rt; self.depth.is_canonical(address));
        match access {
            None => self.node.read(address),
            Some(access) => self.node.access(address, Mode::User, access),
        }
    }

    /// The node has applied so many entries since it forgot any, and its dump has so many tables and is that of a plain space with the
    /// page.
    pub fn assert_dump(&self, rt: &impl Abort, alloc: Global, applied: u32, tables: usize) {
        let dump = self.node.dump().expect(rt, "memory");
        assert!(rt; dump.applied() == applied && dump.count() == tables);
        let mut space = PlainSpace::new(alloc, 4096, self.depth);
        let answer = space
            .apply(Update::Map.op(rt, self.depth))
            .expect(rt, "memory");
        assert!(rt; answer == Answer::Done);
        check(alloc, &dump, &space).expect(rt, "memory");
    }
}
