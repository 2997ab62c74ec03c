//! A pass of a log, as tests have it make calls.
ghost use Rattle.std.specs.Prelude.{◌≡◌, ◌<◌, ℕ};
ghost use Rattle.vs_types.specs.LogEntry.{IsLogEntry};
ghost use Rattle.nr_ring.specs.LogHistory.{Log, local_of, log_after};
ghost use Rattle.nr_ring.specs.Pass.{tails_of};

use crate::log::entry::entry;
use crate::log::start::Start;
use arrayvec::ArrayVec;
use nr_ring::{AppendFault, LogName, LogPass, Moved, PackedEntry, RingLog, Tails};
use std::marker::{Brand, Model, PhantomData};
use std::process::Abort;
use std::sync::Wait;
use vs_types::{Depth, LogEntry, Op};

/// An entry by which a call unmaps a page. At five levels it is one that only these have.
fn unmap(rt: &impl Abort, depth: Depth, call: u32) -> LogEntry
    ensures { IsLogEntry depth result }
{
    let base = match depth {
        Depth::Four => 0x400000,
        Depth::Five => 0xFF00000000000000,
    };
    let op = Op::unmap(depth, base).expect(rt, "a well-formed unmap");
    entry(rt, depth, call, op)
}

/// The same entry, in its two words.
fn packed_unmap(rt: &impl Abort, depth: Depth, call: u32) -> PackedEntry
    ensures { IsLogEntry depth result }
{
    PackedEntry::new(unmap(rt, depth, call))
}

/// The local tail of a replica.
fn local(tails: &Tails, replica: u8) -> u64
    requires { replica < 4 }
    ensures { (log : Log) → tails.now ≡ tails_of log → result ≡ local_of log replica }
{
    match replica {
        0 => tails.local[0],
        1 => tails.local[1],
        2 => tails.local[2],
        _ => tails.local[3],
    }
}

/// Whether no tail is below that of an earlier log.
pub fn is_later(later: &Tails, earlier: &Tails) -> bool {
    for at in 0..4 {
        if later.local[at] < earlier.local[at] {
            return false;
        }
    }
    earlier.tail <= later.tail && earlier.completed <= later.completed
}

/// Names the log that parties are of.
pub trait OfLog {
    ghost use Rattle.nr_ring.specs.Pass.{TableId};

    ghost log: { TableId };
}

impl OfLog for Brand {
    ghost use Rattle.std.specs.Prelude.{[]};

    ghost log = { record {
      words = 0;
      slots = 0;
      views_name = 0;
      atom = 0;
      block = 0;
      offset = 0;
      slot_names = [];
    } };
}

/// A log and one of its passes. Contracts see what the pass knows.
#[derive(Drop)]
pub struct Party<'a, N: LogName, K: OfLog> {
    log: &'a RingLog<N>,
    pass: LogPass<N>,
    depth: Depth,
    of: PhantomData<K>,
}

impl<'a, N: LogName, K: OfLog> Model for Party<'a, N, K> {
    ghost use Rattle.std.specs.Prelude.{◌≡◌};
    ghost use Rattle.nr_ring.specs.Pass.{Known};

    ghost Value = { Known };

    ghost view = { λ p. p.pass };

    ghost invariant = { λ p. (p.log.now ≡ K.log) × (p.pass.log ≡ K.log) × (p.depth ≡ N.depth) };
}

impl<'a, N: LogName, K: OfLog> Party<'a, N, K> {
    pub fn new(log: &'a RingLog<N>, pass: LogPass<N>, depth: Depth) -> Party<'a, N, K>
        requires log { (log.now ≡ K.log) × (pass.log ≡ K.log) }
        requires depth { depth ≡ N.depth }
    {
        Party {
            log,
            pass,
            depth,
            of: PhantomData,
        }
    }

    /// The replica that it owns.
    pub fn replica(&self) -> Option<u8> {
        self.pass.replica()
    }

    pub fn look(&mut self) -> Tails
        ensures { result ≡ tails_of (log_after N.replicas self.new.view.seen) }
    {
        self.log.look(&mut self.pass)
    }

    /// Appends an entry of this call.
    pub fn append(&mut self, rt: &impl Abort, call: u32) -> Result<u64, AppendFault> {
        let entry = unmap(rt, self.depth, call);
        self.log.append(&mut self.pass, &[entry])
    }

    /// Appends 16 entries of this call.
    pub fn append_all(&mut self, rt: &impl Abort, call: u32) -> Result<u64, AppendFault> {
        self.append_some(rt, 16, call)
    }

    /// Appends so many entries of this call, 1 to 16.
    pub fn append_some(
        &mut self,
        rt: &impl Abort,
        count: usize,
        call: u32,
    ) -> Result<u64, AppendFault> {
        assert!(rt; 1 <= count && count <= 16);
        let batch = [unmap(rt, self.depth, call); 16];
        self.log.append(&mut self.pass, &batch[..count])
    }

    /// Appends an entry of this call, and its replica takes all, in one exchange: the place, and what it takes before that entry. It only
    /// appends where it owns none.
    pub fn append_and_take(
        &mut self,
        rt: &impl Abort,
        call: u32,
    ) -> Result<(u64, ArrayVec<PackedEntry, 16>), AppendFault> {
        let mut before = ArrayVec::new();
        let place = match self.pass.replica() {
            Some(_) => {
                let batch = [packed_unmap(rt, self.depth, call)];
                self.log
                    .append_and_take(&mut self.pass, &batch, &mut before)?
            }
            None => self.append(rt, call)?,
        };
        Ok((place, before))
    }

    /// Whether it appends an entry of this call, which gets this place, and takes entries of these calls before it.
    pub fn appends_and_takes(
        &mut self,
        rt: &impl Abort,
        call: u32,
        place: u64,
        calls: &[u32],
    ) -> bool {
        match self.append_and_take(rt, call) {
            Ok((at, before)) => at == place && self.are_packed_of(rt, &before, calls),
            Err(_) => false,
        }
    }

    /// What its replica has still to take; nothing where it owns none.
    pub fn fetch(&mut self) -> ArrayVec<LogEntry, 16> {
        let mut entries = ArrayVec::new();
        if let Some(_) = self.pass.replica() {
            self.log.fetch(&mut self.pass, &mut entries);
        }
        entries
    }

    /// The same in words.
    pub fn peek(&mut self) -> ArrayVec<PackedEntry, 16> {
        let mut entries = ArrayVec::new();
        if let Some(_) = self.pass.replica() {
            self.log.peek(&mut self.pass, &mut entries);
        }
        entries
    }

    /// Whether it fetches entries of these calls.
    pub fn fetches(&mut self, rt: &impl Abort, calls: &[u32]) -> bool {
        let entries = self.fetch();
        self.are_of(rt, &entries, calls)
    }

    /// Whether it gets the words of entries of these calls.
    pub fn peeks(&mut self, rt: &impl Abort, calls: &[u32]) -> bool {
        let entries = self.peek();
        self.are_packed_of(rt, &entries, calls)
    }

    /// Takes all that its replica has still to take, in one exchange; nothing where it owns none.
    pub fn take(&mut self) -> Result<ArrayVec<PackedEntry, 16>, Moved> {
        let mut entries = ArrayVec::new();
        if let Some(_) = self.pass.replica() {
            self.log.take(&mut self.pass, &mut entries)?;
        }
        Ok(entries)
    }

    /// Whether it takes entries of these calls.
    pub fn takes(&mut self, rt: &impl Abort, calls: &[u32]) -> bool {
        match self.take() {
            Ok(entries) => self.are_packed_of(rt, &entries, calls),
            Err(Moved) => false,
        }
    }

    /// Whether the entries are those of these calls.
    fn are_of(&self, rt: &impl Abort, entries: &ArrayVec<LogEntry, 16>, calls: &[u32]) -> bool {
        if entries.len() != calls.len() {
            return false;
        }
        for at in 0..calls.len() {
            if entries[at] != unmap(rt, self.depth, calls[at]) {
                return false;
            }
        }
        true
    }

    /// The same of packed entries.
    fn are_packed_of(
        &self,
        rt: &impl Abort,
        entries: &ArrayVec<PackedEntry, 16>,
        calls: &[u32],
    ) -> bool {
        if entries.len() != calls.len() {
            return false;
        }
        for at in 0..calls.len() {
            if entries[at] != packed_unmap(rt, self.depth, calls[at]) {
                return false;
            }
        }
        true
    }

    /// Looks, and advances its replica to this place; it does nothing where it owns none.
    pub fn advance_to(&mut self, rt: &impl Abort, to: u64) -> Result<(), Moved> {
        let tails = self.look();
        self.advance_from(rt, tails, to)
    }

    /// The same, to the tail.
    pub fn advance(&mut self, rt: &impl Abort) -> Result<(), Moved> {
        let tails = self.look();
        self.advance_from(rt, tails, tails.tail)
    }

    /// Looks, and advances its replica to the tail that it saw after another party has appended an entry of this call.
    pub fn advance_late(
        &mut self,
        rt: &impl Abort,
        other: &mut Party<'a, N, K>,
        call: u32,
    ) -> Result<(), Moved> {
        let tails = self.look();
        assert!(rt; other.append(rt, call) == Ok(tails.tail));
        self.advance_from(rt, tails, tails.tail)
    }

    /// Looks, and advances its replica to the tail that it saw after the replica of another party has taken all entries, if it owns one.
    pub fn advance_after_another(
        &mut self,
        rt: &impl Abort,
        other: &mut Party<'a, N, K>,
    ) -> Result<(), Moved> {
        let tails = self.look();
        assert!(rt; other.advance(rt).is_ok());
        self.advance_from(rt, tails, tails.tail)
    }

    /// Looks, waits for the other threads twice and then a while, and advances its replica to the tail that it saw.
    pub fn advance_after<R: Wait + Abort>(
        &mut self,
        rt: &R,
        start: &Start,
        pause: u32,
    ) -> Result<(), Moved> {
        let tails = self.look();
        start.wait(rt);
        start.wait(rt);
        start.linger(pause);
        self.advance_from(rt, tails, tails.tail)
    }

    /// Advances its replica from its local tail, where nothing is exchanged, to a place. These tails are those that it has seen.
    fn advance_from(&mut self, rt: &impl Abort, tails: Tails, to: u64) -> Result<(), Moved>
        requires { tails ≡ tails_of (log_after N.replicas self.old.view.seen) }
    {
        let Some(replica) = self.pass.replica() else {
            return Ok(());
        };
        assert!(rt; replica < 4);
        let local = local(&tails, replica);
        assert!(rt; local <= to && to <= tails.tail);
        assert!(rt; self.log.advance(&mut self.pass, local).is_ok());
        self.log.advance(&mut self.pass, to)
    }

    /// Hands another party what this one has seen.
    pub fn tell(&mut self, told: &mut Party<'a, N, K>) {
        self.log.meet(&mut self.pass, &mut told.pass);
    }
}
