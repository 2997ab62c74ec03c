//! A node's machine, as C keeps it.
ghost use Rattle.std.specs.Prelude.{◌≡◌, ◌<◌, ◌≤◌, ◌^◌, ◌%◌, ◌⊎◌, MatchOption};
ghost use Rattle.nr_machine.specs.Actor.{new_actor};
ghost use Rattle.nr_machine.specs.Machine.{actor_of, asked_by, exchange_of, first_store_of, second_store_of, MayAsk};
ghost use Rattle.nr_machine.specs.Sound.{IsSound, IsStoring, IsWanting};
ghost use Rattle.nr_machine.specs.Words.{packed};

use crate::asked::{Asked, Reply};
use crate::phase::Phase;
use crate::words::{Operation, RING, Update, Word};

/// The machine of one node: plain numbers, in the order of C's struct. Whoever calls it has the node for himself until the call is over.
#[repr(C)]
#[derive(Clone, Copy, Debug)]
pub struct Node {
    /// How many entries its node has applied.
    pub applied: u64,
    /// How many of the updates of its call are replied to, and the replies, in the order of the updates.
    pub reply_count: usize,
    pub replies: [Reply; RING],
    /// How many nodes there are, and which one this is.
    pub nodes: u64,
    pub number: u64,
    /// What it waits for: the number of a `Phase`.
    pub phase: u64,
    /// How many entries its node has taken.
    pub taken: u64,
    /// So many entries are known to be completed.
    pub published: u64,
    /// The nodes below this number are known to have taken so many entries at least; and whose number is loaded next.
    pub asked: u64,
    pub least: u64,
    pub next: u64,
    /// The tail that was seen, and who had appended last; how many first and second words of the updates are stored ahead of it.
    pub seen: u64,
    pub last: u64,
    pub firsts: usize,
    pub seconds: usize,
    /// From this place up to that tail it has the entries; and who appended the entry before them.
    pub from: u64,
    pub ring: u64,
    /// 1 where its updates are in the log, and from which place on.
    pub stands: u64,
    pub first: u64,
    /// 1 where it has the first word of the entry before those that it has, and that word.
    pub has_half: u64,
    pub half: u64,
    /// The updates of its call.
    pub batch_count: usize,
    pub batch: [Update; RING],
    /// The entries that it has, the last of them first.
    pub got_count: usize,
    pub got: [Update; RING],
}

impl Node {
    /// The machine of the node of this number, of so many nodes, whose words are all 0. None where the number isn't below that of the
    /// nodes, or there are more than 64.
    pub fn new(nodes: u64, number: u64) -> Option<Node>
        ensures { MatchOption result (64 < nodes ⊎ nodes ≤ number)
            (λ node. IsSound node × (asked_by node ≡ Asked.Done) × (node.nodes ≡ nodes)
            × (node.number ≡ number) × (actor_of node ≡ new_actor nodes)) }
    {
        let zero = Update {
            first: 0,
            second: 0,
        };
        let mut node = Node {
            applied: 0,
            reply_count: 0,
            replies: [Reply {
                first: 0,
                second: 0,
            }; RING],
            nodes: 0,
            number: 0,
            phase: 0,
            taken: 0,
            published: 0,
            asked: 0,
            least: 0,
            next: 0,
            seen: 0,
            last: 0,
            firsts: 0,
            seconds: 0,
            from: 0,
            ring: 0,
            stands: 0,
            first: 0,
            has_half: 0,
            half: 0,
            batch_count: 0,
            batch: [zero; RING],
            got_count: 0,
            got: [zero; RING],
        };
        if node.renew(nodes, number) {
            Some(node)
        } else {
            None
        }
    }

    /// How many entries its node has applied. While no call is open they are completed too.
    pub fn at(&self) -> u64
        ensures { result ≡ self.now.applied }
    {
        self.applied
    }

    /// What it asks for next.
    #[inline(always)]
    pub fn asks(&self) -> Asked
        requires { IsSound self.now }
        ensures asks { result ≡ asked_by self.now }
        ensures may { MayAsk self.now.nodes self.now.number (actor_of self.now) result }
    {
        let word = match Phase::of(self.phase) {
            Phase::Rest => return Asked::Done,
            Phase::Broken => return Asked::Broken,
            Phase::Lags => return Asked::Lags(self.next),
            Phase::Applies => return Asked::Apply(self.got[self.got_count - 1]),
            Phase::StoresFirst => return Asked::Carry(self.first_store()),
            Phase::StoresSecond => return Asked::Carry(self.second_store()),
            Phase::Swaps => return Asked::Carry(self.exchange()),
            Phase::Raises => return Asked::Carry(Operation::Store(
                Word::Local(self.number),
                self.seen,
            )),
            Phase::Flushes => return Asked::Carry(Operation::Store(
                Word::Done(self.number),
                self.applied,
            )),
            Phase::Publishes => return Asked::Carry(Operation::Max(Word::Completed, self.taken)),
            Phase::Looks => Word::Head,
            Phase::Scans => Word::Local(self.next),
            Phase::LoadsFirst => Word::First(self.ring, index_of(self.from - 1)),
            Phase::LoadsSecond => Word::Second(self.ring, index_of(self.from - 1)),
            Phase::Checks => Word::Completed,
        };
        Asked::Carry(Operation::Load(word))
    }

    /// The store of the first word of the next update, ahead of the tail.
    fn first_store(&self) -> Operation
        requires sound { IsSound self.now }
        requires storing { IsStoring self.now self.now.firsts }
        ensures { result ≡ first_store_of self.now }
    {
        let word = Word::First(self.number, index_of(self.seen + self.firsts as u64));
        Operation::Store(word, self.batch[self.firsts].first)
    }

    /// The store of its second word, with the link to the entry before it.
    fn second_store(&self) -> Operation
        requires sound { IsSound self.now }
        requires storing { IsStoring self.now self.now.seconds }
        ensures { result ≡ second_store_of self.now }
    {
        let word = Word::Second(self.number, index_of(self.seen + self.seconds as u64));
        let link = if self.seconds == 0 {
            self.last
        } else {
            self.number
        };
        Operation::Store(word, packed(self.batch[self.seconds].second, link))
    }

    /// The exchange of the head for the one after the updates.
    fn exchange(&self) -> Operation
        requires sound { IsSound self.now }
        requires wants { IsWanting self.now }
        ensures { result ≡ exchange_of self.now }
    {
        let new = packed(self.seen + self.batch_count as u64, self.number);
        Operation::Exchange(Word::Head, packed(self.seen, self.last), new)
    }
}

/// Two numbers in one word.
pub(crate) fn packed(high: u64, low: u64) -> u64
    requires high { high < 2 ^ 57 }
    requires low { low < 128 }
    ensures { result ≡ packed high low }
{
    128 * high + low
}

/// The index of a place's entry in a ring.
fn index_of(place: u64) -> u64
    ensures { result ≡ place % 16 }
{
    place % RING as u64
}
