//! What a machine does with a value that it is given.
ghost use Rattle.std.specs.Prelude.{◌≡◌, ◌≢◌, ◌<◌, ◌≤◌, ◌+◌, ◌-◌, ◌*◌, ◌/◌, ◌%◌, ◌^◌, ◌==◌, ◌++◌, [], ◌∷◌, length, take, max, min, if◌then◌else◌, nat_eq, nat_lt, None};
ghost use Rattle.nr_machine.specs.declared.phase.Phase.{Phase};
ghost use Rattle.nr_machine.specs.Actor.{is_own, sees};
ghost use Rattle.nr_machine.specs.Fields.{AreFew, batch_of, got_of, number_of, phase_in, phase_of, replies_of, standing_of};
ghost use Rattle.nr_machine.specs.Machine.{IsHead, actor_of};
ghost use Rattle.nr_machine.specs.Sound.{IsIn, IsSound};
ghost use Rattle.nr_machine.specs.Bound.{Spends, attempt, left, left_in, wants};
ghost use Rattle.nr_machine.specs.inside.Told.{IsTold, looked};

use crate::asked::END;
use crate::node::{Node, packed};
use crate::phase::Phase;
use crate::words::{RING, Update};
use std::cmp;

impl Node {
    /// Takes a value where one is waited for.
    pub(crate) fn take(&mut self, value: u64)
        requires { IsSound self.old }
        ensures { IsTold self.old value self.new }
    {
        match Phase::of(self.phase) {
            Phase::Rest | Phase::Applies | Phase::Broken => {}
            Phase::Looks => self.see(value),
            Phase::Scans => self.scan(value),
            Phase::Lags => self.look_again(),
            Phase::StoresFirst => self.stored_first(),
            Phase::StoresSecond => self.stored_second(),
            Phase::Swaps => self.swap(value),
            Phase::LoadsFirst => self.load_first(value),
            Phase::LoadsSecond => self.load_second(value),
            Phase::Raises => self.raised(),
            Phase::Flushes => self.flushed(),
            Phase::Checks => self.check(value),
            Phase::Publishes => self.publish(),
        }
    }

    /// Takes the head.
    fn see(&mut self, head: u64)
        requires sound { IsSound self.old }
        requires even { self.old.applied ≡ self.old.taken }
        requires standing { standing_of self.old ≡ None }
        ensures sound { IsSound self.new }
        ensures learned { phase_of self.new ≢ Phase.Broken
            → actor_of self.new ≡ sees (actor_of self.old) (head / 128) (head % 128) }
        ensures fits { IsHead self.old.nodes (actor_of self.old) head
            → phase_of self.new ≢ Phase.Broken }
        ensures names { phase_of self.new ≢ Phase.Lags }
        ensures batch { batch_of self.new ≡ batch_of self.old }
        ensures spent { left self.new + 1 ≤ 5 + (if wants self.old then attempt self.old else 0)
            + 6 * (self.new.seen - self.old.taken) }
        ensures same { (self.new.nodes ≡ self.old.nodes) × (self.new.number ≡ self.old.number)
            × (replies_of self.new ≡ replies_of self.old) }
    {
        let (tail, last) = (head / 128, head % 128);
        let few = tail >= self.taken && tail - self.taken <= RING as u64;
        if last >= self.nodes || !few || tail >= END - RING as u64 {
            self.phase = Phase::Broken.number();
            return;
        }
        self.look(tail, last);
        self.phase = self.after_look().number();
    }

    /// Forgets what it had for another tail.
    pub(crate) fn look(&mut self, tail: u64, last: u64)
        ensures { self.new ≡ looked self.old tail last }
    {
        self.seen = tail;
        self.last = last;
        self.firsts = 0;
        self.seconds = 0;
        self.from = tail;
        self.ring = last;
        self.has_half = 0;
        self.half = 0;
        self.got_count = 0;
        self.next = 0;
    }

    /// What comes once it has seen a tail: its updates are stored, if they have room as far as it knows; or it takes entries, if any.
    fn after_look(&self) -> Phase
        requires even { self.now.applied ≡ self.now.taken }
        requires few { AreFew self.now }
        requires seen { self.now.seen + 16 < 2 ^ 57 }
        requires taken { self.now.taken ≤ self.now.seen }
        requires last { self.now.last < 128 }
        requires nodes { 0 < self.now.nodes }
        requires fresh { (self.now.firsts ≡ 0) × (self.now.seconds ≡ 0) × (self.now.next ≡ 0)
            × (self.now.from ≡ self.now.seen) }
        ensures is_in { IsIn result self.now }
        ensures works { result ≢ Phase.Broken }
        ensures names { result ≢ Phase.Lags }
        ensures spent { left_in result self.now + 1
            ≤ 5 + (if wants self.now then attempt self.now else 0)
            + 6 * (self.now.seen - self.now.taken) }
    {
        if self.wants() && self.need() <= self.taken {
            if self.asked == self.nodes && self.need() <= self.least {
                return Phase::StoresFirst;
            }
            return Phase::Scans;
        }
        if self.taken < self.seen {
            Phase::LoadsFirst
        } else {
            Phase::Checks
        }
    }

    /// Whether the updates of its call aren't in the log yet.
    fn wants(&self) -> bool
        requires { AreFew self.now }
        ensures { result ≡ wants self.now }
    {
        self.stands != 1 && self.batch_count > 0
    }

    /// So many entries each node has to have taken before the updates may be stored.
    fn need(&self) -> u64
        requires few { AreFew self.now }
        requires seen { self.now.seen + 16 < 2 ^ 57 }
        ensures { result ≡ self.now.seen + length (batch_of self.now) - 16 }
    {
        (self.seen + self.batch_count as u64).saturating_sub(RING as u64)
    }

    /// Takes how many entries the next node has taken.
    fn scan(&mut self, value: u64)
        requires sound { IsSound self.old }
        requires phase { phase_of self.old ≡ Phase.Scans }
        ensures { IsTold self.old value self.new }
    {
        self.least = self.least_with(value);
        self.asked = self.next + 1;
        if value < self.need() {
            self.phase = Phase::Lags.number();
        } else if self.asked == self.nodes {
            self.phase = Phase::StoresFirst.number();
        } else {
            self.next += 1;
            self.phase = Phase::Scans.number();
        }
    }

    /// The least that the nodes up to the next one have taken, where that one has taken so many.
    fn least_with(&self, value: u64) -> u64
        ensures { result
            ≡ (if self.now.next == 0 then value else min self.now.least value) }
    {
        if self.next == 0 {
            return value;
        }
        cmp::min(self.least, value)
    }

    /// The node that lagged has taken entries, maybe.
    fn look_again(&mut self)
        ensures { self.new ≡ record self.old { phase = number_of Phase.Looks } }
    {
        self.phase = Phase::Looks.number();
    }

    /// The first word of an update is stored.
    fn stored_first(&mut self)
        requires { self.old.firsts < 16 }
        ensures { self.new
            ≡ record self.old { firsts = self.old.firsts + 1; phase = number_of Phase.StoresSecond } }
    {
        self.firsts += 1;
        self.phase = Phase::StoresSecond.number();
    }

    /// And its second word.
    fn stored_second(&mut self)
        requires few { AreFew self.old }
        requires below { self.old.seconds < 16 }
        ensures { self.new ≡ record self.old {
          seconds = self.old.seconds + 1;
          phase = number_of
              (if nat_lt (self.old.seconds + 1) (length (batch_of self.old))
              then Phase.StoresFirst else Phase.Swaps);
        } }
    {
        self.seconds += 1;
        self.phase = if self.seconds < self.batch_count {
            Phase::StoresFirst.number()
        } else {
            Phase::Swaps.number()
        };
    }

    /// Takes what the head was when it was to be exchanged.
    fn swap(&mut self, head: u64)
        requires sound { IsSound self.old }
        requires phase { phase_of self.old ≡ Phase.Swaps }
        ensures { IsTold self.old head self.new }
    {
        if head == packed(self.seen, self.last) {
            self.append();
        } else {
            self.see(head);
        }
    }

    /// Its updates are in the log, at the tail that it saw.
    fn append(&mut self)
        requires few { AreFew self.old }
        requires seen { self.old.seen + 16 < 2 ^ 57 }
        ensures { self.new ≡ record
            (looked self.old (self.old.seen + length (batch_of self.old)) self.old.number)
            { stands = 1; first = self.old.seen; phase = number_of Phase.LoadsFirst } }
    {
        self.stands = 1;
        self.first = self.seen;
        let tail = self.seen + self.batch_count as u64;
        self.look(tail, self.number);
        self.phase = Phase::LoadsFirst.number();
    }

    /// Takes the first word of an entry.
    fn load_first(&mut self, value: u64)
        ensures { self.new ≡ record self.old
            { has_half = 1; half = value; phase = number_of Phase.LoadsSecond } }
    {
        self.has_half = 1;
        self.half = value;
        self.phase = Phase::LoadsSecond.number();
    }

    /// Takes the second word of an entry, and so the entry.
    fn load_second(&mut self, value: u64)
        requires sound { IsSound self.old }
        requires phase { phase_of self.old ≡ Phase.LoadsSecond }
        ensures { IsTold self.old value self.new }
    {
        let link = value % 128;
        if link >= self.nodes {
            self.phase = Phase::Broken.number();
            return;
        }
        self.keep(value);
    }

    /// Keeps the entry below those that it has.
    fn keep(&mut self, value: u64)
        requires few { AreFew self.old }
        requires room { self.old.got_count < 16 }
        requires some { 0 < self.old.from }
        ensures few { AreFew self.new }
        ensures got { take (self.old.got_count + 1) self.new.got ≡ got_of self.old
            ++ (record { first = self.old.half; second = value / 128 } ∷ []) }
        ensures rest { self.new ≡ record self.old {
          got_count = self.old.got_count + 1;
          got = self.new.got;
          from = self.old.from - 1;
          ring = value % 128;
          has_half = 0;
          half = 0;
          phase = number_of (if nat_eq (self.old.from - 1) self.old.taken
              then Phase.Raises else Phase.LoadsFirst);
        } }
    {
        let (first, second) = (self.half, value / 128);
        self.got[self.got_count] = Update { first, second };
        self.got_count += 1;
        self.from -= 1;
        self.ring = value % 128;
        self.has_half = 0;
        self.half = 0;
        self.phase = if self.from == self.taken {
            Phase::Raises.number()
        } else {
            Phase::LoadsFirst.number()
        };
    }

    /// Its node has taken the entries: their words may be overwritten.
    fn raised(&mut self)
        ensures { self.new ≡ record self.old
            { taken = self.old.seen; phase = number_of Phase.Applies } }
    {
        self.taken = self.seen;
        self.phase = Phase::Applies.number();
    }

    /// Its node has applied and flushed all that it took.
    fn flushed(&mut self)
        requires { AreFew self.old }
        ensures { self.new ≡ record self.old
            { phase = number_of (if wants self.old then Phase.Looks else Phase.Checks) } }
    {
        self.phase = if self.wants() {
            Phase::Looks.number()
        } else {
            Phase::Checks.number()
        };
    }

    /// So many entries are completed. The call is over where these are all that its node has applied.
    fn check(&mut self, value: u64)
        ensures { self.new ≡ record self.old {
          published = max self.old.published value;
          phase = number_of (if nat_lt (max self.old.published value) self.old.taken
              then Phase.Publishes else Phase.Rest);
        } }
    {
        self.published = cmp::max(self.published, value);
        self.phase = if self.published < self.taken {
            Phase::Publishes.number()
        } else {
            Phase::Rest.number()
        };
    }

    /// What its node has applied is completed.
    fn publish(&mut self)
        ensures { self.new ≡ record self.old
            { published = max self.old.published self.old.taken; phase = number_of Phase.Rest } }
    {
        self.published = cmp::max(self.published, self.taken);
        self.phase = Phase::Rest.number();
    }
}
