//! The calls of a machine.
ghost use Rattle.std.specs.Prelude.{◌≡◌, ◌≢◌, ◌<◌, ◌≤◌, ◌+◌, ◌*◌, ◌^◌, ℕ, nat_le, nat_lt, length, [], ◌∷◌, ◌++◌, List, IsTrue, ◌↔◌, All, IfOk, IfErr, ◌-◌, nat_eq, false, ◌⊎◌, MatchResult, if◌then◌else◌, Some, None};
ghost use Rattle.std.specs.List.{list_all};
ghost use Rattle.nr_machine.specs.declared.asked.Asked.{Asked};
ghost use Rattle.nr_machine.specs.declared.phase.Phase.{Phase};
ghost use Rattle.nr_machine.specs.declared.words.Operation.{Operation};
ghost use Rattle.nr_machine.specs.declared.words.Update.{Update};
ghost use Rattle.nr_machine.specs.declared.words.Word.{Word};
ghost use Rattle.nr_machine.specs.Actor.{applies, begins, ends, is_own, learned, new_actor};
ghost use Rattle.nr_machine.specs.Bound.{Spends, left};
ghost use Rattle.nr_machine.specs.Calls.{Given, Makes};
ghost use Rattle.nr_machine.specs.Fields.{batch_of, number_of, phase_of, replies_of};
ghost use Rattle.nr_machine.specs.Machine.{IsFit, MayAsk, actor_of, asked_by, refusal_of};
ghost use Rattle.nr_machine.specs.Sound.{IsSound};

use crate::asked::{Asked, END, Refusal, Reply};
use crate::node::Node;
use crate::phase::Phase;
use crate::words::{NODES, RING, Update};

impl Node {
    /// Makes this the machine of the node of this number, of so many nodes, whose words are all 0. Whether there is such a node: its number
    /// is below that of the nodes, of which there are at most 64. Else nothing changes.
    pub fn renew(&mut self, nodes: u64, number: u64) -> bool
        ensures made { IsTrue result → IsSound self.new × (asked_by self.new ≡ Asked.Done)
            × (self.new.nodes ≡ nodes) × (self.new.number ≡ number) × (number < nodes)
            × (nodes ≤ 64) × (actor_of self.new ≡ new_actor nodes) }
        ensures refused { result ≡ false → (64 < nodes ⊎ nodes ≤ number)
            × (self.new ≡ self.old) }
    {
        if nodes > NODES || number >= nodes {
            return false;
        }
        self.look(0, 0);
        self.forget();
        self.nodes = nodes;
        self.number = number;
        self.phase = Phase::Rest.number();
        self.applied = 0;
        self.taken = 0;
        self.published = 0;
        self.asked = nodes;
        self.least = 0;
        self.batch_count = 0;
        true
    }

    /// Begins a call that appends these updates, 1 to 16 of them, one after another in the log.
    ///
    /// # Errors
    ///
    /// The first refusal that holds.
    #[inline(always)]
    pub fn update(&mut self, updates: &[Update]) -> Result<Asked, Refusal>
        requires { IsSound self.old }
        ensures sound { IsSound self.new }
        ensures asks { IfOk result (λ asked. asked ≡ asked_by self.new) }
        ensures may { IfOk result (λ asked.
            MayAsk self.new.nodes self.new.number (actor_of self.new) asked) }
        ensures begun { IfOk result (λ asked. (refusal_of self.old updates.now ≡ None)
            × (actor_of self.new ≡ begins (ends (actor_of self.old)) updates.now)) }
        ensures makes { IfOk result (λ asked. Makes self.old (Given.Updates updates.now) self.new) }
        ensures replies { IfOk result (λ asked. replies_of self.new ≡ []) }
        ensures works { IfOk result (λ asked. asked ≢ Asked.Broken) }
        ensures bounded { IfOk result (λ asked.
            left self.new ≡ self.new.nodes + 2 * length updates.now + 6) }
        ensures refused { IfErr result (λ why. (refusal_of self.old updates.now ≡ Some why)
            × (self.new ≡ self.old)) }
        ensures same { (self.new.nodes ≡ self.old.nodes) × (self.new.number ≡ self.old.number) }
    {
        self.test(updates)?;
        let count = updates.len();
        self.batch_count = count;
        self.batch[..count].copy_from_slice(updates);
        self.forget();
        self.phase = Phase::Looks.number();
        Ok(self.asks())
    }

    /// Tests whether a call may begin with these updates.
    fn test(&self, updates: &[Update]) -> Result<(), Refusal>
        ensures { MatchResult result (λ ok. refusal_of self.now updates.now ≡ None)
            (λ why. refusal_of self.now updates.now ≡ Some why) }
    {
        if !matches!(Phase::of(self.phase), Phase::Rest) {
            return Err(Refusal::Busy);
        }
        if updates.is_empty() {
            return Err(Refusal::Empty);
        }
        if updates.len() > RING {
            return Err(Refusal::TooMany);
        }
        if !are_small(updates) {
            return Err(Refusal::TooLarge);
        }
        Ok(())
    }

    /// Begins a call that is over at once where its node has applied at least so many entries. Else its node takes and applies all that are
    /// in the log when it loads the head, which may be fewer than so many.
    ///
    /// # Errors
    ///
    /// `Busy`, where the call before isn't over.
    #[inline(always)]
    pub fn sync(&mut self, at_least: u64) -> Result<Asked, Refusal>
        requires { IsSound self.old }
        ensures sound { IsSound self.new }
        ensures asks { IfOk result (λ asked. asked ≡ asked_by self.new) }
        ensures may { IfOk result (λ asked.
            MayAsk self.new.nodes self.new.number (actor_of self.new) asked) }
        ensures begun { IfOk result (λ asked. (asked_by self.old ≡ Asked.Done)
            × (actor_of self.new ≡ ends (actor_of self.old)) × (asked ≡
            (if nat_le at_least self.old.applied then Asked.Done
            else Asked.Carry (Operation.Load Word.Head)))) }
        ensures makes { IfOk result (λ asked. Makes self.old (Given.Wanted at_least) self.new) }
        ensures bounded { IfOk result (λ asked. left self.new ≤ 5) }
        ensures replies { IfOk result (λ asked. replies_of self.new ≡ []) }
        ensures refused { IfErr result (λ why. (asked_by self.old ≢ Asked.Done)
            × (why ≡ Refusal.Busy) × (self.new ≡ self.old)) }
        ensures same { (self.new.nodes ≡ self.old.nodes) × (self.new.number ≡ self.old.number) }
    {
        if !matches!(Phase::of(self.phase), Phase::Rest) {
            return Err(Refusal::Busy);
        }
        self.batch_count = 0;
        self.forget();
        if at_least > self.applied {
            self.phase = Phase::Looks.number();
        }
        Ok(self.asks())
    }

    /// Forgets the call before, but for its updates.
    fn forget(&mut self)
        ensures { self.new ≡ record self.old
            { stands = 0; first = 0; firsts = 0; seconds = 0; reply_count = 0 } }
    {
        self.stands = 0;
        self.first = 0;
        self.firsts = 0;
        self.seconds = 0;
        self.reply_count = 0;
    }

    /// Takes what the word was before the operation that was asked for; for a node that lags any value. If neither was asked for,
    /// nothing changes.
    #[inline(always)]
    pub fn told(&mut self, value: u64) -> Asked
        requires { IsSound self.old }
        ensures sound { IsSound self.new }
        ensures asks { result ≡ asked_by self.new }
        ensures may { MayAsk self.new.nodes self.new.number (actor_of self.new) result }
        ensures learned { (operation : Operation) → asked_by self.old ≡ Asked.Carry operation
            → result ≢ Asked.Broken
            → actor_of self.new ≡ learned self.old.number (actor_of self.old) operation value }
        ensures fits { (operation : Operation) → asked_by self.old ≡ Asked.Carry operation
            → IsFit self.old.nodes (actor_of self.old) operation value → result ≢ Asked.Broken }
        ensures makes { Makes self.old (Given.Value value) self.new }
        ensures lags { (node : ℕ) → asked_by self.old ≡ Asked.Lags node
            → (result ≡ Asked.Carry (Operation.Load Word.Head))
            × (actor_of self.new ≡ actor_of self.old) × Spends 1 self.old self.new }
        ensures bounded { (operation : Operation) → asked_by self.old ≡ Asked.Carry operation
            → IsFit self.old.nodes (actor_of self.old) operation value
            → Spends 0 self.old self.new }
        ensures named { (node : ℕ) → result ≡ Asked.Lags node
            → (asked_by self.old ≡ Asked.Carry (Operation.Load (Word.Local node)))
            × (value + 16 < self.new.seen + length (batch_of self.new)) }
        ensures others { ((operation : Operation) → asked_by self.old ≢ Asked.Carry operation)
            → ((node : ℕ) → asked_by self.old ≢ Asked.Lags node) → self.new ≡ self.old }
        ensures same { (self.new.nodes ≡ self.old.nodes) × (self.new.number ≡ self.old.number)
            × (replies_of self.new ≡ replies_of self.old) }
    {
        self.take(value);
        self.asks()
    }

    /// Takes the reply to the entry that was to be applied. If none was, nothing changes.
    #[inline(always)]
    pub fn applied(&mut self, reply: Reply) -> Asked
        requires { IsSound self.old }
        ensures sound { IsSound self.new }
        ensures asks { result ≡ asked_by self.new }
        ensures may { MayAsk self.new.nodes self.new.number (actor_of self.new) result }
        ensures applied { (update : Update) → asked_by self.old ≡ Asked.Apply update
            → (actor_of self.new ≡ applies (actor_of self.old)) × (replies_of self.new
            ≡ (if is_own (actor_of self.old) then replies_of self.old ++ (reply ∷ [])
            else replies_of self.old)) }
        ensures makes { Makes self.old (Given.Replied reply) self.new }
        ensures works { (update : Update) → asked_by self.old ≡ Asked.Apply update
            → result ≢ Asked.Broken }
        ensures bounded { (update : Update) → asked_by self.old ≡ Asked.Apply update
            → Spends 0 self.old self.new }
        ensures others { ((update : Update) → asked_by self.old ≢ Asked.Apply update)
            → self.new ≡ self.old }
        ensures same { (self.new.nodes ≡ self.old.nodes) × (self.new.number ≡ self.old.number) }
    {
        if !matches!(Phase::of(self.phase), Phase::Applies) {
            return self.asks();
        }
        self.apply(reply);
        self.asks()
    }

    /// The next entry is applied, with this reply.
    fn apply(&mut self, reply: Reply)
        requires sound { IsSound self.old }
        requires phase { phase_of self.old ≡ Phase.Applies }
        ensures sound { IsSound self.new }
        ensures actor { actor_of self.new ≡ applies (actor_of self.old) }
        ensures replies { replies_of self.new
            ≡ (if is_own (actor_of self.old) then replies_of self.old ++ (reply ∷ [])
            else replies_of self.old) }
        ensures works { phase_of self.new ≢ Phase.Broken }
        ensures bounded { Spends 0 self.old self.new }
        ensures same { (self.new.nodes ≡ self.old.nodes) × (self.new.number ≡ self.old.number) }
    {
        let own = self.is_own();
        self.forget_entry();
        if own {
            self.replies[self.reply_count] = reply;
            self.reply_count += 1;
        }
    }

    /// The next entry is applied.
    fn forget_entry(&mut self)
        requires some { 0 < self.old.got_count }
        requires few { self.old.got_count ≤ length self.old.got }
        requires bounds { (self.old.applied < 2 ^ 57) × (self.old.from < 2 ^ 57) }
        ensures actor { actor_of self.new ≡ applies (actor_of self.old) }
        ensures rest { self.new ≡ record self.old {
          got_count = self.old.got_count - 1;
          applied = self.old.applied + 1;
          from = self.old.from + 1;
          phase = number_of
              (if nat_eq (self.old.got_count - 1) 0 then Phase.Flushes else Phase.Applies);
        } }
    {
        self.got_count -= 1;
        self.applied += 1;
        self.from += 1;
        self.phase = if self.got_count == 0 {
            Phase::Flushes.number()
        } else {
            Phase::Applies.number()
        };
    }

    /// Whether the entry that is applied next is one of the updates of the call.
    fn is_own(&self) -> bool
        requires { IsSound self.now }
        ensures { result ≡ is_own (actor_of self.now) }
    {
        self.stands == 1
            && self.first <= self.applied
            && self.applied < self.first + self.batch_count as u64
    }
}

/// Whether the second words of these updates are below 2^57.
fn are_small(updates: &[Update]) -> bool
    ensures { result ≡ list_all (λ (update : Update). nat_lt update.second (2 ^ 57)) updates.now }
{
    updates.iter().all(|update| update.second < END)
}

/// Whether every node is done with a place, where the words `Done` of all nodes, loaded one after another in any order, are these.
pub fn everywhere(done: &[u64], place: u64) -> bool
    ensures { IsTrue result ↔ All (λ count. place < count) done.now }
{
    done.iter().all(|count| place < *count)
}
