//! The calls for C.
ghost use Rattle.std.specs.Prelude.{◌≡◌, ◌≢◌, ◌≤◌, ◌<◌, ◌⊎◌, ◌+◌, ◌*◌, ◌++◌, [], ◌∷◌, ℕ, length, Some, None, nat_le, if◌then◌else◌, All, IsTrue, ◌↔◌};
ghost use Rattle.nr_machine.specs.declared.asked.Asked.{Asked};
ghost use Rattle.nr_machine.specs.declared.asked.Refusal.{Refusal};
ghost use Rattle.nr_machine.specs.declared.words.Operation.{Operation};
ghost use Rattle.nr_machine.specs.declared.words.Update.{Update};
ghost use Rattle.nr_machine.specs.declared.words.Word.{Word};
ghost use Rattle.nr_machine.specs.Actor.{applies, begins, ends, is_own, learned, new_actor};
ghost use Rattle.nr_machine.specs.Bound.{Spends, left};
ghost use Rattle.nr_machine.specs.Calls.{Given, Makes};
ghost use Rattle.nr_machine.specs.Fields.{batch_of, replies_of};
ghost use Rattle.nr_machine.specs.Machine.{IsFit, actor_of, asked_by, refusal_of};
ghost use Rattle.nr_machine.specs.Sound.{IsSound};
ghost use Rattle.nrvs_nodes_c.specs.Numbers.{numbers_of, refusal_code};
ghost use Rattle.nrvs_nodes_c.specs.Next.{IsAsked};

use crate::codes::{NO_NODE, status_of};
use crate::node::Node;
use nr_machine::{Reply, Update, everywhere};

/// Makes the machine of the node of this number, of so many nodes, whose words are all 0. Status 20 where there is no such node, or there
/// are more than 64; then nothing changes.
#[unsafe(no_mangle)]
pub extern "C" fn nrvs_node_new(node: &mut Node, nodes: u64, number: u64) -> u32
    ensures status { result ≡ 0 ⊎ result ≡ 20 }
    ensures made { result ≡ 0 → IsSound node.new.machine × (node.new.asked ≡ numbers_of Asked.Done)
        × (asked_by node.new.machine ≡ Asked.Done)
        × (node.new.machine.nodes ≡ nodes) × (node.new.machine.number ≡ number)
        × (number < nodes) × (nodes ≤ 64)
        × (actor_of node.new.machine ≡ new_actor nodes) }
    ensures refused { result ≡ 20 → (64 < nodes ⊎ nodes ≤ number) × (node.new ≡ node.old) }
{
    if !node.machine.renew(nodes, number) {
        return NO_NODE;
    }
    node.say()
}

/// Begins a call that appends these updates, 1 to 16 of them. Statuses 16 to 19: busy, none, too many, too large; then nothing changes.
#[unsafe(no_mangle)]
pub extern "C" fn nrvs_node_update(node: &mut Node, updates: &[Update]) -> u32
    requires { IsSound node.old.machine }
    ensures kept { IsSound node.new.machine }
    ensures begun { result < 16 → (refusal_of node.old.machine updates.now ≡ None)
        × (actor_of node.new.machine ≡ begins (ends (actor_of node.old.machine)) updates.now)
        × (replies_of node.new.machine ≡ []) }
    ensures makes { result < 16
        → Makes node.old.machine (Given.Updates updates.now) node.new.machine }
    ensures asked { result < 16 → IsAsked node.new result }
    ensures works { result ≢ 7 }
    ensures bounded { result < 16
        → left node.new.machine ≡ node.new.machine.nodes + 2 * length updates.now + 6 }
    ensures same { (node.new.machine.nodes ≡ node.old.machine.nodes)
        × (node.new.machine.number ≡ node.old.machine.number) }
    ensures refused { 16 ≤ result → (why : Refusal)
        × (refusal_of node.old.machine updates.now ≡ Some why)
        × (result ≡ refusal_code why) × (node.new ≡ node.old) }
{
    match node.machine.update(updates) {
        Ok(_asked) => node.say(),
        Err(refusal) => status_of(refusal),
    }
}

/// Begins a call that is over at once where its node has applied at least so many entries. Else its node takes and applies all that are in
/// the log when it loads the head, which may be fewer than so many. Status 16: busy; then nothing changes.
#[unsafe(no_mangle)]
pub extern "C" fn nrvs_node_sync(node: &mut Node, at_least: u64) -> u32
    requires { IsSound node.old.machine }
    ensures kept { IsSound node.new.machine }
    ensures begun { result < 16 → (asked_by node.old.machine ≡ Asked.Done)
        × (actor_of node.new.machine ≡ ends (actor_of node.old.machine))
        × (replies_of node.new.machine ≡ []) }
    ensures makes { result < 16
        → Makes node.old.machine (Given.Wanted at_least) node.new.machine }
    ensures looks { result < 16 → node.new.asked ≡ numbers_of
        (if nat_le at_least node.old.machine.applied then Asked.Done
        else Asked.Carry (Operation.Load Word.Head)) }
    ensures bounded { result < 16 → left node.new.machine ≤ 5 }
    ensures asked { result < 16 → IsAsked node.new result }
    ensures same { (node.new.machine.nodes ≡ node.old.machine.nodes)
        × (node.new.machine.number ≡ node.old.machine.number) }
    ensures refused { 16 ≤ result → (asked_by node.old.machine ≢ Asked.Done)
        × (result ≡ 16) × (node.new ≡ node.old) }
{
    match node.machine.sync(at_least) {
        Ok(_asked) => node.say(),
        Err(refusal) => status_of(refusal),
    }
}

/// Takes what the word was before the operation that was asked for; of a node that lags any value.
#[unsafe(no_mangle)]
pub extern "C" fn nrvs_node_told(node: &mut Node, value: u64) -> u32
    requires { IsSound node.old.machine }
    ensures kept { IsSound node.new.machine }
    ensures asked { IsAsked node.new result }
    ensures makes { Makes node.old.machine (Given.Value value) node.new.machine }
    ensures learned { (operation : Operation)
        → asked_by node.old.machine ≡ Asked.Carry operation → result ≢ 7
        → actor_of node.new.machine
        ≡ learned node.old.machine.number (actor_of node.old.machine) operation value }
    ensures fits { (operation : Operation)
        → asked_by node.old.machine ≡ Asked.Carry operation
        → IsFit node.old.machine.nodes (actor_of node.old.machine) operation value → result ≢ 7 }
    ensures lags { (other : ℕ) → asked_by node.old.machine ≡ Asked.Lags other
        → (node.new.asked ≡ numbers_of (Asked.Carry (Operation.Load Word.Head)))
        × (actor_of node.new.machine ≡ actor_of node.old.machine) }
    ensures named { (other : ℕ) → asked_by node.new.machine ≡ Asked.Lags other
        → (asked_by node.old.machine ≡ Asked.Carry (Operation.Load (Word.Local other)))
        × (value + 16 < node.new.machine.seen + length (batch_of node.new.machine)) }
    ensures bounded { (operation : Operation)
        → asked_by node.old.machine ≡ Asked.Carry operation
        → IsFit node.old.machine.nodes (actor_of node.old.machine) operation value
        → Spends 0 node.old.machine node.new.machine }
    ensures waited { (other : ℕ) → asked_by node.old.machine ≡ Asked.Lags other
        → Spends 1 node.old.machine node.new.machine }
    ensures others { ((operation : Operation)
        → asked_by node.old.machine ≢ Asked.Carry operation)
        → ((other : ℕ) → asked_by node.old.machine ≢ Asked.Lags other)
        → node.new.machine ≡ node.old.machine }
    ensures same { (node.new.machine.nodes ≡ node.old.machine.nodes)
        × (node.new.machine.number ≡ node.old.machine.number) }
{
    let _asked = node.machine.told(value);
    node.say()
}

/// Takes the reply to the entry that was to be applied.
#[unsafe(no_mangle)]
pub extern "C" fn nrvs_node_applied(node: &mut Node, reply: &Reply) -> u32
    requires { IsSound node.old.machine }
    ensures kept { IsSound node.new.machine }
    ensures asked { IsAsked node.new result }
    ensures makes { Makes node.old.machine (Given.Replied reply.now) node.new.machine }
    ensures applied { (update : Update) → asked_by node.old.machine ≡ Asked.Apply update
        → (actor_of node.new.machine ≡ applies (actor_of node.old.machine))
        × (replies_of node.new.machine
        ≡ (if is_own (actor_of node.old.machine)
        then replies_of node.old.machine ++ (reply.now ∷ [])
        else replies_of node.old.machine)) }
    ensures works { (update : Update) → asked_by node.old.machine ≡ Asked.Apply update
        → result ≢ 7 }
    ensures bounded { (update : Update) → asked_by node.old.machine ≡ Asked.Apply update
        → Spends 0 node.old.machine node.new.machine }
    ensures others { ((update : Update) → asked_by node.old.machine ≢ Asked.Apply update)
        → node.new.machine ≡ node.old.machine }
    ensures same { (node.new.machine.nodes ≡ node.old.machine.nodes)
        × (node.new.machine.number ≡ node.old.machine.number) }
{
    let _asked = node.machine.applied(*reply);
    node.say()
}

/// Whether every node is done with a place, where the words `done` of all nodes, loaded one after another in any order, are these.
#[unsafe(no_mangle)]
pub extern "C" fn nrvs_nodes_everywhere(done: &[u64], place: u64) -> bool
    ensures { IsTrue result ↔ All (λ count. place < count) done.now }
{
    everywhere(done, place)
}
