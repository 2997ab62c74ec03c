//! What is left of the replicas when all is done: the calls of the log, and a dump of each replica.
ghost use Rattle.std.specs.Prelude.{◌≡◌, ◌+◌, ◌<◌, ◌≤◌, ◌++◌, ◌∷◌, [], ℕ, All, IfOk, OnOk, Some, drop, length, map, slice_get, take};
ghost use Rattle.nr_ring.specs.LogHistory.{log_after};
ghost use Rattle.nr_ring.specs.Pass.{AreApart};
ghost use Rattle.nr_ring.specs.View.{StartsWith};
ghost use Rattle.nr_node.specs.Node.{IsNode, log_of, replica_of, taken_by};
ghost use Rattle.nr_replicas.specs.Replicas.{HasHeard};
ghost use Rattle.nr_replicas.specs.Settled.{IsDumpOf, IsSettled};
ghost use Rattle.nr_replicas.specs.inside.Replicas.{IsNodeOf};
ghost use Rattle.nr_replicas.specs.inside.Settling.{AreDumpsOf, HasSeenOwnAdvances, OwnRising};

use crate::name::ReplicasName;
use crate::replicas::Replicas;
use crate::shared::Shared;
use arrayvec::ArrayVec;
use nr_node::Node;
use nr_ring::{LogName, LogPass, RingLog};
use std::alloc::Global;
use vs_arena::RawArena;
use vs_types::Memory;
use vs_walk::Dump;

impl<J: LogName, K: ReplicasName> Replicas<J, K> {
    /// What is left when all is done: the call numbers of the entries of a log since the last cut, by place, and a dump of each replica, by
    /// number. A dump is that after just the entries that its replica has applied, and counts those since the cut. That log begins with all that
    /// each of these passes has seen; they are left as they were.
    ///
    /// It allocates memory for the nodes, passes, calls and dumps.
    ///
    /// # Errors
    ///
    /// Out of memory. The replicas are given up then too.
    pub fn settle(self, passes: &mut [LogPass<J>]) -> Result<(Vec<u32>, Vec<Dump>), Memory>
        requires { All (λ pass. pass.log ≡ K.log) passes.old }
        ensures passes { passes.new ≡ passes.old }
        ensures settled { IfOk result (λ settled.
            IsSettled J.depth J.replicas J.places K.tables K.base
            passes.old settled.0.items settled.1.items) }
    {
        let Replicas {
            log,
            shared,
            alloc,
            ..
        } = self;
        let nodes = nodes_of(alloc, shared)?;
        let mut calls = calls_of(alloc, &nodes[0])?;
        let (mut others, dumps) = passes_of::<J, K>(alloc, nodes)?;
        let mut first = others.remove(0);
        hear_all(&log, &mut first, &mut others);
        hear_all(&log, &mut first, passes);
        add_rest(&log, &mut first, &mut calls)?;
        first.has_seen_a_history();
        gather_all(&log, first, others);
        Ok((calls, dumps))
    }
}

/// The nodes of the replicas, by rising number. Which one lies under which lock no proof knows, since a lock's type knows no number:
/// so each is asked for its own.
pub(crate) fn nodes_of<J: LogName, K: ReplicasName>(
    alloc: Global,
    shared: Vec<Shared<J, K>>,
) -> Result<Vec<Node<RawArena, J>>, Memory>
    ensures count { IfOk result (λ nodes. length nodes.items ≡ length shared.items) }
    ensures each { IfOk result (λ nodes. All (IsNodeOf K.log K.tables K.base) nodes.items) }
    ensures rising { IfOk result (λ nodes. OwnRising 0 (map (λ node. node.known) nodes.items)) }
{
    let mut nodes = Vec::new(alloc);
    for replica in shared {
        let Shared { local, slots: _ } = replica;
        let node = local.into_inner().into_inner().into_node();
        let place = place_among(&nodes, node.number());
        nodes.insert(place, node)?;
    }
    Ok(nodes)
}

/// The index at which a node of this number goes among nodes by rising number.
fn place_among<J: LogName>(nodes: &[Node<RawArena, J>], number: u8) -> usize
    ensures within { result ≤ length nodes.now }
    ensures before { All (λ node. replica_of node.known.view ≤ number) (take result nodes.now) }
    ensures behind { (node : _) → slice_get nodes.now result ≡ Some node
        → number ≤ replica_of node.known.view }
{
    for place in 0..nodes.len() {
        if number < nodes[place].number() {
            return place;
        }
    }
    nodes.len()
}

/// The call numbers of the entries that a node's replica has taken, and that the node keeps.
pub(crate) fn calls_of<J: LogName>(
    alloc: Global,
    node: &Node<RawArena, J>,
) -> Result<Vec<u32>, Memory>
    ensures calls { IfOk result (λ calls.
        calls.items ≡ map (λ entry. entry.call) (drop node.now.base
        (take (taken_by J.replicas node.now.known.view) (log_of J.replicas node.now).entries))) }
    ensures is_node { IsNode J.depth J.replicas node.now }
{
    node.is_well_formed();
    let mut calls = Vec::new(alloc);
    let taken = node.applied() - node.ahead() as u64;
    for place in node.base()..taken {
        match node.told(place) {
            Some((entry, _)) => calls.push(entry.call)?,
            None => unreachable!(),
        }
    }
    Ok(calls)
}

/// The passes of nodes, and a dump of each.
fn passes_of<J: LogName, K: ReplicasName>(
    alloc: Global,
    nodes: Vec<Node<RawArena, J>>,
) -> Result<(Vec<LogPass<J>>, Vec<Dump>), Memory>
    requires { All (IsNodeOf K.log K.tables K.base) nodes.items }
    ensures passes { IfOk result (λ all. all.0.items ≡ map (λ node. node.known) nodes.items) }
    ensures count { IfOk result (λ all. length all.1.items ≡ length nodes.items) }
    ensures below { IfOk result (λ all.
        All (λ pass. All (λ replica. replica < J.replicas) pass.view.owns) all.0.items) }
    ensures dumps { IfOk result (λ all.
        AreDumpsOf J.depth J.replicas K.tables K.base all.0.items all.1.items) }
{
    let mut passes = Vec::new(alloc);
    let mut dumps = Vec::new(alloc);
    for node in nodes {
        let dump = dump_of(&node)?;
        dumps.push(dump)?;
        let pass = node.into_pass();
        pass.has_seen_a_history();
        passes.push(pass)?;
    }
    Ok((passes, dumps))
}

/// A node's dump.
pub(crate) fn dump_of<J: LogName>(node: &Node<RawArena, J>) -> Result<Dump, Memory>
    ensures applied { IfOk result (λ dump.
        taken_by J.replicas node.now.known.view ≤ node.now.base + dump.applied) }
    ensures dump { IfOk result
        (IsDumpOf J.depth node.now.tables node.now.base (log_of J.replicas node.now)) }
{
    node.is_well_formed();
    node.dump()
}

/// Hands a pass what all these have seen.
pub(crate) fn hear_all<J: LogName>(
    log: &RingLog<J>,
    first: &mut LogPass<J>,
    passes: &mut [LogPass<J>],
)
    requires log { (first.old.log ≡ log.now) × All (λ pass. pass.log ≡ log.now) passes.old }
    ensures log { first.new.log ≡ first.old.log }
    ensures passes { passes.new ≡ passes.old }
    ensures heard { HasHeard J.depth J.replicas first.old.view first.new.view }
    ensures begins { All (λ pass. StartsWith first.new.view.seen pass.view.seen) passes.old }
{
    first.has_seen_a_history();
    for i in 0..passes.len() {
        log.meet(&mut passes[i], first);
    }
}

/// Adds the call numbers of the entries that a replica has still to take.
fn add_rest<J: LogName>(
    log: &RingLog<J>,
    pass: &mut LogPass<J>,
    calls: &mut Vec<u32>,
) -> Result<(), Memory>
    requires log { pass.old.log ≡ log.now }
    requires owner { (replica : ℕ) × (pass.old.view.owns ≡ replica ∷ []) }
    ensures log { pass.new.log ≡ pass.old.log }
    ensures heard { HasHeard J.depth J.replicas pass.old.view pass.new.view }
    ensures rest { OnOk result (calls.new.items ≡ calls.old.items
        ++ map (λ entry. entry.call) (drop (taken_by J.replicas pass.new.view)
        (log_after J.replicas pass.new.view.seen).entries)) }
{
    let mut entries = ArrayVec::new();
    log.fetch(pass, &mut entries);
    for entry in entries.as_slice() {
        calls.push(entry.call)?;
    }
    Ok(())
}

/// Hands passes what the first has seen. Each of them then sees no advance of its own replica there that it had not seen before.
fn tell_all<J: LogName>(log: &RingLog<J>, first: &mut LogPass<J>, others: &mut [LogPass<J>])
    requires log { (first.old.log ≡ log.now) × All (λ pass. pass.log ≡ log.now) others.old }
    requires begins { All (λ pass. StartsWith first.old.view.seen pass.view.seen) others.old }
    ensures first { first.new ≡ first.old }
    ensures count { length others.new ≡ length others.old }
    ensures log { All (λ pass. pass.log ≡ log.now) others.new }
    ensures owns { map (λ pass. pass.view.owns) others.new
        ≡ map (λ pass. pass.view.owns) others.old }
    ensures taken { All (HasSeenOwnAdvances first.old.view.seen) others.old }
{
    for i in 0..others.len() {
        log.meet(first, &mut others[i]);
    }
}

/// Hands passes what the first has seen, and gathers what they own. Each of them then sees no advance of its own replica there that it
/// had not seen before, and no two own the same replica.
fn gather_all<J: LogName>(log: &RingLog<J>, first: LogPass<J>, others: Vec<LogPass<J>>)
    requires log { (first.log ≡ log.now) × All (λ pass. pass.log ≡ log.now) others.items }
    requires begins { All (λ pass. StartsWith first.view.seen pass.view.seen) others.items }
    ensures taken { All (HasSeenOwnAdvances first.view.seen) others.items }
    ensures apart { AreApart first.view.owns (map (λ pass. pass.view.owns) others.items) }
{
    let mut first = first;
    let mut others = others;
    tell_all(log, &mut first, &mut others);
    hear_all(log, &mut first, &mut others);
    log.gather(first, others);
}
