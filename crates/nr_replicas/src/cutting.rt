//! A cut: what the replicas did since the last one, and they go on.
ghost use Rattle.std.specs.List.{AllZip};
ghost use Rattle.std.specs.Prelude.{◌≡◌, ◌+◌, ◌∷◌, true, All, IfOk, IfSome, OnOk, length, map};
ghost use Rattle.nr_ring.specs.View.{StartsWith};
ghost use Rattle.nr_node.specs.Node.{taken_by};
ghost use Rattle.nr_replicas.specs.Replicas.{HasHeard};
ghost use Rattle.nr_replicas.specs.Settled.{IsCut};
ghost use Rattle.nr_replicas.specs.inside.Replicas.{IsNodeOf};
ghost use Rattle.nr_replicas.specs.inside.Settling.{AreDumpsOf, HaveMet, IsDone, WasTold, forgotten};

use crate::name::ReplicasName;
use crate::opened::OpenReplicas;
use crate::replicas::Replicas;
use crate::settling::{calls_of, dump_of, hear_all, nodes_of};
use crate::shared::Shared;
use arrayvec::ArrayVec;
use nr_node::{Held, Node};
use nr_ring::{LogName, LogPass, RingLog};
use std::alloc::Global;
use vs_arena::RawArena;
use vs_types::{Fail, Memory};
use vs_walk::Dump;

/// A call is open: an update has no answer yet, or its thread has not taken it; or a replica has not taken all entries.
#[derive(Clone, Copy, Debug, PartialEq, Eq)]
pub struct Open;

/// What a cut gives.
#[derive(Drop)]
pub struct Cut<J: LogName> {
    /// The call numbers of the entries since the last cut, by place.
    pub calls: Vec<u32>,
    /// A dump of each replica after all entries, with how many of them came since the last cut.
    pub dumps: Vec<Dump>,
    /// The replicas, which go on from here once they have a name again.
    pub replicas: OpenReplicas<J>,
}

impl<J: LogName, K: ReplicasName> Replicas<J, K> {
    /// Cuts the log at its end, where no call is open. Gives the call numbers of the entries since the last cut, a dump of each replica after
    /// all entries, and the replicas, which keep none of these entries any more. Each of these passes has then seen the whole log.
    ///
    /// New slots come with the next name, so that no answer of before is given after the cut, and call numbers may begin at 0 again.
    /// It waits for nobody. It allocates memory for the nodes, the calls and the dumps.
    ///
    /// # Errors
    ///
    /// `Open` if an update was ended or stopped before it had its answer, if some replica could not take all entries, or if no pass is
    /// given: `settle` is for that. Out of memory. The replicas are given up then too.
    pub fn cut(self, passes: &mut [LogPass<J>]) -> Result<Cut<J>, Fail<Open>>
        requires { All (λ pass. pass.log ≡ K.log) passes.old }
        ensures opened { IfOk result (λ cut. (cut.replicas.log ≡ K.log)
            × (cut.replicas.layout ≡ self)
            × (cut.replicas.base ≡ K.base + length cut.calls.items)) }
        ensures cut { IfOk result (λ cut. IsCut J.depth J.replicas J.places K.tables K.base
            passes.old passes.new cut.calls.items cut.dumps.items) }
        ensures log { All (λ pass. pass.log ≡ K.log) passes.new }
        ensures heard { OnOk result (AllZip (λ before after.
            HasHeard J.depth J.replicas before.view after.view) passes.old passes.new) }
    {
        let Replicas {
            log,
            config,
            shared,
            alloc,
        } = self;
        if !are_empty(&shared) {
            return Err(Fail::Refused(Open));
        }
        let mut nodes = nodes_of(alloc, shared)?;
        let Some(base) = meet::<J, K>(&log, &mut nodes, passes) else {
            return Err(Fail::Refused(Open));
        };
        if !are_done(&nodes, base) {
            return Err(Fail::Refused(Open));
        }
        let calls = calls_of(alloc, &nodes[0])?;
        let dumps = dumps_of::<J, K>(alloc, &nodes)?;
        forget_all(&mut nodes);
        let replicas = OpenReplicas {
            log,
            config,
            nodes,
            base,
            alloc,
        };
        Ok(Cut {
            calls,
            dumps,
            replicas,
        })
    }
}

/// Whether all slots of all replicas are empty.
fn are_empty<J: LogName, K: ReplicasName>(shared: &[Shared<J, K>]) -> bool {
    for replica in shared {
        if !replica.slots.are_empty() {
            return false;
        }
    }
    true
}

/// Has all nodes catch up, and then hands these passes what all nodes and passes have seen: how many entries the log then has. `None` where
/// there is no pass.
fn meet<J: LogName, K: ReplicasName>(
    log: &RingLog<J>,
    nodes: &mut [Node<RawArena, J>],
    passes: &mut [LogPass<J>],
) -> Option<u64>
    requires log { log.now ≡ K.log }
    requires nodes { All (IsNodeOf K.log K.tables K.base) nodes.old }
    requires passes { All (λ pass. pass.log ≡ K.log) passes.old }
    ensures count { length nodes.new ≡ length nodes.old }
    ensures nodes { All (IsNodeOf K.log K.tables K.base) nodes.new }
    ensures log { All (λ pass. pass.log ≡ K.log) passes.new }
    ensures met { IfSome result (λ count. HaveMet J.depth J.replicas J.places count
        nodes.new passes.old passes.new) }
{
    catch_up_all::<J, K>(log, nodes);
    let (first, others) = passes.split_first_mut()?;
    let count = meet_passes(log, nodes, first, others);
    Some(count)
}

/// Hands passes what all nodes and passes have seen: how many entries the log then has.
fn meet_passes<J: LogName>(
    log: &RingLog<J>,
    nodes: &mut [Node<RawArena, J>],
    first: &mut LogPass<J>,
    others: &mut [LogPass<J>],
) -> u64
    requires log { (first.old.log ≡ log.now) × All (λ pass. pass.log ≡ log.now) others.old }
    requires nodes { All (λ node. node.known.log ≡ log.now) nodes.old }
    ensures nodes { nodes.new ≡ nodes.old }
    ensures log { (first.new.log ≡ log.now) × All (λ pass. pass.log ≡ log.now) others.new }
    ensures met { HaveMet J.depth J.replicas J.places result
        nodes.old (first.old ∷ others.old) (first.new ∷ others.new) }
{
    hear_nodes(log, first, nodes);
    hear_all(log, first, others);
    let tails = log.look(first);
    first.has_seen_a_history();
    tell_each(log, first, others);
    tails.tail
}

/// Has all nodes catch up that hold nothing and have room.
fn catch_up_all<J: LogName, K: ReplicasName>(log: &RingLog<J>, nodes: &mut [Node<RawArena, J>])
    requires log { log.now ≡ K.log }
    requires nodes { All (IsNodeOf K.log K.tables K.base) nodes.old }
    ensures count { length nodes.new ≡ length nodes.old }
    ensures nodes { All (IsNodeOf K.log K.tables K.base) nodes.new }
{
    for i in 0..nodes.len() {
        catch_up_one::<J, K>(log, &mut nodes[i]);
    }
}

/// Has a node catch up, where it holds nothing and has room.
fn catch_up_one<J: LogName, K: ReplicasName>(log: &RingLog<J>, node: &mut Node<RawArena, J>)
    requires log { log.now ≡ K.log }
    requires node { IsNodeOf K.log K.tables K.base node.old }
    ensures { IsNodeOf K.log K.tables K.base node.new }
{
    if node.held() == Held::Nothing && node.has_room_to_take() {
        let mut answers = ArrayVec::new();
        let _moved = node.catch_up(log, &mut answers);
    }
}

/// Hands a pass what all nodes have seen.
fn hear_nodes<J: LogName>(log: &RingLog<J>, first: &mut LogPass<J>, nodes: &mut [Node<RawArena, J>])
    requires log { (first.old.log ≡ log.now)
        × All (λ node. node.known.log ≡ log.now) nodes.old }
    ensures log { first.new.log ≡ first.old.log }
    ensures nodes { nodes.new ≡ nodes.old }
    ensures heard { HasHeard J.depth J.replicas first.old.view first.new.view }
    ensures begins { All (λ node. StartsWith first.new.view.seen node.known.view.seen) nodes.old }
{
    first.has_seen_a_history();
    for i in 0..nodes.len() {
        nodes[i].tell(log, first);
    }
}

/// Hands passes what the first has seen, which is all that they had seen.
fn tell_each<J: LogName>(log: &RingLog<J>, first: &mut LogPass<J>, others: &mut [LogPass<J>])
    requires log { (first.old.log ≡ log.now) × All (λ pass. pass.log ≡ log.now) others.old }
    ensures first { first.new ≡ first.old }
    ensures log { All (λ pass. pass.log ≡ log.now) others.new }
    ensures told { AllZip (WasTold J.depth J.replicas first.old.view.seen) others.old others.new }
{
    for i in 0..others.len() {
        log.meet(first, &mut others[i]);
    }
}

/// Whether each node holds nothing, and has applied so many entries, all of which its replica has taken.
fn are_done<J: LogName>(nodes: &[Node<RawArena, J>], count: u64) -> bool
    ensures { result ≡ true → All (IsDone J.replicas count) nodes.now }
{
    for node in nodes {
        if !is_done(node, count) {
            return false;
        }
    }
    true
}

/// Whether a node holds nothing, and has applied so many entries, all of which its replica has taken.
fn is_done<J: LogName>(node: &Node<RawArena, J>, count: u64) -> bool
    ensures { result ≡ true → IsDone J.replicas count node.now }
{
    match node.held() {
        Held::Nothing => node.applied() == count && node.ahead() == 0,
        _ => false,
    }
}

/// A dump of each node.
fn dumps_of<J: LogName, K: ReplicasName>(
    alloc: Global,
    nodes: &[Node<RawArena, J>],
) -> Result<Vec<Dump>, Memory>
    requires { All (IsNodeOf K.log K.tables K.base) nodes.now }
    ensures count { IfOk result (λ dumps. length dumps.items ≡ length nodes.now) }
    ensures dumps { IfOk result (λ dumps. AreDumpsOf J.depth J.replicas K.tables K.base
        (map (λ node. node.known) nodes.now) dumps.items) }
{
    let mut dumps = Vec::new(alloc);
    for node in nodes {
        let dump = dump_of(node)?;
        dumps.push(dump)?;
    }
    Ok(dumps)
}

/// Has each node keep none of the entries any more that it has applied, all of which its replica has taken.
fn forget_all<J: LogName>(nodes: &mut [Node<RawArena, J>])
    requires { All (λ node. taken_by J.replicas node.known.view ≡ node.applied)
        nodes.old }
    ensures { nodes.new ≡ map forgotten nodes.old }
{
    for i in 0..nodes.len() {
        nodes[i].forget();
    }
}
