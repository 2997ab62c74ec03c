//! Replicas whose log has no name yet.
ghost use Rattle.std.specs.Arc.{arc_value};
ghost use Rattle.std.specs.Prelude.{◌≡◌, ◌+◌, ◌<◌, ◌≤◌, All, IfOk, [], length, map, replicate};
ghost use Rattle.vs_types.specs.declared.limits.TheConstants.{LOG_PLACES, REPLICAS};
ghost use Rattle.nr_ring.specs.Pass.{new_pass};
ghost use Rattle.nr_ring.specs.declared.cells.words.TheConstants.{MOST_PLACES};
ghost use Rattle.nr_replicas.specs.inside.Replicas.{IsNewPass, IsNodeOf, slots_each};

use crate::local::Local;
use crate::name::ReplicasName;
use crate::replicas::Replicas;
use crate::shared::Shared;
use crossbeam_utils::CachePadded;
use nr_node::Node;
use nr_ring::{LogName, LogPass, RingLog};
use nr_slots::Slots;
use std::alloc::Global;
use std::marker::Model;
use std::sync::{Arc, Mutex};
use vs_arena::RawArena;
use vs_types::{Config, Fail, LOG_PLACES, Memory, TABLES};

/// The frame number of the first table that a replica may have: the frames of tables begin at physical 2^51, and each replica has
/// 4,096 of them.
const FIRST_FRAME: u64 = 1 << 39;

/// Replicas and their log, which has no name yet, or none any more after a cut. Contracts see which log it is, the configuration, and the
/// place at which the last cut ended.
#[derive(Drop)]
pub struct OpenReplicas<J: LogName> {
    pub(crate) log: RingLog<J>,
    pub(crate) config: Config,
    pub(crate) nodes: Vec<Node<RawArena, J>>,
    pub(crate) base: u64,
    pub(crate) alloc: Global,
}

impl<J: LogName> Model for OpenReplicas<J> {
    ghost use Rattle.std.specs.Prelude.{◌≡◌, ◌≤◌};
    ghost use Rattle.vs_types.specs.declared.limits.TheConstants.{LOG_PLACES};
    ghost use Rattle.nr_replicas.specs.Replicas.{OpenState};
    ghost use Rattle.nr_replicas.specs.inside.Replicas.{AreNodes};

    ghost Value = { OpenState };

    ghost view = { λ o. record { log = o.log; layout = o.config; base = o.base } };

    ghost invariant = { λ o. AreNodes J.depth J.replicas o.log o.config o.base o.nodes.items
        × (LOG_PLACES ≤ J.places) };
}

impl<J: LogName> OpenReplicas<J> {
    /// The replicas of a configuration with a new log, and a pass for each thread. The log's name has the depth, the replicas
    /// as many passes as there are replicas and threads, and 65,536 places. It allocates the memory of all replicas, but for their slots.
    ///
    /// # Errors
    ///
    /// Out of memory.
    pub fn new(alloc: Global, config: Config) -> Result<(OpenReplicas<J>, Vec<LogPass<J>>), Memory>
        requires depth { config.depth ≡ J.depth }
        requires replicas { config.replicas ≡ J.replicas }
        requires passes { J.passes ≡ config.replicas + config.threads }
        requires places { J.places ≡ LOG_PLACES }
        ensures layout { IfOk result (λ made. made.0.layout ≡ config) }
        ensures base { IfOk result (λ made. made.0.base ≡ 0) }
        ensures passes { IfOk result (λ made.
            made.1.items ≡ replicate config.threads (new_pass made.0.log [])) }
    {
        OpenReplicas::with_places(alloc, config, u64::from(LOG_PLACES))
    }

    /// The replicas of a configuration with a new log of so many places, from 65,536 to 15 times 2^30, and a pass for each thread; else
    /// as `new`. Its memory is the same whatever the number of places: each replica keeps 65,568 entries at most, those since the
    /// last cut.
    ///
    /// # Errors
    ///
    /// Out of memory.
    pub fn with_places(
        alloc: Global,
        config: Config,
        places: u64,
    ) -> Result<(OpenReplicas<J>, Vec<LogPass<J>>), Memory>
        requires depth { config.depth ≡ J.depth }
        requires replicas { config.replicas ≡ J.replicas }
        requires passes { J.passes ≡ config.replicas + config.threads }
        requires places { (places ≡ J.places) × (LOG_PLACES ≤ places) × (places ≤ MOST_PLACES) }
        ensures layout { IfOk result (λ made. made.0.layout ≡ config) }
        ensures base { IfOk result (λ made. made.0.base ≡ 0) }
        ensures passes { IfOk result (λ made.
            made.1.items ≡ replicate config.threads (new_pass made.0.log [])) }
    {
        let replicas = config.replicas();
        let (log, mut passes) = RingLog::with_places(
            alloc,
            config.depth(),
            replicas,
            config.threads() as u8,
            places,
        )?;
        let others = passes.split_off(usize::from(replicas))?;
        let nodes = new_nodes(alloc, config, &log, passes)?;
        let opened = OpenReplicas {
            log,
            config,
            nodes,
            base: 0,
            alloc,
        };
        Ok((opened, others))
    }

    /// The place at which the last cut ended: how many entries the log had then. 0 if there was none.
    pub fn base(&self) -> u64
        ensures { result ≡ self.now.base }
    {
        self.base
    }

    /// The replicas, when their log has its name. It allocates the memory of the slots.
    ///
    /// # Errors
    ///
    /// Out of memory.
    pub fn named<K: ReplicasName>(self) -> Result<Replicas<J, K>, Memory>
        requires log { self.log ≡ K.log }
        requires tables { self.layout.tables ≡ K.tables }
        requires base { self.base ≡ K.base }
        ensures { IfOk result (λ replicas. replicas ≡ self.layout) }
    {
        let OpenReplicas {
            log,
            config,
            nodes,
            base: _,
            alloc,
        } = self;
        let shared = share(alloc, config, nodes)?;
        Ok(Replicas {
            log,
            config,
            shared,
            alloc,
        })
    }
}

/// The node of a replica, whose frames are numbered from `FIRST_FRAME + 4096 * replica` on.
fn new_node<J: LogName>(
    alloc: Global,
    config: Config,
    replica: u64,
    pass: LogPass<J>,
) -> Result<Node<RawArena, J>, Memory>
    requires depth { config.depth ≡ J.depth }
    requires few { replica < REPLICAS }
    requires pass { IsNewPass pass.log pass }
    ensures log { IfOk result (λ node. node.known.log ≡ pass.log) }
    ensures tables { IfOk result (λ node. node.tables ≡ config.tables) }
    ensures base { IfOk result (λ node. node.base ≡ 0) }
    ensures idle { IfOk result (λ node. node.batch ≡ []) }
{
    let tables = usize::from(config.tables());
    let store = RawArena::new(alloc, FIRST_FRAME + u64::from(TABLES) * replica, tables)?;
    match Node::new(alloc, store, pass, config.depth()) {
        Ok(node) => Ok(node),
        Err(Fail::Memory) => Err(Memory),
        Err(Fail::Refused(_)) => unreachable!(),
    }
}

/// The nodes of new replicas, each with its pass.
fn new_nodes<J: LogName>(
    alloc: Global,
    config: Config,
    log: &RingLog<J>,
    passes: Vec<LogPass<J>>,
) -> Result<Vec<Node<RawArena, J>>, Memory>
    requires depth { config.depth ≡ J.depth }
    requires few { length passes.items ≤ 4 }
    requires passes { All (IsNewPass log.now) passes.items }
    ensures count { IfOk result (λ nodes. length nodes.items ≡ length passes.items) }
    ensures each { IfOk result (λ nodes. All (IsNodeOf log.now config.tables 0) nodes.items) }
    ensures idle { IfOk result (λ nodes. All (λ node. node.batch ≡ []) nodes.items) }
{
    let mut nodes = Vec::new(alloc);
    for pass in passes {
        let replica = nodes.len() as u64;
        let node = new_node(alloc, config, replica, pass)?;
        nodes.push(node)?;
    }
    Ok(nodes)
}

/// How many slots each replica has.
fn slots_of(config: Config) -> u16
    ensures { result ≡ slots_each config }
{
    let replicas = u16::from(config.replicas());
    (config.threads() + (replicas - 1)) / replicas
}

/// The nodes, each under a lock and with a slot for each of its threads.
fn share<J: LogName, K: ReplicasName>(
    alloc: Global,
    config: Config,
    nodes: Vec<Node<RawArena, J>>,
) -> Result<Vec<Shared<J, K>>, Memory>
    requires nodes { All (IsNodeOf K.log K.tables K.base) nodes.items }
    requires places { LOG_PLACES ≤ J.places }
    ensures count { IfOk result (λ shared. length shared.items ≡ length nodes.items) }
    ensures slots { IfOk result (λ shared.
        All (λ n. n ≡ slots_each config) (map (λ s. arc_value s.slots) shared.items)) }
{
    let mut shared = Vec::new(alloc);
    for node in nodes {
        let slots = Arc::new(alloc, Slots::new(alloc, slots_of(config))?)?;
        let local = Local::new(node, Arc::try_clone(&slots)?);
        shared.push(Shared {
            local: CachePadded::new(Mutex::new(local)),
            slots,
        })?;
    }
    Ok(shared)
}
