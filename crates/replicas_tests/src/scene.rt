//! New replicas, on which a test makes its calls, and what is left of them.
ghost use Rattle.std.specs.Prelude.{◌≡◌, ◌≤◌, ◌+◌, All, [], length, replicate};
ghost use Rattle.vs_types.specs.declared.limits.TheConstants.{LOG_PLACES};
ghost use Rattle.nr_ring.specs.Pass.{new_pass};

use crate::caller::{Caller, Made};
use crate::ends_at_once::make_to_the_end;
use crate::gate::CountingGate;
use crate::held::hold;
use crate::steps::{Step, take_all};
use crate::threads::{Drawn, make_at_once};
use nr_replicas::{OpenReplicas, Replicas, ReplicasName, Signal};
use nr_ring::{LogName, LogPass};
use std::alloc::Global;
use std::marker::Brand;
use std::process::Abort;
use std::sync::Wait;
use std::thread::Threads;
use vs_types::Config;
use vs_walk::Dump;

/// The calls that a test makes on new replicas.
#[derive(Drop)]
pub enum Test<'s> {
    /// One after another, at a gate; and whether the settling is handed the passes.
    Steps(&'s [Step], &'s CountingGate, bool),
    /// A script for each thread, all at once.
    Scripts(Vec<Vec<Drawn>>),
    /// Updates of all threads at once to the end of the log.
    ToTheEnd,
    /// Steps of all threads at once, while the first is held at its gate, which then gives a signal.
    Hold(&'s [Step], Signal),
}

/// What is left of replicas.
#[derive(Drop)]
pub struct Settled {
    /// The call at each place of the log.
    pub calls: Vec<u32>,
    /// By replica.
    pub dumps: Vec<Dump>,
    /// What the calls of scripts were answered, by their numbers.
    pub made: Vec<Made>,
}

impl Settled {
    /// These calls are in the log, and the dumps have applied as many entries as these.
    pub fn assert(&self, rt: &impl Abort, calls: &[u32], applied: &[u32]) {
        assert_eq!(rt; self.calls.as_slice(), calls);
        for (dump, count) in self.dumps.iter().zip(applied.iter()) {
            assert_eq!(rt; dump.applied(), *count);
        }
    }
}

/// Makes new replicas, makes the calls of a test on them, and settles them.
pub fn run<R: Wait + Abort + Threads + Sync>(
    rt: &R,
    alloc: Global,
    config: Config,
    test: Test,
) -> Settled {
    run_on_log::<Brand, R>(rt, alloc, config, test)
}

/// The same, where the log has its name.
fn run_on_log<J: LogName + Send + Sync, R: Wait + Abort + Threads + Sync>(
    rt: &R,
    alloc: Global,
    config: Config,
    test: Test,
) -> Settled
    requires depth { config.depth ≡ J.depth }
    requires replicas { config.replicas ≡ J.replicas }
    requires passes { J.passes ≡ config.replicas + config.threads }
    requires places { J.places ≡ LOG_PLACES }
{
    let (new, passes) = OpenReplicas::<J>::new(alloc, config).expect(rt, "memory");
    run_named::<J, Brand, R>(rt, alloc, config, new, passes, test)
}

/// The same, where the replicas have their name.
fn run_named<
    J: LogName + Send + Sync,
    K: ReplicasName + Send + Sync,
    R: Wait + Abort + Threads + Sync,
>(
    rt: &R,
    alloc: Global,
    config: Config,
    new: OpenReplicas<J>,
    passes: Vec<LogPass<J>>,
    test: Test,
) -> Settled
    requires name { (new.log ≡ K.log) × (new.layout.tables ≡ K.tables) × (new.base ≡ K.base) }
    requires config { (new.layout ≡ config) × (config.depth ≡ J.depth) }
    requires passes { All (λ pass. pass.log ≡ K.log) passes.items }
{
    let replicas = new.named::<K>().expect(rt, "memory");
    let callers = callers_of(rt, alloc, &replicas, config, passes);
    let (callers, made) = make_calls(rt, alloc, callers, test);
    let mut passes = passes_of(rt, alloc, callers);
    let (calls, dumps) = replicas.settle(&mut passes).expect(rt, "memory");
    Settled { calls, dumps, made }
}

/// Makes the calls of a test. The callers whose passes the settling is handed, and what the calls of scripts were answered.
fn make_calls<
    'a,
    J: LogName + Send + Sync,
    K: ReplicasName + Send + Sync,
    R: Wait + Abort + Threads + Sync,
>(
    rt: &R,
    alloc: Global,
    callers: Vec<Caller<'a, J, K>>,
    test: Test,
) -> (Vec<Caller<'a, J, K>>, Vec<Made>) {
    let mut callers = callers;
    match test {
        Test::Steps(steps, gate, hands_passes) => {
            take_all(rt, &mut callers, steps, gate);
            if !hands_passes {
                callers.clear();
            }
            (callers, Vec::new(alloc))
        }
        Test::Scripts(scripts) => make_at_once(rt, alloc, callers, scripts),
        Test::ToTheEnd => make_to_the_end(rt, alloc, callers),
        Test::Hold(steps, then) => (hold(rt, callers, steps, then), Vec::new(alloc)),
    }
}

/// A caller for each thread.
pub fn callers_of<'a, J: LogName, K: ReplicasName>(
    rt: &impl Abort,
    alloc: Global,
    replicas: &'a Replicas<J, K>,
    config: Config,
    passes: Vec<LogPass<J>>,
) -> Vec<Caller<'a, J, K>>
    requires config { (replicas.now ≡ config) × (config.depth ≡ J.depth) }
    requires passes { All (λ pass. pass.log ≡ K.log) passes.items }
{
    let mut callers = Vec::new(alloc);
    for pass in passes {
        let thread = callers.len();
        assert!(rt; thread < usize::from(config.threads()));
        let caller = Caller::new(replicas, pass, thread as u16, config.depth());
        callers.push(caller).expect(rt, "memory");
    }
    callers
}

/// The passes of the callers.
pub fn passes_of<J: LogName, K: ReplicasName>(
    rt: &impl Abort,
    alloc: Global,
    callers: Vec<Caller<'_, J, K>>,
) -> Vec<LogPass<J>>
    ensures { All (λ pass. pass.log ≡ K.log) result.items }
{
    let mut passes = Vec::new(alloc);
    for caller in callers {
        passes.push(caller.into_pass()).expect(rt, "memory");
    }
    passes
}
