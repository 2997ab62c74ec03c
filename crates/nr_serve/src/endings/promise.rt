//! What a thread promises.
ghost use Rattle.std.specs.Prelude.{◌≡◌};

use crate::threading::job::Job;
use crate::threading::worker::Worker;
use nr_replicas::ReplicasName;
use nr_ring::LogName;
use std::marker::PhantomData;
use std::snapshot::Snapshot;
use std::thread::Promise;

/// A thread that was given this job hands back what the job asks, on the replicas that are named.
#[derive(Drop)]
pub(crate) struct Finished<J: LogName, K: ReplicasName> {
    pub(crate) job: Snapshot<Job<J>>,
    of: PhantomData<K>,
}

impl<J: LogName, K: ReplicasName> Finished<J, K> {
    pub(crate) fn of(job: &Job<J>) -> Finished<J, K>
        ensures { result.job.value ≡ job.now }
    {
        Finished {
            job: Snapshot::of(job),
            of: PhantomData,
        }
    }
}

impl<J: LogName, K: ReplicasName> Promise<Worker<J>> for Finished<J, K> {
    ghost use Rattle.nr_serve.specs.inside.Calls.{since};
    ghost use Rattle.nr_serve.specs.inside.Working.{IsDone};

    ghost kept_by = { λ promise worker.
        IsDone promise.job.value.pen.clock (since K.log K.base) promise.job.value worker };
}
