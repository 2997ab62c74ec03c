//! A replica as its threads share it.
use crate::fitting::Fitting;
use crate::local::Local;
use crate::name::ReplicasName;
use crossbeam_utils::CachePadded;
use nr_ring::LogName;
use nr_slots::Slots;
use std::sync::{Arc, Mutex};

/// A replica as its threads share it: its node under a lock, on cache lines of their own, and a slot for each of them. The slots are
/// those beside the node under the lock, so that whoever has the lock leaves answers in no others.
#[derive(Drop)]
pub(crate) struct Shared<J: LogName, K: ReplicasName> {
    pub(crate) local: CachePadded<Mutex<Local<J, K>>>,
    pub(crate) slots: Arc<Slots<Fitting<J>>>,
}
