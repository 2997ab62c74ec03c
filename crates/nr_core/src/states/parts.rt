//! What is stored of a thread and of a replica.
use crate::states::stage::{Collected, Stage};
use crate::states::table::Table;
use vs_types::Request;

/// A thread of the protocol.
#[derive(Drop)]
pub(crate) struct ThreadState {
    pub(crate) script: Vec<Request>,
    /// How many requests of the script are made.
    pub(crate) made: usize,
    pub(crate) stage: Stage,
    /// The replica whose lock it holds.
    pub(crate) holds: Option<u8>,
}

/// A replica of the protocol.
#[derive(Drop)]
pub(crate) struct ReplicaState {
    pub(crate) marks: Marks,
    /// At most 16 updates.
    pub(crate) batch: Vec<Collected>,
    pub(crate) table: Table,
}

/// How far a replica has come.
#[derive(Clone, Copy)]
pub(crate) struct Marks {
    /// The thread that holds its lock.
    pub(crate) holder: Option<u16>,
    /// Whether its batch is in the log.
    pub(crate) placed: bool,
    /// Its local tail: how many entries of the log it has fetched.
    pub(crate) local: u32,
    /// How many of these it has applied.
    pub(crate) applied: u32,
}
