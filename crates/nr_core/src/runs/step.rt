//! The steps, and what a running thread does for each.

/// One step of one thread. It may name a replica or a thread that is not there; it is not enabled then.
#[derive(Clone, Copy, Debug, PartialEq, Eq)]
pub struct Step {
    /// The thread that steps.
    pub thread: u16,
    pub act: Act,
}

/// What a thread does in one step. Thread `t` belongs to replica `t` modulo the number of replicas.
#[derive(Clone, Copy, Debug, PartialEq, Eq)]
pub enum Act {
    /// It makes the next call of its script. In a running thread: the stamp of the call.
    Call,
    /// It puts its update into its slot. In a running thread: the store of the slot's word that says so.
    Post,
    /// It takes the lock of this replica. In a running thread: the beginning of a hold of the replica's lock in which nothing is read.
    /// It is that of a combiner, of a reader that catches up, or of a thread that found the ring full and has each replica catch up in
    /// turn. The hold under which an update is confirmed is no step.
    Take(u8),
    /// It takes the update from the slot of this thread into the batch of the replica whose lock it holds. In a running thread: the
    /// exchange of that slot's word for a busy one.
    Collect(u16),
    /// It appends the batch of the replica whose lock it holds to the log. In a running thread: the exchange of the log cell that succeeds.
    Append,
    /// It fetches the entries of the log that the replica whose lock it holds lacks, and raises that replica's local tail and the
    /// completed tail to the tail of just that moment. In a running thread: the exchange of the log cell that succeeds.
    Advance,
    /// It applies the first entry that is fetched and left at the replica whose lock it holds. In a running thread: within a hold of the
    /// replica's lock.
    Apply,
    /// It puts an answer of the replica whose lock it holds into the slot of this thread. In a running thread: the store of that slot's
    /// word that says so; a combiner keeps the answer of its own update, and no slot has it.
    Answer(u16),
    /// It gives the lock that it holds back. In a running thread: the end of a hold of the lock.
    Release,
    /// It notes the completed tail for its read. In a running thread: one load of the log cell. The look before an update is posted is
    /// no step.
    Look,
    /// It reads its replica. In a running thread: a whole hold of the replica's lock, in which the read is answered.
    Read,
    /// It ends its call. In a running thread: the stamp of the reply; an update's slot is emptied just before, by a poll, or by a combiner
    /// whose own update it is.
    Reply,
}
