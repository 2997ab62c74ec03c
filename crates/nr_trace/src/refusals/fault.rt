//! What can be wrong with bytes, and with the trace that they spell.

/// What keeps bytes from spelling a trace: the first such thing in byte order.
#[derive(Clone, Copy, Debug, PartialEq, Eq)]
pub enum Format {
    /// The bytes end before the trace does.
    Truncated,
    /// They do not begin with `NRVT`.
    BadMagic,
    /// The version is none that there is.
    BadVersion,
    /// A number of levels, replicas, threads, tables, places, events or frames is out of its range.
    BadCount,
    /// The segment is not laid out as the one before it.
    BadChain,
    /// In the start the number of the frame of this index does not rise, or is out of its range.
    BadStart(u32),
    /// The event of this index is none, or is out of its range.
    BadEvent(u32),
    /// In the dump of this replica the number of the frame of this index does not rise, or is out of its range.
    BadFrame(u8, u32),
    /// Bytes come after the trace.
    Trailing,
}

/// What is wrong with a recorded run, a trace or a segment. Calls and events are named by index, places by number, frames by number, and
/// words by index in their frame. The number of a fault is its place here, from 1 on; only a segment has those from `StartMissing` on.
#[derive(Clone, Copy, Debug, PartialEq, Eq)]
pub enum Fault {
    /// The bytes spell no trace.
    Format(Format),
    /// The event is a call of a thread whose earlier call has no reply yet.
    ThreadOpen(u32),
    /// The event is a reply to what is no earlier call.
    NoSuchCall(u32),
    /// The event is a reply to a call that has one already.
    AnsweredTwice(u32),
    /// The log has at this place what is no update.
    NotAnUpdate(u32),
    /// The log has at this place an update that is at an earlier one.
    PlacedTwice(u32),
    /// The event is a reply that gives an update another place than its own.
    NotPlaced(u32),
    /// The event is a reply to a read that gives more entries than the log has.
    PastLog(u32),
    /// The call is in the order before one that was answered before it was made.
    Early(u32),
    /// The call's answer is not that of the space there.
    WrongAnswer(u32),
    /// The replica's dump has taken more entries than the log has.
    PrefixPastLog(u8),
    /// The replica's dump has taken fewer entries than an answer given there depends on.
    PrefixShort(u8),
    /// The replica's dump lacks this frame.
    MissingFrame(u8, u64),
    /// The tables of the replica's dump lead to this frame twice.
    SharedFrame(u8, u64),
    /// In the replica's dump the word of this frame at this index has a reserved bit set.
    ReservedBit(u8, u64, u16),
    /// The tables of the replica's dump do not lead to this frame, the least such one.
    StrayFrame(u8, u64),
    /// The replica's dump translates this address, the least such one, not as the space does.
    Differs(u8, u64),
    /// The tables of the start lead to this frame, which the start does not have.
    StartMissing(u64),
    /// The tables of the start lead to this frame twice.
    StartShared(u64),
    /// In the start the word of this frame at this index, from 0 to 511, has a reserved bit set.
    StartReserved(u64, u16),
    /// The tables do not lead to this frame of the start, the least such one.
    StartStray(u64),
    /// The page of the start at this base, the least such one, ends above the physical addresses that a page may have.
    StartBeyond(u64),
    /// The start translates this canonical address, the least such one, otherwise than the space after the segment before.
    StartDiffers(u64),
    /// This touch, the first such one, is answered as its address was at no moment that was still allowed.
    Stale(u32),
    /// This release, the first such one, gives memory away that an access which begins then could reach; or it is answered otherwise than
    /// by `Done`.
    Reachable(u32),
}
