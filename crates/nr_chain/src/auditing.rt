//! The audit of the bytes of a chain.

ghost use Rattle.std.specs.Prelude.{IfOk};
ghost use Rattle.nr_chain.specs.Headline.{IsRightChain};
ghost use Rattle.nr_chain.specs.Verdict.{IfYes, IsVerdictOfChain};

use crate::chain::{Chain, Step};
use crate::verdict::ChainVerdict;
use std::alloc::Global;
use vs_types::Memory;

/// Whether bytes are those of a right chain: `Yes` with the order of each segment where all are right. Else it is `No` with the
/// orders of the segments before the first that is wrong, and its first fault. That is one of the format, of what it says, or
/// `Truncated` where the bytes end inside it, or there are none.
///
/// Allocates the orders, one segment and the space, and what `judge_segment` takes.
///
/// # Errors
///
/// `Memory` where a growth of memory was refused.
pub fn audit_chain(alloc: Global, bytes: &[u8]) -> Result<ChainVerdict, Memory>
    ensures verdict { IfOk result (IsVerdictOfChain bytes.now) }
    ensures right { IfOk result (IfYes (IsRightChain bytes.now)) }
{
    let mut orders = Vec::new(alloc);
    let mut chain = Chain::new(alloc);
    let mut rest = bytes;
    'segments: while !rest.is_empty() {
        match chain.feed(alloc, rest, false)? {
            Step::More(next) => {
                chain = next;
                rest = &rest[rest.len()..];
            }
            Step::Right(count, order, _, next) => {
                orders.push(order)?;
                chain = next;
                rest = &rest[count..];
            }
            Step::Wrong(fault) => return Ok(ChainVerdict::No(orders, fault)),
        }
    }
    match chain.end() {
        None => Ok(ChainVerdict::Yes(orders)),
        Some(fault) => Ok(ChainVerdict::No(orders, fault)),
    }
}
