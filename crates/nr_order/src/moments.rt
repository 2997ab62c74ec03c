//! The events of some calls, one after another.

use crate::calls::{NEVER, Orderable, short};
use std::alloc::Global;
use vs_types::Memory;

/// A call that is made or answered. The order is that of the fields.
#[derive(Clone, Copy, Debug, PartialEq, Eq, PartialOrd, Ord)]
pub(crate) struct Moment {
    event: u32,
    /// The index of the call among the calls.
    pub(crate) call: u32,
    pub(crate) is_reply: bool,
}

/// Those of some calls, by rising event. Allocates memory for them.
pub(crate) fn list_moments(alloc: Global, calls: &[Orderable]) -> Result<Vec<Moment>, Memory> {
    let mut moments = Vec::new(alloc);
    for (index, call) in calls.iter().enumerate() {
        moments.push(Moment {
            event: call.made,
            call: short(index),
            is_reply: false,
        })?;
        if call.answered != NEVER {
            moments.push(Moment {
                event: call.answered,
                call: short(index),
                is_reply: true,
            })?;
        }
    }
    moments.sort_unstable();
    Ok(moments)
}
