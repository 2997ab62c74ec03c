//! The pass of the log: each place has an update, and no call is at two.

ghost use Rattle.std.specs.Prelude.{OnOk, IfOk, IfErr};
ghost use Rattle.vs_types.specs.Refusal.{IfRefused};
ghost use Rattle.nr_audit.specs.inside.Search.{HasNone, IsFirstAmong};
ghost use Rattle.nr_audit.specs.inside.Passes.{IsLogFault};
ghost use Rattle.nr_audit.specs.inside.Tables.{ArePlaces};

use crate::checks::tables::{MaybeIndex, empty_table};
use crate::histories::history::History;
use nr_trace::Fault;
use std::alloc::Global;
use vs_types::Fail;

/// Looks for a place that has what is no update, and one that has an update of an earlier place. Gives the place of each
/// call, and allocates memory for these: four bytes for each event.
pub(crate) fn check_log(alloc: Global, history: &History) -> Result<Vec<MaybeIndex>, Fail<Fault>>
    ensures table { IfOk result (λ places. ArePlaces history.now places.items) }
    ensures clean { OnOk result (HasNone IsLogFault history.now) }
    ensures first { IfErr result (IfRefused (IsFirstAmong IsLogFault history.now)) }
{
    let log = history.log();
    let mut places = empty_table(alloc, history.events().len())?;
    for (place, call) in log.iter().enumerate() {
        if !history.is_update(*call) {
            return Err(Fail::Refused(Fault::NotAnUpdate(place as u32)));
        }
        if places[*call as usize].get().is_some() {
            return Err(Fail::Refused(Fault::PlacedTwice(place as u32)));
        }
        places[*call as usize] = MaybeIndex::of(place as u32);
    }
    Ok(places)
}
