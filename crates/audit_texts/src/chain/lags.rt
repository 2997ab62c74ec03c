//! What shows a table that lags.

ghost use Rattle.std.specs.Prelude.{◌≡◌, OnOk};
ghost use Rattle.audit_texts.specs.Parts.{put_all};
ghost use Rattle.audit_texts.specs.ChainReleases.{known_parts, lag_parts, shown_parts};

use crate::lines::output::Output;
use crate::lines::parts::{Part, Says};
use nr_explain::{Lag, RecordedReply};
use std::alloc::{AllocError, Global};

/// Puts the reply that shows how many entries were known, if there is one.
#[tactic(auto, unfolding(crate::specs::ChainReleases::shown_parts))]
fn put_shown<O: Output>(
    out: &mut O,
    alloc: Global,
    shown: Option<RecordedReply>,
) -> Result<(), AllocError>
    ensures { OnOk result (O.held out.new ≡ put_all (shown_parts shown) (O.held out.old)) }
{
    match shown {
        Some(reply) => out.put_all(alloc, &[Part::InLines(Says::Reply(reply))]),
        None => out.put_all(alloc, &[]),
    }
}

/// Puts how many entries a replica had applied.
#[tactic(auto, unfolding(crate::specs::ChainReleases::known_parts))]
fn put_known<O: Output>(out: &mut O, alloc: Global, lag: Lag) -> Result<(), AllocError>
    ensures { OnOk result (O.held out.new ≡ put_all (known_parts lag) (O.held out.old)) }
{
    let parts = [
        Part::Words("entries its replica had applied: "),
        Part::InBoth("known", Says::Count(lag.known)),
        Part::Words("\n"),
        Part::InJson("shown", Says::Own(lag.shown)),
    ];
    out.put_all(alloc, &parts)
}

/// Puts how far the table of a touch's replica may lag, if that counts.
#[tactic(auto, unfolding(crate::specs::ChainReleases::lag_parts))]
pub(crate) fn put_lag<O: Output>(
    out: &mut O,
    alloc: Global,
    lag: Option<Lag>,
) -> Result<(), AllocError>
    ensures { OnOk result (O.held out.new ≡ put_all (lag_parts lag) (O.held out.old)) }
{
    match lag {
        Some(lag) => {
            put_known(out, alloc, lag)?;
            put_shown(out, alloc, lag.shown)
        }
        None => out.put_all(alloc, &[]),
    }
}
