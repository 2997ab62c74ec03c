//! How much a right chain has.

ghost use Rattle.std.specs.Prelude.{◌≡◌, IfOk, map, string_bytes};
ghost use Rattle.serde_json.specs.View.{view};
ghost use Rattle.audit_texts.specs.Parts.{part_of};
ghost use Rattle.audit_texts.specs.ChainEvidence.{chain_counts_data, chain_counts_lines, chain_counts_parts};

use crate::json::part_json::parts_value;
use crate::lines::part_text::parts_text;
use crate::lines::parts::{Part, Says};
use nr_explain::ChainCounts;
use serde_json::Value;
use std::alloc::{AllocError, Global};

#[tactic(auto, unfolding(crate::specs::ChainEvidence::chain_counts_parts))]
fn chain_counts_parts<'a>(counts: ChainCounts) -> [Part<'a>; 29]
    ensures { map part_of result ≡ chain_counts_parts counts }
{
    [
        Part::Words("calls: "),
        Part::InBoth("calls", Says::Count(counts.calls)),
        Part::Words("\nupdates: "),
        Part::InBoth("updates", Says::Count(counts.updates)),
        Part::Words("\nreads: "),
        Part::InBoth("reads", Says::Count(counts.reads)),
        Part::Words("\ntouches: "),
        Part::InBoth("touches", Says::Count(counts.touches)),
        Part::Words("\nreleases: "),
        Part::InBoth("releases", Says::Count(counts.releases)),
        Part::Words("\ndumps: "),
        Part::InBoth("dumps", Says::Count(counts.dumps)),
        Part::Words("\nreplicas: "),
        Part::InBoth("replicas", Says::Count(u64::from(counts.replicas))),
        Part::Words("\npages: "),
        Part::InBoth("pages", Says::Count(counts.pages)),
        Part::Words("\noverlapping calls: "),
        Part::InBoth("overlapping", Says::Count(counts.overlapping)),
        Part::Words("\ntouches beside an update: "),
        Part::InBoth("beside", Says::Count(counts.beside)),
        Part::Words("\ntouches right since an update was open: "),
        Part::InBoth("open", Says::Count(counts.since_open)),
        Part::Words("\nfaults by kept rights: "),
        Part::InBoth("kept", Says::Count(counts.since_kept)),
        Part::Words("\nfaults by a lagging table: "),
        Part::InBoth("lagging", Says::Count(counts.since_lagging)),
        Part::Words("\nmost of these by one thread at one address: "),
        Part::InBoth("repeated", Says::Count(counts.repeated)),
        Part::Words("\n"),
    ]
}

/// The lines of how much a right chain has.
pub(crate) fn chain_counts_lines(alloc: Global, counts: ChainCounts) -> Result<String, AllocError>
    ensures { IfOk result (λ text. string_bytes text ≡ chain_counts_lines counts) }
{
    parts_text(alloc, &chain_counts_parts(counts))
}

/// How much a right chain has, as JSON.
pub(crate) fn chain_counts_value(alloc: Global, counts: ChainCounts) -> Result<Value, AllocError>
    ensures { IfOk result (λ value. view value ≡ chain_counts_data counts) }
{
    parts_value(alloc, &chain_counts_parts(counts))
}
