//! The batches of a log.
ghost use Rattle.std.specs.Prelude.{◌<◌};

use crate::caller::Made;
use crate::scene::Settled;
use std::process::Abort;
use vs_types::Config;

/// How many entries of a log are a replica's, and in how many batches they are at least: in one batch the threads rise, and no other
/// entry is between them. Each thread has made so many calls, numbered from the first thread's on.
fn entries_of(calls: &[u32], each: u32, replicas: u32, replica: u32) -> (u32, u32)
    requires each { 0 < each }
    requires replicas { 0 < replicas }
{
    let mut entries = 0u32;
    let mut batches = 0u32;
    let mut last = None;
    for call in calls {
        let thread = *call / each;
        if thread % replicas != replica {
            last = None;
            continue;
        }
        entries = entries.wrapping_add(1);
        if !matches!(last, Some(last) if last < thread) {
            batches = batches.wrapping_add(1);
        }
        last = Some(thread);
    }
    (entries, batches)
}

/// How many batches the threads of a replica appended.
fn batches_by(made: &[Made], each: u32, replicas: u32, replica: u32) -> u32
    requires each { 0 < each }
    requires replicas { 0 < replicas }
{
    let mut batches = 0u32;
    let mut call = 0u32;
    for made in made {
        if call / each % replicas == replica {
            batches = batches.wrapping_add(made.batches);
        }
        call = call.wrapping_add(1);
    }
    batches
}

/// The gate was asked once after each batch: for each replica as often as its entries can be batches, each of one entry or more, and
/// of each thread one at most, by rising thread. Each thread has made so many calls, numbered from the first thread's on.
pub fn assert_batches(rt: &impl Abort, config: Config, settled: &Settled, each: u32) {
    let replicas = u32::from(config.replicas());
    assert!(rt; each > 0 && replicas > 0);
    for replica in 0..replicas {
        let (entries, least) = entries_of(&settled.calls, each, replicas, replica);
        let batches = batches_by(&settled.made, each, replicas, replica);
        assert!(rt;
            least <= batches && batches <= entries,
            "replica {replica}: {batches} batches for {entries} entries, at least {least}"
        );
    }
}
