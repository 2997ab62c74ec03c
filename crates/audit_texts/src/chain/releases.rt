//! What shows a release that is wrong.

ghost use Rattle.std.specs.Prelude.{◌≡◌, IfOk, OnOk, string_bytes};
ghost use Rattle.nr_explain.specs.declared.chain.evidence.Leading.TheVariants as leadings;
ghost use Rattle.audit_texts.specs.Parts.{put_all};
ghost use Rattle.audit_texts.specs.ChainReleases.{answered_words, away_parts, away_words, leading_parts};
ghost use Rattle.audit_texts.specs.ChainReleases.{otherwise_sentence, reach_parts, reach_sentence, release_parts, release_sentence};
ghost use Rattle.audit_texts.specs.ChainReleases.{taken_parts, taken_words, why_parts};

use crate::chain::sentence::address_text;
use crate::lines::output::Output;
use crate::lines::parts::{Part, Says};
use crate::wording::answer::answer_text;
use nr_explain::{Leading, OpenUpdate, Reach, RecordedCall, RecordedReply, WhyWrong};
use std::alloc::{AllocError, Global};
use vs_types::Answer;

/// Puts a release and its reply.
#[tactic(auto, unfolding(crate::specs::ChainReleases::release_parts))]
fn put_call<O: Output>(
    out: &mut O,
    alloc: Global,
    call: RecordedCall,
    reply: Option<RecordedReply>,
) -> Result<(), AllocError>
    ensures { OnOk result (O.held out.new ≡ put_all (release_parts call reply) (O.held out.old)) }
{
    let parts = [
        Part::InJson("fault", Says::Text("Reachable")),
        Part::InBoth("call", Says::Call(call)),
        Part::InBoth("reply", Says::Own(reply)),
    ];
    out.put_all(alloc, &parts)
}

/// Puts the address from which its memory may be reached, and how many entries of the log an access of it may see.
#[tactic(auto, unfolding(crate::specs::ChainReleases::reach_parts))]
fn put_reach<O: Output>(out: &mut O, alloc: Global, reach: &Reach) -> Result<(), AllocError>
    ensures { OnOk result (O.held out.new ≡ put_all (reach_parts reach.now) (O.held out.old)) }
{
    let parts = [
        Part::Words("address "),
        Part::InBoth("address", Says::Address(reach.address)),
        Part::Words("\nentries seen at least: "),
        Part::InBoth("first", Says::Count(u64::from(reach.first))),
        Part::Words("\nentries seen at most: "),
        Part::InBoth("last", Says::Count(u64::from(reach.last))),
        Part::Words("\n"),
    ];
    out.put_all(alloc, &parts)
}

/// Puts when the address leads there, and how it looks then.
#[tactic(auto, unfolding(crate::specs::ChainReleases::leading_parts))]
fn put_leading<O: Output>(
    out: &mut O,
    alloc: Global,
    look: Answer,
    leading: Leading,
) -> Result<(), AllocError>
    ensures { OnOk result (O.held out.new
        ≡ put_all (leading_parts look leading) (O.held out.old)) }
{
    match leading {
        Leading::Within(entries, _) => {
            let parts = [
                Part::Words("after "),
                Part::InBoth("entries", Says::Count(u64::from(entries))),
                Part::Words(": "),
                Part::InBoth("look", Says::Answer(look)),
                Part::Words("\n"),
            ];
            out.put_all(alloc, &parts)
        }
        Leading::Earlier => {
            let parts = [
                Part::InJson("entries", Says::Nothing),
                Part::Words("before the segment: "),
                Part::InBoth("look", Says::Answer(look)),
                Part::Words("\n"),
            ];
            out.put_all(alloc, &parts)
        }
    }
}

/// Puts that an update of an earlier segment takes that away.
#[tactic(auto, unfolding(crate::specs::ChainReleases::taken_parts))]
fn put_taken_earlier<O: Output>(out: &mut O, alloc: Global) -> Result<(), AllocError>
    ensures { OnOk result (O.held out.new
        ≡ put_all (taken_parts leadings.Earlier) (O.held out.old)) }
{
    let parts = [
        Part::Words("taken away by: "),
        Part::InBoth("taken", Says::Text("an earlier segment")),
        Part::Words("\n"),
    ];
    out.put_all(alloc, &parts)
}

/// Puts the update that takes something away, or that none of the segment does.
#[tactic(auto, unfolding(crate::specs::ChainReleases::away_parts))]
fn put_away<O: Output>(
    out: &mut O,
    alloc: Global,
    taken: Option<OpenUpdate>,
) -> Result<(), AllocError>
    ensures { OnOk result (O.held out.new ≡ put_all (away_parts taken) (O.held out.old)) }
{
    match taken {
        Some(taken) => out.put_all(alloc, &[Part::InBoth("taken", Says::Taken(taken))]),
        None => {
            let parts = [
                Part::Words("taken away by: "),
                Part::InBoth("taken", Says::Nothing),
                Part::Words(" in this segment\n"),
            ];
            out.put_all(alloc, &parts)
        }
    }
}

/// Puts what takes that away: an update of its segment, nothing, or an update of an earlier segment.
#[tactic(auto, unfolding(crate::specs::ChainReleases::taken_parts))]
fn put_taken<O: Output>(out: &mut O, alloc: Global, leading: Leading) -> Result<(), AllocError>
    ensures { OnOk result (O.held out.new ≡ put_all (taken_parts leading) (O.held out.old)) }
{
    match leading {
        Leading::Within(_, taken) => put_away(out, alloc, taken),
        Leading::Earlier => put_taken_earlier(out, alloc),
    }
}

/// Puts a release, and why it is wrong.
#[tactic(auto, unfolding(crate::specs::ChainReleases::why_parts))]
pub(crate) fn put_why<O: Output>(
    out: &mut O,
    alloc: Global,
    call: RecordedCall,
    why: WhyWrong,
) -> Result<(), AllocError>
    ensures { OnOk result (O.held out.new ≡ put_all (why_parts call why) (O.held out.old)) }
{
    match why {
        WhyWrong::Otherwise(reply) => put_call(out, alloc, call, Some(reply)),
        WhyWrong::Reached(reply, reach) => {
            put_call(out, alloc, call, reply)?;
            put_reach(out, alloc, &reach)?;
            put_leading(out, alloc, reach.look, reach.leading)?;
            put_taken(out, alloc, reach.leading)
        }
    }
}

// ---- sentences

/// How an update is answered that takes away that an address leads somewhere.
#[tactic(auto, unfolding(crate::specs::ChainReleases::answered_words))]
fn answered_words(alloc: Global, reply: Option<RecordedReply>) -> Result<String, AllocError>
    ensures { IfOk result (λ text. string_bytes text ≡ answered_words reply) }
{
    match reply {
        None => String::from_str(alloc, "never answered"),
        Some(reply) => {
            let event = reply.event;
            format!(in alloc; "answered only at event {event}")
        }
    }
}

/// That an update takes it away, and how that is answered.
#[tactic(auto, unfolding(crate::specs::ChainReleases::away_words))]
fn away_words(alloc: Global, taken: OpenUpdate) -> Result<String, AllocError>
    ensures { IfOk result (λ text. string_bytes text ≡ away_words taken) }
{
    let call = taken.update.call.event;
    let answered = answered_words(alloc, taken.reply)?;
    format!(in alloc; "call {call} takes it from there, and is {answered}")
}

/// What takes away that an address leads somewhere.
#[tactic(auto, unfolding(crate::specs::ChainReleases::taken_words))]
fn taken_words(alloc: Global, leading: Leading) -> Result<String, AllocError>
    ensures { IfOk result (λ text. string_bytes text ≡ taken_words leading) }
{
    match leading {
        Leading::Within(_, None) => String::from_str(alloc, "no update takes it from there"),
        Leading::Within(_, Some(taken)) => away_words(alloc, taken),
        Leading::Earlier => String::from_str(
            alloc,
            "an update of an earlier segment took it from there, and was never answered",
        ),
    }
}

fn otherwise_sentence(
    alloc: Global,
    call: RecordedCall,
    reply: RecordedReply,
) -> Result<String, AllocError>
    ensures { IfOk result (λ text. string_bytes text ≡ otherwise_sentence call reply) }
{
    let event = call.event;
    let told = answer_text(alloc, reply.answer)?;
    format!(in alloc; "Release {event} was answered `{told}`, and not `done`.")
}

fn reach_sentence(alloc: Global, call: RecordedCall, reach: Reach) -> Result<String, AllocError>
    ensures { IfOk result (λ text. string_bytes text ≡ reach_sentence call reach) }
{
    let event = call.event;
    let at = address_text(alloc, reach.address)?;
    let taken = taken_words(alloc, reach.leading)?;
    format!(in alloc;
        "Release {event} gives memory away that an access of {at} may still reach: {taken}."
    )
}

/// The sentence of a release that is wrong.
#[tactic(auto, unfolding(crate::specs::ChainReleases::release_sentence))]
pub(crate) fn release_sentence(
    alloc: Global,
    call: RecordedCall,
    why: WhyWrong,
) -> Result<String, AllocError>
    ensures { IfOk result (λ text. string_bytes text ≡ release_sentence call why) }
{
    match why {
        WhyWrong::Otherwise(reply) => otherwise_sentence(alloc, call, reply),
        WhyWrong::Reached(_, reach) => reach_sentence(alloc, call, reach),
    }
}
