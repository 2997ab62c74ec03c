//! What gave an address its look that no update of a segment changed.

ghost use Rattle.std.specs.Prelude.{◌≡◌, ◌↔◌, IsTrue, option_map};
ghost use Rattle.nr_audit.specs.Start.{first_space};
ghost use Rattle.nr_explain.specs.ChainFacts.{IsOrigin};
ghost use Rattle.nr_explain.specs.inside.Reading.{all_states, began_seen, space_seen};

use crate::chain::evidence::Origin;
use crate::chain::progress::Progress;
use nr_trace::Trace;
use vs_plain::PlainSpace;
use vs_types::Answer;

pub(crate) fn is_same(left: Answer, right: Answer) -> bool
    ensures { IsTrue result ↔ (left ≡ right) }
{
    left == right
}

/// Whether an address looks in a space as where the chain begins, in the space of its start or with no pages.
pub(crate) fn origin_from(began: &Option<PlainSpace>, now: &PlainSpace, address: u64) -> Origin
    ensures { IsOrigin (option_map (λ space. space.space) began.now) now.now.space address result }
{
    let look = now.resolve(address);
    match began {
        Some(space) => {
            if is_same(look, space.resolve(address)) {
                Origin::Start
            } else {
                Origin::Earlier
            }
        }
        None => {
            if is_same(look, Answer::NotMapped) {
                Origin::Nothing
            } else {
                Origin::Earlier
            }
        }
    }
}

/// The same of the space with which a segment begins.
pub(crate) fn origin_of(
    last: &Option<Progress>,
    segment: &Trace,
    first: &PlainSpace,
    address: u64,
) -> Origin
    requires { first.now.space ≡ first_space (space_seen (all_states last.now)) segment.now }
    ensures { IsOrigin (began_seen (all_states last.now) segment.now) first.now.space address result }
{
    match last {
        Some(came) => origin_from(&came.began, first, address),
        None => match segment.start() {
            Some(_) => Origin::Start,
            None => Origin::Nothing,
        },
    }
}
