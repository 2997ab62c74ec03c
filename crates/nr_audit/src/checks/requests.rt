//! What an update or a read asks.

ghost use Rattle.std.specs.Prelude.{◌≡◌, IfSome};
ghost use Rattle.vs_types.specs.Query.{IsQuery};
ghost use Rattle.nr_trace.specs.Calls.{request_in, request_of};

use nr_trace::{Asked, Event, Trace};
use vs_types::Request;

/// The request in what a call asks, or `None` where it asks anything else.
fn request_in(asked: Asked) -> Option<Request>
    ensures { result ≡ request_in asked }
{
    match asked {
        Asked::Request(request) => Some(request),
        Asked::Touch(_, _, _) | Asked::Release(_, _) => None,
    }
}

/// What the update or the read of this number asks, or `None` where there is none.
pub fn request_of(trace: &Trace, call: u32) -> Option<Request>
    ensures asks { result ≡ request_of trace.now call }
    ensures well_formed { IfSome result (IsQuery trace.now.layout.depth) }
{
    match trace.events().get(call as usize)?.event() {
        Event::Call { asked, .. } => request_in(asked),
        _ => None,
    }
}
