//! An event of a recorded run: a call or a reply.

ghost use Rattle.std.specs.Prelude.{◌≡◌, is_some, option_and_then};
ghost use Rattle.nr_trace.specs.Calls.{made_by, unordered_in};

use vs_types::{Access, Answer, Mode, Request, Size};

/// What a call asks.
#[derive(Clone, Copy, Debug, PartialEq, Eq)]
pub enum Asked {
    /// A request to the address space: it has a place in an order.
    Request(Request),
    /// A touch: an access of an address that a processor makes through its TLB, in a mode.
    Touch(u64, Mode, Access),
    /// A release: memory of this size, from a physical address on, is given to somebody else. From here on no access may reach it.
    Release(Size, u64),
}

/// What was recorded.
#[derive(Clone, Copy, Debug, PartialEq, Eq)]
pub enum Event {
    /// A thread makes a call at a replica. The call's number is the index of this event.
    Call {
        replica: u8,
        thread: u16,
        asked: Asked,
    },
    /// A call is answered. `at` is the place of an update, for a read how many entries its replica had applied, and for a touch or a release
    /// nothing.
    Reply {
        call: u32,
        at: u32,
        answer: Answer,
    },
}

impl Event {
    /// Whether it is a call that has no place in an order: a touch or a release.
    pub fn is_unordered(self) -> bool
        ensures { result ≡ is_some (option_and_then (λ made. unordered_in made.asked) (made_by self)) }
    {
        match self {
            Event::Call {
                asked: Asked::Request(_),
                ..
            } => false,
            Event::Call { .. } => true,
            _ => false,
        }
    }
}
