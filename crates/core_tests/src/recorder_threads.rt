//! Two threads record at once.

ghost use Rattle.std.specs.Prelude.{◌≡◌, [], None};
ghost use Rattle.vs_types.specs.Query.{IsQuery};

use crate::recorder::{finish_two, resolve, two_pens, two_replicas};
use nr_record::{Clock, Pen};
use nr_trace::{Event, Trace};
use std::process::Abort;
use std::test::Fail;
use std::thread::join;
use vs_types::{Answer, Depth, Request};

/// One call, and the reply to it: the pen, and their stamps.
fn work(clock: &Clock, pen: Pen, request: Request) -> (Pen, u32, u32)
    requires clock { pen.clock ≡ clock.now }
    requires new { (pen.waiting ≡ None) × (pen.made ≡ []) × (pen.quota ≡ 1) }
    requires fits { IsQuery pen.clock.layout.depth request }
    ensures clock { result.0.clock ≡ pen.clock }
    ensures thread { result.0.thread ≡ pen.thread }
    ensures quota { result.0.quota ≡ pen.quota }
{
    let mut pen = pen;
    let call = pen.call(clock, request);
    let reply = pen.reply(clock, 0, Answer::NotMapped);
    (pen, call, reply)
}

fn event_at(rt: &impl Abort, trace: &Trace, stamp: u32) -> Event {
    let recorded = trace.events().get(stamp as usize);
    recorded.expect(rt, "an event").event()
}

#[test]
fn two_threads_draw(rt: HostRuntime) -> Result<(), Fail> {
    let alloc = rt.alloc();
    let config = two_replicas(&rt);
    let request = resolve(&rt);
    let (clock, first, second) = two_pens(alloc, config)?;
    let (one, other) = join(
        &rt,
        || work(&clock, first, request),
        || work(&clock, second, request),
    );
    let (first, first_call, first_reply) = one;
    let (second, second_call, second_reply) = other;
    let stamps = [(first_call, first_reply), (second_call, second_reply)];
    let trace = finish_two(alloc, clock, first, second, config)?;
    assert_eq!(rt; trace.events().len(), 4);
    for (thread, (call, reply)) in stamps.iter().enumerate() {
        let made = event_at(&rt, &trace, *call);
        assert!(rt; matches!(made, Event::Call { thread: who, .. } if usize::from(who) == thread));
        let answered = event_at(&rt, &trace, *reply);
        assert!(rt; matches!(answered, Event::Reply { call: whose, .. } if whose == *call));
    }
    Ok(())
}
