//! Calls of a pen allocate no memory: `tests/programs` refuses each growth of a pen that makes none, and counts as many with two calls.
ghost use Rattle.std.specs.Prelude.{◌≡◌, ◌+◌, ◌<◌, None};
ghost use Rattle.vs_types.specs.Query.{IsQuery};
ghost use Rattle.nr_record.specs.Pen.{calls_in};

use crate::recorder::{one_pen, resolve};
use nr_record::{Clock, Pen};
use std::test::Fail;
use vs_types::{Answer, Config, Depth, Request};

/// A call, and the reply to it: their stamps.
fn call_once(clock: &Clock, pen: &mut Pen, request: Request) -> (u32, u32)
    requires clock { pen.old.clock ≡ clock.now }
    requires none_waiting { pen.old.waiting ≡ None }
    requires quota { calls_in pen.old.made < pen.old.quota }
    requires fits { IsQuery pen.old.clock.layout.depth request }
    ensures clock { pen.new.clock ≡ pen.old.clock }
    ensures none_waiting { pen.new.waiting ≡ None }
    ensures quota { pen.new.quota ≡ pen.old.quota }
    ensures calls { calls_in pen.new.made ≡ calls_in pen.old.made + 1 }
{
    let call = pen.call(clock, request);
    let reply = pen.reply(clock, 0, Answer::NotMapped);
    (call, reply)
}

/// The second call finds notes that a body could copy.
#[test]
fn pen_of_two_calls(rt: HostRuntime) -> Result<(), Fail> {
    let config = Config::new(Depth::Four, 1, 1, 1).expect(&rt, "a configuration");
    let resolve = resolve(&rt);
    let (clock, mut pen) = one_pen(rt.alloc(), config, 2)?;
    assert_eq!(rt; call_once(&clock, &mut pen, resolve), (0, 1));
    assert_eq!(rt; call_once(&clock, &mut pen, resolve), (2, 3));
    Ok(())
}

#[test]
fn pen_without_calls(rt: HostRuntime) -> Result<(), Fail> {
    let config = Config::new(Depth::Four, 1, 1, 1).expect(&rt, "a configuration");
    one_pen(rt.alloc(), config, 2)?;
    Ok(())
}
