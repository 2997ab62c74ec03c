//! Plans of at most one store, written where they are kept.
ghost use Rattle.std.specs.Prelude.{◌≡◌};
ghost use Rattle.nrvs_plan_c.specs.inside.End.{IsMade};
ghost use Rattle.nrvs_plan_c.specs.inside.Written.{HasNone, HasStore};

use crate::end::End;
use crate::records::codes::ENDED;
use crate::records::kept::Plan;
use crate::records::told::Reply;
use vs_plan::Store;

/// Writes a plan that changes nothing.
pub(crate) fn write_none(plan: &mut Plan, reply: Reply, bits: u64)
    ensures made { IsMade plan.new }
    ensures call { plan.new.call ≡ plan.old.call }
    ensures none { HasNone reply bits plan.new }
{
    plan.reply = reply;
    plan.bits = bits;
    plan.fills = 0;
    plan.store_count = 0;
    plan.flush = 0;
    plan.flush_size = 0;
    plan.flush_base = 0;
    plan.unlinked_count = 0;
    plan.way.phase = ENDED;
}

/// Writes a plan that stores another word at the end of a way, with this flush of a page of 4 KiB.
pub(crate) fn write_store(
    plan: &mut Plan,
    end: End,
    new: u64,
    reply: Reply,
    bits: u64,
    flush: u32,
    base: u64,
)
    ensures made { IsMade plan.new }
    ensures call { plan.new.call ≡ plan.old.call }
    ensures store { HasStore end new reply bits flush base plan.new }
{
    plan.reply = reply;
    plan.bits = bits;
    plan.fills = 0;
    plan.store_count = 1;
    plan.stores[0] = Store {
        frame: end.number,
        index: end.index,
        old: end.word,
        new,
    };
    plan.flush = flush;
    plan.flush_size = 0;
    plan.flush_base = base;
    plan.unlinked_count = 0;
    plan.way.phase = ENDED;
}
