//! Ends that are made where the plan is kept: of ways that lead to a table of level 1.
ghost use Rattle.std.specs.Prelude.{[], ◌≡◌, ◌≢◌, ◌%◌, ◌/◌, ◌*◌, ◌<◌, ◌≤◌, ◌^◌, IsTrue, IsFalse};
ghost use Rattle.vs_types.specs.Codes.{rights_code};
ghost use Rattle.vs_types.specs.Entry.{rights_of};
ghost use Rattle.vs_types.specs.Page.{intersection};
ghost use Rattle.vs_walk.specs.Memory.{Memory};
ghost use Rattle.vs_plan.specs.declared.plans.request.Request.{Request};
ghost use Rattle.vs_plan.specs.declared.plans.target.Target as targets;
ghost use Rattle.vs_types.specs.declared.addresses.page.Size.TheVariants.{K4};
ghost use Rattle.vs_types.specs.Bits.{AreBits, bits_in, rights_at};
ghost use Rattle.vs_plan.specs.Request.{IsRequest};
ghost use Rattle.nrvs_plan_c.specs.Kept.{page_in, rights_in};
ghost use Rattle.nrvs_plan_c.specs.Next.{IsPlanned};
ghost use Rattle.nrvs_plan_c.specs.inside.End.{IsEndOf, IsMade, IsRightFor, Stays, changed_reply};
ghost use Rattle.nrvs_plan_c.specs.inside.Written.{HasNone, HasStore};

use crate::records::codes::rights_in;
use crate::records::kept::Plan;
use crate::records::told::Reply;
use crate::records::written::{write_none, write_store};
use vs_plan::ends_beyond;
use vs_types::{
    Page, Size, bits_in, is_present, narrowed, page_address, page_word, rights_at, with_address,
    with_rights,
};

/// The end of a way in a table of level 1.
#[derive(Clone, Copy)]
pub(crate) struct End {
    /// The table's frame number.
    pub number: u64,
    /// The index of the entry in it.
    pub index: usize,
    /// The entry's word.
    pub word: u64,
    /// What the entries above it allow.
    pub allowed: u64,
}

impl End {
    /// Whether there is a page.
    pub(crate) fn is_page(self) -> bool
        ensures page { IsTrue result → self.word % 2 ≡ 1 }
        ensures none { IsFalse result → self.word % 2 ≡ 0 }
    {
        is_present(self.word)
    }

    /// Its physical address.
    fn physical(self) -> u64
        ensures { result ≡ self.word % 2 ^ 52 / 2 ^ 12 * 2 ^ 12 }
    {
        page_address(self.word)
    }

    /// The code of what it allows.
    fn code(self) -> u8
        ensures { result ≡ rights_code (intersection (rights_at self.allowed) (rights_of self.word)) }
    {
        rights_at(narrowed(self.allowed, self.word)).code()
    }
}

/// Maps a page of 4 KiB where nothing is mapped.
#[inline(always)]
pub(crate) fn end_map(plan: &mut Plan, end: End, base: u64, physical: u64, rights: u8, bits: u64)
    requires bits { AreBits bits }
    requires aligned { physical % 4096 ≡ 0 }
    requires in_range { physical < 2 ^ 52 }
    ensures made { IsMade plan.new }
    ensures call { plan.new.call ≡ plan.old.call }
    ensures right { IsRightFor (Request.Map (page_in base 0 physical rights) bits) base end plan.new }
{
    if end.is_page() {
        let overlaps = Reply::with(1, base);
        return write_none(plan, overlaps, 0);
    }
    let rights = rights_in(rights);
    let above = rights_at(end.allowed);
    if !above.permits(rights) {
        let narrow = Reply::with(12, 0);
        return write_none(plan, narrow, 0);
    }
    let page = Page {
        base,
        size: Size::K4,
        rights,
        phys: physical,
    };
    let done = Reply::with(0, 0);
    write_store(plan, end, page_word(page, bits), done, 0, 0, 0);
}

/// Removes the page; the table stays.
#[inline(always)]
pub(crate) fn end_unmap(plan: &mut Plan, end: End, base: u64)
    ensures made { IsMade plan.new }
    ensures call { plan.new.call ≡ plan.old.call }
    ensures right { (target : targets.Target) (memory : Memory) → IsRequest target (Request.Unmap base)
        → IsEndOf target memory base end → (end.word % 2 ≡ 1 → Stays target memory base end)
        → IsPlanned target (Request.Unmap base) memory plan.new [] }
{
    if !end.is_page() {
        let absent = Reply::with(4, 0);
        return write_none(plan, absent, 0);
    }
    let reply = Reply {
        code: 3,
        size: 0,
        rights: end.code(),
        number: end.physical(),
    };
    let bits = bits_in(Size::K4, end.word);
    write_store(plan, end, 0, reply, bits, 1, base);
}

/// Gives the page other rights.
#[inline(always)]
pub(crate) fn end_protect(plan: &mut Plan, end: End, base: u64, rights: u8)
    ensures made { IsMade plan.new }
    ensures call { plan.new.call ≡ plan.old.call }
    ensures right { IsRightFor (Request.Protect base (rights_in rights)) base end plan.new }
{
    if !end.is_page() {
        let absent = Reply::with(4, 0);
        return write_none(plan, absent, 0);
    }
    let rights = rights_in(rights);
    let above = rights_at(end.allowed);
    if !above.permits(rights) {
        let narrow = Reply::with(12, 0);
        return write_none(plan, narrow, 0);
    }
    let new = with_rights(end.word, rights);
    write_change(plan, end, base, new);
}

/// Lets the page lead to another physical address, with other rights.
#[inline(always)]
pub(crate) fn end_remap(
    plan: &mut Plan,
    end: End,
    base: u64,
    physical: u64,
    phys_bits: u8,
    rights: u8,
)
    requires { phys_bits ≤ 52 }
    ensures made { IsMade plan.new }
    ensures call { plan.new.call ≡ plan.old.call }
    ensures right { (target : targets.Target) (memory : Memory) → target.phys_bits ≡ phys_bits
        → IsRequest target (Request.Remap base physical (rights_in rights))
        → IsEndOf target memory base end
        → IsPlanned target (Request.Remap base physical (rights_in rights)) memory plan.new [] }
{
    if !end.is_page() {
        let absent = Reply::with(4, 0);
        return write_none(plan, absent, 0);
    }
    if physical % 4096 != 0 {
        let unaligned = Reply::with(15, 0);
        return write_none(plan, unaligned, 0);
    }
    if ends_beyond(physical, 4096, phys_bits) {
        let beyond = Reply::with(16, 0);
        return write_none(plan, beyond, 0);
    }
    let rights = rights_in(rights);
    let above = rights_at(end.allowed);
    if !above.permits(rights) {
        let narrow = Reply::with(12, 0);
        return write_none(plan, narrow, 0);
    }
    let moved = with_address(Size::K4, end.word, physical);
    let new = with_rights(moved, rights);
    write_change(plan, end, base, new);
}

/// Answers with the page.
#[inline(always)]
pub(crate) fn end_ask(plan: &mut Plan, end: End, address: u64)
    ensures made { IsMade plan.new }
    ensures call { plan.new.call ≡ plan.old.call }
    ensures right { IsRightFor (Request.Ask address) address end plan.new }
{
    if !end.is_page() {
        let absent = Reply::with(4, 0);
        return write_none(plan, absent, 0);
    }
    let reply = Reply {
        code: 7,
        size: 0,
        rights: end.code(),
        number: end.physical() + address % 4096,
    };
    let bits = bits_in(Size::K4, end.word);
    write_none(plan, reply, bits);
}

/// Writes a plan that gives the page another word, if it is another.
fn write_change(plan: &mut Plan, end: End, base: u64, new: u64)
    ensures made { IsMade plan.new }
    ensures call { plan.new.call ≡ plan.old.call }
    ensures same { new ≡ end.word → HasNone (changed_reply end) (bits_in K4 end.word) plan.new }
    ensures other { new ≢ end.word
        → HasStore end new (changed_reply end) (bits_in K4 end.word) 1 base plan.new }
{
    let reply = Reply {
        code: 6,
        size: 0,
        rights: end.code(),
        number: 0,
    };
    let bits = bits_in(Size::K4, end.word);
    if new == end.word {
        return write_none(plan, reply, bits);
    }
    write_store(plan, end, new, reply, bits, 1, base);
}
