//! A space on which calls are tried, and taken back.

ghost use Rattle.std.specs.Prelude.{◌≡◌};

use nr_audit::serve;
use std::alloc::Global;
use vs_plain::PlainSpace;
use vs_types::{Action, Answer, BadOp, Depth, Memory, Op, Page, Query, Request, Rights};

/// What a call does to a space.
#[derive(Clone, Copy, Debug)]
pub(crate) enum Effect {
    Nothing,
    Put(Page),
    Taken(Page),
    /// The page that begins here had the first rights, and has the second ones.
    Changed(u64, Rights, Rights),
}

/// A space, and a number that is the same for equal spaces, and most likely differs for others.
#[derive(Drop)]
pub(crate) struct MovingSpace {
    space: PlainSpace,
    hash: u64,
}

/// Mixes the bits of a number.
pub(crate) fn mix(number: u64) -> u64 {
    let first = number.wrapping_add(0x9e37_79b9_7f4a_7c15);
    let second = (first ^ (first >> 30)).wrapping_mul(0xbf58_476d_1ce4_e5b9);
    let third = (second ^ (second >> 27)).wrapping_mul(0x94d0_49bb_1331_11eb);
    third ^ (third >> 31)
}

fn hash_of_rights(base: u64, rights: Rights) -> u64 {
    mix(base ^ mix(256 + u64::from(rights.code())))
}

/// The number of the space of this page alone: that of several is their sum.
pub(crate) fn hash_of_page(page: Page) -> u64 {
    let place = mix(page.base ^ mix(page.phys ^ mix(u64::from(page.size.level()))));
    place.wrapping_add(hash_of_rights(page.base, page.rights))
}

/// The number of the space of these pages.
pub(crate) fn hash_of_pages(pages: &[Page]) -> u64 {
    let mut hash = 0u64;
    for page in pages {
        hash = hash.wrapping_add(hash_of_page(*page));
    }
    hash
}

/// What an update did that was answered so.
fn effect_of(request: Request, given: Answer) -> Effect {
    let Query::Update(op) = request.query() else {
        return Effect::Nothing;
    };
    match (op.action(), given) {
        (Action::Map(page), Answer::Done) => Effect::Put(page),
        (Action::Unmap(base), Answer::Removed(phys, size, rights)) => Effect::Taken(Page {
            base,
            phys,
            size,
            rights,
        }),
        (Action::Protect(base, new), Answer::Changed(old)) if old != new => {
            Effect::Changed(base, old, new)
        }
        _ => Effect::Nothing,
    }
}

/// Does an operation, if it is one that is well formed at the space's depth.
fn apply(space: &mut PlainSpace, op: Result<Op, BadOp>) -> Result<(), Memory> {
    if let Ok(op) = op {
        if op.fits(space.depth()) {
            space.apply(op)?;
        }
    }
    Ok(())
}

/// Whether an address looks like a page with these rights, or like none where there are no rights.
fn looks(space: &PlainSpace, address: u64, wanted: Option<Rights>) -> bool {
    match (space.resolve(address), wanted) {
        (Answer::Mapped(_, _, rights), Some(wanted)) => rights == wanted,
        (Answer::NotMapped, None) => true,
        _ => false,
    }
}

/// False where the space doesn't answer so: a test that changes nothing, and that finds most of what is wrong.
fn may_answer(space: &PlainSpace, request: Request, told: Answer) -> bool {
    let Query::Update(op) = request.query() else {
        return true;
    };
    match (op.action(), told) {
        (Action::Map(page), Answer::Done) => looks(space, page.base, None),
        (Action::Unmap(base), Answer::Removed(phys, size, rights)) => {
            space.resolve(base) == Answer::Mapped(phys, size, rights)
        }
        (Action::Protect(base, _), Answer::Changed(old)) => looks(space, base, Some(old)),
        (Action::Unmap(base) | Action::Protect(base, _), Answer::NotMapped) => {
            looks(space, base, None)
        }
        _ => true,
    }
}

/// Whether an answer is the recorded one, if one was recorded.
fn is_right(told: Option<Answer>, given: Answer) -> bool {
    match told {
        None => true,
        Some(told) => told == given,
    }
}

impl MovingSpace {
    /// A space with no pages.
    pub(crate) fn new(alloc: Global, depth: Depth, tables: u16) -> MovingSpace {
        MovingSpace {
            space: PlainSpace::new(alloc, tables, depth),
            hash: 0,
        }
    }

    pub(crate) fn hash(&self) -> u64 {
        self.hash
    }

    /// The number of the space after an effect.
    fn hash_after(&self, effect: Effect) -> u64 {
        match effect {
            Effect::Nothing => self.hash,
            Effect::Put(page) => self.hash.wrapping_add(hash_of_page(page)),
            Effect::Taken(page) => self.hash.wrapping_sub(hash_of_page(page)),
            Effect::Changed(base, old, new) => self
                .hash
                .wrapping_sub(hash_of_rights(base, old))
                .wrapping_add(hash_of_rights(base, new)),
        }
    }

    /// The number of the space before an effect.
    fn hash_before(&self, effect: Effect) -> u64 {
        match effect {
            Effect::Nothing => self.hash,
            Effect::Put(page) => self.hash.wrapping_sub(hash_of_page(page)),
            Effect::Taken(page) => self.hash.wrapping_add(hash_of_page(page)),
            Effect::Changed(base, old, new) => self
                .hash
                .wrapping_sub(hash_of_rights(base, new))
                .wrapping_add(hash_of_rights(base, old)),
        }
    }

    /// Undoes what an update did.
    fn undo(&mut self, effect: Effect) -> Result<(), Memory> {
        let depth = self.space.depth();
        match effect {
            Effect::Nothing => Ok(()),
            Effect::Put(page) => apply(&mut self.space, Op::unmap(depth, page.base)),
            Effect::Taken(page) => {
                let back = Op::map(depth, page.base, page.size, page.phys, page.rights);
                apply(&mut self.space, back)
            }
            Effect::Changed(base, old, _) => {
                apply(&mut self.space, Op::protect(depth, base, old))
            }
        }
    }

    /// Does what a call asks, where it is answered so. `None` where it isn't: the space is then as it was.
    pub(crate) fn make(
        &mut self,
        request: Request,
        told: Option<Answer>,
    ) -> Result<Option<Effect>, Memory> {
        if !request.fits(self.space.depth()) {
            return Ok(None);
        }
        if let Some(told) = told {
            if !may_answer(&self.space, request, told) {
                return Ok(None);
            }
        }
        let given = serve(&mut self.space, request)?;
        let effect = effect_of(request, given);
        if is_right(told, given) {
            self.hash = self.hash_after(effect);
            return Ok(Some(effect));
        }
        self.undo(effect)?;
        Ok(None)
    }

    /// Takes a call back that had this effect.
    pub(crate) fn take_back(&mut self, effect: Effect) -> Result<(), Memory> {
        self.undo(effect)?;
        self.hash = self.hash_before(effect);
        Ok(())
    }
}
