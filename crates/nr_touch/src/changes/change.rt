//! What an update does to one page.

ghost use Rattle.std.specs.Prelude.{◌≡◌, ◌≢◌, ◌↔◌, ◌+◌, ◌<◌, ◌≤◌, ◌^◌, true, false, option_to_list, IfOk, IsSomeAnd, IsTrue, None, Some};
ghost use Rattle.vs_types.specs.Operation.{IsAction};
ghost use Rattle.vs_types.specs.Page.{bytes_of, covers, IsPage};
ghost use Rattle.vs_types.specs.Space.{Space, IsSpace};
ghost use Rattle.vs_types.specs.Step.{step, look, look_in_page};
ghost use Rattle.vs_types.specs.declared.addresses.page.Page.{Page};
ghost use Rattle.vs_types.specs.declared.addresses.page.Rights.{Rights};
ghost use Rattle.nr_touch.specs.Touches.{Includes};
ghost use Rattle.nr_touch.specs.inside.Changes.{page_before, number_of, taken_at, IsChange};
ghost use Rattle.nr_touch.specs.inside.Undo.{LeadsTo};
ghost use Rattle.nr_touch.specs.declared.changes.change.Change.{Change};

use vs_plain::PlainSpace;
use vs_types::{Action, Answer, Memory, Op, Page, Rights};

/// A page whose addresses an update changes: as it was before, or as it is mapped.
#[derive(Clone, Copy, Debug)]
pub(crate) struct Change {
    pub(crate) page: Page,
    pub(crate) was_mapped: bool,
    /// Whether it takes away: afterwards the page is gone, or lacks a right that it had.
    pub(crate) takes: bool,
}

/// The change that the update of a place makes.
#[derive(Clone, Copy, Debug)]
pub(crate) struct PlacedChange {
    pub(crate) change: Change,
    /// The number of the page: by it all changes of one page come together.
    pub(crate) number: u64,
    pub(crate) place: u32,
    /// The event at which the update was made.
    pub(crate) made: u32,
    /// The event at which it was answered, or `u32::MAX` where it never was.
    pub(crate) answered: u32,
}

/// The number of a page: its base, below which its level has room.
pub(crate) fn number_of(page: Page) -> u64
    requires { page.base + bytes_of page.size ≤ 2 ^ 64 }
    ensures { result ≡ number_of page }
{
    page.base + u64::from(page.size.level())
}

/// When the update of a change was answered, if it takes away: `u32::MAX` where it doesn't, or never was.
pub(crate) fn taken_at(placed: &PlacedChange) -> u32
    ensures { result ≡ taken_at placed.now }
{
    if placed.change.takes {
        placed.answered
    } else {
        u32::MAX
    }
}

impl Change {
    /// How an address of the page looks before it.
    pub(crate) fn look_before(self, address: u64) -> Answer
        requires has { IsTrue (covers self.page address) }
        requires low { self.page.phys + bytes_of self.page.size < 2 ^ 64 }
        ensures { result ≡ look_in_page address (page_before self) }
    {
        if self.was_mapped {
            let offset = address - self.page.base;
            Answer::Mapped(self.page.phys + offset, self.page.size, self.page.rights)
        } else {
            Answer::NotMapped
        }
    }
}

/// What a map changed that was answered so.
fn mapped(page: Page, answer: Answer) -> Option<Change>
    ensures found { answer ≡ Answer.Done
        → result ≡ Some (record { page = page; was_mapped = false; takes = false }) }
    ensures none { answer ≢ Answer.Done → result ≡ None }
{
    match answer {
        Answer::Done => Some(Change {
            page,
            was_mapped: false,
            takes: false,
        }),
        _ => None,
    }
}

/// What an unmap changed that was answered so.
fn unmapped(base: u64, answer: Answer) -> Option<Change>
    ensures found { (page : Page) → page.base ≡ base
        → answer ≡ Answer.Removed page.phys page.size page.rights
        → result ≡ Some (record { page = page; was_mapped = true; takes = true }) }
    ensures none { ((page : Page) → answer ≢ Answer.Removed page.phys page.size page.rights)
        → result ≡ None }
{
    match answer {
        Answer::Removed(phys, size, rights) => Some(Change {
            page: Page {
                base,
                phys,
                size,
                rights,
            },
            was_mapped: true,
            takes: true,
        }),
        _ => None,
    }
}

fn is_same(old: Rights, new: Rights) -> bool
    ensures same { IsTrue result → old ≡ new }
    ensures differs { result ≡ false → old ≢ new }
{
    old == new
}

/// Whether the new rights have each of the old ones.
fn includes(old: Rights, new: Rights) -> bool
    ensures { IsTrue result ↔ Includes old new }
{
    if old.write && !new.write {
        return false;
    }
    if old.user && !new.user {
        return false;
    }
    if old.exec && !new.exec {
        return false;
    }
    true
}

/// What a protect changed that was answered so; the space is the one after it.
fn protected(base: u64, rights: Rights, answer: Answer, space: &PlainSpace) -> Option<Change>
    ensures found { (page : Page) → page.base ≡ base → page.rights ≢ rights
        → answer ≡ Answer.Changed page.rights
        → look space.now.space base ≡ Answer.Mapped page.phys page.size rights
        → IsSomeAnd result (λ change. (change.page ≡ page) × (change.was_mapped ≡ true)
        × (IsTrue change.takes ↔ (Includes page.rights rights → ⊥))) }
    ensures same { answer ≡ Answer.Changed rights → result ≡ None }
    ensures none { ((old : Rights) → answer ≢ Answer.Changed old) → result ≡ None }
{
    let Answer::Changed(old) = answer else {
        return None;
    };
    if is_same(old, rights) {
        return None;
    }
    let Answer::Mapped(phys, size, _) = space.resolve(base) else {
        return None;
    };
    Some(Change {
        page: Page {
            base,
            phys,
            size,
            rights: old,
        },
        was_mapped: true,
        takes: !includes(old, rights),
    })
}

/// What an operation changed that was answered so; the space is the one after it.
fn change_of(op: Op, answer: Answer, space: &PlainSpace) -> Option<Change>
    ensures { (before : Space) → IsSpace space.now.depth before → IsAction space.now.depth op
        → answer ≡ (step space.now.depth space.now.limit before op).answer
        → space.now.space ≡ (step space.now.depth space.now.limit before op).space
        → IsChange space.now.depth before space.now.space result }
{
    match op.action() {
        Action::Map(page) => mapped(page, answer),
        Action::Unmap(base) => unmapped(base, answer),
        Action::Protect(base, rights) => protected(base, rights, answer, space),
    }
}

/// Does an operation, and says what it changed. Allocates memory where it maps a page.
pub(crate) fn apply(space: &mut PlainSpace, op: Op) -> Result<Option<Change>, Memory>
    requires { IsAction space.old.depth op }
    ensures stepped { IfOk result (λ change. space.new ≡ record space.old {
      space = (step space.old.depth space.old.limit space.old.space op).space;
    }) }
    ensures change { IfOk result (IsChange space.old.depth space.old.space space.new.space) }
    ensures leads { IfOk result (λ change.
        LeadsTo space.old.depth space.old.space (option_to_list change) space.new.space) }
{
    let answer = space.apply(op)?;
    Ok(change_of(op, answer, space))
}
