//! How the pages of the changes looked before them: sorted, so that one search finds a look.

ghost use Rattle.std.specs.Prelude.{◌≡◌, ◌↔◌, map, IfOk, IsTrue};
ghost use Rattle.std.specs.List.Sorted.{IsPermutation, IsSorted};
ghost use Rattle.vs_types.specs.Access.{allows};
ghost use Rattle.vs_types.specs.Codes.{rights_code};
ghost use Rattle.vs_types.specs.declared.addresses.page.Rights.{Rights};
ghost use Rattle.nr_touch.specs.inside.Sights.{AreSights, HasRights, HasSight, kind_of, kind_sight_of, sight_cmp, sight_of};

use crate::changes::change::{Change, PlacedChange};
use crate::touches::touch::Touch;
use std::alloc::Global;
use vs_types::{Memory, Rights};

/// How a page looked before the change of a place. The order is that of the fields.
#[derive(Clone, Copy, Debug, PartialEq, Eq, PartialOrd, Ord)]
pub(crate) struct Sight {
    /// The number of the page.
    pub(crate) number: u64,
    /// The physical address to which it was mapped, or 0 if that is left out.
    pub(crate) phys: u64,
    /// 0 where it was not mapped, or else 1 more than the code of its rights.
    pub(crate) kind: u8,
    pub(crate) place: u32,
}

/// The sights of all changes, in their order.
#[derive(Debug, Drop)]
pub(crate) struct Sights {
    /// With where each page was mapped to.
    pub(crate) exact: Vec<Sight>,
    /// Without that.
    pub(crate) kinds: Vec<Sight>,
}

fn kind_of(change: Change) -> u8
    ensures { result ≡ kind_of change }
{
    if change.was_mapped {
        change.page.rights.code() + 1
    } else {
        0
    }
}

fn sight_of(placed: &PlacedChange) -> Sight
    ensures { result ≡ sight_of placed.now }
{
    Sight {
        number: placed.number,
        phys: placed.change.page.phys,
        kind: kind_of(placed.change),
        place: placed.place,
    }
}

fn kind_sight_of(placed: &PlacedChange) -> Sight
    ensures { result ≡ kind_sight_of placed.now }
{
    Sight {
        number: placed.number,
        phys: 0,
        kind: kind_of(placed.change),
        place: placed.place,
    }
}

fn exact_of(alloc: Global, changes: &[PlacedChange]) -> Result<Vec<Sight>, Memory>
    ensures { IfOk result (λ v. v.items ≡ map sight_of changes.now) }
{
    Ok(changes.iter().map(|each| sight_of(each)).collect(alloc)?)
}

fn kinds_of(alloc: Global, changes: &[PlacedChange]) -> Result<Vec<Sight>, Memory>
    ensures { IfOk result (λ v. v.items ≡ map kind_sight_of changes.now) }
{
    Ok(
        changes
            .iter()
            .map(|each| kind_sight_of(each))
            .collect(alloc)?,
    )
}

fn sort(sights: &mut Vec<Sight>)
    ensures same { IsPermutation sights.old.items sights.new.items }
    ensures sorted { IsSorted sight_cmp sights.new.items }
{
    sights.sort_unstable();
}

/// Whether a sight like this one lies from its place on and before the last one: a search by halving.
pub(crate) fn has(sights: &[Sight], from: Sight, last: u32) -> bool
    requires { IsSorted sight_cmp sights.now }
    ensures { IsTrue result ↔ HasSight sights.now from last }
{
    let next = sights.partition_point(|each| *each < from);
    if next == sights.len() {
        return false;
    }
    let end = Sight {
        place: last,
        ..from
    };
    sights[next] < end
}

/// Whether rights of this code allow the touch, or don't, as is asked.
fn is_so(code: u8, touch: &Touch, allowed: bool) -> bool
    ensures { (rights : Rights) → code ≡ rights_code rights
        → IsTrue result ↔ (allows rights touch.now.mode touch.now.access ≡ allowed) }
{
    match Rights::of_code(code) {
        Some(rights) => rights.allow(touch.mode, touch.access) == allowed,
        None => false,
    }
}

/// Whether a sight like this one, but with rights that allow the touch, or don't, as is asked, lies from its place on and before
/// the last one: at most eight searches.
pub(crate) fn has_rights(
    sights: &[Sight],
    from: Sight,
    last: u32,
    touch: &Touch,
    allowed: bool,
) -> bool
    requires { IsSorted sight_cmp sights.now }
    ensures { IsTrue result ↔ HasRights sights.now from last touch.now allowed }
{
    for code in 0..8 {
        if is_so(code, touch, allowed)
            && has(
                sights,
                Sight {
                    kind: code + 1,
                    ..from
                },
                last,
            )
        {
            return true;
        }
    }
    false
}

impl Sights {
    /// For these changes. Allocates 48 bytes for each of them.
    pub(crate) fn of(alloc: Global, changes: &[PlacedChange]) -> Result<Sights, Memory>
        ensures { IfOk result (AreSights changes.now) }
    {
        let mut exact = exact_of(alloc, changes)?;
        sort(&mut exact);
        let mut kinds = kinds_of(alloc, changes)?;
        sort(&mut kinds);
        Ok(Sights { exact, kinds })
    }
}
