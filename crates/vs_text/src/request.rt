//! Requests in words.
ghost use Rattle.std.specs.Prelude.{◌≡◌, MatchResult, None, Some};
ghost use Rattle.vs_types.specs.declared.requests.request.Query.TheVariants.{Update};
ghost use Rattle.vs_types.specs.Finds.{Finds};
ghost use Rattle.vs_text.specs.Requests.{SpellsAccess, SpellsOne, SpellsPage, SpellsQuery, SpellsRights};
ghost use Rattle.vs_text.specs.Words.{texts};
ghost use Rattle.vs_text.specs.inside.Named.{IsNamed};

use crate::access::{parse_access, parse_mode};
use crate::address::parse_address;
use crate::name::{Name, parse_name};
use crate::page::{parse_rights, parse_size};
use vs_types::laws::well_formed_is_without_fault;
use vs_types::{Access, BadOp, Depth, Mode, Op, Page, Request, Rights};

/// The page of a map.
fn parse_page(words: &[&[u8]]) -> Option<Page>
    ensures { Finds (SpellsPage (texts words.now)) result }
{
    let [size, base, phys, rights] = words else {
        return None;
    };
    let size = parse_size(size)?;
    let base = parse_address(base)?;
    let phys = parse_address(phys)?;
    let rights = parse_rights(rights)?;
    Some(Page {
        base,
        size,
        rights,
        phys,
    })
}

/// The address of an unmap or of a resolve.
fn parse_one(words: &[&[u8]]) -> Option<u64>
    ensures { Finds (SpellsOne (texts words.now)) result }
{
    let [address] = words else {
        return None;
    };
    parse_address(address)
}

/// The base and the rights of a protect.
fn parse_protected(words: &[&[u8]]) -> Option<(u64, Rights)>
    ensures { Finds (λ it. SpellsRights (texts words.now) it.0 it.1) result }
{
    let [base, rights] = words else {
        return None;
    };
    let base = parse_address(base)?;
    let rights = parse_rights(rights)?;
    Some((base, rights))
}

/// The address of an access, who makes it, and what it does.
fn parse_accessed(words: &[&[u8]]) -> Option<(u64, Mode, Access)>
    ensures { Finds (λ it. SpellsAccess (texts words.now) it.0 it.1 it.2) result }
{
    let [mode, access, address] = words else {
        return None;
    };
    let mode = parse_mode(mode)?;
    let access = parse_access(access)?;
    let address = parse_address(address)?;
    Some((address, mode, access))
}

/// The request for an operation, where that is well formed.
fn update(op: Result<Op, BadOp>) -> Option<Request>
    ensures { MatchResult op (λ action. result ≡ Some (Update action)) (λ fault. result ≡ None) }
{
    match op {
        Ok(op) => Some(Request::update(op)),
        Err(_) => None,
    }
}

/// The request of this name with these arguments, where it is well formed at the depth.
fn parse_named(depth: Depth, name: Name, words: &[&[u8]]) -> Option<Request>
    ensures { Finds (IsNamed depth name (texts words.now)) result }
{
    well_formed_is_without_fault();
    match name {
        Name::Map => {
            let page = parse_page(words)?;
            update(Op::map(depth, page.base, page.size, page.phys, page.rights))
        }
        Name::Unmap => {
            let base = parse_one(words)?;
            update(Op::unmap(depth, base))
        }
        Name::Protect => {
            let (base, rights) = parse_protected(words)?;
            update(Op::protect(depth, base, rights))
        }
        Name::Resolve => {
            let address = parse_one(words)?;
            Request::resolve(depth, address).ok()
        }
        Name::Access => {
            let (address, mode, access) = parse_accessed(words)?;
            Request::access(depth, address, mode, access).ok()
        }
    }
}

/// The request in these words: its name and its arguments. `None` where they have no such form, or it is not well formed at the
/// depth.
pub fn parse_request(depth: Depth, words: &[&[u8]]) -> Option<Request>
    ensures { Finds (SpellsQuery depth (texts words.now)) result }
{
    let [name, arguments @ ..] = words else {
        return None;
    };
    let name = parse_name(name)?;
    parse_named(depth, name, arguments)
}
