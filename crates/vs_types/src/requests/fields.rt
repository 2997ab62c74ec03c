//! The fields that spell a request, in the log and in traces.

ghost use Rattle.std.specs.Prelude.{◌≡◌};
ghost use Rattle.vs_types.specs.Fields.{HasFields, request_fields};
ghost use Rattle.vs_types.specs.Finds.{Finds};
ghost use Rattle.vs_types.specs.Operation.{IsSomeAction};

use crate::addresses::access::{Access, Mode};
use crate::addresses::depth::Depth;
use crate::addresses::page::{Rights, Size};
use crate::requests::op::{Action, Op};
use crate::requests::request::{Query, Request};

/// The fields of a request. What its kind does not use is 0.
#[derive(Clone, Copy, Debug, PartialEq, Eq)]
pub struct RequestFields {
    /// 0 for a map, 1 for an unmap, 2 for a protect, 3 for a resolve, 4 for an access.
    pub kind: u8,
    /// The code of a map's size, or of what an access does.
    pub size: u8,
    /// The code of a map's or protect's rights, or of an access's mode.
    pub rights: u8,
    /// The base or the address, in bytes.
    pub address: u64,
    /// A map's physical address, in bytes.
    pub physical: u64,
}

impl RequestFields {
    fn at(kind: u8, address: u64) -> RequestFields
        ensures { result
            ≡ record { kind = kind; size = 0; rights = 0; address = address; physical = 0 } }
    {
        RequestFields {
            kind,
            size: 0,
            rights: 0,
            address,
            physical: 0,
        }
    }
}

impl Op {
    /// Its fields.
    pub fn fields(self) -> RequestFields
        ensures is { result ≡ request_fields (Query.Update self) }
        ensures well_formed { IsSomeAction self }
    {
        match self.action() {
            Action::Map(page) => RequestFields {
                kind: 0,
                size: page.size.code(),
                rights: page.rights.code(),
                address: page.base,
                physical: page.phys,
            },
            Action::Unmap(base) => RequestFields::at(1, base),
            Action::Protect(base, rights) => RequestFields {
                rights: rights.code(),
                ..RequestFields::at(2, base)
            },
        }
    }
}

impl Request {
    /// Its fields.
    pub fn fields(self) -> RequestFields
        ensures { result ≡ request_fields self }
    {
        match self.query() {
            Query::Update(op) => op.fields(),
            Query::Resolve(address) => RequestFields::at(3, address),
            Query::Access(address, mode, access) => RequestFields {
                size: access.code(),
                rights: mode.code(),
                ..RequestFields::at(4, address)
            },
        }
    }

    /// The request at this depth that has the fields. `None` where the kind is above 4, a code means nothing, a field that the
    /// kind does not use is not 0, or the request is not well formed.
    pub fn of_fields(depth: Depth, fields: RequestFields) -> Option<Request>
        ensures { Finds (HasFields depth fields) result }
    {
        match fields.kind {
            0 => map_of(depth, fields),
            1 => unmap_of(depth, fields),
            2 => protect_of(depth, fields),
            3 => resolve_of(depth, fields),
            4 => access_of(depth, fields),
            _ => None,
        }
    }
}

fn map_of(depth: Depth, fields: RequestFields) -> Option<Request>
    requires { fields.kind ≡ 0 }
    ensures { Finds (HasFields depth fields) result }
{
    let size = Size::of_code(fields.size)?;
    let rights = Rights::of_code(fields.rights)?;
    match Op::map(depth, fields.address, size, fields.physical, rights) {
        Ok(op) => Some(Request::update(op)),
        Err(_) => None,
    }
}

fn unmap_of(depth: Depth, fields: RequestFields) -> Option<Request>
    requires { fields.kind ≡ 1 }
    ensures { Finds (HasFields depth fields) result }
{
    if fields.size != 0 || fields.rights != 0 || fields.physical != 0 {
        return None;
    }
    match Op::unmap(depth, fields.address) {
        Ok(op) => Some(Request::update(op)),
        Err(_) => None,
    }
}

fn protect_of(depth: Depth, fields: RequestFields) -> Option<Request>
    requires { fields.kind ≡ 2 }
    ensures { Finds (HasFields depth fields) result }
{
    if fields.size != 0 || fields.physical != 0 {
        return None;
    }
    let rights = Rights::of_code(fields.rights)?;
    match Op::protect(depth, fields.address, rights) {
        Ok(op) => Some(Request::update(op)),
        Err(_) => None,
    }
}

fn resolve_of(depth: Depth, fields: RequestFields) -> Option<Request>
    requires { fields.kind ≡ 3 }
    ensures { Finds (HasFields depth fields) result }
{
    if fields.size != 0 || fields.rights != 0 || fields.physical != 0 {
        return None;
    }
    Request::resolve(depth, fields.address).ok()
}

fn access_of(depth: Depth, fields: RequestFields) -> Option<Request>
    requires { fields.kind ≡ 4 }
    ensures { Finds (HasFields depth fields) result }
{
    if fields.physical != 0 {
        return None;
    }
    let access = Access::of_code(fields.size)?;
    let mode = Mode::of_code(fields.rights)?;
    Request::access(depth, fields.address, mode, access).ok()
}
