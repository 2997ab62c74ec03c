//! Requests: an operation, a resolve or an access that is well formed at a depth.
ghost use Rattle.std.specs.Prelude.{◌≡◌, ◌↔◌, IsTrue};

use crate::addresses::access::{Access, Mode};
use crate::addresses::depth::Depth;
use crate::addresses::page::{Page, Rights};
use crate::requests::op::{Action, BadOp, Op};
use std::marker::Model;

/// What is asked of a service.
#[derive(Clone, Copy, Debug, PartialEq, Eq)]
pub enum Query {
    /// An operation, which may change the space.
    Update(Op),
    /// The translation of an address.
    Resolve(u64),
    /// Whether an access of an address is allowed, and where that is.
    Access(u64, Mode, Access),
}

/// A query with one tag, so that a request has 32 bytes.
#[derive(Clone, Copy, Debug, PartialEq, Eq)]
enum Asked {
    Map(Page),
    Unmap(u64),
    Protect(u64, Rights),
    Resolve(u64),
    Access(u64, Mode, Access),
}

/// A request that is well formed at some depth. Contracts see its query.
#[derive(Clone, Copy, Debug, PartialEq, Eq)]
pub struct Request {
    asked: Asked,
}

impl Model for Request {
    ghost use Rattle.vs_types.specs.declared.requests.request.Query.{Query};
    ghost use Rattle.vs_types.specs.Query.{IsSomeQuery};
    ghost use Rattle.vs_types.specs.inside.Asked.{asked_by, query_of, same_asked};

    ghost Value = { Query };

    ghost view = { λ r. query_of r.asked };

    ghost invariant = { λ r. IsSomeQuery (query_of r.asked) };

    ghost inverse = { λ q. record { asked = asked_by q } };

    ghost inverse_ok = { λ r h. same_asked r };
}

impl Request {
    ghost use Rattle.vs_types.specs.Query.{IsQuery, IsSomeQuery, query_fault};
    ghost use Rattle.vs_types.specs.Faults.{GivesUnless};

    /// Asks for the translation of an address.
    ///
    /// # Errors
    ///
    /// `BadOp::NotCanonical`.
    pub fn resolve(depth: Depth, address: u64) -> Result<Request, BadOp>
        ensures { GivesUnless (query_fault depth (Query.Resolve address)) (Query.Resolve address)
            result }
    {
        if !depth.is_canonical(address) {
            return Err(BadOp::NotCanonical);
        }
        Ok(Request {
            asked: Asked::Resolve(address),
        })
    }

    /// Asks whether an access of an address is allowed.
    ///
    /// # Errors
    ///
    /// `BadOp::NotCanonical`.
    pub fn access(depth: Depth, address: u64, mode: Mode, access: Access) -> Result<Request, BadOp>
        ensures { GivesUnless (query_fault depth (Query.Access address mode access))
            (Query.Access address mode access) result }
    {
        if !depth.is_canonical(address) {
            return Err(BadOp::NotCanonical);
        }
        Ok(Request {
            asked: Asked::Access(address, mode, access),
        })
    }

    /// Asks for an operation.
    #[inline]
    pub fn update(op: Op) -> Request
        ensures { result ≡ Query.Update op }
    {
        let asked = match op.action() {
            Action::Map(page) => Asked::Map(page),
            Action::Unmap(base) => Asked::Unmap(base),
            Action::Protect(base, rights) => Asked::Protect(base, rights),
        };
        Request { asked }
    }

    /// Asks this, which is well formed at some depth; nothing is tested.
    #[inline]
    pub fn of(query: Query) -> Request
        requires { IsSomeQuery query }
        ensures { result ≡ query }
    {
        match query {
            Query::Update(op) => Request::update(op),
            Query::Resolve(address) => Request {
                asked: Asked::Resolve(address),
            },
            Query::Access(address, mode, access) => Request {
                asked: Asked::Access(address, mode, access),
            },
        }
    }

    /// What it asks.
    #[inline]
    pub fn query(self) -> Query
        ensures reads { result ≡ self }
        ensures well_formed { IsSomeQuery self }
    {
        let action = match self.asked {
            Asked::Map(page) => Action::Map(page),
            Asked::Unmap(base) => Action::Unmap(base),
            Asked::Protect(base, rights) => Action::Protect(base, rights),
            Asked::Resolve(address) => return Query::Resolve(address),
            Asked::Access(address, mode, access) => {
                return Query::Access(address, mode, access);
            }
        };
        Query::Update(Op::of(action))
    }

    /// Whether it is well formed at this depth, and not only at another.
    pub fn fits(self, depth: Depth) -> bool
        ensures { IsTrue result ↔ IsQuery depth self }
    {
        match self.query() {
            Query::Update(op) => op.fits(depth),
            Query::Resolve(address) | Query::Access(address, _, _) => depth.is_canonical(address),
        }
    }
}
