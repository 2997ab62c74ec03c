//! Operations that change a space, each well formed at a depth.
ghost use Rattle.std.specs.Prelude.{◌≡◌, ◌↔◌, IsTrue};

use crate::addresses::depth::Depth;
use crate::addresses::page::{Page, Rights, Size};
use std::error::Error;
use std::fmt;
use std::marker::Model;

/// Why an address or a page makes no operation: the first reason that holds.
#[derive(Clone, Copy, Debug, PartialEq, Eq)]
pub enum BadOp {
    /// The address is not canonical.
    NotCanonical,
    /// A map's base is no multiple of its size, or another base none of 4,096.
    Unaligned,
    /// A map's physical address is no multiple of its size.
    PhysUnaligned,
    /// A map's page does not lie below physical 2^51.
    PhysRange,
}

impl fmt::Display for BadOp {
    fn fmt<W: fmt::Write>(&self, f: &mut fmt::Formatter<W>) -> fmt::Result {
        match self {
            BadOp::NotCanonical => write!(f, "the address is not canonical"),
            BadOp::Unaligned => write!(f, "the address is not aligned"),
            BadOp::PhysUnaligned => write!(f, "the physical address is not aligned to the size"),
            BadOp::PhysRange => write!(f, "the page does not lie below physical 2^51"),
        }
    }
}

impl Error for BadOp {}

/// What an operation does to a space.
#[derive(Clone, Copy, Debug, PartialEq, Eq)]
pub enum Action {
    /// Adds a page.
    Map(Page),
    /// Removes the page that begins at this address.
    Unmap(u64),
    /// Gives the page that begins at this address these rights.
    Protect(u64, Rights),
}

/// An operation that is well formed at some depth. Contracts see its action.
#[derive(Clone, Copy, Debug, PartialEq, Eq)]
pub struct Op {
    action: Action,
}

impl Model for Op {
    ghost use Rattle.vs_types.specs.declared.requests.op.Action.{Action};
    ghost use Rattle.vs_types.specs.Operation.{IsSomeAction};

    ghost Value = { Action };

    ghost view = { λ o. o.action };

    ghost invariant = { λ o. IsSomeAction o.action };

    ghost inverse = { λ a. record { action = a } };
}

impl Op {
    ghost use Rattle.vs_types.specs.declared.addresses.page.Page.{Page};
    ghost use Rattle.vs_types.specs.Operation.{IsAction, IsSomeAction, action_fault};
    ghost use Rattle.vs_types.specs.Faults.{GivesUnless};

    /// Maps the page at `base` to the physical address `phys`.
    ///
    /// # Errors
    ///
    /// `BadOp`: `NotCanonical`, `Unaligned`, `PhysUnaligned` or `PhysRange`, the first that holds.
    pub fn map(depth: Depth, base: u64, size: Size, phys: u64, rights: Rights) -> Result<Op, BadOp>
        ensures { let page : Page =
            record { base = base; size = size; phys = phys; rights = rights } in
            GivesUnless (action_fault depth (Action.Map page)) (Action.Map page) result }
    {
        if !depth.is_canonical(base) {
            return Err(BadOp::NotCanonical);
        }
        if !size.divides(base) {
            return Err(BadOp::Unaligned);
        }
        if !size.divides(phys) {
            return Err(BadOp::PhysUnaligned);
        }
        if phys > Page::PHYS_END - size.bytes() {
            return Err(BadOp::PhysRange);
        }
        Ok(Op {
            action: Action::Map(Page {
                base,
                size,
                phys,
                rights,
            }),
        })
    }

    /// Removes the page that begins at `base`.
    ///
    /// # Errors
    ///
    /// `BadOp`: `NotCanonical`, or `Unaligned` where the base is no multiple of 4,096, the first that holds.
    pub fn unmap(depth: Depth, base: u64) -> Result<Op, BadOp>
        ensures { GivesUnless (action_fault depth (Action.Unmap base)) (Action.Unmap base) result }
    {
        depth.test_base(base)?;
        Ok(Op {
            action: Action::Unmap(base),
        })
    }

    /// Gives the page that begins at `base` these rights and no others.
    ///
    /// # Errors
    ///
    /// `BadOp`: `NotCanonical`, or `Unaligned` where the base is no multiple of 4,096, the first that holds.
    pub fn protect(depth: Depth, base: u64, rights: Rights) -> Result<Op, BadOp>
        ensures { GivesUnless (action_fault depth (Action.Protect base rights))
            (Action.Protect base rights) result }
    {
        depth.test_base(base)?;
        Ok(Op {
            action: Action::Protect(base, rights),
        })
    }

    /// The operation that does this, which is well formed at some depth; nothing is tested.
    #[inline]
    pub fn of(action: Action) -> Op
        requires { IsSomeAction action }
        ensures { result ≡ action }
    {
        Op { action }
    }

    /// What it does.
    #[inline]
    pub fn action(self) -> Action
        ensures reads { result ≡ self }
        ensures well_formed { IsSomeAction self }
    {
        self.action
    }

    /// Whether it is well formed at this depth, and not only at another.
    pub fn fits(self, depth: Depth) -> bool
        ensures { IsTrue result ↔ IsAction depth self }
    {
        match self.action {
            Action::Map(page) => depth.is_canonical(page.base),
            Action::Unmap(base) | Action::Protect(base, _) => depth.is_canonical(base),
        }
    }
}
