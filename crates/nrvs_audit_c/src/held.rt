//! A box that C keeps between calls.

ghost use Rattle.std.specs.Prelude.{◌≡◌, Option, None, Some, is_some, true};
ghost use Rattle.std.specs.Coded.{coded_option};
ghost use Rattle.audit_numbers.specs.contracts.judging.Judging as judging_contract;
ghost use Rattle.audit_numbers.specs.declared.judging.Judging.{Judging};

use crate::loose::Loose;
use audit_numbers::Judging;
use std::alloc::Global;
use std::marker::Model;
use std::mem::replace;
use std::ptr::null_mut;

/// A box that C keeps, or nothing.
#[repr(C)]
#[derive(Drop)]
pub struct Held {
    at: *mut u8,
    alloc: Global,
    pub ghost value: { Option Judging } by { coded_option judging_contract.the_row.coded },
}

impl Model for Held {
    ghost use Rattle.nrvs_audit_c.specs.Held.{owned_at};

    ghost also_owns = { λ h. owned_at h.alloc h.at h.value };
}

impl Held {
    /// Nothing, at any pointer.
    pub(crate) fn none(at: *mut u8, alloc: Global) -> Held
        ensures { result.value ≡ None }
    {
        Held { at, alloc }
    }

    /// Takes out what is held, and leaves nothing.
    pub(crate) fn take(&mut self, alloc: Global) -> Held
        ensures taken { result.value ≡ self.old.value }
        ensures left { self.new.value ≡ None }
    {
        let nowhere = null_mut();
        let nothing = Held::none(nowhere, alloc);
        replace(self, nothing)
    }

    /// Gives a box to C.
    pub(crate) fn of(loose: Loose<Judging, Global>) -> Held
        ensures { result.value ≡ Some loose.value }
    {
        let Loose { at, alloc } = loose;
        Held {
            at: at as *mut u8,
            alloc,
        }
    }

    /// Takes it back.
    pub(crate) fn into_loose(self) -> Loose<Judging, Global>
        requires { is_some self.value ≡ true }
        ensures { Some result.value ≡ self.value }
    {
        let Held { at, alloc } = self;
        Loose {
            at: at as *mut Judging,
            alloc,
        }
    }
}
