//! The handle of a chain that C keeps between calls.

ghost use Rattle.std.specs.Prelude.{◌≡◌, Option, None, Some, is_some, true};
ghost use Rattle.nrvs_audit_c.specs.declared.handle.TheConstants.{MADE};

use crate::held::Held;
use crate::loose::Loose;
use audit_numbers::Judging;
use std::alloc::Global;

/// The magic word of a handle that was made.
pub(crate) const MADE: u64 = 0x6E72_7673_6368_6169;

/// What C keeps of a chain between calls. C writes none of it.
#[repr(C)]
#[derive(Drop)]
pub struct Handle {
    /// `MADE` where the chain was begun, and isn't freed.
    pub magic: u64,
    /// What the chain has come to.
    pub held: Held,
}

impl Handle {
    /// A handle that was made.
    pub(crate) fn of(judging: Box<Judging>) -> Handle
        ensures made { result.magic ≡ MADE }
        ensures held { result.held.value ≡ Some judging.value }
    {
        Handle {
            magic: MADE,
            held: Held::of(Loose::of(judging)),
        }
    }

    /// Takes out what the chain has come to, and leaves a handle that was never made.
    pub(crate) fn open(&mut self, alloc: Global) -> Box<Judging>
        requires { is_some self.old.held.value ≡ true }
        ensures held { Some result.value ≡ self.old.held.value }
        ensures magic { self.new.magic ≡ 0 }
        ensures left { self.new.held.value ≡ None }
    {
        self.magic = 0;
        let held = self.held.take(alloc);
        held.into_loose().into_box()
    }
}
