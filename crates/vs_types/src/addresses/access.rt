//! Accesses of an address, and which of them the rights of a page allow.

ghost use Rattle.std.specs.Prelude.{◌≡◌, ◌≢◌, ℕ, false};
ghost use Rattle.vs_types.specs.Access.{allows, fault_code};
ghost use Rattle.vs_types.specs.Space.{Space};
ghost use Rattle.vs_types.specs.Step.{allow, look};
ghost use Rattle.vs_types.specs.declared.requests.answer.Answer.TheVariants.{Fault, Mapped};
ghost use Rattle.vs_types.specs.declared.addresses.page.Rights.{Rights};
ghost use Rattle.vs_types.specs.declared.addresses.page.Size.{Size};

use crate::addresses::page::Rights;
use crate::requests::answer::Answer;

/// The maker of an access (Intel SDM volume 3A, chapter "Paging": supervisor-mode and user-mode accesses).
#[derive(Clone, Copy, Debug, PartialEq, Eq)]
pub enum Mode {
    /// The kernel.
    Supervisor,
    /// A program in user mode.
    User,
}

/// What an access does at an address (Intel SDM volume 3A, chapter "Paging": access rights).
#[derive(Clone, Copy, Debug, PartialEq, Eq)]
pub enum Access {
    /// It reads data.
    Read,
    /// It writes data.
    Write,
    /// It fetches an instruction.
    Fetch,
}

impl Rights {
    /// Whether they allow this access in this mode: a write needs `write`, a fetch `exec`, and any access in user mode `user`.
    pub fn allow(self, mode: Mode, access: Access) -> bool
        ensures { result ≡ allows self mode access }
    {
        let in_mode = match mode {
            Mode::Supervisor => true,
            Mode::User => self.user,
        };
        let to_access = match access {
            Access::Read => true,
            Access::Write => self.write,
            Access::Fetch => self.exec,
        };
        in_mode && to_access
    }
}

/// The error code of the page fault of an access (Intel SDM volume 3A, chapter "Paging": page-fault exceptions): 1 where a
/// page covers the address, plus 2 for a write, 4 in user mode, 16 for a fetch.
pub fn fault_code(present: bool, mode: Mode, access: Access) -> u64
    ensures { result ≡ fault_code present mode access }
{
    let in_mode = match mode {
        Mode::Supervisor => 0,
        Mode::User => 4,
    };
    let to_access = match access {
        Access::Read => 0,
        Access::Write => 2,
        Access::Fetch => 16,
    };
    u64::from(present) + in_mode + to_access
}

impl Answer {
    /// What an access is answered, where this is the answer to a resolve of its address: `Allowed` or `Fault`. Any other answer
    /// counts as one where no page is.
    pub fn accessed(self, mode: Mode, access: Access) -> Answer
        ensures looked { (space : Space) (address : ℕ) → self ≡ look space address
            → result ≡ allow space address mode access }
        ensures other { ((phys : ℕ) (size : Size) (rights : Rights)
            → self ≢ Mapped phys size rights)
            → result ≡ Fault (fault_code false mode access) }
    {
        match self {
            Answer::Mapped(phys, _, rights) if rights.allow(mode, access) => Answer::Allowed(phys),
            Answer::Mapped(_, _, _) => Answer::Fault(fault_code(true, mode, access)),
            _ => Answer::Fault(fault_code(false, mode, access)),
        }
    }
}
