//! The numbers that represent sizes, rights, modes, accesses and answers, and what a number means.

ghost use Rattle.std.specs.Prelude.{◌≡◌, ◌<◌};
ghost use Rattle.vs_types.specs.Codes.{access_code, answer_code, mode_code, rights_code, size_code};
ghost use Rattle.vs_types.specs.Finds.{Finds};

use crate::addresses::access::{Access, Mode};
use crate::addresses::page::{Rights, Size};
use crate::requests::answer::Answer;

impl Size {
    /// 0 to 2, by rising size.
    pub fn code(self) -> u8
        ensures is { result ≡ size_code self }
        ensures low { result < 3 }
    {
        match self {
            Size::K4 => 0,
            Size::M2 => 1,
            Size::G1 => 2,
        }
    }

    /// The size of this code; `None` above 2.
    pub fn of_code(code: u8) -> Option<Size>
        ensures { Finds (λ size. code ≡ size_code size) result }
    {
        match code {
            0 => Some(Size::K4),
            1 => Some(Size::M2),
            2 => Some(Size::G1),
            _ => None,
        }
    }
}

impl Rights {
    /// 1 for `write`, plus 2 for `user`, plus 4 for `exec`.
    pub fn code(self) -> u8
        ensures is { result ≡ rights_code self }
        ensures low { result < 8 }
    {
        u8::from(self.write) + 2 * u8::from(self.user) + 4 * u8::from(self.exec)
    }

    /// The rights of this code; `None` above 7.
    pub fn of_code(code: u8) -> Option<Rights>
        ensures { Finds (λ rights. code ≡ rights_code rights) result }
    {
        if code > 7 {
            return None;
        }
        Some(Rights {
            write: code % 2 == 1,
            user: code / 2 % 2 == 1,
            exec: code / 4 == 1,
        })
    }
}

impl Mode {
    /// 0 for a supervisor, 1 for a user.
    pub fn code(self) -> u8
        ensures { result ≡ mode_code self }
    {
        match self {
            Mode::Supervisor => 0,
            Mode::User => 1,
        }
    }

    /// The mode of this code; `None` above 1.
    pub fn of_code(code: u8) -> Option<Mode>
        ensures { Finds (λ mode. code ≡ mode_code mode) result }
    {
        match code {
            0 => Some(Mode::Supervisor),
            1 => Some(Mode::User),
            _ => None,
        }
    }
}

impl Access {
    /// 0 for a read, 1 for a write, 2 for a fetch.
    pub fn code(self) -> u8
        ensures { result ≡ access_code self }
    {
        match self {
            Access::Read => 0,
            Access::Write => 1,
            Access::Fetch => 2,
        }
    }

    /// The access of this code; `None` above 2.
    pub fn of_code(code: u8) -> Option<Access>
        ensures { Finds (λ access. code ≡ access_code access) result }
    {
        match code {
            0 => Some(Access::Read),
            1 => Some(Access::Write),
            2 => Some(Access::Fetch),
            _ => None,
        }
    }
}

impl Answer {
    /// 0 to 9, in the order of the variants.
    pub fn code(self) -> u8
        ensures { result ≡ answer_code self }
    {
        match self {
            Answer::Done => 0,
            Answer::Overlap(_) => 1,
            Answer::Full(_) => 2,
            Answer::Removed(_, _, _) => 3,
            Answer::NotMapped => 4,
            Answer::Inside(_) => 5,
            Answer::Changed(_) => 6,
            Answer::Mapped(_, _, _) => 7,
            Answer::Allowed(_) => 8,
            Answer::Fault(_) => 9,
        }
    }
}
