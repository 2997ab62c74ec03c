//! What the numbers mean that C passes: they have 32 bits, so that none is cut.
ghost use Rattle.std.specs.Prelude.{◌≡◌};
ghost use Rattle.vs_types.specs.Codes.{access_code, mode_code, rights_code, size_code};
ghost use Rattle.vs_types.specs.Finds.{Finds};

use vs_types::{Access, Mode, Rights, Size};

/// The size of this code.
pub(crate) fn size_of(code: u32) -> Option<Size>
    ensures { Finds (λ size. code ≡ size_code size) result }
{
    match code {
        0 => Some(Size::K4),
        1 => Some(Size::M2),
        2 => Some(Size::G1),
        _ => None,
    }
}

/// The rights of this code.
pub(crate) fn rights_of(code: u32) -> Option<Rights>
    ensures { Finds (λ rights. code ≡ rights_code rights) result }
{
    if code > 7 {
        return None;
    }
    Rights::of_code(code as u8)
}

/// The mode of this code.
pub(crate) fn mode_of(code: u32) -> Option<Mode>
    ensures { Finds (λ mode. code ≡ mode_code mode) result }
{
    match code {
        0 => Some(Mode::Supervisor),
        1 => Some(Mode::User),
        _ => None,
    }
}

/// The access of this code.
pub(crate) fn access_of(code: u32) -> Option<Access>
    ensures { Finds (λ access. code ≡ access_code access) result }
{
    match code {
        0 => Some(Access::Read),
        1 => Some(Access::Write),
        2 => Some(Access::Fetch),
        _ => None,
    }
}
