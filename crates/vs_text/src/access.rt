//! Accesses in words.
ghost use Rattle.std.specs.Prelude.{◌≡◌};
ghost use Rattle.vs_types.specs.Finds.{Finds};
ghost use Rattle.vs_text.specs.Words.{access_text, mode_text};

use vs_types::{Access, Mode};

/// `s` or `u`.
pub fn parse_mode(word: &[u8]) -> Option<Mode>
    ensures { Finds (λ mode. word.now ≡ mode_text mode) result }
{
    match word {
        b"s" => Some(Mode::Supervisor),
        b"u" => Some(Mode::User),
        _ => None,
    }
}

/// `s` or `u`.
pub fn mode_text(mode: Mode) -> &'static str
    ensures { result.now ≡ mode_text mode }
{
    match mode {
        Mode::Supervisor => "s",
        Mode::User => "u",
    }
}

/// `r`, `w` or `x`.
pub fn parse_access(word: &[u8]) -> Option<Access>
    ensures { Finds (λ access. word.now ≡ access_text access) result }
{
    match word {
        b"r" => Some(Access::Read),
        b"w" => Some(Access::Write),
        b"x" => Some(Access::Fetch),
        _ => None,
    }
}

/// `r`, `w` or `x`.
pub fn access_text(access: Access) -> &'static str
    ensures { result.now ≡ access_text access }
{
    match access {
        Access::Read => "r",
        Access::Write => "w",
        Access::Fetch => "x",
    }
}
