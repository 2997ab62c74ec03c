//! Sizes and rights of pages in words.
ghost use Rattle.std.specs.Prelude.{◌≡◌, ◌≢◌, [], ◌∷◌, ◌++◌, OnOk, string_bytes};
ghost use Rattle.vs_types.specs.Finds.{Finds};
ghost use Rattle.vs_text.specs.Words.{mark, page_text, rights_text, size_text};

use crate::address::push_address;
use std::alloc::AllocError;
use vs_types::{Rights, Size};

/// `4K`, `2M` or `1G`.
pub fn parse_size(word: &[u8]) -> Option<Size>
    ensures { Finds (λ size. word.now ≡ size_text size) result }
{
    match word {
        b"4K" => Some(Size::K4),
        b"2M" => Some(Size::M2),
        b"1G" => Some(Size::G1),
        _ => None,
    }
}

/// `4K`, `2M` or `1G`.
pub fn size_text(size: Size) -> &'static str
    ensures { result.now ≡ size_text size }
{
    match size {
        Size::K4 => "4K",
        Size::M2 => "2M",
        Size::G1 => "1G",
    }
}

/// Whether a right is given: its letter, or a dash.
fn parse_mark(byte: u8, letter: u8) -> Option<bool>
    requires { letter ≢ 45 }
    ensures { Finds (λ given. byte ∷ [] ≡ mark given (letter ∷ [])) result }
{
    if byte == letter {
        Some(true)
    } else if byte == b'-' {
        Some(false)
    } else {
        None
    }
}

/// The letter of a right, or a dash where it is not given.
pub(crate) fn mark(given: bool, letter: &'static str) -> &'static str
    ensures { result.now ≡ mark given letter.entry.now }
{
    if given { letter } else { "-" }
}

/// `wux`, with a dash for each right that is not given.
pub fn parse_rights(word: &[u8]) -> Option<Rights>
    ensures { Finds (λ rights. word.now ≡ rights_text rights) result }
{
    let [write, user, exec] = word else {
        return None;
    };
    let write = parse_mark(*write, b'w')?;
    let user = parse_mark(*user, b'u')?;
    let exec = parse_mark(*exec, b'x')?;
    Some(Rights { write, user, exec })
}

/// Adds `wux`, with a dash for each right that is not given. It allocates memory where the text has no room.
///
/// # Errors
///
/// Out of memory: a part of it may have been added.
pub fn push_rights(text: &mut String, rights: Rights) -> Result<(), AllocError>
    ensures { OnOk result
        (string_bytes text.new ≡ string_bytes text.old ++ rights_text rights) }
{
    text.push_str(mark(rights.write, "w"))?;
    text.push_str(mark(rights.user, "u"))?;
    text.push_str(mark(rights.exec, "x"))
}

/// Adds a page's physical address, its size and its rights. It allocates memory where the text has no room.
///
/// # Errors
///
/// Out of memory: a part of it may have been added.
pub fn push_page(text: &mut String, phys: u64, size: Size, rights: Rights) -> Result<(), AllocError>
    ensures { OnOk result
        (string_bytes text.new ≡ string_bytes text.old ++ page_text phys size rights) }
{
    push_address(text, phys)?;
    text.push(' ')?;
    text.push_str(size_text(size))?;
    text.push(' ')?;
    push_rights(text, rights)
}
