//! Addresses in words.
ghost use Rattle.std.specs.Prelude.{◌≡◌, ◌≤◌, ◌++◌, length, OnOk, string_bytes};
ghost use Rattle.std.specs.Str.Parse.{AllDigits, digits_value};
ghost use Rattle.vs_types.specs.Finds.{Finds};
ghost use Rattle.vs_text.specs.Words.{hexadecimal, SpellsAddress};

use std::alloc::AllocError;

/// The number that hexadecimal digits of either case spell.
fn parse_hexadecimal(digits: &[u8]) -> Option<u64>
    requires { length digits.now ≤ 16 }
    ensures { Finds (λ number. AllDigits 16 digits.now
        × (number ≡ digits_value 16 digits.now)) result }
{
    let mut number = 0;
    for digit in digits {
        let value = char::from(*digit).to_digit(16)?;
        number = number * 16 + u64::from(value);
    }
    Some(number)
}

/// The number that `0x` and 1 to 16 hexadecimal digits of either case spell.
pub fn parse_address(word: &[u8]) -> Option<u64>
    ensures { Finds (SpellsAddress word.now) result }
{
    let digits = word.strip_prefix(b"0x")?;
    if digits.is_empty() || digits.len() > 16 {
        return None;
    }
    parse_hexadecimal(digits)
}

/// Adds an address: `0x` and lower case digits. It allocates memory where the text has no room.
///
/// # Errors
///
/// Out of memory: a part of it may have been added.
pub fn push_address(text: &mut String, address: u64) -> Result<(), AllocError>
    ensures { OnOk result
        (string_bytes text.new ≡ string_bytes text.old ++ hexadecimal address) }
{
    write!(text, "0x{address:x}")
}
