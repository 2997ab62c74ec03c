//! Numbers of threads and of replicas in words.
ghost use Rattle.std.specs.Prelude.{◌≡◌, ◌<◌, [], ◌∷◌, decimal};
ghost use Rattle.vs_types.specs.Finds.{Finds};

fn parse_digit(digit: u8) -> Option<u8>
    ensures { Finds (λ number. (number < 64) × (digit ∷ [] ≡ decimal number)) result }
{
    if digit.is_ascii_digit() {
        Some(digit - b'0')
    } else {
        None
    }
}

fn parse_digits(tens: u8, digit: u8) -> Option<u8>
    ensures { Finds (λ number. (number < 64) × (tens ∷ digit ∷ [] ≡ decimal number)) result }
{
    if tens < b'1' || tens > b'6' || !digit.is_ascii_digit() {
        return None;
    }
    let number = (tens - b'0') * 10 + (digit - b'0');
    if number < 64 { Some(number) } else { None }
}

/// A decimal number from 0 to 63 without leading zeros.
pub(crate) fn parse_number(word: &[u8]) -> Option<u8>
    ensures { Finds (λ number. (number < 64) × (word.now ≡ decimal number)) result }
{
    match word {
        [digit] => parse_digit(*digit),
        [tens, digit] => parse_digits(*tens, *digit),
        _ => None,
    }
}
