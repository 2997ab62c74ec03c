//! Texts cut at a separator.
ghost use Rattle.std.specs.Prelude.{◌≡◌, ◌∷◌, map, take};
ghost use Rattle.vs_text.specs.Words.{parts, words};
ghost use Rattle.nr_script.specs.inside.Left.{parts_left};

use arrayvec::ArrayVec;
use memchr::memchr;

/// The most words that are kept of a line: one more than any line has that says something.
pub(crate) const MOST_WORDS: usize = 7;

/// The first part of a text, and what comes after its separator, if there is one.
pub(crate) fn cut(text: &[u8], separator: u8) -> (&[u8], Option<&[u8]>)
    ensures { parts separator text.now ≡ result.0.now ∷ parts_left separator result.1 }
{
    match memchr(separator, text) {
        Some(index) => (&text[..index], Some(&text[index + 1..])),
        None => (text, None),
    }
}

/// The words of a line, or the first seven of them.
pub(crate) fn split_words(line: &[u8]) -> ArrayVec<&[u8], MOST_WORDS>
    ensures { map (λ word. word.now) result.items ≡ take 7 (words line.now) }
{
    let mut words = ArrayVec::new();
    let mut left = Some(line);
    for turn in 0..MOST_WORDS {
        let Some(text) = left else {
            return words;
        };
        let (word, rest) = cut(text, b' ');
        words.push(word);
        left = rest;
    }
    words
}
