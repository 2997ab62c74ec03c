//! Which words of a table follow one another. None is read twice.
ghost use Rattle.std.specs.Prelude.{◌≡◌, ◌≢◌, ◌+◌, ◌-◌, ◌<◌, ◌≤◌, ◌⊎◌, ◌%◌, ℕ, IsTrue, IsFalse, slice_index};
ghost use Rattle.vs_types.specs.declared.addresses.frame.TheConstants.{FRAME_WORDS};
ghost use Rattle.vs_range.specs.Planner.{IsPageWord, HasOther};

use crate::word::is_page;
use vs_plan::FrameWords;
use vs_types::{FRAME_WORDS, is_present};

/// Words that are alike, and what was read of those behind them.
#[derive(Clone, Copy)]
pub(crate) struct Alike {
    /// How many there are.
    pub count: usize,
    /// From this index on no word was read.
    pub from: usize,
    /// Whether a word between them and that index is not 0.
    pub other: bool,
}

/// How many words from an index on are absent, of at most so many; or, by bit 1 in place of 0, are present. The first of them is.
pub(crate) fn count_alike<W: FrameWords>(
    words: &mut W,
    index: usize,
    most: usize,
    bit: u64,
) -> Alike
    requires bit { bit < 2 }
    requires some { 1 ≤ most }
    requires room { index + most ≤ FRAME_WORDS }
    requires first { slice_index (W.words words.old) index % 2 ≡ bit }
    requires unread { (i : ℕ) → i < FRAME_WORDS → i ≢ index → W.is_unread words.old i }
    ensures same { W.words words.new ≡ W.words words.old }
    ensures some { 1 ≤ result.count }
    ensures most { result.count ≤ most }
    ensures alike { (k : ℕ) → k < result.count → slice_index (W.words words.old) (index + k) % 2 ≡ bit }
    ensures ends { result.count < most → slice_index (W.words words.old) (index + result.count) % 2 ≢ bit }
    ensures from { index + result.count ≤ result.from }
    ensures before { (i : ℕ) → i < index → W.is_unread words.new i }
    ensures behind { (i : ℕ) → result.from ≤ i → i < FRAME_WORDS → W.is_unread words.new i }
    ensures other { IsTrue result.other → (i : ℕ) × (index + result.count ≤ i) × (i < FRAME_WORDS)
        × (slice_index (W.words words.old) i ≢ 0) }
    ensures none { IsFalse result.other → (i : ℕ) → index + result.count ≤ i → i < result.from
        → slice_index (W.words words.old) i ≡ 0 }
{
    let mut count = 1;
    while count + 4 <= most {
        let four = read_four(words, index + count);
        let alike = leading(&four, bit);
        if alike < 4 {
            let other = has_some(&four, alike);
            return Alike {
                count: count + alike,
                from: index + count + 4,
                other,
            };
        }
        count += 4;
    }
    while count < most {
        let word = words.read(index + count);
        if !has_bit(word, bit) {
            return Alike {
                count,
                from: index + count + 1,
                other: word != 0,
            };
        }
        count += 1;
    }
    Alike {
        count,
        from: index + count,
        other: false,
    }
}

/// Whether the bit of a word that says whether it is present is this one.
#[inline]
fn has_bit(word: u64, bit: u64) -> bool
    requires { bit < 2 }
    ensures same { IsTrue result → word % 2 ≡ bit }
    ensures other { IsFalse result → word % 2 ≢ bit }
{
    if bit == 1 {
        is_present(word)
    } else {
        !is_present(word)
    }
}

/// Four words that follow one another.
#[inline]
fn read_four<W: FrameWords>(words: &mut W, index: usize) -> [u64; 4]
    requires room { index + 4 ≤ FRAME_WORDS }
    requires unread { (i : ℕ) → index ≤ i → i < index + 4 → W.is_unread words.old i }
    ensures is { (k : ℕ) → k < 4 → slice_index result k ≡ slice_index (W.words words.old) (index + k) }
    ensures same { W.words words.new ≡ W.words words.old }
    ensures others { (i : ℕ) → (i < index) ⊎ (index + 4 ≤ i) → W.is_unread words.old i
        → W.is_unread words.new i }
{
    let a = words.read(index);
    let b = words.read(index + 1);
    let c = words.read(index + 2);
    let d = words.read(index + 3);
    [a, b, c, d]
}

/// How many of four words have this bit, from the first on. All are looked at together, since mostly all have it.
#[inline]
fn leading(four: &[u64; 4], bit: u64) -> usize
    requires { bit < 2 }
    ensures few { result ≤ 4 }
    ensures alike { (k : ℕ) → k < result → slice_index four.now k % 2 ≡ bit }
    ensures ends { result < 4 → slice_index four.now result % 2 ≢ bit }
{
    let all = if bit == 0 {
        !(is_present(four[0]) | is_present(four[1]) | is_present(four[2]) | is_present(four[3]))
    } else {
        is_present(four[0]) & is_present(four[1]) & is_present(four[2]) & is_present(four[3])
    };
    if all {
        4
    } else if !has_bit(four[0], bit) {
        0
    } else if !has_bit(four[1], bit) {
        1
    } else if !has_bit(four[2], bit) {
        2
    } else {
        3
    }
}

/// Whether one of four words from a number on is not 0.
#[inline(never)]
fn has_some(four: &[u64; 4], from: usize) -> bool
    ensures some { IsTrue result → (k : ℕ) × (from ≤ k) × (k < 4) × (slice_index four.now k ≢ 0) }
    ensures none { IsFalse result → (k : ℕ) → from ≤ k → k < 4 → slice_index four.now k ≡ 0 }
{
    for k in from..4 {
        if four[k] != 0 {
            return true;
        }
    }
    false
}

/// How many words from an index on are entries of pages, of at most so many, in a table of this level. The first of them is.
pub(crate) fn count_pages<W: FrameWords>(
    words: &mut W,
    level: u8,
    index: usize,
    most: usize,
) -> Alike
    requires level_some { 1 ≤ level }
    requires level_few { level ≤ 5 }
    requires some { 1 ≤ most }
    requires room { index + most ≤ FRAME_WORDS }
    requires first { IsPageWord level (slice_index (W.words words.old) index) }
    requires unread { (i : ℕ) → i < FRAME_WORDS → i ≢ index → W.is_unread words.old i }
    ensures same { W.words words.new ≡ W.words words.old }
    ensures some { 1 ≤ result.count }
    ensures most { result.count ≤ most }
    ensures pages { (k : ℕ) → k < result.count → IsPageWord level (slice_index (W.words words.old) (index + k)) }
    ensures ends { result.count < most
        → IsPageWord level (slice_index (W.words words.old) (index + result.count)) → ⊥ }
    ensures from { index + result.count ≤ result.from }
    ensures before { (i : ℕ) → i < index → W.is_unread words.new i }
    ensures behind { (i : ℕ) → result.from ≤ i → i < FRAME_WORDS → W.is_unread words.new i }
    ensures other { IsTrue result.other → (i : ℕ) × (index + result.count ≤ i) × (i < FRAME_WORDS)
        × (slice_index (W.words words.old) i ≢ 0) }
    ensures none { IsFalse result.other → (i : ℕ) → index + result.count ≤ i → i < result.from
        → slice_index (W.words words.old) i ≡ 0 }
{
    if level == 1 {
        return count_alike(words, index, most, 1);
    }
    for k in 1..most {
        let word = words.read(index + k);
        if !is_page(level, word) {
            return Alike {
                count: k,
                from: index + k + 1,
                other: word != 0,
            };
        }
    }
    Alike {
        count: most,
        from: index + most,
        other: false,
    }
}

/// Whether a word before an index, or one from another on, is not 0.
fn has_other<W: FrameWords>(words: &mut W, index: usize, from: usize) -> bool
    requires low { index ≤ FRAME_WORDS }
    requires before { (i : ℕ) → i < FRAME_WORDS → i < index → W.is_unread words.old i }
    requires behind { (i : ℕ) → i < FRAME_WORDS → from ≤ i → W.is_unread words.old i }
    requires order { index ≤ from }
    ensures some { IsTrue result → (i : ℕ) × (i < FRAME_WORDS) × ((i < index) ⊎ (from ≤ i))
        × (slice_index (W.words words.old) i ≢ 0) }
    ensures none { IsFalse result → (i : ℕ) → i < FRAME_WORDS → (i < index) ⊎ (from ≤ i)
        → slice_index (W.words words.old) i ≡ 0 }
{
    for i in from..FRAME_WORDS {
        if words.read(i) != 0 {
            return true;
        }
    }
    for i in 0..index {
        if words.read(i) != 0 {
            return true;
        }
    }
    false
}

/// How many pages of a run are removed, so that the table has a word besides them if that is asked: all, or all but the last.
pub(crate) fn removed<W: FrameWords>(
    words: &mut W,
    index: usize,
    pages: Alike,
    stays: bool,
) -> usize
    requires some { 1 ≤ pages.count }
    requires room { index + pages.count ≤ FRAME_WORDS }
    requires last { slice_index (W.words words.old) (index + pages.count - 1) ≢ 0 }
    requires from { index + pages.count ≤ pages.from }
    requires other { IsTrue pages.other → (i : ℕ) × (index + pages.count ≤ i) × (i < FRAME_WORDS)
        × (slice_index (W.words words.old) i ≢ 0) }
    requires none { IsFalse pages.other → (i : ℕ) → index + pages.count ≤ i → i < pages.from
        → slice_index (W.words words.old) i ≡ 0 }
    requires before { (i : ℕ) → i < index → W.is_unread words.old i }
    requires behind { (i : ℕ) → pages.from ≤ i → i < FRAME_WORDS → W.is_unread words.old i }
    ensures few { result ≤ pages.count }
    ensures least { pages.count ≤ result + 1 }
    ensures other { IsTrue stays → HasOther (W.words words.old) index result }
    ensures alone { result < pages.count → (i : ℕ) → i < FRAME_WORDS
        → (i < index) ⊎ (index + pages.count ≤ i) → slice_index (W.words words.old) i ≡ 0 }
{
    if !stays || pages.other || has_other(words, index, pages.from) {
        return pages.count;
    }
    pages.count - 1
}
