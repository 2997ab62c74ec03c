//! The next word that is not 0, eight words at a time.
ghost use Rattle.std.specs.Prelude.{◌≡◌, ◌≢◌, ◌+◌, ◌≤◌, ◌<◌, ℕ, IsTrue, IsFalse, length, slice_index};
ghost use Rattle.vs_walk.specs.inside.Traversed.{AreZeros};

/// Whether the eight words from this index on are 0.
#[inline]
pub fn are_zero(words: &[u64], at: usize) -> bool
    requires { at + 8 ≤ length words.now }
    ensures zeros { IsTrue result → (i : ℕ) → at ≤ i → i < at + 8 → slice_index words.now i ≡ 0 }
    ensures other { IsFalse result → (i : ℕ) × (at ≤ i) × (i < at + 8)
        × (slice_index words.now i ≢ 0) }
{
    (words[at] == 0)
        & (words[at + 1] == 0)
        & (words[at + 2] == 0)
        & (words[at + 3] == 0)
        & (words[at + 4] == 0)
        & (words[at + 5] == 0)
        & (words[at + 6] == 0)
        & (words[at + 7] == 0)
}

/// The index of the first word from `start` on that is not 0, or that of the end. It passes zeros eight at a time.
#[inline]
pub(crate) fn next_word(words: &[u64], start: usize) -> usize
    requires { start ≤ length words.now }
    ensures behind { start ≤ result }
    ensures within { result ≤ length words.now }
    ensures zeros { AreZeros words.now start result }
    ensures found { result < length words.now → slice_index words.now result ≢ 0 }
{
    let mut index = start;
    while index < words.len() && words[index] == 0 {
        index += if index + 8 <= words.len() && are_zero(words, index) {
            8
        } else {
            1
        };
    }
    index
}
