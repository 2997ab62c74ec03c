//! The words of four nodes in one array, and each operation upon them.

ghost use Rattle.std.specs.Prelude.{◌<◌};

use nr_machine::{Operation, Word};
use std::cmp;

/// The words: two of all nodes, two of each, and two of each entry of the rings.
pub type Words = [u64; 138];

/// The place of a word.
fn index(word: Word) -> usize
    ensures { result < 138 }
{
    let index = match word {
        Word::Head => 0,
        Word::Completed => 1,
        Word::Local(node) => 2 + node % 4,
        Word::Done(node) => 6 + node % 4,
        Word::First(node, index) => 10 + 32 * (node % 4) + 2 * (index % 16),
        Word::Second(node, index) => 11 + 32 * (node % 4) + 2 * (index % 16),
    };
    index as usize
}

/// Carries an operation out: what the word was before.
pub fn carry_out(words: &mut Words, operation: Operation) -> u64 {
    match operation {
        Operation::Load(word) => words[index(word)],
        Operation::Store(word, value) => {
            words[index(word)] = value;
            0
        }
        Operation::Exchange(word, old, new) => {
            let was = words[index(word)];
            if was == old {
                words[index(word)] = new;
            }
            was
        }
        Operation::Max(word, value) => {
            let was = words[index(word)];
            words[index(word)] = cmp::max(was, value);
            was
        }
    }
}
