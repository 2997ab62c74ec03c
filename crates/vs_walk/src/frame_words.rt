//! The words of one frame.
ghost use Rattle.std.specs.Prelude.{◌≡◌, ◌≢◌, ◌≤◌, ◌<◌, ℕ, length, slice_index};
ghost use Rattle.vs_types.specs.declared.addresses.frame.TheConstants.{FRAME_WORDS};
ghost use Rattle.vs_walk.specs.inside.Borrowed.{IsFrom, IsNext};
ghost use Rattle.vs_walk.specs.inside.Kept.{IsKept, Rise, filled};

use crate::zeros::next_word;
use std::marker::Model;
use vs_types::FRAME_WORDS;

/// What is borrowed of the words of a frame.
#[derive(Clone, Copy)]
enum Borrowed<'a> {
    /// All 512.
    Whole(&'a [u64]),
    /// Those that are not 0: the index of each, by rising index, and the words.
    Nonzero(&'a [u16], &'a [u64]),
}

/// The 512 words of a frame. They are borrowed: all of them, or those that are not 0, with the index of each. Contracts
/// see the list of all.
#[derive(Drop)]
pub struct FrameWords<'a> {
    borrowed: Borrowed<'a>,
}

impl<'a> Model for FrameWords<'a> {
    ghost use Rattle.std.specs.Prelude.{ℕ, List};
    ghost use Rattle.vs_walk.specs.inside.Borrowed.{AreBorrowed, all_words};

    ghost Value = { List ℕ };

    ghost view = { λ f. all_words f.borrowed };

    ghost invariant = { λ f. AreBorrowed f.borrowed };
}

/// The first word from some index on that is not 0.
#[derive(Clone, Copy)]
pub(crate) struct NextWord {
    /// Its index, or 512 where there is none.
    pub(crate) index: usize,
    /// The word, or 0 where there is none.
    pub(crate) word: u64,
    /// The index of the one after it among those that are kept, if the frame is kept so.
    pub(crate) next_place: usize,
}

/// The index of the first of these places that is `start` or above. The search is over at once if that is `guess`.
fn place_from(places: &[u16], start: usize, guess: usize) -> usize
    requires start { start ≤ FRAME_WORDS }
    requires rise { Rise 0 places.now FRAME_WORDS }
    ensures { IsFrom places.now start result }
{
    if guess > 0
        && guess < places.len()
        && (places[guess - 1] as usize) < start
        && places[guess] as usize >= start
    {
        return guess;
    }
    match places.binary_search(&(start as u16)) {
        Ok(place) => place,
        Err(place) => place,
    }
}

/// The word at an index of a frame of which these words are kept, at these places.
fn word_among(places: &[u16], words: &[u64], index: usize) -> u64
    requires index { index < FRAME_WORDS }
    requires kept { IsKept places.now words.now FRAME_WORDS }
    ensures { result ≡ slice_index (filled 0 places.now words.now FRAME_WORDS) index }
{
    let place = place_from(places, index, index);
    if place < places.len() && places[place] as usize == index {
        words[place]
    } else {
        0
    }
}

/// The first word from `start` on that is not 0, of a frame of which these words are kept, at these places.
fn next_among(places: &[u16], words: &[u64], start: usize, guess: usize) -> NextWord
    requires start { start ≤ FRAME_WORDS }
    requires kept { IsKept places.now words.now FRAME_WORDS }
    ensures { IsNext (filled 0 places.now words.now FRAME_WORDS) start result }
{
    let place = place_from(places, start, guess);
    if place < places.len() {
        NextWord {
            index: places[place] as usize,
            word: words[place],
            next_place: place + 1,
        }
    } else {
        NextWord {
            index: FRAME_WORDS,
            word: 0,
            next_place: 0,
        }
    }
}

/// The first word from `start` on that is not 0, of a frame that lies whole in memory.
fn next_of_all(words: &[u64], start: usize) -> NextWord
    requires start { start ≤ FRAME_WORDS }
    requires whole { length words.now ≡ FRAME_WORDS }
    ensures { IsNext words.now start result }
{
    let index = next_word(words, start);
    NextWord {
        index,
        word: if index < FRAME_WORDS { words[index] } else { 0 },
        next_place: 0,
    }
}

impl<'a> FrameWords<'a> {
    /// The words of a frame that lies whole in memory.
    pub fn whole(words: &'a [u64; FRAME_WORDS]) -> FrameWords<'a>
        ensures { result ≡ words.now }
    {
        FrameWords {
            borrowed: Borrowed::Whole(words),
        }
    }

    /// These words, which are those of a whole frame.
    pub(crate) fn lent(words: &'a [u64]) -> FrameWords<'a>
        requires { length words.now ≡ FRAME_WORDS }
        ensures { result ≡ words.now }
    {
        FrameWords {
            borrowed: Borrowed::Whole(words),
        }
    }

    /// These words at these places, and zeros at all others.
    pub(crate) fn nonzero(places: &'a [u16], words: &'a [u64]) -> FrameWords<'a>
        requires { IsKept places.now words.now FRAME_WORDS }
        ensures { result ≡ filled 0 places.now words.now FRAME_WORDS }
    {
        FrameWords {
            borrowed: Borrowed::Nonzero(places, words),
        }
    }

    /// Shows that there are 512. It does nothing: a call that reads a field shows it.
    fn has_512(&self)
        ensures { length self.now ≡ FRAME_WORDS }
    {
        let _borrowed = &self.borrowed;
    }

    /// How many there are: 512.
    pub fn len(&self) -> usize
        ensures reads { result ≡ length self.now }
        ensures whole { result ≡ FRAME_WORDS }
    {
        self.has_512();
        FRAME_WORDS
    }

    /// The word at an index; 0 from 512 on.
    pub fn word(&self, index: usize) -> u64
        ensures { result ≡ slice_index self.now index }
    {
        self.has_512();
        if index >= FRAME_WORDS {
            return 0;
        }
        match self.borrowed {
            Borrowed::Whole(words) => words[index],
            Borrowed::Nonzero(places, words) => word_among(places, words, index),
        }
    }

    /// The first word from `start` on that is not 0. It is found at once where it lies at `guess` among those that are kept.
    pub(crate) fn next_word(&self, start: usize, guess: usize) -> NextWord
        requires { start ≤ FRAME_WORDS }
        ensures next { IsNext self.now start result }
        ensures whole { length self.now ≡ FRAME_WORDS }
    {
        self.has_512();
        match self.borrowed {
            Borrowed::Whole(words) => next_of_all(words, start),
            Borrowed::Nonzero(places, words) => next_among(places, words, start, guess),
        }
    }

    /// The index of the first word from `start` on that is not 0, or 512 where all of these are 0.
    pub fn next_nonzero(&self, start: usize) -> usize
        requires { start ≤ FRAME_WORDS }
        ensures behind { start ≤ result }
        ensures within { result ≤ FRAME_WORDS }
        ensures zeros { (i : ℕ) → start ≤ i → i < result → slice_index self.now i ≡ 0 }
        ensures found { result < FRAME_WORDS → slice_index self.now result ≢ 0 }
        ensures whole { length self.now ≡ FRAME_WORDS }
    {
        self.next_word(start, start).index
    }
}
