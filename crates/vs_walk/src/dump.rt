//! Dumps: the page table of a replica, frame by frame, and one to which a frame is coming.
ghost use Rattle.std.specs.Prelude.{◌≡◌, ◌+◌, ◌<◌, ◌≤◌, ◌^◌, [], ◌∷◌, ◌++◌, length, All, IfOk, OnOk, OnErr, slice_index};
ghost use Rattle.std.specs.FinMap as finite;
ghost use Rattle.std.specs.Vec.{vec_len, vec_capacity};
ghost use Rattle.vs_types.specs.declared.addresses.frame.TheConstants.{FRAME_WORDS};
ghost use Rattle.vs_types.specs.declared.limits.TheConstants.{FRAMES};
ghost use Rattle.vs_walk.specs.Dump.{IsDump};
ghost use Rattle.vs_walk.specs.inside.Kept.{AreAdded, IsAdded, IsSpan, words_at};

use crate::frame_words::FrameWords;
use crate::frames::Frames;
use std::alloc::Global;
use std::marker::Model;
use vs_types::{FRAME_WORDS, Memory};

/// The most words that are not 0 of a frame that is kept without its zeros. Beyond that the whole frame takes fewer bytes.
const MOST_NONZERO: usize = 409;

/// What a dump keeps of a frame, and where in its lists.
#[derive(Clone, Copy, Debug)]
enum Span {
    /// All 512 words, from this index of the list of words on.
    Whole(usize),
    /// The words that are not 0: where they begin in the list of words, where their indexes begin in the list of
    /// indexes, and how many there are.
    Nonzero(usize, usize, usize),
}

/// The page table of a replica as it was after some entries of the log. It keeps its frames by rising number. The numbers
/// are in one list, and the words of all frames in another. A frame with many zeros has only its other words kept, and
/// the index of each in its frame.
#[derive(Debug, Drop)]
pub struct Dump {
    applied: u32,
    root: u64,
    numbers: Vec<u64>,
    spans: Vec<Span>,
    places: Vec<u16>,
    words: Vec<u64>,
    /// Room for the words of a frame that is coming.
    coming: Vec<u64>,
}

impl Model for Dump {
    ghost use Rattle.vs_walk.specs.Dump.{Image, image_code};
    ghost use Rattle.vs_walk.specs.inside.Kept.{AreKept, kept};

    ghost Value = { Image };

    ghost coded = { image_code };

    ghost view = { λ d. kept d.applied d.root d.numbers.items d.spans.items d.places.items d.words.items };

    ghost invariant = { λ d. AreKept d.applied d.root d.numbers.items d.spans.items d.places.items d.words.items };
}

impl Dump {
    /// A dump with no frames yet, of a table whose root is the frame of this number, after `applied` entries of the
    /// log. It allocates no memory.
    pub fn new(alloc: Global, applied: u32, root: u64) -> Dump
        ensures made { result ≡ record { applied = applied; root = root; frames = finite.empty } }
        ensures numbers { finite.keys result.frames ≡ [] }
        ensures count { finite.len result.frames ≡ 0 }
    {
        Dump {
            applied,
            root,
            numbers: Vec::new(alloc),
            spans: Vec::new(alloc),
            places: Vec::new(alloc),
            words: Vec::new(alloc),
            coming: Vec::new(alloc),
        }
    }

    /// Adds a frame, whose number is above those of all that are held and below 2^40. It allocates memory where there is no
    /// room for a frame more.
    ///
    /// # Errors
    ///
    /// Out of memory: the dump is unchanged.
    pub fn push(&mut self, number: u64, words: &[u64; FRAME_WORDS]) -> Result<(), Memory>
        requires above { All (λ held. held < number) (finite.keys self.old.frames) }
        requires in_range { number < 2 ^ 40 }
        requires room { finite.len self.old.frames < FRAMES }
        ensures ok { OnOk result
            (self.new
            ≡ record self.old { frames = finite.insert self.old.frames number words.now }) }
        ensures numbers { OnOk result
            (finite.keys self.new.frames ≡ finite.keys self.old.frames ++ number ∷ []) }
        ensures count { OnOk result (finite.len self.new.frames ≡ finite.len self.old.frames + 1) }
        ensures err { OnErr result (self.new ≡ self.old) }
    {
        self.add(number, &FrameWords::whole(words))
    }

    /// As `push`.
    pub(crate) fn add(&mut self, number: u64, words: &FrameWords<'_>) -> Result<(), Memory>
        requires above { All (λ held. held < number) (finite.keys self.old.frames) }
        requires in_range { number < 2 ^ 40 }
        requires room { finite.len self.old.frames < FRAMES }
        ensures ok { OnOk result
            (self.new
            ≡ record self.old { frames = finite.insert self.old.frames number words.now }) }
        ensures numbers { OnOk result
            (finite.keys self.new.frames ≡ finite.keys self.old.frames ++ number ∷ []) }
        ensures count { OnOk result (finite.len self.new.frames ≡ finite.len self.old.frames + 1) }
        ensures err { OnErr result (self.new ≡ self.old) }
    {
        self.numbers.reserve(1)?;
        self.spans.reserve(1)?;
        self.places.reserve(FRAME_WORDS)?;
        self.words.reserve(FRAME_WORDS)?;
        let span = push_frame(&mut self.places, &mut self.words, words);
        self.numbers.push_reserved(number);
        self.spans.push_reserved(span);
        Ok(())
    }

    /// Makes room for exactly so many more frames, where it has no room for one. It allocates memory for them: 5,160 bytes
    /// for each, and 4,096 more in all.
    ///
    /// # Errors
    ///
    /// Out of memory: the dump is unchanged.
    pub fn make_room(&mut self, frames: usize) -> Result<(), Memory>
        ensures { self.new ≡ self.old }
    {
        self.coming
            .reserve_exact(FRAME_WORDS.saturating_sub(self.coming.len()))?;
        if self.words.capacity() - self.words.len() < FRAME_WORDS {
            let words = frames.saturating_mul(FRAME_WORDS);
            self.numbers.reserve_exact(frames)?;
            self.spans.reserve_exact(frames)?;
            self.places.reserve_exact(words)?;
            self.words.reserve_exact(words)?;
        }
        Ok(())
    }

    /// The dump with one frame more coming, of which there is no word yet. The number is above those of all that are held
    /// and below 2^40. It allocates memory where there is no room for a frame more, and gives the dump up where that is refused;
    /// after `make_room` there is room.
    ///
    /// # Errors
    ///
    /// Out of memory: the dump is given up.
    pub fn begin_frame(self, number: u64) -> Result<OpenDump, Memory>
        requires above { All (λ held. held < number) (finite.keys self.frames) }
        requires in_range { number < 2 ^ 40 }
        requires room { finite.len self.frames < FRAMES }
        ensures { IfOk result
            (λ opened. opened ≡ record { dump = self; number = number; coming = [] }) }
    {
        let Dump {
            applied,
            root,
            mut numbers,
            mut spans,
            mut places,
            mut words,
            mut coming,
        } = self;
        coming.clear();
        coming.reserve(FRAME_WORDS)?;
        numbers.reserve(1)?;
        spans.reserve(1)?;
        places.reserve(FRAME_WORDS)?;
        words.reserve(FRAME_WORDS)?;
        Ok(OpenDump {
            applied,
            root,
            numbers,
            spans,
            places,
            words,
            coming,
            number,
        })
    }

    /// How many entries of the log the table has taken.
    pub fn applied(&self) -> u32
        ensures { result ≡ self.now.applied }
    {
        self.applied
    }

    /// The frame number of the root.
    pub fn root(&self) -> u64
        ensures { result ≡ self.now.root }
    {
        self.root
    }

    /// How many frames it holds: 0 to 65,535.
    pub fn count(&self) -> usize
        ensures reads { result ≡ finite.len self.now.frames }
        ensures is_dump { IsDump self.now }
    {
        self.numbers.len()
    }

    /// The number of its frame at index `k`, by rising number.
    pub fn number(&self, k: usize) -> u64
        requires { k < finite.len self.now.frames }
        ensures { result ≡ slice_index (finite.keys self.now.frames) k }
    {
        self.numbers[k]
    }
}

/// The words of a frame of which this part of the lists is kept.
fn frame_at<'a>(places: &'a [u16], words: &'a [u64], span: Span) -> FrameWords<'a>
    requires { IsSpan places.now words.now span }
    ensures { result ≡ words_at places.now words.now span }
{
    match span {
        Span::Whole(start) => FrameWords::lent(&words[start..start + FRAME_WORDS]),
        Span::Nonzero(start, place, len) => {
            FrameWords::nonzero(&places[place..place + len], &words[start..start + len])
        }
    }
}

impl Frames for Dump {
    ghost memory = { λ d. d.frames };

    fn words(&self, number: u64) -> Option<FrameWords<'_>> {
        match self.numbers.binary_search(&number) {
            Ok(k) => Some(frame_at(&self.places, &self.words, self.spans[k])),
            Err(_) => None,
        }
    }
}

/// Adds the words of a frame that are not 0, and the index of each. It allocates no memory.
fn push_nonzero(places: &mut Vec<u16>, words: &mut Vec<u64>, frame: &FrameWords<'_>)
    requires places { vec_len places.old + FRAME_WORDS ≤ vec_capacity places.old }
    requires words { vec_len words.old + FRAME_WORDS ≤ vec_capacity words.old }
    ensures added { AreAdded places.old.items words.old.items places.new.items words.new.items frame.now }
    ensures whole { length frame.now ≡ FRAME_WORDS }
    ensures room_for_words { vec_capacity words.new ≡ vec_capacity words.old }
{
    let mut next = frame.next_nonzero(0);
    while next < FRAME_WORDS {
        places.push_reserved(next as u16);
        words.push_reserved(frame.word(next));
        next = frame.next_nonzero(next + 1);
    }
}

/// Adds all words of a frame. It allocates no memory.
fn push_all(words: &mut Vec<u64>, frame: &FrameWords<'_>)
    requires { vec_len words.old + FRAME_WORDS ≤ vec_capacity words.old }
    ensures all { words.new.items ≡ words.old.items ++ frame.now }
    ensures fit { All (λ word. word < 2 ^ 64) frame.now }
{
    for index in 0..frame.len() {
        words.push_reserved(frame.word(index));
    }
}

/// Adds what is kept of a frame, and says where that lies. It allocates no memory.
fn push_frame(places: &mut Vec<u16>, words: &mut Vec<u64>, frame: &FrameWords<'_>) -> Span
    requires places { vec_len places.old + FRAME_WORDS ≤ vec_capacity places.old }
    requires words { vec_len words.old + FRAME_WORDS ≤ vec_capacity words.old }
    ensures { IsAdded places.old.items words.old.items places.new.items words.new.items result frame.now }
{
    let place = places.len();
    let start = words.len();
    push_nonzero(places, words, frame);
    let len = words.len() - start;
    if len <= MOST_NONZERO {
        return Span::Nonzero(start, place, len);
    }
    places.truncate(place);
    words.truncate(start);
    push_all(words, frame);
    Span::Whole(start)
}

/// A dump to which one frame more is coming, word by word.
#[derive(Debug, Drop)]
pub struct OpenDump {
    applied: u32,
    root: u64,
    numbers: Vec<u64>,
    spans: Vec<Span>,
    places: Vec<u16>,
    words: Vec<u64>,
    coming: Vec<u64>,
    number: u64,
}

impl Model for OpenDump {
    ghost use Rattle.vs_walk.specs.Dump.{OpenImage, open_image_code};
    ghost use Rattle.vs_walk.specs.inside.Kept.{AreOpen, kept};

    ghost Value = { OpenImage };

    ghost coded = { open_image_code };

    ghost view = { λ d. record {
      dump = kept d.applied d.root d.numbers.items d.spans.items d.places.items d.words.items;
      number = d.number;
      coming = d.coming.items;
    } };

    ghost invariant = { λ d. AreOpen d.applied d.root d.numbers d.spans d.places d.words d.coming d.number };
}

impl OpenDump {
    /// The number of the frame that is coming.
    pub fn number(&self) -> u64
        ensures { result ≡ self.now.number }
    {
        self.number
    }

    /// How many of its words have come: 0 to 512.
    pub fn words_come(&self) -> usize
        ensures reads { result ≡ length self.now.coming }
        ensures few { result ≤ FRAME_WORDS }
    {
        self.coming.len()
    }

    /// Adds the next word of the frame. It allocates no memory.
    pub fn push(&mut self, word: u64)
        requires { length self.old.coming < FRAME_WORDS }
        ensures { self.new ≡ record self.old { coming = self.old.coming ++ word ∷ [] } }
    {
        self.coming.push_reserved(word);
    }

    /// The dump with the frame, whose words have all come. It allocates no memory.
    pub fn end_frame(self) -> Dump
        requires { length self.coming ≡ FRAME_WORDS }
        ensures made { result
            ≡ record self.dump { frames = finite.insert self.dump.frames self.number self.coming } }
        ensures numbers { finite.keys result.frames
            ≡ finite.keys self.dump.frames ++ self.number ∷ [] }
        ensures count { finite.len result.frames ≡ finite.len self.dump.frames + 1 }
    {
        let OpenDump {
            applied,
            root,
            mut numbers,
            mut spans,
            mut places,
            mut words,
            coming,
            number,
        } = self;
        let span = push_frame(&mut places, &mut words, &FrameWords::lent(&coming));
        numbers.push_reserved(number);
        spans.push_reserved(span);
        Dump {
            applied,
            root,
            numbers,
            spans,
            places,
            words,
            coming,
        }
    }
}
