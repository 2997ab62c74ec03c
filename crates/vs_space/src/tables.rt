//! The tables by frame number: words read and written, tables linked, and those freed that are emptied.
ghost use Rattle.std.specs.Prelude.{ℕ, ◌≢◌, Some, slice_index, ◌≡◌, ◌<◌, ◌≤◌, ◌^◌, ◌+◌, ◌-◌, IfSome, IfNone, IsSome, IsTrue, IsFalse, option_copied};
ghost use Rattle.std.specs.FinMap as finite;
ghost use Rattle.vs_arena.specs.Store.{zeros, IsInUse};
ghost use Rattle.vs_types.specs.declared.addresses.depth.Depth.{Depth};
ghost use Rattle.vs_types.specs.declared.addresses.frame.TheConstants.{FRAME_WORDS};
ghost use Rattle.vs_types.specs.declared.limits.TheConstants.{MOST_LEVELS, TABLES};
ghost use Rattle.vs_types.specs.Depth.{levels, index_at, IsCanonical};
ghost use Rattle.vs_walk.specs.Walk.{walk};
ghost use Rattle.vs_walk.specs.declared.walk.Walk.{Walk};
ghost use Rattle.vs_types.specs.Entry.{meaning};
ghost use Rattle.vs_types.specs.declared.entries.entry.Meaning.{Meaning};
ghost use Rattle.vs_space.specs.inside.Prune.{IsCut, IsPruned};
ghost use Rattle.vs_space.specs.Held.{numbered, held_in, word_at, with_word, AreNumbered};
ghost use Rattle.vs_space.specs.Counted.{IsCounted};
ghost use Rattle.vs_walk.specs.Memory.{AreWhole};
ghost use Rattle.vs_space.specs.Path.{found_at, entry_in, IsFirstPresent, HasPresent};
ghost use Rattle.vs_space.specs.Tree.{IsTree, IsReached, AreWritten};
ghost use Rattle.vs_space.specs.inside.Grow.{IsExtended, IsBelowRoot, IsLeastBase};
ghost use Rattle.vs_space.specs.inside.Descent.{EndsAt};

use crate::descent::{Descent, PATH_LENGTH};
use std::marker::Model;
use vs_arena::{FRAME_WORDS, Frame, FrameStore};
use vs_types::{Depth, Entry, Meaning, entry_offset, index_at, read_written};

/// The frames of a store by number, each with how many of its words aren't 0 as its note. Contracts see those in use, and how
/// many there can be.
#[derive(Drop)]
pub(crate) struct Tables<S: FrameStore> {
    store: S,
}

impl<S: FrameStore> Model for Tables<S> {
    ghost use Rattle.vs_space.specs.Held.{Held, held_code, held_in, AreNumbered};
    ghost use Rattle.vs_walk.specs.Memory.{AreWhole};
    ghost use Rattle.vs_space.specs.Counted.{IsCounted};

    ghost Value = { Held };

    ghost coded = { held_code };

    ghost view = { λ t. held_in (S.place t.store) (S.frames t.store) };

    ghost invariant = { λ t. AreWhole (S.frames t.store)
        × AreNumbered (held_in (S.place t.store) (S.frames t.store))
        × IsCounted (S.frames t.store) (S.notes t.store) };
}

impl<S: FrameStore> Tables<S> {
    pub(crate) fn new(store: S) -> Tables<S>
        requires { S.frames store ≡ finite.empty }
        ensures { result
            ≡ record {
              base = (S.place store).base;
              limit = (S.place store).size;
              memory = finite.empty;
              lenders = (S.place store).lenders;
            } }
    {
        Tables { store }
    }

    /// The store, with the frames in it.
    pub(crate) fn into_store(self) -> S
        ensures same { held_in (S.place result) (S.frames result) ≡ self }
        ensures numbers { AreNumbered (held_in (S.place result) (S.frames result)) }
        ensures whole { AreWhole (S.frames result) }
        ensures counted { IsCounted (S.frames result) (S.notes result) }
    {
        let Tables { store } = self;
        store
    }

    /// The frames of a store whose notes say how many of their words aren't 0.
    pub(crate) fn from_store(store: S) -> Tables<S>
        requires numbers { AreNumbered (held_in (S.place store) (S.frames store)) }
        requires whole { AreWhole (S.frames store) }
        requires counted { IsCounted (S.frames store) (S.notes store) }
        ensures same { result ≡ held_in (S.place store) (S.frames store) }
        ensures numbers { AreNumbered result }
    {
        Tables { store }
    }

    /// How many frames there can be in use.
    pub(crate) fn limit(&self) -> usize
        ensures reads { result ≡ self.now.limit }
        ensures few { result ≤ TABLES }
    {
        self.store.capacity()
    }

    /// How many frames are in use.
    pub(crate) fn used(&self) -> usize
        ensures counts { result ≡ finite.len self.now.memory }
        ensures at_most { result ≤ self.now.limit }
    {
        self.store.used()
    }

    /// The words of the frame with this number, if it is in use.
    pub(crate) fn words(&self, number: u64) -> Option<&[u64; FRAME_WORDS]>
        ensures { option_copied result ≡ finite.get self.now.memory number }
    {
        let frame = self.store.at(number)?;
        Some(self.store.frame(frame))
    }

    /// The word at an index of a frame in use.
    #[inline(always)]
    pub(crate) fn word(&self, number: u64, index: usize) -> u64
        requires in_use { IsSome (finite.get self.now.memory number) }
        requires in_frame { index < FRAME_WORDS }
        ensures { word_at self.now.memory number index ≡ Some result }
    {
        self.store.get(frame_of(&self.store, number), index)
    }

    /// Writes a word that isn't 0 over another one, at an index of a frame in use.
    #[inline(always)]
    pub(crate) fn write(&mut self, number: u64, index: usize, word: u64)
        requires in_use { IsSome (finite.get self.old.memory number) }
        requires in_frame { index < FRAME_WORDS }
        requires present { word_at self.old.memory number index ≢ Some 0 }
        requires some { word ≢ 0 }
        ensures written { self.new
            ≡ record self.old { memory = with_word self.old.memory number index word } }
        ensures numbers { AreNumbered self.new }
    {
        let frame = frame_of(&self.store, number);
        self.store.set(frame, index, word);
    }

    /// Writes a word that isn't 0 over 0, at an index of a frame in use.
    #[inline(always)]
    pub(crate) fn fill(&mut self, number: u64, index: usize, word: u64)
        requires in_use { IsSome (finite.get self.old.memory number) }
        requires in_frame { index < FRAME_WORDS }
        requires absent { word_at self.old.memory number index ≡ Some 0 }
        requires some { word ≢ 0 }
        ensures written { self.new
            ≡ record self.old { memory = with_word self.old.memory number index word } }
        ensures whole { AreWhole self.old.memory }
        ensures numbers { AreNumbered self.new }
    {
        let frame = frame_of(&self.store, number);
        let count = self.store.note(frame);
        self.store.set_note(frame, count + 1);
        self.store.set(frame, index, word);
    }

    /// Writes 0 over another word, at an index of a frame in use.
    #[inline(always)]
    pub(crate) fn clear(&mut self, number: u64, index: usize)
        requires in_use { IsSome (finite.get self.old.memory number) }
        requires in_frame { index < FRAME_WORDS }
        requires present { word_at self.old.memory number index ≢ Some 0 }
        ensures written { self.new
            ≡ record self.old { memory = with_word self.old.memory number index 0 } }
        ensures numbers { AreNumbered self.new }
    {
        let frame = frame_of(&self.store, number);
        let count = self.store.note(frame);
        self.store.set_note(frame, count - 1);
        self.store.set(frame, index, 0);
    }

    /// The number of a frame that wasn't in use, now in use and all zero, or `None` where all are in use.
    #[inline(never)]
    pub(crate) fn take(&mut self) -> Option<u64>
        ensures was_free { IfSome result (λ n. finite.get self.old.memory n ≡ None) }
        ensures taken { IfSome result
            (λ n. self.new ≡ record self.old { memory = finite.insert self.old.memory n zeros }) }
        ensures in_range { IfSome result (λ n. n < 2 ^ 40) }
        ensures numbers { IfSome result (λ _. AreNumbered self.new) }
        ensures all_in_use { IfNone result (finite.len self.old.memory ≡ self.old.limit) }
        ensures unchanged { IfNone result (self.new ≡ self.old) }
    {
        let frame = self.store.take()?;
        Some(self.store.number(frame))
    }

    /// Gives a frame back whose words are all 0.
    #[inline(always)]
    pub(crate) fn give(&mut self, number: u64)
        requires { finite.get self.old.memory number ≡ Some zeros }
        ensures removed { self.new
            ≡ record self.old { memory = finite.remove self.old.memory number } }
        ensures numbers { AreNumbered self.new }
    {
        let frame = frame_of(&self.store, number);
        self.store.give_zeroed(frame);
    }

    /// What the entry for an address says in the table of this level in a frame in use, whose words are as written.
    #[inline]
    pub(crate) fn entry(&self, level: u8, number: u64, address: u64) -> Meaning
        requires in_use { IsSome (finite.get self.now.memory number) }
        requires written { AreWritten level self.now.memory number }
        requires some_level { 1 ≤ level }
        requires few_levels { level ≤ MOST_LEVELS }
        ensures { found_at level self.now.memory number address ≡ Some result }
    {
        read_written(level, self.word(number, index_at(level, address)))
    }

    /// Goes down on the path of an address to the first entry that leads no further, but not below the lowest level.
    #[inline(always)]
    pub(crate) fn descend(&self, depth: Depth, root: u64, address: u64, lowest: u8) -> Descent
        requires tree { IsTree (levels depth) self.now.memory root }
        requires all_reached { IsReached (levels depth) self.now.memory root }
        requires some_level { 1 ≤ lowest }
        requires within { lowest ≤ levels depth }
        ensures { EndsAt depth self.now.memory root address lowest result }
    {
        match depth {
            Depth::Four => self.descend_all(Depth::Four, root, address, lowest),
            Depth::Five => self.descend_all(Depth::Five, root, address, lowest),
        }
    }

    /// Does what `descend` does. Its code is there once for each depth, so that the level of each step is a constant there.
    #[inline(always)]
    fn descend_all(&self, depth: Depth, root: u64, address: u64, lowest: u8) -> Descent
        requires tree { IsTree (levels depth) self.now.memory root }
        requires all_reached { IsReached (levels depth) self.now.memory root }
        requires some_level { 1 ≤ lowest }
        requires within { lowest ≤ levels depth }
        ensures { EndsAt depth self.now.memory root address lowest result }
    {
        let mut level = depth.levels();
        let mut number = root;
        let mut path = [root; PATH_LENGTH];
        loop {
            let word = self.word(number, index_at(level, address));
            if level == lowest {
                return Descent {
                    path,
                    level: level as usize,
                    number,
                    word,
                };
            }
            let Meaning::Table(next, _) = read_written(level, word) else {
                return Descent {
                    path,
                    level: level as usize,
                    number,
                    word,
                };
            };
            number = next;
            level -= 1;
            path[level as usize] = number;
        }
    }

    /// The index of the first entry that isn't absent, in the table of this level in a frame in use.
    pub(crate) fn first_present(&self, level: u8, number: u64) -> Option<usize>
        requires in_use { IsSome (finite.get self.now.memory number) }
        requires some_level { 1 ≤ level }
        requires few_levels { level ≤ MOST_LEVELS }
        ensures none { IfNone result
            ((i : ℕ) → i < FRAME_WORDS
            → entry_in level self.now.memory number i ≡ Some Meaning.Absent) }
        ensures first { IfSome result (IsFirstPresent level self.now.memory number) }
    {
        let Some(words) = self.words(number) else {
            unreachable!();
        };
        for index in 0..FRAME_WORDS {
            match Entry::new(words[index]).read(level) {
                Meaning::Absent => {}
                _ => return Some(index),
            }
        }
        None
    }

    /// Whether the words of a frame in use are all 0. It reads none of them.
    #[inline(always)]
    fn is_empty(&self, number: u64) -> bool
        requires { IsSome (finite.get self.now.memory number) }
        ensures empty { IsTrue result → finite.get self.now.memory number ≡ Some zeros }
        ensures present { IsFalse result → (level : ℕ) → AreWritten level self.now.memory number
            → HasPresent level self.now.memory number }
    {
        self.store.note(frame_of(&self.store, number)) == 0
    }

    /// Frees the tables on the path of an address, from this level up, that have no entry that is present, and
    /// clears what led to them. Answers the level at which it stops.
    #[inline(always)]
    pub(crate) fn prune(
        &mut self,
        depth: Depth,
        address: u64,
        path: &[u64; PATH_LENGTH],
        from: u8,
    ) -> u8
        requires canonical { IsCanonical depth address }
        requires faultless { (b : ℕ) → IsCanonical depth b
            → walk depth self.old.memory (slice_index path.now (levels depth)) b ≢ Walk.Reserved }
        requires numbers { AreNumbered self.old }
        requires cut { IsCut depth self.old.memory (slice_index path.now (levels depth)) address
            from path.now }
        ensures pruned { IsPruned depth self.old.memory self.new.memory
            (slice_index path.now (levels depth)) address from result }
        ensures same { self.new ≡ record self.old { memory = self.new.memory } }
        ensures numbers { AreNumbered self.new }
    {
        let mut level = from;
        while level < depth.levels() {
            let emptied = path[level as usize];
            if !self.is_empty(emptied) {
                return level;
            }
            level += 1;
            self.clear(path[level as usize], index_at(level, address));
            self.give(emptied);
        }
        level
    }

    /// Links new tables on the path of an address below its last table, which has this frame number and level, down to
    /// the lowest level. Answers the last one's number.
    #[inline(always)]
    pub(crate) fn extend(&mut self, address: u64, last: u64, from: u8, lowest: u8) -> u64
        requires in_use { IsSome (finite.get self.old.memory last) }
        requires absent { word_at self.old.memory last (index_at from address) ≡ Some 0 }
        requires some_level { 1 ≤ lowest }
        requires within { lowest ≤ from }
        requires few_levels { from ≤ MOST_LEVELS }
        requires room { finite.len self.old.memory + (from - lowest) ≤ self.old.limit }
        ensures extended { IsExtended self.old.memory self.new.memory address last from lowest
            result }
        ensures absent { word_at self.new.memory result (index_at lowest address) ≡ Some 0 }
        ensures same { self.new ≡ record self.old { memory = self.new.memory } }
    {
        let mut level = from;
        let mut number = last;
        while level > lowest {
            let Some(next) = self.take() else {
                unreachable!();
            };
            self.fill(number, index_at(level, address), Entry::table(next).word());
            number = next;
            level -= 1;
        }
        number
    }

    /// The base of the first page below a table of this level, which begins at the address.
    #[inline(never)]
    pub(crate) fn least_base(&self, address: u64, table: u64, from: u8) -> u64
        requires { (depth : Depth) × (root : ℕ)
            × IsBelowRoot depth self.now.memory root address from table }
        ensures { (depth : Depth) (root : ℕ)
            → IsBelowRoot depth self.now.memory root address from table
            → IsLeastBase depth self.now.memory root address from result }
    {
        let mut level = from;
        let mut number = table;
        let mut base = address;
        loop {
            let Some(index) = self.first_present(level, number) else {
                unreachable!();
            };
            base += entry_offset(level, index);
            let Meaning::Table(next, _) = self.entry(level, number, base) else {
                return base;
            };
            number = next;
            level -= 1;
        }
    }
}

/// The frame in use with this number.
#[inline]
fn frame_of<S: FrameStore>(store: &S, number: u64) -> Frame
    requires { IsSome (finite.get (numbered (S.place store.now).base (S.frames store.now)) number) }
    ensures numbered { (S.place store.now).base + result ≡ number }
    ensures in_use { IsInUse (S.frames store.now) result }
{
    store.in_use(number)
}
