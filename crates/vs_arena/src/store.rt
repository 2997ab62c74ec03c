//! What a store of page-table frames does: `FrameStore`.
ghost use Rattle.std.specs.Prelude.{◌≡◌, ℕ, ◌+◌, ◌^◌, ◌<◌, ◌≤◌, IfSome, IfNone, slice_index, slice_set};
ghost use Rattle.std.specs.FinMap as finite;
ghost use Rattle.vs_types.specs.declared.addresses.frame.TheConstants.{FRAME_WORDS};
ghost use Rattle.vs_arena.specs.Store.{Store, Notes, StorePlace, IsInUse, IsFree, words_of, note_of, zeros, IsStore};

use crate::frame::Frame;
use vs_types::FRAME_WORDS;

/// Frames to be taken and freed. A store has up to 4,096 frames; frame i has the number `base + i`, below 2^40.
///
/// No call allocates memory or waits. Frames that a call doesn't name keep their words and their notes.
pub trait FrameStore {
    /// The frames in use, by index.
    ghost frames: { Self → Store };

    /// The note of each frame in use, by index: a small number of its owner's.
    ghost notes: { Self → Notes };

    /// Its place: the number of frame 0, how many frames there are, and who lent it its memory. No call changes it.
    ghost place: { Self → StorePlace };

    /// How many frames there are, in use or not: 0 to 4,096.
    fn capacity(&self) -> usize
        ensures reads { result ≡ (place self.now).size }
        ensures is_store { IsStore (place self.now).base (place self.now).size (frames self.now) };

    /// How many frames are in use.
    fn used(&self) -> usize
        ensures counts { result ≡ finite.len (frames self.now) }
        ensures at_most { result ≤ (place self.now).size };

    /// A frame that wasn't in use, now in use, all zero and with note 0, or `None` where all are in use.
    fn take(&mut self) -> Option<Frame>
        ensures was_free { IfSome result (IsFree (frames self.old)) }
        ensures within { IfSome result (λ f. f < (place self.old).size) }
        ensures cleared { IfSome result
            (λ f. frames self.new ≡ finite.insert (frames self.old) f zeros) }
        ensures noted { IfSome result (λ f. notes self.new ≡ finite.insert (notes self.old) f 0) }

        ensures all_in_use { IfNone result (finite.len (frames self.old) ≡ (place self.old).size) }
        ensures unchanged { IfNone result (frames self.new ≡ frames self.old) }
        ensures unchanged_notes { IfNone result (notes self.new ≡ notes self.old) }

        ensures same_place { place self.new ≡ place self.old };

    /// Gives a frame back, so that it isn't in use.
    fn give(&mut self, frame: Frame)
        requires { IsInUse (frames self.old) frame }
        ensures removed { frames self.new ≡ finite.remove (frames self.old) frame }
        ensures removed_note { notes self.new ≡ finite.remove (notes self.old) frame }
        ensures same_place { place self.new ≡ place self.old };

    /// Does what `give` does for a frame whose words are all 0, and clears none of them.
    fn give_zeroed(&mut self, frame: Frame)
        requires in_use { IsInUse (frames self.old) frame }
        requires zeroed { words_of (frames self.old) frame ≡ zeros }
        ensures removed { frames self.new ≡ finite.remove (frames self.old) frame }
        ensures removed_note { notes self.new ≡ finite.remove (notes self.old) frame }
        ensures same_place { place self.new ≡ place self.old };

    /// The word of a frame in use at an index below 512.
    fn get(&self, frame: Frame, index: usize) -> u64
        requires in_use { IsInUse (frames self.now) frame }
        requires in_frame { index < FRAME_WORDS }
        ensures { result ≡ slice_index (words_of (frames self.now) frame) index };

    /// Writes one word of a frame in use, at an index below 512.
    fn set(&mut self, frame: Frame, index: usize, word: u64)
        requires in_use { IsInUse (frames self.old) frame }
        requires in_frame { index < FRAME_WORDS }
        ensures written { frames self.new
            ≡ finite.insert (frames self.old) frame
            (slice_set (words_of (frames self.old) frame) index word) }
        ensures same_notes { notes self.new ≡ notes self.old }
        ensures same_place { place self.new ≡ place self.old };

    /// The note of a frame in use: what `set_note` wrote last since the frame was taken, or 0.
    fn note(&self, frame: Frame) -> u16
        requires { IsInUse (frames self.now) frame }
        ensures { result ≡ note_of (notes self.now) frame };

    /// Writes the note of a frame in use.
    fn set_note(&mut self, frame: Frame, note: u16)
        requires { IsInUse (frames self.old) frame }
        ensures written { notes self.new ≡ finite.insert (notes self.old) frame note }
        ensures same_frames { frames self.new ≡ frames self.old }
        ensures same_place { place self.new ≡ place self.old };

    /// The words of a frame in use.
    fn frame(&self, frame: Frame) -> &[u64; FRAME_WORDS]
        requires { IsInUse (frames self.now) frame }
        ensures { result.now ≡ words_of (frames self.now) frame };

    /// The frame number of a frame in use.
    fn number(&self, frame: Frame) -> u64
        requires { IsInUse (frames self.now) frame }
        ensures numbered { result ≡ (place self.now).base + frame }
        ensures in_range { result < 2 ^ 40 };

    /// The frame in use with this frame number, or `None` where there is none.
    fn at(&self, number: u64) -> Option<Frame>
        ensures numbered { IfSome result (λ f. (place self.now).base + f ≡ number) }
        ensures in_use { IfSome result (IsInUse (frames self.now)) }
        ensures unknown { IfNone result
            ((f : ℕ) → (place self.now).base + f ≡ number → IsFree (frames self.now) f) };

    /// The frame in use with this frame number, which is that of one.
    fn in_use(&self, number: u64) -> Frame
        requires { (f : ℕ) × ((place self.now).base + f ≡ number) × IsInUse (frames self.now) f }
        ensures numbered { (place self.now).base + result ≡ number }
        ensures in_use { IsInUse (frames self.now) result };
}
