//! The walk of one address through the tables.
ghost use Rattle.std.specs.Prelude.{◌≡◌, IsTrue};
ghost use Rattle.vs_types.specs.Depth.{IsCanonical};
ghost use Rattle.vs_walk.specs.InFormat.{walk_in};
ghost use Rattle.vs_walk.specs.Walk.{walk};

use crate::frames::Frames;
use vs_types::{Depth, EntryFormat, EntryKind, Rights, Size, entry_bytes, index_at};

/// The end of a walk through the tables (Intel SDM volume 3A, chapter "Paging").
#[derive(Clone, Copy, Debug, PartialEq, Eq)]
pub enum Walk {
    /// An entry is absent.
    NotMapped,
    /// A present entry has a reserved bit set.
    Reserved,
    /// The memory does not have the root, or the frame that an entry names.
    Missing,
    /// The physical address in bytes, the size of the page, and the rights that all entries on the way allow.
    Mapped(u64, Size, Rights),
}

/// The end of a walk through tables in any format, where entries allow rights of this type.
#[derive(Clone, Copy, Debug, PartialEq, Eq)]
pub enum WalkOf<R> {
    /// An entry is absent.
    NotMapped,
    /// An entry that is not absent has a reserved bit set.
    Reserved,
    /// The memory does not have the root, or the frame that an entry names.
    Missing,
    /// The physical address in bytes, the size of the page, and the rights that all entries on the way allow.
    Mapped(u64, Size, R),
}

/// What keeps tables from being a tree: the first such thing that the traversal meets.
#[derive(Clone, Copy, Debug, PartialEq, Eq)]
pub enum WalkFault {
    /// The memory does not have this frame.
    Missing(u64),
    /// This frame was reached before.
    Shared(u64),
    /// The word of this frame at this index, from 0 to 511, has a reserved bit set.
    Reserved(u64, u16),
}

/// The end of the walk of an address that begins at the table in the frame of number `root`, in any format of entries. It allocates no
/// memory.
#[inline]
pub fn translate_in<F: Frames, E: EntryFormat>(
    frames: &F,
    root: u64,
    format: E,
    address: u64,
) -> WalkOf<E::Rights>
    requires { IsTrue ((E.format format).is_address address) }
    ensures { result ≡ walk_in (E.format format) (F.memory frames.now) root address }
{
    format.laws();
    let mut number = root;
    let mut rights = format.all();
    let mut level = format.levels();
    while level > 0 {
        let Some(words) = frames.words(number) else {
            return WalkOf::Missing;
        };
        match format.kind(level, words.word(index_at(level, address))) {
            EntryKind::Absent => return WalkOf::NotMapped,
            EntryKind::Reserved => return WalkOf::Reserved,
            EntryKind::Leaf(phys, own) => {
                let offset = address % entry_bytes(level);
                return WalkOf::Mapped(
                    phys + offset,
                    Size::at_level(level),
                    format.both(rights, own),
                );
            }
            EntryKind::Table(next, own) => {
                number = next;
                rights = format.both(rights, own);
            }
        }
        level -= 1;
    }
    WalkOf::Missing
}

/// The end of the walk of a canonical address that begins at the table in the frame of number `root`. It allocates no
/// memory.
pub fn translate<F: Frames>(frames: &F, root: u64, depth: Depth, address: u64) -> Walk
    requires { IsCanonical depth address }
    ensures { result ≡ walk depth (F.memory frames.now) root address }
{
    match translate_in(frames, root, depth, address) {
        WalkOf::NotMapped => Walk::NotMapped,
        WalkOf::Reserved => Walk::Reserved,
        WalkOf::Missing => Walk::Missing,
        WalkOf::Mapped(phys, size, rights) => Walk::Mapped(phys, size, rights),
    }
}
