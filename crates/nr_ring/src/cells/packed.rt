//! Entries of the log as the two words that spell them.
ghost use Rattle.std.specs.Prelude.{◌≡◌, ◌<◌, ◌↔◌, IsTrue};
ghost use Rattle.vs_types.specs.LogEntry.{IsLogEntry, SpellsEntry, log_words};
ghost use Rattle.vs_types.specs.Operation.{IsSomeAction};
ghost use Rattle.vs_types.specs.declared.addresses.depth.Depth.{Depth};
ghost use Rattle.vs_types.specs.declared.addresses.depth.Depth.TheVariants.{Five};
ghost use Rattle.vs_types.specs.declared.log_entry.LogEntry.{LogEntry};

use std::marker::Model;
use vs_types::{CALLS, LogEntry, Op, entry_of, pack};

/// The second word of an entry has from this bit on the number of its call.
const CALL_BIT: u64 = 1 << 39;

/// An entry of the log, in the two words that spell it. It is well formed at five levels, as one at four is. Contracts see the entry.
#[derive(Clone, Copy, Debug, PartialEq, Eq)]
pub struct PackedEntry {
    words: [u64; 2],
}

impl Model for PackedEntry {
    ghost use Rattle.vs_types.specs.LogEntry.{SpellsEntry, log_words};
    ghost use Rattle.vs_types.specs.declared.addresses.depth.Depth.TheVariants.{Five};
    ghost use Rattle.vs_types.specs.declared.log_entry.LogEntry.{LogEntry};
    ghost use Rattle.vs_types.specs.inside.Telling.{entry_in};
    ghost use Rattle.std.proofs.Common.{sym};

    ghost Value = { LogEntry };

    ghost view = { λ p. entry_in p.words };

    ghost invariant = { λ p. SpellsEntry Five p.words (entry_in p.words) };

    ghost inverse = { λ entry. record { words = log_words entry } };

    ghost inverse_ok = { λ p spells. λ i. record { words = sym spells.spelled i } };
}

/// An operation is well formed at some depth, by its type.
#[inline(always)]
fn is_well_formed(op: Op)
    ensures { IsSomeAction op }
{
    let _action = op.action();
}

impl PackedEntry {
    /// An entry in its two words.
    #[inline(always)]
    pub fn new(entry: LogEntry) -> PackedEntry
        requires { entry.call < CALLS }
        ensures { result ≡ entry }
    {
        is_well_formed(entry.op);
        PackedEntry { words: pack(entry) }
    }

    /// The entry that two words spell, at whatever depth; nothing is tested.
    #[inline(always)]
    pub fn of(words: [u64; 2]) -> PackedEntry
        requires { (depth : Depth) × (entry : LogEntry) × SpellsEntry depth words entry }
        ensures { (depth : Depth) (entry : LogEntry) → SpellsEntry depth words entry
            → result ≡ entry }
    {
        PackedEntry { words }
    }

    /// The entry that its words spell.
    #[inline(always)]
    pub fn entry(self) -> LogEntry
        ensures is { result ≡ self }
        ensures fits { IsLogEntry Five result }
    {
        entry_of(self.words)
    }

    /// The words that spell it.
    #[inline(always)]
    pub fn words(self) -> [u64; 2]
        ensures spell { result ≡ log_words self }
        ensures fits { IsLogEntry Five self }
    {
        self.words
    }

    /// The number of its call.
    #[inline(always)]
    pub fn call(self) -> u32
        ensures { result ≡ self.call }
    {
        (self.words[1] / CALL_BIT) as u32
    }

    /// Whether it is this entry: whether the words are the same.
    #[inline(always)]
    pub fn is(self, other: PackedEntry) -> bool
        ensures { IsTrue result ↔ self ≡ other }
    {
        if self.words[0] != other.words[0] {
            return false;
        }
        self.words[1] == other.words[1]
    }
}

impl Default for PackedEntry {
    /// Call 0 unmaps address 0. It fills the unused places of an `ArrayVec`.
    fn default() -> PackedEntry {
        PackedEntry { words: [1, 0] }
    }
}
