//! What a replica keeps of an entry that it has applied.
ghost use Rattle.std.specs.Prelude.{◌≡◌, ◌<◌};
ghost use Rattle.vs_types.specs.inside.Telling.{rights_in, size_in};
ghost use Rattle.nr_node.specs.inside.AppliedEntry.{answer_in, codes_of, field_codes, number_of};

use nr_ring::PackedEntry;
use std::marker::Model;
use std::mem::size_of;
use vs_types::{Answer, Rights, Size};

/// The second word has the codes of the answer from this bit on, and those of an entry below it.
const CODES_UNIT: u64 = 1 << 56;

/// An entry of the log with what it was answered: the two words of the entry, of which the second has the codes of the answer above its 56
/// bits, and the number of the answer. Contracts see the entry and the answer.
#[derive(Drop)]
pub(crate) struct AppliedEntry {
    words: [u64; 2],
    number: u64,
}

const _: () = prove!(size_of::<AppliedEntry>() == 24);

impl Model for AppliedEntry {
    ghost use Rattle.vs_types.specs.LogEntry.{SpellsEntry};
    ghost use Rattle.vs_types.specs.declared.addresses.depth.Depth.TheVariants.{Five};
    ghost use Rattle.nr_node.specs.inside.AppliedEntry.{AppliedEntry, entry_kept, entry_words, told_in};

    ghost Value = { AppliedEntry };

    ghost view = { λ t. told_in t.words t.number };

    ghost invariant = { λ t. SpellsEntry Five (entry_words t.words) (entry_kept t.words) };
}

impl AppliedEntry {
    /// An entry that was answered so.
    #[inline(always)]
    pub(crate) fn new(entry: PackedEntry, answer: Answer) -> AppliedEntry
        ensures { result ≡ record { entry = entry; answer = answer } }
    {
        let words = entry.words();
        let codes = codes_of(answer);
        AppliedEntry {
            words: [words[0], words[1] + codes * CODES_UNIT],
            number: number_of(answer),
        }
    }

    /// The entry.
    #[inline(always)]
    pub(crate) fn entry(&self) -> PackedEntry
        ensures { result ≡ self.now.entry }
    {
        PackedEntry::of([self.words[0], self.words[1] % CODES_UNIT])
    }

    /// What it was answered.
    #[inline(always)]
    pub(crate) fn answer(&self) -> Answer
        ensures { result ≡ self.now.answer }
    {
        answer_in(self.words[1] / CODES_UNIT, self.number)
    }
}

/// The codes of a size and of rights.
#[inline(always)]
fn field_codes(size: Size, rights: Rights) -> u64
    ensures is { result ≡ field_codes size rights }
    ensures low { result < 231 }
{
    10 * u64::from(size.code()) + 30 * u64::from(rights.code())
}

/// The codes of an answer.
#[inline(always)]
fn codes_of(answer: Answer) -> u64
    ensures is { result ≡ codes_of answer }
    ensures low { result < 240 }
{
    match answer {
        Answer::Done => 0,
        Answer::Overlap(_) => 1,
        Answer::Full(_) => 2,
        Answer::Removed(_, size, rights) => 3 + field_codes(size, rights),
        Answer::NotMapped => 4,
        Answer::Inside(_) => 5,
        Answer::Changed(rights) => 6 + field_codes(Size::K4, rights),
        Answer::Mapped(_, size, rights) => 7 + field_codes(size, rights),
        Answer::Allowed(_) => 8,
        Answer::Fault(_) => 9,
    }
}

/// The number of an answer; 0 where it has none.
#[inline(always)]
fn number_of(answer: Answer) -> u64
    ensures { result ≡ number_of answer }
{
    match answer {
        Answer::Done => 0,
        Answer::Overlap(base) => base,
        Answer::Full(need) => need,
        Answer::Removed(phys, _, _) => phys,
        Answer::NotMapped => 0,
        Answer::Inside(base) => base,
        Answer::Changed(_) => 0,
        Answer::Mapped(phys, _, _) => phys,
        Answer::Allowed(phys) => phys,
        Answer::Fault(code) => code,
    }
}

fn size_in(code: u64) -> Size
    ensures { result ≡ size_in code }
{
    match code {
        0 => Size::K4,
        1 => Size::M2,
        _ => Size::G1,
    }
}

fn rights_in(code: u64) -> Rights
    ensures { result ≡ rights_in code }
{
    Rights {
        write: code % 2 != 0,
        user: code / 2 % 2 != 0,
        exec: code / 4 != 0,
    }
}

/// The answer that has these codes and this number.
fn answer_in(codes: u64, number: u64) -> Answer
    ensures { result ≡ answer_in codes number }
{
    let size = size_in(codes / 10 % 3);
    let rights = rights_in(codes / 30);
    match codes % 10 {
        0 => Answer::Done,
        1 => Answer::Overlap(number),
        2 => Answer::Full(number),
        3 => Answer::Removed(number, size, rights),
        4 => Answer::NotMapped,
        5 => Answer::Inside(number),
        6 => Answer::Changed(rights),
        7 => Answer::Mapped(number, size, rights),
        8 => Answer::Allowed(number),
        _ => Answer::Fault(number),
    }
}
