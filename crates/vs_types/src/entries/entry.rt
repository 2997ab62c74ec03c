//! Page-table entries: the word of each kind, what a word means at a level, and all else that is known of an entry's bits. Other modules, here
//! and in other crates, know one bit alone: a word that is odd is present.
ghost use Rattle.std.specs.Prelude.{◌≡◌, ◌≢◌, ◌↔◌, ◌+◌, ◌<◌, ◌≤◌, ◌==◌, ◌*◌, ◌/◌, ◌%◌, ◌^◌, ℕ, IsTrue, IsFalse};
ghost use Rattle.std.specs.Int.{bit_at};
ghost use Rattle.vs_types.specs.declared.limits.TheConstants.{MOST_LEVELS};
ghost use Rattle.vs_types.specs.Bits.{AreBits, HasFlagsSet, IsLowestReservedBit, IsWritten, bits_in, flagged, flags_into, page_word, placed, rights_at, rights_bits, unflagged, with_address, with_flags_of, with_rights};
ghost use Rattle.vs_types.specs.Entry.{all_rights, leaf_word, meaning, rights_of};
ghost use Rattle.vs_types.specs.Page.{bytes_of, intersection, level_of};
ghost use Rattle.vs_types.specs.declared.addresses.page.Rights.{Rights as RightsRow};

use crate::addresses::depth::entry_bytes;
use crate::addresses::page::{Page, Rights, Size};
use std::marker::Model;

/// What an entry says at its level.
#[derive(Clone, Copy, Debug, PartialEq, Eq)]
pub enum Meaning {
    /// Nothing is mapped.
    Absent,
    /// A reserved bit is set, and a walk faults.
    Reserved,
    /// The table of the next lower level, by its frame number, with the rights that this entry allows.
    Table(u64, Rights),
    /// A page: its physical address, with the rights that this entry allows.
    Leaf(u64, Rights),
}

/// An entry of a table. Contracts see its word of 64 bits.
#[derive(Clone, Copy, Debug, PartialEq, Eq)]
pub struct Entry {
    word: u64,
}

impl Model for Entry {
    ghost Value = { ℕ };

    ghost view = { λ e. e.word };

    ghost inverse = { λ word. record { word = word } };
}

// The bits of an entry (Intel SDM volume 3A, chapter "Paging": formats of paging-structure entries).
const PRESENT: u32 = 0;

const WRITE: u32 = 1;

const USER: u32 = 2;

/// Above level 1: whether the entry maps a page.
const PAGE_SIZE: u32 = 7;

/// The lowest bit that is reserved in the entry of a page of 2 MiB or 1 GiB: those from it on are, below the page's address.
const RESERVED: u32 = 13;

/// The top bit: no instructions are fetched.
const NO_FETCH: u32 = 63;

/// Below bit 3 are an entry's bits for present, write and user.
const ABOVE_RIGHTS: u64 = 1 << 3;

/// The accessed and the dirty flag are bits 5 and 6: two words that differ in these alone have the same rest below bit 5 and the same
/// quotient from bit 7 on.
pub const BELOW_FLAGS: u64 = 1 << 5;

/// The bit above the two flags.
pub const ABOVE_FLAGS: u64 = 1 << 7;

/// Bit 7 of the entry of a page of 4 KiB, and bit 12 of a larger page's, where bit 7 says that it is one.
const PAT: u64 = 1 << 7;

const LARGE_PAT: u64 = 1 << 12;

/// An entry's address has bits 51:12.
const ADDRESS: u64 = 1 << 12;

const ABOVE_ADDRESS: u64 = 1 << 52;

/// The top bit alone.
const TOP: u64 = 1 << 63;

impl Entry {
    ghost use Rattle.vs_types.specs.declared.entries.entry.Meaning.TheVariants.{Table, Leaf};
    ghost use Rattle.vs_types.specs.Entry.{has_reserved, is_leaf, table_word};

    /// The entry of this word.
    pub fn new(word: u64) -> Entry
        ensures { result ≡ word }
    {
        Entry { word }
    }

    /// Its word.
    pub fn word(self) -> u64
        ensures { result ≡ self }
    {
        self.word
    }

    /// The entry of a page, whose physical address is a multiple of its size and lies below 2^52.
    pub fn leaf(size: Size, phys: u64, rights: Rights) -> Entry
        requires aligned { phys % bytes_of size ≡ 0 }
        requires in_range { phys < 2 ^ 52 }
        ensures written { result ≡ leaf_word size phys rights }
        ensures read_back { meaning (level_of size) result ≡ Leaf phys rights }
    {
        let mut word = phys + (1 << PRESENT);
        if rights.write {
            word += 1 << WRITE;
        }
        if rights.user {
            word += 1 << USER;
        }
        if size != Size::K4 {
            word += 1 << PAGE_SIZE;
        }
        if !rights.exec {
            word += 1 << NO_FETCH;
        }
        Entry { word }
    }

    /// The entry of the table in the frame of this number, which is below 2^40. It allows all rights.
    pub fn table(number: u64) -> Entry
        requires { number < 2 ^ 40 }
        ensures written { result ≡ table_word number }
        ensures read_back { (level : ℕ) → 1 < level
            → meaning level result ≡ Table number all_rights }
    {
        Entry {
            word: number * 4096 + 7,
        }
    }

    /// What it says in a table of this level, 1 to 5.
    pub fn read(self, level: u8) -> Meaning
        requires some_level { 1 ≤ level }
        requires few_levels { level ≤ MOST_LEVELS }
        ensures { result ≡ meaning level self }
    {
        if !is_set(self.word, PRESENT) {
            return Meaning::Absent;
        }
        if self.has_reserved(level) {
            return Meaning::Reserved;
        }
        let address = self.word % ABOVE_ADDRESS;
        if self.is_leaf(level) {
            let bytes = entry_bytes(level);
            Meaning::Leaf(address / bytes * bytes, rights_of(self.word))
        } else {
            Meaning::Table(address / ADDRESS, rights_of(self.word))
        }
    }

    fn has_reserved(self, level: u8) -> bool
        requires few_levels { level ≤ MOST_LEVELS }
        ensures { result ≡ has_reserved level self }
    {
        if self.is_leaf(level) {
            (self.word % entry_bytes(level)) >> RESERVED != 0
        } else {
            is_set(self.word, PAGE_SIZE)
        }
    }

    fn is_leaf(self, level: u8) -> bool
        ensures { result ≡ is_leaf level self }
    {
        level == 1 || (level <= 3 && is_set(self.word, PAGE_SIZE))
    }
}

/// Whether a bit of a word is 1.
#[inline]
fn is_set(word: u64, bit: u32) -> bool
    requires { bit < 64 }
    ensures { result ≡ (bit_at word bit == 1) }
{
    (word >> bit) % 2 == 1
}

/// The rights in a word.
#[inline]
fn rights_of(word: u64) -> Rights
    ensures { result ≡ rights_of word }
{
    Rights {
        write: is_set(word, WRITE),
        user: is_set(word, USER),
        exec: !is_set(word, NO_FETCH),
    }
}

/// What a word says that is written as an entry of a table of this level, whichever of its flags a processor has set since:
/// no reserved bit is looked for.
#[inline]
pub fn read_written(level: u8, word: u64) -> Meaning
    requires some_level { 1 ≤ level }
    requires few_levels { level ≤ MOST_LEVELS }
    requires written { IsWritten level word }
    ensures { result ≡ meaning level word }
{
    if !is_set(word, PRESENT) {
        return Meaning::Absent;
    }
    if level > 1 && !is_set(word, PAGE_SIZE) {
        return Meaning::Table(word / ADDRESS, Rights::ALL);
    }
    let bytes = entry_bytes(level);
    Meaning::Leaf(word % ABOVE_ADDRESS / bytes * bytes, rights_of(word))
}

/// Whether a word above level 1 leads to a table.
pub fn is_link(word: u64) -> bool
    ensures yes { IsTrue result → (level : ℕ) → 2 ≤ level
        → meaning level word ≡ Meaning.Table (word % 2 ^ 52 / 2 ^ 12) (rights_of word) }
    ensures no { IsFalse result → (level number : ℕ) (own : RightsRow)
        → meaning level word ≢ Meaning.Table number own }
{
    is_set(word, PRESENT) && !is_set(word, PAGE_SIZE)
}

/// The bits of a word in which an entry's address is, and those below them.
pub fn address_bits(word: u64) -> u64
    ensures { result ≡ word % 2 ^ 52 }
{
    word % ABOVE_ADDRESS
}

/// The number of the frame of the table to which a word leads.
pub fn linked_frame(word: u64) -> u64
    ensures { result ≡ word % 2 ^ 52 / 2 ^ 12 }
{
    word % ABOVE_ADDRESS / ADDRESS
}

/// The physical address in the entry of a page of 4 KiB.
pub fn page_address(word: u64) -> u64
    ensures { result ≡ word % 2 ^ 52 / 2 ^ 12 * 2 ^ 12 }
{
    word % ABOVE_ADDRESS / ADDRESS * ADDRESS
}

/// Whether a word is an entry that is present.
#[inline]
pub fn is_present(word: u64) -> bool
    ensures { result ≡ (word % 2 == 1) }
{
    is_set(word, PRESENT)
}

/// A bit of a word that is set and reserved, as an entry of a level: the lowest.
pub fn reserved_bit(level: u8, word: u64) -> u8
    requires few_levels { level ≤ MOST_LEVELS }
    requires reserved { meaning level word ≡ Meaning.Reserved }
    ensures { IsLowestReservedBit level word result }
{
    if level > 3 {
        return PAGE_SIZE as u8;
    }
    let reserved = (word % entry_bytes(level)) >> RESERVED;
    RESERVED as u8 + reserved.trailing_zeros() as u8
}

// ---- the bits beside address and rights

/// Whether no bit is set but those that an entry can have beside its address and its rights.
pub fn are_bits(bits: u64) -> bool
    ensures { IsTrue result ↔ AreBits bits }
{
    bits % ABOVE_RIGHTS == 0 && bits % ABOVE_ADDRESS < ADDRESS && bits < TOP
}

/// These bits in the entry of a page of this size.
fn placed(size: Size, bits: u64) -> u64
    requires { AreBits bits }
    ensures { result ≡ placed size bits }
{
    match size {
        Size::K4 => bits,
        Size::M2 | Size::G1 => bits + (bits >> 7) % 2 * (LARGE_PAT - PAT),
    }
}

/// The entry of a page with these bits.
pub fn page_word(page: Page, bits: u64) -> u64
    requires bits { AreBits bits }
    requires aligned { page.phys % bytes_of page.size ≡ 0 }
    requires in_range { page.phys < 2 ^ 52 }
    ensures written { result ≡ page_word page bits }
    ensures read_back { meaning (level_of page.size) result ≡ Meaning.Leaf page.phys page.rights }
{
    Entry::leaf(page.size, page.phys, page.rights).word() + placed(page.size, bits)
}

/// The bits of the entry of a page of this size.
pub fn bits_in(size: Size, word: u64) -> u64
    ensures is { result ≡ bits_in size word }
    ensures are_bits { AreBits result }
{
    let high = (word >> 52) % (1 << 11) << 52;
    match size {
        Size::K4 => word % ADDRESS / ABOVE_RIGHTS * ABOVE_RIGHTS + high,
        Size::M2 | Size::G1 => {
            let low = word % PAT / ABOVE_RIGHTS * ABOVE_RIGHTS;
            let pat = (word >> 12) % 2 * PAT;
            low + pat + word % ADDRESS / (2 * PAT) * (2 * PAT) + high
        }
    }
}

/// The entry with these rights, and its other bits as they were.
pub fn with_rights(word: u64, rights: Rights) -> u64
    ensures { result ≡ with_rights word rights }
{
    let write = if rights.write { 1 << WRITE } else { 0 };
    let user = if rights.user { 1 << USER } else { 0 };
    let no_fetch = if rights.exec { 0 } else { TOP };
    word % 2 + write + user + word % TOP / ABOVE_RIGHTS * ABOVE_RIGHTS + no_fetch
}

/// The entry of a page of this size with this physical address, and its other bits as they were. The address is a multiple of the size, or
/// what it has below that is added to those bits.
pub fn with_address(size: Size, word: u64, phys: u64) -> u64
    requires in_range { phys + bytes_of size ≤ 2 ^ 52 }
    ensures { result ≡ with_address size word phys }
{
    word % size.bytes() + phys + (word >> 52 << 52)
}

/// A word without its accessed and its dirty flag.
pub fn unflagged(word: u64) -> u64
    ensures { result ≡ unflagged word }
{
    word % BELOW_FLAGS + (word >> 7 << 7)
}

/// Bits of an entry with both flags.
pub fn flagged(bits: u64) -> u64
    requires { AreBits bits }
    ensures is { result ≡ flagged bits }
    ensures are_bits { AreBits result }
{
    unflagged(bits) + (3 << 5)
}

// ---- flags that a processor sets

/// Whether a word is an entry, and another one is as it is but for the flags.
pub fn has_flags_set(old: u64, word: u64) -> bool
    ensures yes { IsTrue result → HasFlagsSet old word }
    ensures no { IsFalse result → HasFlagsSet old word → ⊥ }
{
    is_present(old)
        && old % BELOW_FLAGS == word % BELOW_FLAGS
        && old / ABOVE_FLAGS == word / ABOVE_FLAGS
}

/// A number with the flags of a word.
pub fn flags_into(word: u64, number: u64) -> u64
    ensures { result ≡ flags_into word number }
{
    number % BELOW_FLAGS
        + word % ABOVE_FLAGS / BELOW_FLAGS * BELOW_FLAGS
        + number / ABOVE_FLAGS * ABOVE_FLAGS
}

/// An entry with the flags of a word; what is no entry stays.
pub fn with_flags_of(word: u64, entry: u64) -> u64
    ensures { result ≡ with_flags_of word entry }
{
    if !is_present(entry) {
        return entry;
    }
    flags_into(word, entry)
}

// ---- rights as bits

/// All bits of an entry but those of its rights.
pub const BUT_RIGHTS: u64 = (1 << 63) - 7;

/// All bits of an entry but its accessed and its dirty flag.
pub const BUT_FLAGS: u64 = u64::MAX - 96;

/// The bits of rights, as an entry has them.
pub fn rights_bits(rights: Rights) -> u64
    ensures { result ≡ rights_bits rights }
{
    let write = if rights.write { 1 << WRITE } else { 0 };
    let user = if rights.user { 1 << USER } else { 0 };
    let no_fetch = if rights.exec { 0 } else { TOP };
    write + user + no_fetch
}

/// Rights as bits of a page's word, with the bit that says that it is present. Contracts see the rights.
#[derive(Drop)]
pub struct RightsBits {
    bits: u64,
}

impl Model for RightsBits {
    ghost use Rattle.std.specs.Prelude.{◌≡◌};
    ghost use Rattle.vs_types.specs.Entry.{leaf_word, rights_of};
    ghost use Rattle.vs_types.specs.contracts.addresses.page.Rights as rights_contract;
    ghost use Rattle.vs_types.specs.declared.addresses.page.Rights.{Rights};
    ghost use Rattle.vs_types.specs.declared.addresses.page.Size.TheVariants.{K4};

    ghost Value = { Rights };

    ghost coded = { rights_contract.the_row.coded };

    ghost view = { λ r. rights_of r.bits };

    ghost invariant = { λ r. r.bits ≡ leaf_word K4 0 (rights_of r.bits) };
}

impl RightsBits {
    /// These rights.
    #[inline]
    pub fn new(rights: Rights) -> RightsBits
        ensures { result ≡ rights }
    {
        RightsBits {
            bits: Entry::leaf(Size::K4, 0, rights).word(),
        }
    }

    /// The word of a page with these rights.
    #[inline]
    pub fn leaf(self, size: Size, phys: u64) -> u64
        requires aligned { phys % bytes_of size ≡ 0 }
        requires in_range { phys < 2 ^ 52 }
        ensures written { result ≡ leaf_word size phys self }
        ensures read_back { meaning (level_of size) result ≡ Meaning.Leaf phys self }
    {
        let large = if size == Size::K4 { 0 } else { 1 << PAGE_SIZE };
        phys + self.bits + large
    }
}

/// What the entries of a way allow together, as a word: bit 1 for writes, bit 2 for user accesses, and bit 63, by which an entry forbids
/// fetches, for fetches. This one allows all.
pub fn all_allowed() -> u64
    ensures { rights_at result ≡ all_rights }
{
    (1 << WRITE) + (1 << USER) + TOP
}

/// What is allowed below an entry of this word too, as a word.
pub fn narrowed(allowed: u64, word: u64) -> u64
    ensures { rights_at result ≡ intersection (rights_at allowed) (rights_of word) }
{
    allowed & (word ^ TOP)
}

/// The rights that a word allows.
pub fn rights_at(allowed: u64) -> Rights
    ensures { result ≡ rights_at allowed }
{
    Rights {
        write: is_set(allowed, WRITE),
        user: is_set(allowed, USER),
        exec: is_set(allowed, NO_FETCH),
    }
}

/// The word that allows these rights.
pub fn allowed_of(rights: Rights) -> u64
    ensures { rights_at result ≡ rights }
{
    let write = if rights.write { 1 << WRITE } else { 0 };
    let user = if rights.user { 1 << USER } else { 0 };
    let exec = if rights.exec { TOP } else { 0 };
    write + user + exec
}
