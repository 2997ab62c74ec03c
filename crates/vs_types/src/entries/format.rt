//! A format of entries: which addresses there are, what a word means at each level, and the words that are written.
ghost use Rattle.std.specs.Prelude.{◌≡◌, ◌<◌, ◌≤◌, ◌*◌, ◌%◌, IsTrue};
ghost use Rattle.vs_types.specs.Format.{Format, IsFormat, IsReservedBitOf};
ghost use Rattle.vs_types.specs.Page.{bytes_of};
ghost use Rattle.vs_types.specs.declared.entries.kind.EntryKind.TheVariants.{Reserved};

use crate::addresses::page::Size;
use crate::entries::kind::EntryKind;

/// A format of page-table entries. A table has 512 words of 64 bits; the format says how many levels of tables there are, and all else
/// that is known of the bits of a word or of an address.
pub trait EntryFormat: Copy {
    /// What an entry can allow.
    type Rights: Copy;

    /// What a table maps: a run of addresses that is translated as one.
    type Page: Copy;

    /// The format.
    ghost format: { Self → Format Self.Rights Self.Page };

    /// How many levels of tables a translation goes through; the root is a table of the highest.
    fn levels(self) -> u8
        ensures { result ≡ (format self).levels };

    /// Whether there is this address.
    fn is_address(self, address: u64) -> bool
        ensures { result ≡ (format self).is_address address };

    /// The address whose translated bits are these.
    fn address_at(self, bits: u64) -> u64
        requires { bits < (format self).end }
        ensures { result ≡ (format self).address_at bits };

    /// The rights where no entry takes one away.
    fn all(self) -> Self::Rights
        ensures { result ≡ (format self).all };

    /// What two entries on one way allow together.
    fn both(self, above: Self::Rights, own: Self::Rights) -> Self::Rights
        ensures { result ≡ (format self).both above own };

    /// The page of this address, size, physical address and rights.
    fn page(self, base: u64, size: Size, phys: u64, rights: Self::Rights) -> Self::Page
        ensures { result ≡ (format self).page base size phys rights };

    /// What a word is in a table of this level.
    fn kind(self, level: u8, word: u64) -> EntryKind<Self::Rights>
        requires some_level { 1 ≤ level }
        requires few_levels { level ≤ (format self).levels }
        ensures { result ≡ (format self).kind level word };

    /// A bit of a word that is set and reserved, as an entry of a level: the lowest.
    fn reserved_bit(self, level: u8, word: u64) -> u8
        requires some_level { 1 ≤ level }
        requires few_levels { level ≤ (format self).levels }
        requires reserved { (format self).kind level word ≡ Reserved }
        ensures { IsReservedBitOf (format self) level word result };

    /// The word of a page, whose physical address is a multiple of its size.
    fn leaf(self, size: Size, phys: u64, rights: Self::Rights) -> u64
        requires aligned { phys % bytes_of size ≡ 0 }
        requires in_range { phys < (format self).limit }
        requires sayable { IsTrue ((format self).can_say rights) }
        ensures { result ≡ (format self).leaf size phys rights };

    /// The word of the table in the frame of this number. It allows all rights.
    fn table(self, number: u64) -> u64
        requires { number * 4096 < (format self).limit }
        ensures { result ≡ (format self).table number };

    /// What is so in each format, by which others prove. It does nothing.
    fn laws(self)
        ensures { IsFormat (format self) };
}
