//! The format of the entries of x86's own page tables: of four levels, or of five.
ghost use Rattle.vs_types.specs.Format.{x86};

use crate::addresses::depth::Depth;
use crate::addresses::page::{Page, Rights, Size};
use crate::entries::entry::{Entry, Meaning, reserved_bit};
use crate::entries::format::EntryFormat;
use crate::entries::kind::EntryKind;

impl EntryFormat for Depth {
    type Rights = Rights;

    type Page = Page;

    ghost format = { x86 };

    fn levels(self) -> u8 {
        Depth::levels(self)
    }

    fn is_address(self, address: u64) -> bool {
        self.is_canonical(address)
    }

    fn address_at(self, bits: u64) -> u64 {
        self.canonical_from(bits)
    }

    fn all(self) -> Rights {
        Rights::ALL
    }

    fn both(self, above: Rights, own: Rights) -> Rights {
        above.intersection(own)
    }

    #[inline]
    fn page(self, base: u64, size: Size, phys: u64, rights: Rights) -> Page {
        Page {
            base,
            size,
            rights,
            phys,
        }
    }

    #[inline]
    fn kind(self, level: u8, word: u64) -> EntryKind<Rights> {
        match Entry::new(word).read(level) {
            Meaning::Absent => EntryKind::Absent,
            Meaning::Reserved => EntryKind::Reserved,
            Meaning::Table(number, own) => EntryKind::Table(number, own),
            Meaning::Leaf(phys, own) => EntryKind::Leaf(phys, own),
        }
    }

    fn reserved_bit(self, level: u8, word: u64) -> u8 {
        reserved_bit(level, word)
    }

    fn leaf(self, size: Size, phys: u64, rights: Rights) -> u64 {
        Entry::leaf(size, phys, rights).word()
    }

    fn table(self, number: u64) -> u64 {
        Entry::table(number).word()
    }

    fn laws(self) {}
}
