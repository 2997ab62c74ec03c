//! The format of extended page tables: four levels, and physical addresses of 46 bits.
ghost use Rattle.std.specs.Prelude.{◌≡◌, ◌≢◌, ◌≤◌, ◌<◌, ◌==◌, IsTrue};
ghost use Rattle.std.specs.Int.{bit_at};
ghost use Rattle.vs_types.specs.declared.limits.TheConstants.{MOST_LEVELS};
ghost use Rattle.ept_tests.specs.Ept as ept;

use crate::guest::{Ept, EptRights, GuestPage};
use vs_types::{EntryFormat, EntryKind, Size, entry_bytes};

// The bits of an entry.
const READ: u32 = 0;

const WRITE: u32 = 1;

const EXECUTE: u32 = 2;

/// Above level 1: whether the entry maps a page.
const PAGE: u32 = 7;

const USER_EXECUTE: u32 = 10;

/// An entry's address has bits 45:12; those from 51 on down to it are reserved.
const ADDRESS: u32 = 12;

const ADDRESS_END: u32 = 46;

const ABOVE_ADDRESS: u64 = 1 << 52;

/// In an entry that maps no page the bits from here to 7 are reserved.
const TYPE: u32 = 3;

const ABOVE_TYPE: u64 = 1 << 8;

/// Whether a bit of a word is 1.
fn is_set(word: u64, bit: u32) -> bool
    requires { bit < 64 }
    ensures { result ≡ ept.is_set word bit }
{
    (word >> bit) % 2 == 1
}

/// Whether a present word maps a page.
fn is_leaf(level: u8, word: u64) -> bool
    ensures { result ≡ ept.is_leaf level word }
{
    level == 1 || (level <= 3 && is_set(word, PAGE))
}

/// Whether a present word allows writes and no reads.
fn writes_alone(word: u64) -> bool
    ensures { result ≡ ept.writes_alone word }
{
    !is_set(word, READ) && is_set(word, WRITE)
}

/// Whether a present word has a reserved bit set.
fn has_reserved(level: u8, word: u64) -> bool
    requires few_levels { level ≤ MOST_LEVELS }
    ensures { result ≡ ept.has_reserved level word }
{
    if writes_alone(word) || (word % ABOVE_ADDRESS) >> ADDRESS_END != 0 {
        return true;
    }
    if is_leaf(level, word) {
        (word % entry_bytes(level)) >> ADDRESS != 0
    } else {
        (word % ABOVE_TYPE) >> TYPE != 0
    }
}

impl Ept {
    fn is_present(self, word: u64) -> bool
        ensures { result ≡ ept.is_present self word }
    {
        is_set(word, READ)
            || is_set(word, WRITE)
            || is_set(word, EXECUTE)
            || (self.by_mode && is_set(word, USER_EXECUTE))
    }

    fn rights_of(self, word: u64) -> EptRights
        ensures { result ≡ ept.rights_of self word }
    {
        EptRights {
            read: is_set(word, READ),
            write: is_set(word, WRITE),
            execute: is_set(word, EXECUTE),
            user_execute: if self.by_mode {
                is_set(word, USER_EXECUTE)
            } else {
                is_set(word, EXECUTE)
            },
        }
    }

    fn rights_bits(self, rights: EptRights) -> u64
        ensures { result ≡ ept.rights_bits self rights }
    {
        let read = if rights.read { 1 << READ } else { 0 };
        let write = if rights.write { 1 << WRITE } else { 0 };
        let execute = if rights.execute { 1 << EXECUTE } else { 0 };
        let user_execute = if self.by_mode && rights.user_execute {
            1 << USER_EXECUTE
        } else {
            0
        };
        read + write + execute + user_execute
    }
}

const ALL: EptRights = EptRights {
    read: true,
    write: true,
    execute: true,
    user_execute: true,
};

impl EntryFormat for Ept {
    type Rights = EptRights;

    type Page = GuestPage;

    ghost format = { ept.format };

    fn levels(self) -> u8 {
        4
    }

    fn is_address(self, address: u64) -> bool {
        address < 1 << 48
    }

    fn address_at(self, bits: u64) -> u64 {
        bits
    }

    fn all(self) -> EptRights {
        ALL
    }

    fn both(self, above: EptRights, own: EptRights) -> EptRights {
        EptRights {
            read: above.read && own.read,
            write: above.write && own.write,
            execute: above.execute && own.execute,
            user_execute: above.user_execute && own.user_execute,
        }
    }

    fn page(self, base: u64, size: Size, phys: u64, rights: EptRights) -> GuestPage {
        GuestPage {
            base,
            size,
            phys,
            rights,
        }
    }

    fn kind(self, level: u8, word: u64) -> EntryKind<EptRights> {
        if !self.is_present(word) {
            return EntryKind::Absent;
        }
        if has_reserved(level, word) {
            return EntryKind::Reserved;
        }
        let address = word % ABOVE_ADDRESS;
        if is_leaf(level, word) {
            let bytes = entry_bytes(level);
            EntryKind::Leaf(address / bytes * bytes, self.rights_of(word))
        } else {
            EntryKind::Table(address >> ADDRESS, self.rights_of(word))
        }
    }

    fn reserved_bit(self, level: u8, word: u64) -> u8 {
        if writes_alone(word) {
            return WRITE as u8;
        }
        if is_leaf(level, word) {
            let reserved = (word % entry_bytes(level)) >> ADDRESS;
            if reserved != 0 {
                return ADDRESS as u8 + reserved.trailing_zeros() as u8;
            }
        } else {
            let reserved = (word % ABOVE_TYPE) >> TYPE;
            if reserved != 0 {
                return TYPE as u8 + reserved.trailing_zeros() as u8;
            }
        }
        let reserved = (word % ABOVE_ADDRESS) >> ADDRESS_END;
        ADDRESS_END as u8 + reserved.trailing_zeros() as u8
    }

    fn leaf(self, size: Size, phys: u64, rights: EptRights) -> u64 {
        let large = if size == Size::K4 { 0 } else { 1 << PAGE };
        phys + self.rights_bits(rights) + large
    }

    fn table(self, number: u64) -> u64 {
        number * 4096 + self.rights_bits(ALL)
    }

    fn laws(self) {}
}
