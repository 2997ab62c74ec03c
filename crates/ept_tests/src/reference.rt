//! A walker written from the manual alone, over bits of words; and drawn tables, through which both walk alike.

use crate::guest::{Ept, EptRights};
use std::alloc::Global;
use std::process::Abort;
use vs_types::{EntryFormat, Size};
use vs_walk::{Dump, Frames, WalkOf, translate_in};

/// The bits of an address in an entry: 45:12.
const ADDRESS: u64 = 0x3FFFFFFFF000;

/// Bits 51:46.
const TOO_HIGH: u64 = 0xFC00000000000;

/// The walk by shifts and masks.
fn walked(dump: &Dump, by_mode: bool, address: u64) -> WalkOf<EptRights> {
    let (mut frame, mut allowed) = (1, 0x407);
    for shift in [39, 30, 21, 12] {
        let Some(words) = dump.words(frame) else {
            return WalkOf::Missing;
        };
        let mut word = words.word((address >> (shift % 64)) as usize % 512);
        if !by_mode {
            // the bit of both modes is that of each
            word = word & !0x400 | (word & 4) << 8;
        }
        if word & 0x407 == 0 {
            return WalkOf::NotMapped;
        }
        if word & 3 == 2 || word & TOO_HIGH != 0 {
            return WalkOf::Reserved;
        }
        allowed &= word;
        let below = (1u64 << (shift % 64)) - 1;
        if shift == 12 || shift < 39 && word & 0x80 != 0 {
            if word & below & !0xFFF != 0 {
                return WalkOf::Reserved;
            }
            let size = match shift {
                12 => Size::K4,
                21 => Size::M2,
                _ => Size::G1,
            };
            return WalkOf::Mapped(
                word & ADDRESS & !below | address & below,
                size,
                rights_of(allowed),
            );
        }
        if word & 0xF8 != 0 {
            return WalkOf::Reserved;
        }
        frame = (word & ADDRESS) >> 12;
    }
    WalkOf::Missing
}

fn rights_of(word: u64) -> EptRights {
    EptRights {
        read: word & 1 != 0,
        write: word & 2 != 0,
        execute: word & 4 != 0,
        user_execute: word & 0x400 != 0,
    }
}

/// Numbers one after another.
#[derive(Drop)]
struct Draws {
    state: u64,
}

impl Draws {
    fn next(&mut self) -> u64 {
        self.state = self
            .state
            .wrapping_mul(6364136223846793005)
            .wrapping_add(1442695040888963407);
        self.state >> 20
    }

    /// A word that leads to one of five frames, maybe with a reserved bit or fewer rights.
    fn word(&mut self) -> u64 {
        let number = self.next() % 6 + 1;
        let plain = number << 12 | 0x407;
        match self.next() % 8 {
            0 => plain & !(self.next() & 0x407),
            1 => plain | 0x80,
            2 => number << 30 | 0x487,
            3 => plain | self.next() & 0xFF0000000000BF8,
            4 => plain | 1 << (self.next() % 64),
            _ => plain | self.next() & 0xB00,
        }
    }

    fn frame(&mut self) -> [u64; 512] {
        let mut frame = [0; 512];
        for index in 0..512 {
            frame[index] = self.word();
        }
        frame
    }
}

/// A memory of five drawn frames.
fn drawn(rt: &impl Abort, alloc: Global, draws: &mut Draws) -> Dump {
    let mut dump = Dump::new(alloc, 0, 1);
    dump.push(1, &draws.frame()).expect(rt, "memory");
    dump.push(2, &draws.frame()).expect(rt, "memory");
    dump.push(3, &draws.frame()).expect(rt, "memory");
    dump.push(4, &draws.frame()).expect(rt, "memory");
    dump.push(5, &draws.frame()).expect(rt, "memory");
    dump
}

#[test]
fn drawn_tables_are_walked_alike(rt: HostRuntime) {
    let mut draws = Draws { state: 1 };
    for _ in 0..10 {
        let dump = drawn(&rt, rt.alloc(), &mut draws);
        for by_mode in [false, true] {
            for _ in 0..1000 {
                let address = draws.next() % (1 << 48);
                let ept = Ept { by_mode };
                assert!(rt; ept.is_address(address));
                assert!(rt;
                    translate_in(&dump, 1, ept, address) == walked(&dump, by_mode, address)
                );
            }
        }
    }
}
