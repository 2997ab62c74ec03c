//! The first bytes that have come and the last ones, and the unit that they show where they are refused.

ghost use Rattle.std.specs.Prelude.{◌≡◌, ◌+◌, ◌-◌, ◌≤◌, ◌<◌, ◌^◌, ◌++◌, ℕ, List, [], length, min, take, drop, IfOk, OnOk};
ghost use Rattle.std.specs.Vec.{vec_len};
ghost use Rattle.nr_trace.specs.FirstFault.{HasRefusalAs};
ghost use Rattle.nr_trace.specs.declared.formats.version.Form.{Form};
ghost use Rattle.nr_explain.specs.Units.{IsBadUnitAs};
ghost use Rattle.nr_explain.specs.inside.Ends.{AreEnds, IsUnitOf};

use crate::fields::field_fault;
use crate::units::{BadUnit, HEADER_BYTES};
use nr_trace::Refusal;
use std::alloc::{AllocError, Global};

/// How many of the last bytes are kept: of a unit that is cut off no more have come.
const TAIL_BYTES: usize = 4096;

/// The two ends of the bytes that have come.
#[derive(Drop)]
pub(crate) struct Ends {
    /// How many have come.
    pub(crate) count: u64,
    /// The first of them, no more than a header has.
    pub(crate) header: Vec<u8>,
    /// The last of them.
    pub(crate) tail: Vec<u8>,
}

/// Puts the first bytes of a piece behind the header's that are there.
fn keep_header(header: &mut Vec<u8>, piece: &[u8]) -> Result<(), AllocError>
    ensures { OnOk result (header.new.items ≡ header.old.items
        ++ take (min (HEADER_BYTES - length header.old.items) (length piece.now)) piece.now) }
{
    let missing = HEADER_BYTES.saturating_sub(header.len()).min(piece.len());
    header.extend_from_slice(&piece[..missing])
}

/// Takes so many bytes away at the front.
fn cut_front(bytes: &mut Vec<u8>, count: usize)
    requires { count ≤ vec_len bytes.old }
    ensures { bytes.new.items ≡ drop count bytes.old.items }
{
    let len = bytes.len();
    bytes.copy_within(count..len, 0);
    bytes.truncate(len - count);
}

/// Puts a piece behind the last bytes, of which no more than 4,096 are left then.
fn keep_tail(tail: &mut Vec<u8>, piece: &[u8]) -> Result<(), AllocError>
    ensures { OnOk result (tail.new.items
        ≡ drop (length tail.old.items + length piece.now - TAIL_BYTES) (tail.old.items ++ piece.now)) }
{
    let from = piece.len().saturating_sub(TAIL_BYTES);
    let last = &piece[from..];
    let over = (tail.len() + last.len()).saturating_sub(TAIL_BYTES);
    cut_front(tail, over);
    tail.extend_from_slice(last)?;
    Ok(())
}

/// The unit that a refusal of so many bytes is about, which begin with this header and end so.
pub(crate) fn bad_unit(refusal: Refusal, count: u64, header: &[u8], mut last: Vec<u8>) -> BadUnit
    requires within { refusal.left ≤ length last.items }
    requires before { refusal.left ≤ count }
    ensures { IsUnitOf refusal count header.now last.items result }
{
    let offset = count - refusal.left as u64;
    let before = last.len() - refusal.left;
    cut_front(&mut last, before);
    last.truncate(refusal.unit.size());
    let known = offset.min(HEADER_BYTES as u64) as usize;
    let field = field_fault(refusal.fault, &header[..known.min(header.len())], &last);
    BadUnit {
        fault: refusal.fault,
        unit: refusal.unit,
        offset,
        read: last,
        field,
    }
}

impl Ends {
    /// Nothing has come. It allocates no memory.
    pub(crate) fn new(alloc: Global) -> Ends
        ensures { AreEnds [] result }
    {
        Ends {
            count: 0,
            header: Vec::new(alloc),
            tail: Vec::new(alloc),
        }
    }

    /// With a piece more. Allocates memory for a header and for the last bytes.
    pub(crate) fn keep(&mut self, piece: &[u8]) -> Result<(), AllocError>
        requires { self.old.count < 2 ^ 40 }
        ensures { (bytes : List ℕ) → AreEnds bytes self.old
            → OnOk result (AreEnds (bytes ++ piece.now) self.new) }
    {
        keep_header(&mut self.header, piece)?;
        keep_tail(&mut self.tail, piece)?;
        self.count += piece.len() as u64;
        Ok(())
    }

    /// The unit that shows why the bytes are refused with this piece. Allocates memory for the piece.
    pub(crate) fn refused(self, piece: &[u8], refusal: Refusal) -> Result<BadUnit, AllocError>
        requires few { self.count < 2 ^ 40 }
        requires within { refusal.left ≤ length self.tail.items + length piece.now }
        requires before { refusal.left ≤ self.count + length piece.now }
        ensures { (form : Form) (bytes : List ℕ) → AreEnds bytes self
            → HasRefusalAs form (bytes ++ piece.now) refusal
            → IfOk result (IsBadUnitAs form (bytes ++ piece.now)) }
    {
        let Ends {
            count,
            mut header,
            mut tail,
        } = self;
        keep_header(&mut header, piece)?;
        tail.extend_from_slice(piece)?;
        Ok(bad_unit(refusal, count + piece.len() as u64, &header, tail))
    }

    /// The unit that is cut off where no more bytes come. It allocates no memory.
    pub(crate) fn cut_off(self, refusal: Refusal) -> BadUnit
        requires within { refusal.left ≤ length self.tail.items }
        requires before { refusal.left ≤ self.count }
        ensures { (form : Form) (bytes : List ℕ) → AreEnds bytes self
            → HasRefusalAs form bytes refusal → IsBadUnitAs form bytes result }
    {
        let Ends {
            count,
            header,
            tail,
        } = self;
        bad_unit(refusal, count, &header, tail)
    }
}
