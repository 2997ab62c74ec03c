//! Why a command gives no answer, and the status for that.

ghost use Rattle.std.specs.Prelude.{◌≡◌};
ghost use Rattle.audit_readers.specs.declared.fault.ProgFault.TheVariants as faults;

use crate::ends::write_text;
use itoa::Buffer;
use std::alloc::AllocError;
use std::io::Write;
use thiserror::Error;

/// Why the program ends with no answer. The text goes to standard error.
#[derive(Debug, Drop, Error)]
pub enum ProgFault {
    /// The address is not `0x` and 1 to 16 hexadecimal digits.
    #[error("bad address")]
    BadAddress,
    /// The bits of the address above the translated ones do not equal the highest translated one.
    #[error("not canonical")]
    NotCanonical,
    /// The trace has no replica of this number.
    #[error("no such replica")]
    NoSuchReplica,
    /// The script has more bytes than a script may have.
    #[error("input too long")]
    InputTooLong,
    /// The script's line of this number, counted from 1, is the first that has no form, is not well formed, or goes past a limit.
    #[error("bad line {0}")]
    BadLine(u32),
    /// A thread could not be started.
    #[error("no thread")]
    NoThread,
    /// The input gave an error.
    #[error("cannot read")]
    CannotRead,
    /// The output gave an error.
    #[error("cannot write")]
    CannotWrite,
    /// A growth of memory was refused.
    #[error("out of memory")]
    Memory,
}

impl ProgFault {
    ghost use Rattle.std.specs.Prelude.{IfErr, OnOk};
    ghost use Rattle.std.specs.Io.KnownBytes.{Appends};
    ghost use Rattle.audit_readers.specs.Refusals.{refusal_line, refusal_status, refusal_words};

    /// The exit status: 3 where memory ran out, else 2.
    pub fn status(&self) -> u8
        ensures { result ≡ refusal_status self.now }
    {
        match self {
            ProgFault::Memory => 3,
            ProgFault::BadAddress
            | ProgFault::NotCanonical
            | ProgFault::NoSuchReplica
            | ProgFault::InputTooLong
            | ProgFault::BadLine(_)
            | ProgFault::NoThread
            | ProgFault::CannotRead
            | ProgFault::CannotWrite => 2,
        }
    }

    /// The words of the text, and for a bad line what comes before its number.
    fn words(&self) -> &'static str
        ensures { result.now ≡ refusal_words self.now }
    {
        match self {
            ProgFault::BadAddress => "bad address",
            ProgFault::NotCanonical => "not canonical",
            ProgFault::NoSuchReplica => "no such replica",
            ProgFault::InputTooLong => "input too long",
            ProgFault::BadLine(_) => "bad line ",
            ProgFault::NoThread => "no thread",
            ProgFault::CannotRead => "cannot read",
            ProgFault::CannotWrite => "cannot write",
            ProgFault::Memory => "out of memory",
        }
    }

    /// Writes the line that goes to standard error, and nothing else. It allocates no memory.
    ///
    /// # Errors
    ///
    /// `CannotWrite` where the writer gave an error.
    pub fn tell<W: Write>(&self, errors: &mut W) -> Result<(), ProgFault>
        ensures ok { OnOk result
            (Appends (W.contents errors.old) (W.contents errors.new) (refusal_line self.now)) }
        ensures err { IfErr result (λ fault. fault ≡ ProgFault.CannotWrite) }
    {
        write_text(errors, self.words().as_bytes())?;
        if let ProgFault::BadLine(number) = self {
            write_text(errors, Buffer::new().format(*number).as_bytes())?;
        }
        write_text(errors, b"\n")
    }
}

impl From<AllocError> for ProgFault {
    ghost from_gives = { λ _ fault. fault ≡ faults.Memory };

    fn from(_error: AllocError) -> ProgFault {
        ProgFault::Memory
    }
}

impl From<vs_types::Memory> for ProgFault {
    ghost from_gives = { λ _ fault. fault ≡ faults.Memory };

    fn from(_error: vs_types::Memory) -> ProgFault {
        ProgFault::Memory
    }
}
