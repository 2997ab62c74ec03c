//! An answer, as C gets it.

ghost use Rattle.std.specs.Prelude.{◌≡◌};
ghost use Rattle.nrvs_c.specs.Reply.{reply_for};

use vs_types::{Answer, Rights, Size};

/// An answer in numbers: its code, and what it has; what it doesn't have is 0.
#[repr(C)]
#[derive(Clone, Copy, Debug, PartialEq, Eq)]
pub struct Reply {
    /// 0 to 9: done, overlap, full, removed, not mapped, inside, changed, mapped, allowed, fault.
    pub code: u8,
    /// The code of a page's size.
    pub size: u8,
    /// The code of a page's rights.
    pub rights: u8,
    /// An address in bytes, how many tables there would be, or the error code of a page fault.
    pub number: u64,
}

impl Reply {
    /// The numbers of an answer.
    pub(crate) fn of(answer: Answer) -> Reply
        ensures { result ≡ reply_for answer }
    {
        match answer {
            Answer::Done | Answer::NotMapped => Reply::with(answer.code(), 0),
            Answer::Overlap(base) | Answer::Inside(base) => Reply::with(answer.code(), base),
            Answer::Full(number) | Answer::Allowed(number) | Answer::Fault(number) => {
                Reply::with(answer.code(), number)
            }
            Answer::Changed(rights) => Reply {
                rights: rights.code(),
                ..Reply::with(answer.code(), 0)
            },
            Answer::Removed(phys, size, rights) | Answer::Mapped(phys, size, rights) => Reply {
                code: answer.code(),
                size: size.code(),
                rights: rights.code(),
                number: phys,
            },
        }
    }

    fn with(code: u8, number: u64) -> Reply
        ensures { result ≡ record { code = code; size = 0; rights = 0; number = number } }
    {
        Reply {
            code,
            size: 0,
            rights: 0,
            number,
        }
    }
}
