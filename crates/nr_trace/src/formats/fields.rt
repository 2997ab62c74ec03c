//! The fields of the units of a trace: one record for each, which is read and written. (A request's are `RequestFields`.)

ghost use Rattle.std.specs.Prelude.{◌≡◌};
ghost use Rattle.vs_types.specs.Finds.{Finds};
ghost use Rattle.nr_trace.specs.Spelling.{answer_fields, page_fields, value_fields};
ghost use Rattle.nr_trace.specs.inside.Reading.{HasAnswerFields};

use crate::formats::layout::TraceLayout;
use vs_types::{Answer, Rights, Size};

/// How a service is laid out, and how many places, events and frames of its start a recording of it has.
#[derive(Clone, Copy)]
pub(crate) struct Counts {
    pub(crate) layout: TraceLayout,
    pub(crate) places: u32,
    pub(crate) events: u32,
    /// How many frames the start has: 0 where there is none.
    pub(crate) start: u32,
}

/// How a dump begins.
#[derive(Clone, Copy)]
pub(crate) struct DumpHead {
    pub(crate) applied: u32,
    pub(crate) frames: u32,
    pub(crate) root: u64,
}

/// The fields of an answer. What it does not use is 0.
#[derive(Clone, Copy)]
pub(crate) struct AnswerFields {
    /// 0 to 9, in the order of the variants of `Answer`.
    pub(crate) code: u8,
    /// The code of a page's size.
    pub(crate) size: u8,
    /// The code of a page's rights.
    pub(crate) rights: u8,
    /// A base or a physical address, in bytes; a number of tables; or the code of a page fault.
    pub(crate) value: u64,
}

impl AnswerFields {
    /// The fields of the answer.
    pub(crate) fn of(answer: Answer) -> AnswerFields
        ensures { result ≡ answer_fields answer }
    {
        match answer {
            Answer::Done | Answer::NotMapped => AnswerFields::with_value(answer, 0),
            Answer::Overlap(number)
            | Answer::Full(number)
            | Answer::Inside(number)
            | Answer::Allowed(number)
            | Answer::Fault(number) => AnswerFields::with_value(answer, number),
            Answer::Removed(phys, size, rights) | Answer::Mapped(phys, size, rights) => {
                AnswerFields::with_page(answer, phys, size, rights)
            }
            Answer::Changed(rights) => AnswerFields {
                rights: rights.code(),
                ..AnswerFields::with_value(answer, 0)
            },
        }
    }

    fn with_value(answer: Answer, value: u64) -> AnswerFields
        ensures { result ≡ value_fields answer value }
    {
        AnswerFields {
            code: answer.code(),
            size: 0,
            rights: 0,
            value,
        }
    }

    fn with_page(answer: Answer, phys: u64, size: Size, rights: Rights) -> AnswerFields
        ensures { result ≡ page_fields answer phys size rights }
    {
        AnswerFields {
            code: answer.code(),
            size: size.code(),
            rights: rights.code(),
            value: phys,
        }
    }

    /// The answer that has the fields. `None` where a code means nothing, or a field that the answer does not use is not 0.
    pub(crate) fn answer(self) -> Option<Answer>
        ensures { Finds (HasAnswerFields self) result }
    {
        let AnswerFields {
            code,
            size,
            rights,
            value,
        } = self;
        match code {
            0 if size == 0 && rights == 0 && value == 0 => Some(Answer::Done),
            1 if size == 0 && rights == 0 => Some(Answer::Overlap(value)),
            2 if size == 0 && rights == 0 => Some(Answer::Full(value)),
            3 => Some(Answer::Removed(value, Size::of_code(size)?, Rights::of_code(rights)?)),
            4 if size == 0 && rights == 0 && value == 0 => Some(Answer::NotMapped),
            5 if size == 0 && rights == 0 => Some(Answer::Inside(value)),
            6 if size == 0 && value == 0 => Some(Answer::Changed(Rights::of_code(rights)?)),
            7 => Some(Answer::Mapped(value, Size::of_code(size)?, Rights::of_code(rights)?)),
            8 if size == 0 && rights == 0 => Some(Answer::Allowed(value)),
            9 if size == 0 && rights == 0 => Some(Answer::Fault(value)),
            _ => None,
        }
    }
}
