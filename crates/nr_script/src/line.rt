//! Lines of a script.
ghost use Rattle.std.specs.Prelude.{◌≡◌, ◌↔◌, codes, IsTrue};
ghost use Rattle.vs_types.specs.Finds.{Finds};
ghost use Rattle.nr_script.specs.Lines.{Says, SpellsRequest};
ghost use Rattle.nr_script.specs.inside.InWords.{SaysInWords};
ghost use Rattle.vs_text.specs.Words.{texts};

use crate::number::parse_number;
use crate::parts::split_words;
use crate::step::parse_step;
use nr_core::Step;
use vs_text::parse_request;
use vs_types::{Depth, Request};

/// What a line says.
#[derive(Clone, Copy, Debug, PartialEq, Eq)]
pub enum Line {
    /// It is empty or a comment, and is passed over.
    PassedOver,
    /// This thread asks this.
    Request(u16, Request),
    /// A step.
    Step(Step),
}

/// The thread and its request.
fn parse_asked(depth: Depth, words: &[&[u8]]) -> Option<(u16, Request)>
    ensures { Finds (λ it. SpellsRequest depth (texts words.now) it.0 it.1) result }
{
    let [thread, asks @ ..] = words else {
        return None;
    };
    let thread = parse_number(thread)?;
    let request = parse_request(depth, asks)?;
    Some((u16::from(thread), request))
}

pub(crate) fn is_step(word: &[u8]) -> bool
    ensures { IsTrue result ↔ (word.now ≡ codes "step") }
{
    matches!(word, b"step")
}

fn parse_words(depth: Depth, words: &[&[u8]]) -> Option<Line>
    ensures { Finds (SaysInWords depth (texts words.now)) result }
{
    let [first, rest @ ..] = words else {
        return None;
    };
    if is_step(first) {
        let step = parse_step(rest)?;
        Some(Line::Step(step))
    } else {
        let (thread, request) = parse_asked(depth, words)?;
        Some(Line::Request(thread, request))
    }
}

/// What a line says, without its LF; `None` where it has no form, or its request is not well formed at the depth.
pub(crate) fn parse_line(depth: Depth, line: &[u8]) -> Option<Line>
    ensures { Finds (Says depth line.now) result }
{
    if line.is_empty() || line[0] == b'#' {
        return Some(Line::PassedOver);
    }
    let words = split_words(line);
    parse_words(depth, words.as_slice())
}
