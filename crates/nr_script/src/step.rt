//! Steps in words.
ghost use Rattle.std.specs.Prelude.{◌<◌, [], ◌∷◌, codes, decimal};
ghost use Rattle.vs_types.specs.Finds.{Finds};
ghost use Rattle.nr_script.specs.Lines.{SpellsAct, SpellsStep};
ghost use Rattle.vs_text.specs.Words.{texts};

use crate::number::parse_number;
use nr_core::{Act, Step};

/// An act without a number.
fn parse_plain(name: &[u8]) -> Option<Act>
    ensures { Finds (SpellsAct (name.now ∷ [])) result }
{
    match name {
        b"call" => Some(Act::Call),
        b"post" => Some(Act::Post),
        b"append" => Some(Act::Append),
        b"advance" => Some(Act::Advance),
        b"apply" => Some(Act::Apply),
        b"release" => Some(Act::Release),
        b"look" => Some(Act::Look),
        b"read" => Some(Act::Read),
        b"reply" => Some(Act::Reply),
        _ => None,
    }
}

/// An act with the number of a replica or of a thread.
fn parse_numbered(name: &[u8], number: u8) -> Option<Act>
    requires { number < 64 }
    ensures { Finds (SpellsAct (name.now ∷ decimal number ∷ [])) result }
{
    match name {
        b"take" => Some(Act::Take(number)),
        b"collect" => Some(Act::Collect(u16::from(number))),
        b"answer" => Some(Act::Answer(u16::from(number))),
        _ => None,
    }
}

fn parse_act(words: &[&[u8]]) -> Option<Act>
    ensures { Finds (SpellsAct (texts words.now)) result }
{
    match words {
        [name] => parse_plain(name),
        [name, number] => {
            let number = parse_number(number)?;
            parse_numbered(name, number)
        }
        _ => None,
    }
}

/// The step in the words after the first.
pub(crate) fn parse_step(words: &[&[u8]]) -> Option<Step>
    ensures { Finds (SpellsStep (codes "step" ∷ texts words.now)) result }
{
    let [thread, act @ ..] = words else {
        return None;
    };
    let thread = parse_number(thread)?;
    let act = parse_act(act)?;
    Some(Step {
        thread: u16::from(thread),
        act,
    })
}
