//! What `run` prints.
ghost use Rattle.std.specs.Prelude.{◌≡◌, ◌++◌, IfOk, OnOk, map, string_bytes};
ghost use Rattle.std.specs.List.{flat_map};
ghost use Rattle.nrvs.specs.RunText.{said_line, said_lines, refused_text, said_text, verified_text};

use audit_texts::{fault_text, push_answer};
use itoa::Buffer;
use nr_serve::CallOutcome;
use nr_trace::Fault;
use std::alloc::{AllocError, Global};

/// Adds what came of a call.
fn push_said(text: &mut String, said: CallOutcome) -> Result<(), AllocError>
    ensures { OnOk result (string_bytes text.new ≡ string_bytes text.old ++ said_text said) }
{
    match said {
        CallOutcome::Answer(_, answer) => push_answer(text, answer),
        CallOutcome::Stopped => text.push_str("stopped"),
    }
}

/// Adds the line of a call.
fn push_call(text: &mut String, thread: usize, said: CallOutcome) -> Result<(), AllocError>
    ensures { OnOk result (string_bytes text.new ≡ string_bytes text.old ++ said_line thread said) }
{
    text.push_str(Buffer::new().format(thread))?;
    text.push(' ')?;
    push_said(text, said)?;
    text.push('\n')
}

/// Adds the lines of a thread's calls.
fn push_thread(text: &mut String, thread: usize, said: &[CallOutcome]) -> Result<(), AllocError>
    ensures { OnOk result
        (string_bytes text.new ≡ string_bytes text.old ++ flat_map (said_line thread) said.now) }
{
    for call in said {
        push_call(text, thread, *call)?;
    }
    Ok(())
}

/// The lines of all threads' calls. Allocates memory for the text.
pub(crate) fn said_lines(alloc: Global, threads: &[Vec<CallOutcome>]) -> Result<String, AllocError>
    ensures { IfOk result (λ text.
        string_bytes text ≡ said_lines (map (λ said. said.items) threads.now)) }
{
    let mut text = String::new(alloc);
    for (thread, said) in threads.iter().enumerate() {
        push_thread(&mut text, thread, said.as_slice())?;
    }
    Ok(text)
}

/// The lines of a verified run. Allocates memory for the text.
pub(crate) fn verified_text(
    alloc: Global,
    threads: &[Vec<CallOutcome>],
) -> Result<String, AllocError>
    ensures { IfOk result (λ text.
        string_bytes text ≡ verified_text (map (λ said. said.items) threads.now)) }
{
    let mut text = said_lines(alloc, threads)?;
    text.push_str("verified\n")?;
    Ok(text)
}

/// The line of a refused run. Allocates memory for the text.
pub(crate) fn refused_text(alloc: Global, fault: Fault) -> Result<String, AllocError>
    ensures { IfOk result (λ text. string_bytes text ≡ refused_text fault) }
{
    let text = fault_text(alloc, fault)?;
    format!(in alloc; "refused {text}\n")
}
