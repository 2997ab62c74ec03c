//! The program: `nrvs audit` says whether a trace is right, `nrvs explain` what shows its fault, and `nrvs order` looks for an order of its
//! calls. `nrvs resolve` says where an address leads in one of its dumps. `nrvs simulate` takes the steps of a script, and `nrvs run` runs the
//! threads of one.
#![tactic(auto)]

mod command;
mod command_line;
mod program;
mod runs;
mod words;

use audit_commands::{Meter, program_words};
use audit_readers::Output;
use std::io::{self, IsTerminal};
use std::process::ExitCode;

fn main(rt: HostRuntime) -> ExitCode {
    let alloc = rt.alloc();
    let words = program_words(&rt);
    let asked = words::read_program_words(alloc, &words);
    let mut output = Output::new(io::writer(&rt));
    let errors = rt.stderr();
    let is_terminal = errors.is_terminal();
    let mut errors = Meter::new(alloc, &rt, errors, is_terminal);
    let status = program::run(&rt, alloc, asked, rt.reader(), &mut output, &mut errors);
    ExitCode::from(status)
}
