//! What the program's words ask for.

ghost use Rattle.std.specs.Prelude.{◌≡◌, [], IfOk, IfErr, IsSomeAnd, MatchResult, map, string_bytes};
ghost use Rattle.clap.specs.Words.{fault_of, subcommand_of, HasKind};
ghost use Rattle.audit_commands.specs.Words.{kinds_of_no_words, AsksInspection, IsMisused, IsRefusal};
ghost use Rattle.nrvs_audit.specs.CommandLine.{nrvs_audit_line};

use crate::command_line::command_line;
use audit_commands::{Inspection, NoWords, read_inspection};
use clap::Error;
use clap::error::ErrorKind;
use std::alloc::{AllocError, Global};

/// What the words ask for, or what clap answers to them.
fn read_words<'a>(alloc: Global, words: &'a [String]) -> Result<Inspection<'a>, Error>
    ensures asks { IfOk result (λ inspection. IsSomeAnd
        (subcommand_of nrvs_audit_line (map (λ word. string_bytes word) words.entry.now))
        (λ given. AsksInspection given inspection)) }
    ensures faultless { IfOk result
        (λ _. fault_of nrvs_audit_line (map (λ word. string_bytes word) words.entry.now) ≡ []) }
    ensures fault { IfErr result
        (IsRefusal IsMisused nrvs_audit_line (map (λ word. string_bytes word) words.entry.now)) }
{
    let mut line = command_line(alloc)?;
    let matches = line.try_get_matches_from_mut(words)?;
    read_inspection(alloc, &mut line, &matches)
}

/// The same, if the words are known.
///
/// # Errors
///
/// What clap answers to the words, also to those that ask for help or the version, and where memory ran out.
pub fn read_program_words<'a>(
    alloc: Global,
    words: &'a Result<Vec<String>, NoWords>,
) -> Result<Inspection<'a>, Error>
    ensures asks { IfOk words.entry.now
        (λ words_given. IfOk result (λ inspection. IsSomeAnd
        (subcommand_of nrvs_audit_line (map (λ word. string_bytes word) words_given.items))
        (λ given. AsksInspection given inspection))) }
    ensures faultless { IfOk words.entry.now
        (λ given.
        IfOk result
        (λ _. fault_of nrvs_audit_line (map (λ word. string_bytes word) given.items) ≡ [])) }
    ensures fault { IfOk words.entry.now
        (λ given. IfErr result
        (IsRefusal IsMisused nrvs_audit_line (map (λ word. string_bytes word) given.items))) }
    ensures no_words { IfErr words.entry.now
        (λ why. MatchResult result (λ _. ⊥) (HasKind (kinds_of_no_words why))) }
{
    match words {
        Ok(words) => read_words(alloc, words.as_slice()),
        Err(NoWords::Memory) => Err(Error::from(AllocError)),
        Err(NoWords::NotText) => {
            let mut line = command_line(alloc)?;
            Err(line.error(ErrorKind::ValueValidation, "a word is not UTF-8")?)
        }
    }
}
