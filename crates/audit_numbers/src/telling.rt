//! What explains a chain that comes in pieces.

ghost use Rattle.std.specs.Prelude.{◌++◌, [], ℕ, List, Bool, IfOk};
ghost use Rattle.audit_numbers.specs.Chains.{IsExplained, IsTold};

use nr_explain::{ChainExplanation, ChainReader, ReaderStep};
use std::alloc::Global;
use vs_types::Memory;

/// What explains a chain, as far as it has come.
#[derive(Drop)]
pub enum Telling {
    /// No fault was found yet.
    Reading(ChainReader),
    /// This explains it, whatever comes.
    Explained(ChainExplanation),
}

impl Telling {
    ghost use Rattle.std.specs.Prelude.{◌++◌, ℕ, List, IfOk};
    ghost use Rattle.nr_explain.specs.ChainExplanation.{IsExplanationOfChain};
    ghost use Rattle.audit_numbers.specs.Chains.{IsTelling};

    /// Takes the next piece.
    fn take(self, piece: &[u8]) -> Result<Telling, Memory>
        ensures { (bytes : List ℕ) → IsTelling bytes self
            → IfOk result (IsTelling (bytes ++ piece.now)) }
    {
        match self {
            Telling::Reading(reader) => match reader.feed(piece)? {
                ReaderStep::More(next) => Ok(Telling::Reading(next)),
                ReaderStep::Found(explanation) => Ok(Telling::Explained(explanation)),
            },
            Telling::Explained(explanation) => Ok(Telling::Explained(explanation)),
        }
    }

    /// What explains the chain if no more comes.
    fn end(self) -> Result<ChainExplanation, Memory>
        ensures { (bytes : List ℕ) → IsTelling bytes self
            → IfOk result (IsExplanationOfChain bytes) }
    {
        match self {
            Telling::Reading(reader) => reader.end(),
            Telling::Explained(explanation) => Ok(explanation),
        }
    }
}

/// What explains a chain of which nothing has come, if that is asked for.
pub(crate) fn begin_telling(alloc: Global, explain: bool) -> Option<Telling>
    ensures { IsTold [] explain result }
{
    if explain {
        Some(Telling::Reading(ChainReader::new(alloc)))
    } else {
        None
    }
}

/// Takes the next piece, if the chain is explained.
pub(crate) fn take_told(telling: Option<Telling>, piece: &[u8]) -> Result<Option<Telling>, Memory>
    ensures { (bytes : List ℕ) (explain : Bool) → IsTold bytes explain telling
        → IfOk result (IsTold (bytes ++ piece.now) explain) }
{
    match telling {
        Some(telling) => Ok(Some(telling.take(piece)?)),
        None => Ok(None),
    }
}

/// What explains the chain if no more comes, if it is explained.
pub(crate) fn end_told(telling: Option<Telling>) -> Result<Option<ChainExplanation>, Memory>
    ensures { (bytes : List ℕ) (explain : Bool) → IsTold bytes explain telling
        → IfOk result (IsExplained bytes explain) }
{
    match telling {
        Some(telling) => Ok(Some(telling.end()?)),
        None => Ok(None),
    }
}
