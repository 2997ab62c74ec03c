//! The explanation of a chain that is read in blocks.

ghost use Rattle.std.specs.Prelude.{◌≡◌, ◌-◌, ◌^◌, IfErr, IfOk, length, string_bytes};
ghost use Rattle.audit_readers.specs.Answers.{WritesReport};
ghost use Rattle.audit_readers.specs.Ends.{RefusesUnreadable};
ghost use Rattle.audit_readers.specs.Refusals.{IsEndFault, WritesAnswersAlone};
ghost use Rattle.audit_texts.specs.Text.{fault_text};
ghost use Rattle.audit_readers.specs.ChainAudit.{HasReadFewOfChain};
ghost use Rattle.audit_texts.specs.ChainText.{end_lines};
ghost use Rattle.audit_texts.specs.ChainExplained.{chain_explanation_status, told_chain, IsChainExplained};
ghost use Rattle.audit_readers.specs.inside.Explaining.{HasExplained};

use crate::chain::audit::MOST_BLOCKS;
use crate::ends::{BLOCK, read_block, write_report};
use crate::fault::ProgFault;
use crate::report::Report;
use crate::source::Source;
use audit_texts::told_chain;
use nr_explain::{ChainExplanation, ChainReader, ReaderStep};
use std::alloc::{AllocError, Global};
use std::io::Write;

fn status_of(explanation: &ChainExplanation) -> u8
    ensures { result ≡ chain_explanation_status explanation.now }
{
    match explanation {
        ChainExplanation::Yes(_) => 0,
        ChainExplanation::No(_, _, _) => 1,
    }
}

/// The report of an explanation, which is freed here, so that it isn't alive where the report is written.
fn chain_report(
    alloc: Global,
    as_json: bool,
    explanation: ChainExplanation,
) -> Result<Report, AllocError>
    ensures { IfOk result (λ report. (string_bytes report.text ≡ told_chain as_json explanation)
        × (report.status ≡ chain_explanation_status explanation)) }
{
    let text = told_chain(alloc, as_json, &explanation)?;
    Ok(Report {
        text,
        status: status_of(&explanation),
    })
}

/// Reads blocks and feeds each, to the end of the input or to the first fault.
fn explain_blocks<R: Source>(
    alloc: Global,
    reader: &mut R,
    block: &mut [u8],
) -> Result<ChainExplanation, ProgFault>
    requires { length block.old ≡ 4096 }
    ensures ok { IfOk result (HasExplained (R.remaining reader.old)) }
    ensures err { IfErr result IsEndFault }
    ensures few { HasReadFewOfChain (R.remaining reader.old) (R.remaining reader.new) }
    ensures unread { RefusesUnreadable (2 ^ 52 - 1) (R.remaining reader.old)
        (R.remaining reader.new) (R.last_read reader.new) result }
{
    let mut chain = ChainReader::new(alloc);
    let mut room = MOST_BLOCKS;
    while room > 0 {
        let count = read_block(reader, block)?;
        if count == 0 {
            let found = chain.end()?;
            return Ok(found);
        }
        match chain.feed(&block[..count])? {
            ReaderStep::More(next) => {
                chain = next;
                room -= 1;
            }
            ReaderStep::Found(found) => return Ok(found),
        }
    }
    Err(ProgFault::CannotRead)
}

/// Reads a chain in blocks of 4,096 bytes. It writes how many segments there are and how much they have, where all are right. Else it
/// writes the first wrong one, its first fault, a sentence and what shows the fault, facts of this segment. As one JSON object on a line
/// where that is asked for. The status is 0 where the chain is right, else 1. It reads nothing behind the block in which the first fault
/// shows.
///
/// It allocates what one segment says, the spaces before it and at the beginning of the chain, what its judgement takes, the evidence and
/// the text.
///
/// # Errors
///
/// `CannotRead` where the last read gave an error, or the input doesn't end within 2^52 - 1 reads; `CannotWrite` where the writer gave an
/// error, `Memory` where a growth of memory was refused.
pub fn explain_chain_io<R: Source, W: Write>(
    alloc: Global,
    reader: &mut R,
    writer: &mut W,
    as_json: bool,
) -> Result<u8, ProgFault>
    ensures ok { IfOk result (WritesReport (IsChainExplained as_json) (R.remaining reader.old)
        (W.contents writer.old) (W.contents writer.new)) }
    ensures err { IfErr result IsEndFault }
    ensures alone { WritesAnswersAlone writer.old writer.new result }
    ensures few { HasReadFewOfChain (R.remaining reader.old) (R.remaining reader.new) }
    ensures unread { RefusesUnreadable (2 ^ 52 - 1) (R.remaining reader.old)
        (R.remaining reader.new) (R.last_read reader.new) result }
{
    let explanation = explain_blocks(alloc, reader, &mut [0; BLOCK])?;
    let report = chain_report(alloc, as_json, explanation)?;
    write_report(writer, &report)
}
