//! What can be asked of one trace or of one chain, and which engine answers it.

use audit_readers::{
    Form, ProgFault, Progress, Source, audit_chain_io, audit_io, chain_end_io, chain_start_io,
    explain_all_io, explain_chain_io, explain_io, order_io, pages_io, resolve_io,
};
use audit_texts::Style;
use std::alloc::Global;
use std::io::Write;

const IS_CHAIN: &str = "this is a chain: use --chain";

const IS_TRACE: &str = "this is a trace: leave out --chain";

const NO_TRACE: &str = "this is a chain, and resolve reads traces";

const NO_ORDER: &str = "this is a chain, and order reads traces";

/// The end of a chain whose pages are listed.
#[derive(Clone, Copy, Debug)]
pub enum ChainPoint {
    /// The begin of its first segment.
    Start,
    /// After its last segment.
    End,
}

/// What can be asked of one trace or of one chain.
#[derive(Clone, Copy, Debug)]
pub enum Task<'a> {
    /// Judge a trace; as JSON; and the least number of its calls that are to overlap.
    Audit(bool, u32),
    /// Judge it, and show the evidence of its fault; as JSON; and what is wrong with the other dumps.
    Explain(bool, bool),
    /// Look for an order of its calls; write the trace that has it as its log; and the most steps.
    Order(bool, u32),
    /// Walk at this address, as the command line spells it, in the dump of this replica; and list the entries that are read.
    Resolve(&'a str, u8, bool),
    /// List the pages of the dump of this replica; and as ranges.
    Pages(u8, bool),
    /// Judge a chain; how that is printed; show how far it has come; and the least number of its calls that are to overlap.
    AuditChain(Style, bool, u32),
    /// Judge it, and show the evidence of its first fault, or how much it has; as JSON.
    ExplainChain(bool),
    /// List the pages at this point of it; and as ranges.
    PagesOfChain(ChainPoint, bool),
}

impl<'a> Task<'a> {
    ghost use Rattle.audit_readers.specs.Ends.{RefusesUnreadable};
    ghost use Rattle.audit_commands.specs.Tasks.{most_bytes, HasReadFewFor, RunsTask};

    /// The address, as the command line spells it, where the task has one.
    pub(crate) fn word(&self) -> Option<&'a str> {
        match self {
            Task::Resolve(address, _, _) => Some(*address),
            _ => None,
        }
    }

    /// Whether it reads a chain, and not a trace.
    fn reads_chain(&self) -> bool {
        matches!(
            self,
            Task::AuditChain(_, _, _) | Task::ExplainChain(_) | Task::PagesOfChain(_, _)
        )
    }

    /// What is said of an input of this form, if it is none that the task reads.
    pub(crate) fn remark(&self, form: Form) -> Option<&'static str> {
        match form {
            Form::Empty => Some("the input is empty"),
            Form::Gzip => Some("this is compressed: unpack it with gzip -dc"),
            Form::Xz => Some("this is compressed: unpack it with xz -dc"),
            Form::Text => Some("this is text, and no recording of a run"),
            Form::Trace if self.reads_chain() => Some(IS_TRACE),
            Form::Chain if matches!(self, Task::Resolve(_, _, _)) => Some(NO_TRACE),
            Form::Chain if matches!(self, Task::Order(_, _)) => Some(NO_ORDER),
            Form::Chain if !self.reads_chain() => Some(IS_CHAIN),
            Form::Trace | Form::Chain | Form::Unknown => None,
        }
    }

    /// How many calls of a right trace or chain are to overlap.
    pub(crate) fn least(&self) -> u32 {
        match self {
            Task::Audit(_, least) | Task::AuditChain(_, _, least) => *least,
            _ => 0,
        }
    }

    /// Whether it is to be shown how far it has come.
    pub(crate) fn is_watched(&self) -> bool {
        matches!(self, Task::AuditChain(_, true, _))
    }

    /// Does the task on the input, and gives the exit status. The progress gets how far the audit of a chain has come, and how much a right
    /// trace or chain has.
    ///
    /// # Errors
    ///
    /// Those of `audit_io`, of `explain_io`, of `order_io`, of `resolve_io`, of `pages_io`, or of those of chains.
    pub fn run<R: Source, W: Write, P: Progress>(
        self,
        alloc: Global,
        reader: &mut R,
        writer: &mut W,
        progress: &mut P,
    ) -> Result<u8, ProgFault>
        ensures runs { RunsTask self.entry (R.remaining reader.old) W.contents writer.old writer.new
            result }
        ensures few { HasReadFewFor self.entry (R.remaining reader.old) (R.remaining reader.new) }
        ensures unread { RefusesUnreadable (most_bytes self.entry) (R.remaining reader.old)
            (R.remaining reader.new) (R.last_read reader.new) result }
    {
        match self {
            Task::Audit(as_json, least) => {
                audit_io(alloc, reader, writer, as_json, least, progress)
            }
            Task::Explain(as_json, false) => explain_io(alloc, reader, writer, as_json),
            Task::Explain(as_json, true) => explain_all_io(alloc, reader, writer, as_json),
            Task::Order(as_trace, steps) => order_io(alloc, reader, writer, as_trace, steps),
            Task::Resolve(address, replica, with_steps) => {
                resolve_io(alloc, reader, writer, address, replica, with_steps)
            }
            Task::Pages(replica, as_ranges) => pages_io(alloc, reader, writer, replica, as_ranges),
            Task::AuditChain(style, _, least) => {
                audit_chain_io(alloc, reader, writer, style, least, progress)
            }
            Task::ExplainChain(as_json) => explain_chain_io(alloc, reader, writer, as_json),
            Task::PagesOfChain(ChainPoint::Start, as_ranges) => {
                chain_start_io(alloc, reader, writer, as_ranges)
            }
            Task::PagesOfChain(ChainPoint::End, as_ranges) => {
                chain_end_io(alloc, reader, writer, as_ranges)
            }
        }
    }
}
