//! Verdicts in numbers.

ghost use Rattle.std.specs.Prelude.{◌≡◌};
ghost use Rattle.audit_numbers.specs.Numbers.{end_numbers, fault_numbers, finding_of, format_numbers, with_dump, with_format, with_index};

use nr_audit::Verdict;
use nr_trace::{Fault, Format};

/// A verdict in numbers: its fault, and what it names; what it doesn't name is 0.
#[repr(C)]
#[derive(Clone, Copy, Debug, PartialEq, Eq)]
pub struct Finding {
    /// 0 where the trace is right, else the number of the fault: 1 to 25.
    pub fault: u32,
    /// What is wrong with the bytes, for fault 1: 1 to 9.
    pub format: u32,
    /// The index of an event, a call, a place of the log, or a frame or word of a dump.
    pub index: u32,
    /// The replica whose dump it is.
    pub replica: u32,
    /// The number of a frame, or an address in bytes.
    pub number: u64,
    /// How many calls the order has.
    pub calls: usize,
}

impl Finding {
    /// The numbers of a verdict.
    pub(crate) fn of(verdict: &Verdict) -> Finding
        ensures { result ≡ finding_of verdict.now }
    {
        match verdict {
            Verdict::Yes(order) => Finding {
                calls: order.calls().len(),
                ..Finding::with_index(0, 0)
            },
            Verdict::No(fault) => Finding::of_fault(*fault),
        }
    }

    /// The numbers of how a chain ends.
    pub(crate) fn of_end(found: Option<Fault>) -> Finding
        ensures { result ≡ end_numbers found }
    {
        match found {
            None => Finding::with_index(0, 0),
            Some(fault) => Finding::of_fault(fault),
        }
    }

    #[tactic(auto, unfolding(crate::specs::Numbers::fault_numbers))]
    fn of_fault(fault: Fault) -> Finding
        ensures { result ≡ fault_numbers fault }
    {
        match fault {
            Fault::Format(fault) => Finding::of_format(fault),
            Fault::ThreadOpen(event) => Finding::with_index(2, event),
            Fault::NoSuchCall(event) => Finding::with_index(3, event),
            Fault::AnsweredTwice(event) => Finding::with_index(4, event),
            Fault::NotAnUpdate(place) => Finding::with_index(5, place),
            Fault::PlacedTwice(place) => Finding::with_index(6, place),
            Fault::NotPlaced(event) => Finding::with_index(7, event),
            Fault::PastLog(event) => Finding::with_index(8, event),
            Fault::Early(call) => Finding::with_index(9, call),
            Fault::WrongAnswer(call) => Finding::with_index(10, call),
            Fault::PrefixPastLog(replica) => Finding::with_dump(11, replica, 0, 0),
            Fault::PrefixShort(replica) => Finding::with_dump(12, replica, 0, 0),
            Fault::MissingFrame(replica, number) => Finding::with_dump(13, replica, number, 0),
            Fault::SharedFrame(replica, number) => Finding::with_dump(14, replica, number, 0),
            Fault::ReservedBit(replica, number, word) => {
                Finding::with_dump(15, replica, number, word)
            }
            Fault::StrayFrame(replica, number) => Finding::with_dump(16, replica, number, 0),
            Fault::Differs(replica, address) => Finding::with_dump(17, replica, address, 0),
            Fault::StartMissing(number) => Finding::with_dump(18, 0, number, 0),
            Fault::StartShared(number) => Finding::with_dump(19, 0, number, 0),
            Fault::StartReserved(number, word) => Finding::with_dump(20, 0, number, word),
            Fault::StartStray(number) => Finding::with_dump(21, 0, number, 0),
            Fault::StartBeyond(base) => Finding::with_dump(22, 0, base, 0),
            Fault::StartDiffers(address) => Finding::with_dump(23, 0, address, 0),
            Fault::Stale(call) => Finding::with_index(24, call),
            Fault::Reachable(call) => Finding::with_index(25, call),
        }
    }

    #[tactic(auto, unfolding(crate::specs::Numbers::format_numbers))]
    fn of_format(fault: Format) -> Finding
        ensures { result ≡ format_numbers fault }
    {
        match fault {
            Format::Truncated => Finding::with_format(1, 0, 0),
            Format::BadMagic => Finding::with_format(2, 0, 0),
            Format::BadVersion => Finding::with_format(3, 0, 0),
            Format::BadCount => Finding::with_format(4, 0, 0),
            Format::BadEvent(event) => Finding::with_format(5, 0, event),
            Format::BadFrame(replica, index) => Finding::with_format(6, replica, index),
            Format::Trailing => Finding::with_format(7, 0, 0),
            Format::BadChain => Finding::with_format(8, 0, 0),
            Format::BadStart(index) => Finding::with_format(9, 0, index),
        }
    }

    /// A fault that names an event, a place or a call.
    fn with_index(fault: u32, index: u32) -> Finding
        ensures { result ≡ with_index fault index }
    {
        Finding {
            fault,
            format: 0,
            index,
            replica: 0,
            number: 0,
            calls: 0,
        }
    }

    /// A fault of the format.
    fn with_format(format: u32, replica: u8, index: u32) -> Finding
        ensures { result ≡ with_format format replica index }
    {
        Finding {
            format,
            replica: u32::from(replica),
            ..Finding::with_index(1, index)
        }
    }

    /// A fault of a dump.
    fn with_dump(fault: u32, replica: u8, number: u64, word: u16) -> Finding
        ensures { result ≡ with_dump fault replica number word }
    {
        Finding {
            replica: u32::from(replica),
            number,
            ..Finding::with_index(fault, u32::from(word))
        }
    }
}
