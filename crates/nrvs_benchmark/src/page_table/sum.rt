//! The sum of all answers.
ghost use Rattle.std.specs.Prelude.{◌≡◌, ◌<◌, ◌^◌};
ghost use Rattle.nrvs_benchmark.specs.Sum as sums;

use vs_types::{Answer, Rights, Size};

/// A sum over numbers one after another, in which their order counts: 31 times the sum before, and the number, of which
/// the lowest 64 bits are kept.
#[derive(Clone, Copy, Debug)]
pub struct Sum {
    value: u64,
}

impl Sum {
    /// The sum of no numbers.
    pub fn new() -> Sum
        ensures { result.value ≡ 0 }
    {
        Sum { value: 0 }
    }

    /// The lowest 64 bits of the sum.
    pub fn get(self) -> u64
        ensures { result ≡ self.value }
    {
        self.value
    }

    /// Goes on with a number.
    #[inline(always)]
    pub fn add(&mut self, number: u64)
        ensures { self.new.value ≡ sums.sum_with self.old.value number }
    {
        self.value = self.value.wrapping_mul(31).wrapping_add(number);
    }

    /// Goes on with the number of an answer.
    #[inline(always)]
    pub fn add_answer(&mut self, answer: Answer)
        ensures { self.new.value ≡ sums.sum_with self.old.value (sums.answer_number answer) }
    {
        self.add(number_of(answer));
    }
}

/// The number of an answer: which one it is, its rights, the level of its size, and its address or count.
#[inline(always)]
fn number_of(answer: Answer) -> u64
    ensures { result ≡ sums.answer_number answer }
{
    match answer {
        Answer::Done => 0,
        Answer::Overlap(base) => with_value(1, base),
        Answer::Full(need) => with_value(2, need),
        Answer::Removed(phys, size, rights) => with_value(3 + page_number(size, rights), phys),
        Answer::NotMapped => 4,
        Answer::Inside(base) => with_value(5, base),
        Answer::Changed(rights) => 6 + 8 * rights_number(rights),
        Answer::Mapped(phys, size, rights) => with_value(7 + page_number(size, rights), phys),
        Answer::Allowed(phys) => with_value(8, phys),
        Answer::Fault(code) => with_value(9, code),
    }
}

/// A value in front of the rest.
#[inline(always)]
fn with_value(number: u64, value: u64) -> u64
    ensures { result ≡ sums.with_value number value }
{
    value.wrapping_mul(256).wrapping_add(number)
}

/// The level of a size, and rights, in front of which answer it is.
#[inline(always)]
fn page_number(size: Size, rights: Rights) -> u64
    ensures is { result ≡ sums.page_number size rights }
    ensures small { result < 2 ^ 15 }
{
    64 * u64::from(size.level()) + 8 * rights_number(rights)
}

/// Rights as three bits: write is the lowest, then user, then exec.
#[inline(always)]
fn rights_number(rights: Rights) -> u64
    ensures is { result ≡ sums.rights_number rights }
    ensures small { result < 8 }
{
    u64::from(rights.write) + 2 * u64::from(rights.user) + 4 * u64::from(rights.exec)
}
