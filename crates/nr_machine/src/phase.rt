//! What a machine waits for, and the number by which its struct keeps that.
ghost use Rattle.std.specs.Prelude.{◌≡◌};
ghost use Rattle.nr_machine.specs.Fields.{number_of, phase_in};

/// What a machine waits for.
#[derive(Clone, Copy, Debug, PartialEq, Eq)]
pub enum Phase {
    /// The next call.
    Rest,
    /// The load of the head.
    Looks,
    /// The load of how many entries the next node has taken.
    Scans,
    /// To have a node take entries.
    Lags,
    /// The store of an update's first word, ahead of the tail.
    StoresFirst,
    /// The store of its second word.
    StoresSecond,
    /// The exchange of the head.
    Swaps,
    /// The load of the first word of the entry below those that it has.
    LoadsFirst,
    /// The load of its second word.
    LoadsSecond,
    /// The store of how many entries its node has taken.
    Raises,
    /// To have the next entry applied.
    Applies,
    /// The store of how many entries its node has applied and flushed.
    Flushes,
    /// The load of how many entries are completed.
    Checks,
    /// The store of a greater number there.
    Publishes,
    /// Nothing any more.
    Broken,
}

impl Phase {
    /// The phase of a number. Those from 14 on are `Broken`'s.
    pub(crate) fn of(number: u64) -> Phase
        ensures { result ≡ phase_in number }
    {
        match number {
            0 => Phase::Rest,
            1 => Phase::Looks,
            2 => Phase::Scans,
            3 => Phase::Lags,
            4 => Phase::StoresFirst,
            5 => Phase::StoresSecond,
            6 => Phase::Swaps,
            7 => Phase::LoadsFirst,
            8 => Phase::LoadsSecond,
            9 => Phase::Raises,
            10 => Phase::Applies,
            11 => Phase::Flushes,
            12 => Phase::Checks,
            13 => Phase::Publishes,
            _ => Phase::Broken,
        }
    }

    /// Its number.
    pub(crate) fn number(self) -> u64
        ensures { result ≡ number_of self }
    {
        self as u64
    }
}
