//! C's struct: what a machine asks for, in numbers, and the machine.
ghost use Rattle.std.specs.Prelude.{◌≡◌};
ghost use Rattle.nr_machine.specs.declared.asked.Asked.{Asked};
ghost use Rattle.nr_machine.specs.Machine.{asked_by};
ghost use Rattle.nr_machine.specs.Sound.{IsSound};
ghost use Rattle.nrvs_nodes_c.specs.Numbers.{numbers_of};

use crate::numbers::Numbers;

/// A node's machine, behind what it asks for.
#[repr(C)]
#[derive(Clone, Copy, Debug)]
pub struct Node {
    /// What it asks for.
    pub asked: Numbers,
    /// The machine.
    pub machine: nr_machine::Node,
}

impl Node {
    /// Says what its machine asks for: the code of that. Here alone numbers are made, so that no call makes them twice: what a call of
    /// the machine returns is left, and isn't computed.
    pub(crate) fn say(&mut self) -> u32
        requires { IsSound self.old.machine }
        ensures numbers { self.new
            ≡ record self.old { asked = numbers_of (asked_by self.old.machine) } }
        ensures code { result ≡ (numbers_of (asked_by self.old.machine)).code }
        ensures broken { result ≡ 7 → asked_by self.old.machine ≡ Asked.Broken }
    {
        self.asked = Numbers::of(self.machine.asks());
        self.asked.code
    }
}
