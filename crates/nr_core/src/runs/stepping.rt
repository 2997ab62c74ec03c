//! One step.
ghost use Rattle.std.specs.Prelude.{◌≡◌, MatchResult};
ghost use Rattle.nr_core.specs.Run.{IsStepped};
ghost use Rattle.nr_core.specs.Steps.{after_step};

use crate::runs::step::{Act, Step};
use crate::states::state::Core;
use vs_types::Memory;

impl Core {
    /// Takes a step where it is enabled, and says whether it was; else nothing is changed. It allocates memory where a call, a reply
    /// or an entry of the log is recorded, and where an update comes into a batch.
    ///
    /// # Errors
    ///
    /// Out of memory: the core is unchanged.
    pub fn step(&mut self, step: Step) -> Result<bool, Memory>
        ensures { MatchResult result
            (λ done. IsStepped self.old (after_step self.old step) done self.new)
            (λ _. self.new ≡ self.old) }
    {
        let thread = step.thread;
        match step.act {
            Act::Call => self.call(thread),
            Act::Post => Ok(self.post(thread)),
            Act::Take(replica) => Ok(self.take(thread, replica)),
            Act::Collect(from) => self.collect(thread, from),
            Act::Append => self.append(thread),
            Act::Advance => Ok(self.advance(thread)),
            Act::Apply => Ok(self.apply(thread)),
            Act::Answer(to) => Ok(self.answer(thread, to)),
            Act::Release => Ok(self.release(thread)),
            Act::Look => Ok(self.look(thread)),
            Act::Read => Ok(self.read(thread)),
            Act::Reply => self.reply(thread),
        }
    }
}
