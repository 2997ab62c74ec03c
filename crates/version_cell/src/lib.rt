//! A cell whose value threads exchange as one, under a rule of the caller's, with words beside it that each belong to one pass.
//!
//! One word of the cell is the code of its value, and each exchange is one step that raises it. The words beside it that the value needs
//! were stored before by the pass that they belong to. So no exchange waits for another, and a look is one load.
#![tactic(auto)]

mod cell;
mod doing;
mod layout;
mod pass;
mod plays;
mod rule;

pub use cell::VersionCell;
pub use pass::Pass;
pub use rule::{CellChange, CellOutcome, CellRule};
