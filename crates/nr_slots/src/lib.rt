//! Slots: where the threads of a replica put their updates, and where its combiner leaves the answers.
//!
//! A slot goes from empty to posted, taken, ready, and back to empty. Beside each lies a word that says which of these it is. A thread
//! that steps on a slot first takes it by that word, so that no other thread has it, and no thread waits for one.
#![tactic(auto)]

mod answered;
mod cells;
mod kept;
mod rule;
mod slot;
mod slots;
mod state;
mod waiting;

pub use answered::Answered;
pub use rule::{Anything, SlotRule};
pub use slot::{NotTaken, Occupied, Slot};
pub use slots::Slots;
pub use waiting::Waiting;
