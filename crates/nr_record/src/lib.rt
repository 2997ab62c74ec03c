//! Records a run: each thread has a pen, which draws a stamp from the run's clock for each call and each reply and notes what it was
//! given with it. At the end the pens' notes, put in the order of their stamps, are the events of a trace.
//!
//! A stamp is the index of its event; a call's number is its stamp.
#![tactic(auto)]

mod clock;
mod ending;
pub mod laws;
mod order;
mod pen;
mod rule;
mod stamped;
mod view;

pub use clock::{Clock, pens};
pub use ending::{finish, finish_segment};
pub use pen::Pen;
pub use stamped::Stamped;
