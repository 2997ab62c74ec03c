//! What the judge keeps of a run: its log, its calls, and what came before.

pub(crate) mod history;
pub(crate) mod last_calls;
pub(crate) mod last_events;
pub(crate) mod log;
pub(crate) mod meetings;
pub(crate) mod met;
pub(crate) mod past;
pub(crate) mod positions;
