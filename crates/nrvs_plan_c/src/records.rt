//! What C keeps of a plan and of a range, and what the caller learns of both.

pub(crate) mod codes;
pub(crate) mod kept;
pub(crate) mod parts;
pub(crate) mod range;
pub(crate) mod run_told;
pub(crate) mod status;
pub(crate) mod told;
pub(crate) mod written;
