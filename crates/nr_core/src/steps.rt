//! The steps, one function each.

mod answers;
mod applying;
mod batches;
mod calls;
mod locks;
