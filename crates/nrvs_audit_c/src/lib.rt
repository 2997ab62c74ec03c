//! The audit for C: bytes are judged, and the verdict is given in numbers. A chain is judged as it comes, a segment at a time.
//!
//! A call allocates on the heap that is linked with it. What a chain keeps there between calls is freed by `nrvs_audit_chain_free`, and all
//! else before the call returns.
#![tactic(auto)]

mod chain;
mod export;
mod handle;
mod held;
mod loose;

pub use handle::Handle;
