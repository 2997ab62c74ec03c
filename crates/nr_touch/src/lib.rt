//! Touches: accesses that processors make through their TLBs, each compared with the moments that are still allowed.
//!
//! A TLB may keep a page until an update that took it away from the address is answered, which is when its flush is over, or one that
//! took away what came after it. A map, and a protect that only adds rights, flush nothing. A TLB may lag for one page and not for another.
//! So a touch is no linearizable read: it is right where it was answered as its address was at some moment that is still allowed.
#![tactic(auto)]

mod changes;
pub mod laws;
mod releases;
mod touches;

pub use changes::replay::{replies, space_after};
pub use releases::reaching::reached;
pub use releases::release::Release;
pub use touches::excuse::Excuse;
pub use touches::stale::{Followed, follow};
pub use touches::tail::Tail;
pub use touches::touch::Touch;
