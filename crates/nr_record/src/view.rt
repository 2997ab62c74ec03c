//! What a clock is made for, and what is known of it and of a seat at its word.
use std::collections::LinkedList;
use vs_types::Config;

/// What a clock is made for: how the service is laid out, and how many calls its pens may make in all.
#[derive(Clone, Copy)]
pub struct Plan {
    pub config: Config,
    pub calls: u32,
}

/// What a seat at the word of a clock knows. Contracts speak of views; no value of the type is made.
pub struct View {
    /// What the clock was made for.
    pub plan: Plan,
    /// For how many calls it may draw stamps, two for each.
    pub quota: u64,
    /// The stamps that it has drawn, in order.
    pub stamps: LinkedList<u64>,
}
