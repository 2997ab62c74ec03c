//! The extended page tables of virtual machines as a second format of entries: what a word means in them, and the walk and the traversal
//! of their tables.
#![tactic(auto)]

pub mod ept;
pub mod guest;
#[cfg(test)]
mod reference;
#[cfg(test)]
mod walks;
#[cfg(test)]
mod words;
