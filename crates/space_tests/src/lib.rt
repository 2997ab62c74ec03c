//! Worked examples of the page table's public calls, with values from elsewhere: each call once with ample memory, and each generic
//! at a concrete type. No crate depends on this one, so that each library is proved once.
#![tactic(auto)]

#[cfg(test)]
mod alike;
#[cfg(test)]
mod arena;
pub mod both;
#[cfg(test)]
mod cases;
#[cfg(test)]
mod lent;
#[cfg(test)]
mod plain;
#[cfg(test)]
mod plan;
#[cfg(test)]
mod space;
#[cfg(test)]
mod types;
#[cfg(test)]
mod values;
#[cfg(test)]
mod walk;
