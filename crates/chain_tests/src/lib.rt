//! Worked examples of the public calls of segments and chains and of the engines, with values from elsewhere: each call once with
//! ample memory. No crate depends on this one, so that each library is proved once.
#![tactic(auto)]

#[cfg(test)]
mod bytes;
#[cfg(test)]
mod engines;
#[cfg(test)]
mod flush;
#[cfg(test)]
mod pages;
#[cfg(test)]
mod pieces;
#[cfg(test)]
mod segments;
#[cfg(test)]
mod whole;
