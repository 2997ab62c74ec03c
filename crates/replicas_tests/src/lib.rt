//! Worked examples of the public calls of the replicas, with values from elsewhere: each call with ample memory, at both depths, and
//! threads that share replicas. No crate depends on this one, so that each library is proved once.
#![tactic(auto)]

#[cfg(test)]
mod batches;
#[cfg(test)]
mod caller;
#[cfg(test)]
mod cases;
#[cfg(test)]
mod cuts;
#[cfg(test)]
mod draws;
#[cfg(test)]
mod dumps;
#[cfg(test)]
mod ends;
#[cfg(test)]
mod ends_at_once;
#[cfg(test)]
mod examples;
#[cfg(test)]
mod gate;
#[cfg(test)]
mod growths;
#[cfg(test)]
mod held;
#[cfg(test)]
mod judge;
#[cfg(test)]
mod log;
#[cfg(test)]
mod machine;
#[cfg(test)]
mod node;
#[cfg(test)]
mod scene;
#[cfg(test)]
mod sizes;
#[cfg(test)]
mod steps;
#[cfg(test)]
mod stops;
#[cfg(test)]
mod threads;
#[cfg(test)]
mod turns;
