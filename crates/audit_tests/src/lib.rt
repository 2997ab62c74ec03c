//! Worked examples of the public calls of traces, dumps and the auditor, with values from elsewhere: each call once with ample
//! memory. No crate depends on this one, so that each library is proved once.
#![tactic(auto)]

#[cfg(test)]
mod audit;
#[cfg(test)]
mod audit_cases;
#[cfg(test)]
mod bytes;
#[cfg(test)]
mod dump;
#[cfg(test)]
mod dump_cases;
#[cfg(test)]
mod events;
#[cfg(test)]
mod explained;
#[cfg(test)]
mod found_orders;
#[cfg(test)]
mod large;
#[cfg(test)]
mod other_dumps;
#[cfg(test)]
mod pieces;
#[cfg(test)]
mod recorded;
#[cfg(test)]
mod segments;
#[cfg(test)]
mod starts;
#[cfg(test)]
mod steps;
#[cfg(test)]
mod trace;
#[cfg(test)]
mod units;
#[cfg(test)]
mod writing;
