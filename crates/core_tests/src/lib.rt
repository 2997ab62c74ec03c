//! What the auditor says of the protocol's recordings: the law that it says yes; and worked examples of the public calls of the core,
//! of the reader of scripts, of the words of requests and of the recorder. No crate depends on this one, so that the core does not
//! depend on the auditor, and each library is proved once.
#![tactic(auto)]

#[cfg(test)]
mod cases;
#[cfg(test)]
mod examples;
#[cfg(test)]
mod growths;
pub mod judging;
pub mod laws;
#[cfg(test)]
mod lists;
#[cfg(test)]
mod recorder;
#[cfg(test)]
mod recorder_growths;
#[cfg(test)]
mod recorder_threads;
#[cfg(test)]
mod scripts;
#[cfg(test)]
mod scripts_in_pieces;
#[cfg(test)]
mod scripts_in_portions;
#[cfg(test)]
mod scripts_read;
#[cfg(test)]
mod serve;
#[cfg(test)]
mod words;
