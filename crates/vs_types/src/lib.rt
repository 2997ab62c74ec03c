//! The words of an address space: pages, operations, requests and answers, and what a page-table entry means.
//!
//! Numbers are bytes unless a name says otherwise. No call of this crate allocates memory or waits.
#![tactic(auto)]

mod addresses;
mod entries;
pub mod examples;
pub mod laws;
mod limits;
mod log_entry;
pub mod log_laws;
mod requests;

pub use addresses::access::{Access, Mode, fault_code};
pub use addresses::config::{BadConfig, Config};
pub use addresses::depth::{Depth, entry_bytes, entry_offset, index_at};
pub use addresses::frame::FRAME_WORDS;
pub use addresses::page::{Page, Rights, Size};
pub use entries::entry::{
    ABOVE_FLAGS, BELOW_FLAGS, BUT_FLAGS, BUT_RIGHTS, Entry, Meaning, RightsBits, address_bits,
    all_allowed, allowed_of, are_bits, bits_in, flagged, flags_into, has_flags_set, is_link,
    is_present, linked_frame, narrowed, page_address, page_word, read_written, reserved_bit,
    rights_at, rights_bits, unflagged, with_address, with_flags_of, with_rights,
};
pub use entries::format::EntryFormat;
pub use entries::kind::EntryKind;
pub use limits::{CALLS, FRAMES, LOG_PLACES, MOST_LEVELS, REPLICAS, RING, TABLES, THREADS};
pub use log_entry::{LogEntry, entry_of, pack, unpack};
pub use requests::answer::Answer;
pub use requests::fields::RequestFields;
pub use requests::op::{Action, BadOp, Op};
pub use requests::refusal::{Fail, Memory};
pub use requests::request::{Query, Request};
