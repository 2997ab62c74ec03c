//! The words in which addresses, pages, accesses and requests are written and read: `0x400000`, `4K`, `wux`, `resolve 0x400123`.
#![tactic(auto)]

mod access;
mod address;
pub mod laws;
mod name;
mod page;
mod request;
mod written;

pub use access::{access_text, mode_text, parse_access, parse_mode};
pub use address::{parse_address, push_address};
pub use page::{parse_rights, parse_size, push_page, push_rights, size_text};
pub use request::parse_request;
pub use written::request_text;
