//! What the audit's commands print: verdicts, walks, what shows a fault, and pages, as lines or as JSON. Each text is a function of what it
//! is of; nothing is read or written here.
#![tactic(auto)]

mod chain;
mod evidence;
mod explanation;
mod json;
pub mod laws;
mod lines;
mod nearby;
mod owner;
mod pages;
mod shared;
mod wording;

pub use chain::explanation::told_chain;
pub use chain::style::Style;
pub use chain::text::{end_lines, segment_lines, told_end, told_segment};
pub use evidence::put_evidence;
pub use explanation::told_explanation;
pub use json::audit_json::{named_verdict, told_verdict};
pub use json::fact_json::{Members, put_text};
pub use json::part_json::parts_value;
pub use lines::fact_text::push_steps;
pub use lines::full::told_full;
pub use lines::output::Output;
pub use lines::part_text::parts_text;
pub use lines::parts::{Part, Says};
pub use pages::printing::{dump_text, space_text};
pub use shared::{put_answer, put_look, put_read, put_stray_frame, put_unlike};
pub use wording::answer::{answer_text, push_answer};
pub use wording::sentence::{
    difference_sentence, other_answer_sentence, reason_text, sentence_text,
};
pub use wording::text::{
    fault_text, no_text, verdict_line, verdict_text, walk_text, walk_words, yes_text,
};
pub use wording::units::{bytes_text, unit_text};
