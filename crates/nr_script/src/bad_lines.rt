//! Why a line of a script is bad, in words for a person.

use crate::line::is_step;
use crate::number::parse_number;
use crate::parts::split_words;
use crate::step::parse_step;
use vs_text::{parse_access, parse_address, parse_mode, parse_request, parse_rights, parse_size};
use vs_types::Depth;

/// What a word of a request has to be.
#[derive(Clone, Copy, Debug)]
enum Part {
    Size,
    Address,
    Rights,
    Mode,
    Access,
}

const MAP: &[Part] = &[Part::Size, Part::Address, Part::Address, Part::Rights];

const PROTECT: &[Part] = &[Part::Address, Part::Rights];

const ONE_ADDRESS: &[Part] = &[Part::Address];

const ACCESS: &[Part] = &[Part::Mode, Part::Access, Part::Address];

/// What comes after the name of a request, and how that request is written.
fn parts_of(name: &[u8]) -> Option<(&'static [Part], &'static str)> {
    match name {
        b"map" => Some((
            MAP,
            "a map is written THREAD map SIZE ADDRESS PHYSICAL RIGHTS",
        )),
        b"unmap" => Some((ONE_ADDRESS, "an unmap is written THREAD unmap ADDRESS")),
        b"protect" => Some((
            PROTECT,
            "a protect is written THREAD protect ADDRESS RIGHTS",
        )),
        b"resolve" => Some((ONE_ADDRESS, "a resolve is written THREAD resolve ADDRESS")),
        b"access" => Some((
            ACCESS,
            "an access is written THREAD access MODE ACCESS ADDRESS",
        )),
        _ => None,
    }
}

/// How a part is spelled, where this word doesn't spell it.
fn why_misspelled(part: Part, word: &[u8]) -> Option<&'static str> {
    let (is_spelled, why) = match part {
        Part::Size => (parse_size(word).is_some(), "a size is 4K, 2M or 1G"),
        Part::Address => (
            parse_address(word).is_some(),
            "an address is 0x and 1 to 16 hexadecimal digits",
        ),
        Part::Rights => (
            parse_rights(word).is_some(),
            "rights are wux, with a dash for each that isn't given",
        ),
        Part::Mode => (parse_mode(word).is_some(), "a mode is s or u"),
        Part::Access => (parse_access(word).is_some(), "an access is r, w or x"),
    };
    if is_spelled { None } else { Some(why) }
}

/// Why the words after a thread are no request; `None` where they are one.
fn why_no_request(depth: Depth, words: &[&[u8]]) -> Option<&'static str> {
    let [name, arguments @ ..] = words else {
        return Some("no request comes after the thread");
    };
    let Some((parts, form)) = parts_of(name) else {
        return Some("a request is map, unmap, protect, resolve or access");
    };
    if parts.len() != arguments.len() {
        return Some(form);
    }
    for (part, word) in parts.iter().zip(arguments) {
        if let Some(why) = why_misspelled(*part, word) {
            return Some(why);
        }
    }
    if parse_request(depth, words).is_none() {
        return Some("an address isn't canonical or aligned, or the page isn't below physical 2^51");
    }
    None
}

/// Why a step is bad.
fn why_bad_step(words: &[&[u8]], takes_steps: bool) -> &'static str {
    if !takes_steps {
        "it is a step, and a run takes none"
    } else if parse_step(words).is_none() {
        "a step is written step THREAD ACT, or step THREAD ACT NUMBER for take, collect and answer"
    } else {
        "it is step 1,000,001, and a script has at most 1,000,000"
    }
}

/// Why the words of a line are bad.
fn why_bad_words(depth: Depth, words: &[&[u8]], takes_steps: bool) -> &'static str {
    let [first, rest @ ..] = words else {
        return "it has no words";
    };
    if is_step(first) {
        return why_bad_step(rest, takes_steps);
    }
    if parse_number(first).is_none() {
        return "a line begins with a thread, 0 to 63, with step, or with #";
    }
    match why_no_request(depth, rest) {
        Some(why) => why,
        None => "it is request 65,537, and a script has at most 65,536",
    }
}

/// Why a line, without its LF, is the bad line of a script: in words for a person, with no more detail than a sentence. A run takes no
/// steps. Of a line that is well formed it says that it goes past a limit, which is so where it is the bad line of a script.
pub fn why_bad(depth: Depth, line: &[u8], takes_steps: bool) -> &'static str {
    if let [.., b'\r'] = line {
        return "it ends with a carriage return";
    }
    let words = split_words(line);
    if words.as_slice().iter().any(|word| word.is_empty()) {
        return "one space separates two words, and none begins or ends a line";
    }
    why_bad_words(depth, words.as_slice(), takes_steps)
}
