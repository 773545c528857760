// What a judgement says of an answer by its header alone: where that differs from ours, or that no answer is due.
#![tactic(auto)]

use system::System;
use tool_judge_words::end_line;
use tool_words::{number, say};

// The field of a header that a byte is in.
fn field_name(out: &mut [u8; 4096], at: usize, byte: usize) -> usize {
    match byte {
        0 => say(out, at, b"version"),
        1..=3 => say(out, at, b"length"),
        4 => say(out, at, b"flags"),
        5..=7 => say(out, at, b"command"),
        8..=11 => say(out, at, b"Application-Id"),
        12..=15 => say(out, at, b"Hop-by-Hop Identifier"),
        _ => say(out, at, b"End-to-End Identifier"),
    }
}

// The bytes of a message from one place to another.
fn bytes(out: &mut [u8; 4096], at: usize, m: &[u8], from: usize, end: usize) -> usize {
    match m.get(from..end) {
        Some(s) => tool_words::octets(out, at, s),
        None => at,
    }
}

// That field of a header, byte by byte, where it is not the length.
fn field(out: &mut [u8; 4096], at: usize, m: &[u8], byte: usize) -> usize {
    match byte {
        0 => bytes(out, at, m, 0, 1),
        4 => bytes(out, at, m, 4, 5),
        5..=7 => bytes(out, at, m, 5, 8),
        8..=11 => bytes(out, at, m, 8, 12),
        12..=15 => bytes(out, at, m, 12, 16),
        _ => bytes(out, at, m, 16, message::HEADER_LENGTH),
    }
}

// Both fields.
fn say_fields(out: &mut [u8; 4096], at: usize, ours: &[u8], theirs: &[u8], byte: usize) -> usize {
    let a = say(out, at, b": ours");
    let b = field(out, a, ours, byte);
    let c = say(out, b, b", theirs");
    field(out, c, theirs, byte)
}

// The length that a header says, and the one that is due, which is the answer's own.
fn say_lengths(out: &mut [u8; 4096], at: usize, theirs: &[u8]) -> usize {
    if theirs.len() < 4 {
        return at;
    }
    let a = say(out, at, b": theirs says ");
    let b = number(out, a, octets::read24(theirs, 1) as u64);
    let c = say(out, b, b", and it has ");
    let d = number(out, c, theirs.len() as u64);
    say(out, d, b" bytes")
}

// What stands in the field that a byte is in.
fn say_difference(
    out: &mut [u8; 4096],
    at: usize,
    ours: &[u8],
    theirs: &[u8],
    byte: usize,
) -> usize {
    match byte {
        1..=3 => say_lengths(out, at, theirs),
        _ => say_fields(out, at, ours, theirs, byte),
    }
}

// A header that differs at a byte, or ends there, said behind what the line has; whether it could be said.
pub fn tell_byte(
    sys: &System,
    out: &mut [u8; 4096],
    at: usize,
    ours: &[u8],
    theirs: &[u8],
    byte: usize,
) -> bool {
    if theirs.len() <= byte {
        let a = say(out, at, b"the answer ends inside its header, at byte ");
        let b = number(out, a, byte as u64);
        return end_line(sys, out, b, b"");
    }
    let a = say(out, at, b"the header differs at byte ");
    let b = number(out, a, byte as u64);
    let c = say(out, b, b", ");
    let d = field_name(out, c, byte);
    let e = say_difference(out, d, ours, theirs, byte);
    end_line(sys, out, e, b"")
}

// An answer to a request that gets none, by its number.
pub fn tell_not_due(sys: &System, out: &mut [u8; 4096], at: usize, m: &[u8]) -> bool {
    let n = message::number(m);
    let a = say(out, at, b"an answer, and none is due, number ");
    let b = number(out, a, n as u64);
    let c = say(out, b, b": ");
    let d = tool_names::no_answer(out, c, n);
    end_line(sys, out, d, b"")
}
