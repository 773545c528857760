// What a judgement says of a row that is not the one due: where it first differs from ours, what stands there, and the order lines of both.
#![tactic(auto)]

use system::System;
use tool_judge_words::end_line;
use tool_words::{number, say};

// What a byte of block 0 is.
fn head_field(out: &mut [u8; 4096], at: usize, byte: usize) -> usize {
    match byte {
        1 => say(out, at, b"length of the name"),
        2..=16 => say(out, at, b"name"),
        17 => say(out, at, b"places in use"),
        18 => say(out, at, b"number of labels"),
        19 => say(out, at, b"operator"),
        20..=27 => say(out, at, b"order line"),
        32..=135 => say(out, at, b"label 1"),
        136..=239 => say(out, at, b"label 2"),
        240..=343 => say(out, at, b"label 3"),
        344..=447 => say(out, at, b"label 4"),
        510..=511 => say(out, at, b"sums of block 0"),
        _ => say(out, at, b"a byte of block 0 that never changes"),
    }
}

// What a byte of the first block of a place is.
fn first_field(out: &mut [u8; 4096], at: usize, byte: usize) -> usize {
    match byte {
        0 => say(out, at, b"in use or free"),
        1 => say(out, at, b"number of its label"),
        2 => say(out, at, b"length of the Session-Id"),
        3 => say(out, at, b"length of the gateway's host"),
        4 => say(out, at, b"policy held or not"),
        5 => say(out, at, b"length of the policy"),
        8..=135 => say(out, at, b"Session-Id"),
        136..=263 => say(out, at, b"gateway's host"),
        264..=391 => say(out, at, b"policy"),
        510..=511 => say(out, at, b"sums"),
        _ => say(out, at, b"a zero"),
    }
}

// What a byte of the second block of a place is, in form 2.
fn second_field(out: &mut [u8; 4096], at: usize, byte: usize) -> usize {
    match byte {
        0 => say(out, at, b"in use or free, second block"),
        1 => say(out, at, b"length of the gateway's realm"),
        3 => say(out, at, b"length of the second policy"),
        4 => say(out, at, b"length of the third policy"),
        8..=135 => say(out, at, b"gateway's realm"),
        136..=263 => say(out, at, b"second policy"),
        264..=391 => say(out, at, b"third policy"),
        510..=511 => say(out, at, b"sums of the second block"),
        _ => say(out, at, b"a zero of the second block"),
    }
}

// What a byte of a place is.
fn place_field(out: &mut [u8; 4096], at: usize, byte: usize) -> usize {
    if byte < table::BLOCK_LENGTH {
        return first_field(out, at, byte);
    }
    second_field(out, at, byte % table::BLOCK_LENGTH)
}

// What a byte of a row is: one of block 0, or of a place, which has 512 bytes in form 1 and 1,024 in form 2.
fn row_field(out: &mut [u8; 4096], at: usize, form: u32, byte: usize) -> usize {
    if byte < table::BLOCK_LENGTH {
        return head_field(out, at, byte);
    }
    let a = say(out, at, b"place ");
    let rest = byte - table::BLOCK_LENGTH;
    let length = if form == 2 {
        table::TWO_BLOCKS
    } else {
        table::BLOCK_LENGTH
    };
    let b = number(out, a, (rest / length + 1) as u64);
    let c = say(out, b, b", ");
    place_field(out, c, rest % length)
}

// A byte of a row.
fn octet(out: &mut [u8; 4096], at: usize, row: &[u8], byte: usize) -> usize {
    match row.get(byte) {
        Some(x) => tool_words::octet(out, at, *x),
        None => at,
    }
}

// The order line of a row, behind a margin.
fn tell_line(sys: &System, margin: &[u8], row: &[u8]) -> bool {
    let mut out = [0u8; 4096];
    let a = say(&mut out, 0, margin);
    let b = tool_reply_line::line(&mut out, a, row);
    end_line(sys, &mut out, b, b"")
}

// The order lines of both, where they are not the same.
fn tell_lines(sys: &System, ours: &[u8], theirs: &[u8]) -> bool {
    let mut a = [0u8; 4096];
    let mut b = [0u8; 4096];
    tool_reply_line::line(&mut a, 0, ours);
    tool_reply_line::line(&mut b, 0, theirs);
    if a == b {
        return true;
    }
    tell_line(sys, b"  ours: ", ours) && tell_line(sys, b"  theirs: ", theirs)
}

// A row that is not the one due, said behind what the line has: the first byte that differs, and the order lines.
pub fn tell_row(
    sys: &System,
    out: &mut [u8; 4096],
    at: usize,
    form: u32,
    ours: &[u8],
    theirs: &[u8],
    byte: usize,
) -> bool {
    let a = say(out, at, b"the row differs at byte ");
    let b = number(out, a, byte as u64);
    let c = say(out, b, b", ");
    let d = row_field(out, c, form, byte);
    let e = say(out, d, b": ours ");
    let f = octet(out, e, ours, byte);
    let g = say(out, f, b", theirs ");
    let h = octet(out, g, theirs, byte);
    end_line(sys, out, h, b"") && tell_lines(sys, ours, theirs)
}
