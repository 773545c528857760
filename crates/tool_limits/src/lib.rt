// How much of a resource the system lets this process have, as it says in a file of its own: a line for each, with what holds now and what may be asked for.
#![tactic(auto)]

use system::System;

// A limit that holds now, and the most that may be asked for.
#[derive(Clone, Copy, Default)]
pub struct Limits {
    pub current: u64,
    pub most: u64,
}

// The line on the stack.
pub const STACK: &[u8] = b"Max stack size";

// The text behind a word that begins a line; nothing where no line begins so.
fn behind<'a>(text: &'a [u8], word: &[u8]) -> &'a [u8] {
    for i in 0..text.len() {
        if let Some(rest) = text[i..].strip_prefix(word) {
            return rest;
        }
    }
    &[]
}

// The text from the first byte on that is no blank.
fn over_blanks(text: &[u8]) -> &[u8] {
    match text.iter().position(|&x| x != b' ') {
        Some(i) => &text[i..],
        None => &[],
    }
}

// The text from its first blank on.
fn over_text(text: &[u8]) -> &[u8] {
    match text.iter().position(|&x| x == b' ') {
        Some(i) => &text[i..],
        None => &[],
    }
}

// The number that a text begins with, as large as it can be where there is no limit.
fn number(text: &[u8]) -> u64 {
    if text.starts_with(b"unlimited") {
        return u64::MAX;
    }
    let mut n: u64 = 0;
    for &x in text {
        if !x.is_ascii_digit() {
            return n;
        }
        n = n.saturating_mul(10).saturating_add(u64::from(x - b'0'));
    }
    n
}

fn told(text: &[u8], word: &[u8]) -> Limits {
    let first = over_blanks(behind(text, word));
    let second = over_blanks(over_text(first));
    Limits {
        current: number(first),
        most: number(second),
    }
}

// The limits of a resource, as a value; 0 and 0 where they are not told.
pub fn limit(sys: &System, resource: &[u8]) -> Limits {
    let Some(fd) = sys.open_read(b"/proc/self/limits") else {
        return Limits::default();
    };
    let mut text = io::buffer();
    let n = sys.read_full(fd, &mut text);
    sys.close(fd);
    told(&text[..n], resource)
}
