// Words that every part of a judgement is said with: how many of a thing, and how a line ends.
#![tactic(auto)]

use system::System;
use tool_words::{number, say};

// So many of a thing, which is called by what one of them is.
pub fn how_many(out: &mut [u8; 4096], at: usize, n: usize, name: &[u8]) -> usize {
    let a = number(out, at, n as u64);
    let b = say(out, a, b" ");
    let c = say(out, b, name);
    if n == 1 {
        return c;
    }
    say(out, c, b"s")
}

// The rest of a line that was begun, and its end; whether it could be said.
pub fn end_line(sys: &System, out: &mut [u8; 4096], at: usize, words: &[u8]) -> bool {
    let a = say(out, at, words);
    let b = say(out, a, b"\n");
    tool_files::print(sys, out, b)
}
