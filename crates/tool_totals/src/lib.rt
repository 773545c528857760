// What a file of messages came to, counted and said.
#![tactic(auto)]

use decision::Outcome;
use effects::Cut;
use message::Kind;
use system::System;
use tool_words::{number, say};

// What was done so far, and of the messages how many were passed over, and how many came out otherwise than expected.
#[derive(Clone, Copy)]
pub struct Totals {
    pub messages: usize,
    pub passed: usize,
    pub wrong: usize,
    pub good: usize,
    pub silent: usize,
    pub cuts: usize,
}

// Before the first message.
pub fn none() -> Totals {
    Totals {
        messages: 0,
        passed: 0,
        wrong: 0,
        good: 0,
        silent: 0,
        cuts: 0,
    }
}

// One more, or as many as before.
fn plus(n: usize, one: bool) -> usize {
    if one { n.saturating_add(1) } else { n }
}

fn is_silent(kind: Kind) -> bool {
    matches!(kind, Kind::NoAnswer)
}

pub fn is_cut(cut: Option<Cut>) -> bool {
    cut.is_some()
}

// One message more, and whether it came out as expected.
pub fn counted(t: Totals, o: Outcome, expected: bool) -> Totals {
    let kind = o.kind;
    let cut = o.cut;
    Totals {
        messages: plus(t.messages, true),
        wrong: plus(t.wrong, !expected),
        good: plus(t.good, o.code == 2001),
        silent: plus(t.silent, is_silent(kind)),
        cuts: plus(t.cuts, is_cut(cut)),
        ..t
    }
}

// One message more, which is passed over.
pub fn passed(t: Totals) -> Totals {
    Totals {
        messages: plus(t.messages, true),
        passed: plus(t.passed, true),
        ..t
    }
}

// The running count, every 10,000 messages, with how many there will be where that is known.
pub fn progress(sys: &System, done: usize, all: Option<usize>) {
    if done % 10000 != 0 {
        return;
    }
    let mut out = [0u8; 4096];
    let a = say(&mut out, 0, b"play: ");
    let b = number(&mut out, a, done as u64);
    let c = of_all(&mut out, b, all);
    let d = say(&mut out, c, b" messages\n");
    tool_files::note(sys, &out, d);
}

fn of_all(out: &mut [u8; 4096], at: usize, all: Option<usize>) -> usize {
    let Some(n) = all else {
        return at;
    };
    let a = say(out, at, b" of ");
    number(out, a, n as u64)
}

// What is said only if the command was asked for it.
fn other(out: &mut [u8; 4096], at: usize, what: &[u8], n: usize, asked: bool) -> usize {
    if !asked {
        return at;
    }
    let a = say(out, at, what);
    number(out, a, n as u64)
}

// What was done, in a line, with what was passed over if only some were asked for, and what differs if something was expected; whether it
// could be said.
pub fn summary(sys: &System, t: Totals, some: bool, expected: bool) -> bool {
    let mut out = [0u8; 4096];
    let a = number(&mut out, 0, t.messages.saturating_sub(t.passed) as u64);
    let b = say(&mut out, a, b" messages, ");
    let c = number(&mut out, b, t.good as u64);
    let d = say(&mut out, c, b" with success, ");
    let e = number(&mut out, d, t.silent as u64);
    let f = say(&mut out, e, b" without an answer; cuts: ");
    let g = number(&mut out, f, t.cuts as u64);
    let h = other(&mut out, g, b"; passed over: ", t.passed, some);
    let i = other(&mut out, h, b"; not as expected: ", t.wrong, expected);
    let j = say(&mut out, i, b"\n");
    tool_files::print(sys, &out, j)
}
