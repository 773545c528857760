// How many cases were accepted, and how many refused in which way: counted, and said at the end.
#![tactic(auto)]

use system::System;
use tool_judge_words::how_many;
use tool_words::{number, say};

// The cases by what became of them: those refused by 31, and by the six mismatches of 32; those that are accepted, and of these those that are warned of.
#[derive(Clone, Copy)]
pub struct Tally {
    refused: [usize; 7],
    accepted: usize,
    warned: usize,
}

// Before the first case.
pub fn none() -> Tally {
    Tally {
        refused: [0; 7],
        accepted: 0,
        warned: 0,
    }
}

impl Tally {
    // One case more that is refused, by 31 where the mismatch is 0.
    pub fn refuse(&mut self, mismatch: usize) {
        if let Some(n) = self.refused.get_mut(mismatch) {
            *n = n.saturating_add(1);
        }
    }

    pub fn accept(&mut self) {
        self.accepted = self.accepted.saturating_add(1);
    }

    pub fn warn(&mut self) {
        self.warned = self.warned.saturating_add(1);
    }
}

fn kind_name(out: &mut [u8; 4096], at: usize, kind: usize) -> usize {
    match kind {
        0 => say(out, at, b" by a group too deep"),
        1 => say(out, at, b" by the header"),
        2 => say(out, at, b" by the walk"),
        3 => say(out, at, b" by an AVP"),
        4 => say(out, at, b" by a missing AVP"),
        5 => say(out, at, b" by the notice"),
        _ => say(out, at, b" by the row"),
    }
}

// How many were refused in one way, where there are any. What stands before the first of the list is not what stands before the others.
fn say_kind(out: &mut [u8; 4096], at: usize, is_first: bool, n: usize, kind: usize) -> usize {
    if n == 0 {
        return at;
    }
    let a = say(out, at, if is_first { b": " } else { b", " });
    let b = number(out, a, n as u64);
    kind_name(out, b, kind)
}

fn say_kinds(out: &mut [u8; 4096], at: usize, refused: &[usize; 7]) -> usize {
    let mut a = at;
    for kind in 0..7 {
        a = say_kind(out, a, a == at, refused[kind], kind);
    }
    a
}

// The last line; the status is 1 where a case was refused.
pub fn summary(sys: &System, all: usize, tally: &Tally) {
    let mut out = [0u8; 4096];
    let refused = all.saturating_sub(tally.accepted);
    let a = how_many(&mut out, 0, all, b"case");
    let b = say(&mut out, a, b", ");
    let c = number(&mut out, b, tally.accepted as u64);
    let d = say(&mut out, c, b" accepted, ");
    let e = number(&mut out, d, refused as u64);
    let f = say(&mut out, e, b" refused");
    let g = say_kinds(&mut out, f, &tally.refused);
    let h = say(&mut out, g, b"; warnings: ");
    let i = number(&mut out, h, tally.warned as u64);
    let j = say(&mut out, i, b"\n");
    if !tool_files::print(sys, &out, j) {
        return;
    }
    if 0 < refused {
        tool_files::refuse(sys, b"the old server did not always do what ours does");
    }
}
