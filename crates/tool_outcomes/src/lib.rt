// What came of a message: the answer and the notice written, and the message's line said.
#![tactic(auto)]

use decision::Outcome;
use reasons::Why;
use system::System;
use tool_words::{number, say};

// The first n bytes of a room, written; why not is said of the file.
fn put(sys: &System, fd: i32, path: &[u8], room: &[u8], n: usize) -> bool {
    let Some(text) = room.get(..n) else {
        return false;
    };
    if sys.write_all(fd, text) {
        return true;
    }
    tool_files::refuse_file(sys, path);
    false
}

// The files that answers and notices go to.
#[derive(Clone, Copy)]
pub struct Sheets {
    pub answers: i32,
    pub notices: i32,
}

// The answer and, where there was a cut, its notice, as long as the form has it; whether both are written.
pub fn keep(
    sys: &System,
    s: Sheets,
    answers: &[u8],
    notices: &[u8],
    form: u32,
    o: Outcome,
    answer: &[u8],
    notice: &[u8],
) -> bool {
    if !put(sys, s.answers, answers, answer, o.length) {
        return false;
    }
    let cut = o.cut;
    if tool_totals::is_cut(cut) {
        return put(
            sys,
            s.notices,
            notices,
            notice,
            tool_form::notice_length(form),
        );
    }
    true
}

// The line of a message: what it asks of a table of that form, what came of it, and why; whether it could be said.
fn tell(sys: &System, k: usize, m: &[u8], form: u32, o: Outcome, why: Why, notice: &[u8]) -> bool {
    let mut out = [0u8; 4096];
    let a = number(&mut out, 0, k as u64);
    let b = say(&mut out, a, b". ");
    let c = tool_request_line::asked(&mut out, b, m, form);
    let d = say(&mut out, c, b": ");
    let e = tool_reply_line::outcome(&mut out, d, form, o, why, notice);
    let f = say(&mut out, e, b"\n");
    tool_files::print(sys, &out, f)
}

// The line of a message, and below it that something else was expected. Where all is quiet only such a message has a line.
pub fn tell_unless_quiet(
    sys: &System,
    quiet: bool,
    expected: Option<usize>,
    k: usize,
    m: &[u8],
    form: u32,
    o: Outcome,
    why: Why,
    notice: &[u8],
) -> bool {
    if tool_expected::is_expected(o, expected) {
        return quiet || tell(sys, k, m, form, o, why, notice);
    }
    if !tell(sys, k, m, form, o, why, notice) {
        return false;
    }
    let Some(code) = expected else {
        return true;
    };
    let mut out = [0u8; 4096];
    let n = tool_expected::tell(&mut out, o, code);
    tool_files::print(sys, &out, n)
}
