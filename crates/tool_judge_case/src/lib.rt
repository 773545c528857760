// One case of `judge`: judged by the library, and what came of it said.
#![tactic(auto)]

use judge::Found;
use system::System;
use tool_judge_tally::Tally;
use tool_words::{number, say};

// What is said of a case begins with its number and what its request asks.
fn begin(out: &mut [u8; 4096], k: usize, m: &[u8], form: u32) -> usize {
    let a = number(out, 0, k as u64);
    let b = say(out, a, b". ");
    let c = tool_request_line::asked(out, b, m, form);
    say(out, c, b": ")
}

// An accepted case, and a result of theirs that was passed over.
fn tell_accepted(
    sys: &System,
    out: &mut [u8; 4096],
    at: usize,
    ours: &[u8],
    theirs: &[u8],
    tally: &mut Tally,
) -> bool {
    tally.accept();
    let n = say(out, at, b"accepted\n");
    if !tool_files::print(sys, out, n) {
        return false;
    }
    if tool_judge_lines::tell_second(sys, ours, theirs) {
        tally.warn();
    }
    true
}

// The start of a refusal.
fn begin_refused(out: &mut [u8; 4096], at: usize, n: u32) -> usize {
    let a = say(out, at, b"refused, ");
    let b = number(out, a, n as u64);
    say(out, b, b": ")
}

// What came of a case is said: ours stands in the rooms, and the row due in place of the one before.
fn tell(
    sys: &System,
    k: usize,
    form: u32,
    f: Found,
    m: &[u8],
    ours: &[u8],
    theirs: &[u8],
    our_notice: &[u8],
    their_notice: &[u8],
    row: &[u8],
    after: &[u8],
    tally: &mut Tally,
) -> bool {
    let mut out = [0u8; 4096];
    let a = begin(&mut out, k, m, form);
    if f.number == 0 {
        return tell_accepted(sys, &mut out, a, ours, theirs, tally);
    }
    tally.refuse(f.mismatch as usize);
    let b = begin_refused(&mut out, a, f.number);
    if f.number == 31 {
        return tool_judge_lines::tell_deep(sys, &mut out, b, theirs);
    }
    let kind = f.mismatch;
    match kind {
        5 => tool_judge_notice::tell_notice(sys, &mut out, b, form, our_notice, their_notice, f.at),
        6 => tool_judge_row::tell_row(sys, &mut out, b, form, row, after, f.at),
        _ => tool_judge_lines::tell_answer(sys, &mut out, b, f, m, ours, theirs),
    }
}

// Our answer in its room: as long as its header says, since ours has its true length; no bytes where nothing was written.
fn our_answer(room: &[u8; answers::ANSWER_LEAST]) -> &[u8] {
    let n = octets::read24(room, 1);
    room.get(..n).unwrap_or(b"")
}

// Our notice in its room: no bytes where nothing was written, since a notice begins with a Session-Id.
fn our_notice(room: &[u8; answers::NOTICE_LENGTH_2], form: u32) -> &[u8] {
    if octets::all_zero(room) {
        return b"";
    }
    room.get(..tool_form::notice_length(form)).unwrap_or(b"")
}

// The judgement, under the names that the words say.
fn ask(
    sys: &System,
    form: u32,
    op: u32,
    wag: bool,
    row: &mut [u8],
    after: &[u8],
    m: &[u8],
    theirs: &[u8],
    their_notice: &[u8],
    answer: &mut [u8; answers::ANSWER_LEAST],
    notice: &mut [u8; answers::NOTICE_LENGTH_2],
) -> Found {
    let mut host = io::buffer();
    let mut realm = io::buffer();
    let a = sys.arg(5, &mut host);
    let b = sys.arg(6, &mut realm);
    judge::judge(
        row,
        after,
        form,
        op,
        &host[..a],
        &realm[..b],
        m,
        wag,
        theirs,
        their_notice,
        answer,
        notice,
    )
}

// Whether a judgement is about the old server; a number of the words themselves is said.
fn check_words_taken(sys: &System, f: Found) -> bool {
    let n = f.number;
    match n {
        0 | 31 | 32 => true,
        _ => {
            let mut out = [0u8; 4096];
            let a = say(&mut out, 0, b"play: number ");
            let b = number(&mut out, a, f.number as u64);
            let c = say(&mut out, b, b": ");
            let e = tool_names::no_answer(&mut out, c, f.number);
            let g = say(&mut out, e, b"\n");
            tool_files::note(sys, &out, g);
            tool_files::mark(sys);
            false
        }
    }
}

// Case k judged and said; whether it could be. The rows are its own, and the one before becomes the one due.
pub fn judge_one(
    sys: &System,
    form: u32,
    op: u32,
    wag: bool,
    k: usize,
    row: &mut [u8],
    after: &[u8],
    m: &[u8],
    theirs: &[u8],
    their_notice: &[u8],
    tally: &mut Tally,
) -> bool {
    let mut answer = [0u8; answers::ANSWER_LEAST];
    let mut notice = [0u8; answers::NOTICE_LENGTH_2];
    let f = ask(
        sys,
        form,
        op,
        wag,
        row,
        after,
        m,
        theirs,
        their_notice,
        &mut answer,
        &mut notice,
    );
    if !check_words_taken(sys, f) {
        return false;
    }
    tell(
        sys,
        k,
        form,
        f,
        m,
        our_answer(&answer),
        theirs,
        our_notice(&notice, form),
        their_notice,
        row,
        after,
        tally,
    )
}
