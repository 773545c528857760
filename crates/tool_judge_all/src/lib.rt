// All cases of `judge`, one after another, on two tables that have a row for each of them.
#![tactic(auto)]

use system::System;
use tool_judge_cases::{Refused, Way};
use tool_judge_tally::Tally;

// What is read beside the tables: the cases, and what the gateway says to each, where not one word says it for all; the form of the rows, and the operator.
#[derive(Clone, Copy)]
pub struct Desk {
    pub cases: i32,
    pub wags: Option<i32>,
    pub wag: bool,
    pub form: u32,
    pub op: u32,
}

// What the gateway says to the next case; that its line could not be read again is said.
fn wag_of(sys: &System, d: Desk) -> Option<bool> {
    let Some(fd) = d.wags else {
        return Some(d.wag);
    };
    let word = tool_expected::take_wag(sys, fd);
    if word.is_none() {
        tool_files::refuse(sys, b"a line of wags= could not be read again");
    }
    word
}

// Row k of both tables, counted from 1.
fn judge_rows(
    sys: &System,
    d: Desk,
    wag: bool,
    k: usize,
    before: &mut [u8],
    after: &[u8],
    m: &[u8],
    theirs: &[u8],
    their_notice: &[u8],
    tally: &mut Tally,
) -> bool {
    if k < 1 || tool_form::MOST_ROWS < k {
        return false;
    }
    let a = tool_form::length_of(d.form, k - 1);
    let e = a + tool_form::row_length(d.form);
    let Some(row) = before.get_mut(a..e) else {
        return false;
    };
    let Some(row_after) = after.get(a..e) else {
        return false;
    };
    tool_judge_case::judge_one(
        sys,
        d.form,
        d.op,
        wag,
        k,
        row,
        row_after,
        m,
        theirs,
        their_notice,
        tally,
    )
}

// The case whose parts are at the start of three rooms.
fn judge_parts(
    sys: &System,
    d: Desk,
    w: Way,
    before: &mut [u8],
    after: &[u8],
    requests: &[u8; 8192],
    answers: &[u8; 8192],
    notices: &[u8; 8192],
    tally: &mut Tally,
) -> bool {
    let Some(m) = requests.get(..w.request) else {
        return false;
    };
    let Some(theirs) = answers.get(..w.answer) else {
        return false;
    };
    let Some(notice) = notices.get(..w.notice) else {
        return false;
    };
    let Some(wag) = wag_of(sys, d) else {
        return false;
    };
    judge_rows(
        sys, d, wag, w.cases, before, after, m, theirs, notice, tally,
    )
}

fn step(
    sys: &System,
    d: Desk,
    path: &[u8],
    before: &mut [u8],
    after: &[u8],
    tally: &mut Tally,
    w: Way,
) -> Result<Option<Way>, Refused> {
    let mut request = [0u8; 8192];
    let mut answer = [0u8; 8192];
    let mut notice = [0u8; 8192];
    let found = tool_judge_cases::look(
        sys,
        d.cases,
        path,
        w,
        &mut request,
        &mut answer,
        &mut notice,
    )?;
    let Some(v) = found else {
        return Ok(None);
    };
    if judge_parts(sys, d, v, before, after, &request, &answer, &notice, tally) {
        return Ok(Some(v));
    }
    Err(Refused)
}

// Each case in its turn. A proved loop has to end, and nothing says that a file does, so the turns are counted.
fn follow(
    sys: &System,
    d: Desk,
    path: &[u8],
    before: &mut [u8],
    after: &[u8],
    tally: &mut Tally,
) -> Result<Way, Refused> {
    let mut w = tool_judge_cases::start();
    for _ in 0..4294967296usize {
        let Some(next) = step(sys, d, path, before, after, tally, w)? else {
            return Ok(w);
        };
        w = next;
    }
    Ok(w)
}

fn judge_all(sys: &System, d: Desk, path: &[u8], before: &mut [u8], after: &[u8]) {
    let mut tally = tool_judge_tally::none();
    if let Ok(w) = follow(sys, d, path, before, after, &mut tally) {
        tool_judge_tally::summary(sys, w.cases, &tally);
    }
}

// The cases judged on both tables, which were read.
pub fn judge_in(sys: &System, d: Desk, path: &[u8], cases: usize, before: &mut [u8], after: &[u8]) {
    if tool_form::MOST_ROWS < cases {
        return;
    }
    let n = tool_form::length_of(d.form, cases);
    if before.len() < n || after.len() < n {
        return;
    }
    judge_all(sys, d, path, &mut before[..n], &after[..n]);
}
