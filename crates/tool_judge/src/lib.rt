// The command that judges the old server's answers: each case of a file, a request with the answer and the notice of the old server and its row before and after, is held against what
// ours does, and the first mismatch is said in words. All files are only read, and followed to their end before anything is said.
#![tactic(auto)]

use system::System;
use tool_judge_all::Desk;
use tool_judge_words::how_many;
use tool_options::Kind;
use tool_words::say;

// THE TABLES

// The table at a path, with a row for each of so many cases, put at the start of the room: its form. That there is none is said.
fn read_rows(sys: &System, path: &[u8], said: u32, cases: usize, room: &mut [u8]) -> Option<u32> {
    let found = tool_form::read(sys, path, said, room)?;
    let rows = found.length / tool_form::row_length(found.form);
    if rows == cases {
        return Some(found.form);
    }
    refuse_rows(sys, path, rows, cases);
    None
}

fn refuse_rows(sys: &System, path: &[u8], rows: usize, cases: usize) {
    let mut out = [0u8; 4096];
    let a = say(&mut out, 0, b"play: ");
    let b = tool_words::text(&mut out, a, path);
    let c = say(&mut out, b, b": ");
    let d = how_many(&mut out, c, rows, b"row");
    let e = say(&mut out, d, b", and ");
    let f = how_many(&mut out, e, cases, b"case");
    let g = say(&mut out, f, b": each has one\n");
    tool_files::note(sys, &out, g);
    tool_files::mark(sys);
}

// THE COMMAND

// The first of the words behind the names.
const FIRST: usize = 7;

// Whether word i, if it is there, is the first of a kind that the command takes.
fn is_word(sys: &System, i: usize) -> bool {
    if sys.arg_count() <= i {
        return true;
    }
    match tool_options::kind_at(sys, i) {
        Some(kind @ (Kind::Wag | Kind::Operator | Kind::Form)) => {
            tool_options::find_from(sys, FIRST, kind) == Some(i)
        }
        _ => false,
    }
}

fn check_words(sys: &System) -> bool {
    if is_word(sys, 7) && is_word(sys, 8) && is_word(sys, 9) {
        return true;
    }
    tool_files::refuse(
        sys,
        b"the last words may be operator=N, form=1 or form=2, and wag=yes, wag=no or wags=FILE, each once, and nothing else",
    );
    false
}

// Both tables read, and what the gateway says opened.
fn read_and_judge(
    sys: &System,
    op: u32,
    said: u32,
    fd: i32,
    path: &[u8],
    cases: usize,
    before: &mut [u8],
    after: &mut [u8],
) {
    let mut first = io::buffer();
    let mut second = io::buffer();
    let a = sys.arg(3, &mut first);
    let b = sys.arg(4, &mut second);
    let Some(form) = read_rows(sys, &first[..a], said, cases, before) else {
        return;
    };
    if read_rows(sys, &second[..b], form, cases, after).is_none() {
        return;
    }
    let gateway = tool_options::find_from(sys, FIRST, Kind::Wag);
    let Ok(wags) = tool_inputs::open_wags(sys, gateway, cases) else {
        return;
    };
    let d = Desk {
        cases: fd,
        wags,
        wag: tool_options::is_wag(sys, gateway),
        form,
        op,
    };
    tool_judge_all::judge_in(sys, d, path, cases, before, after);
}

// The cases followed to their end, and read from their start again.
fn open_and_judge(
    sys: &System,
    op: u32,
    said: u32,
    path: &[u8],
    before: &mut [u8],
    after: &mut [u8],
) {
    let Some(fd) = tool_files::open_plain(sys, path) else {
        return;
    };
    let Some(cases) = tool_judge_cases::count(sys, fd, path) else {
        return;
    };
    if !sys.seek_to(fd, 0) {
        tool_files::refuse_file(sys, path);
        return;
    }
    read_and_judge(sys, op, said, fd, path, cases, before, after);
}

// CASES BEFORE AFTER HOST REALM [operator=N] [form=F] [wag=yes|wag=no|wags=FILE]. The rooms are for the two tables.
pub fn run(sys: &System, before: &mut [u8], after: &mut [u8]) {
    if !check_words(sys) {
        return;
    }
    let operator = tool_options::find_from(sys, FIRST, Kind::Operator);
    let told = tool_operator::operator(sys, operator);
    let Some(op) = told else {
        return;
    };
    let word = tool_options::find_from(sys, FIRST, Kind::Form);
    let said = tool_form::word(sys, word);
    let Some(form) = said else {
        return;
    };
    let mut path = io::buffer();
    let n = sys.arg(2, &mut path);
    open_and_judge(sys, op, form, &path[..n], before, after);
}
