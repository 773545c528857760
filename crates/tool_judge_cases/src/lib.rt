// The file of cases that `judge` reads: three lines a case, in hex, with the request, the old server's answer and its notice, and - for an answer or a notice that there was none of.
// Empty lines and those that begin with # are passed over.
#![tactic(auto)]

use system::System;
use tool_lines::TooLong;
use tool_words::{number, say};

// ONE LINE

// Why a line says no bytes: it has no meaning, or there is no line any more.
#[derive(Clone, Copy, PartialEq, Eq)]
enum Fault {
    Wrong,
    End,
}

fn is_remark(line: &[u8]) -> bool {
    matches!(line.first(), None | Some(b'#'))
}

// What a line says: so many bytes, put at the start of the room, 0 for none; nothing where it is a remark.
fn meaning(line: &[u8], room: &mut [u8; 8192]) -> Result<Option<usize>, Fault> {
    if is_remark(line) {
        return Ok(None);
    }
    if matches!(line, b"-") {
        return Ok(Some(0));
    }
    let n = tool_lines::bytes(line, room).ok_or(Fault::Wrong)?;
    Ok(Some(n))
}

// A line has room for 5,461 bytes with a blank behind each, and for as many as the room has without.
fn read(sys: &System, fd: i32, room: &mut [u8; 8192]) -> Result<Option<usize>, Fault> {
    let mut text = [0u8; 16385];
    match tool_lines::read(sys, fd, &mut text) {
        Ok(None) => Err(Fault::End),
        Err(TooLong) => Err(Fault::Wrong),
        Ok(Some(n)) => meaning(text.get(..n).ok_or(Fault::Wrong)?, room),
    }
}

// What a line says that is no remark, and its number in the file.
#[derive(Clone, Copy)]
struct Told {
    found: Result<usize, Fault>,
    line: usize,
}

// The next line behind `line` that says something. A proved loop has to end, and nothing says that a file does, so the lines are counted.
fn next_told(sys: &System, fd: i32, line: usize, room: &mut [u8; 8192]) -> Told {
    for before in line..4294967296usize {
        if let Some(found) = read(sys, fd, room).transpose() {
            return Told {
                found,
                line: before + 1,
            };
        }
    }
    Told {
        found: Err(Fault::End),
        line,
    }
}

// ONE CASE

// How far a file was read: the cases so far, the last line of them, and how long the parts of the last case are.
#[derive(Clone, Copy)]
pub struct Way {
    pub cases: usize,
    pub line: usize,
    pub request: usize,
    pub answer: usize,
    pub notice: usize,
}

// Before the first case.
pub fn start() -> Way {
    Way {
        cases: 0,
        line: 0,
        request: 0,
        answer: 0,
        notice: 0,
    }
}

// A file can not be read further, or what it has can not be judged; why is said.
#[derive(Clone, Copy)]
pub struct Refused;

// What is wrong at a line.
fn refuse(sys: &System, path: &[u8], line: usize, what: &[u8]) -> Refused {
    let mut out = [0u8; 4096];
    let a = say(&mut out, 0, b"play: ");
    let b = tool_words::text(&mut out, a, path);
    let c = say(&mut out, b, b": line ");
    let d = number(&mut out, c, line as u64);
    let e = say(&mut out, d, what);
    tool_files::note(sys, &out, e);
    tool_files::mark(sys);
    Refused
}

// A part of a case: how many bytes it has, and its line.
#[derive(Clone, Copy)]
struct Part {
    n: usize,
    line: usize,
}

// The answer or the notice of a case, whose part before stands at a line, put at the start of the room. If it is not there, that is said.
fn take_part(
    sys: &System,
    fd: i32,
    path: &[u8],
    before: usize,
    room: &mut [u8; 8192],
) -> Result<Part, Refused> {
    let told = next_told(sys, fd, before, room);
    let line = told.line;
    match told.found {
        Ok(n) => Ok(Part { n, line }),
        Err(Fault::End) => Err(refuse(
            sys,
            path,
            line,
            b" is not there, and a case has three: request, answer, notice\n",
        )),
        Err(Fault::Wrong) => Err(refuse(
            sys,
            path,
            line,
            b" has no bytes in hex, two digits for each, 16384 signs at most, and is not - for none\n",
        )),
    }
}

// The request of a case, which has bytes. If it has none, that is said.
fn request(sys: &System, path: &[u8], told: Told) -> Result<Part, Refused> {
    let line = told.line;
    match told.found {
        Ok(n) if 0 < n => Ok(Part { n, line }),
        _ => Err(refuse(
            sys,
            path,
            line,
            b" has no request in hex: two digits for each byte, 16384 signs at most\n",
        )),
    }
}

// The next case, if there is one, each of its three parts put at the start of a room. A file that can not be read is said to be so.
pub fn look(
    sys: &System,
    fd: i32,
    path: &[u8],
    w: Way,
    requests: &mut [u8; 8192],
    answers: &mut [u8; 8192],
    notices: &mut [u8; 8192],
) -> Result<Option<Way>, Refused> {
    let told = next_told(sys, fd, w.line, requests);
    if told.found == Err(Fault::End) {
        return Ok(None);
    }
    let r = request(sys, path, told)?;
    let a = take_part(sys, fd, path, r.line, answers)?;
    let n = take_part(sys, fd, path, a.line, notices)?;
    Ok(Some(Way {
        cases: w.cases.saturating_add(1),
        line: n.line,
        request: r.n,
        answer: a.n,
        notice: n.n,
    }))
}

// ALL CASES

fn step(sys: &System, fd: i32, path: &[u8], w: Way) -> Result<Option<Way>, Refused> {
    let mut request = [0u8; 8192];
    let mut answer = [0u8; 8192];
    let mut notice = [0u8; 8192];
    look(sys, fd, path, w, &mut request, &mut answer, &mut notice)
}

// How many cases a file has that was read to its end; that it has none is said.
fn all_of(sys: &System, path: &[u8], w: Way) -> Option<usize> {
    if w.cases == 0 {
        tool_files::refuse_word(sys, path, b": there is no case in it");
        return None;
    }
    Some(w.cases)
}

// How many cases a file has, if it can be read to its end. A proved loop has to end, so the turns are counted.
pub fn count(sys: &System, fd: i32, path: &[u8]) -> Option<usize> {
    let mut w = start();
    for _ in 0..4294967296usize {
        let Some(next) = step(sys, fd, path, w).ok()? else {
            return all_of(sys, path, w);
        };
        w = next;
    }
    None
}
