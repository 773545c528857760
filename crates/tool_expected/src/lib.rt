// Files with a line for each message: the code that is expected, or what the gateway says.
#![tactic(auto)]

use decision::Outcome;
use message::Kind;
use system::System;
use tool_lines::TooLong;
use tool_words::{number, say};

// WHAT A LINE SAYS

// What the lines of a file are.
#[derive(Clone, Copy, PartialEq, Eq)]
pub enum Lines {
    Codes,
    Wags,
}

// Why the next line of a file says nothing: it has no meaning, or is not there.
#[derive(Clone, Copy, PartialEq, Eq)]
enum Fault {
    Wrong,
    End,
}

// The code that a text says, 1 to 9,999.
fn plain(text: &[u8]) -> Option<usize> {
    tool_files::number(text).filter(|n| (1..=9999).contains(n))
}

// The same, with an x in front where the code is that of an Experimental-Result, which counts from 10,000 on: some numbers are codes of both.
fn code(text: &[u8]) -> Option<usize> {
    match text.strip_prefix(b"x") {
        Some(rest) => plain(rest)?.checked_add(10000),
        None => plain(text),
    }
}

// What the gateway says.
fn wag(text: &[u8]) -> Option<bool> {
    match text {
        b"yes" => Some(true),
        b"no" => Some(false),
        _ => None,
    }
}

// The next line, read to the room.
fn read<'a>(sys: &System, fd: i32, room: &'a mut [u8; 64]) -> Result<&'a [u8], Fault> {
    match tool_lines::read(sys, fd, room) {
        Ok(None) => Err(Fault::End),
        Err(TooLong) => Err(Fault::Wrong),
        Ok(Some(n)) => room.get(..n).ok_or(Fault::Wrong),
    }
}

// The code on the next line, if there is one.
pub fn take_code(sys: &System, fd: i32) -> Option<usize> {
    let mut room = [0u8; 64];
    code(read(sys, fd, &mut room).ok()?)
}

// What the gateway says on the next line, if it says something.
pub fn take_wag(sys: &System, fd: i32) -> Option<bool> {
    let mut room = [0u8; 64];
    wag(read(sys, fd, &mut room).ok()?)
}

// A FILE AS A WHOLE

// Whether a line says what the lines of its file are to say.
fn check_text(lines: Lines, text: &[u8]) -> Result<(), Fault> {
    let is_right = match lines {
        Lines::Codes => code(text).is_some(),
        Lines::Wags => wag(text).is_some(),
    };
    if is_right { Ok(()) } else { Err(Fault::Wrong) }
}

// Whether the next line is there and says something.
fn check_next(sys: &System, fd: i32, lines: Lines) -> Result<(), Fault> {
    let mut room = [0u8; 64];
    check_text(lines, read(sys, fd, &mut room)?)
}

// What is wrong at line k.
fn refuse(sys: &System, path: &[u8], k: usize, lines: Lines, fault: Fault) {
    let mut out = [0u8; 4096];
    let a = say(&mut out, 0, b"play: ");
    let b = tool_words::text(&mut out, a, path);
    let c = say(&mut out, b, b": line ");
    let d = number(&mut out, c, k as u64);
    let what: &[u8] = match (fault, lines) {
        (Fault::End, _) => b" is not there, and each message has to have one\n",
        (Fault::Wrong, Lines::Codes) => {
            b" is no code: 2001, x5001 for an Experimental-Result, 6 for a number without an answer\n"
        }
        (Fault::Wrong, Lines::Wags) => b" is neither yes nor no\n",
    };
    let e = say(&mut out, d, what);
    tool_files::note(sys, &out, e);
    tool_files::mark(sys);
}

// Whether line k is there and says something; why not is said.
fn check_line(sys: &System, fd: i32, path: &[u8], k: usize, lines: Lines) -> bool {
    let found = check_next(sys, fd, lines);
    if let Err(fault) = found {
        refuse(sys, path, k, lines, fault);
    }
    found.is_ok()
}

// Whether nothing is left of the file; if something is, that is said.
fn check_end(sys: &System, fd: i32, path: &[u8]) -> bool {
    let mut room = [0u8; 64];
    if matches!(tool_lines::read(sys, fd, &mut room), Ok(None)) {
        return true;
    }
    tool_files::refuse_word(sys, path, b": it has more lines than there are messages");
    false
}

// Whether the file has a line for each of so many messages, and no more. It is then at its start again.
pub fn check_lines(sys: &System, fd: i32, path: &[u8], lines: Lines, all: usize) -> bool {
    for i in 0..all {
        if !check_line(sys, fd, path, i + 1, lines) {
            return false;
        }
    }
    check_end(sys, fd, path) && sys.seek_to(fd, 0)
}

// WHAT CAME OF A MESSAGE

// The number that stands for what came of a message, as `code` has it.
fn got(o: Outcome) -> usize {
    let kind = o.kind;
    let n = o.code as usize;
    match kind {
        Kind::Experimental if n <= 9999 => 10000 + n,
        _ => n,
    }
}

// Whether it is what was expected, if anything was.
pub fn is_expected(o: Outcome, expected: Option<usize>) -> bool {
    expected.is_none_or(|code| got(o) == code)
}

// A code as the file has it.
fn written(out: &mut [u8; 4096], at: usize, n: usize) -> usize {
    if n < 10000 {
        return number(out, at, n as u64);
    }
    let a = say(out, at, b"x");
    number(out, a, (n - 10000) as u64)
}

// The line of a message that is not as it was expected.
pub fn tell(out: &mut [u8; 4096], o: Outcome, expected: usize) -> usize {
    let a = say(out, 0, b"   NOT AS EXPECTED: this is ");
    let b = written(out, a, got(o));
    let c = say(out, b, b", and it should be ");
    let d = written(out, c, expected);
    say(out, d, b"\n")
}
