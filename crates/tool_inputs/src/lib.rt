// The files that `handle` reads: the requests, those that have a line for each of them, and the screens of a board.
#![tactic(auto)]

mod following;

pub use following::count;
use system::System;
use tool_expected::Lines;
use tool_options::Kind;
use tool_streams::Source;

// What is open, of the files that may be asked for those that were.
#[derive(Clone, Copy)]
pub struct Inputs {
    pub requests: i32,
    pub wags: Option<i32>,
    pub codes: Option<i32>,
    pub screens: Option<i32>,
}

pub fn is_hex(sys: &System) -> bool {
    tool_options::find(sys, Kind::Hex).is_some()
}

pub fn source(sys: &System, fd: i32) -> Source {
    Source {
        fd,
        hex: is_hex(sys),
    }
}

// A file that was asked for is not well; why is said.
#[derive(Clone, Copy)]
pub struct Refused;

// A file that a word names, open at its start.
fn open_file(sys: &System, path: &[u8]) -> Result<i32, Refused> {
    if path.is_empty() {
        tool_files::refuse(
            sys,
            b"behind wags=, codes= and board= stands the name of a file",
        );
        return Err(Refused);
    }
    if !tool_files::check_mark(sys) {
        return Err(Refused);
    }
    let Some(fd) = tool_files::open_plain(sys, path) else {
        return Err(Refused);
    };
    Ok(fd)
}

// A file with a line for each of so many messages, open at its start.
fn open_lines(sys: &System, path: &[u8], lines: Lines, all: usize) -> Result<i32, Refused> {
    let fd = open_file(sys, path)?;
    if tool_expected::check_lines(sys, fd, path, lines, all) {
        return Ok(fd);
    }
    Err(Refused)
}

// What the gateway says to each message, where word i names a file that has it.
pub fn open_wags(sys: &System, i: Option<usize>, all: usize) -> Result<Option<i32>, Refused> {
    let Some(i) = i else {
        return Ok(None);
    };
    if !tool_options::is_file_of_wags(sys, i) {
        return Ok(None);
    }
    let mut room = [0u8; 4096];
    let path = tool_options::value(sys, i, b"wags=", &mut room);
    Ok(Some(open_lines(sys, path, Lines::Wags, all)?))
}

// The codes that are expected, where a file has them.
fn open_codes(sys: &System, all: usize) -> Result<Option<i32>, Refused> {
    let Some(i) = tool_options::find(sys, Kind::Codes) else {
        return Ok(None);
    };
    let mut room = [0u8; 4096];
    let path = tool_options::value(sys, i, b"codes=", &mut room);
    Ok(Some(open_lines(sys, path, Lines::Codes, all)?))
}

// The screens of a board, where there is one.
fn open_screens(sys: &System) -> Result<Option<i32>, Refused> {
    let Some(i) = tool_options::find(sys, Kind::Board) else {
        return Ok(None);
    };
    let mut room = [0u8; 4096];
    let path = tool_options::value(sys, i, b"board=", &mut room);
    Ok(Some(open_file(sys, path)?))
}

// What is read besides the requests, which are so many. The files behind one that is not well are not opened.
pub fn open(sys: &System, requests: i32, all: usize) -> Result<Inputs, Refused> {
    Ok(Inputs {
        requests,
        wags: open_wags(sys, tool_options::find(sys, Kind::Wag), all)?,
        codes: open_codes(sys, all)?,
        screens: open_screens(sys)?,
    })
}
