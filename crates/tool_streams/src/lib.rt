// The messages of a file. They stand back to back, each cut out by the length in its own header; or one to a line, in hex, and then a message
// may have any length up to that of the room.
#![tactic(auto)]

use system::System;
use tool_words::{number, say, text};

// An open file, and whether its messages are lines of hex.
#[derive(Clone, Copy)]
pub struct Source {
    pub fd: i32,
    pub hex: bool,
}

// Why there is no message: a header whose length no message has, less than the header announces, or a line that is no message in hex.
#[derive(Clone, Copy)]
enum Fault {
    Length(usize),
    Short,
    NoHex,
}

// The length of the next message, if there is one, put at the start of the room.
fn cut_next(sys: &System, fd: i32, m: &mut [u8; 8192]) -> Result<Option<usize>, Fault> {
    let got = sys.read_full(fd, &mut m[0..message::HEADER_LENGTH]);
    if got == 0 {
        return Ok(None);
    }
    if got < message::HEADER_LENGTH {
        return Err(Fault::Short);
    }
    let n = octets::read24(m, 1);
    if n < message::HEADER_LENGTH || message::LENGTH_MOST < n {
        return Err(Fault::Length(n));
    }
    let rest = sys.read_full(fd, &mut m[message::HEADER_LENGTH..n]);
    if rest < n - message::HEADER_LENGTH {
        return Err(Fault::Short);
    }
    Ok(Some(n))
}

// A line has room for 5,461 bytes with a blank behind each, and for the longest message without.
fn read_line(sys: &System, fd: i32, room: &mut [u8; 8192]) -> Result<Option<usize>, Fault> {
    let mut text = [0u8; 16385];
    let line = tool_lines::read(sys, fd, &mut text);
    let Some(n) = line.map_err(|_| Fault::NoHex)? else {
        return Ok(None);
    };
    let line = text.get(..n).ok_or(Fault::NoHex)?;
    let said = tool_lines::bytes(line, room);
    Ok(Some(said.ok_or(Fault::NoHex)?))
}

fn find_next(sys: &System, s: Source, room: &mut [u8; 8192]) -> Result<Option<usize>, Fault> {
    if s.hex {
        return read_line(sys, s.fd, room);
    }
    cut_next(sys, s.fd, room)
}

// The length of the next message, if there is one, put at the start of the room.
pub fn read(sys: &System, s: Source, room: &mut [u8; 8192]) -> Option<usize> {
    find_next(sys, s, room).ok()?
}

// How far a file was followed: the messages so far, where the last of them stands (at which byte, or, in hex, on which line) and how long it
// is. Once the file is over that length is 0, and `well` says whether it ended behind a message.
#[derive(Clone, Copy)]
pub struct Way {
    pub messages: usize,
    pub from: usize,
    pub last: usize,
    pub well: bool,
}

// Before the first message.
pub fn start() -> Way {
    Way {
        messages: 0,
        from: 0,
        last: 0,
        well: true,
    }
}

// The sum, where it is of a file's size.
fn sum(a: usize, b: usize) -> usize {
    if 1152921504606846976 < a || 8192 < b {
        return a;
    }
    a + b
}

// Where the next message stands.
fn place(s: Source, w: Way) -> usize {
    if s.hex {
        return sum(w.messages, 1);
    }
    sum(w.from, w.last)
}

// What a place is called.
fn place_name(out: &mut [u8; 4096], at: usize, hex: bool) -> usize {
    let name: &[u8] = if hex { b" at line " } else { b" at byte " };
    say(out, at, name)
}

// Why there is no message at a place of the file.
fn reason(out: &mut [u8; 4096], at: usize, why: Option<Fault>) -> usize {
    match why {
        None => say(out, at, b" there is no message\n"),
        Some(Fault::Length(n)) => {
            let a = say(out, at, b" stands a message of ");
            let b = number(out, a, n as u64);
            say(out, b, b" bytes by its header, and one has 20 to 4096\n")
        }
        Some(Fault::Short) => say(out, at, b" the file ends inside a message\n"),
        Some(Fault::NoHex) => say(
            out,
            at,
            b" stands no message in hex: two digits for each byte, 16384 signs at most\n",
        ),
    }
}

fn refuse(sys: &System, path: &[u8], hex: bool, at: usize, why: Option<Fault>) {
    let mut out = [0u8; 4096];
    let a = say(&mut out, 0, b"play: ");
    let b = text(&mut out, a, path);
    let c = say(&mut out, b, b":");
    let d = place_name(&mut out, c, hex);
    let e = number(&mut out, d, at as u64);
    let f = reason(&mut out, e, why);
    tool_files::note(sys, &out, f);
    tool_files::mark(sys);
}

// Nothing is left to follow.
pub fn over(w: Way, well: bool) -> Way {
    Way { last: 0, well, ..w }
}

// The file can not be followed any further, for a fault or because it has no message at all, which is said.
fn end_badly(sys: &System, s: Source, path: &[u8], w: Way, why: Option<Fault>) -> Way {
    refuse(sys, path, s.hex, place(s, w), why);
    over(w, false)
}

// The next message of the file, put at the start of the room. A file that can not be followed is said to be so.
pub fn look(sys: &System, s: Source, path: &[u8], w: Way, room: &mut [u8; 8192]) -> Way {
    match find_next(sys, s, room) {
        Ok(Some(n)) => Way {
            messages: sum(w.messages, 1),
            from: place(s, w),
            last: n,
            well: true,
        },
        Ok(None) if w.messages > 0 => over(w, true),
        Ok(None) => end_badly(sys, s, path, w, None),
        Err(why) => end_badly(sys, s, path, w, Some(why)),
    }
}
