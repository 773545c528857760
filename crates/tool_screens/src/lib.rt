// A board of screens for the tool: read from a file with a Session-Id a line, and said a line a screen. The tool's list has an entry of bytes for each screen.
#![tactic(auto)]

ghost use Rattle.std.specs.Prelude.{◌+◌, ◌≤◌};

use screen::{Count, Event, Screen};
use system::System;
use tool_lines::TooLong;
use tool_words::{number, say, text};

// The bytes of the struct of C: state, place and the length of the Session-Id, four bytes each with the lowest first, and the room.
pub const ENTRY_LENGTH: usize = 140;

pub type Entry = [u8; ENTRY_LENGTH];

// THE BOARD. Its list is one of structs, so a copy of the list is lent to it.

// The state, the place, the length of the Session-Id and the room that it stands in.
fn screen_of(e: Entry) -> Screen {
    let mut room = [0u8; 128];
    room.copy_from_slice(&e[12..]);
    Screen {
        state: u32::from_le_bytes([e[0], e[1], e[2], e[3]]),
        place: u32::from_le_bytes([e[4], e[5], e[6], e[7]]),
        size: u32::from_le_bytes([e[8], e[9], e[10], e[11]]),
        room,
    }
}

fn bytes_of(s: Screen) -> Entry {
    let room = s.room;
    let mut e = [0u8; ENTRY_LENGTH];
    e[0..4].copy_from_slice(&s.state.to_le_bytes());
    e[4..8].copy_from_slice(&s.place.to_le_bytes());
    e[8..12].copy_from_slice(&s.size.to_le_bytes());
    e[12..].copy_from_slice(&room);
    e
}

// The first 65 entries, and blank ones behind them.
fn list_of(screens: &[Entry]) -> [Screen; 65] {
    let blank = screen_of([0u8; ENTRY_LENGTH]);
    let mut list = [blank; 65];
    for (s, e) in list.iter_mut().zip(screens) {
        *s = screen_of(*e);
    }
    list
}

fn put_list(screens: &mut [Entry], list: &[Screen; 65]) {
    for (e, s) in screens.iter_mut().zip(list) {
        *e = bytes_of(*s);
    }
}

fn counted(list: [Screen; 65], n: usize) -> Count
    requires { n ≤ 65 }
{
    screen::connected(&list[..n])
}

// What is told of a Session-Id. A list of over 64 is no board, and stays as it is.
pub fn feed(screens: &mut [Entry], session: &[u8], event: Event) {
    let n = screens.len();
    if n > 65 {
        return;
    }
    let mut list = list_of(screens);
    screen::feed(&mut list[..n], session, event);
    put_list(screens, &list);
}

// The number of connected screens. Number 0, or 25 with none, as for a list of over 64.
pub fn connected(screens: &[Entry]) -> Count {
    counted(list_of(screens), screens.len().min(65))
}

// ENTRIES

// A screen that is off, with its Session-Id. One that does not fit is told by its length alone.
fn entry_of(session: &[u8]) -> Entry {
    let mut e = [0u8; ENTRY_LENGTH];
    let n = session.len();
    if n > message::TEXT_MOST {
        e[8] = 129;
        return e;
    }
    e[12..12 + n].copy_from_slice(session);
    e[8] = n as u8;
    e
}

// The entry of the first n bytes of a line.
fn line_entry(line: &[u8; 4096], n: usize) -> Entry {
    match line.get(..n) {
        Some(session) => entry_of(session),
        None => [0u8; ENTRY_LENGTH],
    }
}

// How many bytes of the line stand in its room of 4,096, if there is one.
fn length_of(next: Result<Option<usize>, TooLong>) -> Option<usize> {
    next.unwrap_or(Some(4096))
}

// The screens of a file, as many as the list has room for: how many they are.
fn fill(sys: &System, fd: i32, screens: &mut [Entry]) -> usize {
    for i in 0..screens.len() {
        let mut line = [0u8; 4096];
        let Some(n) = length_of(tool_lines::read(sys, fd, &mut line)) else {
            return i;
        };
        screens[i] = line_entry(&line, n);
    }
    screens.len()
}

// Whether they make a board; why not is said.
fn check(sys: &System, path: &[u8], screens: &[Entry]) -> bool {
    let c = connected(screens);
    if c.number == 0 {
        return true;
    }
    tool_files::refuse_word(
        sys,
        path,
        b": over 64 lines, or a Session-Id that stands twice or has not 1 to 128 bytes (number 25)",
    );
    false
}

// The screens of an open file: how many they are, if they make a board; why not is said. With room for 65 of them too many are told.
pub fn read(sys: &System, fd: i32, path: &[u8], screens: &mut [Entry]) -> Option<usize> {
    let n = fill(sys, fd, screens);
    if n == 0 {
        tool_files::refuse_word(sys, path, b": no screens: it has no line");
        return None;
    }
    check(sys, path, screens.get(..n)?).then_some(n)
}

// LINES

// The Session-Id of an entry, unless its length is that of none.
fn session_of(e: &Entry) -> Option<&[u8]> {
    e[12..].get(..usize::from(e[8]))
}

fn session(out: &mut [u8; 4096], at: usize, e: Entry) -> usize {
    match session_of(&e) {
        Some(s) => text(out, at, s),
        None => at,
    }
}

// A state in words.
pub fn state(out: &mut [u8; 4096], at: usize, e: Entry) -> usize {
    match e[0] {
        0 => say(out, at, b"off"),
        1 => say(out, at, b"asked"),
        2 => {
            let a = say(out, at, b"connected, place ");
            number(out, a, u64::from(e[4]))
        }
        3 => say(out, at, b"cut"),
        _ => say(out, at, b"unknown"),
    }
}

// A screen, with what a sales desk wants to know before it; whether it could be said.
fn draw_one(sys: &System, e: Entry) -> bool {
    let mut out = [0u8; 4096];
    let light = if e[0] == 2 { b"lit   " } else { b"dark  " };
    let at = say(&mut out, 0, light);
    let a = session(&mut out, at, e);
    let b = say(&mut out, a, b": ");
    let c = state(&mut out, b, e);
    let d = say(&mut out, c, b"\n");
    tool_files::print(sys, &out, d)
}

fn draw_count(sys: &System, connected: u32, all: usize) -> bool {
    let mut out = [0u8; 4096];
    let a = number(&mut out, 0, connected as u64);
    let b = say(&mut out, a, b" of ");
    let c = number(&mut out, b, all as u64);
    let d = say(&mut out, c, b" screens are lit\n");
    tool_files::print(sys, &out, d)
}

// The board, a line a screen, and how many of them are connected; whether it could be said.
pub fn draw(sys: &System, screens: &[Entry]) -> bool {
    for e in screens {
        if !draw_one(sys, *e) {
            return false;
        }
    }
    let c = connected(screens);
    draw_count(sys, c.screens, screens.len())
}

// ONE SESSION-ID

// The entry of a Session-Id; one of zeros where there is none, which shows off.
pub fn entry(screens: &[Entry], wanted: &[u8]) -> Entry {
    for e in screens {
        if session_of(e) == Some(wanted) {
            return *e;
        }
    }
    [0u8; ENTRY_LENGTH]
}

fn shows_other(a: Entry, b: Entry) -> bool {
    a[0] != b[0] || a[4] != b[4]
}

// That message k has moved a screen, if it shows something else than before; whether it could be said.
pub fn tell_moved(sys: &System, k: usize, before: Entry, now: Entry) -> bool {
    if !shows_other(before, now) {
        return true;
    }
    let mut out = [0u8; 4096];
    let a = number(&mut out, 0, k as u64);
    let b = say(&mut out, a, b". ");
    let c = session(&mut out, b, now);
    let d = say(&mut out, c, b": ");
    let e = state(&mut out, d, now);
    let f = say(&mut out, e, b"\n");
    tool_files::print(sys, &out, f)
}
