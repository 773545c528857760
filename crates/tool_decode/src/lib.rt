// The command that says what messages a file has, as far as it can be followed, or what notices.
#![tactic(auto)]

use reader::Step;
use system::System;
use tool_streams::{Source, Way};

// ONE MESSAGE

// The AVP at a place, said behind `margin`; where the next one stands, if there may be one.
fn one(sys: &System, m: &[u8], at: usize, margin: &[u8]) -> Option<usize> {
    let mut out = [0u8; 4096];
    match reader::avp_at(m, at) {
        Step::End => None,
        Step::Bad(f) => {
            let n = tool_avp_line::fault(&mut out, margin, at, f);
            tool_files::print(sys, &out, n);
            None
        }
        Step::One(s) => {
            let n = tool_avp_line::avp(&mut out, margin, m, s);
            tool_files::print(sys, &out, n);
            Some(s.next)
        }
    }
}

// The AVPs of a group, up to its end. A message has at most 1,024 AVPs.
fn inner(sys: &System, m: &[u8], from: usize) {
    let mut at = from;
    for _ in 0..1024 {
        let Some(next) = one(sys, m, at, b"    ") else {
            return;
        };
        at = next;
    }
}

// The AVPs inside the one at a place, said where that is a group.
pub fn group(sys: &System, m: &[u8], at: usize) {
    let Step::One(s) = reader::avp_at(m, at) else {
        return;
    };
    if !tool_avp_line::is_group(s) || m.len() < s.value || m.len() - s.value < s.len {
        return;
    }
    inner(sys, &m[..s.value + s.len], s.value);
}

// What comes of the AVP at a place, where the message is a request to the server and it is not known. Those inside a group are not asked about.
fn unknown(sys: &System, m: &[u8], at: usize) {
    if m.len() < message::HEADER_LENGTH || m[4] < 128 || tool_message_line::is_abort(m) {
        return;
    }
    let Step::One(s) = reader::avp_at(m, at) else {
        return;
    };
    let mut out = [0u8; 4096];
    let n = tool_avp_line::unknown(&mut out, b"    ", s);
    tool_files::print(sys, &out, n);
}

// The AVPs of a message.
fn outer(sys: &System, m: &[u8]) {
    let mut at: usize = message::HEADER_LENGTH;
    for _ in 0..1024 {
        let found = one(sys, m, at, b"  ");
        unknown(sys, m, at);
        group(sys, m, at);
        let Some(next) = found else {
            return;
        };
        at = next;
    }
}

// The first line of message k; whether it could be said.
fn say_header(sys: &System, hex: bool, k: usize, from: usize, m: &[u8]) -> bool {
    let mut out = [0u8; 4096];
    let place = if hex { b" at line " } else { b" at byte " };
    let n = tool_message_line::header(&mut out, k, place, from, m);
    tool_files::print(sys, &out, n)
}

// Header, AVPs, and the first test that fails; whether they could be said.
fn tell(sys: &System, hex: bool, w: Way, room: &[u8; 8192]) -> bool {
    let mut out = [0u8; 4096];
    let Some(m) = room.get(..w.last) else {
        return false;
    };
    if !say_header(sys, hex, w.messages, w.from, m) {
        return false;
    }
    outer(sys, m);
    let b = tool_message_line::verdict(&mut out, m);
    tool_files::print(sys, &out, b)
}

// A FILE

fn step(sys: &System, s: Source, path: &[u8], w: Way) -> Way {
    let mut room = [0u8; 8192];
    let v = tool_streams::look(sys, s, path, w, &mut room);
    if v.last == 0 {
        return v;
    }
    if tell(sys, s.hex, v, &room) {
        tool_totals::progress(sys, v.messages, None);
        return v;
    }
    tool_streams::over(v, false)
}

// A proved loop has to end, and nothing says that a file does, so the turns are counted.
fn list(sys: &System, s: Source, path: &[u8]) {
    let mut w = tool_streams::start();
    for _ in 0..4294967296usize {
        w = step(sys, s, path, w);
        if w.last == 0 {
            return;
        }
    }
}

// A file that is no folder; why there is none is said. It may be a pipe.
fn open(sys: &System, path: &[u8]) -> Option<i32> {
    let Some(fd) = sys.open_read(path) else {
        tool_files::refuse_file(sys, path);
        return None;
    };
    if tool_status::is_folder(tool_status::of(sys, fd)) {
        tool_files::refuse_word(sys, path, b": a directory");
        return None;
    }
    Some(fd)
}

// THE COMMAND

fn decode_messages(sys: &System, path: &[u8]) {
    if let Some(fd) = open(sys, path) {
        list(sys, Source { fd, hex: false }, path);
    }
}

// Lines are read from plain files only.
fn decode_hex(sys: &System, path: &[u8]) {
    if let Some(fd) = tool_files::open_plain(sys, path) {
        list(sys, Source { fd, hex: true }, path);
    }
}

// The notices of that form, or of the one that the file's length tells where none was said.
fn decode_notices(sys: &System, path: &[u8], said: u32) {
    let Some(fd) = open(sys, path) else {
        return;
    };
    if let Some(form) = tool_notices::form_of(sys, fd, path, said) {
        tool_notices::list(sys, fd, path, form);
    }
}

fn read_notices(sys: &System, path: &[u8]) {
    let said = tool_form::only(sys, 4);
    let Some(form) = said else {
        return;
    };
    decode_notices(sys, path, form);
}

// The word behind the file says what it has, if that is not messages back to back.
fn decode_as(sys: &System, path: &[u8], word: &[u8]) {
    match word {
        b"notices" => read_notices(sys, path),
        _ if 4 < sys.arg_count() => tool_files::refuse(
            sys,
            b"behind FILE there may stand hex, or notices and their form, and nothing else",
        ),
        b"hex" => decode_hex(sys, path),
        _ => tool_files::refuse_word(
            sys,
            word,
            b": behind FILE there may stand hex, or notices and their form, and nothing else",
        ),
    }
}

pub fn decode(sys: &System) {
    let mut path = io::buffer();
    let n = sys.arg(2, &mut path);
    if sys.arg_count() < 4 {
        decode_messages(sys, &path[..n]);
        return;
    }
    let mut word = io::buffer();
    let k = sys.arg(3, &mut word);
    decode_as(sys, &path[..n], &word[..k]);
}
