// The tool's board: the messages of a file put to the server on a table that stays as it is, and what each of them tells the screens of another file.
#![tactic(auto)]

use system::System;
use tool_screens::Entry;
use tool_streams::{Source, Way};

// ALL MESSAGES

// A message served on the table in memory, and what it tells the board.
fn serve_message(
    sys: &System,
    k: usize,
    form: u32,
    table: &mut [u8],
    screens: &mut [Entry],
    m: &[u8],
) -> bool {
    let mut answer = [0u8; answers::ANSWER_LEAST];
    let mut notice = [0u8; answers::NOTICE_LENGTH_2];
    let o = decision::handle(
        table,
        form,
        0,
        b"wm.example",
        b"example",
        m,
        true,
        &mut answer,
        &mut notice,
    );
    tool_feed::feed(sys, k, false, form, screens, m, o, &notice)
}

// The messages stand back to back in their file.
fn source(file: i32) -> Source {
    Source {
        fd: file,
        hex: false,
    }
}

// The next message of the file.
fn step(
    sys: &System,
    fd: i32,
    requests: &[u8],
    form: u32,
    table: &mut [u8],
    screens: &mut [Entry],
    w: Way,
) -> Way {
    let mut room = [0u8; 8192];
    let v = tool_streams::look(sys, source(fd), requests, w, &mut room);
    if v.last == 0 {
        return v;
    }
    let Some(m) = room.get(..v.last) else {
        return tool_streams::over(v, false);
    };
    if serve_message(sys, v.messages, form, table, screens, m) {
        return v;
    }
    tool_streams::over(v, false)
}

// All messages; whether the file was followed to its end. A proved loop has to end, so the turns are counted.
fn follow(
    sys: &System,
    fd: i32,
    requests: &[u8],
    form: u32,
    table: &mut [u8],
    screens: &mut [Entry],
) -> bool {
    let mut w = tool_streams::start();
    for _ in 0..4294967296usize {
        w = step(sys, fd, requests, form, table, screens, w);
        if w.last == 0 {
            return w.well;
        }
    }
    false
}

fn open_and_follow(
    sys: &System,
    requests: &[u8],
    form: u32,
    table: &mut [u8],
    screens: &mut [Entry],
) -> bool {
    let Some(fd) = tool_files::open_plain(sys, requests) else {
        return false;
    };
    let done = follow(sys, fd, requests, form, table, screens);
    sys.close(fd);
    done
}

// THE COMMAND

// The board fed and drawn.
fn feed_and_draw(
    sys: &System,
    requests: &[u8],
    form: u32,
    table: &mut [u8],
    screens: &mut [Entry],
) {
    if open_and_follow(sys, requests, form, table, screens) {
        tool_screens::draw(sys, screens);
    }
}

// The screens of a file: how many they are, if they make a board; why not is said.
fn read_screens(sys: &System, path: &[u8], screens: &mut [Entry]) -> Option<usize> {
    let Some(fd) = tool_files::open_plain(sys, path) else {
        return None;
    };
    let n = tool_screens::read(sys, fd, path, screens);
    sys.close(fd);
    n
}

// The screens, with room for one more than a board may have, so that too many are told.
fn with_screens(sys: &System, path: &[u8], requests: &[u8], form: u32, table: &mut [u8]) {
    let mut room = [[0u8; tool_screens::ENTRY_LENGTH]; 65];
    let Some(n) = read_screens(sys, path, &mut room) else {
        return;
    };
    if let Some(screens) = room.get_mut(..n) {
        feed_and_draw(sys, requests, form, table, screens);
    }
}

fn with_table(
    sys: &System,
    path: &[u8],
    said: u32,
    from: &[u8],
    requests: &[u8],
    table: &mut [u8],
) {
    let Some(found) = tool_form::read(sys, from, said, table) else {
        return;
    };
    if let Some(rows) = table.get_mut(..found.length) {
        with_screens(sys, path, requests, found.form, rows);
    }
}

// SCREENS TABLE REQUESTS [form=F]. The table is read, and stays as it is.
pub fn run(sys: &System, table: &mut [u8]) {
    let said = tool_form::only(sys, 5);
    let Some(form) = said else {
        return;
    };
    let mut path = io::buffer();
    let mut from = io::buffer();
    let mut requests = io::buffer();
    let n = sys.arg(2, &mut path);
    let t = sys.arg(3, &mut from);
    let m = sys.arg(4, &mut requests);
    with_table(sys, &path[..n], form, &from[..t], &requests[..m], table);
}
