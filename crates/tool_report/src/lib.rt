// The tool's commands on reports. A report is kept in a file of 768 bytes: its 96 numbers, eight bytes each, the lowest first, as C has them on x86-64.
#![tactic(auto)]

use decision::Outcome;
use message::Kind;
use system::System;
use tool_streams::{Source, Way};

// NUMBERS AND BYTES

fn unpack(room: &[u8; 769]) -> [u64; 96] {
    let mut report = [0u64; 96];
    for i in 0..96 {
        let mut bytes = [0u8; 8];
        bytes.copy_from_slice(&room[8 * i..8 * i + 8]);
        report[i] = u64::from_le_bytes(bytes);
    }
    report
}

fn pack(report: &[u64; 96]) -> [u8; 768] {
    let mut room = [0u8; 768];
    for i in 0..96 {
        room[8 * i..8 * i + 8].copy_from_slice(&report[i].to_le_bytes());
    }
    room
}

// FILES

// The report of a file, if there is one. Why not is said.
fn read_report(sys: &System, path: &[u8]) -> Option<[u64; 96]> {
    let Some(fd) = tool_files::open_plain(sys, path) else {
        return None;
    };
    let mut room = [0u8; 769];
    let n = sys.read_full(fd, &mut room);
    sys.close(fd);
    if n != 768 {
        tool_files::refuse_word(sys, path, b": no report: it has not 768 bytes");
        return None;
    }
    Some(unpack(&room))
}

// A report written to a new file that no file had the name of; whether it is. Why not is said.
fn make_file(sys: &System, path: &[u8], report: &[u64; 96]) -> bool {
    let Some(fd) = sys.create(path) else {
        tool_files::refuse_file(sys, path);
        return false;
    };
    let done = sys.write_all(fd, &pack(report));
    sys.close(fd);
    if done {
        return true;
    }
    tool_files::refuse_file(sys, path);
    sys.unlink(path);
    false
}

// A report's file replaced by a whole one: the new one is written beside it and takes its name.
fn replace(sys: &System, path: &[u8], report: &[u64; 96], said: &[u8]) {
    let mut room = [0u8; 4096];
    let a = tool_words::say(&mut room, 0, path);
    let n = tool_words::say(&mut room, a, b".new");
    let Some(name) = room.get(..n) else {
        return;
    };
    if !make_file(sys, name, report) {
        return;
    }
    if !sys.rename(name, path) {
        tool_files::refuse_file(sys, path);
        return;
    }
    tool_files::say_word(sys, path, said);
}

// COUNTING

fn kind_of(kind: Kind) -> u32 {
    match kind {
        Kind::NoAnswer => 0,
        Kind::Plain => 1,
        Kind::Experimental => 2,
    }
}

fn place_of(n: usize) -> u32 {
    n.min(255) as u32
}

// A request's kind by its command: 275 is a termination. The report does not ask which type an authorization has.
fn which_of(m: &[u8]) -> u32 {
    if 8 <= m.len() && octets::read24(m, 5) == 275 {
        2
    } else {
        0
    }
}

fn told(hour: u32, m: &[u8], o: Outcome) -> [u32; 6] {
    let kind = o.kind;
    let cut = o.cut;
    [
        hour,
        which_of(m),
        o.code,
        kind_of(kind),
        place_of(o.place),
        u32::from(cut.is_some()),
    ]
}

// What a number of the report means; whether it is 0.
fn check_number(sys: &System, number: u32, path: &[u8]) -> bool {
    match number {
        0 => true,
        29 => {
            tool_files::refuse_word(sys, path, b": an hour is over 23 (number 29)");
            false
        }
        _ => {
            tool_files::refuse_word(sys, path, b": its totals would pass 64 bits (number 30)");
            false
        }
    }
}

// The hour on the next line of a file, at most four digits.
fn next_hour(sys: &System, fd: i32) -> Option<usize> {
    let mut line = [0u8; 5];
    for n in 0..5 {
        let mut one = [0u8; 1];
        if sys.read_full(fd, &mut one) != 1 || one[0] == b'\n' {
            return tool_files::number(&line[..n]);
        }
        line[n] = one[0];
    }
    None
}

// The files that are open while messages are counted, the form of the table, and the operator.
#[derive(Clone, Copy)]
pub struct Desk {
    pub requests: i32,
    pub hours: i32,
    pub form: u32,
    pub op: u32,
}

// One message served on the table in memory and counted; whether it could be.
fn count_message(
    sys: &System,
    d: Desk,
    table: &mut [u8],
    m: &[u8],
    hour: u32,
    report: &mut [u64; 96],
    path: &[u8],
) -> bool {
    let mut answer = [0u8; answers::ANSWER_LEAST];
    let mut notice = [0u8; answers::NOTICE_LENGTH_2];
    let o = decision::handle(
        table,
        d.form,
        d.op,
        b"wm.example",
        b"example",
        m,
        true,
        &mut answer,
        &mut notice,
    );
    let list = [told(hour, m, o)];
    check_number(sys, report::count(report, &list), path)
}

// A message counted at the next hour of the file; whether it could be.
fn take_message(
    sys: &System,
    d: Desk,
    table: &mut [u8],
    m: &[u8],
    report: &mut [u64; 96],
    hours: &[u8],
) -> bool {
    let Some(hour) = next_hour(sys, d.hours) else {
        tool_files::refuse_word(
            sys,
            hours,
            b": no hour on a line, or fewer lines than messages",
        );
        return false;
    };
    if hour > 9999 {
        return false;
    }
    count_message(sys, d, table, m, hour as u32, report, hours)
}

// The messages stand back to back in their file.
fn source(file: i32) -> Source {
    Source {
        fd: file,
        hex: false,
    }
}

// The next message of the file.
fn step(
    sys: &System,
    d: Desk,
    requests: &[u8],
    hours: &[u8],
    table: &mut [u8],
    report: &mut [u64; 96],
    w: Way,
) -> Way {
    let mut room = [0u8; 8192];
    let v = tool_streams::look(sys, source(d.requests), requests, w, &mut room);
    if v.last == 0 {
        return v;
    }
    let Some(m) = room.get(..v.last) else {
        return tool_streams::over(v, false);
    };
    if take_message(sys, d, table, m, report, hours) {
        return v;
    }
    tool_streams::over(v, false)
}

// All messages; whether the file was followed to its end. A proved loop has to end, so the turns are counted.
fn follow(
    sys: &System,
    d: Desk,
    requests: &[u8],
    hours: &[u8],
    table: &mut [u8],
    report: &mut [u64; 96],
) -> bool {
    let mut w = tool_streams::start();
    for _ in 0..4294967296usize {
        w = step(sys, d, requests, hours, table, report, w);
        if w.last == 0 {
            return w.well;
        }
    }
    false
}

// Messages and hours opened, followed, closed.
fn open_and_follow(
    sys: &System,
    form: u32,
    op: u32,
    requests: &[u8],
    hours: &[u8],
    table: &mut [u8],
    report: &mut [u64; 96],
) -> bool {
    let Some(m) = tool_files::open_plain(sys, requests) else {
        return false;
    };
    let Some(h) = tool_files::open_plain(sys, hours) else {
        sys.close(m);
        return false;
    };
    let d = Desk {
        requests: m,
        hours: h,
        form,
        op,
    };
    let done = follow(sys, d, requests, hours, table, report);
    sys.close(m);
    sys.close(h);
    done
}

// The form that was said of the table, 0 for none, and the operator.
#[derive(Clone, Copy)]
struct Words {
    form: u32,
    op: u32,
}

fn count_at(
    sys: &System,
    w: Words,
    path: &[u8],
    from: &[u8],
    requests: &[u8],
    hours: &[u8],
    table: &mut [u8],
) {
    let Some(mut report) = read_report(sys, path) else {
        return;
    };
    let Some(found) = tool_form::read(sys, from, w.form, table) else {
        return;
    };
    let n = found.length;
    if table.len() < n {
        return;
    }
    let form = found.form;
    if open_and_follow(
        sys,
        form,
        w.op,
        requests,
        hours,
        &mut table[..n],
        &mut report,
    ) {
        replace(sys, path, &report, b": the messages are counted");
    }
}

// COMMANDS

// An empty report: the new file must not be there.
fn new(sys: &System) {
    let mut path = io::buffer();
    let n = sys.arg(3, &mut path);
    let report = [0u64; 96];
    if make_file(sys, &path[..n], &report) {
        tool_files::say_word(sys, &path[..n], b": a new report, nothing counted");
    }
}

// REPORT TABLE REQUESTS HOURS [operator=N] [form=F]. The table is read, and stays as it is.
fn count(sys: &System, table: &mut [u8]) {
    if !tool_form::check_both(sys, 7, 8) {
        return;
    }
    let said = tool_operator::operator(sys, tool_operator::find(sys, 7, b"operator="));
    let Some(op) = said else {
        return;
    };
    let word = tool_form::word(sys, tool_operator::find(sys, 7, b"form="));
    let Some(form) = word else {
        return;
    };
    let mut path = io::buffer();
    let mut from = io::buffer();
    let mut requests = io::buffer();
    let mut hours = io::buffer();
    let n = sys.arg(3, &mut path);
    let t = sys.arg(4, &mut from);
    let m = sys.arg(5, &mut requests);
    let h = sys.arg(6, &mut hours);
    count_at(
        sys,
        Words { form, op },
        &path[..n],
        &from[..t],
        &requests[..m],
        &hours[..h],
        table,
    );
}

fn add(sys: &System) {
    let mut path = io::buffer();
    let mut other = io::buffer();
    let n = sys.arg(3, &mut path);
    let k = sys.arg(4, &mut other);
    let Some(mut report) = read_report(sys, &path[..n]) else {
        return;
    };
    let Some(more) = read_report(sys, &other[..k]) else {
        return;
    };
    if check_number(sys, report::add(&mut report, &more), &path[..n]) {
        replace(sys, &path[..n], &report, b": the other report is added");
    }
}

// The report that is named first.
fn named(sys: &System) -> Option<[u64; 96]> {
    let mut path = io::buffer();
    let n = sys.arg(3, &mut path);
    read_report(sys, &path[..n])
}

fn run_word(sys: &System, word: &[u8], table: &mut [u8]) {
    match (word, sys.arg_count()) {
        (b"new", 4) => new(sys),
        (b"count", 7..=9) => count(sys, table),
        (b"add", 5) => add(sys),
        (b"show", 4) => {
            if let Some(report) = named(sys) {
                tool_bars::show(sys, &report);
            }
        }
        (b"draw", 4) => {
            if let Some(report) = named(sys) {
                tool_bars::draw(sys, &report);
            }
        }
        _ => tool_files::refuse_word(
            sys,
            word,
            b": nothing that report does, or not with so many words: see help",
        ),
    }
}

pub fn run(sys: &System, table: &mut [u8]) {
    let mut word = io::buffer();
    let n = sys.arg(2, &mut word);
    run_word(sys, &word[..n], table);
}
