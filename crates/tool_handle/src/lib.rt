// The command that puts a file of messages to the server. The table is held from the start. All files that are read are followed to their end
// before anything is written, so that one that can not be followed changes nothing; the table is replaced last, once every answer is written
// and said and the board is drawn, and only if all codes are those that were expected.
#![tactic(auto)]

use system::System;
use tool_hold::Held;
use tool_inputs::Inputs;
use tool_options::Kind;
use tool_page::Desk;
use tool_screens::Entry;
use tool_serve::Paths;
use tool_sheets::Sheets;
use tool_totals::Totals;

// SERVING

// Whether the codes are those that were expected; if not, that is said.
fn check_codes(sys: &System, t: Totals) -> bool {
    if t.wrong == 0 {
        return true;
    }
    tool_files::refuse(
        sys,
        b"codes came that were not expected; the table is as it was",
    );
    false
}

// The board, if it has screens; whether it could be drawn.
fn draw(sys: &System, screens: &[Entry]) -> bool {
    screens.is_empty() || tool_screens::draw(sys, screens)
}

// What was done, said, and the table replaced if all is as it should be.
fn finish(sys: &System, d: Desk, path: &[u8], screens: &[Entry], t: Totals) {
    if !tool_totals::summary(sys, t, d.only.is_some(), d.codes.is_some()) {
        return;
    }
    if !draw(sys, screens) {
        return;
    }
    if check_codes(sys, t) {
        tool_hold::replace(sys, path);
    }
}

// The messages served on the table, which is replaced when all of it went well.
fn serve(
    sys: &System,
    d: Desk,
    h: Held,
    path: &[u8],
    paths: Paths,
    table: &mut [u8],
    screens: &mut [Entry],
    all: usize,
) {
    let Some(t) = tool_serve::serve_all(sys, d, paths, table, screens, all) else {
        return;
    };
    if !tool_sheets::force_out(sys, d.answers, paths.answers) {
        return;
    }
    if !tool_sheets::force_out(sys, d.notices, paths.notices) {
        return;
    }
    if tool_hold::write_new(sys, path, h, table) {
        finish(sys, d, path, screens, t);
    }
}

// What lies ready once every file is open.
fn desk(sys: &System, i: Inputs, s: Sheets, form: u32, op: u32) -> Desk {
    let gateway = tool_options::find(sys, Kind::Wag);
    Desk {
        requests: i.requests,
        answers: s.answers,
        notices: s.notices,
        wags: i.wags,
        codes: i.codes,
        hex: tool_inputs::is_hex(sys),
        quiet: tool_options::find(sys, Kind::Quiet).is_some(),
        wag: tool_options::is_wag(sys, gateway),
        form,
        op,
        host: tool_options::find(sys, Kind::Host),
        realm: tool_options::find(sys, Kind::Realm),
        only: tool_options::find(sys, Kind::Only),
    }
}

// The files that are read are open, and can be followed: those that are written are opened.
fn begin(
    sys: &System,
    op: u32,
    i: Inputs,
    h: Held,
    path: &[u8],
    paths: Paths,
    table: &mut [u8],
    screens: &mut [Entry],
    all: usize,
) {
    if !sys.seek_to(i.requests, 0) {
        tool_files::refuse_file(sys, paths.requests);
        return;
    }
    let Some(both) = tool_sheets::open(sys, h, i, paths.answers, paths.notices) else {
        return;
    };
    let d = desk(sys, i, both, h.form, op);
    serve(sys, d, h, path, paths, table, screens, all);
}

// The screens of the file that the word names, if it is open, read to the list: how many they are, none without it; why they make no board is said.
fn read_screens(sys: &System, file: Option<i32>, screens: &mut [Entry]) -> Option<usize> {
    let Some(fd) = file else {
        return Some(0);
    };
    let i = tool_options::find(sys, Kind::Board)?;
    let mut room = [0u8; 4096];
    let path = tool_options::value(sys, i, b"board=", &mut room);
    tool_screens::read(sys, fd, path, screens)
}

// With the screens that the word names, none without it. The list has room for one more than a board may have, so that too many are told.
fn with_screens(
    sys: &System,
    op: u32,
    i: Inputs,
    h: Held,
    path: &[u8],
    paths: Paths,
    table: &mut [u8],
    all: usize,
) {
    let mut room = [[0u8; tool_screens::ENTRY_LENGTH]; 65];
    let Some(n) = read_screens(sys, i.screens, &mut room) else {
        return;
    };
    if let Some(screens) = room.get_mut(..n) {
        begin(sys, op, i, h, path, paths, table, screens, all);
    }
}

// The requests followed to their end, and the files that have a line for each of them.
fn follow(sys: &System, op: u32, h: Held, path: &[u8], paths: Paths, table: &mut [u8]) {
    let Some(fd) = tool_files::open_plain(sys, paths.requests) else {
        return;
    };
    let source = tool_inputs::source(sys, fd);
    let Some(all) = tool_inputs::count(sys, source, paths.requests) else {
        return;
    };
    if let Ok(i) = tool_inputs::open(sys, fd, all) {
        with_screens(sys, op, i, h, path, paths, table, all);
    }
}

// THE COMMAND

fn run(sys: &System, path: &[u8], paths: Paths, room: &mut [u8]) {
    if !tool_options::check_words(sys) {
        return;
    }
    let operator = tool_options::find(sys, Kind::Operator);
    let said = tool_operator::operator(sys, operator);
    let Some(op) = said else {
        return;
    };
    let word = tool_options::find(sys, Kind::Form);
    let form = tool_form::word(sys, word);
    let Some(f) = form else {
        return;
    };
    if let Some(h) = tool_hold::hold(sys, path, f, room) {
        if let Some(table) = room.get_mut(..h.length) {
            follow(sys, op, h, path, paths, table);
        }
        tool_hold::leave(sys, path, h);
    }
}

pub fn handle(sys: &System, room: &mut [u8]) {
    let mut table = io::buffer();
    let mut requests = io::buffer();
    let mut answers = io::buffer();
    let mut notices = io::buffer();
    let a = sys.arg(2, &mut table);
    let b = sys.arg(3, &mut requests);
    let c = sys.arg(4, &mut answers);
    let d = sys.arg(5, &mut notices);
    let paths = Paths {
        requests: &requests[..b],
        answers: &answers[..c],
        notices: &notices[..d],
    };
    run(sys, &table[..a], paths, room);
}
