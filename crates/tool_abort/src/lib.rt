// The command that makes a request to disconnect of each notice: an Abort-Session-Request to the gateway whose tunnel was cut. The notices are those of a
// table of form 2, which have the gateway's realm. They are known to be whole before anything is written.
#![tactic(auto)]

use system::System;
use tool_notice_line::Lengths;
use tool_words::{number, say};

// The files that are open, and the identifiers of the first request.
#[derive(Clone, Copy)]
struct Desk {
    notices: i32,
    requests: i32,
    first: u32,
}

// How many notices were read, and how many requests written.
#[derive(Clone, Copy)]
struct Done {
    notices: usize,
    requests: usize,
}

// Something could not be read or written.
#[derive(Clone, Copy)]
struct Broken;

// ONE NOTICE

// The start of the line of a notice.
fn begin(
    out: &mut [u8; 4096],
    k: usize,
    notice: &[u8; answers::NOTICE_LENGTH_2],
    l: Lengths,
) -> usize {
    let a = number(out, 0, k as u64);
    let b = say(out, a, b". ");
    let c = tool_notice_line::tunnel(out, b, 2, notice, l);
    say(out, c, b": ")
}

// The line of a notice that no request was made of; whether it could be said.
fn tell_refused(
    sys: &System,
    k: usize,
    notice: &[u8; answers::NOTICE_LENGTH_2],
    l: Lengths,
    why: u32,
) -> bool {
    let mut out = [0u8; 4096];
    let a = begin(&mut out, k, notice, l);
    let b = say(&mut out, a, b"no request, number ");
    let c = number(&mut out, b, why as u64);
    let d = say(&mut out, c, b": ");
    let e = tool_names::not_written(&mut out, d, why);
    let f = say(&mut out, e, b"\n");
    tool_files::print(sys, &out, f)
}

// The line of one that a request was made of, likewise.
fn tell_written(
    sys: &System,
    k: usize,
    notice: &[u8; answers::NOTICE_LENGTH_2],
    l: Lengths,
    id: u32,
    bytes: usize,
) -> bool {
    let mut out = [0u8; 4096];
    let a = begin(&mut out, k, notice, l);
    let b = say(&mut out, a, b"a request of ");
    let c = number(&mut out, b, bytes as u64);
    let d = say(&mut out, c, b" bytes, identifiers ");
    let e = number(&mut out, d, id as u64);
    let f = say(&mut out, e, b"\n");
    tool_files::print(sys, &out, f)
}

// A request made of a notice, written and said. Both its identifiers are counted, and begin again at 0 behind the largest.
fn abort_one(
    sys: &System,
    desk: Desk,
    path: &[u8],
    host: &[u8],
    realm: &[u8],
    notice: &[u8; answers::NOTICE_LENGTH_2],
    d: Done,
) -> Result<Done, Broken> {
    let mut room = [0u8; abort::ROOM_LEAST];
    let l = tool_notice_line::lengths_of(notice);
    let id = desk.first.wrapping_add((d.requests % 4294967296) as u32);
    let w = abort::write(
        host, realm, notice, l.session, l.host, l.realm, id, id, &mut room,
    );
    let notices = d.notices.saturating_add(1);
    if w.number != 0 {
        if tell_refused(sys, notices, notice, l, w.number) {
            return Ok(Done { notices, ..d });
        }
        return Err(Broken);
    }
    let Some(request) = room.get(..w.length) else {
        return Err(Broken);
    };
    if !tool_sheets::put(sys, desk.requests, path, request) {
        return Err(Broken);
    }
    if !tell_written(sys, notices, notice, l, id, w.length) {
        return Err(Broken);
    }
    Ok(Done {
        notices,
        requests: d.requests.saturating_add(1),
    })
}

// ALL NOTICES

// The next notice of the file, if there is one.
fn step(
    sys: &System,
    desk: Desk,
    from: &[u8],
    to: &[u8],
    host: &[u8],
    realm: &[u8],
    d: Done,
) -> Result<Option<Done>, Broken> {
    let mut notice = [0u8; answers::NOTICE_LENGTH_2];
    let got = tool_notices::read(sys, desk.notices, 2, &mut notice);
    if got == 0 {
        return Ok(None);
    }
    if got < answers::NOTICE_LENGTH_2 {
        tool_notices::refuse_end(sys, from, 2, d.notices.saturating_add(1));
        return Err(Broken);
    }
    Ok(Some(abort_one(sys, desk, to, host, realm, &notice, d)?))
}

// A proved loop has to end, and nothing says that a file does, so the turns are counted.
fn follow(
    sys: &System,
    desk: Desk,
    from: &[u8],
    to: &[u8],
    host: &[u8],
    realm: &[u8],
) -> Result<Done, Broken> {
    let mut d = Done {
        notices: 0,
        requests: 0,
    };
    for _ in 0..4294967296usize {
        let Some(next) = step(sys, desk, from, to, host, realm, d)? else {
            return Ok(d);
        };
        d = next;
    }
    Ok(d)
}

fn summary(sys: &System, d: Done) {
    let mut out = [0u8; 4096];
    let a = number(&mut out, 0, d.notices as u64);
    let b = say(&mut out, a, b" notices, ");
    let c = number(&mut out, b, d.requests as u64);
    let e = say(&mut out, c, b" requests written\n");
    tool_files::print(sys, &out, e);
}

fn abort_all(sys: &System, desk: Desk, from: &[u8], to: &[u8], host: &[u8], realm: &[u8]) {
    let Ok(d) = follow(sys, desk, from, to, host, realm) else {
        return;
    };
    if tool_sheets::force_out(sys, desk.requests, to) {
        summary(sys, d);
    }
}

// THE COMMAND

// Whether the library takes the own names, asked with a notice that has nothing wrong; if not, that is said.
fn check_names(sys: &System, host: &[u8], realm: &[u8]) -> bool {
    let notice = [65u8; answers::NOTICE_LENGTH_2];
    let mut room = [0u8; abort::ROOM_LEAST];
    let w = abort::write(host, realm, &notice, 1, 1, 1, 0, 0, &mut room);
    if w.number == 0 {
        return true;
    }
    tool_files::refuse(
        sys,
        b"number 2: own host or realm is not 1 to 128 bytes; nothing is written",
    );
    false
}

// Whether the notices in an open file have realms; why not is said.
fn check_form(sys: &System, fd: i32, path: &[u8], said: u32) -> bool {
    let form = tool_notices::form_of(sys, fd, path, said);
    if form == Some(1) {
        tool_files::refuse_word(
            sys,
            path,
            b": notices of form 1: a request needs the gateway's realm, which only form 2 has",
        );
    }
    form == Some(2)
}

fn open_and_abort(
    sys: &System,
    said: u32,
    first: u32,
    from: &[u8],
    to: &[u8],
    host: &[u8],
    realm: &[u8],
) {
    if !check_names(sys, host, realm) {
        return;
    }
    let Some(notices) = tool_files::open_plain(sys, from) else {
        return;
    };
    if !check_form(sys, notices, from, said) {
        return;
    }
    let Some(requests) = tool_sheets::open_beside(sys, to, notices) else {
        return;
    };
    let desk = Desk {
        notices,
        requests,
        first,
    };
    abort_all(sys, desk, from, to, host, realm);
}

// Whether word i, if it is there, is the first that says the identifiers or the first that says a form.
fn is_word(sys: &System, i: usize) -> bool {
    sys.arg_count() <= i
        || tool_operator::find(sys, 6, b"first=") == Some(i)
        || tool_operator::find(sys, 6, b"form=") == Some(i)
}

fn check_words(sys: &System) -> bool {
    if is_word(sys, 6) && is_word(sys, 7) {
        return true;
    }
    tool_files::refuse(
        sys,
        b"the last words may be first=N and form=1 or form=2, each once, and nothing else",
    );
    false
}

// The four words, under what the others say.
fn run_under(sys: &System, form: u32, first: u32) {
    let mut from = io::buffer();
    let mut to = io::buffer();
    let mut host = io::buffer();
    let mut realm = io::buffer();
    let a = sys.arg(2, &mut from);
    let b = sys.arg(3, &mut to);
    let c = sys.arg(4, &mut host);
    let d = sys.arg(5, &mut realm);
    open_and_abort(
        sys,
        form,
        first,
        &from[..a],
        &to[..b],
        &host[..c],
        &realm[..d],
    );
}

// NOTICES REQUESTS HOST REALM [first=N] [form=F].
pub fn run(sys: &System) {
    if !check_words(sys) {
        return;
    }
    let word = tool_form::word(sys, tool_operator::find(sys, 6, b"form="));
    let Some(form) = word else {
        return;
    };
    let said = tool_operator::first(sys, tool_operator::find(sys, 6, b"first="));
    let Some(first) = said else {
        return;
    };
    run_under(sys, form, first);
}
