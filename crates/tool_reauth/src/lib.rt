// The command that plays the gateway: each Re-Auth-Request of a file is answered for one access, and where it is good the AA-Request for that access is
// written beside the answer, so that it can be put to the server. The words say the gateway's own names and the access.
#![tactic(auto)]

use gateway::Reauthorized;
use message::Kind;
use system::System;
use tool_streams::{Source, Way};
use tool_words::{number, say};

// The files that are open, and the identifiers of the first AA-Request.
#[derive(Clone, Copy)]
struct Desk {
    from: i32,
    answers: i32,
    requests: i32,
    first: u32,
}

// How far the messages are read, and how many answers and AA-Requests were written.
#[derive(Clone, Copy)]
struct Told {
    way: Way,
    answers: usize,
    requests: usize,
}

// Nothing more is read: something could not be written or said.
fn stop(t: Told, way: Way) -> Told {
    Told {
        way: tool_streams::over(way, false),
        ..t
    }
}

// One more where something of n bytes was written.
fn counted(written: usize, n: usize) -> usize {
    if n == 0 {
        written
    } else {
        written.saturating_add(1)
    }
}

// ONE MESSAGE

// A call for the access that the words say, with this visited network.
fn ask_from(
    sys: &System,
    visited: &[u8],
    m: &[u8],
    id: u32,
    answer: &mut [u8; answers::ANSWER_LEAST],
    request: &mut [u8; answers::ANSWER_LEAST],
) -> Reauthorized {
    let mut host = io::buffer();
    let mut realm = io::buffer();
    let mut session = io::buffer();
    let mut user = io::buffer();
    let mut label = io::buffer();
    let a = sys.arg(5, &mut host);
    let b = sys.arg(6, &mut realm);
    let c = sys.arg(7, &mut session);
    let d = sys.arg(8, &mut user);
    let e = sys.arg(9, &mut label);
    gateway::reauthorize(
        &host[..a],
        &realm[..b],
        &session[..c],
        &user[..d],
        &label[..e],
        visited,
        m,
        id,
        id,
        answer,
        request,
    )
}

// The same with the visited network that a word says, or without one.
fn ask(
    sys: &System,
    m: &[u8],
    id: u32,
    answer: &mut [u8; answers::ANSWER_LEAST],
    request: &mut [u8; answers::ANSWER_LEAST],
) -> Reauthorized {
    let Some(i) = tool_operator::find(sys, 10, b"visited=") else {
        return ask_from(sys, b"", m, id, answer, request);
    };
    let mut word = io::buffer();
    let n = sys.arg(i, &mut word);
    let visited = word[..n].strip_prefix(b"visited=").unwrap_or(b"");
    ask_from(sys, visited, m, id, answer, request)
}

// The number of a message that gets no answer.
fn say_silent(out: &mut [u8; 4096], at: usize, code: u32) -> usize {
    let a = say(out, at, b"no answer, number ");
    let b = number(out, a, code as u64);
    let c = say(out, b, b": ");
    tool_names::no_answer(out, c, code)
}

// The code of an answer, and the AA-Request where there is one.
fn say_answer(out: &mut [u8; 4096], at: usize, g: Reauthorized, id: u32) -> usize {
    let a = number(out, at, g.code as u64);
    let b = say(out, a, b" ");
    let c = tool_names::result(out, b, g.code);
    if g.request_length == 0 {
        return c;
    }
    let d = say(out, c, b", an AA-Request of ");
    let e = number(out, d, g.request_length as u64);
    let f = say(out, e, b" bytes, identifiers ");
    number(out, f, id as u64)
}

fn say_given(out: &mut [u8; 4096], at: usize, g: Reauthorized, id: u32) -> usize {
    let kind = g.kind;
    match kind {
        Kind::NoAnswer => say_silent(out, at, g.code),
        Kind::Plain | Kind::Experimental => say_answer(out, at, g, id),
    }
}

// The line of message k; whether it could be said.
fn tell(sys: &System, k: usize, m: &[u8], g: Reauthorized, id: u32) -> bool {
    let mut out = [0u8; 4096];
    let a = number(&mut out, 0, k as u64);
    let b = say(&mut out, a, b". ");
    let c = tool_request_line::session(&mut out, b, b"Session-Id ", m);
    let d = say(&mut out, c, b": ");
    let e = say_given(&mut out, d, g, id);
    let f = say(&mut out, e, b"\n");
    tool_files::print(sys, &out, f)
}

// A message answered, what came of it written and said. Both identifiers of an AA-Request are counted, and begin again at 0 behind the largest.
fn serve(
    sys: &System,
    desk: Desk,
    answers: &[u8],
    requests: &[u8],
    m: &[u8],
    t: Told,
    way: Way,
) -> Told {
    let mut answer = [0u8; answers::ANSWER_LEAST];
    let mut request = [0u8; answers::ANSWER_LEAST];
    let id = desk.first.wrapping_add((t.requests % 4294967296) as u32);
    let g = ask(sys, m, id, &mut answer, &mut request);
    let Some(first) = answer.get(..g.length) else {
        return stop(t, way);
    };
    let Some(second) = request.get(..g.request_length) else {
        return stop(t, way);
    };
    if !tool_sheets::put(sys, desk.answers, answers, first) {
        return stop(t, way);
    }
    if !tool_sheets::put(sys, desk.requests, requests, second) {
        return stop(t, way);
    }
    if !tell(sys, way.messages, m, g, id) {
        return stop(t, way);
    }
    Told {
        way,
        answers: counted(t.answers, g.length),
        requests: counted(t.requests, g.request_length),
    }
}

// ALL MESSAGES

fn step(sys: &System, desk: Desk, from: &[u8], answers: &[u8], requests: &[u8], t: Told) -> Told {
    let mut room = [0u8; 8192];
    let before = t.way;
    let source = Source {
        fd: desk.from,
        hex: false,
    };
    let way = tool_streams::look(sys, source, from, before, &mut room);
    if way.last == 0 {
        return Told { way, ..t };
    }
    match room.get(..way.last) {
        Some(m) => serve(sys, desk, answers, requests, m, t, way),
        None => stop(t, way),
    }
}

// A proved loop has to end, and nothing says that a file does, so the turns are counted.
fn follow(sys: &System, desk: Desk, from: &[u8], answers: &[u8], requests: &[u8]) -> Told {
    let mut t = Told {
        way: tool_streams::start(),
        answers: 0,
        requests: 0,
    };
    for _ in 0..4294967296usize {
        t = step(sys, desk, from, answers, requests, t);
        let way = t.way;
        if way.last == 0 {
            return t;
        }
    }
    t
}

fn summary(sys: &System, t: Told) {
    let way = t.way;
    let mut out = [0u8; 4096];
    let a = number(&mut out, 0, way.messages as u64);
    let b = say(&mut out, a, b" messages, ");
    let c = number(&mut out, b, t.answers as u64);
    let d = say(&mut out, c, b" answers and ");
    let e = number(&mut out, d, t.requests as u64);
    let f = say(&mut out, e, b" AA-Requests written\n");
    tool_files::print(sys, &out, f);
}

fn play(sys: &System, desk: Desk, from: &[u8], answers: &[u8], requests: &[u8]) {
    let t = follow(sys, desk, from, answers, requests);
    let way = t.way;
    if !way.well {
        return;
    }
    if !tool_sheets::force_out(sys, desk.answers, answers) {
        return;
    }
    if tool_sheets::force_out(sys, desk.requests, requests) {
        summary(sys, t);
    }
}

// THE COMMAND

// Whether the library takes the own names and the access, asked with a message of no bytes, which has number 5; if not, that is said.
fn check_access(sys: &System) -> bool {
    let mut answer = [0u8; answers::ANSWER_LEAST];
    let mut request = [0u8; answers::ANSWER_LEAST];
    let g = ask(sys, b"", 0, &mut answer, &mut request);
    if g.code == 2 {
        tool_files::refuse(
            sys,
            b"number 2: own host or realm is not 1 to 128 bytes; nothing is written",
        );
        return false;
    }
    if g.code == 22 {
        tool_files::refuse(
            sys,
            b"number 22: SESSION and USER have 1 to 128 bytes, LABEL 1 to 100, a visited network at most 128; nothing is written",
        );
        return false;
    }
    true
}

// The messages of a file, known to be whole, from its start; that they can not be followed is said.
fn open_messages(sys: &System, path: &[u8]) -> Option<i32> {
    let Some(fd) = tool_files::open_plain(sys, path) else {
        return None;
    };
    tool_inputs::count(sys, Source { fd, hex: false }, path)?;
    if !sys.seek_to(fd, 0) {
        tool_files::refuse_file(sys, path);
        return None;
    }
    Some(fd)
}

fn open_and_play(sys: &System, first: u32, from: &[u8], answers: &[u8], requests: &[u8]) {
    if !check_access(sys) {
        return;
    }
    let Some(fd) = open_messages(sys, from) else {
        return;
    };
    let Some(sheets) = tool_sheets::open_two_beside(sys, answers, requests, fd) else {
        return;
    };
    let desk = Desk {
        from: fd,
        answers: sheets.answers,
        requests: sheets.notices,
        first,
    };
    play(sys, desk, from, answers, requests);
}

// Whether word i, if it is there, is the first that says the visited network or the first that says the identifiers.
fn is_word(sys: &System, i: usize) -> bool {
    sys.arg_count() <= i
        || tool_operator::find(sys, 10, b"visited=") == Some(i)
        || tool_operator::find(sys, 10, b"first=") == Some(i)
}

fn check_words(sys: &System) -> bool {
    if is_word(sys, 10) && is_word(sys, 11) {
        return true;
    }
    tool_files::refuse(
        sys,
        b"the last words may be visited=NETWORK and first=N, each once, and nothing else",
    );
    false
}

// REQUESTS ANSWERS AA-REQUESTS HOST REALM SESSION USER LABEL [visited=NETWORK] [first=N].
pub fn run(sys: &System) {
    if !check_words(sys) {
        return;
    }
    let said = tool_operator::first(sys, tool_operator::find(sys, 10, b"first="));
    let Some(first) = said else {
        return;
    };
    let mut from = io::buffer();
    let mut answers = io::buffer();
    let mut requests = io::buffer();
    let a = sys.arg(2, &mut from);
    let b = sys.arg(3, &mut answers);
    let c = sys.arg(4, &mut requests);
    open_and_play(sys, first, &from[..a], &answers[..b], &requests[..c]);
}
