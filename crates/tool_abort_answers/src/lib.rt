// The command that says which answers belong to the requests to disconnect that were sent, and which requests have none. Answers may come in any order:
// one is held against every request that has its identifiers.
#![tactic(auto)]

use reader::{Seen, Step};
use system::System;
use tool_streams::{Source, Way};
use tool_words::{number, say};

// ONE REQUEST

// The Session-Id of a request, if that is its first AVP.
fn session_of(m: &[u8]) -> Option<&[u8]> {
    let Step::One(s) = reader::avp_at(m, message::HEADER_LENGTH) else {
        return None;
    };
    if 128 <= s.flags || s.code != 263 {
        return None;
    }
    m.get(s.value..)?.get(..s.len)
}

// The Session-Id of a request, said.
fn say_session(out: &mut [u8; 4096], at: usize, m: &[u8]) -> usize {
    match session_of(m) {
        Some(session) => tool_words::text(out, at, session),
        None => at,
    }
}

// Whether an answer belongs to a request.
fn belongs(answer: &[u8], m: &[u8]) -> bool {
    if m.len() < message::HEADER_LENGTH {
        return false;
    }
    let Some(session) = session_of(m) else {
        return false;
    };
    let hop = octets::read32(m, 12);
    abort::answered(answer, session, hop, octets::read32(m, 16))
}

// How an answer stands to a request: it has other identifiers, or the same and is not its answer, or it is.
#[derive(Clone, Copy, PartialEq, Eq)]
enum How {
    Other,
    Alike,
    Its,
}

fn compare(answer: &[u8], m: &[u8]) -> How {
    if answer.len() < message::HEADER_LENGTH || m.len() < message::HEADER_LENGTH {
        return How::Other;
    }
    if answer[12..20] != m[12..20] {
        return How::Other;
    }
    if belongs(answer, m) {
        return How::Its;
    }
    How::Alike
}

// ALL REQUESTS. They stand in a room, back to back.

// The request at a place of the room, if there is one.
fn request_at(all: &[u8], at: usize) -> Option<&[u8]> {
    let rest = all.get(at..)?;
    if rest.len() < message::HEADER_LENGTH {
        return None;
    }
    let n = octets::read24(rest, 1);
    if n == 0 || message::LENGTH_MOST < n {
        return None;
    }
    rest.get(..n)
}

// The request that an answer belongs to: where it stands, and its number, counted from 1.
#[derive(Clone, Copy)]
struct Match {
    at: usize,
    k: usize,
}

// The request that an answer belongs to. If there is none, the number of the last one that has its identifiers, if one has.
fn find(all: &[u8], answer: &[u8]) -> Result<Match, Option<usize>> {
    let mut alike = None;
    let mut at: usize = 0;
    for k in 1..4294967296usize {
        let Some(m) = request_at(all, at) else {
            return Err(alike);
        };
        match compare(answer, m) {
            How::Its => {
                return Ok(Match { at, k });
            }
            How::Alike => {
                alike = Some(k);
            }
            How::Other => {}
        }
        at = at.saturating_add(m.len());
    }
    Err(alike)
}

fn refuse_request(sys: &System, path: &[u8], k: usize) {
    let mut out = [0u8; 4096];
    let a = say(&mut out, 0, b"play: ");
    let b = tool_words::text(&mut out, a, path);
    let c = say(&mut out, b, b": message ");
    let d = number(&mut out, c, k as u64);
    let e = say(
        &mut out,
        d,
        b" is no Abort-Session-Request with its Session-Id first\n",
    );
    tool_files::note(sys, &out, e);
    tool_files::mark(sys);
}

// Whether all are requests to disconnect with their Session-Id first; which is not is said.
fn check_requests(sys: &System, path: &[u8], all: &[u8]) -> bool {
    let mut at: usize = 0;
    for k in 1..4294967296usize {
        let Some(m) = request_at(all, at) else {
            return true;
        };
        if !tool_message_line::is_abort(m) || session_of(m).is_none() {
            refuse_request(sys, path, k);
            return false;
        }
        at = at.saturating_add(m.len());
    }
    false
}

// A request that has its answer is marked in the room: its version is 0.
fn mark(all: &mut [u8], at: usize) {
    if let Some(version) = all.get_mut(at) {
        *version = 0;
    }
}

fn is_marked(m: &[u8]) -> bool {
    m.first() == Some(&0)
}

// The line of request k where it has no answer; whether it could be said.
fn tell_open(sys: &System, m: &[u8], k: usize) -> bool {
    let mut out = [0u8; 4096];
    let a = say(&mut out, 0, b"request ");
    let b = number(&mut out, a, k as u64);
    let c = say(&mut out, b, b", ");
    let d = say_session(&mut out, c, m);
    let e = say(&mut out, d, b": no answer\n");
    tool_files::print(sys, &out, e)
}

// THE ANSWERS

// How far the answers are read, and how many of them belong to a request.
#[derive(Clone, Copy)]
struct Told {
    way: Way,
    good: usize,
}

// The Result-Code that an AVP of the answer has. A code of 0 is none.
fn result_in(answer: &[u8], s: Seen) -> Option<u32> {
    if s.code != 268 || 128 <= s.flags {
        return None;
    }
    let value = answer.get(s.value..)?;
    if value.len() < 4 {
        return None;
    }
    let code = octets::read32(value, 0);
    (code != 0).then_some(code)
}

// The Result-Code of an answer. A message has at most 1,024 AVPs.
fn result_of(answer: &[u8]) -> Option<u32> {
    let mut at: usize = message::HEADER_LENGTH;
    for _ in 0..1024 {
        let Step::One(s) = reader::avp_at(answer, at) else {
            return None;
        };
        let code = result_in(answer, s);
        if code.is_some() {
            return code;
        }
        at = s.next;
    }
    None
}

// The request that an answer belongs to, and what it says.
fn say_found(out: &mut [u8; 4096], at: usize, all: &[u8], f: Match, answer: &[u8]) -> usize {
    let a = say(out, at, b"the answer to request ");
    let b = number(out, a, f.k as u64);
    let c = say(out, b, b", ");
    let d = match request_at(all, f.at) {
        Some(m) => say_session(out, c, m),
        None => c,
    };
    let e = say(out, d, b": ");
    let n = result_of(answer).unwrap_or(0);
    let g = number(out, e, u64::from(n));
    let h = say(out, g, b" ");
    tool_names::result(out, h, n)
}

// What an answer is to the requests.
fn say_match(
    out: &mut [u8; 4096],
    at: usize,
    all: &[u8],
    f: Result<Match, Option<usize>>,
    answer: &[u8],
) -> usize {
    match f {
        Ok(found) => say_found(out, at, all, found, answer),
        Err(None) => say(out, at, b"belongs to no request: none has its identifiers"),
        Err(Some(k)) => {
            let a = say(out, at, b"belongs to no request: request ");
            let b = number(out, a, k as u64);
            say(out, b, b" has its identifiers, but this is no answer to it")
        }
    }
}

// The line of answer k; whether it could be said.
fn tell(
    sys: &System,
    k: usize,
    all: &[u8],
    f: Result<Match, Option<usize>>,
    answer: &[u8],
) -> bool {
    let mut out = [0u8; 4096];
    let a = number(&mut out, 0, k as u64);
    let b = say(&mut out, a, b". ");
    let c = say_match(&mut out, b, all, f, answer);
    let d = say(&mut out, c, b"\n");
    tool_files::print(sys, &out, d)
}

// An answer held against the requests, which is said.
fn hold(sys: &System, all: &mut [u8], answer: &[u8], way: Way, good: usize) -> Told {
    let f = find(all, answer);
    if !tell(sys, way.messages, all, f, answer) {
        return Told {
            way: tool_streams::over(way, false),
            good,
        };
    }
    match f {
        Ok(found) => {
            mark(all, found.at);
            Told {
                way,
                good: good.saturating_add(1),
            }
        }
        Err(_) => Told { way, good },
    }
}

// The first n bytes of the room as the next answer.
fn take(sys: &System, all: &mut [u8], room: &[u8; 8192], way: Way, good: usize) -> Told {
    match room.get(..way.last) {
        Some(answer) => hold(sys, all, answer, way, good),
        None => Told {
            way: tool_streams::over(way, false),
            good,
        },
    }
}

fn step(sys: &System, fd: i32, path: &[u8], all: &mut [u8], t: Told) -> Told {
    let mut room = [0u8; 8192];
    let before = t.way;
    let way = tool_streams::look(sys, Source { fd, hex: false }, path, before, &mut room);
    if way.last == 0 {
        return Told { way, good: t.good };
    }
    take(sys, all, &room, way, t.good)
}

// A proved loop has to end, and nothing says that a file does, so the turns are counted.
fn follow(sys: &System, fd: i32, path: &[u8], all: &mut [u8]) -> Told {
    let mut t = Told {
        way: tool_streams::start(),
        good: 0,
    };
    for _ in 0..4294967296usize {
        t = step(sys, fd, path, all, t);
        let way = t.way;
        if way.last == 0 {
            return t;
        }
    }
    t
}

// THE END

// How many requests there are, and how many of them have no answer, each of which is said.
#[derive(Clone, Copy)]
struct Left {
    requests: usize,
    without: usize,
}

fn list_open(sys: &System, all: &[u8]) -> Left {
    let mut without: usize = 0;
    let mut at: usize = 0;
    for k in 1..4294967296usize {
        let Some(m) = request_at(all, at) else {
            return Left {
                requests: k - 1,
                without,
            };
        };
        if !is_marked(m) {
            tell_open(sys, m, k);
            without = without.saturating_add(1);
        }
        at = at.saturating_add(m.len());
    }
    Left {
        requests: 0,
        without,
    }
}

fn summary(sys: &System, answers: usize, good: usize, l: Left) -> bool {
    let mut out = [0u8; 4096];
    let a = number(&mut out, 0, answers as u64);
    let b = say(&mut out, a, b" answers, ");
    let c = number(&mut out, b, good as u64);
    let d = say(&mut out, c, b" of them to a request; ");
    let e = number(&mut out, d, l.requests as u64);
    let f = say(&mut out, e, b" requests, ");
    let g = number(&mut out, f, l.without as u64);
    let h = say(&mut out, g, b" without an answer\n");
    tool_files::print(sys, &out, h)
}

// What is said once all answers are read.
fn finish(sys: &System, all: &[u8], t: Told) {
    let way = t.way;
    if !way.well {
        return;
    }
    if !summary(sys, way.messages, t.good, list_open(sys, all)) {
        return;
    }
    if t.good != way.messages {
        tool_files::refuse(sys, b"answers came that belong to no request");
    }
}

// THE COMMAND

// The requests of a file, read to the room; that they can not be followed is said.
fn load<'a>(sys: &System, path: &[u8], room: &'a mut [u8]) -> Option<&'a mut [u8]> {
    let Some(fd) = tool_files::open_plain(sys, path) else {
        return None;
    };
    tool_inputs::count(sys, Source { fd, hex: false }, path)?;
    if !sys.seek_to(fd, 0) {
        tool_files::refuse_file(sys, path);
        return None;
    }
    let n = sys.read_full(fd, room);
    sys.close(fd);
    if room.len() <= n {
        tool_files::refuse_word(sys, path, b": too long for the room that the program has");
        return None;
    }
    if n == 0 {
        return None;
    }
    room.get_mut(..n)
}

fn answers_to(sys: &System, path: &[u8], answers: &[u8], all: &mut [u8]) {
    if !check_requests(sys, path, all) {
        return;
    }
    let Some(fd) = tool_files::open_plain(sys, answers) else {
        return;
    };
    let t = follow(sys, fd, answers, all);
    finish(sys, all, t);
}

// REQUESTS ANSWERS.
pub fn run(sys: &System, room: &mut [u8]) {
    let mut requests = io::buffer();
    let mut answers = io::buffer();
    let a = sys.arg(2, &mut requests);
    let b = sys.arg(3, &mut answers);
    if let Some(all) = load(sys, &requests[..a], room) {
        answers_to(sys, &requests[..a], &answers[..b], all);
    }
}
