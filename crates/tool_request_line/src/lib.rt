// What a message asks, in words.
#![tactic(auto)]

ghost use Rattle.std.specs.Prelude.{◌≤◌};

use message::{Asked, Span};
use reader::Step;
use tool_words::{say, text};

// A part of the message.
fn part(out: &mut [u8; 4096], at: usize, m: &[u8], s: Span) -> usize {
    let Some(part) = m.get(s.at..s.at.saturating_add(s.len)) else {
        return at;
    };
    text(out, at, part)
}

// A Session-Id and a label.
fn both(out: &mut [u8; 4096], at: usize, m: &[u8], session: Span, label: Span) -> usize {
    let a = part(out, at, m, session);
    let b = say(out, a, b" on ");
    part(out, b, m, label)
}

// How many policies are brought, where it is more than one.
fn policies(out: &mut [u8; 4096], at: usize, second: Span, third: Span) -> usize {
    let words: &[u8] = match (second.len, third.len) {
        (0, 0) => b"policy for ",
        (_, 0) => b"two policies for ",
        _ => b"three policies for ",
    };
    say(out, at, words)
}

fn request(out: &mut [u8; 4096], at: usize, m: &[u8], asked: Asked) -> usize {
    match asked {
        Asked::Tunnel { session, label, .. } => {
            let a = say(out, at, b"open ");
            both(out, a, m, session, label)
        }
        Asked::Policy {
            session,
            second,
            third,
            ..
        } => {
            let a = policies(out, at, second, third);
            part(out, a, m, session)
        }
        Asked::Termination { session, label } => {
            let a = say(out, at, b"terminate ");
            both(out, a, m, session, label)
        }
    }
}

// The Session-Id of a message behind some words, where its first AVP is one; else nothing.
pub fn session(out: &mut [u8; 4096], at: usize, words: &[u8], m: &[u8]) -> usize {
    let step = reader::avp_at(m, message::HEADER_LENGTH);
    let Step::One(first) = step else {
        return at;
    };
    if 128 <= first.flags || first.code != 263 {
        return at;
    }
    let session = Span {
        at: first.value,
        len: first.len,
    };
    let a = say(out, at, words);
    part(out, a, m, session)
}

// A message that is no whole request, with its Session-Id.
fn no_request(out: &mut [u8; 4096], at: usize, m: &[u8]) -> usize {
    let a = say(out, at, b"no whole request");
    session(out, a, b", Session-Id ", m)
}

// How many policies a request may bring to a table of that form.
pub fn most_policies(form: u32) -> usize
    ensures { (1 ≤ result) × (result ≤ 3) }
{
    if form == 2 { 3 } else { 1 }
}

// Who asks a table of that form for what; a message that is no whole request is only said to be one.
pub fn asked(out: &mut [u8; 4096], at: usize, m: &[u8], form: u32) -> usize {
    if m.len() < message::HEADER_LENGTH {
        return say(out, at, b"no request");
    }
    let heard = request::read(m, most_policies(form));
    let Ok(q) = heard.told else {
        return no_request(out, at, m);
    };
    let a = part(out, at, m, q.user);
    let b = say(out, a, b", ");
    request(out, b, m, q.asked)
}
