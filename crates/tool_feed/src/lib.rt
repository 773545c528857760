// What a message that was handled tells a board of screens: its request, its result and the notice of its cut, in turn.
#![tactic(auto)]

use decision::Outcome;
use effects::Cut;
use message::{Asked, Kind, Span};
use screen::Event;
use system::System;
use tool_screens::Entry;

// WHAT A MESSAGE IS TO THE BOARD

// The request's kind and where its Session-Id stands.
#[derive(Clone, Copy)]
struct About {
    which: u32,
    session: Span,
}

fn about_of(asked: Asked) -> About {
    match asked {
        Asked::Tunnel {
            session,
            host: _,
            realm: _,
            label: _,
            visited: _,
        } => About { which: 0, session },
        Asked::Policy {
            session,
            first: _,
            second: _,
            third: _,
        } => About { which: 1, session },
        Asked::Termination { session, label: _ } => About { which: 2, session },
    }
}

fn kind_of(kind: Kind) -> u32 {
    match kind {
        Kind::NoAnswer => 0,
        Kind::Plain => 1,
        Kind::Experimental => 2,
    }
}

fn place_of(n: usize) -> u32 {
    n.min(255) as u32
}

// How many bytes the Session-Id of the cut access has, 0 without a cut.
fn cut_of(cut: Option<Cut>) -> usize {
    match cut {
        None => 0,
        Some(cut) => cut.session,
    }
}

// FEEDING. Message k moves screens, and each move is said unless all is quiet; whether that could be said. A Session-Id that is on no screen moves none.

fn tell(sys: &System, k: usize, quiet: bool, before: Entry, now: Entry) -> bool {
    if quiet {
        return true;
    }
    tool_screens::tell_moved(sys, k, before, now)
}

// What a message tells the screen of a Session-Id.
fn feed_event(
    sys: &System,
    k: usize,
    quiet: bool,
    screens: &mut [Entry],
    session: &[u8],
    event: Event,
) -> bool {
    let before = tool_screens::entry(screens, session);
    tool_screens::feed(screens, session, event);
    tell(sys, k, quiet, before, tool_screens::entry(screens, session))
}

// The notice of a cut, of which the Session-Id has n bytes; nothing where there was none.
fn feed_cut(
    sys: &System,
    k: usize,
    quiet: bool,
    screens: &mut [Entry],
    notice: &[u8],
    n: usize,
) -> bool {
    if n == 0 {
        return true;
    }
    match notice.get(..n) {
        Some(session) => feed_event(sys, k, quiet, screens, session, Event::Cuts),
        None => true,
    }
}

// A request about that Session-Id, with what came of it.
fn feed_all(
    sys: &System,
    k: usize,
    quiet: bool,
    screens: &mut [Entry],
    which: u32,
    session: &[u8],
    o: Outcome,
    notice: &[u8],
) -> bool {
    let asked = screen::request_says(which);
    if !feed_event(sys, k, quiet, screens, session, asked) {
        return false;
    }
    let kind = o.kind;
    let result = screen::result_says(which, o.code, kind_of(kind), place_of(o.place));
    if !feed_event(sys, k, quiet, screens, session, result) {
        return false;
    }
    let cut = o.cut;
    feed_cut(sys, k, quiet, screens, notice, cut_of(cut))
}

// The same of a message whose Session-Id is that part of it.
fn feed_about(
    sys: &System,
    k: usize,
    quiet: bool,
    screens: &mut [Entry],
    m: &[u8],
    a: About,
    o: Outcome,
    notice: &[u8],
) -> bool {
    let span = a.session;
    let Some(rest) = m.get(span.at..) else {
        return true;
    };
    let Some(session) = rest.get(..span.len) else {
        return true;
    };
    feed_all(sys, k, quiet, screens, a.which, session, o, notice)
}

// Message k, handled on a table of that form, fed to a board, if it has screens. A message that is no whole request is refused by the server as it is read, and
// tells the board nothing.
pub fn feed(
    sys: &System,
    k: usize,
    quiet: bool,
    form: u32,
    screens: &mut [Entry],
    m: &[u8],
    o: Outcome,
    notice: &[u8],
) -> bool {
    if screens.is_empty() || m.len() < message::HEADER_LENGTH {
        return true;
    }
    let heard = request::read(m, tool_request_line::most_policies(form));
    let Ok(q) = heard.told else {
        return true;
    };
    feed_about(sys, k, quiet, screens, m, about_of(q.asked), o, notice)
}
