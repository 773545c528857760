// Messages gathered from a file for one burst: back to back in a room, each with a slot for what goes with it.
#![tactic(auto)]

use reasons::{Reason, Why};
use system::System;
use tool_streams::Source;

// The files that are open, and of those that may be asked for the ones that were; the words that were said, by their numbers; what the gateway says where no
// file has it; the form of the table, and the operator.
#[derive(Clone, Copy)]
pub struct Desk {
    pub requests: i32,
    pub answers: i32,
    pub notices: i32,
    pub wags: Option<i32>,
    pub codes: Option<i32>,
    pub hex: bool,
    pub quiet: bool,
    pub wag: bool,
    pub form: u32,
    pub op: u32,
    pub host: Option<usize>,
    pub realm: Option<usize>,
    pub only: Option<usize>,
}

// The server's own names.
#[derive(Clone, Copy)]
pub struct Names<'a> {
    pub host: &'a [u8],
    pub realm: &'a [u8],
}

// What goes with a message: what the gateway says to a policy, and the code that is expected, if one is.
#[derive(Clone, Copy)]
pub struct Beside {
    pub wag: bool,
    pub expected: Option<usize>,
}

// A message that is put to the server: how many bytes it has, and what goes with it.
#[derive(Clone, Copy)]
pub struct Slot {
    pub bytes: usize,
    pub beside: Beside,
}

// Why nothing more can be added to a page: it is full, or its last message goes by itself; or the next message or a line for it could not be read again.
#[derive(Clone, Copy, PartialEq, Eq)]
pub enum End {
    Full,
    NoMessage,
    NoLine,
}

// How far a page is filled: its slots, the messages of the burst and their bytes; and its end, once it has one. The bytes of a message that goes by itself stand behind
// those of the burst.
#[derive(Clone, Copy)]
pub struct Page {
    pub slots: usize,
    pub messages: usize,
    pub bytes: usize,
    pub end: Option<End>,
}

fn empty() -> Page {
    Page {
        slots: 0,
        messages: 0,
        bytes: 0,
        end: None,
    }
}

// As it is, with nothing more.
fn ended(p: Page, end: End) -> Page {
    Page {
        end: Some(end),
        ..p
    }
}

// WHAT GOES WITH A MESSAGE

// What goes with the next message: its lines of the files that were asked for. None where one of these has come to an end before the messages. It had not when it
// was counted, so somebody has changed it since.
fn take_beside(sys: &System, d: Desk) -> Option<Beside> {
    let wag = match d.wags {
        Some(fd) => tool_expected::take_wag(sys, fd)?,
        None => d.wag,
    };
    let expected = match d.codes {
        Some(fd) => Some(tool_expected::take_code(sys, fd)?),
        None => None,
    };
    Some(Beside { wag, expected })
}

// WHICH MESSAGES GO BY THEMSELVES

// Whether a message has just the length that its header says, so that a burst has the same boundaries.
fn is_whole(m: &[u8]) -> bool {
    message::HEADER_LENGTH <= m.len() && octets::read24(m, 1) == m.len()
}

// Whether a message is a policy that can be refused for no access or by the gateway alone.
fn is_policy(d: Desk, table: &[u8], names: Names, m: &[u8]) -> bool {
    let answer = [0u8; answers::ANSWER_LEAST];
    let notice = [0u8; answers::NOTICE_LENGTH_2];
    let why = reasons::first_failed(
        table,
        d.form,
        d.op,
        names.host,
        names.realm,
        m,
        false,
        &answer,
        &notice,
    );
    matches!(why, Why::Answered(Reason::NoAccess | Reason::GatewaySaysNo))
}

// A policy to which the gateway says no gets the same code whether or not there is an access: why is known only from the table right before it. It is not asked
// where no line may say the reason.
fn goes_alone(d: Desk, table: &[u8], names: Names, m: &[u8], b: Beside) -> bool {
    if !is_whole(m) {
        return true;
    }
    let is_told = d.codes.is_some() || !d.quiet;
    !b.wag && is_told && is_policy(d, table, names, m)
}

// GATHERING

// The i-th slot; there is none for a message that is passed over.
fn put_slot(slots: &mut [Option<Slot>], i: usize, slot: Option<Slot>) {
    if i < slots.len() {
        slots[i] = slot;
    }
}

fn put_wag(wags: &mut [u8], i: usize, wag: bool) {
    if i < wags.len() {
        wags[i] = u8::from(wag);
    }
}

// A message behind those that are there; whether there was room.
fn put_message(messages: &mut [u8], at: usize, m: &[u8]) -> bool {
    if messages.len() < at || messages.len() - at < m.len() {
        return false;
    }
    messages[at..at + m.len()].copy_from_slice(m);
    true
}

fn passed(p: Page) -> Page {
    Page {
        slots: p.slots.saturating_add(1),
        ..p
    }
}

// One message more, by itself or with the others.
fn added(p: Page, n: usize, alone: bool) -> Page {
    if alone {
        return ended(passed(p), End::Full);
    }
    Page {
        messages: p.messages.saturating_add(1),
        bytes: p.bytes.saturating_add(n),
        ..passed(p)
    }
}

// A message with what goes with it, in the next slot.
fn add(
    sys: &System,
    d: Desk,
    table: &[u8],
    names: Names,
    messages: &mut [u8],
    slots: &mut [Option<Slot>],
    wags: &mut [u8],
    m: &[u8],
    beside: Beside,
    p: Page,
) -> Page {
    if !tool_only::is_chosen(sys, d.only, m) {
        put_slot(slots, p.slots, None);
        return passed(p);
    }
    if !put_message(messages, p.bytes, m) {
        return ended(p, End::NoMessage);
    }
    let bytes = m.len();
    put_slot(slots, p.slots, Some(Slot { bytes, beside }));
    put_wag(wags, p.messages, beside.wag);
    added(p, bytes, goes_alone(d, table, names, m, beside))
}

fn source(d: Desk) -> Source {
    Source {
        fd: d.requests,
        hex: d.hex,
    }
}

// Whether there is a slot, and room for the longest message.
fn has_room(messages: usize, slots: usize, p: Page) -> bool {
    p.slots < slots && p.bytes <= messages && 8192 <= messages - p.bytes
}

// The next message of the file. Its lines of the other files are taken in any case.
fn turn(
    sys: &System,
    d: Desk,
    table: &[u8],
    names: Names,
    messages: &mut [u8],
    slots: &mut [Option<Slot>],
    wags: &mut [u8],
    p: Page,
) -> Page {
    if !has_room(messages.len(), slots.len(), p) {
        return ended(p, End::Full);
    }
    let mut room = [0u8; 8192];
    let Some(n) = tool_streams::read(sys, source(d), &mut room) else {
        return ended(p, End::NoMessage);
    };
    let Some(m) = room.get(..n) else {
        return ended(p, End::NoMessage);
    };
    let Some(b) = take_beside(sys, d) else {
        return ended(p, End::NoLine);
    };
    add(sys, d, table, names, messages, slots, wags, m, b, p)
}

// The next messages of the file, of which `left` are left: up to the end of the page or of the file, or to one that goes by itself.
pub fn gather(
    sys: &System,
    d: Desk,
    table: &[u8],
    names: Names,
    messages: &mut [u8],
    slots: &mut [Option<Slot>],
    wags: &mut [u8],
    left: usize,
) -> Page {
    let mut p = empty();
    for _ in 0..left {
        p = turn(sys, d, table, names, messages, slots, wags, p);
        if p.end.is_some() {
            return p;
        }
    }
    p
}
