// The requests of the worked cases, built in a room, and what each asks in words. `what` is o for open, v for open from a visited network,
// t for terminate, u for open for a user whom nobody entered, l for a long Session-Id, m for a long message, b for a bare request.
#![tactic(auto)]

ghost use Rattle.std.specs.Prelude.{◌≤◌, length};

use tool_requests::{ending, lengthen, opening, put_header, visiting};
use tool_words::say;

fn request(room: &mut [u8; 4100], what: u8, session: &[u8; 1], label: &[u8]) -> usize
    requires { length label.now ≤ 8192 }
{
    match what {
        b'o' => opening(room, session, b"001010123456789", label),
        b'v' => visiting(room, session, b"001010123456789", label),
        b'u' => opening(room, session, b"001010999999999", label),
        _ => ending(room, session, b"001010123456789", label),
    }
}

fn labelled(room: &mut [u8; 4100], what: u8, session: &[u8; 1], label: u8) -> usize {
    match label {
        b'y' => request(room, what, session, b"yard"),
        b'B' => request(room, what, session, b"Board"),
        _ => request(room, what, session, b"board"),
    }
}

// A Session-Id of 128 or of 129 letters.
fn long_session(room: &mut [u8; 4100], which: u8) -> usize {
    let letters = [b's'; 129];
    if which == b'8' {
        return opening(
            room,
            &letters[0..message::TEXT_MOST],
            b"001010123456789",
            b"board",
        );
    }
    opening(room, &letters, b"001010123456789", b"board")
}

// A request made as long as the room.
fn filled(room: &mut [u8], session: &[u8; 1]) -> usize {
    if room.len() < message::HEADER_LENGTH || 4100 < room.len() {
        return 0;
    }
    let n = opening(room, session, b"001010123456789", b"board");
    lengthen(room, n)
}

// A message of 4096 or of 4100 bytes.
fn long_message(room: &mut [u8; 4100], which: u8) -> usize {
    if which == b'6' {
        return filled(&mut room[0..message::LENGTH_MOST], b"h");
    }
    filled(&mut room[..], b"i")
}

// The request of a step in the room: its length.
pub fn build(room: &mut [u8; 4100], what: u8, who: u8, label: u8) -> usize {
    match what {
        b'l' => long_session(room, who),
        b'm' => long_message(room, who),
        b'b' => {
            put_header(room, message::HEADER_LENGTH, 265);
            message::HEADER_LENGTH
        }
        _ => labelled(room, what, &[who], label),
    }
}

fn say_label(out: &mut [u8; 4096], at: usize, label: u8) -> usize {
    let words: &[u8] = match label {
        b'y' => b" on yard",
        b'B' => b" on Board",
        _ => b" on board",
    };
    say(out, at, words)
}

fn say_size(out: &mut [u8; 4096], which: u8) -> usize {
    let words: &[u8] = match which {
        b'8' => b"  a Session-Id of 128 bytes",
        b'9' => b"  a Session-Id of 129 bytes",
        b'6' => b"  a message of 4096 bytes",
        b'0' => b"  a message of 4100 bytes",
        _ => b"  a bare request 265",
    };
    say(out, 0, words)
}

fn say_call(out: &mut [u8; 4096], what: u8, session: &[u8; 1], label: u8) -> usize {
    if what == b't' {
        let a = say(out, 0, b"  terminate ");
        let b = say(out, a, session);
        return say_label(out, b, label);
    }
    let a = say(out, 0, b"  open ");
    let b = say(out, a, session);
    let c = say_label(out, b, label);
    match what {
        b'v' => say(out, c, b" from a visited network"),
        b'u' => say(out, c, b" for 001010999999999"),
        _ => c,
    }
}

// Whether a step is about a size.
pub fn is_sized(what: u8) -> bool {
    matches!(what, b'l' | b'm' | b'b')
}

// What a step asks.
pub fn asked(out: &mut [u8; 4096], what: u8, who: u8, label: u8) -> usize {
    if is_sized(what) {
        return say_size(out, who);
    }
    say_call(out, what, &[who], label)
}
