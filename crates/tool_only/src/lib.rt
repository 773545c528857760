// Whether a message is one of those that were asked for: by its first User-Name, as far as its AVPs can be followed.
#![tactic(auto)]

use reader::{Seen, Step};
use system::System;

// Whether the value of an AVP is a text.
fn is_value(m: &[u8], s: Seen, text: &[u8]) -> bool {
    let Some(rest) = m.get(s.value..) else {
        return false;
    };
    rest.get(..s.len) == Some(text)
}

fn is_user(s: Seen) -> bool {
    s.flags < 128 && s.code == 1
}

// Whether the first User-Name of a message is the name. A message of 8,192 bytes has at most 1,024 AVPs.
fn is_of(m: &[u8], name: &[u8]) -> bool {
    let mut at: usize = message::HEADER_LENGTH;
    for _ in 0..1024 {
        let Step::One(s) = reader::avp_at(m, at) else {
            return false;
        };
        if is_user(s) {
            return is_value(m, s, name);
        }
        at = s.next;
    }
    false
}

// Whether a message is to be served: word i of the command line has the User-Name, and without such a word all are.
pub fn is_chosen(sys: &System, i: Option<usize>, m: &[u8]) -> bool {
    let Some(i) = i else {
        return true;
    };
    let mut room = [0u8; 4096];
    is_of(m, tool_options::value(sys, i, b"only=", &mut room))
}
