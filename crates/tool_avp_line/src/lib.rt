// An AVP in words, or why there is none.
#![tactic(auto)]

use reader::{Fault, Seen};
use tool_avps::Form;
use tool_words::{number, say, text};

// The first bytes of a value, at most 32 of them.
fn bytes(out: &mut [u8; 4096], at: usize, value: &[u8]) -> usize {
    if value.len() <= 32 {
        return tool_words::octets(out, at, value);
    }
    let a = tool_words::octets(out, at, &value[0..32]);
    say(out, a, b" ..")
}

// The first bytes of a text, at most 256 of them.
fn line(out: &mut [u8; 4096], at: usize, value: &[u8]) -> usize {
    let a = say(out, at, b" ");
    if value.len() <= 256 {
        return text(out, a, value);
    }
    let b = text(out, a, &value[0..256]);
    say(out, b, b" ..")
}

// A number of 4 bytes, with the name that a result has.
fn count(out: &mut [u8; 4096], at: usize, code: u32, value: &[u8]) -> usize {
    if value.len() != 4 {
        return bytes(out, at, value);
    }
    let n = octets::read32(value, 0);
    let a = say(out, at, b" ");
    let b = number(out, a, u64::from(n));
    match code {
        268 => {
            let c = say(out, b, b" ");
            tool_names::result(out, c, n)
        }
        298 => {
            let c = say(out, b, b" ");
            tool_names::experimental(out, c, n)
        }
        _ => b,
    }
}

// A value by its form. The AVPs of a group have lines of their own.
fn value(out: &mut [u8; 4096], at: usize, form: Form, code: u32, part: &[u8]) -> usize {
    match form {
        Form::Bytes => bytes(out, at, part),
        Form::Text => line(out, at, part),
        Form::Number => count(out, at, code, part),
        Form::Group => at,
    }
}

// The flags of an AVP.
fn flags(out: &mut [u8; 4096], at: usize, x: u8) -> usize {
    let letters: &[u8] = match x / 32 {
        0 => b":",
        1 => b" (P):",
        2 => b" (M):",
        3 => b" (M P):",
        4 => b" (V):",
        5 => b" (V P):",
        6 => b" (V M):",
        _ => b" (V M P):",
    };
    say(out, at, letters)
}

// The line of an AVP, behind `margin`.
pub fn avp(out: &mut [u8; 4096], margin: &[u8], m: &[u8], s: Seen) -> usize {
    let Some(part) = m.get(s.value..s.value.saturating_add(s.len)) else {
        return 0;
    };
    let a = say(out, 0, margin);
    let b = tool_avps::name(out, a, s.code, s.flags, s.vendor);
    let c = flags(out, b, s.flags);
    let form = tool_avps::form_of(s.code, s.flags, s.vendor);
    let d = value(out, c, form, s.code, part);
    say(out, d, b"\n")
}

// What comes of an AVP of a request that is not known; nothing is said of one that is.
pub fn unknown(out: &mut [u8; 4096], margin: &[u8], s: Seen) -> usize {
    if s.known {
        return 0;
    }
    let a = say(out, 0, margin);
    if s.flags / 64 % 2 == 1 {
        let b = say(out, a, b"not known, with M: the request is refused, 5001 ");
        let c = tool_names::result(out, b, 5001);
        return say(out, c, b"\n");
    }
    say(out, a, b"not known, without M: stepped over\n")
}

// Whether an AVP is a group, whose AVPs have lines of their own.
pub fn is_group(s: Seen) -> bool {
    tool_avps::form_of(s.code, s.flags, s.vendor) == Form::Group
}

fn why(out: &mut [u8; 4096], at: usize, f: Fault) -> usize {
    let reason: &[u8] = match f {
        Fault::Few => b"fewer than 8 bytes are left, 5014",
        Fault::Bits => b"a reserved bit of the flags is set, 3009",
        Fault::Short => b"the length is under that of the AVP's own header, 5014",
        Fault::Past => b"the AVP would end past the message, 5014",
    };
    say(out, at, reason)
}

// The line of the test that the AVP at a byte of the message fails.
pub fn fault(out: &mut [u8; 4096], margin: &[u8], at: usize, f: Fault) -> usize {
    let a = say(out, 0, margin);
    let b = say(out, a, b"no AVP at byte ");
    let c = number(out, b, at as u64);
    let d = say(out, c, b" of the message: ");
    let e = why(out, d, f);
    say(out, e, b"\n")
}
