// The header of a message in words, and the first test that the message fails.
#![tactic(auto)]

ghost use Rattle.std.specs.Prelude.{◌≤◌, length};

use message::{Failure, UserRequest};
use reasons::Reason;
use tool_words::{number, say};

// THE HEADER

fn flag(out: &mut [u8; 4096], at: usize, is_set: bool, letter: &[u8]) -> usize {
    if is_set {
        return say(out, at, letter);
    }
    at
}

// The flags behind R, and the reserved bits where one is set.
fn flags(out: &mut [u8; 4096], at: usize, x: u8) -> usize {
    let a = flag(out, at, x / 64 % 2 == 1, b", proxiable");
    let b = flag(out, a, x / 32 % 2 == 1, b", error");
    let c = flag(out, b, x / 16 % 2 == 1, b", perhaps sent again");
    flag(out, c, x % 16 != 0, b", reserved bits set")
}

fn direction(out: &mut [u8; 4096], at: usize, x: u8) -> usize {
    let name: &[u8] = if x < 128 { b" answer" } else { b" request" };
    say(out, at, name)
}

// The command, by its name and its number.
fn command(out: &mut [u8; 4096], at: usize, m: &[u8]) -> usize {
    if m.len() < message::HEADER_LENGTH {
        return say(out, at, b"no whole header");
    }
    let code = octets::read24(m, 5) as u32;
    let a = tool_names::command(out, at, code);
    let b = say(out, a, b" ");
    let c = number(out, b, u64::from(code));
    let d = direction(out, c, m[4]);
    flags(out, d, m[4])
}

// The three numbers that are copied into an answer.
fn identifiers(out: &mut [u8; 4096], at: usize, m: &[u8]) -> usize {
    if m.len() < message::HEADER_LENGTH {
        return at;
    }
    let a = say(out, at, b", application ");
    let b = number(out, a, u64::from(octets::read32(m, 8)));
    let c = say(out, b, b", hop-by-hop");
    let d = tool_words::octets(out, c, &m[12..16]);
    let e = say(out, d, b", end-to-end");
    tool_words::octets(out, e, &m[16..message::HEADER_LENGTH])
}

// The line of message k, which stands at `from` of its file; what that counts, `place` says.
pub fn header(out: &mut [u8; 4096], k: usize, place: &[u8], from: usize, m: &[u8]) -> usize {
    let a = say(out, 0, b"message ");
    let b = number(out, a, k as u64);
    let c = say(out, b, place);
    let d = number(out, c, from as u64);
    let e = say(out, d, b", ");
    let f = number(out, e, m.len() as u64);
    let g = say(out, f, b" bytes: ");
    let h = command(out, g, m);
    let i = identifiers(out, h, m);
    say(out, i, b"\n")
}

// THE TESTS

// A code, its name and why it is given on a table of that form.
fn refused(out: &mut [u8; 4096], at: usize, code: u32, why: Reason, form: u32) -> usize {
    let a = number(out, at, u64::from(code));
    let b = say(out, a, b" ");
    let c = tool_names::result(out, b, code);
    let d = tool_why::reason(out, c, why, form);
    say(out, d, b"\n")
}

// The code of a message as it was read, 0 for none.
fn code_of(told: Result<UserRequest, Failure>) -> u32 {
    match told {
        Ok(_) => 0,
        Err(f) => f.code(),
    }
}

// The code that a message gets on a table of form 2, or of any where that makes no difference, and why; nothing where it passes.
fn refusal_of(out: &mut [u8; 4096], m: &[u8], code: u32) -> usize
    requires { 20 ≤ length m.now }
{
    if code == 0 {
        return 0;
    }
    let a = say(out, 0, b"  the first test that fails gives ");
    refused(out, a, code, reasons::reading_failed(m, 3), 2)
}

// The code with which a request would be refused before any table is looked at, and why. Form 2 takes up to three policies; where form 1, which takes
// one, gives another code for that, it is said too.
fn refusal(out: &mut [u8; 4096], m: &[u8]) -> usize {
    if m.len() < message::HEADER_LENGTH {
        return 0;
    }
    let in_form_2 = request::read(m, 3);
    let in_form_1 = request::read(m, 1);
    let told_2 = in_form_2.told;
    let told_1 = in_form_1.told;
    let wide = code_of(told_2);
    let plain = code_of(told_1);
    let a = refusal_of(out, m, wide);
    if plain == wide {
        return a;
    }
    let b = say(
        out,
        a,
        b"  on a table of form 1 the first test that fails gives ",
    );
    refused(out, b, plain, reasons::reading_failed(m, 1), 1)
}

// Whether a message is a request with that command.
fn is_request(m: &[u8], command: usize) -> bool {
    message::HEADER_LENGTH <= m.len() && 128 <= m[4] && octets::read24(m, 5) == command
}

// Whether a message is one that the server sends and is not sent: an Abort-Session-Request.
pub fn is_abort(m: &[u8]) -> bool {
    is_request(m, 274)
}

// Whether a message goes to a gateway and not to the server: such a request, or a Re-Auth-Request.
fn is_for_gateway(m: &[u8]) -> bool {
    is_abort(m) || is_request(m, 258)
}

// The first test that a message fails: nothing where it passes, or is not for the server.
pub fn verdict(out: &mut [u8; 4096], m: &[u8]) -> usize {
    if is_for_gateway(m) {
        return 0;
    }
    let n = message::number(m);
    if n == 8 {
        return 0;
    }
    if n == 0 {
        return refusal(out, m);
    }
    let a = say(out, 0, b"  gets no answer, number ");
    let b = number(out, a, u64::from(n));
    let c = say(out, b, b": ");
    let d = tool_names::no_answer(out, c, n);
    say(out, d, b"\n")
}
