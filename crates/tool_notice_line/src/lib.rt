// The tunnel that a notice names, in a line. A notice has the Session-Id of the tunnel in its first 128 bytes, the host of its gateway in the next 128
// and, in form 2, the gateway's realm in 128 more, each with zeros behind it.
#![tactic(auto)]

ghost use Rattle.std.specs.Prelude.{◌≤◌};

use tool_words::{say, text};

// How long the three texts are. The realm's length is 0 in form 1, and in form 2 where the tunnel came from a table of form 1.
#[derive(Clone, Copy)]
pub struct Lengths {
    pub session: usize,
    pub host: usize,
    pub realm: usize,
}

// How many bytes stand before the zeros at the end of the 128 that begin at `from`.
fn text_length(notice: &[u8; answers::NOTICE_LENGTH_2], from: usize) -> usize
    ensures { result ≤ 128 }
{
    if answers::NOTICE_REALM < from {
        return 0;
    }
    let text = &notice[from..from + message::TEXT_MOST];
    text.iter()
        .rposition(|&x| x != 0)
        .map_or(0, |last| last + 1)
}

// The lengths in a notice that came without them, as one from a file does. A text that itself ends in zero bytes is taken without these.
pub fn lengths_of(notice: &[u8; answers::NOTICE_LENGTH_2]) -> Lengths {
    Lengths {
        session: text_length(notice, 0),
        host: text_length(notice, answers::NOTICE_HOST),
        realm: text_length(notice, answers::NOTICE_REALM),
    }
}

// The text of n bytes at `from`.
fn part(out: &mut [u8; 4096], at: usize, notice: &[u8], from: usize, n: usize) -> usize {
    let Some(part) = notice.get(from..from.saturating_add(n)) else {
        return at;
    };
    text(out, at, part)
}

// The gateway's realm, which only form 2 knows.
fn realm(out: &mut [u8; 4096], at: usize, form: u32, notice: &[u8], n: usize) -> usize {
    if form != 2 {
        return at;
    }
    if n == 0 {
        return say(out, at, b", no realm");
    }
    let a = say(out, at, b", realm ");
    part(out, a, notice, answers::NOTICE_REALM, n)
}

// The tunnel by its Session-Id, and whose it is.
pub fn tunnel(out: &mut [u8; 4096], at: usize, form: u32, notice: &[u8], l: Lengths) -> usize {
    let a = part(out, at, notice, 0, l.session);
    let b = say(out, a, b" of ");
    let c = part(out, b, notice, answers::NOTICE_HOST, l.host);
    realm(out, c, form, notice, l.realm)
}
