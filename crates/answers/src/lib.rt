// Writing the answer to a request straight into the caller's room.
#![tactic(auto)]

ghost use Rattle.std.specs.Prelude.{◌≡◌, true, [], ◌+◌, ◌-◌, ◌*◌, ◌≤◌, ◌<◌, MatchOption, length, drop};
ghost use Rattle.octets.specs.Texts.{part, put};
ghost use Rattle.octets.specs.Numbers.{in32};
ghost use Rattle.message.specs.Codes.{plain};
ghost use Rattle.message.specs.Kinds.{code_from};
ghost use Rattle.message.specs.ReadingAMessage.{command, same_name, avp_of, walk_code, user_name, proxy_info};
ghost use Rattle.message.specs.Spans.{Holds};
ghost use Rattle.message.specs.WritingTheAnswer.{avp_bytes, session_avp, auth_avps, is3xxx, result_avp, subscription_avp, answer_flags};
ghost use Rattle.answers.specs.Answers.{head_bytes, answer_head, copied, Written, SessionOf, Answerable, Answered};

use message::{Kind, Span};

// THE ROOMS THAT A CALL ASKS FOR

// For an answer.
pub const ANSWER_LEAST: usize = 5120;

// For a notice: Session-Id and host, in form 2 the realm too, each in its place.
pub const NOTICE_LENGTH: usize = 256;

pub const NOTICE_LENGTH_2: usize = 384;

pub const NOTICE_HOST: usize = 128;

pub const NOTICE_REALM: usize = 256;

// THE ANSWER

// The first eight bytes of an AVP of ours, whose length is n.
fn put_head(room: &mut [u8], at: usize, code: u32, n: usize)
    requires { at + 8 ≤ length room.old }
    ensures { room.new ≡ put room.old at (head_bytes code n) }
{
    let [a, b, c, d] = code.to_be_bytes();
    let [.., x, y, z] = n.to_be_bytes();
    octets::put_bytes(room, at, &[a, b, c, d, 64, x, y, z]);
}

// An AVP of ours with a text, and the place behind it. The last word of its room is zeroed first, for the padding.
pub fn put_avp(room: &mut [u8], at: usize, code: u32, value: &[u8]) -> usize
    requires { (length value.now ≤ 128) × (at + length value.now + 12 ≤ length room.old) }
    ensures { Written room.old room.new at result (avp_bytes code value.now) }
{
    let n = value.len();
    let next = at + 8 + (n + 3) / 4 * 4;
    let padding = [0u8; 4];
    octets::put_bytes(room, next - 4, &padding);
    put_head(room, at, code, 8 + n);
    texts::put_name(room, at + 8, value);
    next
}

// An AVP of ours with a number, which two bytes hold, and the place behind it.
pub fn put_number(room: &mut [u8], at: usize, code: u32, n: u32) -> usize
    requires { (at + 12 ≤ length room.old) × (n < 65536) }
    ensures { Written room.old room.new at result (avp_bytes code (in32 n)) }
{
    let [a, b, c, d] = code.to_be_bytes();
    let [.., x, y] = n.to_be_bytes();
    octets::put_bytes(room, at, &[a, b, c, d, 64, 0, 0, 12, 0, 0, x, y]);
    at + 12
}

// The length of the first AVP where the answer repeats it: a Session-Id that passes the four tests, with 1 to 128 bytes.
fn session_length(m: &[u8]) -> Option<usize>
    requires { 20 ≤ length m.now }
    ensures { MatchOption result (session_avp m.now ≡ []) (SessionOf m.now) }
{
    if m.len() < 28 {
        return None;
    }
    let flags = m[24];
    if flags % 32 != 0 {
        return None;
    }
    if 128 <= flags {
        return None;
    }
    if octets::read32(m, message::HEADER_LENGTH) != 263 {
        return None;
    }
    let n = octets::read24(m, 25);
    if n < 9 {
        return None;
    }
    if 136 < n {
        return None;
    }
    if m.len() - message::HEADER_LENGTH < (n + 3) / 4 * 4 {
        return None;
    }
    Some(n)
}

// Session-Id, from the first AVP alone, behind the header.
pub fn put_session(m: &[u8], room: &mut [u8]) -> usize
    requires { (20 ≤ length m.now) × (512 ≤ length room.old) }
    ensures { Written room.old room.new 20 result (session_avp m.now) }
{
    let Some(n) = session_length(m) else {
        return message::HEADER_LENGTH;
    };
    let e = message::HEADER_LENGTH + n;
    put_avp(room, message::HEADER_LENGTH, 263, &m[28..e])
}

// Auth-Application-Id and Auth-Request-Type of a 265, unless the code is 3xxx.
fn put_auth(m: &[u8], code: u32, room: &mut [u8], at: usize) -> usize
    requires { (20 ≤ length m.now) × (at + 24 ≤ length room.old) }
    ensures { Written room.old room.new at result (auth_avps m.now (plain code)) }
{
    if octets::read24(m, 5) != 265 {
        return at;
    }
    if is_3xxx(code) {
        return at;
    }
    let next = put_number(room, at, 258, 1);
    put_number(room, next, 274, 2)
}

fn is_3xxx(code: u32) -> bool
    ensures { result ≡ is3xxx (plain code) }
{
    matches!(code, 3000..=3999)
}

// Result-Code, or Experimental-Result with its vendor and its number.
fn put_result(kind: Kind, code: u32, room: &mut [u8], at: usize) -> usize
    requires { (at + 32 ≤ length room.old) × (code < 65536) }
    ensures { Written room.old room.new at result (result_avp (code_from kind code)) }
{
    match kind {
        Kind::NoAnswer => at,
        Kind::Plain => put_number(room, at, 268, code),
        Kind::Experimental => {
            put_head(room, at, 297, 32);
            let next = put_number(room, at + 8, 266, 10415);
            put_number(room, next, 298, code)
        }
    }
}

// Subscription-Id of a 265 that succeeds: type 1 and the name.
fn put_subscription(m: &[u8], code: u32, user: Span, room: &mut [u8], at: usize) -> usize
    requires { (20 ≤ length m.now) × (at + 168 ≤ length room.old) × (command m.now ≡ 265 → code ≡ 2001 → Holds m.now user_name user) × (command m.now ≡ 265 → code ≡ 2001 → user.len ≤ 128) }
    ensures { Written room.old room.new at result (subscription_avp m.now (plain code)) }
{
    if octets::read24(m, 5) != 265 {
        return at;
    }
    if code != 2001 {
        return at;
    }
    let a = user.at;
    let n = user.len;
    let e = a + n;
    let whole = (n + 3) / 4 * 4;
    put_head(room, at, 443, 28 + whole);
    let next = put_number(room, at + 8, 450, 1);
    put_avp(room, next, 444, &m[a..e])
}

// Whether the AVP at a place is a Proxy-Info.
fn is_proxy(m: &[u8], at: usize) -> bool
    requires { at + 8 ≤ length m.now }
    ensures { result ≡ same_name proxy_info (avp_of (drop at m.now)).name }
{
    m[at + 4] < 128 && octets::read32(m, at) == 284
}

// The message from one place to another written into the room, and the place behind it there.
fn put_stretch(m: &[u8], start: usize, end: usize, room: &mut [u8], to: usize) -> usize
    requires { (start ≤ end) × (end ≤ length m.now) × (to + (end - start) ≤ length room.old) }
    ensures { Written room.old room.new to result (part m.now start (end - start)) }
{
    if start == end {
        return to;
    }
    texts::put_text(room, to, &m[start..end]);
    to + (end - start)
}

// Each Proxy-Info with its padding, those that stand together as one stretch: a second walk over AVPs that all passed,
// made only where there is one to copy. Whoever calls says so, since each side has header tests of its own.
pub fn put_proxies(m: &[u8], proxies: bool, room: &mut [u8], at: usize) -> usize
    requires { (20 ≤ length m.now) × (at + length m.now ≤ length room.old) × (proxies ≡ true → walk_code m.now ≡ 0) }
    ensures { Written room.old room.new at result (copied proxies m.now) }
{
    if !proxies {
        return at;
    }
    let mut to = at;
    let mut start: usize = message::HEADER_LENGTH;
    let mut from: usize = message::HEADER_LENGTH;
    // An index loop: the length that each AVP says is the step to the next.
    while from < m.len() {
        let next = from + (octets::read24(m, from + 5) + 3) / 4 * 4;
        if !is_proxy(m, from) {
            to = put_stretch(m, start, from, room, to);
            start = next;
        }
        from = next;
    }
    put_stretch(m, start, from, room, to)
}

// The flags: P as received, E for a 3xxx.
fn answer_flags(m: &[u8], code: u32) -> u8
    requires { 20 ≤ length m.now }
    ensures { result ≡ answer_flags m.now (plain code) }
{
    let p = m[4] / 64 % 2 * 64;
    if is_3xxx(code) { p + 32 } else { p }
}

// The header of an answer of n bytes, which two bytes hold.
pub fn put_header(m: &[u8], code: u32, n: usize, room: &mut [u8])
    requires { (20 ≤ length m.now) × (20 ≤ length room.old) × (n < 65536) }
    ensures { room.new ≡ put room.old 0 (answer_head m.now (plain code) n) }
{
    let [.., x, y] = n.to_be_bytes();
    octets::put_bytes(room, 0, &[1, 0, x, y, answer_flags(m, code)]);
    texts::put_text(room, 5, &m[5..message::HEADER_LENGTH]);
}

// The answer of a kind and a code at the start of the room: its length. What stands behind it stays.
pub fn answer(
    m: &[u8],
    host: &[u8],
    realm: &[u8],
    kind: Kind,
    code: u32,
    user: Span,
    proxies: bool,
    room: &mut [u8],
) -> usize
    requires { Answerable m.now host.now realm.now code user proxies room.old }
    ensures { Answered m.now host.now realm.now (code_from kind code) result room.old room.new }
{
    let a = put_session(m, room);
    let b = put_auth(m, code, room, a);
    let c = put_result(kind, code, room, b);
    let d = put_avp(room, c, 264, host);
    let e = put_avp(room, d, 296, realm);
    let f = put_subscription(m, code, user, room, e);
    let size = put_proxies(m, proxies, room, f);
    put_header(m, code, size, room);
    size
}
