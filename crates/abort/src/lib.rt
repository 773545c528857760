// The disconnection: asking a gateway to end an access that was cut, and recognizing its answer. It stands above the server and knows
// of it only how its notice of a cut is laid out.
#![tactic(auto)]

ghost use Rattle.std.specs.Prelude.{◌≡◌, ◌≢◌, false, ◌||◌, List, ℕ, ◌+◌, ◌≤◌, ◌<◌, MatchOption, eqb, length, drop};
ghost use Rattle.octets.specs.Choice.{within};
ghost use Rattle.octets.specs.Texts.{put};
ghost use Rattle.message.specs.ReadingAMessage.{command, walk};
ghost use Rattle.message.specs.CallsThatGetNoAnswer.{message_most};
ghost use Rattle.abort.specs.TheDisconnection.{abort_least, abort_number, header, write_abort, answers_to, answers_for, belongs};
ghost use Rattle.abort.specs.Code.{Refuses, cut_of, saying, leaves, Short, Sent, passed_length, plain_code, first_length, rest_answers, spoilt};

// WRITING THE REQUEST

// The room that a request asks for.
pub const ROOM_LEAST: usize = 1024;

// A number, 0 where the request was written, and its length: the two numbers that C's `wm_abort` returns.
#[derive(Clone, Copy)]
pub struct Written {
    pub number: u32,
    pub length: usize,
}

fn is_text(n: usize) -> bool
    ensures { result ≡ within 1 128 n }
{
    1 <= n && n <= message::TEXT_MOST
}

// The number of the first test that fails, for a room of so many bytes; none where all pass.
fn number(
    host: &[u8],
    realm: &[u8],
    notice: &[u8],
    cut_session: usize,
    cut_host: usize,
    cut_realm: usize,
    size: usize,
) -> Option<u32>
    ensures { (room : List ℕ) → length room ≡ size → Refuses (abort_number host.now realm.now (cut_of notice.now cut_session cut_host cut_realm) room) result }
{
    if !is_text(host.len()) {
        return Some(2);
    }
    if !is_text(realm.len()) {
        return Some(2);
    }
    if notice.len() < answers::NOTICE_LENGTH_2 {
        return Some(4);
    }
    if !is_text(cut_session) {
        return Some(22);
    }
    if !is_text(cut_host) {
        return Some(22);
    }
    if !is_text(cut_realm) {
        return Some(22);
    }
    if size < ROOM_LEAST {
        return Some(23);
    }
    None
}

// The header of a request of n bytes, which two bytes hold.
fn put_header(room: &mut [u8], n: usize, hop: u32, end: u32)
    requires { (20 ≤ length room.old) × (n < 65536) }
    ensures { room.new ≡ put room.old 0 (header n 192 274 hop end) }
{
    let [.., x, y] = n.to_be_bytes();
    let [a, b, c, d] = hop.to_be_bytes();
    let [e, f, g, h] = end.to_be_bytes();
    let head = [
        1, 0, x, y, 192, 0, 1, 18, 0, 0, 0, 1, a, b, c, d, e, f, g, h,
    ];
    octets::put_bytes(room, 0, &head);
}

// The request at the start of the room: its length. The AVPs are written first, since the header has the length of all.
fn put_request(
    host: &[u8],
    realm: &[u8],
    session: &[u8],
    gateway_host: &[u8],
    gateway_realm: &[u8],
    hop: u32,
    end: u32,
    room: &mut [u8],
) -> usize
    requires { Short (saying host.now realm.now session.now gateway_host.now gateway_realm.now hop end) × (abort_least ≤ length room.old) }
    ensures { Sent (saying host.now realm.now session.now gateway_host.now gateway_realm.now hop end) result room.old room.new }
{
    let a = answers::put_avp(room, message::HEADER_LENGTH, 263, session);
    let b = answers::put_avp(room, a, 264, host);
    let c = answers::put_avp(room, b, 296, realm);
    let d = answers::put_avp(room, c, 283, gateway_realm);
    let e = answers::put_avp(room, d, 293, gateway_host);
    let size = answers::put_number(room, e, 258, 1);
    put_header(room, size, hop, end);
    size
}

// The Abort-Session-Request for a notice of form 2 and the lengths of its three texts, with the own names and the two identifiers: number
// 0 and its length, or 2, 4, 22, 23 with nothing written. What stands in the room behind it stays.
pub fn write(
    host: &[u8],
    realm: &[u8],
    notice: &[u8],
    cut_session: usize,
    cut_host: usize,
    cut_realm: usize,
    hop: u32,
    end: u32,
    room: &mut [u8],
) -> Written
    ensures { leaves result room.new ≡ write_abort host.now realm.now (cut_of notice.now cut_session cut_host cut_realm) hop end room.old }
{
    if let Some(number) = number(
        host,
        realm,
        notice,
        cut_session,
        cut_host,
        cut_realm,
        room.len(),
    ) {
        return Written { number, length: 0 };
    }
    let host_end = answers::NOTICE_HOST + cut_host;
    let realm_end = answers::NOTICE_REALM + cut_realm;
    let session = &notice[0..cut_session];
    let gateway_host = &notice[answers::NOTICE_HOST..host_end];
    let gateway_realm = &notice[answers::NOTICE_REALM..realm_end];
    let length = put_request(
        host,
        realm,
        session,
        gateway_host,
        gateway_realm,
        hop,
        end,
        room,
    );
    Written { number: 0, length }
}

// RECOGNIZING THE ANSWER

// Whether the command is 274: a zero byte, then 1 and 18, which are read at once.
fn is_abort(m: &[u8]) -> bool
    requires { 20 ≤ length m.now }
    ensures { result ≡ eqb (command m.now) 274 }
{
    m[5] == 0 && u16::from_be_bytes([m[6], m[7]]) == 274
}

// An answer by its header: to the request with these identifiers.
fn answers_to(answer: &[u8], hop: u32, end: u32) -> bool
    ensures { result ≡ answers_to hop end answer.now }
{
    if message::number(answer) != 8 {
        return false;
    }
    if !is_abort(answer) {
        return false;
    }
    if octets::read32(answer, 12) != hop {
        return false;
    }
    octets::read32(answer, 16) == end
}

// The length of the AVP at a place, with so many bytes left from there on, if it passes the four tests. Where the first of
// its three bytes is not zero it is past every answer, so that the other two are read at once.
fn length_at(m: &[u8], at: usize, left: usize) -> Option<usize>
    requires { (at + left ≡ length m.now) × (left ≤ message_most) }
    ensures { MatchOption result (passed_length (drop at m.now) ≡ 0) (λ n. (passed_length (drop at m.now) ≡ n) × (n ≢ 0)) }
{
    if left < 8 {
        return None;
    }
    let flags = m[at + 4];
    if flags % 32 != 0 {
        return None;
    }
    if m[at + 5] != 0 {
        return None;
    }
    let n = usize::from(m[at + 6]) * 256 + usize::from(m[at + 7]);
    if left < (n + 3) / 4 * 4 {
        return None;
    }
    if 128 <= flags {
        if n < 12 {
            return None;
        }
        return Some(n);
    }
    if n < 8 {
        return None;
    }
    Some(n)
}

// The code of the AVP at a place; 0 with V, which is no code that is looked for.
fn code_at(m: &[u8], at: usize) -> u32
    requires { at + 8 ≤ length m.now }
    ensures { result ≡ plain_code (drop at m.now) }
{
    if 128 <= m[at + 4] {
        return 0;
    }
    octets::read32(m, at)
}

// Whether an AVP behind the Session-Id, of this code and length, shows that the answer does not belong.
fn is_spoilt(found: bool, code: u32, n: usize) -> bool
    ensures { result ≡ spoilt found code n }
{
    // a second Session-Id, a second Result-Code, a Result-Code of another length
    code == 263 || (code == 268 && (found || n != 12))
}

// Whether a Result-Code is there now: one that was there before, or this AVP.
fn is_found(found: bool, code: u32) -> bool
    ensures { result ≡ found || eqb code 268 }
{
    found || code == 268
}

// The AVPs behind the Session-Id, to the end or to the first for which the answer does not belong. The number of bytes left goes along:
// the answer's length is then not looked up at each of them.
fn rest_answers(answer: &[u8], from: usize) -> bool
    requires { (from ≤ length answer.now) × (length answer.now ≤ message_most) }
    ensures { result ≡ rest_answers false (walk (drop from answer.now)) }
{
    let mut at: usize = from;
    let mut left: usize = answer.len() - from;
    let mut found: bool = false;
    // An index loop: the length that each AVP says is the step to the next.
    while left != 0 {
        let Some(n) = length_at(answer, at, left) else {
            return false;
        };
        let code = code_at(answer, at);
        if is_spoilt(found, code, n) {
            return false;
        }
        found = is_found(found, code);
        let whole = (n + 3) / 4 * 4;
        at += whole;
        left -= whole;
    }
    found
}

// The length of the first AVP, if it is a Session-Id that passes the four tests.
fn first_length(answer: &[u8]) -> Option<usize>
    requires { (28 ≤ length answer.now) × (length answer.now ≤ message_most) }
    ensures { MatchOption result (first_length (drop 20 answer.now) ≡ 0) (λ n. (first_length (drop 20 answer.now) ≡ n) × (n ≢ 0)) }
{
    if octets::read32(answer, message::HEADER_LENGTH) != 263 {
        return None;
    }
    let flags = answer[24];
    if 128 <= flags {
        return None;
    }
    if flags % 32 != 0 {
        return None;
    }
    if answer[25] != 0 {
        return None;
    }
    let n = usize::from(answer[26]) * 256 + usize::from(answer[27]);
    if n < 8 {
        return None;
    }
    if answer.len() - message::HEADER_LENGTH < (n + 3) / 4 * 4 {
        return None;
    }
    Some(n)
}

// An answer by its AVPs: for this Session-Id.
fn answers_for(answer: &[u8], session: &[u8]) -> bool
    requires { (28 ≤ length answer.now) × (length answer.now ≤ message_most) }
    ensures { result ≡ answers_for session.now (walk (drop 20 answer.now)) }
{
    let Some(n) = first_length(answer) else {
        return false;
    };
    let end = message::HEADER_LENGTH + n;
    if !octets::same_bytes(&answer[28..end], session) {
        return false;
    }
    rest_answers(answer, message::HEADER_LENGTH + (n + 3) / 4 * 4)
}

// Whether an answer belongs to the request that was sent with this Session-Id and these identifiers. One that is too short for any AVP
// does not, whatever its header says.
pub fn answered(answer: &[u8], session: &[u8], hop: u32, end: u32) -> bool
    ensures { result ≡ belongs answer.now session.now hop end }
{
    if answer.len() < 28 {
        return false;
    }
    if !answers_to(answer, hop, end) {
        return false;
    }
    answers_for(answer, session)
}
