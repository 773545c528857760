// Re-authorization at the gateway: a Re-Auth-Request is answered for one access that is lent, and where it is good the AA-Request for that
// access is written beside the answer.
#![tactic(auto)]

ghost use Rattle.std.specs.Prelude.{◌≡◌, false, Err, ◌&&◌, ◌+◌, ◌≤◌, ◌<◌, leb, length};
ghost use Rattle.octets.specs.Choice.{within};
ghost use Rattle.octets.specs.Texts.{put};
ghost use Rattle.message.specs.TheRooms.{answer_least};
ghost use Rattle.message.specs.Codes.{plain};
ghost use Rattle.message.specs.ReadingAMessage.{avps, present, proxy_info, walk_code};
ghost use Rattle.message.specs.Positions.{Gathered};
ghost use Rattle.message.specs.Failures.{failed_with};
ghost use Rattle.message.specs.WritingTheAnswer.{result_avp};
ghost use Rattle.answers.specs.Answers.{Written};
ghost use Rattle.gateway.specs.TheGateway.{call_number, header_code, list_code, reauthorize, visited_avp, vendor_avp};
ghost use Rattle.gateway.specs.Code.{Answerable, FieldsOf, HeardOf, Replied, Sendable, Sent, access_avps, call_of, fields_code, from_of, access_of, leaves, name_avps, number_by, request_head, rest_code, vendor_head};

use message::{Failure, Kind, Sender};

// A code and its kind, or the number of a call that gets no answer; the length of the answer, and of the AA-Request, 0 where there is none.
#[derive(Clone, Copy)]
pub struct Reauthorized {
    pub code: u32,
    pub kind: Kind,
    pub length: usize,
    pub request_length: usize,
}

// CALLS THAT GET NO ANSWER

fn is_within(n: usize, low: usize, high: usize) -> bool
    ensures { result ≡ within low high n }
{
    low <= n && n <= high
}

// Whether the texts of the access have lengths that they may have; a visited network of no bytes is none.
fn access_fits(session: usize, user: usize, label: usize, visited: usize) -> bool
    ensures { result ≡ within 1 128 session && (within 1 128 user && (within 1 100 label && leb visited 128)) }
{
    is_within(session, 1, message::TEXT_MOST)
        && is_within(user, 1, message::TEXT_MOST)
        && is_within(label, 1, message::LABEL_MOST)
        && visited <= message::TEXT_MOST
}

// The number of the first test that fails, by the lengths of the own names and of both rooms, and by whether the access fits.
fn number(host: usize, realm: usize, answer: usize, request: usize, fits: bool, m: &[u8]) -> u32
    ensures { result ≡ number_by host realm answer request fits m.now }
{
    if !is_within(host, 1, message::TEXT_MOST) {
        return 2;
    }
    if !is_within(realm, 1, message::TEXT_MOST) {
        return 2;
    }
    if answer < answers::ANSWER_LEAST {
        return 3;
    }
    if request < answers::ANSWER_LEAST {
        return 3;
    }
    if !fits {
        return 22;
    }
    message::number(m)
}

// READING THE RE-AUTH-REQUEST

// The header tests, up to the first that fails.
fn test_header(m: &[u8]) -> Result<(), Failure>
    requires { 20 ≤ length m.now }
    ensures { failed_with result ≡ header_code m.now }
{
    let flags = m[4];
    if flags % 16 != 0 {
        return Err(Failure::InvalidBitInHeader);
    }
    if flags / 32 % 2 != 0 {
        return Err(Failure::InvalidHeaderBits);
    }
    if octets::read24(m, 5) != 258 {
        return Err(Failure::CommandUnsupported);
    }
    if octets::read32(m, 8) != 1 {
        return Err(Failure::ApplicationUnsupported);
    }
    Ok(())
}

// The two fields behind the five of the server's requests.
fn test_rest(m: &[u8], index: &[usize]) -> Result<(), Failure>
    requires { (20 ≤ length m.now) × (walk_code m.now ≡ 0) × Gathered m.now index.now }
    ensures { failed_with result ≡ rest_code (avps m.now) }
{
    let host = message::text_field(m, index, message::DESTINATION_HOST, 1, message::TEXT_MOST)?;
    let Some(_) = host else {
        return Err(Failure::MissingAvp);
    };
    let kind = message::number_field(m, index, message::RE_AUTH_REQUEST_TYPE, 0, 0)?;
    let Some(_) = kind else {
        return Err(Failure::MissingAvp);
    };
    Ok(())
}

// The list of a Re-Auth-Request.
fn list(m: &[u8], index: &[usize]) -> Result<Sender, Failure>
    requires { (20 ≤ length m.now) × (walk_code m.now ≡ 0) × Gathered m.now index.now }
    ensures { FieldsOf m.now (list_code (avps m.now)) result }
{
    let from = request::first_five(m, index)?;
    test_rest(m, index)?;
    Ok(from)
}

// The list, then that the Session-Id is that of the access.
fn fields(m: &[u8], index: &[usize], own: &[u8]) -> Result<Sender, Failure>
    requires { (20 ≤ length m.now) × (walk_code m.now ≡ 0) × Gathered m.now index.now }
    ensures { FieldsOf m.now (fields_code own.now (avps m.now)) result }
{
    let from = list(m, index)?;
    let a = from.session.at;
    let e = a + from.session.len;
    if !octets::same_bytes(&m[a..e], own) {
        return Err(Failure::UnknownSessionId);
    }
    Ok(from)
}

// Whether there is a Proxy-Info.
fn proxies_seen(m: &[u8], index: &[usize]) -> bool
    requires { Gathered m.now index.now }
    ensures { result ≡ present proxy_info (avps m.now) }
{
    index[message::PROXY_INFO] != 0
}

// A whole message: its fields, and whether the answer has a Proxy-Info to copy.
#[derive(Clone, Copy)]
pub struct Heard {
    pub fields: Result<Sender, Failure>,
    pub proxies: bool,
}

// A message that is refused before its list is read.
fn refused(f: Failure) -> Heard
    ensures { result ≡ record { fields = Err f; proxies = false } }
{
    Heard {
        fields: Err(f),
        proxies: false,
    }
}

// Header tests, the walk, the list and the Session-Id.
fn read(m: &[u8], own: &[u8]) -> Heard
    requires { 20 ≤ length m.now }
    ensures { HeardOf own.now m.now result }
{
    if let Err(f) = test_header(m) {
        return refused(f);
    }
    let mut index = [0usize; message::INDEX_LENGTH];
    if let Err(f) = message::gather(m, &mut index) {
        return refused(f);
    }
    let proxies = proxies_seen(m, &index);
    let fields = fields(m, &index, own);
    Heard { fields, proxies }
}

// WRITING THE RE-AUTH-ANSWER

// Result-Code.
fn put_code(room: &mut [u8], at: usize, code: u32) -> usize
    requires { at + 16 ≤ length room.old }
    ensures { Written room.old room.new at result (result_avp (plain code)) }
{
    answers::put_avp(room, at, 268, &code.to_be_bytes())
}

// The answer at the start of its room: its length. What stands behind it stays.
fn put_answer(
    m: &[u8],
    host: &[u8],
    realm: &[u8],
    code: u32,
    proxies: bool,
    room: &mut [u8],
) -> usize
    requires { Answerable m.now host.now realm.now proxies room.old }
    ensures { Replied m.now host.now realm.now code result room.old room.new }
{
    let a = answers::put_session(m, room);
    let b = put_code(room, a, code);
    let c = answers::put_avp(room, b, 264, host);
    let d = answers::put_avp(room, c, 296, realm);
    let size = answers::put_proxies(m, proxies, room, d);
    answers::put_header(m, code, size, room);
    size
}

// WRITING THE AA-REQUEST

// The first twelve bytes of an AVP of 3GPP, whose length is n.
fn put_vendor_head(room: &mut [u8], at: usize, code: u32, n: usize)
    requires { at + 12 ≤ length room.old }
    ensures { room.new ≡ put room.old at (vendor_head code n) }
{
    let [a, b, c, d] = code.to_be_bytes();
    let [.., x, y, z] = n.to_be_bytes();
    octets::put_bytes(room, at, &[a, b, c, d, 192, x, y, z, 0, 0, 40, 175]);
}

// An AVP of 3GPP, and the place behind it. The last word of its room is zeroed first, for the padding.
fn put_vendor(room: &mut [u8], at: usize, code: u32, value: &[u8]) -> usize
    requires { (length value.now ≤ 4096) × (at + length value.now + 16 ≤ length room.old) }
    ensures { Written room.old room.new at result (vendor_avp code value.now) }
{
    let n = value.len();
    let next = at + 12 + (n + 3) / 4 * 4;
    let padding = [0u8; 4];
    octets::put_bytes(room, next - 4, &padding);
    put_vendor_head(room, at, code, 12 + n);
    octets::put_bytes(room, at + 12, value);
    next
}

// The visited network, if there is one.
fn put_visited(room: &mut [u8], at: usize, visited: &[u8]) -> usize
    requires { (length visited.now ≤ 4096) × (at + length visited.now + 16 ≤ length room.old) }
    ensures { Written room.old room.new at result (visited_avp visited.now) }
{
    if visited.len() == 0 {
        return at;
    }
    put_vendor(room, at, 600, visited)
}

// The first seven AVPs, behind the header.
fn put_names(
    session: &[u8],
    host: &[u8],
    realm: &[u8],
    from_host: &[u8],
    from_realm: &[u8],
    room: &mut [u8],
) -> usize
    requires { (length session.now ≤ 128) × (length host.now ≤ 128) × (length realm.now ≤ 128) × (length from_host.now ≤ 128) × (length from_realm.now ≤ 128) × (answer_least ≤ length room.old) }
    ensures { Written room.old room.new 20 result (name_avps session.now host.now realm.now from_host.now from_realm.now) }
{
    let a = answers::put_avp(room, message::HEADER_LENGTH, 263, session);
    let b = answers::put_number(room, a, 258, 1);
    let c = answers::put_avp(room, b, 264, host);
    let d = answers::put_avp(room, c, 296, realm);
    let e = answers::put_avp(room, d, 283, from_realm);
    let f = answers::put_number(room, e, 274, 2);
    answers::put_avp(room, f, 293, from_host)
}

// The four AVPs behind them, of the access.
fn put_access(user: &[u8], label: &[u8], visited: &[u8], room: &mut [u8], at: usize) -> usize
    requires { (length user.now ≤ 128) × (length label.now ≤ 128) × (length visited.now ≤ 128) × (at + 1024 ≤ length room.old) }
    ensures { Written room.old room.new at result (access_avps user.now label.now visited.now) }
{
    let zero = [0u8; 4];
    let a = answers::put_avp(room, at, 1, user);
    let b = put_vendor(room, a, 311, &zero);
    let c = put_visited(room, b, visited);
    put_vendor(room, c, 100, label)
}

// The header of an AA-Request of n bytes, which two bytes hold.
fn put_request_head(room: &mut [u8], n: usize, hop: u32, end: u32)
    requires { (20 ≤ length room.old) × (n < 65536) }
    ensures { room.new ≡ put room.old 0 (request_head n hop end) }
{
    let [.., x, y] = n.to_be_bytes();
    let [a, b, c, d] = hop.to_be_bytes();
    let [e, f, g, h] = end.to_be_bytes();
    octets::put_bytes(
        room,
        0,
        &[1, 0, x, y, 192, 0, 1, 9, 0, 0, 0, 1, a, b, c, d, e, f, g, h],
    );
}

// The AA-Request at the start of its room: its length. What stands behind it stays.
fn put_request(
    host: &[u8],
    realm: &[u8],
    from_host: &[u8],
    from_realm: &[u8],
    session: &[u8],
    user: &[u8],
    label: &[u8],
    visited: &[u8],
    hop: u32,
    end: u32,
    room: &mut [u8],
) -> usize
    requires { Sendable host.now realm.now (from_of from_host.now from_realm.now) (access_of session.now user.now label.now visited.now) room.old }
    ensures { Sent host.now realm.now (from_of from_host.now from_realm.now) (access_of session.now user.now label.now visited.now) hop end result room.old room.new }
{
    let a = put_names(session, host, realm, from_host, from_realm, room);
    let size = put_access(user, label, visited, room, a);
    put_request_head(room, size, hop, end);
    size
}

// WHAT A CALL LEAVES

// The answer, and on going on the AA-Request, of a call that gets an answer.
fn reply(
    host: &[u8],
    realm: &[u8],
    session: &[u8],
    user: &[u8],
    label: &[u8],
    visited: &[u8],
    message: &[u8],
    hop: u32,
    end: u32,
    answer: &mut [u8],
    request: &mut [u8],
) -> Reauthorized
    requires { call_number (call_of host.now realm.now session.now user.now label.now visited.now message.now hop end answer.old request.old) ≡ 0 }
    ensures { leaves result answer.new request.new ≡ reauthorize (call_of host.now realm.now session.now user.now label.now visited.now message.now hop end answer.old request.old) }
{
    let heard = read(message, session);
    let proxies = heard.proxies;
    let fields = heard.fields;
    let from = match fields {
        Ok(from) => from,
        Err(f) => {
            let code = f.code();
            let length = put_answer(message, host, realm, code, proxies, answer);
            return Reauthorized {
                code,
                kind: Kind::Plain,
                length,
                request_length: 0,
            };
        }
    };
    let a = from.host.at;
    let a_end = a + from.host.len;
    let b = from.realm.at;
    let b_end = b + from.realm.len;
    let length = put_answer(message, host, realm, 2001, proxies, answer);
    let request_length = put_request(
        host,
        realm,
        &message[a..a_end],
        &message[b..b_end],
        session,
        user,
        label,
        visited,
        hop,
        end,
        request,
    );
    Reauthorized {
        code: 2001,
        kind: Kind::Plain,
        length,
        request_length,
    }
}

// One Re-Auth-Request for the access that is lent: Session-Id, user, label, and a visited network or no bytes. Numbers 2, 3, 22 and 5 to 8 with
// nothing written; else the Re-Auth-Answer, and with 2001 the AA-Request under the caller's identifiers.
pub fn reauthorize(
    host: &[u8],
    realm: &[u8],
    session: &[u8],
    user: &[u8],
    label: &[u8],
    visited: &[u8],
    message: &[u8],
    hop: u32,
    end: u32,
    answer: &mut [u8],
    request: &mut [u8],
) -> Reauthorized
    ensures { leaves result answer.new request.new ≡ reauthorize (call_of host.now realm.now session.now user.now label.now visited.now message.now hop end answer.old request.old) }
{
    let fits = access_fits(session.len(), user.len(), label.len(), visited.len());
    let n = number(
        host.len(),
        realm.len(),
        answer.len(),
        request.len(),
        fits,
        message,
    );
    if n != 0 {
        return Reauthorized {
            code: n,
            kind: Kind::NoAnswer,
            length: 0,
            request_length: 0,
        };
    }
    reply(
        host, realm, session, user, label, visited, message, hop, end, answer, request,
    )
}
