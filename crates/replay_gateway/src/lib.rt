// A call of the gateway that a record asks for, made on the proved gateway. `r` is the record's body; the table is neither read nor written.
#![tactic(auto)]

ghost use Rattle.std.specs.Prelude.{◌+◌, ◌≤◌, length};

use gateway::Reauthorized;
use message::Kind;
use replay_verdict::{Fault, Got, Verdict, judged, number, whole_text};

fn kind_number(k: Kind) -> u32 {
    match k {
        Kind::NoAnswer => 0,
        Kind::Plain => 1,
        Kind::Experimental => 2,
    }
}

// What a call returns in the script's numbers: the length of the AA-Request stands where the place of a new access does.
fn reauthorized(g: Reauthorized) -> Got {
    let kind = g.kind;
    Got {
        code: g.code,
        kind: kind_number(kind),
        length: g.length,
        place: g.request_length,
        ..Got::default()
    }
}

// Where the texts of a call end: the own names, the access and the message. The first begins at byte 18.
#[derive(Clone, Copy)]
struct Ends {
    host: usize,
    realm: usize,
    session: usize,
    user: usize,
    label: usize,
    visited: usize,
    message: usize,
}

// The two identifiers, the two rooms, then the texts.
pub fn play_reauth(table: &[u8], r: &[u8], answer: &mut [u8], request: &mut [u8]) -> Verdict
    requires { (length r.now ≤ 65536) × (length answer.old ≤ 65536) × (length request.old ≤ 65536) }
{
    if r.len() < 18 {
        return Err(Fault::Damaged);
    }
    let host = whole_text(r, 18)?;
    let realm = whole_text(r, host)?;
    let session = whole_text(r, realm)?;
    for_access(table, r, host, realm, session, answer, request)
}

// The rest of the access behind its Session-Id, and the message.
fn for_access(
    table: &[u8],
    r: &[u8],
    host: usize,
    realm: usize,
    session: usize,
    answer: &mut [u8],
    request: &mut [u8],
) -> Verdict
    requires { (22 ≤ host) × (host + 4 ≤ realm) × (realm + 4 ≤ session) × (session ≤ length r.now) × (length r.now ≤ 65536)
        × (length answer.old ≤ 65536) × (length request.old ≤ 65536) }
{
    let user = whole_text(r, session)?;
    let label = whole_text(r, user)?;
    let visited = whole_text(r, label)?;
    let message = whole_text(r, visited)?;
    let e = Ends {
        host,
        realm,
        session,
        user,
        label,
        visited,
        message,
    };
    in_rooms(table, r, e, answer, request)
}

// The same in rooms as long as the record says.
fn in_rooms(table: &[u8], r: &[u8], e: Ends, answer: &mut [u8], request: &mut [u8]) -> Verdict
    requires { (22 ≤ e.host) × (e.host + 4 ≤ e.realm) × (e.realm + 4 ≤ e.session) × (e.session + 4 ≤ e.user) × (e.user + 4 ≤ e.label)
        × (e.label + 4 ≤ e.visited) × (e.visited + 4 ≤ e.message) × (e.message ≤ length r.now) × (length r.now ≤ 65536)
        × (length answer.old ≤ 65536) × (length request.old ≤ 65536) }
{
    let a = number(r, 8);
    let q = number(r, 13);
    if answer.len() < a || request.len() < q {
        return Err(Fault::Damaged);
    }
    in_filled(table, r, e, &mut answer[0..a], &mut request[0..q])
}

// The rooms are filled before the call.
fn in_filled(table: &[u8], r: &[u8], e: Ends, answer: &mut [u8], request: &mut [u8]) -> Verdict
    requires { (22 ≤ e.host) × (e.host + 4 ≤ e.realm) × (e.realm + 4 ≤ e.session) × (e.session + 4 ≤ e.user) × (e.user + 4 ≤ e.label)
        × (e.label + 4 ≤ e.visited) × (e.visited + 4 ≤ e.message) × (e.message ≤ length r.now) × (length r.now ≤ 65536)
        × (length answer.old ≤ 65536) × (length request.old ≤ 65536) }
{
    let seed = r[12];
    let request_seed = r[17];
    replay_script::fill(answer, seed);
    replay_script::fill(request, request_seed);
    let got = reauthorized(ask(r, e, answer, request));
    judged(
        r,
        e.message,
        got,
        table,
        answer,
        seed,
        request,
        request_seed,
    )
}

// The call itself.
fn ask(r: &[u8], e: Ends, answer: &mut [u8], request: &mut [u8]) -> Reauthorized
    requires { (22 ≤ e.host) × (e.host + 4 ≤ e.realm) × (e.realm + 4 ≤ e.session) × (e.session + 4 ≤ e.user) × (e.user + 4 ≤ e.label)
        × (e.label + 4 ≤ e.visited) × (e.visited + 4 ≤ e.message) × (e.message ≤ length r.now) }
{
    let host = e.host;
    let realm = e.realm;
    let session = e.session;
    let user = e.user;
    let label = e.label;
    let visited = e.visited;
    let message = e.message;
    let from_realm = host + 4;
    let from_session = realm + 4;
    let from_user = session + 4;
    let from_label = user + 4;
    let from_visited = label + 4;
    let from_message = visited + 4;
    gateway::reauthorize(
        &r[22..host],
        &r[from_realm..realm],
        &r[from_session..session],
        &r[from_user..user],
        &r[from_label..label],
        &r[from_visited..visited],
        &r[from_message..message],
        octets::read32(r, 0),
        octets::read32(r, 4),
        answer,
        request,
    )
}
