// A judgement that a record asks for (W10), made by the proved judge. `r` is the record's body; the table is the row before, and becomes the row that is due.
#![tactic(auto)]

ghost use Rattle.std.specs.Prelude.{◌+◌, ◌≤◌, length};

use judge::Found;
use replay_calls::{Rooms, rooms_at};
use replay_verdict::{Fault, Got, Verdict, judged, text_end, whole_text};

// What judging returns in the script's numbers: the mismatch stands where the kind of a code does, its byte where the length of an answer does.
fn found(f: Found) -> Got {
    Got {
        code: f.number,
        kind: f.mismatch,
        length: f.at,
        ..Got::default()
    }
}

// Where the texts of a judgement end: the own names, the request, the row after, the old server's answer and the notice that it told. The first
// begins at byte 8; the word of the WAG and the two rooms stand between the request and the row after.
#[derive(Clone, Copy)]
struct Ends {
    host: usize,
    realm: usize,
    message: usize,
    after: usize,
    theirs: usize,
    told: usize,
}

// The form, the operator, and a request as a call of the server brings it.
pub fn play_judge(table: &mut [u8], r: &[u8], answer: &mut [u8], notice: &mut [u8]) -> Verdict
    requires { (length r.now ≤ 65536) × (length answer.old ≤ 65536) × (length notice.old ≤ 65536) }
{
    if r.len() < 8 {
        return Err(Fault::Damaged);
    }
    let host = whole_text(r, 8)?;
    let realm = whole_text(r, host)?;
    let message = text_end(r, realm);
    if r.len() < message + 11 {
        return Err(Fault::Damaged);
    }
    of_the_old(table, r, host, realm, message, answer, notice)
}

// Then what the old server made of it.
fn of_the_old(
    table: &mut [u8],
    r: &[u8],
    host: usize,
    realm: usize,
    message: usize,
    answer: &mut [u8],
    notice: &mut [u8],
) -> Verdict
    requires { (12 ≤ host) × (host + 4 ≤ realm) × (realm + 4 ≤ message) × (message + 11 ≤ length r.now) × (length r.now ≤ 65536)
        × (length answer.old ≤ 65536) × (length notice.old ≤ 65536) }
{
    let after = whole_text(r, message + 11)?;
    let theirs = whole_text(r, after)?;
    let told = whole_text(r, theirs)?;
    let e = Ends {
        host,
        realm,
        message,
        after,
        theirs,
        told,
    };
    in_rooms(table, r, e, answer, notice)
}

// The same in rooms as long as the record says.
fn in_rooms(table: &mut [u8], r: &[u8], e: Ends, answer: &mut [u8], notice: &mut [u8]) -> Verdict
    requires { (12 ≤ e.host) × (e.host + 4 ≤ e.realm) × (e.realm + 4 ≤ e.message) × (e.message + 15 ≤ e.after) × (e.after + 4 ≤ e.theirs)
        × (e.theirs + 4 ≤ e.told) × (e.told ≤ length r.now) × (length r.now ≤ 65536)
        × (length answer.old ≤ 65536) × (length notice.old ≤ 65536) }
{
    let room = rooms_at(r, e.message);
    let a = room.answer;
    let n = room.notice;
    if answer.len() < a || notice.len() < n {
        return Err(Fault::Damaged);
    }
    in_filled(table, r, e, room, &mut answer[0..a], &mut notice[0..n])
}

// The rooms are filled before the call.
fn in_filled(
    table: &mut [u8],
    r: &[u8],
    e: Ends,
    room: Rooms,
    answer: &mut [u8],
    notice: &mut [u8],
) -> Verdict
    requires { (12 ≤ e.host) × (e.host + 4 ≤ e.realm) × (e.realm + 4 ≤ e.message) × (e.message + 15 ≤ e.after) × (e.after + 4 ≤ e.theirs)
        × (e.theirs + 4 ≤ e.told) × (e.told ≤ length r.now) × (length r.now ≤ 65536)
        × (length answer.old ≤ 65536) × (length notice.old ≤ 65536) }
{
    replay_script::fill(answer, room.answer_seed);
    replay_script::fill(notice, room.notice_seed);
    let got = found(ask(table, r, e, room.wag, answer, notice));
    judged(
        r,
        e.told,
        got,
        table,
        answer,
        room.answer_seed,
        notice,
        room.notice_seed,
    )
}

// The judgement itself.
fn ask(
    table: &mut [u8],
    r: &[u8],
    e: Ends,
    wag: bool,
    answer: &mut [u8],
    notice: &mut [u8],
) -> Found
    requires { (12 ≤ e.host) × (e.host + 4 ≤ e.realm) × (e.realm + 4 ≤ e.message) × (e.message + 15 ≤ e.after) × (e.after + 4 ≤ e.theirs)
        × (e.theirs + 4 ≤ e.told) × (e.told ≤ length r.now) × (length r.now ≤ 65536) }
{
    let host = e.host;
    let realm = e.realm;
    let message = e.message;
    let after = e.after;
    let theirs = e.theirs;
    let told = e.told;
    let from_realm = host + 4;
    let from_message = realm + 4;
    let from_after = message + 15;
    let from_theirs = after + 4;
    let from_notice = theirs + 4;
    judge::judge(
        table,
        &r[from_after..after],
        octets::read32(r, 0),
        octets::read32(r, 4),
        &r[12..host],
        &r[from_realm..realm],
        &r[from_message..message],
        wag,
        &r[from_theirs..theirs],
        &r[from_notice..told],
        answer,
        notice,
    )
}
