// A call that a record asks for, made on the proved server. `r` is the record's body, `table` the table as long as it is now.
#![tactic(auto)]

ghost use Rattle.std.specs.Prelude.{◌≡◌, ◌+◌, ◌*◌, ◌≤◌, length};

use abort::Written;
use burst::Taken;
use message::Kind;
use replay_verdict::{Fault, Got, Verdict, both, judged, number, text_end, whole_text};

// A set-up operation and a move return their number, and reading an answer yes or no.
fn set_up(code: u32) -> Got {
    Got {
        code,
        ..Got::default()
    }
}

// What writing a disconnection returns: its number, and how long the request is.
fn written(w: Written) -> Got {
    Got {
        code: w.number,
        length: w.length,
        ..Got::default()
    }
}

fn kind_number(k: Kind) -> u32 {
    match k {
        Kind::NoAnswer => 0,
        Kind::Plain => 1,
        Kind::Experimental => 2,
    }
}

// The outcome of a request in the script's numbers.
fn outcome(o: decision::Outcome) -> Got {
    let kind = o.kind;
    match o.cut {
        None => Got {
            code: o.code,
            kind: kind_number(kind),
            length: o.length,
            place: o.place,
            cut: 0,
            cut_session: 0,
            cut_host: 0,
            cut_realm: 0,
        },
        Some(cut) => Got {
            code: o.code,
            kind: kind_number(kind),
            length: o.length,
            place: o.place,
            cut: 1,
            cut_session: cut.session,
            cut_host: cut.host,
            cut_realm: cut.realm,
        },
    }
}

// The form.
pub fn play_clear(table: &mut [u8], r: &[u8]) -> Verdict
    requires { length r.now ≤ 65536 }
{
    if r.len() < 4 {
        return Err(Fault::Damaged);
    }
    let got = set_up(setup::clear(table, octets::read32(r, 0)));
    judged(r, 4, got, table, &r[0..0], 0, &r[0..0], 0)
}

// The first n shares of a record, which begin at byte 12.
fn read_shares(r: &[u8], n: usize, shares: &mut [u32; 17])
    requires { (n ≤ 17) × (12 + 4 * n ≤ length r.now) × (length shares.old ≡ 17) }
    ensures { length shares.new ≡ 17 }
{
    for i in 0..n {
        shares[i] = octets::read32(r, 12 + 4 * i);
    }
}

// An entering whose shares end at `from`, where the name's text begins.
fn enter_named(table: &mut [u8], r: &[u8], n: usize, from: usize) -> Verdict
    requires { (n ≤ 17) × (from ≡ 12 + 4 * n) × (from ≤ length r.now) × (length r.now ≤ 65536) }
{
    let e = whole_text(r, from)?;
    let mut shares = [0u32; 17];
    read_shares(r, n, &mut shares);
    let name = from + 4;
    let all: &[u32] = &shares;
    let form = octets::read32(r, 0);
    let op = octets::read32(r, 4);
    let got = set_up(setup::enter(table, form, op, &all[0..n], &r[name..e]));
    judged(r, e, got, table, &r[0..0], 0, &r[0..0], 0)
}

// The form, the operator, the number of shares, the shares, the name.
pub fn play_enter(table: &mut [u8], r: &[u8]) -> Verdict
    requires { length r.now ≤ 65536 }
{
    if r.len() < 12 {
        return Err(Fault::Damaged);
    }
    let n = number(r, 8);
    if 17 < n {
        return Err(Fault::Damaged);
    }
    let from = 12 + 4 * n;
    if r.len() < from {
        return Err(Fault::Damaged);
    }
    enter_named(table, r, n, from)
}

// The form, the operator, the name, the label, the limit and the flags.
pub fn play_add(table: &mut [u8], r: &[u8]) -> Verdict
    requires { length r.now ≤ 65536 }
{
    if r.len() < 8 {
        return Err(Fault::Damaged);
    }
    let form = octets::read32(r, 0);
    let op = octets::read32(r, 4);
    let e = whole_text(r, 8)?;
    let f = text_end(r, e);
    if r.len() < f + 2 {
        return Err(Fault::Damaged);
    }
    let label = e + 4;
    let got = set_up(setup::add(table, form, op, &r[12..e], &r[label..f], r[f], r[f + 1]));
    judged(r, f + 2, got, table, &r[0..0], 0, &r[0..0], 0)
}

// What stands behind the texts of a request, which the form and the operator come before: the word of the WAG, and the two rooms.
#[derive(Clone, Copy)]
pub struct Rooms {
    pub wag: bool,
    pub answer: usize,
    pub answer_seed: u8,
    pub notice: usize,
    pub notice_seed: u8,
}

pub fn rooms_at(r: &[u8], at: usize) -> Rooms
    requires { at + 11 ≤ length r.now }
{
    Rooms {
        wag: r[at] == 1,
        answer: number(r, at + 1),
        answer_seed: r[at + 5],
        notice: number(r, at + 6),
        notice_seed: r[at + 10],
    }
}

pub fn play_handle(table: &mut [u8], r: &[u8], answer: &mut [u8], notice: &mut [u8]) -> Verdict
    requires { (length r.now ≤ 65536) × (length answer.old ≤ 65536) × (length notice.old ≤ 65536) }
{
    if r.len() < 8 {
        return Err(Fault::Damaged);
    }
    let host = whole_text(r, 8)?;
    let realm = whole_text(r, host)?;
    let message = text_end(r, realm);
    if r.len() < message + 11 {
        return Err(Fault::Damaged);
    }
    in_rooms(table, r, host, realm, message, answer, notice)
}

// A request whose texts end at `host`, `realm` and `message`, in rooms as long as the record says.
fn in_rooms(
    table: &mut [u8],
    r: &[u8],
    host: usize,
    realm: usize,
    message: usize,
    answer: &mut [u8],
    notice: &mut [u8],
) -> Verdict
    requires { (12 ≤ host) × (host + 4 ≤ realm) × (realm + 4 ≤ message) × (message + 11 ≤ length r.now) × (length r.now ≤ 65536)
        × (length answer.old ≤ 65536) × (length notice.old ≤ 65536) }
{
    let room = rooms_at(r, message);
    let a = room.answer;
    let n = room.notice;
    if 8192 < a || answer.len() < a {
        return Err(Fault::Damaged);
    }
    if 1024 < n || notice.len() < n {
        return Err(Fault::Damaged);
    }
    request(
        table,
        r,
        host,
        realm,
        message,
        room,
        &mut answer[0..a],
        &mut notice[0..n],
    )
}

// The rooms are filled before the call.
fn request(
    table: &mut [u8],
    r: &[u8],
    host: usize,
    realm: usize,
    message: usize,
    room: Rooms,
    answer: &mut [u8],
    notice: &mut [u8],
) -> Verdict
    requires { (12 ≤ host) × (host + 4 ≤ realm) × (realm + 4 ≤ message) × (message + 11 ≤ length r.now) × (length r.now ≤ 65536)
        × (length answer.old ≤ 65536) × (length notice.old ≤ 65536) }
{
    replay_script::fill(answer, room.answer_seed);
    replay_script::fill(notice, room.notice_seed);
    ask(table, r, host, realm, message, room, answer, notice)
}

// The call itself, and what it left.
fn ask(
    table: &mut [u8],
    r: &[u8],
    host: usize,
    realm: usize,
    message: usize,
    room: Rooms,
    answer: &mut [u8],
    notice: &mut [u8],
) -> Verdict
    requires { (12 ≤ host) × (host + 4 ≤ realm) × (realm + 4 ≤ message) × (message + 11 ≤ length r.now) × (length r.now ≤ 65536)
        × (length answer.old ≤ 65536) × (length notice.old ≤ 65536) }
{
    let form = octets::read32(r, 0);
    let op = octets::read32(r, 4);
    let from_realm = host + 4;
    let from_message = realm + 4;
    let o = decision::handle(
        table,
        form,
        op,
        &r[12..host],
        &r[from_realm..realm],
        &r[from_message..message],
        room.wag,
        answer,
        notice,
    );
    judged(
        r,
        message + 11,
        outcome(o),
        table,
        answer,
        room.answer_seed,
        notice,
        room.notice_seed,
    )
}

// The form to move to, and the target room, whose seed ends the fields. The table is only read.
pub fn play_move(table: &[u8], r: &[u8], room: &mut [u8]) -> Verdict
    requires { (length r.now ≤ 65536) × (length room.old ≤ 65536) }
{
    if r.len() < 9 {
        return Err(Fault::Damaged);
    }
    let n = number(r, 4);
    if room.len() < n {
        return Err(Fault::Damaged);
    }
    move_filled(table, r, &mut room[0..n])
}

// The target is filled before the move.
fn move_filled(table: &[u8], r: &[u8], target: &mut [u8]) -> Verdict
    requires { (9 ≤ length r.now) × (length r.now ≤ 65536) × (length target.old ≤ 65536) }
{
    replay_script::fill(target, r[8]);
    move_into(table, r, target)
}

// The move itself, and what it left.
fn move_into(table: &[u8], r: &[u8], target: &mut [u8]) -> Verdict
    requires { (9 ≤ length r.now) × (length r.now ≤ 65536) × (length target.old ≤ 65536) }
{
    let got = set_up(moving::move_table(table, target, octets::read32(r, 0)));
    judged(r, 9, got, table, target, r[8], &r[0..0], 0)
}

// The three lengths, the two identifiers and the room, then the own names and the notice. The table is neither read nor written.
pub fn play_abort(table: &[u8], r: &[u8], room: &mut [u8]) -> Verdict
    requires { (length r.now ≤ 65536) × (length room.old ≤ 65536) }
{
    if r.len() < 25 {
        return Err(Fault::Damaged);
    }
    let host = whole_text(r, 25)?;
    let realm = whole_text(r, host)?;
    let notice = whole_text(r, realm)?;
    let n = number(r, 20);
    if room.len() < n {
        return Err(Fault::Damaged);
    }
    abort_filled(table, r, host, realm, notice, &mut room[0..n])
}

// The room is filled before the request is written.
fn abort_filled(
    table: &[u8],
    r: &[u8],
    host: usize,
    realm: usize,
    notice: usize,
    room: &mut [u8],
) -> Verdict
    requires { (29 ≤ host) × (host + 4 ≤ realm) × (realm + 4 ≤ notice) × (notice ≤ length r.now) × (length r.now ≤ 65536)
        × (length room.old ≤ 65536) }
{
    let seed = r[24];
    replay_script::fill(room, seed);
    let got = written(abort_into(r, host, realm, notice, room));
    judged(r, notice, got, table, room, seed, &r[0..0], 0)
}

// The request itself.
fn abort_into(r: &[u8], host: usize, realm: usize, notice: usize, room: &mut [u8]) -> Written
    requires { (29 ≤ host) × (host + 4 ≤ realm) × (realm + 4 ≤ notice) × (notice ≤ length r.now) × (length r.now ≤ 65536) }
{
    let from_realm = host + 4;
    let from_notice = realm + 4;
    abort::write(
        &r[29..host],
        &r[from_realm..realm],
        &r[from_notice..notice],
        number(r, 0),
        number(r, 4),
        number(r, 8),
        octets::read32(r, 12),
        octets::read32(r, 16),
        room,
    )
}

// Yes is 1.
fn yes(belongs: bool) -> u32 {
    u32::from(belongs)
}

// The two identifiers, the Session-Id and the answer.
pub fn play_answered(table: &[u8], r: &[u8]) -> Verdict
    requires { length r.now ≤ 65536 }
{
    if r.len() < 8 {
        return Err(Fault::Damaged);
    }
    let session = whole_text(r, 8)?;
    let answer = whole_text(r, session)?;
    let from = session + 4;
    let belongs = abort::answered(
        &r[from..answer],
        &r[12..session],
        octets::read32(r, 0),
        octets::read32(r, 4),
    );
    let got = set_up(yes(belongs));
    judged(r, answer, got, table, &r[0..0], 0, &r[0..0], 0)
}

// A BURST

// What a burst returns. Bytes and messages taken are no more than the record brings, and no more is written than the rooms have, so that all fit.
fn taken(t: Taken) -> Got {
    Got {
        code: t.number,
        kind: small(t.messages),
        length: t.bytes,
        place: t.answers,
        cut: small(t.notices),
        ..Got::default()
    }
}

// A number of 32 bits; no record expects one that is larger.
fn small(n: usize) -> u32 {
    n.min(4294967295) as u32
}

// Where the texts of a burst end: own host, own realm, messages, words of the WAG.
#[derive(Clone, Copy)]
struct Ends {
    host: usize,
    realm: usize,
    messages: usize,
    words: usize,
}

// The form, the operator, the texts, the two rooms, the places for results and what stands in them afterwards.
pub fn play_burst(table: &mut [u8], r: &[u8], answer: &mut [u8], notice: &mut [u8]) -> Verdict
    requires { (length r.now ≤ 65536) × (length answer.old ≤ 65536) × (length notice.old ≤ 65536) }
{
    if r.len() < 8 {
        return Err(Fault::Damaged);
    }
    let host = whole_text(r, 8)?;
    let realm = whole_text(r, host)?;
    let messages = whole_text(r, realm)?;
    let words = text_end(r, messages);
    if r.len() < words + 14 {
        return Err(Fault::Damaged);
    }
    burst_in_bounds(
        table,
        r,
        Ends {
            host,
            realm,
            messages,
            words,
        },
        answer,
        notice,
    )
}

// A burst of at most 40,960 bytes with at most 16 words and 16 places, whose results the record holds.
fn burst_in_bounds(
    table: &mut [u8],
    r: &[u8],
    e: Ends,
    answer: &mut [u8],
    notice: &mut [u8],
) -> Verdict
    requires { (12 ≤ e.host) × (e.host + 4 ≤ e.realm) × (e.realm + 4 ≤ e.messages) × (e.messages + 4 ≤ e.words) × (e.words + 14 ≤ length r.now)
        × (length r.now ≤ 65536) × (length answer.old ≤ 65536) × (length notice.old ≤ 65536) }
{
    let places = number(r, e.words + 10);
    if 40964 < e.messages - e.realm || 20 < e.words - e.messages {
        return Err(Fault::Damaged);
    }
    if 16 < places || r.len() < e.words + 14 + 32 * places {
        return Err(Fault::Damaged);
    }
    burst_in_rooms(table, r, e, places, answer, notice)
}

// The same in rooms as long as the record says.
fn burst_in_rooms(
    table: &mut [u8],
    r: &[u8],
    e: Ends,
    places: usize,
    answer: &mut [u8],
    notice: &mut [u8],
) -> Verdict
    requires { (12 ≤ e.host) × (e.host + 4 ≤ e.realm) × (e.realm + 4 ≤ e.messages) × (e.messages + 4 ≤ e.words)
        × (places ≤ 16) × (e.words + 14 + 32 * places ≤ length r.now)
        × (length r.now ≤ 65536) × (length answer.old ≤ 65536) × (length notice.old ≤ 65536) }
{
    let a = number(r, e.words);
    let n = number(r, e.words + 5);
    if answer.len() < a || notice.len() < n {
        return Err(Fault::Damaged);
    }
    burst_filled(table, r, e, places, &mut answer[0..a], &mut notice[0..n])
}

// The rooms and the places are filled before the call.
fn burst_filled(
    table: &mut [u8],
    r: &[u8],
    e: Ends,
    places: usize,
    answer: &mut [u8],
    notice: &mut [u8],
) -> Verdict
    requires { (12 ≤ e.host) × (e.host + 4 ≤ e.realm) × (e.realm + 4 ≤ e.messages) × (e.messages + 4 ≤ e.words)
        × (places ≤ 16) × (e.words + 14 + 32 * places ≤ length r.now)
        × (length r.now ≤ 65536) × (length answer.old ≤ 65536) × (length notice.old ≤ 65536) }
{
    replay_script::fill(answer, r[e.words + 4]);
    replay_script::fill(notice, r[e.words + 9]);
    let mut results = [[0u32; 8]; 16];
    fill_places(&mut results);
    burst_on(table, r, e, answer, notice, &mut results[0..places])
}

// The i-th place before a call: number k of it, from 0 on, is 900 + 8 i + k.
fn fresh(i: usize) -> [u32; 8] {
    if 16 <= i {
        return [0; 8];
    }
    let n = (900 + 8 * i) as u32;
    [n, n + 1, n + 2, n + 3, n + 4, n + 5, n + 6, n + 7]
}

fn fill_places(results: &mut [[u32; 8]]) {
    for (i, place) in results.iter_mut().enumerate() {
        *place = fresh(i);
    }
}

// The call itself, and what it left.
fn burst_on(
    table: &mut [u8],
    r: &[u8],
    e: Ends,
    answer: &mut [u8],
    notice: &mut [u8],
    results: &mut [[u32; 8]],
) -> Verdict
    requires { (12 ≤ e.host) × (e.host + 4 ≤ e.realm) × (e.realm + 4 ≤ e.messages) × (e.messages + 4 ≤ e.words)
        × (e.words + 14 + 32 * length results.old ≤ length r.now)
        × (length r.now ≤ 65536) × (length answer.old ≤ 65536) × (length notice.old ≤ 65536) }
{
    let got = taken(call_burst(table, r, e, answer, notice, results));
    burst_left(r, e.words, got, table, answer, notice, results)
}

// What a burst left, whose texts end at `words`.
fn burst_left(
    r: &[u8],
    words: usize,
    got: Got,
    table: &[u8],
    answer: &[u8],
    notice: &[u8],
    results: &[[u32; 8]],
) -> Verdict
    requires { (words + 14 + 32 * length results.now ≤ length r.now)
        × (length r.now ≤ 65536) × (length answer.now ≤ 65536) × (length notice.now ≤ 65536) }
{
    let from = words + 14;
    let at = from + 32 * results.len();
    let in_places = replay_verdict::results(r, from, results);
    let left = judged(
        r,
        at,
        got,
        table,
        answer,
        r[words + 4],
        notice,
        r[words + 9],
    );
    both(in_places, left)
}

fn call_burst(
    table: &mut [u8],
    r: &[u8],
    e: Ends,
    answer: &mut [u8],
    notice: &mut [u8],
    results: &mut [[u32; 8]],
) -> Taken
    requires { (12 ≤ e.host) × (e.host + 4 ≤ e.realm) × (e.realm + 4 ≤ e.messages) × (e.messages + 4 ≤ e.words) × (e.words ≤ length r.now)
        × (length r.now ≤ 65536) }
{
    let host = e.host;
    let realm = e.realm;
    let messages = e.messages;
    let words = e.words;
    let from_realm = host + 4;
    let from_messages = realm + 4;
    let from_words = messages + 4;
    burst::burst(
        table,
        octets::read32(r, 0),
        octets::read32(r, 4),
        &r[12..host],
        &r[from_realm..realm],
        &r[from_messages..messages],
        &r[from_words..words],
        answer,
        notice,
        results,
    )
}
