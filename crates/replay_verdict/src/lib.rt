// What a call left, against what its record expects.
#![tactic(auto)]

ghost use Rattle.std.specs.Prelude.{◌&&◌, ◌≡◌, ◌+◌, ◌*◌, ◌≤◌, ◌<◌, IfOk, eqb, length};
ghost use Rattle.octets.specs.Numbers.{net32};
ghost use Rattle.replay_verdict.specs.Verdicts.{agreed, answer_numbers, as_expected, changes_from, cleared_as, cut_numbers, digests_as, numbers_at, results_at, room_as, stands_at, table_as, text_end};

use replay_script::{digest, first_unlike, is_filled};

// A call differs from what is expected: in which field, where in it, what was expected and what was got; or its record does not
// have the form of its type.
#[derive(Clone, Copy)]
pub enum Fault {
    Differs(u32, usize, usize, usize),
    Damaged,
}

// Whether a call is as expected, and why not.
pub type Verdict = Result<(), Fault>;

// The numbers that a call returns; of a set-up operation all but the first are 0. A burst has its own five: its number, how many messages and bytes were
// taken, how many bytes of answers and how many notices were written.
#[derive(Clone, Copy, Default)]
pub struct Got {
    pub code: u32,
    pub kind: u32,
    pub length: usize,
    pub place: usize,
    pub cut: u32,
    pub cut_session: usize,
    pub cut_host: usize,
    pub cut_realm: usize,
}

// What two tests say, in their order: the first that does not agree.
pub fn both(v: Verdict, w: Verdict) -> Verdict
    ensures { agreed result ≡ agreed v && agreed w }
{
    if v.is_ok() {
        return w;
    }
    v
}

// Where the text at `at` ends, whose length stands before it; past the end of `r` where it is cut off.
pub fn text_end(r: &[u8], at: usize) -> usize
    requires { (at ≤ length r.now) × (length r.now ≤ 65536) }
    ensures { (result ≡ text_end r.now at) × (at + 4 ≤ result) × (result < 8589934592) }
{
    let start = at + 4;
    if r.len() < start {
        return start;
    }
    start + number(r, at)
}

// Where the text at `at` ends, in a record that has all of it.
pub fn whole_text(r: &[u8], at: usize) -> Result<usize, Fault>
    requires { (at ≤ length r.now) × (length r.now ≤ 65536) }
    ensures { IfOk result (λ e. (at + 4 ≤ e) × (e ≤ length r.now)) }
{
    let e = text_end(r, at);
    if r.len() < e {
        return Err(Fault::Damaged);
    }
    Ok(e)
}

// The number at `at`.
pub fn number(r: &[u8], at: usize) -> usize
    requires { at + 4 ≤ length r.now }
    ensures { (result ≡ net32 r.now at) × (result < 4294967296) }
{
    octets::read32(r, at) as usize
}

fn unless(field: u32, expected: usize, got: usize) -> Verdict
    ensures { agreed result ≡ eqb expected got }
{
    if expected == got {
        return Ok(());
    }
    Err(Fault::Differs(field, 0, expected, got))
}

// The four numbers at `at`, on the answer.
fn answered(r: &[u8], at: usize, g: Got) -> Verdict
    requires { (at + 16 ≤ length r.now) × (length r.now ≤ 65536) }
    ensures { agreed result ≡ answer_numbers r.now at g }
{
    let code = unless(1, number(r, at), g.code as usize);
    let kind = unless(2, number(r, at + 4), g.kind as usize);
    let length = unless(3, number(r, at + 8), g.length);
    let place = unless(4, number(r, at + 12), g.place);
    both(code, both(kind, both(length, place)))
}

// The four numbers at `at`, on the cut.
fn cut(r: &[u8], at: usize, g: Got) -> Verdict
    requires { (at + 16 ≤ length r.now) × (length r.now ≤ 65536) }
    ensures { agreed result ≡ cut_numbers r.now at g }
{
    let made = unless(5, number(r, at), g.cut as usize);
    let session = unless(6, number(r, at + 4), g.cut_session);
    let host = unless(7, number(r, at + 8), g.cut_host);
    let realm = unless(8, number(r, at + 12), g.cut_realm);
    both(made, both(session, both(host, realm)))
}

// The text stands in front of the room; behind it the room is as before the call.
fn room(field: u32, room: &[u8], seed: u8, text: &[u8]) -> Verdict
    requires { (field < 100) × (length room.now ≤ 65536) }
    ensures { agreed result ≡ room_as seed room.now text.now }
{
    let n = text.len();
    if room.len() < n {
        return Err(Fault::Damaged);
    }
    let i = first_unlike(&room[0..n], text);
    if i < n {
        return Err(Fault::Differs(field, i, usize::from(text[i]), usize::from(room[i])));
    }
    let behind = field + 1;
    if is_filled(room, seed, n) {
        return Ok(());
    }
    Err(Fault::Differs(behind, n, 0, 0))
}

// The text stands in the table from byte `from` on.
fn change(table: &[u8], from: usize, text: &[u8]) -> Verdict
    requires { (from < 4294967296) × (length text.now ≤ 65536) }
    ensures { agreed result ≡ stands_at table.now from text.now }
{
    let n = text.len();
    let to = from + n;
    if table.len() < to {
        return Err(Fault::Damaged);
    }
    let i = first_unlike(&table[from..to], text);
    if i < n {
        return Err(Fault::Differs(
            14,
            from + i,
            usize::from(text[i]),
            usize::from(table[from + i]),
        ));
    }
    Ok(())
}

// The changes that fill `s`, `count` of them.
fn changes(table: &[u8], s: &[u8], count: usize) -> Verdict
    requires { length s.now ≤ 65536 }
    ensures { agreed result ≡ changes_from count table.now s.now 0 }
{
    let mut p: usize = 0;
    let mut left = count;
    while left > 0 {
        if s.len() < p + 8 {
            return Err(Fault::Damaged);
        }
        let e = text_end(s, p + 4);
        if s.len() < e {
            return Err(Fault::Damaged);
        }
        let a = p + 8;
        let v = change(table, number(s, p), &s[a..e]);
        if !v.is_ok() {
            return v;
        }
        p = e;
        left -= 1;
    }
    if p == s.len() {
        return Ok(());
    }
    Err(Fault::Damaged)
}

// The digests at the end of a record.
fn digests(table: &[u8], s: &[u8]) -> Verdict
    requires { length s.now ≡ 9 }
    ensures { agreed result ≡ digests_as table.now s.now }
{
    if s[0] == 0 {
        return Ok(());
    }
    let first = unless(15, number(s, 1), digest(table, 1103515245) as usize);
    let second = unless(16, number(s, 5), digest(table, 1664525) as usize);
    both(first, second)
}

// Where it is expected, the whole table is zero.
fn cleared(table: &[u8], mark: u8) -> Verdict
    ensures { agreed result ≡ cleared_as table.now mark }
{
    if mark != 1 {
        return Ok(());
    }
    if octets::all_zero(table) {
        return Ok(());
    }
    Err(Fault::Differs(13, 0, 1, 0))
}

// What is expected of the table.
fn on_table(table: &[u8], s: &[u8]) -> Verdict
    requires { (14 ≤ length s.now) × (length s.now ≤ 65536) }
    ensures { agreed result ≡ table_as table.now s.now }
{
    let n = s.len();
    let end = n - 9;
    let zero = cleared(table, s[0]);
    let changed = changes(table, &s[5..end], number(s, 1));
    both(zero, both(changed, digests(table, &s[end..n])))
}

// All that is expected from byte `at` of the record's body on.
pub fn judged(
    r: &[u8],
    at: usize,
    g: Got,
    table: &[u8],
    answer: &[u8],
    answer_seed: u8,
    notice: &[u8],
    notice_seed: u8,
) -> Verdict
    requires { (at ≤ length r.now) × (length r.now ≤ 65536) × (length answer.now ≤ 65536) × (length notice.now ≤ 65536) }
    ensures { agreed result ≡ as_expected r.now at g table.now answer.now answer_seed notice.now notice_seed }
{
    let n = r.len();
    let a = at + 32;
    if n < a {
        return Err(Fault::Damaged);
    }
    let e = text_end(r, a);
    if n < e {
        return Err(Fault::Damaged);
    }
    let f = text_end(r, e);
    if n < f + 14 {
        return Err(Fault::Damaged);
    }
    let from_answer = a + 4;
    let from_notice = e + 4;
    let numbers = both(answered(r, at, g), cut(r, at + 16, g));
    let in_answer = room(9, answer, answer_seed, &r[from_answer..e]);
    let in_notice = room(11, notice, notice_seed, &r[from_notice..f]);
    let rooms = both(in_answer, in_notice);
    both(numbers, both(rooms, on_table(table, &r[f..n])))
}

// THE RESULTS OF A BURST

// The i-th place for a result has the eight numbers that stand in the record from `at` on.
fn result(r: &[u8], at: usize, place: [u32; 8], i: usize) -> Verdict
    requires { (at + 32 ≤ length r.now) × (length r.now ≤ 65536) × (i ≤ 65536) }
    ensures { agreed result ≡ numbers_at r.now at place }
{
    for k in 0..8 {
        let expected = number(r, at + 4 * k);
        let got = place[k] as usize;
        if expected != got {
            return Err(Fault::Differs(17, 8 * i + k, expected, got));
        }
    }
    Ok(())
}

// All places are as the record has them from `at` on, those that nothing was written into too.
pub fn results(r: &[u8], at: usize, places: &[[u32; 8]]) -> Verdict
    requires { (at + 32 * length places.now ≤ length r.now) × (length r.now ≤ 65536) }
    ensures { agreed result ≡ results_at r.now at places.now }
{
    let mut a = at;
    for i in 0..places.len() {
        let v = result(r, a, places[i], i);
        if !v.is_ok() {
            return v;
        }
        a += 32;
    }
    Ok(())
}
