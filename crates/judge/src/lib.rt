// Judging the old server's answers (W10): what it did with a request is held against what ours does with it. It stands above the server and knows of it only
// what a call promises.
#![tactic(auto)]

ghost use Rattle.std.specs.Prelude.{◌≡◌, Bool, List, ℕ, ◌*◌, ◌≤◌, length};
ghost use Rattle.message.specs.TheRooms.{notice_length};
ghost use Rattle.decision.specs.Outcomes.{call_of, cut_made};
ghost use Rattle.likeness.specs.Code.{said};
ghost use Rattle.judge.specs.TheJudge.{case_number, is_one_row, judge};
ghost use Rattle.judge.specs.Code.{between, case_of, held, leaves, finding_of};

use effects::Cut;
use likeness::{Difference, Mismatch};

// A number, 0 where there is nothing to tell; with 32 the number of the mismatch, and the byte at which it is.
#[derive(Clone, Copy)]
pub struct Found {
    pub number: u32,
    pub mismatch: u32,
    pub at: usize,
}

// What is told of a comparison.
#[tactic(auto, unfolding(likeness::specs::Code::said, crate::specs::Code::finding_of, likeness::specs::Code::mismatch_number))]
fn found_by(compared: Result<(), Difference>) -> Found
    ensures { finding_of result ≡ said compared }
{
    match compared {
        Ok(()) => Found {
            number: 0,
            mismatch: 0,
            at: 0,
        },
        Err(Difference::TooDeep) => Found {
            number: 31,
            mismatch: 0,
            at: 0,
        },
        Err(Difference::At(mismatch, at)) => Found {
            number: 32,
            mismatch: mismatch as u32,
            at,
        },
    }
}

// Whether so many bytes are exactly one row of the form.
fn is_one_row(s: &[u8], form: u32) -> bool
    ensures { result ≡ is_one_row form s.now }
{
    if form == 1 {
        return s.len() == table::ROW_LENGTH_1;
    }
    if form == 2 {
        return s.len() == table::ROW_LENGTH_2;
    }
    false
}

// The number of the first test that a case fails, 0 where it fails none.
fn case_number(
    before: &[u8],
    after: &[u8],
    form: u32,
    op: u32,
    host: &[u8],
    realm: &[u8],
    answer: &[u8],
    notice: &[u8],
) -> u32
    ensures { (message theirs their_notice : List ℕ) (wag : Bool) → result ≡ case_number (case_of form before.now after.now (call_of op message host.now realm.now answer.now notice.now wag) theirs their_notice) }
{
    if !is_one_row(before, form) {
        return 1;
    }
    if !is_one_row(after, form) {
        return 1;
    }
    if 15 < op {
        return 33;
    }
    if !decision::name_fits(host) {
        return 2;
    }
    if !decision::name_fits(realm) {
        return 2;
    }
    if answer.len() < answers::ANSWER_LEAST {
        return 3;
    }
    if notice.len() < decision::notice_length(form) {
        return 4;
    }
    0
}

// How many bytes of the notice room a cut leaves a notice in; none without a cut.
fn notice_told(cut: Option<Cut>, form: u32) -> usize
    ensures { result ≡ cut_made cut * notice_length form }
{
    match cut {
        None => 0,
        Some(_) => decision::notice_length(form),
    }
}

// Answer, notice and row of theirs held against ours: the first mismatch.
fn first_mismatch(
    ours: &[u8],
    theirs: &[u8],
    our_notice: &[u8],
    their_notice: &[u8],
    row: &[u8],
    after: &[u8],
) -> Result<(), Difference>
    ensures { said result ≡ between ours.now theirs.now our_notice.now their_notice.now row.now after.now }
{
    likeness::answer_found(ours, theirs)?;
    likeness::compared(Mismatch::Notice, their_notice, our_notice)?;
    likeness::compared(Mismatch::Row, after, row)
}

// A case that fails no test of its own: the call is made on the row and in the rooms that are lent, and what it leaves is what is due.
fn hold(
    row: &mut [u8],
    after: &[u8],
    form: u32,
    op: u32,
    host: &[u8],
    realm: &[u8],
    message: &[u8],
    wag: bool,
    theirs: &[u8],
    their_notice: &[u8],
    answer: &mut [u8],
    notice: &mut [u8],
) -> Found
    requires { notice_length form ≤ length notice.old }
    ensures { leaves result row.new answer.new notice.new
        ≡ held (case_of form row.old after.now (call_of op message.now host.now realm.now answer.old notice.old wag) theirs.now their_notice.now) }
{
    let o = decision::handle(row, form, op, host, realm, message, wag, answer, notice);
    let length = o.length;
    let cut = o.cut;
    let told = notice_told(cut, form);
    found_by(first_mismatch(
        &answer[0..length],
        theirs,
        &notice[0..told],
        their_notice,
        row,
        after,
    ))
}

// Whether what the old server did with a request is what ours does: number 0, or the number of the refusal and with 32 the first mismatch. The row becomes the
// one that is due, and answer and notice of ours are written into the rooms; with a number of 1, 33, 2, 3 or 4 nothing is changed.
pub fn judge(
    row: &mut [u8],
    after: &[u8],
    form: u32,
    op: u32,
    host: &[u8],
    realm: &[u8],
    message: &[u8],
    wag: bool,
    theirs: &[u8],
    their_notice: &[u8],
    answer: &mut [u8],
    notice: &mut [u8],
) -> Found
    ensures { leaves result row.new answer.new notice.new
        ≡ judge (case_of form row.old after.now (call_of op message.now host.now realm.now answer.old notice.old wag) theirs.now their_notice.now) }
{
    let n = case_number(row, after, form, op, host, realm, answer, notice);
    if n != 0 {
        return Found {
            number: n,
            mismatch: 0,
            at: 0,
        };
    }
    hold(
        row,
        after,
        form,
        op,
        host,
        realm,
        message,
        wag,
        theirs,
        their_notice,
        answer,
        notice,
    )
}
