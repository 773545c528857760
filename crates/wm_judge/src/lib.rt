// Judging the old server's answers for C (include/wm.h). It has an archive to itself: beside `wm_handle` in one archive `decision::handle` would have two callers, and the compiler
// would put it in line at neither.
#![tactic(auto)]

ghost use Rattle.std.specs.Prelude.{◌≡◌};
ghost use Rattle.decision.specs.Outcomes.{call_of};
ghost use Rattle.judge.specs.TheJudge.{judge};
ghost use Rattle.judge.specs.Code.{case_of};
ghost use Rattle.wm_judge.specs.InC.{leaves_in_c};

// What is found, in C's numbers; `at` has the type of the lengths in which it is a place.
#[repr(C)]
#[derive(Clone, Copy)]
pub struct WmJudged {
    pub number: u32,
    pub mismatch: u32,
    pub at: usize,
}

// What the old server did with a request, held against what ours does: the row becomes the one due, the rooms get our answer and our notice.
#[unsafe(no_mangle)]
pub extern "C" fn wm_judge(
    row: &mut [u8],
    after: &[u8],
    form: u32,
    op: u32,
    host: &[u8],
    realm: &[u8],
    message: &[u8],
    wag: bool,
    theirs: &[u8],
    their_notice: &[u8],
    answer: &mut [u8],
    notice: &mut [u8],
) -> WmJudged
    ensures { leaves_in_c result row.new answer.new notice.new
        ≡ judge (case_of form row.old after.now (call_of op message.now host.now realm.now answer.old notice.old wag) theirs.now their_notice.now) }
{
    let f = judge::judge(
        row,
        after,
        form,
        op,
        host,
        realm,
        message,
        wag,
        theirs,
        their_notice,
        answer,
        notice,
    );
    WmJudged {
        number: f.number,
        mismatch: f.mismatch,
        at: f.at,
    }
}
