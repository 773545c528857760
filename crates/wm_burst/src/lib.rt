// A burst for C, under its C name (include/wm.h). It has a crate, and so an archive, of its own: in one archive with `wm_handle` there would be two calls of
// `decision::handle`, and the compiler would put it in line at neither (docs/PERFORMANCE.md).
#![tactic(auto)]

ghost use Rattle.std.specs.Prelude.{◌≡◌, map};
ghost use Rattle.table.specs.Answers.{lent};
ghost use Rattle.burst.specs.TheBurst.{burst};
ghost use Rattle.burst.specs.Code.{burst_of, leaves, result_in};

use burst::Taken;

// Messages back to back, as far as the rooms reach.
#[unsafe(no_mangle)]
pub extern "C" fn wm_burst(
    table: &mut [u8],
    form: u32,
    op: u32,
    host: &[u8],
    realm: &[u8],
    messages: &[u8],
    wags: &[u8],
    answers: &mut [u8],
    notices: &mut [u8],
    results: &mut [[u32; 8]],
) -> Taken
    ensures { leaves result (lent form table.new) answers.new notices.new results.new
        ≡ burst (lent form table.old) (burst_of op host.now realm.now messages.now wags.now answers.old notices.old (map result_in results.old)) }
{
    burst::burst(
        table, form, op, host, realm, messages, wags, answers, notices, results,
    )
}
