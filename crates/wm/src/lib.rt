// The server for C: its operations under their C names (include/wm.h), and those of the disconnection, of the report and of the screen board.
#![tactic(auto)]

ghost use Rattle.std.specs.Prelude.{◌≡◌};
ghost use Rattle.octets.specs.Choice.{pick};
ghost use Rattle.table.specs.Answers.{lent};
ghost use Rattle.setup.specs.SetUp.{left, clear, enter, add};
ghost use Rattle.moving.specs.Moving.{move};
ghost use Rattle.rules.specs.Calls.{handle};
ghost use Rattle.decision.specs.Outcomes.{call_of};
ghost use Rattle.abort.specs.TheDisconnection.{belongs, write_abort};
ghost use Rattle.abort.specs.Code.{cut_of};
ghost use Rattle.report.specs.TheReport.{count, add as addReport};
ghost use Rattle.report.specs.Rates.{rate};
ghost use Rattle.report.specs.Code.{told_by, leaves, ratio_said};
ghost use Rattle.screen.specs.TheBoard.{feed_request, feed_result, feed_notice, count_connected};
ghost use Rattle.screen.specs.Code.{leaves as leavesBoard, count_said};
ghost use Rattle.wm.specs.InC.{leaves_in_c, written_in_c};

use numbers::Numbers;
use report::Ratio;
use screen::{Count, Event, Screen};

// SET-UP: 0 on success, else the number

// Every byte of the table zero.
#[unsafe(no_mangle)]
pub extern "C" fn wm_clear(table: &mut [u8], form: u32) -> u32
    ensures { left result (lent form table.new) ≡ clear (lent form table.old) }
{
    setup::clear(table, form)
}

// A subscriber of that operator and name, in the first row that is wholly zero, if the operator's share has room.
#[unsafe(no_mangle)]
pub extern "C" fn wm_enter(table: &mut [u8], form: u32, op: u32, shares: &[u32], name: &[u8]) -> u32
    ensures { left result (lent form table.new) ≡ enter (lent form table.old) shares.now (record { operator = op; name = name.now }) }
{
    setup::enter(table, form, op, shares, name)
}

// An access point name for the subscriber of that operator and name.
#[unsafe(no_mangle)]
pub extern "C" fn wm_add(
    table: &mut [u8],
    form: u32,
    op: u32,
    name: &[u8],
    label: &[u8],
    limit: u8,
    flags: u8,
) -> u32
    ensures { left result (lent form table.new)
        ≡ add (lent form table.old) (record { operator = op; name = name.now }) (record { label = label.now; flags = flags; limit = limit }) }
{
    setup::add(table, form, op, name, label, limit, flags)
}

// MOVING: 0, or 1, 19, 20 and 21, with which the target is as it was

// The table, which has the other form, laid out in the form said, into the target.
#[unsafe(no_mangle)]
pub extern "C" fn wm_move(table: &[u8], target: &mut [u8], form: u32) -> u32
    ensures { record { number = result; target = target.new } ≡ move form table.now target.old }
{
    moving::move_table(table, target, form)
}

// A REQUEST

// One request.
#[unsafe(no_mangle)]
pub extern "C" fn wm_handle(
    table: &mut [u8],
    form: u32,
    op: u32,
    host: &[u8],
    realm: &[u8],
    message: &[u8],
    wag: bool,
    answer: &mut [u8],
    notice: &mut [u8],
) -> Numbers
    ensures { leaves_in_c result (lent form table.new) answer.new notice.new
        ≡ handle (lent form table.old) (call_of op message.now host.now realm.now answer.old notice.old wag) }
{
    numbers::numbers_of(decision::handle(
        table, form, op, host, realm, message, wag, answer, notice,
    ))
}

// THE DISCONNECTION: 0, or 2, 4, 22 and 23, with which the room is as it was

// What was written, in C's numbers.
#[repr(C)]
#[derive(Clone, Copy)]
pub struct WmWritten {
    pub number: u32,
    pub length: u32,
}

// The request that asks a gateway to end the access of a notice, with the lengths that came with it.
#[unsafe(no_mangle)]
pub extern "C" fn wm_abort(
    host: &[u8],
    realm: &[u8],
    notice: &[u8],
    cut_session: u32,
    cut_host: u32,
    cut_realm: u32,
    hop: u32,
    end: u32,
    room: &mut [u8],
) -> WmWritten
    ensures { written_in_c result room.new
        ≡ write_abort host.now realm.now (cut_of notice.now cut_session cut_host cut_realm) hop end room.old }
{
    let w = abort::write(
        host,
        realm,
        notice,
        cut_session as usize,
        cut_host as usize,
        cut_realm as usize,
        hop,
        end,
        room,
    );
    let length = numbers::narrow(w.length);
    WmWritten {
        number: w.number,
        length: length,
    }
}

// Whether an answer belongs to the request with this Session-Id and these identifiers: 1, else 0.
#[unsafe(no_mangle)]
pub extern "C" fn wm_abort_answered(answer: &[u8], session: &[u8], hop: u32, end: u32) -> u32
    ensures { result ≡ pick (belongs answer.now session.now hop end) 1 0 }
{
    if abort::answered(answer, session, hop, end) {
        return 1;
    }
    0
}

// THE YEAR BY HOUR: 0, or 29 and 30, with which the report is as it was

// A list of results counted into the report.
#[unsafe(no_mangle)]
pub extern "C" fn wm_report_count(report: &mut [u64; 96], told: &[[u32; 6]]) -> u32
    ensures { leaves result report.new ≡ count report.old (told_by told.now) }
{
    report::count(report, told)
}

// A second report added to the first.
#[unsafe(no_mangle)]
pub extern "C" fn wm_report_add(report: &mut [u64; 96], more: &[u64; 96]) -> u32
    ensures { leaves result report.new ≡ addReport report.old more.now }
{
    report::add(report, more)
}

// The year's rate of cuts to accesses opened.
#[unsafe(no_mangle)]
pub extern "C" fn wm_report_rate(report: &[u64; 96]) -> Ratio
    ensures { ratio_said result ≡ rate report.now }
{
    report::rate(report)
}

// THE SCREEN BOARD: 0, or 25 and 24, with which the list is as it was

// A request, of its kind.
#[unsafe(no_mangle)]
pub extern "C" fn wm_screen_request(screens: &mut [Screen], which: u32, session: &[u8]) -> u32
    ensures { leavesBoard result screens.new ≡ feed_request screens.old which session.now }
{
    screen::feed(screens, session, screen::request_says(which))
}

// Its result.
#[unsafe(no_mangle)]
pub extern "C" fn wm_screen_result(
    screens: &mut [Screen],
    which: u32,
    session: &[u8],
    code: u32,
    kind: u32,
    place: u32,
) -> u32
    ensures { leavesBoard result screens.new ≡ feed_result screens.old which session.now code kind place }
{
    screen::feed(
        screens,
        session,
        screen::result_says(which, code, kind, place),
    )
}

// The notice of a cut.
#[unsafe(no_mangle)]
pub extern "C" fn wm_screen_notice(screens: &mut [Screen], session: &[u8]) -> u32
    ensures { leavesBoard result screens.new ≡ feed_notice screens.old session.now }
{
    screen::feed(screens, session, Event::Cuts)
}

// The number of connected screens.
#[unsafe(no_mangle)]
pub extern "C" fn wm_screens_connected(screens: &[Screen]) -> Count
    ensures { count_said result ≡ count_connected screens.now }
{
    screen::connected(screens)
}
