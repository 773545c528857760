// Carrying out a plan on row i of the table: the cut notice, the row, and what the call gives back.
#![tactic(auto)]

ghost use Rattle.std.specs.Prelude.{◌≡◌, true, ℕ, Some, None, ◌+◌, ◌*◌, ◌≤◌, length};
ghost use Rattle.octets.specs.Lists.{is_on};
ghost use Rattle.octets.specs.Texts.{filled, put};
ghost use Rattle.message.specs.TheRooms.{long_notice, notice_length};
ghost use Rattle.table.specs.Answers.{lent};
ghost use Rattle.table.specs.TheTable.{access_at, form_of, order_line, read_row, row_at, row_bytes, row_length, with_row};
ghost use Rattle.table.specs.Soundness.{sound};
ghost use Rattle.changes.specs.Changes.{freed, kept_in, lowest_free, opened};
ghost use Rattle.rules.specs.Deciding.{at_place};
ghost use Rattle.rules.specs.Calls.{notice_room, table_after};
ghost use Rattle.plans.specs.Plans.{planned, fit_plan};
ghost use Rattle.effects.specs.Carrying.{brought_in, cut_for, done_for};

use plans::Plan;

// The lengths of the cut access's Session-Id and of its gateway's host and realm.
#[derive(Clone, Copy)]
pub struct Cut {
    pub session: usize,
    pub host: usize,
    pub realm: usize,
}

// What carrying out a plan gives back: the place of a new access, else 0, and the cut, where one was made.
#[derive(Clone, Copy)]
pub struct Done {
    pub place: usize,
    pub cut: Option<Cut>,
}

// The realm in the notice of the access at place k, for form 2 alone: in a sound row it stands in its room as it does in the notice.
fn write_realm(notice: &mut [u8], row: &[u8], k: usize) -> usize
    requires { (long_notice ≤ length notice.old) × (sound row.now ≡ true) × (is_on (order_line row.now) k ≡ true) × (form_of row.now ≡ 2) }
    ensures { (notice.new ≡ put notice.old 256 (filled (access_at row.now k).realm 128))
        × (result ≡ length (access_at row.now k).realm) }
{
    let second = row::second(row, k);
    octets::put_bytes(notice, answers::NOTICE_REALM, row::realm_room(second));
    let realm = row::realm(second);
    realm.len()
}

// The notice of the access at place k. In a sound row the two texts stand side by side in rooms of 128 bytes, filled up with zeros,
// as they do in the notice.
fn write_notice(notice: &mut [u8], table: &[u8], form: usize, i: usize, k: usize) -> Cut
    requires { (notice_length form ≤ length notice.old) × (form ≤ 2) × (row_length form * i + row_length form ≤ length table.now) × (sound (row_at (lent form table.now) i) ≡ true)
        × (is_on (order_line (row_at (lent form table.now) i)) k ≡ true) }
    ensures { (notice.new ≡ notice_room form (at_place k (read_row (row_at (lent form table.now) i)).accesses) notice.old)
        × (Some result ≡ cut_for (at_place k (read_row (row_at (lent form table.now) i)).accesses)) }
{
    let row = row::at(table, form, i);
    octets::put_bytes(notice, 0, row::notice_rooms(row, k));
    let session = row::session(row, k);
    let host = row::host(row, k);
    let cut = Cut {
        session: session.len(),
        host: host.len(),
        realm: 0,
    };
    if form != 2 {
        return cut;
    }
    let realm = write_realm(notice, row, k);
    Cut { realm, ..cut }
}

// An opening on entry n: first the cut, where a place is named, then the new access.
fn open_with_cut(
    table: &mut [u8],
    form: usize,
    i: usize,
    n: usize,
    k: usize,
    session: &[u8],
    host: &[u8],
    realm: &[u8],
    notice: &mut [u8],
) -> Done
    requires { (notice_length form ≤ length notice.old) × (form ≤ 2) × (row_length form * i + row_length form ≤ length table.old) × (sound (row_at (lent form table.old) i) ≡ true)
        × (is_on (order_line (row_at (lent form table.old) i)) k ≡ true) × (n ≤ 4) × (length session.now ≤ 128) × (length host.now ≤ 128) × (length realm.now ≤ 128) }
    ensures { (lent form table.new
        ≡ with_row (lent form table.old) i (row_bytes form (opened n (record { session = session.now; host = host.now; realm = kept_in form realm.now }) (freed k (read_row (row_at (lent form table.old) i))))))
        × (notice.new ≡ notice_room form (at_place k (read_row (row_at (lent form table.old) i)).accesses) notice.old)
        × (result ≡ record { place = lowest_free (freed k (read_row (row_at (lent form table.old) i))).accesses; cut = cut_for (at_place k (read_row (row_at (lent form table.old) i)).accesses) }) }
{
    let cut = write_notice(notice, table, form, i, k);
    let place = changes::cut_and_open(table, form, i, k, n as u8, session, host, realm);
    Done {
        place,
        cut: Some(cut),
    }
}

// Nothing was opened, nothing cut.
fn nothing() -> Done
    ensures { result ≡ record { place = 0; cut = None } }
{
    Done {
        place: 0,
        cut: None,
    }
}

// A plan carried out for a request that brings these texts. A refusal changes nothing, and nor does an access that goes on.
pub fn carry(
    table: &mut [u8],
    form: usize,
    i: usize,
    plan: Plan,
    session: &[u8],
    host: &[u8],
    realm: &[u8],
    first: &[u8],
    second: &[u8],
    third: &[u8],
    notice: &mut [u8],
) -> Done
    requires { (notice_length form ≤ length notice.old) × (form ≤ 2) × (row_length form * i + row_length form ≤ length table.old) × (sound (row_at (lent form table.old) i) ≡ true)
        × (fit_plan (record { first = first.now; second = second.now; third = third.now }) plan (row_at (lent form table.old) i) ≡ true)
        × (length session.now ≤ 128) × (length host.now ≤ 128) × (length realm.now ≤ 128) }
    ensures { (lent form table.new
        ≡ table_after (lent form table.old) i (planned (brought_in form session.now host.now realm.now first.now second.now third.now) plan (read_row (row_at (lent form table.old) i))))
        × (notice.new ≡ notice_room form (planned (brought_in form session.now host.now realm.now first.now second.now third.now) plan (read_row (row_at (lent form table.old) i))).cut notice.old)
        × (result ≡ done_for (planned (brought_in form session.now host.now realm.now first.now second.now third.now) plan (read_row (row_at (lent form table.old) i)))) }
{
    match plan {
        Plan::Open { entry, cut: None } => {
            let place = changes::open(table, form, i, entry as u8, session, host, realm);
            Done { place, cut: None }
        }
        Plan::Open {
            entry,
            cut: Some(k),
        } => open_with_cut(table, form, i, entry, k, session, host, realm, notice),
        Plan::Route(k) => {
            changes::route(table, form, i, k, first, second, third);
            nothing()
        }
        Plan::Free(k) => {
            changes::free(table, form, i, k);
            nothing()
        }
        Plan::NotSubscribed
        | Plan::Barred
        | Plan::RoamingNotAllowed
        | Plan::UnableToComply
        | Plan::UnusedByUser
        | Plan::Stands => nothing(),
    }
}
