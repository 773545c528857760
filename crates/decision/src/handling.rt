// A whole call.
ghost use Rattle.std.specs.Prelude.{◌≡◌, Bool, true, List, ℕ, ◌+◌, ◌*◌, ◌≤◌, length};
ghost use Rattle.octets.specs.Choice.{within};
ghost use Rattle.octets.specs.Lists.{every};
ghost use Rattle.message.specs.TheRooms.{notice_length};
ghost use Rattle.message.specs.Codes.{number_of};
ghost use Rattle.message.specs.Kinds.{code_from};
ghost use Rattle.message.specs.Spans.{asks, bytes_of, is_inside, says, spans, spans_in};
ghost use Rattle.rules.specs.Calls.{call_number, handle, most_policies, notice_room, on_reading, on_row, refusal, settled, table_after};
ghost use Rattle.message.specs.ReadingAMessage.{read, request};
ghost use Rattle.table.specs.Answers.{lent};
ghost use Rattle.table.specs.TheTable.{Table, is_form, lookup, read_row, row_at, row_length, table_number};
ghost use Rattle.table.specs.Soundness.{sound};
ghost use Rattle.rules.specs.Deciding.{decide};
ghost use Rattle.plans.specs.Plans.{planned, plan_code, fit_plan, fitting};
ghost use Rattle.effects.specs.Carrying.{done_for};
ghost use Rattle.decision.specs.Outcomes.{Named, answered_by, brought, call_of, leaves, policies_at, spans_of, texts_of};

use super::{Decided, Outcome, Texts};
use effects::Done;
use message::{Asked, Failure, Kind, Span, UserRequest};
use plans::Plan;

// An own name of 1 to 128 bytes.
pub fn name_fits(s: &[u8]) -> bool
    ensures { result ≡ within 1 128 (length s.now) }
{
    if s.len() < 1 {
        return false;
    }
    s.len() <= message::TEXT_MOST
}

// How long a notice is.
pub fn notice_length(form: u32) -> usize
    ensures { result ≡ notice_length form }
{
    if form != 2 {
        return answers::NOTICE_LENGTH;
    }
    answers::NOTICE_LENGTH_2
}

// The first of the numbers 1, 33 and 2 to 8 that a call is refused with, 0 where none is.
pub fn call_number(
    table: &[u8],
    form: u32,
    op: u32,
    host: &[u8],
    realm: &[u8],
    message: &[u8],
    answer: &[u8],
    notice: &[u8],
) -> u32
    ensures { (wag : Bool) → result ≡ call_number (lent form table.now) (call_of op message.now host.now realm.now answer.now notice.now wag) }
{
    let n = table::number_for(table, form, op);
    if n != 0 {
        return n;
    }
    if !name_fits(host) {
        return 2;
    }
    if !name_fits(realm) {
        return 2;
    }
    if answer.len() < answers::ANSWER_LEAST {
        return 3;
    }
    if notice.len() < notice_length(form) {
        return 4;
    }
    message::number(message)
}

// The kind and the number of a plan's code.
fn kind_of(plan: Plan) -> Kind
    ensures { plan_code plan ≡ code_from result (number_of (plan_code plan)) }
{
    match plan {
        Plan::NotSubscribed => Kind::Experimental,
        Plan::Barred => Kind::Plain,
        Plan::RoamingNotAllowed => Kind::Experimental,
        Plan::UnableToComply => Kind::Plain,
        Plan::UnusedByUser => Kind::Experimental,
        Plan::Stands => Kind::Plain,
        Plan::Open { .. } => Kind::Plain,
        Plan::Route(k) => Kind::Plain,
        Plan::Free(k) => Kind::Plain,
    }
}

fn code_of(plan: Plan) -> u32
    ensures { result ≡ number_of (plan_code plan) }
{
    match plan {
        Plan::NotSubscribed => 5044,
        Plan::Barred => 5003,
        Plan::RoamingNotAllowed => 5004,
        Plan::UnableToComply => 5012,
        Plan::UnusedByUser => 5042,
        Plan::Stands => 2001,
        Plan::Open { .. } => 2001,
        Plan::Route(k) => 2001,
        Plan::Free(k) => 2001,
    }
}

// The spans of the texts that a request brings for its change.
fn texts_of(asked: Asked) -> Texts
    ensures { result ≡ texts_of asked }
{
    let none = Span { at: 0, len: 0 };
    match asked {
        Asked::Tunnel {
            session,
            host,
            realm,
            label,
            visited,
        } => Texts {
            session,
            host,
            realm,
            first: none,
            second: none,
            third: none,
        },
        Asked::Policy {
            session,
            first,
            second,
            third,
        } => Texts {
            session,
            host: none,
            realm: none,
            first,
            second,
            third,
        },
        Asked::Termination { session, label } => Texts {
            session,
            host: none,
            realm: none,
            first: none,
            second: none,
            third: none,
        },
    }
}

// A text of the message, lent as a part of it.
pub fn text<'a>(m: &'a [u8], s: Span) -> &'a [u8]
    requires { is_inside m.now s ≡ true }
    ensures { result.now ≡ bytes_of m.now s }
{
    let from = s.at;
    let end = from + s.len;
    &m[from..end]
}

// What is planned for a request on a sound row.
fn plan_for(row: &[u8], m: &[u8], asked: Asked, wag: bool) -> Plan
    requires { (sound row.now ≡ true) × (every (is_inside m.now) (spans_in asked) ≡ true) }
    ensures { ((f : ℕ) → planned (brought f m.now (texts_of asked)) result (read_row row.now)
        ≡ decide f (asks m.now asked) wag (read_row row.now))
        × ((f : ℕ) → is_form f ≡ true → fitting f (asks m.now asked) ≡ true → fit_plan (policies_at m.now (texts_of asked)) result row.now ≡ true) }
{
    match asked {
        Asked::Tunnel {
            session,
            host,
            realm,
            label,
            visited,
        } => {
            return plans::plan_tunnel(row, text(m, session), text(m, label), visited);
        }
        Asked::Policy {
            session,
            first,
            second,
            third,
        } => {
            return plans::plan_policy(row, text(m, session), wag);
        }
        Asked::Termination { session, label } => {
            return plans::plan_termination(row, text(m, session), text(m, label));
        }
    }
}

// A refusal, which leaves the table as it is and has no notice.
fn refused(kind: Kind, code: u32) -> Decided
    ensures { (result.code ≡ code) × ((o : ℕ) (m host realm room : List ℕ) (table : Table) (notice : List ℕ) (wag : Bool) → answered_by result m host realm room table notice
        ≡ refusal table (call_of o m host realm room notice wag) (code_from kind code)) }
{
    Decided {
        code,
        kind,
        user: Span { at: 0, len: 0 },
        place: 0,
        cut: None,
    }
}

// What was planned, carried out with the texts of the message.
fn carry_out(
    table: &mut [u8],
    form: usize,
    i: usize,
    m: &[u8],
    plan: Plan,
    t: Texts,
    notice: &mut [u8],
) -> Done
    requires { (notice_length form ≤ length notice.old) × (form ≤ 2) × (row_length form * i + row_length form ≤ length table.old) × (sound (row_at (lent form table.old) i) ≡ true)
        × (fit_plan (policies_at m.now t) plan (row_at (lent form table.old) i) ≡ true) × (every (is_inside m.now) (spans_of t) ≡ true)
        × (length (bytes_of m.now t.session) ≤ 128) × (length (bytes_of m.now t.host) ≤ 128) × (length (bytes_of m.now t.realm) ≤ 128) }
    ensures { (lent form table.new ≡ table_after (lent form table.old) i (planned (brought form m.now t) plan (read_row (row_at (lent form table.old) i))))
        × (notice.new ≡ notice_room form (planned (brought form m.now t) plan (read_row (row_at (lent form table.old) i))).cut notice.old)
        × (result ≡ done_for (planned (brought form m.now t) plan (read_row (row_at (lent form table.old) i)))) }
{
    let session = text(m, t.session);
    let gateway = text(m, t.host);
    let realm = text(m, t.realm);
    let first = text(m, t.first);
    let second = text(m, t.second);
    let third = text(m, t.third);
    effects::carry(
        table, form, i, plan, session, gateway, realm, first, second, third, notice,
    )
}

// A request on row i, which is sound: what is decided is carried out.
fn settle(
    table: &mut [u8],
    form: usize,
    i: usize,
    m: &[u8],
    wag: bool,
    user: Span,
    asked: Asked,
    notice: &mut [u8],
) -> Decided
    requires { (notice_length form ≤ length notice.old) × (is_form form ≡ true) × (form ≤ 2) × (row_length form * i + row_length form ≤ length table.old) × (sound (row_at (lent form table.old) i) ≡ true)
        × (every (is_inside m.now) (spans_in asked) ≡ true) × (is_inside m.now user ≡ true)
        × (read (most_policies form) m.now ≡ request (record { user = bytes_of m.now user; ask = asks m.now asked })) }
    ensures { Named m.now result × ((o : ℕ) (host realm room : List ℕ) → answered_by result m.now host realm room (lent form table.new) notice.new
        ≡ settled (lent form table.old) (call_of o m.now host realm room notice.old wag) i
        (decide form (asks m.now asked) wag (read_row (row_at (lent form table.old) i)))) }
{
    let plan = plan_for(row::at(table, form, i), m, asked, wag);
    let done = carry_out(table, form, i, m, plan, texts_of(asked), notice);
    let kind = kind_of(plan);
    let code = code_of(plan);
    Decided {
        code,
        kind,
        user,
        place: done.place,
        cut: done.cut,
    }
}

// A request that was read: the user's row is found and tested, then the request is settled on it.
fn on_request(
    table: &mut [u8],
    form: usize,
    op: u32,
    m: &[u8],
    wag: bool,
    user: Span,
    asked: Asked,
    notice: &mut [u8],
) -> Decided
    requires { (notice_length form ≤ length notice.old) × (table_number (lent form table.old) ≡ 0)
        × (every (is_inside m.now) (spans_in asked) ≡ true) × (is_inside m.now user ≡ true)
        × (read (most_policies form) m.now ≡ request (record { user = bytes_of m.now user; ask = asks m.now asked })) }
    ensures { Named m.now result × ((host realm room : List ℕ) → answered_by result m.now host realm room (lent form table.new) notice.new
        ≡ on_row (lent form table.old) (call_of op m.now host realm room notice.old wag)
        (record { user = bytes_of m.now user; ask = asks m.now asked }) (lookup (lent form table.old) (record { operator = op; name = bytes_of m.now user }))) }
{
    let Some(i) = table::lookup(table, form, op, text(m, user)) else {
        return refused(Kind::Experimental, 5001);
    };
    if !soundness::row_sound(row::at(table, form, i)) {
        return refused(Kind::Plain, 5012);
    }
    settle(table, form, i, m, wag, user, asked, notice)
}

// What is decided on a message as it was read: it was refused, or it is a request.
fn on_reading(
    table: &mut [u8],
    form: usize,
    op: u32,
    m: &[u8],
    wag: bool,
    told: Result<UserRequest, Failure>,
    notice: &mut [u8],
) -> Decided
    requires { (notice_length form ≤ length notice.old) × (table_number (lent form table.old) ≡ 0)
        × (says m.now told ≡ read (most_policies form) m.now) × (every (is_inside m.now) (spans told) ≡ true) }
    ensures { Named m.now result × ((host realm room : List ℕ) → answered_by result m.now host realm room (lent form table.new) notice.new
        ≡ on_reading (lent form table.old) (call_of op m.now host realm room notice.old wag) (read (most_policies form) m.now)) }
{
    match told {
        Err(f) => refused(Kind::Plain, f.code()),
        Ok(q) => on_request(table, form, op, m, wag, q.user, q.asked, notice),
    }
}

// How many policies a request may bring.
pub fn most_policies(form: usize) -> usize
    ensures { (result ≡ most_policies form) × (1 ≤ result) × (result ≤ 3) }
{
    if form == 2 {
        return 3;
    }
    1
}

// One request of an operator, on a table of the form said: read, decided on and answered. Nothing is asked of what is lent; a bad table, name, room or
// message gets its number.
pub fn handle(
    table: &mut [u8],
    form: u32,
    op: u32,
    host: &[u8],
    realm: &[u8],
    message: &[u8],
    wag: bool,
    answer: &mut [u8],
    notice: &mut [u8],
) -> Outcome
    ensures { leaves result (lent form table.new) answer.new notice.new
        ≡ handle (lent form table.old) (call_of op message.now host.now realm.now answer.old notice.old wag) }
{
    let n = call_number(table, form, op, host, realm, message, answer, notice);
    if n != 0 {
        return Outcome {
            code: n,
            kind: Kind::NoAnswer,
            length: 0,
            place: 0,
            cut: None,
        };
    }
    let f = form as usize;
    let heard = request::read(message, most_policies(f));
    let told = heard.told;
    let proxies = heard.proxies;
    let decided = on_reading(table, f, op, message, wag, told, notice);
    let kind = decided.kind;
    let code = decided.code;
    let user = decided.user;
    let written = answers::answer(message, host, realm, kind, code, user, proxies, answer);
    Outcome {
        code,
        kind,
        length: written,
        place: decided.place,
        cut: decided.cut,
    }
}
