// Why a call is answered as it is: the first of the paper's checks that fails.
#![tactic(auto)]

ghost use Rattle.std.specs.Prelude.{◌≡◌, Bool, true, ◌||◌, not, List, [], ◌∷◌, ℕ, ◌/◌, ◌%◌, ◌≤◌, ◌<◌, eqb, length};
ghost use Rattle.octets.specs.Lists.{every};
ghost use Rattle.message.specs.ReadingAMessage.{Avp, Field, avp_code, avps, for265, for275, for_both, number_field, policy, routing_policy, termination, tested_as, texts_field, tunnel, walk_code};
ghost use Rattle.message.specs.Positions.{Gathered, name_at, slots};
ghost use Rattle.message.specs.Spans.{asks, bytes_field, bytes_of, code_of, is_inside, spans_in};
ghost use Rattle.reader.specs.Steps.{fault_of};
ghost use Rattle.table.specs.Answers.{lent};
ghost use Rattle.table.specs.TheTable.{lookup, read_row, table_number};
ghost use Rattle.table.specs.Soundness.{sound};
ghost use Rattle.decision.specs.Outcomes.{call_of};
ghost use Rattle.order.specs.ChecksInOrder.{avp_checks, deciding_checks, field_checks, first_failed, header_checks, list_checks, reading_checks, walk_checks};
ghost use Rattle.order.specs.Demand2.{checks};
ghost use Rattle.reasons.specs.Reasons.{check_named, ground_named, ground_of};
ghost use Rattle.reasons.specs.Parts.{behind_type, first_of_fields, row_checks};

use message::{Asked, Failure, Span};
use plans::Plan;
use reader::{Fault, Step};

// The check that fails, or that none does.
#[derive(Clone, Copy)]
pub enum Reason {
    Passes,
    // the header
    ReservedBits,
    ErrorBit,
    UnknownCommand,
    WrongApplication,
    // the AVP that starts at this byte of the message
    FewBytesLeft(usize),
    ReservedAvpBits(usize),
    ShortLength(usize),
    PastTheEnd(usize),
    UnsupportedAvp(usize),
    // the lists; the AVP by the slot of its name. Policies may be several: they are there more often than they may be, or one of them is of a
    // wrong length
    SessionIdNotFirst,
    Absent(usize),
    Twice(usize),
    WrongLength(usize),
    WrongValue(usize),
    // any request
    NoRow,
    UnsoundRow,
    // a tunnel
    NotEntered,
    EntryBarred,
    MayNotRoam,
    SessionHeld,
    // a policy
    NoAccess,
    GatewaySaysNo,
    // termination
    Unused,
}

// A call that gets no answer has a number; any other is answered for a reason.
#[derive(Clone, Copy)]
pub enum Why {
    Unanswered(u32),
    Answered(Reason),
}

// HEADER AND WALK

// Each failure of the header tests is that of one test.
fn header_failed(m: &[u8]) -> Reason
    requires { 20 ≤ length m.now }
    ensures { check_named result ≡ first_failed (header_checks m.now) }
{
    match message::test_header(m) {
        Ok(()) => Reason::Passes,
        Err(f) => match f {
            Failure::InvalidBitInHeader => Reason::ReservedBits,
            Failure::InvalidHeaderBits => Reason::ErrorBit,
            Failure::CommandUnsupported => Reason::UnknownCommand,
            _ => Reason::WrongApplication,
        },
    }
}

// The reason for a test that the AVP at a byte fails.
fn avp_failed(fault: Fault, at: usize) -> Reason
    ensures { (s : List ℕ) → (avp_code s ≡ 0 → ⊥) → fault_of s ≡ fault → check_named result ≡ first_failed (avp_checks at s) }
{
    match fault {
        Fault::Few => Reason::FewBytesLeft(at),
        Fault::Bits => Reason::ReservedAvpBits(at),
        Fault::Short => Reason::ShortLength(at),
        Fault::Past => Reason::PastTheEnd(at),
    }
}

// Whether an AVP is supported, by whether it is known and by its flags: known, or without M (W1).
fn is_supported(known: bool, flags: u8) -> bool
    ensures { result ≡ known || not (eqb (flags / 64 % 2) 1) }
{
    if known {
        return true;
    }
    flags / 64 % 2 != 1
}

// One AVP after another, up to the end or to the first that fails: one of the four tests, or that it is supported.
fn walk_failed(m: &[u8]) -> Reason
    requires { 20 ≤ length m.now }
    ensures { check_named result ≡ first_failed (walk_checks m.now) }
{
    let mut at: usize = message::HEADER_LENGTH;
    loop {
        let step = reader::avp_at(m, at);
        match step {
            Step::End => return Reason::Passes,
            Step::Bad(fault) => return avp_failed(fault, at),
            Step::One(a) => {
                if !is_supported(a.known, a.flags) {
                    return Reason::UnsupportedAvp(at);
                }
                at = a.next;
            }
        }
    }
}

// THE LISTS

// The first of two reasons for which something fails.
fn first_of(a: Reason, b: Reason) -> Reason
    ensures { check_named result ≡ first_failed (check_named a ∷ check_named b ∷ []) }
{
    match a {
        Reason::Passes => b,
        _ => a,
    }
}

// A field by what its reader answers; one that is not required may be absent. Each failure is that of one test.
fn field_failed<T: Copy>(slot: usize, g: Result<Option<T>, Failure>, is_required: bool) -> Reason
    ensures { (f : Field) (there : List Avp) → f.name ≡ name_at slot → tested_as f there ≡ code_of is_required g → check_named result ≡ first_failed (field_checks f there) }
{
    match g {
        Ok(found) => match found {
            Some(_) => Reason::Passes,
            None => {
                if is_required {
                    return Reason::Absent(slot);
                }
                Reason::Passes
            }
        },
        Err(f) => match f {
            Failure::MissingAvp => Reason::Absent(slot),
            Failure::AvpOccursTooManyTimes => Reason::Twice(slot),
            Failure::InvalidAvpLength => Reason::WrongLength(slot),
            _ => Reason::WrongValue(slot),
        },
    }
}

// The field of a slot, whose value has low to high bytes.
fn text_failed(
    m: &[u8],
    index: &[usize],
    slot: usize,
    required: bool,
    low: usize,
    high: usize,
) -> Reason
    requires { (slot < slots) × (1 ≤ low) × Gathered m.now index.now }
    ensures { check_named result ≡ first_of_fields m.now (bytes_field (name_at slot) required low high ∷ []) }
{
    let g = message::text_field(m, index, slot, low, high);
    field_failed(slot, g, required)
}

// The field of a slot whose value is a number from low to high.
fn number_failed(m: &[u8], index: &[usize], slot: usize, low: u32, high: u32) -> Reason
    requires { (slot < slots) × Gathered m.now index.now }
    ensures { check_named result ≡ first_of_fields m.now (number_field (name_at slot) low high ∷ []) }
{
    let g = message::number_field(m, index, slot, low, high);
    field_failed(slot, g, true)
}

// The policies, of which a request may bring up to `most`.
fn routes_failed(m: &[u8], index: &[usize], required: bool, most: usize) -> Reason
    requires { (20 ≤ length m.now) × (walk_code m.now ≡ 0) × (1 ≤ most) × (most ≤ 3) × Gathered m.now index.now }
    ensures { check_named result ≡ first_of_fields m.now (texts_field most routing_policy required ∷ []) }
{
    let g = message::routes_field(m, index, most);
    field_failed(message::ROUTING_POLICY, g, required)
}

// The fields of both requests.
fn both_failed(m: &[u8], index: &[usize]) -> Reason
    requires { Gathered m.now index.now }
    ensures { check_named result ≡ first_of_fields m.now for_both }
{
    let session = text_failed(m, index, message::SESSION_ID, true, 1, message::TEXT_MOST);
    let application = number_failed(m, index, message::AUTH_APPLICATION_ID, 1, 1);
    let host = text_failed(m, index, message::ORIGIN_HOST, true, 1, message::TEXT_MOST);
    let realm = text_failed(m, index, message::ORIGIN_REALM, true, 1, message::TEXT_MOST);
    let destination = text_failed(
        m,
        index,
        message::DESTINATION_REALM,
        true,
        1,
        message::TEXT_MOST,
    );
    let realms = first_of(realm, destination);
    first_of(session, first_of(application, first_of(host, realms)))
}

// The fields of a 265 behind its type.
fn end_failed(m: &[u8], index: &[usize], kind: u32, most: usize) -> Reason
    requires { (20 ≤ length m.now) × (walk_code m.now ≡ 0) × (1 ≤ most) × (most ≤ 3) × Gathered m.now index.now }
    ensures { check_named result ≡ first_of_fields m.now (behind_type most kind) }
{
    let visited = text_failed(
        m,
        index,
        message::VISITED_NETWORK,
        false,
        1,
        message::TEXT_MOST,
    );
    let label = text_failed(
        m,
        index,
        message::WLAN_APN_ID,
        kind == 0,
        1,
        message::LABEL_MOST,
    );
    let routes = routes_failed(m, index, kind == 1, most);
    first_of(visited, first_of(label, routes))
}

// The fields of a 265. Its type says which of the last two are required.
fn list_265_failed(m: &[u8], index: &[usize], most: usize) -> Reason
    requires { (20 ≤ length m.now) × (walk_code m.now ≡ 0) × (1 ≤ most) × (most ≤ 3) × Gathered m.now index.now }
    ensures { check_named result ≡ first_of_fields m.now (for265 most (avps m.now)) }
{
    let request = number_failed(m, index, message::AUTH_REQUEST_TYPE, 2, 2);
    let host = text_failed(
        m,
        index,
        message::DESTINATION_HOST,
        true,
        1,
        message::TEXT_MOST,
    );
    let user = text_failed(m, index, message::USER_NAME, true, 1, message::TEXT_MOST);
    let before = first_of(request, first_of(host, user));
    let g = message::number_field(m, index, message::SESSION_REQUEST_TYPE, 0, 1);
    let this = field_failed(message::SESSION_REQUEST_TYPE, g, true);
    let Ok(found) = g else {
        return first_of(before, this);
    };
    let Some(kind) = found else {
        return first_of(before, this);
    };
    let a = kind.at;
    let e = a + kind.len;
    first_of(
        before,
        end_failed(m, index, message::value32(&m[a..e]), most),
    )
}

// The fields of a 275.
fn list_275_failed(m: &[u8], index: &[usize]) -> Reason
    requires { Gathered m.now index.now }
    ensures { check_named result ≡ first_of_fields m.now for275 }
{
    let cause = number_failed(m, index, message::TERMINATION_CAUSE, 1, 8);
    let host = text_failed(
        m,
        index,
        message::DESTINATION_HOST,
        true,
        1,
        message::TEXT_MOST,
    );
    let user = text_failed(m, index, message::USER_NAME, true, 1, message::TEXT_MOST);
    let label = text_failed(m, index, message::WLAN_APN_ID, true, 1, message::LABEL_MOST);
    first_of(cause, first_of(host, first_of(user, label)))
}

// Both lists, of a message whose walk passed.
fn lists_failed(m: &[u8], index: &[usize], most: usize) -> Reason
    requires { (20 ≤ length m.now) × (walk_code m.now ≡ 0) × (1 ≤ most) × (most ≤ 3) × Gathered m.now index.now }
    ensures { check_named result ≡ first_failed (list_checks most m.now) }
{
    if !request::starts(m) {
        return Reason::SessionIdNotFirst;
    }
    let both = both_failed(m, index);
    if octets::read24(m, 5) == 265 {
        return first_of(both, list_265_failed(m, index, most));
    }
    first_of(both, list_275_failed(m, index))
}

// A MESSAGE

// The first check of reading that a message fails, or that it passes them all. A request may bring up to `most` policies.
pub fn reading_failed(m: &[u8], most: usize) -> Reason
    requires { (20 ≤ length m.now) × (1 ≤ most) × (most ≤ 3) }
    ensures { check_named result ≡ first_failed (reading_checks most m.now) }
{
    if message::test_header(m).is_err() {
        return header_failed(m);
    }
    let mut index = [0usize; message::INDEX_LENGTH];
    if message::gather(m, &mut index).is_err() {
        return walk_failed(m);
    }
    lists_failed(m, &index, most)
}

// ON A ROW

// A tunnel: each refusal of the plan is that of one check.
fn tunnel_failed(row: &[u8], session: &[u8], label: &[u8], visited: bool) -> Reason
    requires { sound row.now ≡ true }
    ensures { (host realm : List ℕ) (wag : Bool) → check_named result
        ≡ first_failed (deciding_checks (tunnel session.now host realm label.now visited) wag (read_row row.now)) }
{
    match plans::plan_tunnel(row, session, label, visited) {
        Plan::NotSubscribed => Reason::NotEntered,
        Plan::Barred => Reason::EntryBarred,
        Plan::RoamingNotAllowed => Reason::MayNotRoam,
        Plan::UnableToComply => Reason::SessionHeld,
        _ => Reason::Passes,
    }
}

// A policy: if there is no access, the plan is a refusal even where the wireless gateway says yes.
fn policy_failed(row: &[u8], session: &[u8], wag: bool) -> Reason
    requires { sound row.now ≡ true }
    ensures { (first second third : List ℕ) → check_named result ≡ first_failed (deciding_checks (policy session.now first second third) wag (read_row row.now)) }
{
    let plan = plans::plan_policy(row, session, true);
    if let Plan::UnableToComply = plan {
        return Reason::NoAccess;
    }
    if wag {
        return Reason::Passes;
    }
    Reason::GatewaySaysNo
}

fn termination_failed(row: &[u8], session: &[u8], label: &[u8]) -> Reason
    requires { sound row.now ≡ true }
    ensures { (wag : Bool) → check_named result
        ≡ first_failed (deciding_checks (termination session.now label.now) wag (read_row row.now)) }
{
    match plans::plan_termination(row, session, label) {
        Plan::UnusedByUser => Reason::Unused,
        _ => Reason::Passes,
    }
}

// Deciding, on a sound row.
fn deciding_failed(row: &[u8], m: &[u8], asked: Asked, wag: bool) -> Reason
    requires { (sound row.now ≡ true) × (every (is_inside m.now) (spans_in asked) ≡ true) }
    ensures { check_named result ≡ first_failed (deciding_checks (asks m.now asked) wag (read_row row.now)) }
{
    match asked {
        Asked::Tunnel {
            session,
            host,
            realm,
            label,
            visited,
        } => {
            return tunnel_failed(
                row,
                decision::text(m, session),
                decision::text(m, label),
                visited,
            );
        }
        Asked::Policy {
            session,
            first,
            second,
            third,
        } => {
            return policy_failed(row, decision::text(m, session), wag);
        }
        Asked::Termination { session, label } => {
            return termination_failed(row, decision::text(m, session), decision::text(m, label));
        }
    }
}

// A request that was read: the user's row, its soundness, then deciding.
fn request_failed(
    table: &[u8],
    form: usize,
    op: u32,
    m: &[u8],
    wag: bool,
    user: Span,
    asked: Asked,
) -> Reason
    requires { (table_number (lent form table.now) ≡ 0) × (every (is_inside m.now) (spans_in asked) ≡ true) × (is_inside m.now user ≡ true) }
    ensures { check_named result ≡ first_failed (row_checks (lent form table.now) (lookup (lent form table.now) (record { operator = op; name = bytes_of m.now user })) (asks m.now asked) wag) }
{
    let Some(i) = table::lookup(table, form, op, decision::text(m, user)) else {
        return Reason::NoRow;
    };
    let width = table::row_length(form);
    let a = width * i;
    let e = a + width;
    if !soundness::row_sound(&table[a..e]) {
        return Reason::UnsoundRow;
    }
    deciding_failed(&table[a..e], m, asked, wag)
}

// A message that gets an answer.
fn answered_for(table: &[u8], form: usize, op: u32, m: &[u8], wag: bool) -> Reason
    requires { (table_number (lent form table.now) ≡ 0) × (20 ≤ length m.now) }
    ensures { (host realm answer notice : List ℕ) → check_named result ≡ first_failed (checks (lent form table.now) (call_of op m.now host realm answer notice wag)) }
{
    let most = decision::most_policies(form);
    let heard = request::read(m, most);
    match heard.told {
        Err(_) => reading_failed(m, most),
        Ok(q) => request_failed(table, form, op, m, wag, q.user, q.asked),
    }
}

// A CALL

// Why `decision::handle` answers what is lent as it does, on a table of the form said: the number of a call that gets no answer, else the first check
// that fails. Nothing is asked of what is lent.
pub fn first_failed(
    table: &[u8],
    form: u32,
    op: u32,
    host: &[u8],
    realm: &[u8],
    message: &[u8],
    wag: bool,
    answer: &[u8],
    notice: &[u8],
) -> Why
    ensures { ground_named result ≡ ground_of (lent form table.now) (call_of op message.now host.now realm.now answer.now notice.now wag) }
{
    let n = decision::call_number(table, form, op, host, realm, message, answer, notice);
    if n != 0 {
        return Why::Unanswered(n);
    }
    let f = form as usize;
    Why::Answered(answered_for(table, f, op, message, wag))
}
