// Why a row is unsound: the first clause that it breaks, in the order of document 01.
#![tactic(auto)]

ghost use Rattle.std.specs.Prelude.{◌≡◌, true, ◌&&◌, ◌≤◌, length};
ghost use Rattle.octets.specs.Choice.{within};
ghost use Rattle.octets.specs.Lists.{every};
ghost use Rattle.table.specs.TheTable.{Access, head, order_line, places, read_row};
ghost use Rattle.table.specs.Soundness.{is_row, place_form, sums_agree, place_sums, line_exact, policy_marked, policies_in_order};
ghost use Rattle.clauses.specs.Clauses.{clause_number, broken_form, broken_contents, broken_clause};

// The clauses in their order, and that none is broken.
#[derive(Clone, Copy)]
pub enum Clause {
    NoClause,
    HeadForm,
    EntryForm,
    PlaceForm,
    Sums,
    Line,
    Labels,
    Limits,
    Sessions,
    NoEntry,
    OverLimit,
    PolicyMark,
    PolicyOrder,
}

// THE FORM AND THE SUMS

// Place k: the form of an access where it is in use, in each of its blocks, and zeros where it is not.
pub fn place_form(r: &[u8], k: usize) -> bool
    requires { (is_row r.now ≡ true) × (1 ≤ k) × (k ≤ 8) }
    ensures { result ≡ place_form r.now k }
{
    let place = row::place(r, k);
    let block = row::first(r, k);
    if !soundness::in_use(row::used_bits(r), k) {
        return octets::all_zero(place);
    }
    if !blocks::access_form(block) {
        return false;
    }
    let more = row::second(r, k);
    if more.len() == 0 {
        return true;
    }
    blocks::second_form(more)
}

fn places_form(r: &[u8]) -> bool
    requires { is_row r.now ≡ true }
    ensures { result ≡ every (place_form r.now) places }
{
    for k in 1..9 {
        if !place_form(r, k) {
            return false;
        }
    }
    true
}

// The sums of each block of place k agree.
pub fn place_sums(r: &[u8], k: usize) -> bool
    requires { (is_row r.now ≡ true) × (1 ≤ k) × (k ≤ 8) }
    ensures { result ≡ place_sums r.now k }
{
    if !blocks::block_sums_agree(row::first(r, k)) {
        return false;
    }
    let more = row::second(r, k);
    if more.len() == 0 {
        return true;
    }
    blocks::block_sums_agree(more)
}

// Those of block 0, then those of the places.
fn sums_agree(r: &[u8]) -> bool
    requires { is_row r.now ≡ true }
    ensures { result ≡ sums_agree (head r.now) && every (place_sums r.now) places }
{
    if !blocks::block_sums_agree(row::head(r)) {
        return false;
    }
    for place in 1..9 {
        if !place_sums(r, place) {
            return false;
        }
    }
    true
}

fn broken_form(r: &[u8]) -> Clause
    requires { is_row r.now ≡ true }
    ensures { clause_number result ≡ broken_form r.now }
{
    if !blocks::head_form(row::head(r)) {
        return Clause::HeadForm;
    }
    if !blocks::entries_form(row::entries_room(r), usize::from(row::entry_count(r))) {
        return Clause::EntryForm;
    }
    if !places_form(r) {
        return Clause::PlaceForm;
    }
    if !sums_agree(r) {
        return Clause::Sums;
    }
    Clause::NoClause
}

// THE CONTENTS, along an exact order line

// Each access names an entry that exists.
fn entries_exist(r: &[u8]) -> bool
    requires { (is_row r.now ≡ true) × (line_exact r.now ≡ true) }
    ensures { result ≡ every (λ (x : Access). within 1 (length (read_row r.now).entries) x.entry) (read_row r.now).accesses }
{
    let n = soundness::accesses_in_use(r);
    let most = row::entry_count(r);
    for i in 0..n {
        let on = row::entry_of(r, row::line_place(r, i));
        if !blocks::is_within(1, most, on) {
            return false;
        }
    }
    true
}

// Byte 5 of each access is 1 or more exactly if its byte 4 is 1.
fn policies_marked(r: &[u8]) -> bool
    requires { (is_row r.now ≡ true) × (line_exact r.now ≡ true) }
    ensures { result ≡ every (policy_marked r.now) (order_line r.now) }
{
    let n = soundness::accesses_in_use(r);
    for i in 0..n {
        let block = row::first(r, row::line_place(r, i));
        if !blocks::policy_marked(block[4], block[5]) {
            return false;
        }
    }
    true
}

// No policy of the access at place k stands behind one that is not there. In form 1 there is but one.
pub fn policies_in_order(r: &[u8], k: usize) -> bool
    requires { (is_row r.now ≡ true) × (1 ≤ k) × (k ≤ 8) }
    ensures { result ≡ policies_in_order r.now k }
{
    let block = row::first(r, k);
    let more = row::second(r, k);
    if more.len() == 0 {
        return true;
    }
    if !blocks::only_behind(more[3], block[5]) {
        return false;
    }
    blocks::only_behind(more[4], more[3])
}

fn policies_ordered(r: &[u8]) -> bool
    requires { (is_row r.now ≡ true) × (line_exact r.now ≡ true) }
    ensures { result ≡ every (policies_in_order r.now) (order_line r.now) }
{
    let n = soundness::accesses_in_use(r);
    for i in 0..n {
        if !policies_in_order(r, row::line_place(r, i)) {
            return false;
        }
    }
    true
}

fn broken_contents(r: &[u8]) -> Clause
    requires { (is_row r.now ≡ true) × (broken_form r.now ≡ 0) }
    ensures { clause_number result ≡ broken_contents r.now }
{
    if !soundness::line_exact(r) {
        return Clause::Line;
    }
    let n = usize::from(row::entry_count(r));
    let entries = row::entries_room(r);
    if !blocks::labels_differ(entries, n) {
        return Clause::Labels;
    }
    if 8 < blocks::limits_sum(entries, n) {
        return Clause::Limits;
    }
    if !soundness::sessions_differ(r) {
        return Clause::Sessions;
    }
    if !entries_exist(r) {
        return Clause::NoEntry;
    }
    if !soundness::under_limits(r, n) {
        return Clause::OverLimit;
    }
    if !policies_marked(r) {
        return Clause::PolicyMark;
    }
    if !policies_ordered(r) {
        return Clause::PolicyOrder;
    }
    Clause::NoClause
}

// A ROW

pub fn broken(r: &[u8]) -> Clause
    requires { is_row r.now ≡ true }
    ensures { clause_number result ≡ broken_clause r.now }
{
    let c = broken_form(r);
    let Clause::NoClause = c else {
        return c;
    };
    broken_contents(r)
}
