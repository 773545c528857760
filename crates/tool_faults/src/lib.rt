// Where a row is unsound: the first block, entry or place at which the clause fails, in words; and the row that hides another.
#![tactic(auto)]

ghost use Rattle.std.specs.Prelude.{ℕ, ◌≡◌, true, ◌≤◌, length, IfSome};
ghost use Rattle.table.specs.Soundness.{is_row};
ghost use Rattle.table.specs.TheTable.{block_length};

use clauses::Clause;
use tool_words::{number, say};

// ENTRIES, counted from 1

// Whether an entry has not the form of its kind: in use, or zeros. An entry that is alone in a room is tested as the room is.
fn is_entry_bent(row: &[u8], e: usize) -> bool
    requires { (block_length ≤ length row.now) × (1 ≤ e) × (e ≤ 4) }
{
    let bytes = row::entry(row::entries_room(row), e - 1);
    if usize::from(row::entry_count(row)) < e {
        return !octets::all_zero(bytes);
    }
    let mut room = [0u8; 416];
    octets::put_bytes(&mut room, 0, bytes);
    !blocks::entries_form(&room, 1)
}

// Whether two entries have the same label.
fn are_alike(row: &[u8], e: usize, f: usize) -> bool
    requires { (block_length ≤ length row.now) × (1 ≤ e) × (e ≤ 4) × (1 ≤ f) × (f ≤ 4) }
{
    let entries = row::entries_room(row);
    if !row::has_label(entries, e - 1) {
        return false;
    }
    if !row::has_label(entries, f - 1) {
        return false;
    }
    blocks::same_label(row::label(entries, e - 1), row::label(entries, f - 1))
}

// Whether an entry in use has the label of one before it.
fn is_label_repeated(row: &[u8], e: usize) -> bool
    requires { (block_length ≤ length row.now) × (1 ≤ e) × (e ≤ 4) }
{
    if usize::from(row::entry_count(row)) < e {
        return false;
    }
    for f in 1..e {
        if are_alike(row, e, f) {
            return true;
        }
    }
    false
}

// Whether more accesses stand on an entry than its limit.
fn is_over_limit(row: &[u8], e: usize) -> bool
    requires { (is_row row.now ≡ true) × (block_length ≤ length row.now) × (1 ≤ e) × (e ≤ 4) }
{
    let limit = row::limit(row::entries_room(row), e - 1);
    usize::from(limit) < tool_row_lines::standing(row, e)
}

// PLACES, counted from 1

fn is_in_use(row: &[u8], k: usize) -> bool
    requires { (block_length ≤ length row.now) × (1 ≤ k) × (k ≤ 8) }
{
    soundness::in_use(row::used_bits(row), k)
}

// Whether the first block of a place has not its form. Where it has, and the place has not, it is the second.
fn is_first_bent(row: &[u8], k: usize) -> bool
    requires { (is_row row.now ≡ true) × (block_length ≤ length row.now) × (1 ≤ k) × (k ≤ 8) }
{
    let block = row::first(row, k);
    if is_in_use(row, k) {
        return !blocks::access_form(block);
    }
    !octets::all_zero(block)
}

// Whether a place in use has the Session-Id of one before it.
fn is_session_repeated(row: &[u8], k: usize) -> bool
    requires { (is_row row.now ≡ true) × (block_length ≤ length row.now) × (1 ≤ k) × (k ≤ 8) }
{
    if !is_in_use(row, k) {
        return false;
    }
    for j in 1..k {
        if are_one_session(row, j, k) {
            return true;
        }
    }
    false
}

// Whether place j is in use and has the Session-Id of place k.
fn are_one_session(row: &[u8], j: usize, k: usize) -> bool
    requires { (is_row row.now ≡ true) × (block_length ≤ length row.now) × (1 ≤ j) × (j ≤ 8) × (1 ≤ k) × (k ≤ 8) }
{
    is_in_use(row, j) && row::session(row, j) == row::session(row, k)
}

fn is_entry_missing(row: &[u8], k: usize) -> bool
    requires { (is_row row.now ≡ true) × (block_length ≤ length row.now) × (1 ≤ k) × (k ≤ 8) }
{
    is_in_use(row, k) && !blocks::is_within(1, row::entry_count(row), row::entry_of(row, k))
}

fn is_mark_wrong(row: &[u8], k: usize) -> bool
    requires { (is_row row.now ≡ true) × (block_length ≤ length row.now) × (1 ≤ k) × (k ≤ 8) }
{
    if !is_in_use(row, k) {
        return false;
    }
    let block = row::first(row, k);
    !blocks::policy_marked(block[4], block[5])
}

fn is_order_wrong(row: &[u8], k: usize) -> bool
    requires { (is_row row.now ≡ true) × (block_length ≤ length row.now) × (1 ≤ k) × (k ≤ 8) }
{
    is_in_use(row, k) && !clauses::policies_in_order(row, k)
}

// THE FIRST OF THEM

// Whether a clause about entries fails at the e-th.
fn is_broken_entry(row: &[u8], broken: Clause, e: usize) -> bool
    requires { (is_row row.now ≡ true) × (block_length ≤ length row.now) × (1 ≤ e) × (e ≤ 4) }
{
    match broken {
        Clause::EntryForm => is_entry_bent(row, e),
        Clause::Labels => is_label_repeated(row, e),
        Clause::OverLimit => is_over_limit(row, e),
        _ => false,
    }
}

// Whether a clause about places fails at the k-th.
fn is_broken_place(row: &[u8], broken: Clause, k: usize) -> bool
    requires { (is_row row.now ≡ true) × (block_length ≤ length row.now) × (1 ≤ k) × (k ≤ 8) }
{
    match broken {
        Clause::PlaceForm => !clauses::place_form(row, k),
        Clause::Sums => !clauses::place_sums(row, k),
        Clause::Sessions => is_session_repeated(row, k),
        Clause::NoEntry => is_entry_missing(row, k),
        Clause::PolicyMark => is_mark_wrong(row, k),
        Clause::PolicyOrder => is_order_wrong(row, k),
        _ => false,
    }
}

// The first entry at which it fails, if there is one.
fn first_entry(row: &[u8], broken: Clause) -> Option<usize>
    requires { (is_row row.now ≡ true) × (block_length ≤ length row.now) }
{
    for e in 1..5 {
        if is_broken_entry(row, broken, e) {
            return Some(e);
        }
    }
    None
}

// The first place at which it fails, if there is one.
fn first_place(row: &[u8], broken: Clause) -> Option<usize>
    requires { (is_row row.now ≡ true) × (block_length ≤ length row.now) }
    ensures { IfSome result (λ (k : ℕ). (1 ≤ k) × (k ≤ 8)) }
{
    for k in 1..9 {
        if is_broken_place(row, broken, k) {
            return Some(k);
        }
    }
    None
}

// IN WORDS

// A thing by its number, and what is wrong with it.
fn thing(out: &mut [u8; 4096], at: usize, name: &[u8], k: usize, wrong: &[u8]) -> usize {
    let a = say(out, at, name);
    let b = number(out, a, k as u64);
    say(out, b, wrong)
}

// One of the two blocks that a place has in form 2.
fn block(out: &mut [u8; 4096], at: usize, k: usize, is_first: bool) -> usize {
    let name: &[u8] = if is_first {
        b"the first block of place "
    } else {
        b"the second block of place "
    };
    thing(out, at, name, k, b"")
}

fn place_form(out: &mut [u8; 4096], at: usize, row: &[u8], k: usize) -> usize
    requires { (is_row row.now ≡ true) × (block_length ≤ length row.now) × (1 ≤ k) × (k ≤ 8) }
{
    if row.len() == table::row_length(1) {
        return thing(out, at, b"place ", k, b" has not its form\n");
    }
    let a = block(out, at, k, is_first_bent(row, k));
    say(out, a, b" has not its form\n")
}

// The sums of place k, of which those of one block do not agree. In form 1 it has the number of the place.
fn place_sums(out: &mut [u8; 4096], at: usize, row: &[u8], k: usize) -> usize
    requires { (is_row row.now ≡ true) × (1 ≤ k) × (k ≤ 8) }
{
    if row.len() == table::row_length(1) {
        return thing(out, at, b"the sums of block ", k, b" do not agree\n");
    }
    let agree = blocks::block_sums_agree(row::first(row, k));
    let a = say(out, at, b"the sums of ");
    let b = block(out, a, k, !agree);
    say(out, b, b" do not agree\n")
}

// The sums of block 0 are tested first.
fn sums(out: &mut [u8; 4096], at: usize, row: &[u8], k: Option<usize>) -> usize
    requires { (is_row row.now ≡ true) × (block_length ≤ length row.now) × IfSome k (λ (j : ℕ). (1 ≤ j) × (j ≤ 8)) }
{
    match k {
        Some(k) if blocks::block_sums_agree(row::head(row)) => place_sums(out, at, row, k),
        _ => say(out, at, b"the sums of block 0 do not agree\n"),
    }
}

// The order line as it stands, and the places in use.
fn line(out: &mut [u8; 4096], at: usize, row: &[u8]) -> usize
    requires { block_length ≤ length row.now }
{
    let a = say(
        out,
        at,
        b"the order line does not list the places in use, once each: bytes 20 to 27 are",
    );
    let b = tool_words::octets(out, a, row::line_room(row));
    let c = say(out, b, b", byte 17 is ");
    let d = tool_words::octet(out, c, row::used_bits(row));
    say(out, d, b"\n")
}

// What is wrong with the entries.
fn entries(out: &mut [u8; 4096], at: usize, broken: Clause, e: usize) -> usize {
    match broken {
        Clause::EntryForm => thing(out, at, b"entry ", e, b" has not its form\n"),
        Clause::Labels => thing(
            out,
            at,
            b"entry ",
            e,
            b" has the label of an entry before it\n",
        ),
        Clause::OverLimit => thing(
            out,
            at,
            b"entry ",
            e,
            b" has more accesses than its limit\n",
        ),
        _ => at,
    }
}

// What is wrong with the accesses.
fn accesses(out: &mut [u8; 4096], at: usize, broken: Clause, k: usize) -> usize {
    match broken {
        Clause::Sessions => thing(
            out,
            at,
            b"place ",
            k,
            b" has the Session-Id of a place before it\n",
        ),
        Clause::NoEntry => thing(
            out,
            at,
            b"the access at place ",
            k,
            b" names an entry that is not there\n",
        ),
        Clause::PolicyMark => thing(
            out,
            at,
            b"byte 4 of place ",
            k,
            b" does not fit the length of its policy\n",
        ),
        Clause::PolicyOrder => thing(
            out,
            at,
            b"the access at place ",
            k,
            b" has a second policy without a first, or a third without a second\n",
        ),
        _ => at,
    }
}

// What is wrong with the row as a whole, or with the form of a block.
fn whole(out: &mut [u8; 4096], at: usize, row: &[u8], broken: Clause, k: Option<usize>) -> usize
    requires { (is_row row.now ≡ true) × (block_length ≤ length row.now) × IfSome k (λ (j : ℕ). (1 ≤ j) × (j ≤ 8)) }
{
    match broken {
        Clause::NoClause => say(out, at, b"no clause is broken\n"),
        Clause::HeadForm => say(out, at, b"block 0 has not its form\n"),
        Clause::PlaceForm => match k {
            Some(k) => place_form(out, at, row, k),
            None => at,
        },
        Clause::Sums => sums(out, at, row, k),
        Clause::Line => line(out, at, row),
        Clause::Limits => say(out, at, b"the limits of its entries sum to over 8\n"),
        _ => at,
    }
}

// The clause that a row breaks, and where. It is of one of the three.
pub fn reason(out: &mut [u8; 4096], at: usize, row: &[u8], broken: Clause) -> usize
    requires { (is_row row.now ≡ true) × (block_length ≤ length row.now) }
{
    let e = first_entry(row, broken);
    let k = first_place(row, broken);
    let a = whole(out, at, row, broken, k);
    let b = match e {
        Some(e) => entries(out, a, broken, e),
        None => a,
    };
    match k {
        Some(k) => accesses(out, b, broken, k),
        None => b,
    }
}

// HIDDEN ROWS

// The row that a lookup of the operator and the name in `row` finds.
fn found_by(table: &[u8], form: u32, row: &[u8]) -> Option<usize>
    requires { block_length ≤ length row.now }
{
    if table::table_number(table, form) != 0 {
        return None;
    }
    let n = usize::from(row[1]);
    if table::NAME_MOST < n {
        return None;
    }
    let end = table::NAME + n;
    table::lookup(
        table,
        form as usize,
        u32::from(row[table::OPERATOR]),
        &row[table::NAME..end],
    )
}

// The line below row i, which no lookup comes to: it is no operator's, or a row before it has its operator and name. Nothing where it is found.
pub fn hidden(out: &mut [u8; 4096], table: &[u8], form: u32, i: usize, row: &[u8]) -> usize
    requires { block_length ≤ length row.now }
{
    if 15 < row[table::OPERATOR] {
        return say(
            out,
            0,
            b"  NO LOOKUP FINDS THIS ROW: its operator is over 15\n",
        );
    }
    let Some(j) = found_by(table, form, row) else {
        return 0;
    };
    if i <= j || table::MOST_ROWS < j {
        return 0;
    }
    thing(
        out,
        0,
        b"  NO LOOKUP FINDS THIS ROW: row ",
        j + 1,
        b" has its operator and name\n",
    )
}
