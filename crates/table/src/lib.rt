// The rows of the table: their sums, and how a subscriber's is found.
#![tactic(auto)]

ghost use Rattle.std.specs.Prelude.{◌≡◌, false, [], ◌∷◌, ℕ, ◌+◌, ◌*◌, ◌/◌, ◌%◌, ◌<◌, ◌≤◌, length, take};
ghost use Rattle.octets.specs.Numbers.{low64};
ghost use Rattle.octets.specs.Texts.{all_zero};
ghost use Rattle.table.specs.TheTable.{block_length, first_number, first_row, has_name, is_own, is_row_of, lookup, own_rows, row_at, row_length, rows, sums, table_number};
ghost use Rattle.table.specs.Columns.{column_first, column_before};
ghost use Rattle.table.specs.Answers.{found, lent, row_end};

// WHERE THINGS STAND, by a name for each number. Every crate that reads or writes the bytes of a row takes it from here.

// A row is block 0 and eight places, each of as many blocks as the form says. Form 2 is the last, with two.
pub const BLOCK_LENGTH: usize = 512;

pub const TWO_BLOCKS: usize = 2 * BLOCK_LENGTH;

pub const PLACES: usize = 8;

pub const ROW_LENGTH_1: usize = BLOCK_LENGTH + PLACES * BLOCK_LENGTH;

pub const ROW_LENGTH_2: usize = BLOCK_LENGTH + PLACES * TWO_BLOCKS;

// A table has at most 1,024 rows.
pub const MOST_ROWS: usize = 1024;

// The operators are 0 to 15.
pub const OPERATORS: usize = 16;

// A block ends in its sums, the second before the first.
pub const SECOND_SUM: usize = 510;

pub const FIRST_SUM: usize = 511;

// Block 0: the name, up to the byte whose bits are the places in use; how many entries there are; the operator; the order line; four zeros; the
// entries, and zeros up to the sums.
pub const NAME: usize = 2;

pub const NAME_MOST: usize = 15;

pub const USED_BITS: usize = 17;

pub const ENTRY_COUNT: usize = 18;

pub const OPERATOR: usize = 19;

pub const LINE: usize = 20;

pub const LINE_END: usize = 28;

pub const ENTRIES: usize = 32;

pub const ENTRIES_END: usize = 448;

pub const ENTRIES_MOST: usize = 4;

// An entry: its label behind the byte that says how long it is, then its flags, its limit, and a zero.
pub const ENTRY_LENGTH: usize = 104;

pub const LABEL: usize = 1;

pub const LABEL_MOST: usize = 100;

pub const FLAGS: usize = 101;

pub const LIMIT: usize = 102;

// A block of a place has three texts, each in a room of its own; their lengths stand before the first. In the first block they are Session-Id,
// host and policy, in the second the realm and two more policies.
pub const FIRST_TEXT: usize = 8;

pub const SECOND_TEXT: usize = 136;

pub const THIRD_TEXT: usize = 264;

pub const TEXT_ROOM: usize = 128;

pub const TWO_ROOMS: usize = 256;

// The bytes of a row: 4,608 in form 1, 8,704 in form 2.
pub fn row_length(form: usize) -> usize
    requires { form ≤ 2 }
    ensures { result ≡ row_length form }
{
    BLOCK_LENGTH + PLACES * (BLOCK_LENGTH * form)
}

// The two sums of a block, each a remainder modulo 255.
#[derive(Clone, Copy)]
pub struct Sums {
    pub first: u16,
    pub second: u16,
}

// The plain sums of a column of 16 bytes: its bytes, and each byte as often as there are bytes behind it.
#[derive(Clone, Copy)]
struct Plain {
    first: u16,
    before: u16,
}

// Column j, where the 512 bytes of a block stand in 16 rows of 32.
fn column(s: &[u8], j: usize) -> Plain
    requires { (length s.now ≡ block_length) × (j < 32) }
    ensures { (result.first ≡ column_first 16 s.now j) × (result.before ≡ column_before 16 s.now j) × (result.first ≤ 4080) × (result.before ≤ 65280) }
{
    let mut a: u16 = 0;
    let mut b: u16 = 0;
    let mut at: usize = j;
    let mut k: usize = 0;

    // An index loop: the place goes up by a row of 32, so that the loop has no multiplication.
    while k < 16 {
        b += a;
        a += u16::from(s[at]);
        at += 32;
        k += 1;
    }
    Plain {
        first: a,
        before: b,
    }
}

// A smaller number with the same remainder: 256 leaves 1 modulo 255.
fn folded(x: u16) -> u16
    ensures { (x ≡ result + 255 * (x / 256)) × (result ≤ 255 + x / 256) }
{
    x % 256 + x / 256
}

// Fletcher-16 over the 510 bytes of a block that come before its sums. All 512 are added up, and the last two taken out again: over the
// whole block byte j of row k counts 512 - (32 k + j) = 32 (15 - k) + (32 - j) times in the second sum. Columns do not depend on each other,
// and all numbers stay within 16 bits, so that the compiler takes eight columns at a time; one remainder each is enough.
pub fn sums_of(s: &[u8]) -> Sums
    requires { length s.now ≡ block_length }
    ensures { (result.second ∷ result.first ∷ [] ≡ sums (take 510 s.now)) × (result.first < 255) × (result.second < 255) }
{
    let mut a: u16 = 0;
    let mut b: u16 = 0;
    let mut weight: u16 = 32;
    for j in 0..32 {
        let c = column(s, j);
        let first = folded(c.first);
        let before = folded(c.before);
        a += first;
        b += folded(32 * before + weight * first);
        weight -= 1;
    }
    let p = u16::from(s[SECOND_SUM]);
    let q = u16::from(s[FIRST_SUM]);
    let first = (a + 510 - p - q) % 255;
    let second = (b + 1530 - 2 * first - 2 * p - q) % 255;
    Sums { first, second }
}

// THE ROWS OF A TABLE

// Number 1 where there is no such form or the table is not 1 to 1,024 rows of it, else 0.
pub fn table_number(t: &[u8], form: u32) -> u32
    ensures { result ≡ table_number (lent form t.now) }
{
    if form < 1 {
        return 1;
    }
    if 2 < form {
        return 1;
    }
    let width = row_length(form as usize);
    let n = t.len();
    if n == 0 {
        return 1;
    }
    if MOST_ROWS * width < n {
        return 1;
    }
    if n % width != 0 {
        return 1;
    }
    0
}

// The first number of a call that brings an operator: that of the table, or 33; 0 where there is none.
pub fn number_for(t: &[u8], form: u32, op: u32) -> u32
    ensures { result ≡ first_number (lent form t.now) op }
{
    let n = table_number(t, form);
    if n != 0 {
        return n;
    }
    if 15 < op {
        return 33;
    }
    0
}

// Whether a row is found by the name. Nothing behind the name's bytes is read.
fn has_name(r: &[u8], name: &[u8]) -> bool
    requires { 20 ≤ length r.now }
    ensures { result ≡ has_name name.now r.now }
{
    if r[0] != 1 {
        return false;
    }
    let n = usize::from(r[1]);
    if n < 1 {
        return false;
    }
    if NAME_MOST < n {
        return false;
    }
    if n != name.len() {
        return false;
    }
    let end = NAME + n;
    octets::same_bytes(&r[NAME..end], name)
}

// Whether a row is that of an account.
fn is_row_of(r: &[u8], op: u32, name: &[u8]) -> bool
    requires { 20 ≤ length r.now }
    ensures { result ≡ is_row_of (record { operator = op; name = name.now }) r.now }
{
    if u32::from(r[OPERATOR]) != op {
        return false;
    }
    has_name(r, name)
}

// The first place from `from` on, in steps of a row, that has these eight bytes; past the table's end where none has.
fn next_like(t: &[u8], form: usize, end: u64, from: usize) -> usize
    requires { (table_number (lent form t.now) ≡ 0) × (from % row_length form + 8 ≤ row_length form) × (from / row_length form ≤ length t.now / row_length form) }
    ensures { (result % row_length form ≡ from % row_length form) × (from / row_length form ≤ result / row_length form) × (result / row_length form ≤ length t.now / row_length form)
        × ((j : ℕ) → from / row_length form ≤ j → j < result / row_length form → low64 t.now (row_length form * j + from % row_length form) ≡ end → ⊥) }
{
    let width = row_length(form);
    let mut at: usize = from;

    // An index loop: the step is the width of a row, and the place itself is the answer.
    while at < t.len() {
        if octets::eight(t, at) == end {
            break;
        }
        at += width;
    }
    at
}

// Rows from the i-th on and before the result are not the account's. Of a name of 8 bytes or more the last eight are looked at first, at once:
// names of one operator differ there. Where they are the same, the operator is looked at: other operators may have the same names. So that this costs little too, the table from
// the first operator's byte on is a part by itself, and one place serves both; no table is shorter than that, but without the test the compiler would add up a place each time.
fn rows_passed(t: &[u8], form: usize, op: u32, name: &[u8], i: usize) -> usize
    requires { (table_number (lent form t.now) ≡ 0) × (i ≤ length t.now / row_length form) }
    ensures { (i ≤ result) × (result ≤ length t.now / row_length form)
        × ((j : ℕ) → i ≤ j → j < result → is_row_of (record { operator = op; name = name.now }) (row_at (lent form t.now) j) ≡ false) }
{
    let n = name.len();
    if n < 8 {
        return i;
    }
    if NAME_MOST < n {
        return i;
    }
    let end = octets::eight(name, n - 8);
    let behind = 25 - n;
    let all = t.len();
    if all < behind {
        return i;
    }
    let operators = &t[behind..all];
    let width = row_length(form);
    let mut at: usize = next_like(t, form, end, width * i + (n - 6));

    // An index loop: each place is the one that `next_like` finds.
    while at < t.len() {
        if u32::from(operators[at]) == op {
            break;
        }
        at = next_like(t, form, end, at + width);
    }
    at / width
}

// A subscriber's row, counted from 0, sound or not.
pub fn lookup(t: &[u8], form: usize, op: u32, name: &[u8]) -> Option<usize>
    requires { table_number (lent form t.now) ≡ 0 }
    ensures { (found result ≡ lookup (lent form t.now) (record { operator = op; name = name.now })) × (row_end form result ≤ length t.now) }
{
    let width = row_length(form);
    let mut n: usize = rows_passed(t, form, op, name, 0);
    let mut at: usize = width * n;

    // An index loop: each row is the one behind those that `rows_passed` passes.
    while at < t.len() {
        let end = at + width;
        if is_row_of(&t[at..end], op, name) {
            return Some(n);
        }
        n = rows_passed(t, form, op, name, n + 1);
        at = width * n;
    }
    None
}

// Whether a row is one of an operator's.
fn is_own(r: &[u8], op: u32) -> bool
    requires { 20 ≤ length r.now }
    ensures { result ≡ is_own op r.now }
{
    if r[0] != 1 {
        return false;
    }
    u32::from(r[OPERATOR]) == op
}

// How many rows are an operator's.
pub fn own_rows(t: &[u8], form: usize, op: u32) -> u32
    requires { table_number (lent form t.now) ≡ 0 }
    ensures { result ≡ length (own_rows op (lent form t.now)) }
{
    let mut count: u32 = 0;
    for r in t.chunks_exact(row_length(form)) {
        if is_own(r, op) {
            count += 1;
        }
    }
    count
}

// Whether a row is wholly zero. A row in use differs in byte 0 already.
fn zero_row(r: &[u8]) -> bool
    requires { 1 ≤ length r.now }
    ensures { result ≡ all_zero r.now }
{
    if r[0] != 0 {
        return false;
    }
    octets::all_zero(r)
}

// The first wholly zero row, counted from 0.
pub fn first_zero_row(t: &[u8], form: usize) -> Option<usize>
    requires { table_number (lent form t.now) ≡ 0 }
    ensures { (found result ≡ first_row all_zero (rows (lent form t.now))) × (row_end form result ≤ length t.now) }
{
    for (i, r) in t.chunks_exact(row_length(form)).enumerate() {
        if zero_row(r) {
            return Some(i);
        }
    }
    None
}
