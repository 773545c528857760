// A row of the table in words, a line at a time. Every function takes any row, of either form: what does not stand in it is left out.
#![tactic(auto)]

ghost use Rattle.std.specs.Prelude.{◌≡◌, true, ◌≤◌, length};
ghost use Rattle.table.specs.Soundness.{is_row};
ghost use Rattle.table.specs.TheTable.{block_length};

use tool_words::{number, say, text};

// Whether so many bytes are a row, of form 1 or 2.
pub fn is_row(row: &[u8]) -> bool
    ensures { (result ≡ is_row row.now) × (result ≡ true → block_length ≤ length row.now) }
{
    if row.len() == table::row_length(1) {
        return true;
    }
    if row.len() == table::row_length(2) {
        return true;
    }
    false
}

// The name in a row, nothing where byte 1 is no length of a name.
fn name(out: &mut [u8; 4096], at: usize, row: &[u8]) -> usize
    requires { block_length ≤ length row.now }
{
    let n = usize::from(row[1]);
    if table::NAME_MOST < n {
        return at;
    }
    text(out, at, &row[table::NAME..table::NAME + n])
}

// The number of a row in its table, counted from 1.
fn which(out: &mut [u8; 4096], i: usize) -> usize {
    let a = say(out, 0, b"row ");
    if i < table::MOST_ROWS {
        return number(out, a, (i + 1) as u64);
    }
    a
}

// Whose a row is: the name and the operator.
fn whose(out: &mut [u8; 4096], at: usize, row: &[u8]) -> usize
    requires { block_length ≤ length row.now }
{
    let a = name(out, at, row);
    let b = say(out, a, b", operator ");
    number(out, b, u64::from(row[table::OPERATOR]))
}

// The first line of row i: whose it is, and how many accesses stand.
pub fn head(out: &mut [u8; 4096], i: usize, row: &[u8]) -> usize
    requires { block_length ≤ length row.now }
{
    let a = which(out, i);
    let b = say(out, a, b": ");
    let c = whose(out, b, row);
    let d = say(out, c, b", ");
    let e = number(out, d, u64::from(row::used_bits(row).count_ones()));
    say(out, e, b" standing\n")
}

// The start of the line of row i, which is not sound.
pub fn unsound(out: &mut [u8; 4096], i: usize, row: &[u8]) -> usize
    requires { block_length ≤ length row.now }
{
    let a = which(out, i);
    let b = say(out, a, b": ");
    let c = whose(out, b, row);
    say(out, c, b", NOT SOUND: ")
}

// How many accesses stand on entry e, counted from 1.
pub fn standing(row: &[u8], e: usize) -> usize
    requires { is_row row.now ≡ true }
{
    let mut n = 0usize;
    for k in 1..9 {
        if usize::from(row::entry_of(row, k)) == e {
            n = n.saturating_add(1);
        }
    }
    n
}

fn flags(out: &mut [u8; 4096], at: usize, x: u8) -> usize {
    let meaning: &[u8] = match x {
        0 => b"",
        1 => b", barred",
        2 => b", may roam",
        _ => b", barred, may roam",
    };
    say(out, at, meaning)
}

// The label of entry e.
fn label(out: &mut [u8; 4096], at: usize, row: &[u8], e: usize) -> usize
    requires { block_length ≤ length row.now }
{
    if e < 1 || 4 < e {
        return at;
    }
    let entries = row::entries_room(row);
    if row::has_label(entries, e - 1) {
        return text(out, at, row::label(entries, e - 1));
    }
    at
}

// The line of entry e: its label, limit and flags, and how many accesses stand on it.
pub fn entry(out: &mut [u8; 4096], row: &[u8], e: usize) -> usize
    requires { (is_row row.now ≡ true) × (block_length ≤ length row.now) }
{
    if e < 1 || 4 < e || usize::from(row::entry_count(row)) < e {
        return 0;
    }
    let entries = row::entries_room(row);
    let a = say(out, 0, b"  ");
    let b = label(out, a, row, e);
    let c = say(out, b, b": limit ");
    let d = number(out, c, u64::from(row::limit(entries, e - 1)));
    let f = flags(out, d, row::flags(entries, e - 1));
    let g = say(out, f, b", ");
    let h = number(out, g, standing(row, e) as u64);
    say(out, h, b" standing\n")
}

// A policy of n bytes, behind what it is called; nothing where it is not there.
fn policy(out: &mut [u8; 4096], at: usize, name: &[u8], bytes: &[u8]) -> usize {
    if bytes.is_empty() {
        return at;
    }
    let a = say(out, at, name);
    text(out, a, bytes)
}

// The first policy of the access at place k.
fn first_policy(out: &mut [u8; 4096], at: usize, row: &[u8], k: usize) -> usize
    requires { (is_row row.now ≡ true) × (1 ≤ k) × (k ≤ 8) }
{
    let n = row::policy_length(row, k);
    if n == 0 {
        return say(out, at, b", no policy");
    }
    if table::TEXT_ROOM < n {
        return say(out, at, b", a policy too long");
    }
    policy(out, at, b", policy ", row::policy(row, k))
}

// The other two, in its second block.
fn other_policies(out: &mut [u8; 4096], at: usize, more: &[u8]) -> usize
    requires { length more.now ≡ block_length }
{
    let a = policy(out, at, b", second policy ", row::second_policy(more));
    if 128 < more[4] {
        return say(out, a, b", a third policy too long");
    }
    policy(out, a, b", third policy ", row::third_policy(more))
}

// The realm of its gateway, in its second block.
fn realm(out: &mut [u8; 4096], at: usize, more: &[u8]) -> usize
    requires { length more.now ≡ block_length }
{
    if more[1] == 0 {
        return say(out, at, b", no realm");
    }
    let a = say(out, at, b", realm ");
    text(out, a, row::realm(more))
}

// What stands behind the host: the policy, and in form 2 realm and policies.
fn rest(out: &mut [u8; 4096], at: usize, row: &[u8], k: usize) -> usize
    requires { (is_row row.now ≡ true) × (1 ≤ k) × (k ≤ 8) }
{
    let more = row::second(row, k);
    if more.len() != table::BLOCK_LENGTH {
        return first_policy(out, at, row, k);
    }
    let a = realm(out, at, more);
    let b = first_policy(out, a, row, k);
    other_policies(out, b, more)
}

// The access at place k.
fn access_at(out: &mut [u8; 4096], at: usize, row: &[u8], k: usize) -> usize
    requires { (is_row row.now ≡ true) × (block_length ≤ length row.now) × (1 ≤ k) × (k ≤ 8) }
{
    let a = text(out, at, row::session(row, k));
    let b = say(out, a, b" on ");
    let c = label(out, b, row, usize::from(row::entry_of(row, k)));
    let d = say(out, c, b", place ");
    let e = number(out, d, k as u64);
    let f = say(out, e, b", gateway ");
    let g = text(out, f, row::host(row, k));
    let h = rest(out, g, row, k);
    say(out, h, b"\n")
}

// The line of the i-th access by age, the oldest being the first.
pub fn access(out: &mut [u8; 4096], row: &[u8], i: usize) -> usize
    requires { (is_row row.now ≡ true) × (block_length ≤ length row.now) }
{
    if i < 1 || 8 < i {
        return 0;
    }
    let k = row::line_place(row, i - 1);
    if k < 1 || 8 < k {
        return 0;
    }
    let a = say(out, 0, b"    ");
    let b = number(out, a, i as u64);
    let c = say(out, b, b". ");
    access_at(out, c, row, k)
}
