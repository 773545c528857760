// When a row is sound: its blocks have their form, its order line is exact, and its accesses may be.
#![tactic(auto)]

ghost use Rattle.std.specs.Prelude.{◌≡◌, true, false, not, [], ◌+◌, ◌-◌, ◌/◌, ◌%◌, ◌^◌, ◌<◌, ◌≤◌, length, get_or, drop, eqb};
ghost use Rattle.octets.specs.Texts.{same};
ghost use Rattle.table.specs.TheTable.{block_length, form_of, head, order_line, places, read_row};
ghost use Rattle.octets.specs.Lists.{every, distinct};
ghost use Rattle.table.specs.Soundness.{is_row, limits, line_exact, sessions, on_entry, under_limits, sound};
ghost use Rattle.blocks.specs.RowTests.{place_sound, head_sound};
ghost use Rattle.soundness.specs.Blocks.{first_sound, other_sound};

// THE ORDER LINE, AND BYTE 17

// Bit k - 1 is set: place k is in use.
pub fn in_use(bits: u8, k: usize) -> bool
    requires { (1 ≤ k) × (k ≤ 8) }
    ensures { result ≡ eqb (bits / 2 ^ (k - 1) % 2) 1 }
{
    bits >> (k - 1) & 1 == 1
}

// The bits with that of place k, which was not among them.
fn with_place(bits: u8, k: usize) -> u8
    requires { (1 ≤ k) × (k ≤ 8) × (eqb (bits / 2 ^ (k - 1) % 2) 1 ≡ false) }
    ensures { result ≡ bits + 2 ^ (k - 1) }
{
    bits | 1 << (k - 1)
}

// The order line is the places in use. Its bits are gathered, and none comes twice.
pub fn line_exact(r: &[u8]) -> bool
    requires { block_length ≤ length r.now }
    ensures { result ≡ line_exact r.now }
{
    let n = blocks::line_length(row::line_room(r));
    let mut used: u8 = 0;
    for i in 0..n {
        let k = row::line_place(r, i);
        if table::PLACES < k {
            return false;
        }
        if in_use(used, k) {
            return false;
        }
        used = with_place(used, k);
    }
    row::used_bits(r) == used
}

// How many accesses there are: the ones of byte 17.
pub fn accesses_in_use(r: &[u8]) -> usize
    requires { (block_length ≤ length r.now) × (line_exact r.now ≡ true) }
    ensures { (result ≡ length (order_line r.now)) × (result ≤ 8) }
{
    u8::count_ones(row::used_bits(r)) as usize
}

// THE PLACES

// The first block of a place: that of an access, or zero where the place is free.
fn first_sound(r: &[u8], k: usize, n: u8) -> bool
    requires { (is_row r.now ≡ true) × (1 ≤ k) × (k ≤ 8) }
    ensures { result ≡ first_sound n r.now k }
{
    let block = row::first(r, k);
    if in_use(row::used_bits(r), k) {
        return blocks::access_sound(block, n);
    }
    octets::all_zero(block)
}

// Its second block, which form 1 has not.
fn second_sound(r: &[u8], k: usize) -> bool
    requires { (is_row r.now ≡ true) × (form_of r.now ≡ 2) × (1 ≤ k) × (k ≤ 8) }
    ensures { result ≡ other_sound r.now k }
{
    let block = row::first(r, k);
    let more = row::second(r, k);
    if in_use(row::used_bits(r), k) {
        return blocks::second_sound(more, block[5]);
    }
    octets::all_zero(more)
}

fn firsts_sound(r: &[u8], n: u8) -> bool
    requires { is_row r.now ≡ true }
    ensures { result ≡ every (first_sound n r.now) places }
{
    for k in 1..9 {
        if !first_sound(r, k, n) {
            return false;
        }
    }
    true
}

fn seconds_sound(r: &[u8]) -> bool
    requires { (is_row r.now ≡ true) × (form_of r.now ≡ 2) }
    ensures { result ≡ every (other_sound r.now) places }
{
    for k in 1..9 {
        if !second_sound(r, k) {
            return false;
        }
    }
    true
}

// The first blocks of all places, then the second ones: form 1 is tested as if there were no other.
fn places_sound(r: &[u8], n: u8) -> bool
    requires { is_row r.now ≡ true }
    ensures { result ≡ every (place_sound n r.now) places }
{
    if !firsts_sound(r, n) {
        return false;
    }
    if r.len() == table::ROW_LENGTH_1 {
        return true;
    }
    seconds_sound(r)
}

// WHAT THE ACCESSES SAY, along an exact order line

// No Session-Id behind that of the i-th access is the same.
fn session_once(r: &[u8], n: usize, i: usize) -> bool
    requires { (is_row r.now ≡ true) × (line_exact r.now ≡ true) × (n ≡ length (order_line r.now)) × (i < n) }
    ensures { result ≡ every (λ y. not (same (get_or (sessions (read_row r.now).accesses) i []) y)) (drop (i + 1) (sessions (read_row r.now).accesses)) }
{
    let this = row::session(r, row::line_place(r, i));
    for j in i + 1..n {
        let other = row::session(r, row::line_place(r, j));
        if octets::same_bytes(this, other) {
            return false;
        }
    }
    true
}

pub fn sessions_differ(r: &[u8]) -> bool
    requires { (is_row r.now ≡ true) × (line_exact r.now ≡ true) }
    ensures { result ≡ distinct same (sessions (read_row r.now).accesses) }
{
    let n = accesses_in_use(r);
    for i in 0..n {
        if !session_once(r, n, i) {
            return false;
        }
    }
    true
}

// How many accesses are on entry e.
pub fn accesses_on(r: &[u8], e: usize) -> usize
    requires { (is_row r.now ≡ true) × (line_exact r.now ≡ true) }
    ensures { (result ≡ length (on_entry e (read_row r.now).accesses)) × (result ≤ 8) }
{
    let n = accesses_in_use(r);
    let mut count: usize = 0;
    for i in 0..n {
        let on = row::entry_of(r, row::line_place(r, i));
        if usize::from(on) == e {
            count += 1;
        }
    }
    count
}

// No entry has more accesses than its limit.
pub fn under_limits(r: &[u8], n: usize) -> bool
    requires { (is_row r.now ≡ true) × (line_exact r.now ≡ true) × (n ≡ get_or (head r.now) 18 0) × (n ≤ 4) }
    ensures { result ≡ under_limits 1 (limits (read_row r.now).entries) (read_row r.now).accesses }
{
    let entries = row::entries_room(r);
    for i in 0..n {
        if usize::from(row::limit(entries, i)) < accesses_on(r, i + 1) {
            return false;
        }
    }
    true
}

// A ROW

// Block 0 but for its sums and its order line's places: its form, the entries' form, their labels and limits.
fn head_sound(r: &[u8]) -> bool
    requires { block_length ≤ length r.now }
    ensures { result ≡ head_sound r.now }
{
    if !blocks::head_form(row::head(r)) {
        return false;
    }
    let n = usize::from(row::entry_count(r));
    let entries = row::entries_room(r);
    if !blocks::entries_form(entries, n) {
        return false;
    }
    if !blocks::labels_differ(entries, n) {
        return false;
    }
    blocks::limits_sum(entries, n) <= 8
}

// All tests of a row. The cheap ones come first, the sums of block 0 last.
fn all_sound(r: &[u8]) -> bool
    requires { is_row r.now ≡ true }
    ensures { result ≡ sound r.now }
{
    if !head_sound(r) {
        return false;
    }
    if !line_exact(r) {
        return false;
    }
    let n = row::entry_count(r);
    if !places_sound(r, n) {
        return false;
    }
    if !sessions_differ(r) {
        return false;
    }
    if !under_limits(r, usize::from(n)) {
        return false;
    }
    blocks::block_sums_agree(row::head(r))
}

// A row is sound. That it has at most four entries is among the tests, and asked once more: in form 1 behind them, in form 2 before. So the tests have two
// callers that can not be made one, wherever a row is tested, and the compiler keeps them apart. In a burst they would else be put in line into
// the request, which would then be too large for the burst's loop (docs/PERFORMANCE.md).
pub fn row_sound(r: &[u8]) -> bool
    requires { is_row r.now ≡ true }
    ensures { result ≡ sound r.now }
{
    if r.len() == table::ROW_LENGTH_1 {
        if !all_sound(r) {
            return false;
        }
        return row::entry_count(r) <= 4;
    }
    if 4 < row::entry_count(r) {
        return false;
    }
    all_sound(r)
}
