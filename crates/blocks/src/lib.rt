// The form of a row, block by block: block 0, its entries, a place in use, and the sums of a block.
#![tactic(auto)]

ghost use Rattle.std.specs.Prelude.{◌≡◌, true, false, not, ◌&&◌, [], ◌+◌, ◌<◌, ◌≤◌, length, get_or, drop, eqb, leb};
ghost use Rattle.octets.specs.Choice.{pick, within};
ghost use Rattle.octets.specs.Texts.{part, all_zero};
ghost use Rattle.table.specs.TheTable.{block_length, read_entries};
ghost use Rattle.octets.specs.Lists.{every, distinct, sum_of, up_to0};
ghost use Rattle.table.specs.Soundness.{zero_behind, is_digit, is_name, head_form, entry_form, entries_form, lower_case, same_label, labels, limits, access_form, second_form, only_behind, sums_agree};
ghost use Rattle.blocks.specs.RowTests.{access_sound, second_sound};

// WHAT THE TESTS SHARE

pub fn is_within(low: u8, high: u8, n: u8) -> bool
    ensures { result ≡ within low high n }
{
    low <= n && n <= high
}

// A room holds n bytes of text, and zeros behind them.
fn zero_behind(room: &[u8], n: usize) -> bool
    requires { n ≤ length room.now }
    ensures { result ≡ zero_behind n room.now }
{
    octets::all_zero(&room[n..])
}

// Bytes 510 and 511 of a block are the second and first sum of the bytes before them.
pub fn block_sums_agree(b: &[u8]) -> bool
    requires { length b.now ≡ block_length }
    ensures { result ≡ sums_agree b.now }
{
    let s = table::sums_of(b);
    let second = s.second;
    let first = s.first;
    if u16::from(b[table::SECOND_SUM]) != second {
        return false;
    }
    u16::from(b[table::FIRST_SUM]) == first
}

// BLOCK 0

pub fn digits(s: &[u8]) -> bool
    ensures { result ≡ every is_digit s.now }
{
    for x in s {
        if !x.is_ascii_digit() {
            return false;
        }
    }
    true
}

// The name: 1 to 15 digits, and zeros behind them.
fn name_form(b: &[u8]) -> bool
    requires { length b.now ≡ block_length }
    ensures { result ≡ is_name (part b.now 2 (get_or b.now 1 0)) && zero_behind (get_or b.now 1 0) (part b.now 2 15) }
{
    if !is_within(1, 15, b[1]) {
        return false;
    }
    let n = usize::from(b[1]);
    let end = table::NAME + n;
    if !digits(&b[table::NAME..end]) {
        return false;
    }
    zero_behind(&b[table::NAME..table::USED_BITS], n)
}

// How many places stand on an order line: those before its first zero.
pub fn line_length(l: &[u8]) -> usize
    ensures { (result ≡ length (up_to0 l.now)) × (result ≤ length l.now) }
{
    for (i, x) in l.iter().enumerate() {
        if *x == 0 {
            return i;
        }
    }
    l.len()
}

// Zeros behind the places on the order line.
fn line_form(l: &[u8]) -> bool
    ensures { result ≡ zero_behind (length (up_to0 l.now)) l.now }
{
    zero_behind(l, line_length(l))
}

pub fn head_form(b: &[u8]) -> bool
    requires { length b.now ≡ block_length }
    ensures { result ≡ head_form b.now }
{
    if b[0] != 1 {
        return false;
    }
    if !octets::all_zero(&b[table::ENTRIES_END..table::SECOND_SUM]) {
        return false;
    }
    if !name_form(b) {
        return false;
    }
    if 4 < b[table::ENTRY_COUNT] {
        return false;
    }
    if 15 < b[table::OPERATOR] {
        return false;
    }
    if !line_form(&b[table::LINE..table::LINE_END]) {
        return false;
    }
    octets::read32(b, table::LINE_END) == 0
}

// THE ENTRIES, in their room of 416 bytes

fn entry_form(e: &[u8]) -> bool
    requires { length e.now ≡ 104 }
    ensures { result ≡ entry_form e.now }
{
    if !is_within(1, 100, e[0]) {
        return false;
    }
    if !zero_behind(&e[table::LABEL..table::FLAGS], usize::from(e[0])) {
        return false;
    }
    if 3 < e[table::FLAGS] {
        return false;
    }
    if !is_within(1, 8, e[table::LIMIT]) {
        return false;
    }
    e[103] == 0
}

pub fn entries_form(room: &[u8], n: usize) -> bool
    requires { (length room.now ≡ 416) × (n ≤ 4) }
    ensures { result ≡ entries_form n room.now }
{
    for i in 0..n {
        if !entry_form(row::entry(room, i)) {
            return false;
        }
    }
    octets::all_zero(&room[table::ENTRY_LENGTH * n..])
}

// The sum of the limits of the first n entries.
pub fn limits_sum(room: &[u8], n: usize) -> u32
    requires { (length room.now ≡ 416) × (n ≤ 4) }
    ensures { (result ≡ sum_of (limits (read_entries n room.now))) × (result ≤ 1020) }
{
    let mut sum: u32 = 0;
    for i in 0..n {
        sum += u32::from(row::limit(room, i));
    }
    sum
}

// A letter A to Z in lower case; any other byte as it is.
fn lower_case(x: u8) -> u8
    ensures { result ≡ lower_case x }
{
    x.to_ascii_lowercase()
}

// Whether two labels of the same length are the same, byte by byte.
fn same_letters(a: &[u8], b: &[u8]) -> bool
    requires { length a.now ≡ length b.now }
    ensures { result ≡ same_label a.now b.now }
{
    for (i, x) in a.iter().enumerate() {
        if lower_case(*x) != lower_case(b[i]) {
            return false;
        }
    }
    true
}

// When two labels are the same, a letter in either case. Most are typed alike: equal bytes are told by words, and only the others are
// looked at byte by byte.
pub fn same_label(a: &[u8], b: &[u8]) -> bool
    ensures { result ≡ same_label a.now b.now }
{
    if octets::same_bytes(a, b) {
        return true;
    }
    if a.len() != b.len() {
        return false;
    }
    same_letters(a, b)
}

// No label behind label i is the same.
fn label_once(room: &[u8], n: usize, i: usize) -> bool
    requires { (length room.now ≡ 416) × (n ≤ 4) × (i < n) × (entries_form n room.now ≡ true) }
    ensures { result ≡ every (λ y. not (same_label (get_or (labels (read_entries n room.now)) i []) y)) (drop (i + 1) (labels (read_entries n room.now))) }
{
    let this = row::label(room, i);
    for j in i + 1..n {
        if same_label(this, row::label(room, j)) {
            return false;
        }
    }
    true
}

pub fn labels_differ(room: &[u8], n: usize) -> bool
    requires { (length room.now ≡ 416) × (n ≤ 4) × (entries_form n room.now ≡ true) }
    ensures { result ≡ distinct same_label (labels (read_entries n room.now)) }
{
    for i in 0..n {
        if !label_once(room, n, i) {
            return false;
        }
    }
    true
}

// A PLACE IN USE: its first block

// How long a text may be, as the byte that says how long it is: its room has no more.
const TEXT_MOST: u8 = 128;

// Byte 4 is 1 exactly if byte 5, the policy's length, is 1 or more.
pub fn policy_marked(mark: u8, size: u8) -> bool
    ensures { result ≡ eqb mark (pick (leb 1 size) 1 0) }
{
    mark == u8::from(1 <= size)
}

// Zeros behind the three texts of a block, which have these lengths, and behind the three: the last two are one stretch.
fn text_rooms(b: &[u8], first: u8, second: u8, third: u8) -> bool
    requires { (length b.now ≡ block_length) × (first ≤ 128) × (second ≤ 128) × (third ≤ 128) }
    ensures { result ≡ zero_behind first (part b.now 8 128) && (zero_behind second (part b.now 136 128) && (zero_behind third (part b.now 264 128) && all_zero (part b.now 392 118))) }
{
    if !zero_behind(
        &b[table::FIRST_TEXT..table::SECOND_TEXT],
        usize::from(first),
    ) {
        return false;
    }
    if !zero_behind(
        &b[table::SECOND_TEXT..table::THIRD_TEXT],
        usize::from(second),
    ) {
        return false;
    }
    let rest = table::THIRD_TEXT + usize::from(third);
    octets::all_zero(&b[rest..table::SECOND_SUM])
}

fn access_lengths(b: &[u8]) -> bool
    requires { length b.now ≡ block_length }
    ensures { result ≡ eqb (get_or b.now 0 0) 2 && (within 1 128 (get_or b.now 2 0) && (within 1 128 (get_or b.now 3 0) && leb (get_or b.now 5 0) 128)) }
{
    if b[0] != 2 {
        return false;
    }
    if !is_within(1, TEXT_MOST, b[2]) {
        return false;
    }
    if !is_within(1, TEXT_MOST, b[3]) {
        return false;
    }
    b[5] <= TEXT_MOST
}

pub fn access_form(b: &[u8]) -> bool
    requires { length b.now ≡ block_length }
    ensures { result ≡ access_form b.now }
{
    if !access_lengths(b) {
        return false;
    }
    if 1 < b[4] {
        return false;
    }
    if !octets::all_zero(&b[6..table::FIRST_TEXT]) {
        return false;
    }
    text_rooms(b, b[2], b[3], b[5])
}

pub fn access_sound(b: &[u8], n: u8) -> bool
    requires { length b.now ≡ block_length }
    ensures { result ≡ access_sound n b.now }
{
    if !access_form(b) {
        return false;
    }
    if !policy_marked(b[4], b[5]) {
        return false;
    }
    if !is_within(1, n, b[1]) {
        return false;
    }
    block_sums_agree(b)
}

// A PLACE IN USE: its second block, which form 1 has not

// A text of n bytes only behind one that has some.
pub fn only_behind(n: u8, before: u8) -> bool
    ensures { result ≡ only_behind n before }
{
    n == 0 || 1 <= before
}

fn second_lengths(c: &[u8]) -> bool
    requires { length c.now ≡ block_length }
    ensures { result ≡ eqb (get_or c.now 0 0) 3 && (leb (get_or c.now 1 0) 128 && (leb (get_or c.now 3 0) 128 && leb (get_or c.now 4 0) 128)) }
{
    if c[0] != 3 {
        return false;
    }
    if TEXT_MOST < c[1] {
        return false;
    }
    if TEXT_MOST < c[3] {
        return false;
    }
    c[4] <= TEXT_MOST
}

pub fn second_form(c: &[u8]) -> bool
    requires { length c.now ≡ block_length }
    ensures { result ≡ second_form c.now }
{
    if !second_lengths(c) {
        return false;
    }
    if c[2] != 0 {
        return false;
    }
    if !octets::all_zero(&c[5..table::FIRST_TEXT]) {
        return false;
    }
    text_rooms(c, c[1], c[3], c[4])
}

// Where the first policy has `first` bytes.
pub fn second_sound(c: &[u8], first: u8) -> bool
    requires { length c.now ≡ block_length }
    ensures { result ≡ second_sound c.now first }
{
    if !second_form(c) {
        return false;
    }
    if !only_behind(c[3], first) {
        return false;
    }
    if !only_behind(c[4], c[3]) {
        return false;
    }
    block_sums_agree(c)
}
