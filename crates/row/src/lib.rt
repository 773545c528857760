// What a row says, by meaning. Where things stand in a row is known here and to those who write them (`changes`); everybody else asks.
#![tactic(auto)]

ghost use Rattle.std.specs.Prelude.{◌≡◌, true, ◌+◌, ◌-◌, ◌*◌, ◌%◌, ◌≤◌, ◌<◌, length, get_or};
ghost use Rattle.octets.specs.Choice.{within};
ghost use Rattle.octets.specs.Texts.{part};
ghost use Rattle.table.specs.Answers.{lent};
ghost use Rattle.table.specs.Soundness.{is_row};
ghost use Rattle.table.specs.TheTable.{place_length, block_length, access_at, entries_room, first_block, form_of, head, line_room, place, place_start, read_entry, row_at, row_length, second_block};

// ROW i OF A TABLE, counted from 0

pub fn at(table: &[u8], form: usize, i: usize) -> &[u8]
    requires { (form ≤ 2) × (row_length form * i + row_length form ≤ length table.now) }
    ensures { result.now ≡ row_at (lent form table.now) i }
{
    let width = table::row_length(form);
    let from = width * i;
    let end = from + width;
    &table[from..end]
}

// BLOCK 0

// The head of the row, its block 0.
pub fn head(r: &[u8]) -> &[u8]
    requires { block_length ≤ length r.now }
    ensures { result.now ≡ head r.now }
{
    &r[0..table::BLOCK_LENGTH]
}

// The places in use, bit k for place k + 1.
pub fn used_bits(r: &[u8]) -> u8
    requires { block_length ≤ length r.now }
    ensures { result ≡ get_or (head r.now) 17 0 }
{
    r[table::USED_BITS]
}

// How many entries there are.
pub fn entry_count(r: &[u8]) -> u8
    requires { block_length ≤ length r.now }
    ensures { result ≡ get_or (head r.now) 18 0 }
{
    r[table::ENTRY_COUNT]
}

// The room of the order line.
pub fn line_room(r: &[u8]) -> &[u8]
    requires { block_length ≤ length r.now }
    ensures { result.now ≡ line_room r.now }
{
    &r[table::LINE..table::LINE_END]
}

// The i-th byte of the order line's room: a place, or 0 behind the last.
pub fn line_place(r: &[u8], i: usize) -> usize
    requires { (block_length ≤ length r.now) × (i < 8) }
    ensures { (result ≡ get_or (line_room r.now) i 0) × (result < 256) }
{
    usize::from(r[table::LINE + i])
}

// The room of the entries.
pub fn entries_room(r: &[u8]) -> &[u8]
    requires { block_length ≤ length r.now }
    ensures { result.now ≡ entries_room r.now }
{
    &r[table::ENTRIES..table::ENTRIES_END]
}

// A PLACE, 1 to 8

// Where place k starts. The places share what the row has behind block 0.
pub fn start(r: &[u8], k: usize) -> usize
    requires { (is_row r.now ≡ true) × (1 ≤ k) × (k ≤ 8) }
    ensures { (result ≡ place_start (form_of r.now) k) × (block_length ≤ result) × (result + block_length * form_of r.now ≤ length r.now)
        × (length r.now ≡ block_length + 8 * place_length (form_of r.now)) × (1 ≤ form_of r.now) × (form_of r.now ≤ 2) }
{
    let stride = (r.len() - table::BLOCK_LENGTH) / table::PLACES;
    table::BLOCK_LENGTH + stride * (k - 1)
}

// Its bytes.
pub fn place(r: &[u8], k: usize) -> &[u8]
    requires { (is_row r.now ≡ true) × (1 ≤ k) × (k ≤ 8) }
    ensures { result.now ≡ place r.now k }
{
    let at = start(r, k);
    let end = at + (r.len() - table::BLOCK_LENGTH) / table::PLACES;
    &r[at..end]
}

// Its first block.
pub fn first(r: &[u8], k: usize) -> &[u8]
    requires { (is_row r.now ≡ true) × (1 ≤ k) × (k ≤ 8) }
    ensures { result.now ≡ first_block (place r.now k) }
{
    let at = start(r, k);
    let end = at + table::BLOCK_LENGTH;
    &r[at..end]
}

// Its second block; no bytes in form 1.
pub fn second(r: &[u8], k: usize) -> &[u8]
    requires { (is_row r.now ≡ true) × (1 ≤ k) × (k ≤ 8) }
    ensures { result.now ≡ second_block (place r.now k) }
{
    let from = start(r, k);
    let at = from + table::BLOCK_LENGTH;
    let end = from + (r.len() - table::BLOCK_LENGTH) / table::PLACES;
    &r[at..end]
}

// The number of the entry that the access at place k is on.
pub fn entry_of(r: &[u8], k: usize) -> u8
    requires { (is_row r.now ≡ true) × (1 ≤ k) × (k ≤ 8) }
    ensures { result ≡ (access_at r.now k).entry }
{
    r[start(r, k) + 1]
}

// Its Session-Id.
pub fn session(r: &[u8], k: usize) -> &[u8]
    requires { (is_row r.now ≡ true) × (1 ≤ k) × (k ≤ 8) }
    ensures { result.now ≡ (access_at r.now k).session }
{
    let from = start(r, k);
    let at = from + table::FIRST_TEXT;
    let end = at + usize::from(r[from + 2]);
    &r[at..end]
}

// The host of its gateway.
pub fn host(r: &[u8], k: usize) -> &[u8]
    requires { (is_row r.now ≡ true) × (1 ≤ k) × (k ≤ 8) }
    ensures { result.now ≡ (access_at r.now k).host }
{
    let from = start(r, k);
    let at = from + table::SECOND_TEXT;
    let end = at + usize::from(r[from + 3]);
    &r[at..end]
}

// How long its first policy is, 0 for none; and that policy, where it ends within the block.
pub fn policy_length(r: &[u8], k: usize) -> usize
    requires { (is_row r.now ≡ true) × (1 ≤ k) × (k ≤ 8) }
    ensures { (result ≡ get_or (first_block (place r.now k)) 5 0) × (result < 256) }
{
    usize::from(r[start(r, k) + 5])
}

pub fn policy(r: &[u8], k: usize) -> &[u8]
    requires { (is_row r.now ≡ true) × (1 ≤ k) × (k ≤ 8) × (get_or (first_block (place r.now k)) 5 0 ≤ 248) }
    ensures { result.now ≡ (access_at r.now k).policies.first }
{
    let at = start(r, k) + table::THIRD_TEXT;
    let end = at + policy_length(r, k);
    &r[at..end]
}

// The rooms of the first two, side by side, as a cut notice has them.
pub fn notice_rooms(r: &[u8], k: usize) -> &[u8]
    requires { (is_row r.now ≡ true) × (1 ≤ k) × (k ≤ 8) }
    ensures { result.now ≡ part (first_block (place r.now k)) 8 256 }
{
    let at = start(r, k) + table::FIRST_TEXT;
    let end = at + table::TWO_ROOMS;
    &r[at..end]
}

// WHAT A SECOND BLOCK SAYS. Form 1 has none, so a block of no bytes says nothing.

// The text that starts at `at`, of the length in byte `size`.
fn text(c: &[u8], at: usize, size: usize) -> &[u8]
    requires { (length c.now % block_length ≡ 0) × (size < block_length) × (at + get_or c.now size 0 ≤ block_length) }
    ensures { result.now ≡ part c.now at (get_or c.now size 0) }
{
    if c.is_empty() {
        return c;
    }
    let end = at + usize::from(c[size]);
    &c[at..end]
}

// The realm of the gateway.
pub fn realm(c: &[u8]) -> &[u8]
    requires { length c.now % block_length ≡ 0 }
    ensures { result.now ≡ part c.now 8 (get_or c.now 1 0) }
{
    text(c, table::FIRST_TEXT, 1)
}

// Its room, where there is a block, as a cut notice of form 2 has it.
pub fn realm_room(c: &[u8]) -> &[u8]
    requires { length c.now ≡ block_length }
    ensures { result.now ≡ part c.now 8 128 }
{
    &c[table::FIRST_TEXT..table::SECOND_TEXT]
}

// The second policy.
pub fn second_policy(c: &[u8]) -> &[u8]
    requires { length c.now % block_length ≡ 0 }
    ensures { result.now ≡ part c.now 136 (get_or c.now 3 0) }
{
    text(c, table::SECOND_TEXT, 3)
}

// The third, where it ends within the block.
pub fn third_policy(c: &[u8]) -> &[u8]
    requires { (length c.now % block_length ≡ 0) × (get_or c.now 4 0 ≤ 248) }
    ensures { result.now ≡ part c.now 264 (get_or c.now 4 0) }
{
    text(c, table::THIRD_TEXT, 4)
}

// AN ENTRY, in the room of the entries, counted from 0

// Its 104 bytes.
pub fn entry(room: &[u8], i: usize) -> &[u8]
    requires { (length room.now ≡ 416) × (i < 4) }
    ensures { result.now ≡ part room.now (104 * i) 104 }
{
    let at = table::ENTRY_LENGTH * i;
    let end = at + table::ENTRY_LENGTH;
    &room[at..end]
}

// Whether its label has 1 to 100 bytes; and the label, where it has no more.
pub fn has_label(room: &[u8], i: usize) -> bool
    requires { (length room.now ≡ 416) × (i < 4) }
    ensures { result ≡ within 1 100 (get_or room.now (104 * i) 0) }
{
    let n = room[table::ENTRY_LENGTH * i];
    1 <= n && n <= 100
}

pub fn label(room: &[u8], i: usize) -> &[u8]
    requires { (length room.now ≡ 416) × (i < 4) × (get_or room.now (104 * i) 0 ≤ 100) }
    ensures { result.now ≡ (read_entry (part room.now (104 * i) 104)).label }
{
    let at = table::ENTRY_LENGTH * i + table::LABEL;
    let end = at + usize::from(room[table::ENTRY_LENGTH * i]);
    &room[at..end]
}

pub fn flags(room: &[u8], i: usize) -> u8
    requires { (length room.now ≡ 416) × (i < 4) }
    ensures { result ≡ (read_entry (part room.now (104 * i) 104)).flags }
{
    room[table::ENTRY_LENGTH * i + table::FLAGS]
}

pub fn limit(room: &[u8], i: usize) -> u8
    requires { (length room.now ≡ 416) × (i < 4) }
    ensures { result ≡ (read_entry (part room.now (104 * i) 104)).limit }
{
    room[table::ENTRY_LENGTH * i + table::LIMIT]
}
