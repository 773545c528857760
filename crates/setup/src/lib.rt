// The three set-up operations: clear a table, enter a subscriber, add a W-APN. A number other than 0 leaves the
// table as it was.
#![tactic(auto)]

ghost use Rattle.std.specs.Prelude.{◌≡◌, not, true, ◌&&◌, leb, ◌+◌, ◌-◌, ◌*◌, ◌≤◌, ◌<◌, length};
ghost use Rattle.octets.specs.Choice.{within};
ghost use Rattle.octets.specs.Lists.{every, sum_of};
ghost use Rattle.table.specs.Answers.{lent};
ghost use Rattle.table.specs.TheTable.{read_entries, read_row, row_at, row_bytes, row_length, with_row};
ghost use Rattle.table.specs.Soundness.{entries_form, is_name, is_row, labels, same_label, sound};
ghost use Rattle.setup.specs.SetUp.{add, clear, enter, entry_number, left, shares_fit};
ghost use Rattle.setup.specs.Parts.{share_number};
ghost use Rattle.changes.specs.Changes.{named, with_entry};

// Every byte zero.
pub fn clear(table: &mut [u8], form: u32) -> u32
    ensures { left result (lent form table.new) ≡ clear (lent form table.old) }
{
    let number = table::table_number(table, form);
    if number != 0 {
        return number;
    }
    octets::clear(table);
    0
}

// A name: 1 to 15 digits.
fn is_name(name: &[u8]) -> bool
    ensures { result ≡ is_name name.now }
{
    if name.len() < 1 {
        return false;
    }
    if table::NAME_MOST < name.len() {
        return false;
    }
    blocks::digits(name)
}

// Row i is that of a new subscriber.
fn enter_row(table: &mut [u8], form: usize, i: usize, op: u8, name: &[u8])
    requires { (form ≤ 2) × (row_length form * i + row_length form ≤ length table.old) × (length name.now ≤ 15) }
    ensures { lent form table.new ≡ with_row (lent form table.old) i (row_bytes form (named (record { operator = op; name = name.now }))) }
{
    let width = table::row_length(form);
    let a = width * i;
    let e = a + width;
    changes::new_row(&mut table[a..e], op, name);
}

// A share in 64 bits.
fn whole(x: u32) -> u64
    ensures { (result ≡ x) × (result < 4294967296) }
{
    x as u64
}

// The sum of sixteen shares, which 64 bits hold.
fn shares_sum(shares: &[u32]) -> u64
    requires { length shares.now ≡ 16 }
    ensures { result ≡ sum_of shares.now }
{
    let mut sum: u64 = 0;
    let mut i: usize = 0;
    while i < table::OPERATORS {
        sum += whole(shares[i]);
        i += 1;
    }
    sum
}

// Sixteen shares, which come to no more than the table's rows.
fn shares_fit(table: &[u8], form: usize, shares: &[u32]) -> bool
    requires { form ≤ 2 }
    ensures { result ≡ shares_fit (lent form table.now) shares.now }
{
    if shares.len() != table::OPERATORS {
        return false;
    }
    let count = table.len() / table::row_length(form);
    shares_sum(shares) <= count as u64
}

// The first number that an entering is refused with, but for a table that is full; 0 where there is none.
fn enter_number(table: &[u8], form: u32, op: u32, shares: &[u32], name: &[u8]) -> u32
    ensures { result ≡ share_number (lent form table.now) shares.now (record { operator = op; name = name.now }) }
{
    let n = table::number_for(table, form, op);
    if n != 0 {
        return n;
    }
    let f = form as usize;
    if !shares_fit(table, f, shares) {
        return 26;
    }
    if !is_name(name) {
        return 9;
    }
    if table::lookup(table, f, op, name).is_some() {
        return 10;
    }
    if shares[op as usize] <= table::own_rows(table, f, op) {
        return 27;
    }
    0
}

// A new subscriber of an operator takes the first wholly zero row.
pub fn enter(table: &mut [u8], form: u32, op: u32, shares: &[u32], name: &[u8]) -> u32
    ensures { left result (lent form table.new) ≡ enter (lent form table.old) shares.now (record { operator = op; name = name.now }) }
{
    let n = enter_number(table, form, op, shares, name);
    if n != 0 {
        return n;
    }
    let f = form as usize;
    let Some(i) = table::first_zero_row(table, f) else {
        return 11;
    };
    enter_row(table, f, i, op as u8, name);
    0
}

// None of the n labels in the room of entries is the one given.
fn label_new(room: &[u8], n: usize, label: &[u8]) -> bool
    requires { (length room.now ≡ 416) × (n ≤ 4) × (entries_form n room.now ≡ true) }
    ensures { result ≡ every (λ l. not (same_label l label.now)) (labels (read_entries n room.now)) }
{
    let mut i: usize = 0;
    while i < n {
        if blocks::same_label(row::label(room, i), label) {
            return false;
        }
        i += 1;
    }
    true
}

// What an entry is given: a label of 1 to 100 bytes, flags of at most 3, a limit of 1 to 8.
fn entry_given(label: &[u8], limit: u8, flags: u8) -> bool
    ensures { result ≡ within 1 100 (length label.now) && (leb flags 3 && within 1 8 limit) }
{
    if label.len() < 1 {
        return false;
    }
    if table::LABEL_MOST < label.len() {
        return false;
    }
    if 3 < flags {
        return false;
    }
    if limit < 1 {
        return false;
    }
    limit <= 8
}

// The number that a sound row gives to an entry, 0 where it may be added.
fn next_number(row: &[u8], label: &[u8], limit: u8, flags: u8) -> u32
    requires { sound row.now ≡ true }
    ensures { result ≡ entry_number row.now (record { label = label.now; flags = flags; limit = limit }) }
{
    if !entry_given(label, limit, flags) {
        return 14;
    }
    let n = octets::long(row::entry_count(row));
    let entries = row::entries_room(row);
    if !label_new(entries, n, label) {
        return 15;
    }
    if table::ENTRIES_MOST <= n {
        return 16;
    }
    if 8 < blocks::limits_sum(entries, n) + octets::wide(limit) {
        return 17;
    }
    0
}

// The entry behind the others of row i.
fn add_entry(table: &mut [u8], form: usize, i: usize, label: &[u8], flags: u8, limit: u8)
    requires { (form ≤ 2) × (row_length form * i + row_length form ≤ length table.old) × (sound (row_at (lent form table.old) i) ≡ true) × (length (read_row (row_at (lent form table.old) i)).entries < 4)
        × (length label.now ≤ 100) }
    ensures { lent form table.new
        ≡ with_row (lent form table.old) i (row_bytes form (with_entry (record { label = label.now; flags = flags; limit = limit }) (read_row (row_at (lent form table.old) i)))) }
{
    let width = table::row_length(form);
    let a = width * i;
    let e = a + width;
    changes::append_entry(&mut table[a..e], label, flags, limit);
}

// The number that a row gives to an entry. Nothing but its soundness is tested in an unsound row.
fn entry_number(row: &[u8], label: &[u8], limit: u8, flags: u8) -> u32
    requires { is_row row.now ≡ true }
    ensures { result ≡ entry_number row.now (record { label = label.now; flags = flags; limit = limit }) }
{
    if !soundness::row_sound(row) {
        return 13;
    }
    next_number(row, label, limit, flags)
}

// A W-APN for a subscriber.
pub fn add(
    table: &mut [u8],
    form: u32,
    op: u32,
    name: &[u8],
    label: &[u8],
    limit: u8,
    flags: u8,
) -> u32
    ensures { left result (lent form table.new)
        ≡ add (lent form table.old) (record { operator = op; name = name.now }) (record { label = label.now; flags = flags; limit = limit }) }
{
    let n = table::number_for(table, form, op);
    if n != 0 {
        return n;
    }
    let f = form as usize;
    let Some(i) = table::lookup(table, f, op, name) else {
        return 12;
    };
    let width = table::row_length(f);
    let a = width * i;
    let e = a + width;
    let m = entry_number(&table[a..e], label, limit, flags);
    if m != 0 {
        return m;
    }
    add_entry(table, f, i, label, flags, limit);
    0
}
