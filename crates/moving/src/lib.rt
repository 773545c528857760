// Moving a table to the other form, into a room of the caller's. The table itself is only read.
#![tactic(auto)]

ghost use Rattle.std.specs.Prelude.{◌≡◌, true, map, ◌+◌, ◌-◌, ◌*◌, ◌/◌, ◌%◌, ◌≤◌, length};
ghost use Rattle.octets.specs.Lists.{every};
ghost use Rattle.table.specs.Answers.{lent};
ghost use Rattle.table.specs.Soundness.{is_row, line_exact};
ghost use Rattle.table.specs.TheTable.{place_length, block_length, access_at, form_of, rows, table_number};
ghost use Rattle.moving.specs.Moving.{fits_form1, joined_rows, movable, move, move_number, moved_row, plain_access, source};
ghost use Rattle.moving.specs.Copying.{copied_place, copied_places, copied_row};

// THE NUMBER

// A row is sound, or wholly zero.
fn row_movable(r: &[u8]) -> bool
    requires { is_row r.now ≡ true }
    ensures { result ≡ movable r.now }
{
    if soundness::row_sound(r) {
        return true;
    }
    octets::all_zero(r)
}

fn rows_movable(t: &[u8], form: usize) -> bool
    requires { table_number (lent form t.now) ≡ 0 }
    ensures { result ≡ every movable (rows (lent form t.now)) }
{
    let n = t.len() / table::row_length(form);
    for i in 0..n {
        if !row_movable(row::at(t, form, i)) {
            return false;
        }
    }
    true
}

// The access at place k has no realm and no second policy.
fn place_plain(r: &[u8], k: usize) -> bool
    requires { (is_row r.now ≡ true) × (1 ≤ k) × (k ≤ 8) }
    ensures { result ≡ plain_access (access_at r.now k) }
{
    let more = row::second(r, k);
    if row::realm(more).len() != 0 {
        return false;
    }
    row::second_policy(more).len() == 0
}

// So has none on the order line.
fn row_plain(r: &[u8]) -> bool
    requires { (is_row r.now ≡ true) × (line_exact r.now ≡ true) }
    ensures { result ≡ fits_form1 r.now }
{
    let n = soundness::accesses_in_use(r);
    for i in 0..n {
        if !place_plain(r, row::line_place(r, i)) {
            return false;
        }
    }
    true
}

fn rows_plain(t: &[u8], form: usize) -> bool
    requires { (table_number (lent form t.now) ≡ 0) × (every movable (rows (lent form t.now)) ≡ true) }
    ensures { result ≡ every fits_form1 (rows (lent form t.now)) }
{
    let n = t.len() / table::row_length(form);
    for i in 0..n {
        if !row_plain(row::at(t, form, i)) {
            return false;
        }
    }
    true
}

// The number that a table and a room get, 0 where the table moves. Nothing is written before all of it is known.
fn move_number(table: &[u8], target: &[u8], form: u32) -> u32
    ensures { result ≡ move_number form table.now target.now }
{
    if 3 < form {
        return 1;
    }
    let other = 3 - form;
    let n = table::table_number(table, other);
    if n != 0 {
        return n;
    }
    let from = other as usize;
    let count = table.len() / table::row_length(from);
    if target.len() != table::row_length(form as usize) * count {
        return 19;
    }
    if !rows_movable(table, from) {
        return 20;
    }
    if form == 2 {
        return 0;
    }
    if !rows_plain(table, from) {
        return 21;
    }
    0
}

// THE MOVE

// A place from its first block: that block, and where the form has a second, that of an access without a realm and without further policies, or zeros.
fn move_place(first: &[u8], place: &mut [u8])
    requires { (length first.now ≡ block_length) × (block_length ≤ length place.old) × (length place.old ≤ place_length 2) × (length place.old % block_length ≡ 0) }
    ensures { place.new ≡ copied_place (length place.old) first.now }
{
    octets::clear(place);
    texts::put_text(place, 0, first);
    if place.len() < table::TWO_BLOCKS {
        return;
    }
    if first[0] != 2 {
        return;
    }
    place[table::BLOCK_LENGTH] = 3;
    place[1023] = 3;
}

// The eight places of a row.
fn move_places(from: &[u8], places: &mut [u8])
    requires { (is_row from.now ≡ true) × (8 * place_length 1 ≤ length places.old) × (length places.old ≤ 8 * place_length 2) × (length places.old % (8 * place_length 1) ≡ 0) }
    ensures { places.new ≡ copied_places (length places.old / 8) from.now }
{
    let width = places.len() / table::PLACES;
    for k in 0..table::PLACES {
        let a = width * k;
        let e = a + width;
        move_place(row::first(from, k + 1), &mut places[a..e]);
    }
}

// A row: its block 0, and its places.
fn move_row(from: &[u8], room: &mut [u8])
    requires { (is_row from.now ≡ true) × (is_row room.old ≡ true) }
    ensures { room.new ≡ copied_row (form_of room.old) from.now }
{
    texts::put_text(room, 0, row::head(from));
    let end = room.len();
    move_places(from, &mut room[table::BLOCK_LENGTH..end]);
}

// All rows.
fn move_rows(table: &[u8], target: &mut [u8], form: usize)
    requires { move_number form table.now target.old ≡ 0 }
    ensures { target.new ≡ joined_rows (map (moved_row form) (rows (source form table.now))) }
{
    let width = table::row_length(form);
    let other = 3 - form;
    let n = target.len() / width;
    for i in 0..n {
        let a = width * i;
        let e = a + width;
        move_row(row::at(table, other, i), &mut target[a..e]);
    }
}

// The table in the form given, into a room that has as many rows of that form; the number is that of what forbids it, and leaves the room as it was.
pub fn move_table(table: &[u8], target: &mut [u8], form: u32) -> u32
    ensures { record { number = result; target = target.new } ≡ move form table.now target.old }
{
    let number = move_number(table, target, form);
    if number != 0 {
        return number;
    }
    move_rows(table, target, form as usize);
    0
}
