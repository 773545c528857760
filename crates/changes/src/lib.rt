// The changes to a sound row.
#![tactic(auto)]

ghost use Rattle.std.specs.Prelude.{◌≡◌, true, [], ◌+◌, ◌-◌, ◌*◌, ◌/◌, ◌^◌, ◌≤◌, ◌<◌, length, take, set};
ghost use Rattle.octets.specs.Texts.{part};
ghost use Rattle.octets.specs.Lists.{is_on};
ghost use Rattle.table.specs.Answers.{lent};
ghost use Rattle.table.specs.TheTable.{block_length, entry_bytes, first_bytes, form_of, order_line, place_length, read_row, row_at, row_bytes, row_length, sealed, second_bytes, with_row};
ghost use Rattle.table.specs.Soundness.{sound};
ghost use Rattle.changes.specs.Changes.{freed, kept_in, lowest_free, named, opened, routed, with_entry};
ghost use Rattle.changes.specs.Writes.{closed_up, entries_with, fresh, head_with, lowest_clear, opened_bytes, others_with, policy_with, routed_bytes};

// The sums of a block's first 510 bytes, written behind them: the second, then the first.
pub fn seal(block: &mut [u8])
    requires { length block.old ≡ block_length }
    ensures { block.new ≡ sealed (take 510 block.old) }
{
    let s = table::sums_of(block);
    let first = s.first as u8;
    let second = s.second as u8;
    block[table::SECOND_SUM] = second;
    block[table::FIRST_SUM] = first;
}

// The bit of place k in byte 17.
fn bit_of(k: usize) -> u8
    requires { (1 ≤ k) × (k ≤ 8) }
    ensures { result ≡ 2 ^ (k - 1) }
{
    1u8 << (k - 1)
}

// The lowest place whose bit is clear: the zeros that the complement ends in are the places below it.
pub fn lowest_free(bits: u8) -> usize
    requires { bits < 255 }
    ensures { (result ≡ lowest_clear bits) × (1 ≤ result) × (result ≤ 8) }
{
    u8::trailing_zeros(!bits) as usize + 1
}

// The order line without place k: the places behind it close up.
fn line_without(line: &[u8], k: u8) -> [u8; 8]
    requires { length line.now ≡ 8 }
    ensures { result ≡ closed_up line.now k }
{
    let mut out = [0u8; 8];
    let mut n: usize = 0;
    let mut i: usize = 0;
    while i < table::PLACES {
        let p = line[i];
        if p != k {
            out[n] = p;
            n += 1;
        }
        i += 1;
    }
    out
}

// Another byte in a block whose sums agree: the sums follow, the first by what the byte gains, the second by that as often as there are bytes
// from it on. A loss is counted as 255 less it, which is the same remainder.
fn put_byte(block: &mut [u8], at: usize, byte: u8)
    requires { (length block.old ≡ block_length) × (block.old ≡ sealed (take 510 block.old)) × (at < 510) }
    ensures { block.new ≡ sealed (set (take 510 block.old) at byte) }
{
    if block[at] == byte {
        return;
    }
    let gain = octets::long(byte) + 255 - octets::long(block[at]);
    let second = (octets::long(block[table::SECOND_SUM]) + (table::SECOND_SUM - at) * gain) % 255;
    let first = (octets::long(block[table::FIRST_SUM]) + gain) % 255;
    block[at] = byte;
    block[table::SECOND_SUM] = second as u8;
    block[table::FIRST_SUM] = first as u8;
}

// Block 0 with other places in use and another order line.
fn write_line(block: &mut [u8], bits: u8, line: [u8; 8])
    requires { (length block.old ≡ block_length) × (block.old ≡ sealed (take 510 block.old)) }
    ensures { block.new ≡ head_with block.old bits line }
{
    put_byte(block, table::USED_BITS, bits);
    let mut i: usize = 0;
    while i < table::PLACES {
        put_byte(block, table::LINE + i, line[i]);
        i += 1;
    }
}

// Block 0 with one place more at the end of its order line, behind the `count` that are there.
fn enlist(block: &mut [u8], bits: u8, count: usize, place: u8)
    requires { (length block.old ≡ block_length) × (block.old ≡ sealed (take 510 block.old)) × (count < 8) }
    ensures { block.new ≡ head_with block.old bits (set (part block.old 20 8) count place) }
{
    put_byte(block, table::USED_BITS, bits);
    put_byte(block, table::LINE + count, place);
}

// The first block of a new access.
fn write_first(block: &mut [u8], entry: u8, session: &[u8], host: &[u8])
    requires { (length block.old ≡ block_length) × (length session.now ≤ 128) × (length host.now ≤ 128) }
    ensures { block.new ≡ first_bytes (fresh entry (record { session = session.now; host = host.now; realm = [] })) }
{
    octets::clear(block);
    let head = [2, entry, session.len() as u8, host.len() as u8];
    octets::put_bytes(block, 0, &head);
    texts::put_text(block, table::FIRST_TEXT, session);
    texts::put_text(block, table::SECOND_TEXT, host);
    seal(block);
}

// Its second block.
fn write_second(block: &mut [u8], realm: &[u8])
    requires { (length block.old ≡ block_length) × (length realm.now ≤ 128) }
    ensures { block.new ≡ second_bytes (fresh 0 (record { session = []; host = []; realm = realm.now })) }
{
    octets::clear(block);
    let head = [3, realm.len() as u8];
    octets::put_bytes(block, 0, &head);
    texts::put_text(block, table::FIRST_TEXT, realm);
    seal(block);
}

// The place of a new access: its first block, and in form 2 its second.
fn write_access(place: &mut [u8], entry: u8, session: &[u8], host: &[u8], realm: &[u8])
    requires { (length place.old ≡ place_length (length place.old / block_length)) × (1 ≤ length place.old / block_length) × (length place.old / block_length ≤ 2) × (length session.now ≤ 128) × (length host.now ≤ 128) × (length realm.now ≤ 128) }
    ensures { place.new ≡ opened_bytes (length place.old / block_length) entry (record { session = session.now; host = host.now; realm = kept_in (length place.old / block_length) realm.now }) }
{
    write_first(&mut place[0..table::BLOCK_LENGTH], entry, session, host);
    if place.len() == table::BLOCK_LENGTH {
        return;
    }
    write_second(&mut place[table::BLOCK_LENGTH..table::TWO_BLOCKS], realm);
}

// The first block of a place with another first policy.
fn write_policy(block: &mut [u8], policy: &[u8])
    requires { (length block.old ≡ block_length) × (length policy.now ≤ 128) }
    ensures { block.new ≡ policy_with block.old policy.now }
{
    block[4] = 1;
    block[5] = policy.len() as u8;
    octets::put_zeros(block, table::THIRD_TEXT, table::TEXT_ROOM);
    texts::put_text(block, table::THIRD_TEXT, policy);
    seal(block);
}

// The second block of a place with another second and third policy.
fn write_others(block: &mut [u8], second: &[u8], third: &[u8])
    requires { (length block.old ≡ block_length) × (length second.now ≤ 128) × (length third.now ≤ 128) }
    ensures { block.new ≡ others_with block.old second.now third.now }
{
    block[3] = second.len() as u8;
    block[4] = third.len() as u8;
    octets::put_zeros(block, table::SECOND_TEXT, table::TWO_ROOMS);
    texts::put_text(block, table::SECOND_TEXT, second);
    texts::put_text(block, table::THIRD_TEXT, third);
    seal(block);
}

// A place with other policies: all that it held are replaced. Form 1 has room for the first alone.
fn write_policies(place: &mut [u8], first: &[u8], second: &[u8], third: &[u8])
    requires { (length place.old ≡ place_length (length place.old / block_length)) × (1 ≤ length place.old / block_length) × (length place.old / block_length ≤ 2) × (length first.now ≤ 128) × (length second.now ≤ 128) × (length third.now ≤ 128) }
    ensures { place.new ≡ routed_bytes place.old (record { first = first.now; second = second.now; third = third.now }) }
{
    write_policy(&mut place[0..table::BLOCK_LENGTH], first);
    if place.len() == table::BLOCK_LENGTH {
        return;
    }
    write_others(
        &mut place[table::BLOCK_LENGTH..table::TWO_BLOCKS],
        second,
        third,
    );
}

// The room of an entry.
fn write_entry(room: &mut [u8], label: &[u8], flags: u8, limit: u8)
    requires { (length room.old ≡ 104) × (length label.now ≤ 100) }
    ensures { room.new ≡ entry_bytes (record { label = label.now; flags = flags; limit = limit }) }
{
    octets::clear(room);
    room[0] = label.len() as u8;
    octets::put_bytes(room, table::LABEL, label);
    let end = [flags, limit];
    octets::put_bytes(room, table::FLAGS, &end);
}

// Block 0 with one entry more, behind the n that are there.
fn write_more(block: &mut [u8], n: u8, label: &[u8], flags: u8, limit: u8)
    requires { (length block.old ≡ block_length) × (n < 4) × (length label.now ≤ 100) }
    ensures { block.new ≡ entries_with block.old n (record { label = label.now; flags = flags; limit = limit }) }
{
    block[table::ENTRY_COUNT] = n + 1;
    let at = table::ENTRIES + table::ENTRY_LENGTH * octets::long(n);
    let end = at + table::ENTRY_LENGTH;
    write_entry(&mut block[at..end], label, flags, limit);
    seal(block);
}

// THE CHANGES TO A SOUND ROW

// Place k is freed: it is zeroed, its bit cleared, and the order line closes up.
pub fn free_place(row: &mut [u8], k: usize)
    requires { (sound row.old ≡ true) × (is_on (order_line row.old) k ≡ true) }
    ensures { row.new ≡ row_bytes (form_of row.old) (freed k (read_row row.old)) }
{
    let bits = row[table::USED_BITS] - bit_of(k);
    let line = line_without(&row[table::LINE..table::LINE_END], k as u8);
    let at = row::start(row, k);
    let long = (row.len() - table::BLOCK_LENGTH) / table::PLACES;
    octets::put_zeros(row, at, long);
    write_line(&mut row[0..table::BLOCK_LENGTH], bits, line);
}

// A new access takes the lowest free place and the end of the order line. The ones of byte 17 are the accesses in use.
pub fn open_place(row: &mut [u8], entry: u8, session: &[u8], host: &[u8], realm: &[u8]) -> usize
    requires { (sound row.old ≡ true) × (length (read_row row.old).accesses < 8) × (length session.now ≤ 128) × (length host.now ≤ 128) × (length realm.now ≤ 128) }
    ensures { (row.new ≡ row_bytes (form_of row.old) (opened entry (record { session = session.now; host = host.now; realm = kept_in (form_of row.old) realm.now }) (read_row row.old)))
        × (result ≡ lowest_free (read_row row.old).accesses) }
{
    let bits = row[table::USED_BITS];
    let count = u8::count_ones(bits) as usize;
    let place = lowest_free(bits);
    let a = row::start(row, place);
    let e = a + (row.len() - table::BLOCK_LENGTH) / table::PLACES;
    write_access(&mut row[a..e], entry, session, host, realm);
    enlist(
        &mut row[0..table::BLOCK_LENGTH],
        bits + bit_of(place),
        count,
        place as u8,
    );
    place
}

// Place k is cut for a new access: it is freed, then the new access takes the lowest free place and the end of the order line.
pub fn cut_and_open_place(
    row: &mut [u8],
    k: usize,
    entry: u8,
    session: &[u8],
    host: &[u8],
    realm: &[u8],
) -> usize
    requires { (sound row.old ≡ true) × (is_on (order_line row.old) k ≡ true) × (length session.now ≤ 128) × (length host.now ≤ 128) × (length realm.now ≤ 128) }
    ensures { (row.new ≡ row_bytes (form_of row.old) (opened entry (record { session = session.now; host = host.now; realm = kept_in (form_of row.old) realm.now }) (freed k (read_row row.old))))
        × (result ≡ lowest_free (freed k (read_row row.old)).accesses) }
{
    let bits = row[table::USED_BITS] - bit_of(k);
    let count = u8::count_ones(bits) as usize;
    let place = lowest_free(bits);
    let mut line = line_without(&row[table::LINE..table::LINE_END], k as u8);
    line[count] = place as u8;
    let long = (row.len() - table::BLOCK_LENGTH) / table::PLACES;
    let cut = row::start(row, k);
    let a = row::start(row, place);
    let e = a + long;
    octets::put_zeros(row, cut, long);
    write_access(&mut row[a..e], entry, session, host, realm);
    write_line(&mut row[0..table::BLOCK_LENGTH], bits + bit_of(place), line);
    place
}

// Policies replace what place k held.
pub fn replace_policies(row: &mut [u8], k: usize, first: &[u8], second: &[u8], third: &[u8])
    requires { (sound row.old ≡ true) × (is_on (order_line row.old) k ≡ true) × (1 ≤ length first.now) × (length first.now ≤ 128) × (length second.now ≤ 128) × (length third.now ≤ 128) }
    ensures { row.new ≡ row_bytes (form_of row.old) (routed k (record { first = first.now; second = second.now; third = third.now }) (read_row row.old)) }
{
    let a = row::start(row, k);
    let e = a + (row.len() - table::BLOCK_LENGTH) / table::PLACES;
    write_policies(&mut row[a..e], first, second, third);
}

// The next entry, as given.
pub fn append_entry(row: &mut [u8], label: &[u8], flags: u8, limit: u8)
    requires { (sound row.old ≡ true) × (length (read_row row.old).entries < 4) × (length label.now ≤ 100) }
    ensures { row.new ≡ row_bytes (form_of row.old) (with_entry (record { label = label.now; flags = flags; limit = limit }) (read_row row.old)) }
{
    let n = row[table::ENTRY_COUNT];
    write_more(&mut row[0..table::BLOCK_LENGTH], n, label, flags, limit);
}

// A subscriber of that operator with that name, and nothing else.
pub fn new_row(row: &mut [u8], op: u8, name: &[u8])
    requires { (length row.old ≡ row_length (form_of row.old)) × (length name.now ≤ 15) }
    ensures { row.new ≡ row_bytes (form_of row.old) (named (record { operator = op; name = name.now })) }
{
    octets::clear(row);
    let operator = [op];
    octets::put_bytes(row, table::OPERATOR, &operator);
    let head = [1, name.len() as u8];
    octets::put_bytes(row, 0, &head);
    octets::put_bytes(row, table::NAME, name);
    seal(&mut row[0..table::BLOCK_LENGTH]);
}

// THE SAME ON ROW i OF A TABLE: every other row stays as it is.

pub fn free(table: &mut [u8], form: usize, i: usize, k: usize)
    requires { (form ≤ 2) × (row_length form * i + row_length form ≤ length table.old) × (sound (row_at (lent form table.old) i) ≡ true) × (is_on (order_line (row_at (lent form table.old) i)) k ≡ true) }
    ensures { lent form table.new ≡ with_row (lent form table.old) i (row_bytes form (freed k (read_row (row_at (lent form table.old) i)))) }
{
    let width = table::row_length(form);
    let a = width * i;
    let e = a + width;
    free_place(&mut table[a..e], k);
}

pub fn open(
    table: &mut [u8],
    form: usize,
    i: usize,
    entry: u8,
    session: &[u8],
    host: &[u8],
    realm: &[u8],
) -> usize
    requires { (form ≤ 2) × (row_length form * i + row_length form ≤ length table.old) × (sound (row_at (lent form table.old) i) ≡ true) × (length (read_row (row_at (lent form table.old) i)).accesses < 8)
        × (length session.now ≤ 128) × (length host.now ≤ 128) × (length realm.now ≤ 128) }
    ensures { (lent form table.new
        ≡ with_row (lent form table.old) i (row_bytes form (opened entry (record { session = session.now; host = host.now; realm = kept_in form realm.now }) (read_row (row_at (lent form table.old) i)))))
        × (result ≡ lowest_free (read_row (row_at (lent form table.old) i)).accesses) }
{
    let width = table::row_length(form);
    let a = width * i;
    let e = a + width;
    open_place(&mut table[a..e], entry, session, host, realm)
}

pub fn cut_and_open(
    table: &mut [u8],
    form: usize,
    i: usize,
    k: usize,
    entry: u8,
    session: &[u8],
    host: &[u8],
    realm: &[u8],
) -> usize
    requires { (form ≤ 2) × (row_length form * i + row_length form ≤ length table.old) × (sound (row_at (lent form table.old) i) ≡ true) × (is_on (order_line (row_at (lent form table.old) i)) k ≡ true)
        × (length session.now ≤ 128) × (length host.now ≤ 128) × (length realm.now ≤ 128) }
    ensures { (lent form table.new
        ≡ with_row (lent form table.old) i (row_bytes form (opened entry (record { session = session.now; host = host.now; realm = kept_in form realm.now }) (freed k (read_row (row_at (lent form table.old) i))))))
        × (result ≡ lowest_free (freed k (read_row (row_at (lent form table.old) i))).accesses) }
{
    let width = table::row_length(form);
    let a = width * i;
    let e = a + width;
    cut_and_open_place(&mut table[a..e], k, entry, session, host, realm)
}

pub fn route(
    table: &mut [u8],
    form: usize,
    i: usize,
    k: usize,
    first: &[u8],
    second: &[u8],
    third: &[u8],
)
    requires { (form ≤ 2) × (row_length form * i + row_length form ≤ length table.old) × (sound (row_at (lent form table.old) i) ≡ true) × (is_on (order_line (row_at (lent form table.old) i)) k ≡ true)
        × (1 ≤ length first.now) × (length first.now ≤ 128) × (length second.now ≤ 128) × (length third.now ≤ 128) }
    ensures { lent form table.new ≡ with_row (lent form table.old) i (row_bytes form (routed k (record { first = first.now; second = second.now; third = third.now }) (read_row (row_at (lent form table.old) i)))) }
{
    let width = table::row_length(form);
    let a = width * i;
    let e = a + width;
    replace_policies(&mut table[a..e], k, first, second, third);
}
