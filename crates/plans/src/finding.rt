// What a request speaks of, read from a sound row.
ghost use Rattle.std.specs.Prelude.{◌≡◌, true, ◌&&◌, IfSome, ℕ, ◌+◌, ◌-◌, ◌*◌, ◌≤◌, ◌<◌, eqb, length};
ghost use Rattle.octets.specs.Texts.{same};
ghost use Rattle.table.specs.TheTable.{access_at, read_row};
ghost use Rattle.table.specs.Soundness.{is_row, on_entry, same_label, sound};
ghost use Rattle.rules.specs.Deciding.{entry_named, entry_at, with_session, place_of, first_on};
ghost use Rattle.plans.specs.Plans.{found};

// Whether the access at a place is on this entry.
fn on_entry(row: &[u8], place: usize, entry: usize) -> bool
    requires { (is_row row.now ≡ true) × (1 ≤ place) × (place ≤ 8) }
    ensures { result ≡ eqb (access_at row.now place).entry entry }
{
    usize::from(row::entry_of(row, place)) == entry
}

// Whether the access at a place has this Session-Id.
fn has_session(row: &[u8], place: usize, session: &[u8]) -> bool
    requires { (is_row row.now ≡ true) × (1 ≤ place) × (place ≤ 8) }
    ensures { result ≡ same (access_at row.now place).session session.now }
{
    octets::same_bytes(row::session(row, place), session)
}

// Whether the access at a place is on this entry and has this Session-Id.
fn is_access(row: &[u8], place: usize, entry: usize, session: &[u8]) -> bool
    requires { (is_row row.now ≡ true) × (1 ≤ place) × (place ≤ 8) }
    ensures { result
        ≡ eqb (access_at row.now place).entry entry
        && same (access_at row.now place).session session.now }
{
    on_entry(row, place, entry) && has_session(row, place, session)
}

// The place of the entry's first-opened access: the search along the order line yields it by break.
pub fn first_on(row: &[u8], entry: usize) -> Option<usize>
    requires { sound row.now ≡ true }
    ensures { (result ≡ found (first_on entry (read_row row.now).accesses)) × IfSome result (λ k. k ≤ 8) }
{
    'line: {
        for i in 0..table::PLACES {
            let first = row::line_place(row, i);
            if first == 0 {
                break 'line None;
            }
            if on_entry(row, first, entry) {
                break 'line Some(first);
            }
        }
        None
    }
}

// The place of the access with this Session-Id.
pub fn place_of(row: &[u8], session: &[u8]) -> Option<usize>
    requires { sound row.now ≡ true }
    ensures { (result ≡ found (place_of (with_session session.now (read_row row.now).accesses))) × IfSome result (λ k. k ≤ 8) }
{
    for i in 0..table::PLACES {
        let place = row::line_place(row, i);
        if place == 0 {
            return None;
        }
        if has_session(row, place, session) {
            return Some(place);
        }
    }
    None
}

// The place of the access with this Session-Id on this entry.
pub fn place_on(row: &[u8], entry: usize, session: &[u8]) -> Option<usize>
    requires { sound row.now ≡ true }
    ensures { (result ≡ found (place_of (with_session session.now (on_entry entry (read_row row.now).accesses)))) × IfSome result (λ k. k ≤ 8) }
{
    for i in 0..table::PLACES {
        let place = row::line_place(row, i);
        if place == 0 {
            return None;
        }
        if is_access(row, place, entry, session) {
            return Some(place);
        }
    }
    None
}

// How many entries there are.
fn entry_count(row: &[u8]) -> usize
    requires { sound row.now ≡ true }
    ensures { (result ≡ length (read_row row.now).entries) × (result ≤ 4) }
{
    usize::from(row::entry_count(row))
}

// Whether entry n, counted from 1, has this label.
fn has_label(row: &[u8], n: usize, label: &[u8]) -> bool
    requires { (sound row.now ≡ true) × (1 ≤ n) × (n ≤ length (read_row row.now).entries) }
    ensures { result ≡ same_label label.now (entry_at n (read_row row.now)).label }
{
    blocks::same_label(label, row::label(row::entries_room(row), n - 1))
}

// The number of the first entry with this label, counted from 1.
pub fn entry_named(row: &[u8], label: &[u8]) -> Option<usize>
    requires { sound row.now ≡ true }
    ensures { (result ≡ found (entry_named label.now (read_row row.now)))
        × IfSome result (λ n. (1 ≤ n) × (n ≤ length (read_row row.now).entries)) }
{
    for n in 1..=entry_count(row) {
        if has_label(row, n, label) {
            return Some(n);
        }
    }
    None
}

// The flags of entry n.
pub fn flags_of(row: &[u8], n: usize) -> u8
    requires { (sound row.now ≡ true) × (1 ≤ n) × (n ≤ length (read_row row.now).entries) }
    ensures { result ≡ (entry_at n (read_row row.now)).flags }
{
    row::flags(row::entries_room(row), n - 1)
}

// The limit of entry n.
pub fn limit_of(row: &[u8], n: usize) -> u8
    requires { (sound row.now ≡ true) × (1 ≤ n) × (n ≤ length (read_row row.now).entries) }
    ensures { result ≡ (entry_at n (read_row row.now)).limit }
{
    row::limit(row::entries_room(row), n - 1)
}
