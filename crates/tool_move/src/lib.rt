// The command that moves a table to the other form, into a file that was not there. The table itself stays.
#![tactic(auto)]

ghost use Rattle.std.specs.Prelude.{◌≡◌, true, ◌≤◌, length};
ghost use Rattle.table.specs.Soundness.{is_row};
ghost use Rattle.table.specs.TheTable.{block_length};

use system::System;
use tool_words::{number, say};

// THE ROW THAT CAN NOT BE MOVED

// The start of a line: the number, and row i, counted from 0.
fn begin(out: &mut [u8; 4096], n: u32, i: usize) -> usize {
    let a = say(out, 0, b"play: number ");
    let b = number(out, a, u64::from(n));
    let c = say(out, b, b": row ");
    if i < tool_form::MOST_ROWS {
        return number(out, c, (i + 1) as u64);
    }
    c
}

// Row i, where it is unsound and not wholly zero; whether it is. Which clause it breaks is said.
fn is_unsound(sys: &System, i: usize, row: &[u8]) -> bool
    requires { (is_row row.now ≡ true) × (block_length ≤ length row.now) }
{
    if octets::all_zero(row) || soundness::row_sound(row) {
        return false;
    }
    let mut out = [0u8; 4096];
    let a = begin(&mut out, 20, i);
    let b = say(&mut out, a, b" is not sound: ");
    let c = tool_faults::reason(&mut out, b, row, clauses::broken(row));
    tool_files::note(sys, &out, c);
    tool_files::mark(sys);
    true
}

// What the access at place k holds that form 1 has no room for, said of row i; whether it holds such a thing.
fn is_wide_at(sys: &System, i: usize, row: &[u8], k: usize) -> bool
    requires { (is_row row.now ≡ true) × (1 ≤ k) × (k ≤ 8) }
{
    let more = row::second(row, k);
    if more.len() != table::BLOCK_LENGTH {
        return false;
    }
    if more[1] != 0 {
        tell_wide(sys, i, k, b" holds a realm\n");
        return true;
    }
    if more[3] != 0 {
        tell_wide(sys, i, k, b" holds a second policy\n");
        return true;
    }
    false
}

fn tell_wide(sys: &System, i: usize, k: usize, what: &[u8]) {
    let mut out = [0u8; 4096];
    let a = begin(&mut out, 21, i);
    let b = say(&mut out, a, b" has no room in form 1: the access at place ");
    let c = number(&mut out, b, k as u64);
    let d = say(&mut out, c, what);
    tool_files::note(sys, &out, d);
    tool_files::mark(sys);
}

// Row i, where it holds a realm or a second policy; whether it does. At which place is said.
fn is_wide(sys: &System, i: usize, row: &[u8]) -> bool
    requires { is_row row.now ≡ true }
{
    for k in 1..9 {
        if is_wide_at(sys, i, row, k) {
            return true;
        }
    }
    false
}

// Whether row i is the one that the number is given for, which is then said.
fn is_meant(sys: &System, table: &[u8], form: u32, number: u32, i: usize) -> bool {
    if tool_form::MOST_ROWS < i {
        return false;
    }
    let a = tool_form::length_of(form, i);
    let Some(row) = table.get(a..a + tool_form::row_length(form)) else {
        return false;
    };
    if !tool_row_lines::is_row(row) {
        return false;
    }
    if number == 20 {
        return is_unsound(sys, i, row);
    }
    is_wide(sys, i, row)
}

// The first row that the number is given for, said.
fn tell_row(sys: &System, table: &[u8], form: u32, number: u32) {
    for i in 0..tool_form::MOST_ROWS {
        if is_meant(sys, table, form, number, i) {
            return;
        }
    }
}

// Why nothing is moved.
fn refuse(sys: &System, table: &[u8], form: u32, number: u32) {
    match number {
        20 | 21 => tell_row(sys, table, form, number),
        _ => tool_files::refuse(sys, b"number 1 or 19: the table can not be moved"),
    }
}

// MOVING

// What was done, in a line.
fn tell(sys: &System, to: &[u8], rows: usize, form: u32) -> bool {
    let mut out = [0u8; 4096];
    let a = tool_words::text(&mut out, 0, to);
    let b = say(&mut out, a, b": the table in form ");
    let c = number(&mut out, b, u64::from(form));
    let d = say(&mut out, c, b", rows: ");
    let e = number(&mut out, d, rows as u64);
    let f = say(&mut out, e, b"\n");
    tool_files::print(sys, &out, f)
}

// The moved table written under its name, which no file has yet.
fn keep(sys: &System, to: &[u8], rows: usize, form: u32, target: &[u8]) {
    let Some(h) = tool_hold::hold_name(sys, to) else {
        return;
    };
    if tool_hold::write_new(sys, to, h, target) && tell(sys, to, rows, form) {
        tool_hold::replace(sys, to);
    }
    tool_hold::leave(sys, to, h);
}

// The form that a table does not have.
fn other(form: u32) -> u32 {
    if form == 2 { 1 } else { 2 }
}

// A table moved to the start of the room.
fn move_table(sys: &System, path: &[u8], to: &[u8], form: u32, table: &[u8], room: &mut [u8]) {
    let rows = table.len() / tool_form::row_length(form);
    if tool_form::MOST_ROWS < rows {
        return;
    }
    let goal = other(form);
    let n = tool_form::length_of(goal, rows);
    if !tool_form::check_room(sys, path, n, room) {
        return;
    }
    let Some(room) = room.get_mut(..n) else {
        return;
    };
    let number = moving::move_table(table, room, goal);
    if number != 0 {
        refuse(sys, table, form, number);
        return;
    }
    keep(sys, to, rows, goal, room);
}

// The table at a path, read to the start of one room and moved to the start of the other.
fn move_from(sys: &System, path: &[u8], to: &[u8], said: u32, table: &mut [u8], room: &mut [u8]) {
    let Some(found) = tool_form::read(sys, path, said, table) else {
        return;
    };
    if let Some(table) = table.get(..found.length) {
        move_table(sys, path, to, found.form, table, room);
    }
}

// TABLE TO [form=F], which is the form of TABLE.
pub fn run(sys: &System, table: &mut [u8], room: &mut [u8]) {
    let Some(form) = tool_form::only(sys, 4) else {
        return;
    };
    let mut path = io::buffer();
    let mut to = io::buffer();
    let n = sys.arg(2, &mut path);
    let k = sys.arg(3, &mut to);
    move_from(sys, &path[..n], &to[..k], form, table, room);
}
