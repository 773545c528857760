// The form of a table: the word that says it, form=1 or form=2, and what the length of the file tells where it is not said; and a table read from its
// file. A length that fits both forms is refused, since nothing in a table says which one it has.
#![tactic(auto)]

ghost use Rattle.std.specs.Prelude.{◌≤◌};
ghost use Rattle.message.specs.TheRooms.{long_notice};
ghost use Rattle.table.specs.TheTable.{most_rows};
ghost use Rattle.table.specs.Answers.{row_most, table_most};

use system::System;
use tool_words::{number, say};

// The most rows of a table.
pub const MOST_ROWS: usize = table::MOST_ROWS;

// The longest table: as many of form 2.
pub const MOST: usize = table::MOST_ROWS * table::ROW_LENGTH_2;

// THE WORD

// What word i says, 0 where there is no such word. One that says no form gets its line.
pub fn word(sys: &System, i: Option<usize>) -> Option<u32> {
    let Some(i) = i else {
        return Some(0);
    };
    let mut room = io::buffer();
    let n = sys.arg(i, &mut room);
    match &room[..n] {
        b"form=1" => Some(1),
        b"form=2" => Some(2),
        word => {
            tool_files::refuse_word(sys, word, b": no form: a table has form=1 or form=2");
            None
        }
    }
}

// The same of a command that takes no other word at that place.
pub fn only(sys: &System, i: usize) -> Option<u32> {
    if sys.arg_count() <= i {
        return Some(0);
    }
    let found = tool_operator::find(sys, i, b"form=");
    if found == Some(i) {
        return word(sys, found);
    }
    tool_files::refuse(
        sys,
        b"the last word may be form=1 or form=2, and nothing else",
    );
    None
}

// Whether word i, if it is there, is the first from `first` on that says an operator, or the first that says a form.
fn is_of_both(sys: &System, first: usize, i: usize) -> bool {
    sys.arg_count() <= i
        || tool_operator::find(sys, first, b"operator=") == Some(i)
        || tool_operator::find(sys, first, b"form=") == Some(i)
}

// Whether the two last words, as far as they are there, say an operator and a form; why not is said.
pub fn check_both(sys: &System, first: usize, second: usize) -> bool {
    if is_of_both(sys, first, first) && is_of_both(sys, first, second) {
        return true;
    }
    tool_files::refuse(
        sys,
        b"the last words may be operator=N and form=1 or form=2, each once, and nothing else",
    );
    false
}

// WHAT THE LENGTH TELLS

// The bytes of a row.
pub fn row_length(form: u32) -> usize
    ensures { (1 ≤ result) × (result ≤ row_most) }
{
    if form == 2 {
        return table::row_length(2);
    }
    table::row_length(1)
}

// The bytes of a notice.
pub fn notice_length(form: u32) -> usize
    ensures { (1 ≤ result) × (result ≤ long_notice) }
{
    if form == 2 {
        return answers::NOTICE_LENGTH_2;
    }
    answers::NOTICE_LENGTH
}

// The bytes of so many rows.
pub fn length_of(form: u32, rows: usize) -> usize
    requires { rows ≤ most_rows }
    ensures { result ≤ table_most }
{
    row_length(form) * rows
}

fn fits(bytes: &[u8], form: u32) -> bool {
    table::table_number(bytes, form) == 0
}

// The line on a length that fits both forms.
fn refuse_both(sys: &System, path: &[u8], n: usize) {
    let mut out = [0u8; 4096];
    let a = say(&mut out, 0, b": its length is that of ");
    let b = number(&mut out, a, (n / table::ROW_LENGTH_1) as u64);
    let c = say(&mut out, b, b" rows of form 1 and of ");
    let d = number(&mut out, c, (n / table::ROW_LENGTH_2) as u64);
    let e = say(&mut out, d, b" rows of form 2: say form=1 or form=2");
    refuse_line(sys, path, &out, e);
}

// The line that a failure gets: the word that is meant, and the first n bytes of what is said of it.
fn refuse_line(sys: &System, word: &[u8], out: &[u8; 4096], n: usize) {
    if let Some(line) = out.get(..n) {
        tool_files::refuse_word(sys, word, line);
    }
}

// The form that was said, if the bytes are a table of it; if not, that is said.
fn as_said(sys: &System, path: &[u8], bytes: &[u8], said: u32) -> Option<u32> {
    if fits(bytes, said) {
        return Some(said);
    }
    let what: &[u8] = if said == 2 {
        b": no table of form 2: its length is not that of 1 to 1,024 rows of 8,704 bytes"
    } else {
        b": no table of form 1: its length is not that of 1 to 1,024 rows of 4,608 bytes"
    };
    tool_files::refuse_word(sys, path, what);
    None
}

// The form that the length tells; where it tells none, that is said.
fn as_told(sys: &System, path: &[u8], bytes: &[u8]) -> Option<u32> {
    match (fits(bytes, 1), fits(bytes, 2)) {
        (true, false) => Some(1),
        (false, true) => Some(2),
        (true, true) => {
            refuse_both(sys, path, bytes.len());
            None
        }
        (false, false) => {
            tool_files::refuse_word(
                sys,
                path,
                b": no table: its length is not that of 1 to 1,024 rows of 4,608 bytes, form 1, or of 8,704, form 2",
            );
            None
        }
    }
}

fn form_of(sys: &System, path: &[u8], bytes: &[u8], said: u32) -> Option<u32> {
    if said == 0 {
        return as_told(sys, path, bytes);
    }
    as_said(sys, path, bytes, said)
}

// READING

// A table as it was read: its form, and how many bytes it has.
#[derive(Clone, Copy)]
pub struct Found {
    pub form: u32,
    pub length: usize,
}

// Whether the program has room for so many bytes, and one more by which a longer file is told; if not, that is said.
pub fn check_room(sys: &System, word: &[u8], n: usize, room: &[u8]) -> bool {
    if n < room.len() {
        return true;
    }
    if MOST < room.len() {
        tool_files::refuse_word(
            sys,
            word,
            b": no table: it is longer than 1,024 rows of 8,704 bytes",
        );
        return false;
    }
    tool_files::refuse_word(
        sys,
        word,
        b": too large for the stack that the program has: it needs one of 28 MB (ulimit -s 28672)",
    );
    false
}

// The table in an open file, put at the start of the room; where there is none, that is said. What was said of its form is 0 for nothing.
pub fn fill(sys: &System, fd: i32, path: &[u8], said: u32, room: &mut [u8]) -> Option<Found> {
    let n = sys.read_full(fd, room);
    if !check_room(sys, path, n, room) {
        return None;
    }
    let form = form_of(sys, path, &room[..n], said)?;
    Some(Found { form, length: n })
}

// The same of the file at a path.
pub fn read(sys: &System, path: &[u8], said: u32, room: &mut [u8]) -> Option<Found> {
    let fd = tool_files::open_plain(sys, path)?;
    let found = fill(sys, fd, path, said, room);
    sys.close(fd);
    found
}
