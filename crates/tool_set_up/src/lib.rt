// The commands that set a table up. A file is changed only by an operation that succeeds.
#![tactic(auto)]

use system::System;
use tool_hold::Held;

// The number of a set-up operation that changed nothing, in words.
fn refused(sys: &System, number: u32) {
    let mut out = [0u8; 4096];
    let a = tool_words::say(&mut out, 0, b"play: number ");
    let b = tool_words::number(&mut out, a, u64::from(number));
    let c = tool_words::say(&mut out, b, b": ");
    let d = tool_names::set_up(&mut out, c, number);
    let e = tool_words::say(&mut out, d, b"; nothing is changed\n");
    tool_files::note(sys, &out, e);
    tool_files::mark(sys);
}

// The table written, what is done said, and the table put in its place. That comes last, so that whatever fails leaves the table as it was.
fn keep(sys: &System, path: &[u8], h: Held, table: &[u8], done: &[u8]) {
    if !tool_hold::write_new(sys, path, h, table) {
        return;
    }
    if tool_files::say_word(sys, path, done) {
        tool_hold::replace(sys, path);
    }
}

// A table that is cleared, under a name that no file has yet.
fn make_at(sys: &System, path: &[u8], form: u32, table: &[u8]) {
    let Some(h) = tool_hold::hold_name(sys, path) else {
        return;
    };
    let done: &[u8] = if form == 2 {
        b": a new table of form 2, all rows free"
    } else {
        b": a new table, all rows free"
    };
    keep(sys, path, h, table, done);
    tool_hold::leave(sys, path, h);
}

// A table of so many free rows.
fn make(sys: &System, path: &[u8], form: u32, table: &mut [u8], rows: usize) {
    if tool_form::MOST_ROWS < rows {
        refused(sys, 1);
        return;
    }
    let n = tool_form::length_of(form, rows);
    if !tool_form::check_room(sys, path, n, table) {
        return;
    }
    let Some(table) = table.get_mut(..n) else {
        return;
    };
    let number = setup::clear(table, form);
    if number != 0 {
        refused(sys, number);
        return;
    }
    make_at(sys, path, form, table);
}

// Form 1 where none is said.
fn form_or_1(said: u32) -> u32 {
    if said == 0 { 1 } else { said }
}

fn new_at(sys: &System, path: &[u8], form: u32, rows: &[u8], table: &mut [u8]) {
    let Some(n) = tool_files::number(rows) else {
        tool_files::refuse_word(sys, rows, b": no number of rows, 1 to 1,024");
        return;
    };
    make(sys, path, form, table, n);
}

pub fn new(sys: &System, table: &mut [u8]) {
    let Some(form) = tool_form::only(sys, 4) else {
        return;
    };
    let mut path = io::buffer();
    let mut rows = io::buffer();
    let n = sys.arg(2, &mut path);
    let k = sys.arg(3, &mut rows);
    new_at(sys, &path[..n], form_or_1(form), &rows[..k], table);
}

// ENTERING

fn enter_shared(
    sys: &System,
    path: &[u8],
    h: Held,
    op: u32,
    shares: &[u32],
    name: &[u8],
    table: &mut [u8],
) {
    let number = setup::enter(table, h.form, op, shares, name);
    if number != 0 {
        refused(sys, number);
        return;
    }
    keep(sys, path, h, table, b": the subscriber is entered");
}

// What the words say of shares is read here, where the rows are known.
fn enter_held(sys: &System, path: &[u8], h: Held, op: u32, name: &[u8], table: &mut [u8]) {
    let Some(table) = table.get_mut(..h.length) else {
        return;
    };
    let mut room = [0u32; 17];
    let word = tool_operator::find(sys, 4, b"shares=");
    let rows = h.length / tool_form::row_length(h.form);
    if let Some(shares) = tool_operator::shares(sys, word, op, rows, &mut room) {
        enter_shared(sys, path, h, op, shares, name, table);
    }
}

fn enter_at(sys: &System, path: &[u8], form: u32, op: u32, name: &[u8], table: &mut [u8]) {
    if let Some(h) = tool_hold::hold(sys, path, form, table) {
        enter_held(sys, path, h, op, name, table);
        tool_hold::leave(sys, path, h);
    }
}

// Whether word i, if it is there, is the first of its kind.
fn is_of_enter(sys: &System, i: usize) -> bool {
    sys.arg_count() <= i
        || tool_operator::find(sys, 4, b"operator=") == Some(i)
        || tool_operator::find(sys, 4, b"form=") == Some(i)
        || tool_operator::find(sys, 4, b"shares=") == Some(i)
}

// Whether the words behind the name have a meaning; why not is said.
fn check_enter(sys: &System) -> bool {
    if is_of_enter(sys, 4) && is_of_enter(sys, 5) && is_of_enter(sys, 6) {
        return true;
    }
    tool_files::refuse(
        sys,
        b"behind the name there may stand operator=N, shares=A,B,.. and form=1 or form=2, each once, and nothing else",
    );
    false
}

pub fn enter(sys: &System, table: &mut [u8]) {
    if !check_enter(sys) {
        return;
    }
    let word = tool_operator::find(sys, 4, b"operator=");
    let Some(op) = tool_operator::operator(sys, word) else {
        return;
    };
    let word = tool_operator::find(sys, 4, b"form=");
    let Some(form) = tool_form::word(sys, word) else {
        return;
    };
    let mut path = io::buffer();
    let mut name = io::buffer();
    let n = sys.arg(2, &mut path);
    let k = sys.arg(3, &mut name);
    enter_at(sys, &path[..n], form, op, &name[..k], table);
}

// ADDING

// The label to be added: of which subscriber of an operator, its limit and its flags.
#[derive(Clone, Copy)]
struct Label<'a> {
    op: u32,
    name: &'a [u8],
    label: &'a [u8],
    limit: u8,
    flags: u8,
}

fn add_held(sys: &System, path: &[u8], h: Held, l: Label<'_>, table: &mut [u8]) {
    let Some(table) = table.get_mut(..h.length) else {
        return;
    };
    let number = setup::add(table, h.form, l.op, l.name, l.label, l.limit, l.flags);
    if number != 0 {
        refused(sys, number);
        return;
    }
    keep(sys, path, h, table, b": the label is added");
}

fn add_at(sys: &System, path: &[u8], form: u32, l: Label<'_>, table: &mut [u8]) {
    if let Some(h) = tool_hold::hold(sys, path, form, table) {
        add_held(sys, path, h, l, table);
        tool_hold::leave(sys, path, h);
    }
}

// What a word behind the limit says of the label: 1 barred, 2 may roam, 0 nothing, but whose the subscriber is or which form the table has; where it has a
// meaning.
fn flag(sys: &System, i: usize) -> Option<u8> {
    if sys.arg_count() <= i {
        return Some(0);
    }
    let mut word = io::buffer();
    let n = sys.arg(i, &mut word);
    match &word[..n] {
        b"barred" => Some(1),
        b"roam" => Some(2),
        _ if tool_operator::find(sys, 6, b"operator=") == Some(i) => Some(0),
        _ if tool_operator::find(sys, 6, b"form=") == Some(i) => Some(0),
        _ => None,
    }
}

// The words together: barred or roam twice says no more than once.
fn flags(sys: &System) -> Option<u8> {
    Some(flag(sys, 6)? | flag(sys, 7)? | flag(sys, 8)? | flag(sys, 9)?)
}

// The words behind the limit have a meaning. The limit is a byte for the server, which tests it; what is no byte is refused here.
fn add_of(sys: &System, form: u32, op: u32, flags: u8, table: &mut [u8]) {
    let mut path = io::buffer();
    let mut name = io::buffer();
    let mut label = io::buffer();
    let mut limit = io::buffer();
    let n = sys.arg(2, &mut path);
    let k = sys.arg(3, &mut name);
    let l = sys.arg(4, &mut label);
    let m = sys.arg(5, &mut limit);
    let said = tool_files::number(&limit[..m]);
    let Some(Ok(most)) = said.map(u8::try_from) else {
        tool_files::refuse_word(sys, &limit[..m], b": no limit, 1 to 8");
        return;
    };
    let added = Label {
        op,
        name: &name[..k],
        label: &label[..l],
        limit: most,
        flags,
    };
    add_at(sys, &path[..n], form, added, table);
}

pub fn add(sys: &System, table: &mut [u8]) {
    let Some(flags) = flags(sys) else {
        tool_files::refuse(
            sys,
            b"behind the limit there may stand barred, roam and, once each, operator=N and form=1 or form=2, and nothing else",
        );
        return;
    };
    let word = tool_operator::find(sys, 6, b"operator=");
    let Some(op) = tool_operator::operator(sys, word) else {
        return;
    };
    let word = tool_operator::find(sys, 6, b"form=");
    let Some(form) = tool_form::word(sys, word) else {
        return;
    };
    add_of(sys, form, op, flags, table);
}
