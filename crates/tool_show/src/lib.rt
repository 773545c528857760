// The command that shows a table.
#![tactic(auto)]

ghost use Rattle.std.specs.Prelude.{◌≡◌, true, ◌≤◌, length};
ghost use Rattle.table.specs.Soundness.{is_row};
ghost use Rattle.table.specs.TheTable.{block_length};

use system::System;
use tool_words::say;

// The labels of a sound row.
fn entries(sys: &System, row: &[u8], out: &mut [u8; 4096])
    requires { (is_row row.now ≡ true) × (block_length ≤ length row.now) }
{
    for e in 1..=4 {
        let n = tool_row_lines::entry(out, row, e);
        tool_files::print(sys, out, n);
    }
}

// The accesses of a sound row, from the oldest on.
fn accesses(sys: &System, row: &[u8], out: &mut [u8; 4096])
    requires { (is_row row.now ≡ true) × (block_length ≤ length row.now) }
{
    for i in 1..=8 {
        let n = tool_row_lines::access(out, row, i);
        tool_files::print(sys, out, n);
    }
}

// The line below a row that no lookup finds.
fn say_hidden(sys: &System, table: &[u8], form: u32, i: usize, row: &[u8], out: &mut [u8; 4096])
    requires { block_length ≤ length row.now }
{
    let n = tool_faults::hidden(out, table, form, i, row);
    tool_files::print(sys, out, n);
}

// A row that is not free.
fn show_row(sys: &System, table: &[u8], form: u32, i: usize, row: &[u8], out: &mut [u8; 4096])
    requires { (is_row row.now ≡ true) × (block_length ≤ length row.now) }
{
    if !soundness::row_sound(row) {
        let n = tool_row_lines::unsound(out, i, row);
        let end = tool_faults::reason(out, n, row, clauses::broken(row));
        tool_files::print(sys, out, end);
        say_hidden(sys, table, form, i, row, out);
        return;
    }
    let n = tool_row_lines::head(out, i, row);
    tool_files::print(sys, out, n);
    say_hidden(sys, table, form, i, row, out);
    entries(sys, row, out);
    accesses(sys, row, out);
}

// Row i, said; whether it is free, and nothing is said.
fn show_or_skip(sys: &System, table: &[u8], form: u32, i: usize, out: &mut [u8; 4096]) -> bool {
    if tool_form::MOST_ROWS < i {
        return false;
    }
    let a = tool_form::length_of(form, i);
    let Some(row) = table.get(a..a + tool_form::row_length(form)) else {
        return false;
    };
    if octets::all_zero(row) {
        return true;
    }
    if tool_row_lines::is_row(row) {
        show_row(sys, table, form, i, row, out);
    }
    false
}

// All rows: how many are free.
fn free_rows(sys: &System, table: &[u8], form: u32, out: &mut [u8; 4096]) -> usize {
    let mut free = 0usize;
    for i in 0..tool_form::MOST_ROWS {
        if show_or_skip(sys, table, form, i, out) {
            free = free.saturating_add(1);
        }
    }
    free
}

// The end of the last line: the form of the table.
fn say_form(sys: &System, form: u32, out: &mut [u8; 4096], at: usize) {
    let a = say(out, at, b"form ");
    let b = tool_words::number(out, a, u64::from(form));
    let c = say(out, b, b"\n");
    tool_files::print(sys, out, c);
}

fn show_all(sys: &System, table: &[u8], form: u32, out: &mut [u8; 4096]) {
    let free = free_rows(sys, table, form, out);
    let rows = table.len() / tool_form::row_length(form);
    let a = tool_words::number(out, 0, free as u64);
    let b = say(out, a, b" of ");
    let c = tool_words::number(out, b, rows as u64);
    let d = say(out, c, b" rows free, ");
    say_form(sys, form, out, d);
}

fn show_one(sys: &System, table: &[u8], form: u32, op: u32, name: &[u8], out: &mut [u8; 4096]) {
    if table::table_number(table, form) != 0 {
        return;
    }
    if table::number_for(table, form, op) != 0 {
        tool_files::refuse(sys, b"number 33: the operator is over 15");
        return;
    }
    let Some(i) = table::lookup(table, form as usize, op, name) else {
        tool_files::refuse_word(sys, name, b": the operator has no such subscriber");
        return;
    };
    show_or_skip(sys, table, form, i, out);
    say_form(sys, form, out, 0);
}

// What is shown of the table at a path: the subscriber that word 3 names, or all where it names none.
fn shown(sys: &System, path: &[u8], said: u32, op: u32, named: bool, table: &mut [u8]) {
    let Some(found) = tool_form::read(sys, path, said, table) else {
        return;
    };
    let Some(table) = table.get(..found.length) else {
        return;
    };
    let mut out = [0u8; 4096];
    if !named {
        show_all(sys, table, found.form, &mut out);
        return;
    }
    let mut name = io::buffer();
    let k = sys.arg(3, &mut name);
    show_one(sys, table, found.form, op, &name[..k], &mut out);
}

// Whether word 3 is there and is a name. A form may stand in its place, and then nothing stands behind it.
fn is_named(sys: &System) -> bool {
    match sys.arg_count() {
        0..=3 => false,
        4 => tool_operator::find(sys, 3, b"form=") != Some(3),
        _ => true,
    }
}

// TABLE [form=F], or TABLE NAME [operator=N] [form=F].
pub fn show(sys: &System, table: &mut [u8]) {
    if !tool_form::check_both(sys, 4, 5) {
        return;
    }
    let word = tool_operator::find(sys, 4, b"operator=");
    let Some(op) = tool_operator::operator(sys, word) else {
        return;
    };
    let word = tool_operator::find(sys, 3, b"form=");
    let Some(form) = tool_form::word(sys, word) else {
        return;
    };
    let mut path = io::buffer();
    let n = sys.arg(2, &mut path);
    shown(sys, &path[..n], form, op, is_named(sys), table);
}
