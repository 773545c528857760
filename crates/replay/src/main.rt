// Plays a script of the independent program on the proved server: `replay FILE`, or `replay` with the script on standard input.
// It says which calls differ, at most twenty of them, and then how many. A script that is damaged gets one line.
// `replay FILE large` has room for the longest table of a script, 8,921,664 bytes, on a stack of 16 MB (`ulimit -s 16384`); without the word tables
// have at most 4,723,264, and the usual stack of 8 MB will do.
#![tactic(auto)]

use replay_run::{Damage, Note, Notes, Progress, Turn};
use system::{STDOUT_FILENO, System};

fn say(sys: &System, text: &[u8]) {
    sys.write_all(STDOUT_FILENO, text);
}

fn say_number(sys: &System, n: usize) {
    let mut digits = [0u8; 20];
    let k = io::decimal(n as u64, &mut digits);
    say(sys, &digits[..k]);
}

fn say_field(sys: &System, field: u32) {
    match field {
        1 => say(sys, b"code"),
        2 => say(sys, b"kind"),
        3 => say(sys, b"length"),
        4 => say(sys, b"place"),
        5 => say(sys, b"cut"),
        6 => say(sys, b"cut session"),
        7 => say(sys, b"cut host"),
        8 => say(sys, b"cut realm"),
        9 => say(sys, b"answer byte "),
        10 => say(
            sys,
            b"answer room, written behind the answer at or after byte ",
        ),
        11 => say(sys, b"notice byte "),
        12 => say(
            sys,
            b"notice room, written behind the notice at or after byte ",
        ),
        13 => say(sys, b"table all zero"),
        14 => say(sys, b"table byte "),
        15 => say(sys, b"first digest of the table"),
        16 => say(sys, b"second digest of the table"),
        _ => say(sys, b"results, number "),
    }
}

// The fields that are bytes or numbers at a place. Of results the numbers are counted through, eight to a place.
fn is_placed(field: u32) -> bool {
    matches!(field, 9..=12 | 14 | 17)
}

fn say_note(sys: &System, n: Note) {
    say(sys, b"call ");
    say_number(sys, n.call);
    say(sys, b": ");
    say_field(sys, n.field);
    if is_placed(n.field) {
        say_number(sys, n.at);
    }
    say(sys, b": expected ");
    say_number(sys, n.expected);
    say(sys, b", got ");
    say_number(sys, n.got);
    say(sys, b"\n");
}

fn say_notes(sys: &System, notes: &Notes) {
    for place in notes {
        if let Some(n) = place {
            say_note(sys, *n);
        }
    }
}

fn say_end(sys: &System, p: Progress) {
    say_number(sys, p.calls);
    say(sys, b" calls, ");
    say_number(sys, p.differing);
    say(sys, b" differ\n");
}

fn say_damage(sys: &System, number: usize, what: Damage) {
    say(sys, b"script damaged at record ");
    say_number(sys, number);
    match what {
        Damage::Ends => say(sys, b": the script ends here\n"),
        Damage::Length => say(sys, b": its length is out of bounds\n"),
        Damage::Check => say(sys, b": its check is wrong\n"),
        Damage::Header => say(sys, b": no HEADER of this format\n"),
        Damage::Kind => say(sys, b": no such type\n"),
        Damage::Fields => say(sys, b": its fields do not fill it\n"),
        Damage::Table => say(
            sys,
            b": the table would be too long for the room that it has here\n",
        ),
        Damage::Count => say(
            sys,
            b": END announces another number of calls, or HEADER of records\n",
        ),
        Damage::Behind => say(sys, b": it stands behind END\n"),
    }
}

// Reads one record whole and plays it. Nothing of a record is looked at before its check is right.
fn turn(
    sys: &System,
    fd: i32,
    table: &mut [u8],
    room: &mut [u8],
    answer: &mut [u8; 65536],
    notice: &mut [u8; 6144],
    notes: &mut Notes,
    p: Progress,
) -> Result<Turn, Damage> {
    if room.len() < 65536 {
        return Err(Damage::Length);
    }
    let got = sys.read_full(fd, &mut room[0..5]);
    if got < 5 {
        return Err(Damage::Ends);
    }
    let n = octets::read32(room, 1) as usize;
    if n < 4 || 65531 < n {
        return Err(Damage::Length);
    }
    let e = n + 5;
    let rest = sys.read_full(fd, &mut room[5..e]);
    if rest < n {
        return Err(Damage::Ends);
    }
    if !replay_script::is_checked(&room[0..e]) {
        return Err(Damage::Check);
    }
    let b = e - 4;
    replay_run::on_record(room[0], &room[5..b], table, answer, notice, notes, p)
}

// Whether the input goes on behind END.
fn goes_on(sys: &System, fd: i32) -> bool {
    let mut one = [0u8; 1];
    sys.read_full(fd, &mut one) > 0
}

fn finish(sys: &System, fd: i32, notes: &Notes, p: Progress) {
    if goes_on(sys, fd) {
        if p.records < 4294967296 {
            say_damage(sys, p.records + 2, Damage::Behind);
        }
        return;
    }
    say_notes(sys, notes);
    say_end(sys, p);
}

// A proved loop has to end, and nothing says that a script does, so the records are counted.
fn run(
    sys: &System,
    fd: i32,
    table: &mut [u8],
    room: &mut [u8; 65536],
    answer: &mut [u8; 65536],
    notice: &mut [u8; 6144],
    notes: &mut Notes,
) {
    let mut p = replay_run::begin();
    for before in 0..4294967296usize {
        match turn(sys, fd, table, room, answer, notice, notes, p) {
            Ok(Turn::Next(q)) => {
                p = q;
            }
            Ok(Turn::End(q)) => {
                finish(sys, fd, notes, q);
                return;
            }
            Err(what) => {
                say_damage(sys, before + 1, what);
                return;
            }
        }
    }
}

// The rooms besides the table. That for answers is the target of a move and the room of a disconnection too; that for notices has sixteen of form 2, and is the room of
// an AA-Request.
fn run_on(sys: &System, fd: i32, table: &mut [u8], answer: &mut [u8; 65536]) {
    let mut room = [0u8; 65536];
    let mut notice = [0u8; 6144];
    let mut notes = [None; 20];
    run(sys, fd, table, &mut room, answer, &mut notice, &mut notes);
}

fn lend_small(sys: &System, fd: i32, table: &mut [u8; 4723264], answer: &mut [u8; 65536]) {
    run_on(sys, fd, table, answer);
}

fn run_small(sys: &System, fd: i32) {
    let mut table = [0u8; 4723264];
    let mut answer = [0u8; 65536];
    lend_small(sys, fd, &mut table, &mut answer);
}

fn lend_large(sys: &System, fd: i32, table: &mut [u8; 8921664], answer: &mut [u8; 65536]) {
    run_on(sys, fd, table, answer);
}

// The compiler does not lay a function that calls itself into another, so this room takes nothing of the stack where the function is not called.
// That is all that `more` is for: a word behind `large` takes one room more, which nobody needs.
fn run_large(sys: &System, fd: i32, more: usize, answer: &mut [u8; 65536]) {
    let mut table = [0u8; 8921664];
    if 0 < more {
        let mut other = [0u8; 65536];
        run_large(sys, fd, more - 1, &mut other);
        return;
    }
    lend_large(sys, fd, &mut table, answer);
}

fn start(sys: &System, fd: i32) {
    let words = sys.arg_count();
    if words < 3 {
        run_small(sys, fd);
        return;
    }
    let mut answer = [0u8; 65536];
    run_large(sys, fd, words - 3, &mut answer);
}

// Standard input where no file is named.
fn script(sys: &System) -> i32 {
    if sys.arg_count() < 2 {
        return 0;
    }
    let mut path = io::buffer();
    let n = sys.arg(1, &mut path);
    if sys.errno() != 0 {
        sys.fail(b"replay");
        return -1;
    }
    let Some(fd) = sys.open_read(&path[..n]) else {
        sys.fail(&path[..n]);
        return -1;
    };
    fd
}

fn main(rt: HostRuntime) {
    let system = System::new(rt);
    let sys = &system;
    let fd = script(sys);
    if fd < 0 {
        say(sys, b"no script\n");
        return;
    }
    start(sys, fd);
}
