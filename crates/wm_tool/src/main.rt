// The tool: puts captured Diameter messages to the proved server and says what it answers, cuts and keeps. `help` lists its commands.
#![tactic(auto)]

mod example;
mod help;

ghost use Rattle.std.specs.Prelude.{◌≤◌};

use system::System;

// A command, with what it is called with, its own name included; a room for its table, in which the requests that were sent stand too; and one to spare for a command that
// makes or reads a second table.
fn run(sys: &System, word: &[u8], table: &mut [u8], spare: &mut [u8]) {
    match (word, sys.arg_count()) {
        (b"new", 4..=5) => tool_set_up::new(sys, table),
        (b"enter", 4..=7) => tool_set_up::enter(sys, table),
        (b"add", 6..=10) => tool_set_up::add(sys, table),
        (b"move", 4..=5) => tool_move::run(sys, table, spare),
        (b"judge", 7..=10) => tool_judge::run(sys, table, spare),
        (b"show", 3..=6) => tool_show::show(sys, table),
        (b"handle", 6..=16) => tool_handle::handle(sys, table),
        (b"decode", 3..=5) => tool_decode::decode(sys),
        (b"abort", 6..=8) => tool_abort::run(sys),
        (b"abort-answers", 4) => tool_abort_answers::run(sys, table),
        (b"reauth", 10..=12) => tool_reauth::run(sys),
        (b"report", 4..=9) => tool_report::run(sys, table),
        (b"board", 5..=6) => tool_board::run(sys, table),
        _ => help::refuse(sys, word),
    }
}

// THE ROOMS. They are on the stack. A room has one byte more than the longest table in it, by which a longer file is told.

// Whether the stack may have 28 MB; `play` asks for more.
fn is_large(sys: &System) -> bool {
    let limit = tool_limits::limit(sys, tool_limits::STACK);
    29360128 <= limit.current
}

// How many rooms a command needs besides the first.
fn more_rooms(word: &[u8]) -> usize {
    match word {
        b"move" | b"judge" => 1,
        _ => 0,
    }
}

// A command, with a room for 1,024 rows of either form.
fn run_in(sys: &System, word: &[u8], table: &mut [u8; 8912897], spare: &mut [u8]) {
    run(sys, word, table, spare);
}

// One room more, where the first is the one to spare.
#[cycle(run_below_run_large)]
fn run_below(sys: &System, word: &[u8], more: usize, room: &mut [u8; 8912897])
    requires { 1 ≤ more }
{
    run_large(sys, word, more - 1, room);
}

// The rooms for 1,024 rows of either form, one below the other. The compiler does not lay a function that calls itself into another, so they take
// nothing of the stack where this function is not called.
#[cycle(run_below_run_large)]
fn run_large(sys: &System, word: &[u8], more: usize, spare: &mut [u8]) {
    let mut room = [0u8; 8912897];
    if 0 < more {
        run_below(sys, word, more, &mut room);
        return;
    }
    run_in(sys, word, &mut room, spare);
}

// What the usual stack of 8 MB holds: 1,024 rows of form 1 or 542 of form 2, and a move of 128 rows or 128 cases to judge.
fn run_narrow(sys: &System, word: &[u8], table: &mut [u8; 4718593], spare: &mut [u8; 1114113]) {
    run(sys, word, table, spare);
}

fn run_small(sys: &System, word: &[u8]) {
    let mut table = [0u8; 4718593];
    let mut spare = [0u8; 1114113];
    run_narrow(sys, word, &mut table, &mut spare);
}

// Whether a word fits the room that words are read to. One that does not would be read as an empty one.
fn is_whole(sys: &System, i: usize) -> bool {
    if sys.arg_count() <= i {
        return true;
    }
    let mut word = io::buffer();
    sys.arg(i, &mut word);
    if sys.errno() != system::ENAMETOOLONG {
        return true;
    }
    tool_files::refuse(sys, b"a word is over 4,096 bytes");
    false
}

// The words that a command may have, all of them.
fn are_whole(sys: &System) -> bool {
    for i in 1..16 {
        if !is_whole(sys, i) {
            return false;
        }
    }
    true
}

fn start(sys: &System, word: &[u8]) {
    if !is_large(sys) {
        run_small(sys, word);
        return;
    }
    let mut none = [0u8; 1];
    run_large(sys, word, more_rooms(word), &mut none);
}

fn main(rt: HostRuntime) {
    let system = System::new(rt);
    let sys = &system;
    if !tool_files::open_output(sys) {
        return;
    }
    if !are_whole(sys) {
        return;
    }
    if sys.arg_count() < 2 {
        example::play(sys);
        return;
    }
    let mut word = io::buffer();
    let n = sys.arg(1, &mut word);
    match &word[..n] {
        // The words for help, as they stand in this tool and in others. What stands behind them does not matter.
        b"help" | b"--help" | b"-h" => help::say(sys),
        command => start(sys, command),
    }
}
