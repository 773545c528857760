// Lines, the words of the command line as numbers, files as they are opened, and the one line that a failure gets.
#![tactic(auto)]

use system::{STDERR_FILENO, STDOUT_FILENO, System};

// A failure is marked on descriptor 9, which the script that starts this program turns into an exit status.
// Where nobody opened that descriptor the mark is lost: no more than six files are open here at a time, so none of them has that number, but for
// a command that opens more, and that asks first (`check_mark`).
pub fn mark(sys: &System) {
    sys.mark(b"failed");
}

// Whether somebody opened that descriptor, so that no file can get its number; if not, that is said.
pub fn check_mark(sys: &System) -> bool {
    if !sys.mark(b"") {
        refuse(
            sys,
            b"descriptor 9 is not open: start the tool by its script, play",
        );
        return false;
    }
    true
}

// The first n bytes of a line of words, to standard error.
pub fn note(sys: &System, out: &[u8; 4096], n: usize) {
    if let Some(line) = out.get(..n) {
        sys.write_all(STDERR_FILENO, line);
    }
}

// The start of the line that a failure gets: the word that is meant.
fn meant(sys: &System, word: &[u8]) {
    let mut out = [0u8; 4096];
    let a = tool_words::say(&mut out, 0, b"play: ");
    let n = tool_words::text(&mut out, a, word);
    note(sys, &out, n);
}

// One line to standard error: what is wrong.
pub fn refuse(sys: &System, what: &[u8]) {
    sys.write_all(STDERR_FILENO, b"play: ");
    sys.write_all(STDERR_FILENO, what);
    sys.write_all(STDERR_FILENO, b"\n");
    mark(sys);
}

// The same with the word that is meant.
pub fn refuse_word(sys: &System, word: &[u8], what: &[u8]) {
    meant(sys, word);
    sys.write_all(STDERR_FILENO, what);
    sys.write_all(STDERR_FILENO, b"\n");
    mark(sys);
}

// The same with the system's own reason.
pub fn refuse_file(sys: &System, path: &[u8]) {
    meant(sys, path);
    sys.fail(b"");
    mark(sys);
}

// STANDARD OUTPUT

// Whether standard output can be written at all. The three descriptors are open from here on, so that no file gets the number of one of them,
// and with it the lines that are meant for it.
pub fn open_output(sys: &System) -> bool {
    for _ in 0..3 {
        sys.stand_in();
    }
    if !sys.is_output() {
        refuse_file(sys, b"standard output");
        return false;
    }
    true
}

// Standard output failed. That is said once: from then on it takes nothing, which no other reason looks like. Where nobody reads it any more nothing is
// said, and the script's status is the one of a program that is ended for that.
fn unheard(sys: &System) {
    match sys.errno() {
        system::EBADF => {}
        system::EPIPE => sys.unread(),
        _ => {
            refuse_file(sys, b"standard output");
            sys.shut_output();
        }
    }
}

// A text to standard output; whether it is written. Why not is said.
pub fn put(sys: &System, text: &[u8]) -> bool {
    if sys.write_all(STDOUT_FILENO, text) {
        return true;
    }
    unheard(sys);
    false
}

// The first n bytes of a line of words, likewise.
pub fn print(sys: &System, out: &[u8; 4096], n: usize) -> bool {
    let Some(line) = out.get(..n) else {
        return false;
    };
    put(sys, line)
}

// A word and what is said of it, likewise.
pub fn say_word(sys: &System, word: &[u8], what: &[u8]) -> bool {
    let mut out = [0u8; 4096];
    let n = tool_words::text(&mut out, 0, word);
    if !print(sys, &out, n) {
        return false;
    }
    let mut rest = [0u8; 4096];
    let a = tool_words::say(&mut rest, 0, what);
    let b = tool_words::say(&mut rest, a, b"\n");
    print(sys, &rest, b)
}

// WORDS

// Whether a word begins so.
pub fn is_begun(word: &[u8], start: &[u8]) -> bool {
    word.starts_with(start)
}

// The number that a text of decimal digits says, up to 99,999,999.
pub fn number(text: &[u8]) -> Option<usize> {
    if text.is_empty() {
        return None;
    }
    let mut n: usize = 0;
    for &x in text {
        if !x.is_ascii_digit() || 9999999 < n {
            return None;
        }
        n = 10 * n + usize::from(x - b'0');
    }
    Some(n)
}

// FILES

// Whether what is open is a plain file; what else it is is said.
pub fn check_plain(sys: &System, fd: i32, path: &[u8]) -> bool {
    let s = tool_status::of(sys, fd);
    if tool_status::is_plain(s) {
        return true;
    }
    if tool_status::is_folder(s) {
        refuse_word(sys, path, b": a directory");
        return false;
    }
    refuse_word(sys, path, b": no plain file");
    false
}

// A file opened to be read. Where it may be, it is opened for writing too: a pipe by name is otherwise waited for until somebody writes to it.
fn open(sys: &System, path: &[u8]) -> Option<i32> {
    let fd = sys.open_update(path);
    if fd.is_some() {
        return fd;
    }
    sys.open_read(path)
}

// A plain file opened to be read; where there is none, that is said.
pub fn open_plain(sys: &System, path: &[u8]) -> Option<i32> {
    let Some(fd) = open(sys, path) else {
        refuse_file(sys, path);
        return None;
    };
    if check_plain(sys, fd, path) {
        return Some(fd);
    }
    sys.close(fd);
    None
}
