// The files that a command writes, as ANSWERS and NOTICES of `handle`: opened as they are, emptied only once they are known to be files of their own.
#![tactic(auto)]

use system::System;
use tool_hold::Held;
use tool_inputs::Inputs;

// A file to be written, and whether it was made here.
#[derive(Clone, Copy)]
struct Sheet {
    fd: i32,
    made: bool,
}

// Both, open and empty.
#[derive(Clone, Copy)]
pub struct Sheets {
    pub answers: i32,
    pub notices: i32,
}

// A file that is there, as it is, or a new one. Why there is none is said.
fn open_one(sys: &System, path: &[u8]) -> Option<Sheet> {
    if let Some(fd) = sys.open_update(path) {
        return Some(Sheet { fd, made: false });
    }
    if sys.errno() != system::ENOENT {
        tool_files::refuse_file(sys, path);
        return None;
    }
    let Some(fresh) = sys.create(path) else {
        tool_files::refuse_file(sys, path);
        return None;
    };
    Some(Sheet {
        fd: fresh,
        made: true,
    })
}

// The file closed, and gone if it was made here.
fn give_up(sys: &System, s: Sheet, path: &[u8]) {
    sys.close(s.fd);
    if s.made {
        sys.unlink(path);
    }
}

// Whether two open files are not one and the same plain file. What is no plain file, as /dev/null, loses nothing when it is written twice.
fn is_apart(sys: &System, a: i32, b: i32) -> bool {
    let s = tool_status::of(sys, a);
    if !tool_status::is_plain(s) {
        return true;
    }
    !tool_status::are_one(s, tool_status::of(sys, b))
}

// The same where the second may not be there.
fn is_apart_from(sys: &System, a: i32, b: Option<i32>) -> bool {
    match b {
        Some(fd) => is_apart(sys, a, fd),
        None => true,
    }
}

// Whether a file is none of those that are read.
fn is_none_of(sys: &System, fd: i32, i: Inputs) -> bool {
    is_apart(sys, fd, i.requests)
        && is_apart_from(sys, fd, i.wags)
        && is_apart_from(sys, fd, i.screens)
        && is_apart_from(sys, fd, i.codes)
}

// Whether a file is none that the lines go to.
fn is_unheard(sys: &System, fd: i32) -> bool {
    is_apart(sys, fd, system::STDOUT_FILENO) && is_apart(sys, fd, system::STDERR_FILENO)
}

// Whether a file is none of those that are in use otherwise: the table, its lock, the new table, what is read, and what the lines go to.
fn is_own(sys: &System, fd: i32, h: Held, i: Inputs) -> bool {
    is_apart_from(sys, fd, h.table)
        && is_apart(sys, fd, h.lock)
        && is_apart(sys, fd, h.new)
        && is_none_of(sys, fd, i)
        && is_unheard(sys, fd)
}

// Whether the mode of a file lets it be written; if not, that is said.
fn check_mode(sys: &System, fd: i32, path: &[u8]) -> bool {
    let s = tool_status::of(sys, fd);
    if !tool_status::is_plain(s) {
        return true;
    }
    if !tool_status::is_writable(s) {
        tool_files::refuse_word(sys, path, b": its mode does not let it be written");
        return false;
    }
    true
}

// Whether a file may be written: it is none of the others, and its mode lets it be written. Why not is said.
fn check_free(sys: &System, fd: i32, path: &[u8], h: Held, i: Inputs) -> bool {
    if !is_own(sys, fd, h, i) {
        tool_files::refuse_word(
            sys,
            path,
            b": in use here already: ANSWERS and NOTICES have to be files of their own",
        );
        return false;
    }
    check_mode(sys, fd, path)
}

// Whether a file is empty from here on; what is no plain file has nothing that could be lost.
fn empty(sys: &System, fd: i32, path: &[u8]) -> bool {
    if !tool_status::is_plain(tool_status::of(sys, fd)) {
        return true;
    }
    if sys.ftruncate(fd, 0) {
        return true;
    }
    tool_files::refuse_file(sys, path);
    false
}

// A text written to a file; why not is said.
pub fn put(sys: &System, fd: i32, path: &[u8], text: &[u8]) -> bool {
    if sys.write_all(fd, text) {
        return true;
    }
    tool_files::refuse_file(sys, path);
    false
}

// Whether what was written to a file is forced out. Only a plain file can be asked for that.
pub fn force_out(sys: &System, fd: i32, path: &[u8]) -> bool {
    if !tool_status::is_plain(tool_status::of(sys, fd)) {
        return true;
    }
    if sys.fsync(fd) {
        return true;
    }
    tool_files::refuse_file(sys, path);
    false
}

// Whether both may be written.
fn are_free(
    sys: &System,
    a: i32,
    n: i32,
    answers: &[u8],
    notices: &[u8],
    h: Held,
    i: Inputs,
) -> bool {
    if !check_free(sys, a, answers, h, i) || !check_free(sys, n, notices, h, i) {
        return false;
    }
    if is_apart(sys, a, n) {
        return true;
    }
    tool_files::refuse_word(
        sys,
        notices,
        b": in use here already: ANSWERS and NOTICES have to be files of their own",
    );
    false
}

// Both emptied, once it is known that they may be.
fn start(sys: &System, a: i32, n: i32, answers: &[u8], notices: &[u8]) -> Option<Sheets> {
    let are_empty = empty(sys, a, answers) && empty(sys, n, notices);
    are_empty.then_some(Sheets {
        answers: a,
        notices: n,
    })
}

// Both files, as they are or new; or none made, which is then said.
fn open_both(sys: &System, first: &[u8], second: &[u8]) -> Option<(Sheet, Sheet)> {
    let a = open_one(sys, first)?;
    let Some(n) = open_one(sys, second) else {
        give_up(sys, a, first);
        return None;
    };
    Some((a, n))
}

// ANSWERS and NOTICES, or nothing made and nothing changed, which is then said.
pub fn open(sys: &System, h: Held, i: Inputs, answers: &[u8], notices: &[u8]) -> Option<Sheets> {
    let (a, n) = open_both(sys, answers, notices)?;
    if are_free(sys, a.fd, n.fd, answers, notices, h, i) {
        return start(sys, a.fd, n.fd, answers, notices);
    }
    give_up(sys, n, notices);
    give_up(sys, a, answers);
    None
}

// BESIDE ONE FILE THAT IS READ

// Whether a file may be written beside one that is read; why not is said.
fn check_beside(sys: &System, fd: i32, path: &[u8], read: i32) -> bool {
    if is_apart(sys, fd, read) && is_unheard(sys, fd) {
        return check_mode(sys, fd, path);
    }
    tool_files::refuse_word(
        sys,
        path,
        b": in use here already: what is written has to be a file of its own",
    );
    false
}

// Whether two files may be written there; why not is said.
fn are_beside(sys: &System, a: i32, n: i32, first: &[u8], second: &[u8], read: i32) -> bool {
    check_beside(sys, a, first, read)
        && check_beside(sys, n, second, read)
        && check_beside(sys, n, second, a)
}

// A file to be written beside one that is read, open and empty; or nothing made and nothing changed, which is then said.
pub fn open_beside(sys: &System, path: &[u8], read: i32) -> Option<i32> {
    let s = open_one(sys, path)?;
    if !check_beside(sys, s.fd, path, read) {
        give_up(sys, s, path);
        return None;
    }
    empty(sys, s.fd, path).then_some(s.fd)
}

// Two files to be written beside one that is read, open and empty; or nothing made and nothing changed, which is then said.
pub fn open_two_beside(sys: &System, first: &[u8], second: &[u8], read: i32) -> Option<Sheets> {
    let (a, n) = open_both(sys, first, second)?;
    if are_beside(sys, a.fd, n.fd, first, second, read) {
        return start(sys, a.fd, n.fd, first, second);
    }
    give_up(sys, n, second);
    give_up(sys, a, first);
    None
}
