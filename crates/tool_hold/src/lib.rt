// A table held for a change. A file beside it, TABLE.lock, keeps every other command away from it and says which process that is. The new
// table is written to TABLE.new, which is made before anything else is done, with the owner and the mode of the table, and takes the table's
// name once it is whole. Both are made only where no file has their names, so that no link is followed and nothing is written over.
#![tactic(auto)]

mod links;
mod locks;

use system::System;
use tool_words::say;

// What is open while a table is held, or a name for one that is not there yet, and the table's form and length.
#[derive(Clone, Copy)]
pub struct Held {
    pub lock: i32,
    pub table: Option<i32>,
    pub new: i32,
    pub form: u32,
    pub length: usize,
}

// The name of a file beside the table: that of the table and an ending.
fn beside<'a>(name: &'a mut [u8; 4096], path: &[u8], end: &[u8]) -> &'a [u8] {
    let a = say(name, 0, path);
    let n = say(name, a, end);
    name.get(..n).unwrap_or(&[])
}

// THE LOCK

fn lock(sys: &System, path: &[u8]) -> Option<i32> {
    let mut name = [0u8; 4096];
    locks::make(sys, beside(&mut name, path, b".lock"), path)
}

fn unlock(sys: &System, path: &[u8], lock: i32) {
    sys.close(lock);
    let mut name = [0u8; 4096];
    sys.unlink(beside(&mut name, path, b".lock"));
}

// THE NEW TABLE

fn make(sys: &System, name: &[u8]) -> Option<i32> {
    let fd = sys.create(name);
    if fd.is_some() {
        return fd;
    }
    if sys.errno() != system::EEXIST {
        tool_files::refuse_file(sys, name);
        return None;
    }
    tool_files::refuse_word(
        sys,
        name,
        b": it is there, and under that name the new table is written first",
    );
    None
}

// The new file made.
fn new(sys: &System, path: &[u8]) -> Option<i32> {
    let mut name = [0u8; 4096];
    make(sys, beside(&mut name, path, b".new"))
}

// Whether the new file got the owner and the mode of the table.
fn liken(sys: &System, path: &[u8], table: i32, new: i32) -> bool {
    let s = tool_status::of(sys, table);
    if !sys.fchown(new, s.owner, s.group) {
        tool_files::refuse_word(sys, path, b": its owner and group could not be kept");
        return false;
    }
    if !sys.fchmod(new, tool_status::permissions(s)) {
        tool_files::refuse_word(sys, path, b": its mode could not be kept");
        return false;
    }
    true
}

// HOLDING AND LEAVING

// All that is open is closed, and what was made beside the table is gone.
pub fn leave(sys: &System, path: &[u8], h: Held) {
    if let Some(table) = h.table {
        sys.close(table);
    }
    sys.close(h.new);
    let mut name = [0u8; 4096];
    sys.unlink(beside(&mut name, path, b".new"));
    unlock(sys, path, h.lock);
}

// Whether the open file may be replaced by another: a plain one, with the right to be written, under this name alone.
fn check_replaceable(sys: &System, fd: i32, path: &[u8]) -> bool {
    if !tool_files::check_plain(sys, fd, path) {
        return false;
    }
    if links::is_link(sys, path) {
        tool_files::refuse_word(
            sys,
            path,
            b": a link, and it would be replaced: name the table itself",
        );
        return false;
    }
    let s = tool_status::of(sys, fd);
    if 1 < s.names {
        tool_files::refuse_word(
            sys,
            path,
            b": the file has another name too, and would change under this one only",
        );
        return false;
    }
    if !tool_status::is_writable(s) {
        tool_files::refuse_word(sys, path, b": its mode does not let it be written");
        return false;
    }
    true
}

// The table's file, open and replaceable.
fn open(sys: &System, path: &[u8]) -> Option<i32> {
    let Some(fd) = sys.open_update(path) else {
        tool_files::refuse_file(sys, path);
        return None;
    };
    if check_replaceable(sys, fd, path) {
        return Some(fd);
    }
    sys.close(fd);
    None
}

// The open table read, and the file for the new one made.
fn fill(
    sys: &System,
    path: &[u8],
    said: u32,
    lock: i32,
    table: i32,
    room: &mut [u8],
) -> Option<Held> {
    let found = tool_form::fill(sys, table, path, said, room)?;
    Some(Held {
        lock,
        table: Some(table),
        new: new(sys, path)?,
        form: found.form,
        length: found.length,
    })
}

fn take(sys: &System, path: &[u8], said: u32, lock: i32, room: &mut [u8]) -> Option<Held> {
    let table = open(sys, path)?;
    let h = fill(sys, path, said, lock, table, room);
    if h.is_none() {
        sys.close(table);
    }
    h
}

fn check_length(sys: &System, path: &[u8]) -> bool {
    if path.len() <= 4000 {
        return true;
    }
    tool_files::refuse_word(sys, path, b": the name is too long");
    false
}

// The table at a path, whose form was said or is 0, held and read to the start of the room. Where it can not be, that is said and nothing is left
// behind.
pub fn hold(sys: &System, path: &[u8], said: u32, room: &mut [u8]) -> Option<Held> {
    if !check_length(sys, path) {
        return None;
    }
    let lock = lock(sys, path)?;
    let Some(h) = take(sys, path, said, lock, room) else {
        unlock(sys, path, lock);
        return None;
    };
    if h.table.is_some_and(|table| liken(sys, path, table, h.new)) {
        return Some(h);
    }
    leave(sys, path, h);
    None
}

// Whether a name is free: no file has it, and no link.
fn is_free(sys: &System, path: &[u8]) -> bool {
    if links::is_link(sys, path) {
        return false;
    }
    if let Some(fd) = sys.open_update(path) {
        sys.close(fd);
        return false;
    }
    sys.errno() == system::ENOENT
}

// The file for a new table made, under a name that no file has.
fn take_name(sys: &System, path: &[u8], lock: i32) -> Option<Held> {
    if !is_free(sys, path) {
        tool_files::refuse_word(sys, path, b": the name is taken");
        return None;
    }
    Some(Held {
        lock,
        table: None,
        new: new(sys, path)?,
        form: 0,
        length: 0,
    })
}

// A name held for a table that is not there yet, in the same way.
pub fn hold_name(sys: &System, path: &[u8]) -> Option<Held> {
    if !check_length(sys, path) {
        return None;
    }
    let lock = lock(sys, path)?;
    let h = take_name(sys, path, lock);
    if h.is_none() {
        unlock(sys, path, lock);
    }
    h
}

// REPLACING

fn put_all(sys: &System, fd: i32, bytes: &[u8]) -> bool {
    sys.write_all(fd, bytes) && sys.fsync(fd)
}

// Whether the new table is written, whole and forced out; why not is said.
pub fn write_new(sys: &System, path: &[u8], h: Held, bytes: &[u8]) -> bool {
    if put_all(sys, h.new, bytes) {
        return true;
    }
    let mut name = [0u8; 4096];
    tool_files::refuse_file(sys, beside(&mut name, path, b".new"));
    false
}

// Whether the new table has taken the table's name; why not is said.
pub fn replace(sys: &System, path: &[u8]) -> bool {
    let mut name = [0u8; 4096];
    if sys.rename(beside(&mut name, path, b".new"), path) {
        return true;
    }
    tool_files::refuse_file(sys, path);
    false
}
