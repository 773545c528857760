// The lock of a table: a file that is made only where there is none, with the number of the process that made it.
use system::System;
use tool_words::{number, say, text};

// The number of this process, as a line.
fn sign(sys: &System, fd: i32) {
    let mut out = [0u8; 4096];
    let a = number(&mut out, 0, u64::from(sys.getpid()));
    let n = say(&mut out, a, b"\n");
    if let Some(line) = out.get(..n) {
        sys.write_all(fd, line);
    }
}

// The number in an open lock: that of a process, which the system counts from 1.
fn signed(sys: &System, fd: i32) -> Option<usize> {
    if !tool_status::is_plain(tool_status::of(sys, fd)) {
        return None;
    }
    let mut text = io::buffer();
    let n = sys.read_full(fd, &mut text);
    let (_, line) = text[..n].split_last()?;
    tool_files::number(line).filter(|&process| process != 0)
}

fn holder(sys: &System, lock: &[u8]) -> Option<usize> {
    let fd = sys.open_update(lock)?;
    let process = signed(sys, fd);
    sys.close(fd);
    process
}

// Whether a file of the system's can be read, and has nothing in it.
fn is_blank(sys: &System, name: &[u8]) -> bool {
    let Some(fd) = sys.open_read(name) else {
        return false;
    };
    let mut text = io::buffer();
    let n = sys.read_full(fd, &mut text);
    sys.close(fd);
    n == 0
}

// The name of a file, or of the folder, that the system has for a process.
fn name_of<'a>(name: &'a mut [u8; 4096], process: usize, end: &[u8]) -> &'a [u8] {
    let a = say(name, 0, b"/proc/");
    let b = number(name, a, process as u64);
    let n = say(name, b, end);
    name.get(..n).unwrap_or(&[])
}

// Whether a process is dead and still listed, as long as nobody has asked how it ended: it has no command line any more.
fn is_dead(sys: &System, process: usize) -> bool {
    let mut name = [0u8; 4096];
    is_blank(sys, name_of(&mut name, process, b"/cmdline"))
}

// Whether the system lists a process.
fn is_listed(sys: &System, process: usize) -> bool {
    let mut name = [0u8; 4096];
    sys.is_there(name_of(&mut name, process, b""))
}

fn is_running(sys: &System, process: usize) -> bool {
    process <= 99999999 && is_listed(sys, process) && !is_dead(sys, process)
}

// Whether a lock was left by a process that is gone. A command that ended well in the meantime has removed its lock, so the lock is read again.
fn is_left(sys: &System, lock: &[u8], process: usize) -> bool {
    !is_running(sys, process) && holder(sys, lock) == Some(process)
}

// A line on a name and a process.
fn say_of(sys: &System, name: &[u8], before: &[u8], process: usize, behind: &[u8]) {
    let mut out = [0u8; 4096];
    let a = say(&mut out, 0, b"play: ");
    let b = text(&mut out, a, name);
    let c = say(&mut out, b, before);
    let d = number(&mut out, c, process as u64);
    let e = say(&mut out, d, behind);
    tool_files::note(sys, &out, e);
    tool_files::mark(sys);
}

// The lock is there: its command is at work, or was killed.
fn tell(sys: &System, lock: &[u8], path: &[u8]) {
    let Some(process) = holder(sys, lock) else {
        tool_files::refuse_word(
            sys,
            lock,
            b": there already: another command is at work on the table, or was killed as it began; if none is, remove it",
        );
        return;
    };
    if is_left(sys, lock, process) {
        say_of(
            sys,
            lock,
            b": left by process ",
            process,
            b", which was killed: remove it, and the table's .new beside it\n",
        );
        return;
    }
    say_of(
        sys,
        path,
        b": another command is at work on it, process ",
        process,
        b"\n",
    );
}

// The lock of that name made, open and signed; where it can not be, that is said.
pub fn make(sys: &System, name: &[u8], path: &[u8]) -> Option<i32> {
    if let Some(fd) = sys.create(name) {
        sign(sys, fd);
        return Some(fd);
    }
    if sys.errno() == system::EEXIST {
        tell(sys, name, path);
    } else {
        tool_files::refuse_file(sys, name);
    }
    None
}
