// A file of cut notices as `handle` writes it, of 256 bytes each on a table of form 1 and of 384 on one of form 2: the form that the file's length
// tells where it is not said, and the notices in words. A length that fits both forms is refused, since nothing in a notice says which one it has.
#![tactic(auto)]

use system::System;
use tool_words::{number, say};

// THE FORM

// The next bytes of a file: how many.
fn pass_over(sys: &System, fd: i32) -> usize {
    let mut room = [0u8; 4096];
    sys.read_full(fd, &mut room)
}

// How many bytes a file has. A proved loop has to end, and nothing says that a file does, so the turns are counted.
fn bytes(sys: &System, fd: i32) -> usize {
    let mut n: usize = 0;
    for _ in 0..4294967296usize {
        let got = pass_over(sys, fd);
        n = n.saturating_add(got);
        if got < 4096 {
            return n;
        }
    }
    n
}

// The line on a length that fits both forms.
fn refuse_both(sys: &System, path: &[u8], n: usize) {
    let mut out = [0u8; 4096];
    let a = say(&mut out, 0, b"play: ");
    let b = tool_words::text(&mut out, a, path);
    let c = say(&mut out, b, b": its length is that of ");
    let d = number(&mut out, c, (n / answers::NOTICE_LENGTH) as u64);
    let e = say(&mut out, d, b" notices of form 1 and of ");
    let f = number(&mut out, e, (n / answers::NOTICE_LENGTH_2) as u64);
    let g = say(&mut out, f, b" notices of form 2: say form=1 or form=2\n");
    tool_files::note(sys, &out, g);
    tool_files::mark(sys);
}

// The form that n bytes tell; that they tell none is said. No bytes are no notices, of either form.
fn as_told(sys: &System, path: &[u8], n: usize) -> Option<u32> {
    if n == 0 {
        return Some(2);
    }
    let is_first = n % answers::NOTICE_LENGTH == 0;
    let is_second = n % answers::NOTICE_LENGTH_2 == 0;
    match (is_first, is_second) {
        (true, true) => {
            refuse_both(sys, path, n);
            None
        }
        (true, false) => Some(1),
        (false, true) => Some(2),
        (false, false) => {
            tool_files::refuse_word(
                sys,
                path,
                b": no notices: its length is no multiple of 256 bytes, form 1, or of 384, form 2",
            );
            None
        }
    }
}

// The form that was said; that n bytes are no notices of it is said.
fn as_said(sys: &System, path: &[u8], n: usize, said: u32) -> Option<u32> {
    if n % tool_form::notice_length(said) == 0 {
        return Some(said);
    }
    let what = if said == 2 {
        b": no notices of form 2: its length is no multiple of 384 bytes"
    } else {
        b": no notices of form 1: its length is no multiple of 256 bytes"
    };
    tool_files::refuse_word(sys, path, what);
    None
}

// The form of the notices in a plain file, which is read to its end and goes on at its start.
fn form_of_plain(sys: &System, fd: i32, path: &[u8], said: u32) -> Option<u32> {
    let n = bytes(sys, fd);
    if !sys.seek_to(fd, 0) {
        tool_files::refuse_file(sys, path);
        return None;
    }
    if said == 0 {
        return as_told(sys, path, n);
    }
    as_said(sys, path, n, said)
}

// The form of the notices in an open file; that there are none is said. What was said of it is 0 for nothing, and has to be said of
// what is no plain file, since nobody knows how much is still to come.
pub fn form_of(sys: &System, fd: i32, path: &[u8], said: u32) -> Option<u32> {
    if tool_status::is_plain(tool_status::of(sys, fd)) {
        return form_of_plain(sys, fd, path, said);
    }
    if said == 0 {
        tool_files::refuse_word(
            sys,
            path,
            b": no plain file, so that no length tells the form: say form=1 or form=2",
        );
        return None;
    }
    Some(said)
}

// READING

// The next notice of that form, put at the start of the room: how many of its bytes there were.
pub fn read(sys: &System, fd: i32, form: u32, room: &mut [u8]) -> usize {
    match room.get_mut(..tool_form::notice_length(form)) {
        Some(notice) => sys.read_full(fd, notice),
        None => 0,
    }
}

// The line on a file that ends inside notice k.
pub fn refuse_end(sys: &System, path: &[u8], form: u32, k: usize) {
    let mut out = [0u8; 4096];
    let a = say(&mut out, 0, b"play: ");
    let b = tool_words::text(&mut out, a, path);
    let c = say(&mut out, b, b": the file ends inside notice ");
    let d = number(&mut out, c, k as u64);
    let e = say(&mut out, d, b": one has ");
    let f = number(&mut out, e, tool_form::notice_length(form) as u64);
    let g = say(&mut out, f, b" bytes\n");
    tool_files::note(sys, &out, g);
    tool_files::mark(sys);
}

// IN WORDS

// The line of notice k; whether it could be said.
fn tell(sys: &System, k: usize, form: u32, notice: &[u8; answers::NOTICE_LENGTH_2]) -> bool {
    let mut out = [0u8; 4096];
    let a = say(&mut out, 0, b"notice ");
    let b = number(&mut out, a, k as u64);
    let c = say(&mut out, b, b": cut ");
    let l = tool_notice_line::lengths_of(notice);
    let d = tool_notice_line::tunnel(&mut out, c, form, notice, l);
    let e = say(&mut out, d, b"\n");
    tool_files::print(sys, &out, e)
}

// How many notices there are, at the end.
fn say_count(sys: &System, n: usize) {
    let mut out = [0u8; 4096];
    let a = number(&mut out, 0, n as u64);
    let b = say(&mut out, a, b" notices\n");
    tool_files::print(sys, &out, b);
}

// Notice k read and said; whether there may be one more.
fn pass(sys: &System, fd: i32, path: &[u8], form: u32, k: usize) -> bool {
    let mut notice = [0u8; answers::NOTICE_LENGTH_2];
    let got = read(sys, fd, form, &mut notice);
    if got == tool_form::notice_length(form) {
        return tell(sys, k, form, &notice);
    }
    if got > 0 {
        refuse_end(sys, path, form, k);
        return false;
    }
    say_count(sys, k.saturating_sub(1));
    false
}

// A proved loop has to end, and nothing says that a file does, so the notices are counted.
pub fn list(sys: &System, fd: i32, path: &[u8], form: u32) {
    for k in 1..4294967296usize {
        if !pass(sys, fd, path, form, k) {
            return;
        }
        tool_totals::progress(sys, k, None);
    }
}
