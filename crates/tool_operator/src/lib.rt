// The words that say for which operator something is done, and how the rows are shared out: operator=N, and shares=A,B,..
#![tactic(auto)]

use system::System;

// The last of all words has the number 14.
const BEHIND: usize = 15;

fn is_at(sys: &System, i: usize, start: &[u8]) -> bool {
    let mut word = io::buffer();
    let n = sys.arg(i, &mut word);
    word[..n].starts_with(start)
}

// The number of the first word from `first` on that begins so.
pub fn find(sys: &System, first: usize, start: &[u8]) -> Option<usize> {
    for i in first..BEHIND {
        if is_at(sys, i, start) {
            return Some(i);
        }
    }
    None
}

// The number that a text says, for the server, which tests it.
fn number_in(text: &[u8]) -> Option<u32> {
    u32::try_from(tool_files::number(text)?).ok()
}

// The number that stands behind the first `skip` bytes of word i.
pub fn number_behind(sys: &System, i: usize, skip: usize) -> Option<u32> {
    let mut word = io::buffer();
    let n = sys.arg(i, &mut word);
    number_in(word[..n].get(skip..)?)
}

// THE OPERATOR

// What word i says, operator 0 where there is no such word. One that says no number gets its line.
pub fn operator(sys: &System, i: Option<usize>) -> Option<u32> {
    let Some(i) = i else {
        return Some(0);
    };
    let said = number_behind(sys, i, b"operator=".len());
    if said.is_none() {
        let mut word = io::buffer();
        let n = sys.arg(i, &mut word);
        tool_files::refuse_word(sys, &word[..n], b": no operator, 0 to 15");
    }
    said
}

// THE IDENTIFIERS

// The first of them, as word i says it; 1 where there is no such word. One that says no number gets its line.
pub fn first(sys: &System, i: Option<usize>) -> Option<u32> {
    let Some(i) = i else {
        return Some(1);
    };
    let said = number_behind(sys, i, b"first=".len());
    if said.is_none() {
        tool_files::refuse(sys, b"behind first= stands a number, 0 to 99999999");
    }
    said
}

// THE SHARES

// The numbers of a list behind shares=, put into the room: how many, if each is one. Of seventeen no more are read: the server wants sixteen.
fn list(text: &[u8], shares: &mut [u32; 17]) -> Option<usize> {
    let mut rest = text.get(b"shares=".len()..)?;
    for n in 0..17 {
        let end = rest.iter().position(|&x| x == b',');
        let Some(end) = end else {
            shares[n] = number_in(rest)?;
            return Some(n + 1);
        };
        shares[n] = number_in(&rest[..end])?;
        rest = &rest[end + 1..];
    }
    Some(17)
}

// All rows for one operator, and none for the others.
fn all_for(op: u32, rows: usize, shares: &mut [u32; 17]) {
    if op <= 15 && rows <= 1024 {
        shares[op as usize] = rows as u32;
    }
}

// What word i says, put into the room, which has zeros: the shares, where each is a number; else that is said. Where there is no such word the operator has
// all rows.
pub fn shares<'a>(
    sys: &System,
    i: Option<usize>,
    op: u32,
    rows: usize,
    room: &'a mut [u32; 17],
) -> Option<&'a [u32]> {
    let Some(i) = i else {
        all_for(op, rows, room);
        return Some(&room[0..16]);
    };
    let mut word = io::buffer();
    let n = sys.arg(i, &mut word);
    match list(&word[..n], room) {
        Some(k) => room.get(..k),
        None => {
            tool_files::refuse_word(
                sys,
                &word[..n],
                b": shares are numbers with a comma between two",
            );
            None
        }
    }
}
