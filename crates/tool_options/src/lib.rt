// The words behind the files of `handle`, each of a kind of its own and said at most once; `judge` takes some of them. What a word says is read from the command line
// where it is used, so that only its number is passed around.
#![tactic(auto)]

use system::System;

// THE KINDS

#[derive(Clone, Copy, PartialEq, Eq)]
pub enum Kind {
    Hex,
    Quiet,
    Wag,
    Host,
    Realm,
    Only,
    Codes,
    Operator,
    Form,
    Board,
}

// The first of these words.
const FIRST: usize = 6;
// As many as there are kinds.
const BEHIND: usize = 16;

// The kind of a word, if it has one. What the gateway says, for all messages or for each one in a file, is one of three.
fn kind_of(word: &[u8]) -> Option<Kind> {
    match word {
        b"hex" => Some(Kind::Hex),
        b"quiet" => Some(Kind::Quiet),
        b"wag=yes" | b"wag=no" => Some(Kind::Wag),
        _ if word.starts_with(b"wags=") => Some(Kind::Wag),
        _ if word.starts_with(b"host=") => Some(Kind::Host),
        _ if word.starts_with(b"realm=") => Some(Kind::Realm),
        _ if word.starts_with(b"only=") => Some(Kind::Only),
        _ if word.starts_with(b"codes=") => Some(Kind::Codes),
        _ if word.starts_with(b"operator=") => Some(Kind::Operator),
        _ if word.starts_with(b"form=") => Some(Kind::Form),
        _ if word.starts_with(b"board=") => Some(Kind::Board),
        _ => None,
    }
}

// The kind of word i.
pub fn kind_at(sys: &System, i: usize) -> Option<Kind> {
    let mut word = io::buffer();
    let n = sys.arg(i, &mut word);
    kind_of(&word[..n])
}

// The number of the first word of a kind from `first` on.
pub fn find_from(sys: &System, first: usize, kind: Kind) -> Option<usize> {
    for i in first..BEHIND {
        if kind_at(sys, i) == Some(kind) {
            return Some(i);
        }
    }
    None
}

// The same among all the words of `handle`.
pub fn find(sys: &System, kind: Kind) -> Option<usize> {
    find_from(sys, FIRST, kind)
}

// Whether word i, if it is there, has a meaning; why not is said.
fn check_word(sys: &System, i: usize) -> bool {
    if sys.arg_count() <= i {
        return true;
    }
    let mut word = io::buffer();
    let n = sys.arg(i, &mut word);
    let Some(kind) = kind_of(&word[..n]) else {
        tool_files::refuse_word(
            sys,
            &word[..n],
            b": no word that handle takes: see play help",
        );
        return false;
    };
    if find(sys, kind) == Some(i) {
        return true;
    }
    tool_files::refuse_word(sys, &word[..n], b": a word for the same stands before it");
    false
}

// Whether all the words have a meaning.
pub fn check_words(sys: &System) -> bool {
    for i in FIRST..BEHIND {
        if !check_word(sys, i) {
            return false;
        }
    }
    true
}

// WHAT THEY SAY

// What stands behind the start of word i, which is read to the room; nothing where the word begins otherwise.
pub fn value<'a>(sys: &System, i: usize, start: &[u8], room: &'a mut [u8; 4096]) -> &'a [u8] {
    let n = sys.arg(i, room);
    room[..n].strip_prefix(start).unwrap_or(b"")
}

// The server's own host: what word i says, or the one it has otherwise.
pub fn host<'a>(sys: &System, i: Option<usize>, room: &'a mut [u8; 4096]) -> &'a [u8] {
    match i {
        Some(i) => value(sys, i, b"host=", room),
        None => b"wm.example",
    }
}

// The server's own realm, likewise.
pub fn realm<'a>(sys: &System, i: Option<usize>, room: &'a mut [u8; 4096]) -> &'a [u8] {
    match i {
        Some(i) => value(sys, i, b"realm=", room),
        None => b"example",
    }
}

// Whether word i names a file with what the gateway says to each message.
pub fn is_file_of_wags(sys: &System, i: usize) -> bool {
    let mut word = io::buffer();
    let n = sys.arg(i, &mut word);
    word[..n].starts_with(b"wags=")
}

// Whether the gateway takes every policy: it does unless word i says no.
pub fn is_wag(sys: &System, i: Option<usize>) -> bool {
    let Some(i) = i else {
        return true;
    };
    let mut word = io::buffer();
    let n = sys.arg(i, &mut word);
    !matches!(&word[..n], b"wag=no")
}
