// The system as the programs see it: the words that they were called with, what they print, and files, each known by a number as long as it is open. A call
// that fails leaves its reason here, by the system's number.
#![tactic(auto)]

mod errors;
mod files;
mod names;
mod standard;
mod words;

pub use files::Status;
use std::array;
use std::cell::{Cell, RefCell};
use std::fs::File;
use std::rt::HostRuntime;

// The reasons that are told apart.
pub const ENOENT: i32 = 2;

pub const EBADF: i32 = 9;

pub const EEXIST: i32 = 17;

pub const EINVAL: i32 = 22;

pub const EMFILE: i32 = 24;

pub const EPIPE: i32 = 32;

pub const ENAMETOOLONG: i32 = 36;

pub const EILSEQ: i32 = 84;

// The three files that every program begins with have the numbers that the system gives them.
pub const STDIN_FILENO: i32 = 0;

pub const STDOUT_FILENO: i32 = 1;

pub const STDERR_FILENO: i32 = 2;

// The number that the first of the others gets.
const FIRST_FILENO: i32 = 3;

// The most files that are open at a time.
const MOST_FILES: usize = 64;

#[derive(Drop)]
pub struct System {
    rt: HostRuntime,
    // why the last call failed
    reason: Cell<i32>,
    // whether standard output takes nothing any more
    is_shut: Cell<bool>,
    // the file with the number n stands at n - 3: below these are the three files that every program begins with
    files: RefCell<[Option<File>; MOST_FILES]>,
}

fn no_file(_place: usize) -> Option<File> {
    None
}

impl System {
    pub fn new(rt: HostRuntime) -> System {
        System {
            rt,
            reason: Cell::new(0),
            is_shut: Cell::new(false),
            files: RefCell::new(array::from_fn(no_file)),
        }
    }
}
