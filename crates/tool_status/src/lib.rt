// What the system knows of an open file, as a value, and what is asked of it.
#![tactic(auto)]

use system::{Status, System};

// The part of a mode that says the kind of file, and the kinds that are told apart.
const KINDS: u32 = 0o170000;

const PLAIN: u32 = 0o100000;

const FOLDER: u32 = 0o040000;

// What is known of the file that is open as `fd`; all zero where it is not open.
pub fn of(sys: &System, fd: i32) -> Status {
    sys.fstat(fd).unwrap_or_default()
}

// Whether two files are one, whatever they are called.
pub fn are_one(a: Status, b: Status) -> bool {
    a.device == b.device && a.inode == b.inode
}

pub fn is_plain(s: Status) -> bool {
    s.mode & KINDS == PLAIN
}

pub fn is_folder(s: Status) -> bool {
    s.mode & KINDS == FOLDER
}

// Whether the mode lets the owner write. The system itself asks nothing of root.
pub fn is_writable(s: Status) -> bool {
    s.mode & 0o200 != 0
}

// The mode without the kind of file.
pub fn permissions(s: Status) -> u32 {
    s.mode & 0o7777
}
