// Files by their numbers.
ghost use Rattle.std.specs.Prelude.{◌≤◌, length};

use crate::names::text_of;
use crate::{
    EBADF, EMFILE, FIRST_FILENO, MOST_FILES, STDERR_FILENO, STDIN_FILENO, STDOUT_FILENO, System,
};
use std::fs::{File, Metadata, OpenOptions, Permissions};
use std::io::{Read, Seek, SeekFrom, Write};
use std::os::unix::fs::{MetadataExt, PermissionsExt, fchown};
use std::{fs, io};

// What the system knows of a file.
#[derive(Clone, Copy, Default)]
pub struct Status {
    pub device: u64,
    pub inode: u64,
    pub names: u64,
    pub mode: u32,
    pub owner: u32,
    pub group: u32,
}

fn status_of(known: &Metadata) -> Status {
    Status {
        device: known.dev(),
        inode: known.ino(),
        names: known.nlink(),
        mode: known.mode(),
        owner: known.uid(),
        group: known.gid(),
    }
}

fn ask(file: &File) -> io::Result<Status> {
    let known = file.metadata()?;
    Ok(status_of(&known))
}

fn ask_by_name(system: &System, path: &str) -> io::Result<Status> {
    let known = fs::metadata(&system.rt, path)?;
    Ok(status_of(&known))
}

// OPENING

fn open_old(system: &System, path: &[u8], writes: bool) -> io::Result<File> {
    OpenOptions::new()
        .read(true)
        .write(writes)
        .open(&system.rt, text_of(path)?)
}

fn open_new(system: &System, path: &[u8]) -> io::Result<File> {
    File::create_new(&system.rt, text_of(path)?)
}

fn open_to_write(system: &System, path: &str) -> io::Result<File> {
    OpenOptions::new().write(true).open(&system.rt, path)
}

// The number of a place among the files.
fn number_of(place: usize) -> Option<i32> {
    i32::try_from(place).ok()?.checked_add(FIRST_FILENO)
}

// The place of a file by its number, if it is one.
fn place_of(fd: i32) -> Option<usize> {
    usize::try_from(fd.checked_sub(FIRST_FILENO)?).ok()
}

// The file of a number, where one is open.
fn file_of(files: &[Option<File>; MOST_FILES], fd: i32) -> Option<&File> {
    files.get(place_of(fd)?)?.as_ref()
}

impl System {
    // An open file gets the lowest number that is free.
    fn keep(&self, file: File) -> Option<i32> {
        let Ok(mut files) = self.files.try_borrow_mut() else {
            return None;
        };
        let all = &mut *files;
        for i in 0..MOST_FILES {
            if all[i].is_none() {
                all[i] = Some(file);
                return number_of(i);
            }
        }
        self.set_errno(EMFILE);
        None
    }

    fn number(&self, opened: io::Result<File>) -> Option<i32> {
        self.keep(self.done(opened)?)
    }

    // The number of a file that is opened to be read, where it can be, likewise below.
    pub fn open_read(&self, path: &[u8]) -> Option<i32> {
        self.number(open_old(self, path, false))
    }

    // The same of one to be read and written. Its bytes stay as they are.
    pub fn open_update(&self, path: &[u8]) -> Option<i32> {
        self.number(open_old(self, path, true))
    }

    // The same of one that is made, where no file has the name.
    pub fn create(&self, path: &[u8]) -> Option<i32> {
        self.number(open_new(self, path))
    }

    pub fn close(&self, fd: i32) {
        let Ok(mut files) = self.files.try_borrow_mut() else {
            return;
        };
        let all = &mut *files;
        if let Some(i) = place_of(fd) {
            if i < MOST_FILES {
                all[i] = None;
            }
        }
    }

    // READING AND WRITING

    // A room filled from a file, up to its end, or to where it can not be read: how many bytes.
    pub fn read_full(&self, fd: i32, room: &mut [u8]) -> usize
        ensures { result ≤ length room.new }
    {
        if fd == STDIN_FILENO {
            let mut from = self.rt.stdin();
            return self.fill(&mut from, room);
        }
        let Ok(files) = self.files.try_borrow() else {
            return 0;
        };
        match file_of(&files, fd) {
            Some(mut file) => self.fill(&mut file, room),
            None => {
                self.set_errno(EBADF);
                0
            }
        }
    }

    fn fill<R: Read>(&self, from: &mut R, room: &mut [u8]) -> usize
        ensures { result ≤ length room.new }
    {
        let mut done: usize = 0;
        while done < room.len() {
            match from.read(&mut room[done..]) {
                Ok(0) => return done,
                Ok(n) => done += n,
                Err(e) => {
                    self.failed(&e);
                    return done;
                }
            }
        }
        done
    }

    // Whether all of a text is written.
    pub fn write_all(&self, fd: i32, text: &[u8]) -> bool {
        if fd == STDOUT_FILENO {
            return self.put_out(text);
        }
        if fd == STDERR_FILENO {
            return self.put_error(text);
        }
        self.with(fd, Work::Write(text))
    }

    // A text written to what is open by the system's own number 9, which another program opened; whether it is open.
    pub fn mark(&self, text: &[u8]) -> bool {
        match self.done(open_to_write(self, "/proc/self/fd/9")) {
            Some(mut file) => self.is_done(file.write_all(text)),
            None => false,
        }
    }

    // WHAT ELSE IS DONE WITH A FILE

    // The next byte that is read or written is the one at `at`.
    pub fn seek_to(&self, fd: i32, at: u64) -> bool {
        self.with(fd, Work::Seek(SeekFrom::Start(at)))
    }

    // The same by so many bytes further on, or back.
    pub fn seek_by(&self, fd: i32, by: i64) -> bool {
        self.with(fd, Work::Seek(SeekFrom::Current(by)))
    }

    pub fn ftruncate(&self, fd: i32, length: u64) -> bool {
        self.with(fd, Work::Cut(length))
    }

    // What was written is forced out.
    pub fn fsync(&self, fd: i32) -> bool {
        self.with(fd, Work::ForceOut)
    }

    pub fn fchown(&self, fd: i32, owner: u32, group: u32) -> bool {
        self.with(fd, Work::Own(owner, group))
    }

    pub fn fchmod(&self, fd: i32, mode: u32) -> bool {
        self.with(fd, Work::Mode(mode))
    }

    // Whether it is done with the file of a number.
    fn with(&self, fd: i32, work: Work<'_>) -> bool {
        let Ok(files) = self.files.try_borrow() else {
            return false;
        };
        match file_of(&files, fd) {
            Some(file) => self.is_done(apply(file, work)),
            None => {
                self.set_errno(EBADF);
                false
            }
        }
    }

    // What is known of an open file.
    pub fn fstat(&self, fd: i32) -> Option<Status> {
        if fd == STDOUT_FILENO {
            return self.done(ask_by_name(self, "/proc/self/fd/1"));
        }
        if fd == STDERR_FILENO {
            return self.done(ask_by_name(self, "/proc/self/fd/2"));
        }
        self.status(fd)
    }

    fn status(&self, fd: i32) -> Option<Status> {
        let Ok(files) = self.files.try_borrow() else {
            return None;
        };
        match file_of(&files, fd) {
            Some(file) => self.done(ask(file)),
            None => {
                self.set_errno(EBADF);
                None
            }
        }
    }
}

// What is done with an open file.
#[derive(Drop)]
enum Work<'a> {
    Write(&'a [u8]),
    Seek(SeekFrom),
    Cut(u64),
    ForceOut,
    Own(u32, u32),
    Mode(u32),
}

fn apply(file: &File, work: Work<'_>) -> io::Result<()> {
    let mut to = file;
    match work {
        Work::Write(text) => to.write_all(text),
        Work::Seek(at) => to.seek(at).map(|_| ()),
        Work::Cut(length) => file.set_len(length),
        Work::ForceOut => file.sync_all(),
        Work::Own(owner, group) => fchown(file, Some(owner), Some(group)),
        Work::Mode(mode) => file.set_permissions(Permissions::from_mode(mode)),
    }
}
