// The three files that every program begins with, and what is known of processes.
use crate::{EBADF, EPIPE, STDERR_FILENO, STDOUT_FILENO, System};
use std::io::Write;
use std::os::fd::{AsRawFd, IntoRawFd};
use std::{fs, io, process};

impl System {
    pub(crate) fn put_out(&self, text: &[u8]) -> bool {
        if self.is_shut.get() {
            self.set_errno(EBADF);
            return false;
        }
        let mut out = self.rt.stdout();
        self.is_done(out.write_all(text))
    }

    pub(crate) fn put_error(&self, text: &[u8]) -> bool {
        let mut out = self.rt.stderr();
        if self.is_done(out.write_all(text)) {
            return true;
        }
        if self.errno() == EPIPE {
            self.unread();
        }
        false
    }

    // Nobody reads what is said. That is marked once, before a mark for anything else, and nothing more is written to standard output: what is done only once it is
    // said is not done.
    pub fn unread(&self) {
        if !self.is_shut.get() {
            self.mark(b"unread");
            self.shut_output();
        }
        self.set_errno(EPIPE);
    }

    // What a call gave; the reason is kept where it failed.
    pub(crate) fn done<T>(&self, called: io::Result<T>) -> Option<T> {
        match called {
            Ok(given) => Some(given),
            Err(e) => {
                self.failed(&e);
                None
            }
        }
    }

    pub(crate) fn is_done(&self, called: io::Result<()>) -> bool {
        self.done(called).is_some()
    }

    // Whether standard output can be written.
    pub fn is_output(&self) -> bool {
        let mut out = self.rt.stdout();
        self.done(out.write(b"")).is_some()
    }

    // Standard output takes nothing from here on.
    pub fn shut_output(&self) {
        self.is_shut.set(true);
    }

    // Something that can not be written, in the place of the lowest descriptor of the system that is closed.
    pub fn stand_in(&self) {
        if let Ok(file) = fs::File::open(&self.rt, "/dev/null") {
            if file.as_raw_fd() <= 2 {
                file.into_raw_fd();
            }
        }
    }

    // The number of this process.
    pub fn getpid(&self) -> u32 {
        process::id(self.rt.process())
    }
}
