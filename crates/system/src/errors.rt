// Why a call failed.
use crate::{EINVAL, System};
use std::fmt::InlineText;
use std::io::Error;

// The bytes of a message up to the system's number, which stands behind it in brackets.
fn words_of(message: &[u8]) -> &[u8] {
    let end: &[u8] = b" (os error ";
    match message.windows(end.len()).position(|part| part == end) {
        Some(i) => &message[..i],
        None => message,
    }
}

impl System {
    // The reason of the last call that failed.
    pub fn errno(&self) -> i32 {
        self.reason.get()
    }

    pub(crate) fn set_errno(&self, reason: i32) {
        self.reason.set(reason);
    }

    pub(crate) fn failed(&self, e: &Error) {
        self.reason.set(e.raw_os_error().unwrap_or(EINVAL));
    }

    // A line to standard error: what failed, a colon and the reason in the system's words.
    pub fn fail(&self, what: &[u8]) {
        let message = InlineText::<256>::of(Error::from_raw_os_error(self.errno()));
        let words = words_of(message.as_str().as_bytes());
        self.write_all(crate::STDERR_FILENO, what);
        self.write_all(crate::STDERR_FILENO, b": ");
        self.write_all(crate::STDERR_FILENO, words);
        self.write_all(crate::STDERR_FILENO, b"\n");
    }
}
