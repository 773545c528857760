// The words that the program was called with. Word 0 is its name.
ghost use Rattle.std.specs.Prelude.{◌≤◌, length};

use crate::{EINVAL, ENAMETOOLONG, System};
use std::env::{Env, FillError};

impl System {
    // Word i put at the start of the room, and its length: 0 where there is none, and where it does not fit. `errno` says which, and is 0 where the word is there.
    pub fn arg(&self, i: usize, room: &mut [u8]) -> usize
        ensures { result ≤ length room.new }
    {
        match self.rt.arg(i, room) {
            Ok(n) => {
                self.set_errno(0);
                n
            }
            Err(FillError::NotPresent) => {
                self.set_errno(EINVAL);
                0
            }
            Err(FillError::TooLong) => {
                self.set_errno(ENAMETOOLONG);
                0
            }
        }
    }

    // How many words there are.
    pub fn arg_count(&self) -> usize {
        let mut room = [0u8; 1];
        for i in 0..usize::MAX {
            if let Err(FillError::NotPresent) = self.rt.arg(i, &mut room) {
                return i;
            }
        }
        usize::MAX
    }
}
