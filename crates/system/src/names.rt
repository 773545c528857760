// Files by their names. A name has to be text (UTF-8).
use crate::System;
use std::fs::Files;
use std::{fs, io, str};

pub(crate) fn text_of(path: &[u8]) -> io::Result<&str> {
    str::from_utf8(path).map_err(|_| io::Error::from_raw_os_error(crate::EILSEQ))
}

fn remove(system: &System, path: &[u8]) -> io::Result<()> {
    fs::remove_file(&system.rt, text_of(path)?)
}

fn rename(system: &System, from: &[u8], to: &[u8]) -> io::Result<()> {
    fs::rename(&system.rt, text_of(from)?, text_of(to)?)
}

fn is_symlink(system: &System, path: &[u8]) -> io::Result<bool> {
    let known = fs::symlink_metadata(&system.rt, text_of(path)?)?;
    Ok(known.is_symlink())
}

impl System {
    // The file with this name removed; whether it was there to be removed.
    pub fn unlink(&self, path: &[u8]) -> bool {
        self.is_done(remove(self, path))
    }

    // A file under another name, in the place of one that had it; whether that was done.
    pub fn rename(&self, from: &[u8], to: &[u8]) -> bool {
        self.is_done(rename(self, from, to))
    }

    // Whether a name is that of a link.
    pub fn is_link(&self, path: &[u8]) -> bool {
        self.done(is_symlink(self, path)) == Some(true)
    }

    // Whether there is a file of this name, a link followed.
    pub fn is_there(&self, path: &[u8]) -> bool {
        text_of(path).is_ok_and(|text| fs::metadata(&self.rt, text).is_ok())
    }
}
