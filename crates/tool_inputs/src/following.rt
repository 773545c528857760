// The first reading: whether the file can be followed to its end.
use system::System;
use tool_streams::{Source, Way};

fn step(sys: &System, s: Source, path: &[u8], w: Way) -> Way {
    let mut room = [0u8; 8192];
    tool_streams::look(sys, s, path, w, &mut room)
}

// How many messages the file has, if it can be followed. A proved loop has to end, and nothing says that a file does, so the turns
// are counted.
pub fn count(sys: &System, s: Source, path: &[u8]) -> Option<usize> {
    let mut w = tool_streams::start();
    for _ in 0..4294967296usize {
        w = step(sys, s, path, w);
        if w.last == 0 {
            return messages(w);
        }
    }
    None
}

fn messages(w: Way) -> Option<usize> {
    (w.well && 0 < w.messages).then_some(w.messages)
}
