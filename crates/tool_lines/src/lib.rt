// A file line by line, and the bytes that a line says in hex.
#![tactic(auto)]

ghost use Rattle.std.specs.Prelude.{◌≤◌, length};

use system::System;

// A line that is longer than the room for it.
#[derive(Clone, Copy, PartialEq, Eq)]
pub struct TooLong;

// How many bytes stand before the first end of a line.
fn before_end(text: &[u8]) -> usize
    ensures { result ≤ length text.now }
{
    text.iter().position(|&x| x == b'\n').unwrap_or(text.len())
}

// The file goes on n bytes before where it is. Only a plain file can be set back; of another the rest of what was
// read is lost, so none is read by lines here.
fn set_back(sys: &System, fd: i32, n: usize) {
    if 1 <= n && n <= 65536 {
        sys.seek_by(fd, -(n as i64));
    }
}

// The next line of a plain file, if there is one, put at the start of the room without its end: how many bytes. The last line needs no end.
pub fn read(sys: &System, fd: i32, room: &mut [u8]) -> Result<Option<usize>, TooLong> {
    let got = sys.read_full(fd, room);
    if got == 0 {
        return Ok(None);
    }
    let n = before_end(&room[..got]);
    if n < got {
        set_back(sys, fd, got - n - 1);
        return Ok(Some(n));
    }
    if got < room.len() {
        return Ok(Some(got));
    }
    Err(TooLong)
}

// HEX

// The value of a digit of base 16, in either case.
fn digit(x: u8) -> Option<u8> {
    match x {
        b'0'..=b'9' => Some(x - b'0'),
        b'A'..=b'F' => Some(x - b'A' + 10),
        b'a'..=b'f' => Some(x - b'a' + 10),
        _ => None,
    }
}

// The bytes that a text says, put at the start of `m`: how many there are, if it says any. A byte has two digits, and between bytes there may be
// blanks.
pub fn bytes(text: &[u8], m: &mut [u8; 8192]) -> Option<usize> {
    let mut n: usize = 0;
    // the first digit of a byte that has begun
    let mut high = None;
    for &x in text {
        match high {
            None if x == b' ' => {}
            None => high = Some(digit(x)?),
            Some(d) => {
                let low = digit(x)?;
                if m.len() <= n {
                    return None;
                }
                m[n] = d << 4 | low;
                n += 1;
                high = None;
            }
        }
    }
    if n == 0 || high.is_some() {
        return None;
    }
    Some(n)
}
