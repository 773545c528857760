// A line of words, made in a lent room before it is written: each function says one thing at `at` and returns where the next one goes.
// What does not fit is left out.
#![tactic(auto)]

pub fn say(out: &mut [u8; 4096], at: usize, text: &[u8]) -> usize {
    let end = at.saturating_add(text.len());
    let Some(room) = out.get_mut(at..end) else {
        return at;
    };
    room.copy_from_slice(text);
    end
}

pub fn number(out: &mut [u8; 4096], at: usize, n: u64) -> usize {
    let mut digits = [0u8; 20];
    let k = io::decimal(n, &mut digits);
    say(out, at, &digits[..k])
}

// A digit of base 16, as document 01 writes it.
fn digit(x: u8) -> u8 {
    match x {
        0..=9 => b'0' + x,
        10..=15 => b'A' + (x - 10),
        _ => b'?',
    }
}

// A byte, by two digits of base 16.
pub fn octet(out: &mut [u8; 4096], at: usize, x: u8) -> usize {
    say(out, at, &[digit(x / 16), digit(x % 16)])
}

// The bytes of `s`, each behind a blank.
pub fn octets(out: &mut [u8; 4096], at: usize, s: &[u8]) -> usize {
    let mut a = at;
    for &x in s {
        let b = say(out, a, b" ");
        a = octet(out, b, x);
    }
    a
}

// Whether a byte stands for itself in a text. What is no printable character of ASCII, and the backslash, goes by its number, so that
// no text can pass for another or steer a terminal.
fn is_plain(x: u8) -> bool {
    (b' '..=b'~').contains(&x) && x != b'\\'
}

fn letter(out: &mut [u8; 4096], at: usize, x: u8) -> usize {
    if is_plain(x) {
        return say(out, at, &[x]);
    }
    let a = say(out, at, b"\\x");
    octet(out, a, x)
}

// A text that came from outside.
pub fn text(out: &mut [u8; 4096], at: usize, s: &[u8]) -> usize {
    let mut a = at;
    for &x in s {
        a = letter(out, a, x);
    }
    a
}
